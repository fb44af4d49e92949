//! Why a call is declined, and how an access ends that gives no answer.
ghost use Rattle.std.specs.Prelude.{◌≡◌, Some};
ghost use Rattle.machine.specs.declared.refusal.Refusal.TheVariants.{NoFrame};
ghost use Rattle.machine.specs.declared.refusal.Stop.TheVariants.{Declined};
ghost use Rattle.machine.specs.Refusals.{refusal_number, refusal_text, refusal_of, stop_text};

use memory::protected;
use std::error::Error;
use std::fmt;
use translation::fault::Fault;
use translation::widths::Unaskable;

/// Why a call is declined, numbered in the order in which refusals are checked; a declined call changes nothing.
#[derive(Debug, Clone, Copy, PartialEq, Eq)]
pub enum Refusal {
    /// PTCR has a reserved bit, a size field above 24, or a base that is no multiple of the table's size.
    PartitionTable = 1,
    /// HRMOR or URMOR is not a multiple of 4,096 below 2^57.
    RealOffset = 2,
    /// The thread number is 8 or more.
    NoThread = 3,
    /// The context's LPID or PID is out of range, it breaks a rule of contexts, or it is secure with the facility off.
    BadContext = 4,
    /// The width of a load or store is not 1, 2, 4 or 8.
    OddWidth = 5,
    /// The effective address is no multiple of the width.
    Misaligned = 6,
    /// A store's value does not fit its width.
    TooWide = 7,
    /// The thread that marks is not an ultravisor.
    NotUltravisor = 8,
    /// The frame lies beyond the memory.
    NoFrame = 9,
}

impl From<Refusal> for u64 {
    ghost from_gives = { λ refusal number. number ≡ refusal_number refusal };

    fn from(refusal: Refusal) -> Self {
        refusal as u64
    }
}

impl From<Unaskable> for Refusal {
    ghost from_gives = { λ unaskable refusal. refusal ≡ refusal_of unaskable };

    fn from(unaskable: Unaskable) -> Self {
        match unaskable {
            Unaskable::OddWidth => Self::OddWidth,
            Unaskable::Misaligned => Self::Misaligned,
            Unaskable::TooWide => Self::TooWide,
        }
    }
}

/// What the memory declines of a frame: a machine itself asks it for nothing else.
impl From<protected::Declined> for Refusal {
    ghost from_gives = { λ _ refusal. refusal ≡ NoFrame };

    fn from(_declined: protected::Declined) -> Self {
        Self::NoFrame
    }
}

impl fmt::Display for Refusal {
    ghost output = { λ r. Some (refusal_text r) };

    fn fmt<W: fmt::Write>(&self, f: &mut fmt::Formatter<W>) -> fmt::Result {
        f.write_str(match self {
            Refusal::PartitionTable => "declined (1): PTCR names no partition table",
            Refusal::RealOffset => "declined (2): the offset is no multiple of 4096 below 2^57",
            Refusal::NoThread => "declined (3): there is no such thread",
            Refusal::BadContext => "declined (4): no thread may have this context",
            Refusal::OddWidth => "declined (5): the width is not 1, 2, 4 or 8",
            Refusal::Misaligned => "declined (6): the address is no multiple of the width",
            Refusal::TooWide => "declined (7): the value does not fit the width",
            Refusal::NotUltravisor => "declined (8): only an ultravisor may mark frames",
            Refusal::NoFrame => "declined (9): the frame lies beyond the memory",
        })
    }
}

impl Error for Refusal {}

/// Why an access gives no answer: it was declined and has changed nothing, or it stopped with a fault.
#[derive(Debug, Clone, Copy, PartialEq, Eq)]
pub enum Stop {
    Declined(Refusal),
    Faulted(Fault),
}

impl From<Refusal> for Stop {
    ghost from_gives = { λ refusal stop. stop ≡ Declined refusal };

    fn from(refusal: Refusal) -> Self {
        Self::Declined(refusal)
    }
}

impl From<Unaskable> for Stop {
    ghost from_gives = { λ unaskable stop. stop ≡ Declined (refusal_of unaskable) };

    fn from(unaskable: Unaskable) -> Self {
        Self::Declined(unaskable.into())
    }
}

impl fmt::Display for Stop {
    ghost output = { λ stop. Some (stop_text stop) };

    fn fmt<W: fmt::Write>(&self, f: &mut fmt::Formatter<W>) -> fmt::Result {
        match self {
            Stop::Declined(refusal) => write!(f, "{refusal}"),
            Stop::Faulted(fault) => write!(f, "{fault}"),
        }
    }
}

impl Error for Stop {}
