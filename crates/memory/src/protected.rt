//! What a protected memory is: a list of bytes, and one mark for each frame of 4,096 bytes.
ghost use Rattle.std.specs.Prelude.{◌≡◌, Some, codes};
ghost use Rattle.memory.specs.Protected.{Meaning, size_of, frames_of, has_frame, holds, read_at, written, mark_at, marked, answered, number_of, is_secure, mark_text};
ghost use Rattle.memory.specs.Soundness.{Sound, ReflexiveTransitive};

use std::error::Error;
use std::fmt;

/// The most frames that a memory has.
pub(crate) const MOST_FRAMES: u64 = 1 << 28;

/// The most bytes that a memory has.
pub(crate) const MOST_BYTES: u64 = MOST_FRAMES * 4096;

/// A frame's mark.
#[derive(Debug, Clone, Copy, PartialEq, Eq)]
pub enum Mark {
    Ordinary = 0,
    Secure = 1,
}

impl Mark {
    /// Whether the mark is secure.
    pub fn is_secure(self) -> bool
        ensures { result ≡ is_secure self }
    {
        matches!(self, Mark::Secure)
    }
}

/// A mark's number.
impl From<Mark> for u8 {
    ghost from_gives = { λ mark n. n ≡ number_of mark };

    fn from(mark: Mark) -> u8 {
        mark as u8
    }
}

impl fmt::Display for Mark {
    ghost output = { λ m. Some (mark_text m) };

    fn fmt<W: fmt::Write>(&self, f: &mut fmt::Formatter<W>) -> fmt::Result {
        match self {
            Mark::Ordinary => f.write_str("ordinary"),
            Mark::Secure => f.write_str("secure"),
        }
    }
}

/// The one refusal: no doubleword lies at the address, or the frame lies beyond the memory.
#[derive(Debug, Clone, Copy, PartialEq, Eq)]
pub struct Declined;

// Written out, so that its text stands in a clause: a derived one would be its own promise.
impl fmt::Display for Declined {
    ghost output = { λ _. Some (codes "declined: the memory has no such doubleword or frame") };

    fn fmt<W: fmt::Write>(&self, f: &mut fmt::Formatter<W>) -> fmt::Result {
        f.write_str("declined: the memory has no such doubleword or frame")
    }
}

impl Error for Declined {}

/// A protected memory. Every method's contract is an equation with the definitions of `specs/Protected.antt`.
pub trait ProtectedMemory {
    // what the memory means: its bytes and its marks
    ghost meaning: { Self → Meaning };

    // what every memory shows of its meaning
    ghost sound: { (m : Self) → Sound (meaning m) };

    // that the second stands on the storage of the first, and left what lies outside the meaning as it was
    ghost keeps: { Self → Self → Type 0 };

    ghost keeping: { ReflexiveTransitive keeps };

    /// The number of bytes.
    fn size(&self) -> u64
        ensures { result ≡ size_of (meaning self.now) };

    /// The number of frames.
    fn frames(&self) -> u64
        ensures { result ≡ frames_of (meaning self.now) }
    {
        self.size() / 4096
    }

    /// The big-endian doubleword at an address.
    fn read(&self, addr: u64) -> Result<u64, Declined>
        ensures { result ≡ read_at (meaning self.now) addr };

    /// Writes a big-endian doubleword at an address.
    fn write(&mut self, addr: u64, value: u64) -> Result<(), Declined>
        ensures answer { result ≡ answered (holds (meaning self.old) addr) }
        ensures after { meaning self.new ≡ written (meaning self.old) addr value }
        ensures keeps { keeps self.old self.new };

    /// A frame's mark.
    fn mark(&self, frame: u64) -> Result<Mark, Declined>
        ensures { result ≡ mark_at (meaning self.now) frame };

    /// Sets a frame's mark.
    fn set_mark(&mut self, frame: u64, mark: Mark) -> Result<(), Declined>
        ensures answer { result ≡ answered (has_frame (meaning self.old) frame) }
        ensures after { meaning self.new ≡ marked (meaning self.old) frame mark }
        ensures keeps { keeps self.old self.new };
}
