//! The calls that a machine takes, and what they answer.
use crate::refusal::{Refusal, Stop};
use memory::protected::Mark;
use translation::fault::Fault;
use translation::registers::Context;

/// A call, with the number of the thread that makes it.
// The number stands in each kind: a struct of a thread and a kind has every caller spell two layers for one call. A struct
// of width, base and index is no plainer: each call would spell it, and `Operand::new`, which makes one, take it apart.
#[derive(Clone, Copy)]
pub enum Call {
    /// The thread changes its context.
    Enter {
        thread: u64,
        context: Context,
    },
    /// It loads a datum of `width` bytes at base plus index.
    Load {
        thread: u64,
        width: u64,
        base: u64,
        index: u64,
    },
    /// It stores a value of `width` bytes there.
    Store {
        thread: u64,
        width: u64,
        base: u64,
        index: u64,
        value: u64,
    },
    /// It fetches the four bytes of an instruction.
    Fetch {
        thread: u64,
        base: u64,
        index: u64,
    },
    /// It marks a frame.
    Mark {
        thread: u64,
        frame: u64,
        mark: Mark,
    },
    /// It asks for its fault record.
    Report {
        thread: u64,
    },
}

/// What a call answers.
#[derive(Debug, Clone, Copy, PartialEq, Eq)]
pub enum Answer {
    /// Of enter and mark: done, or declined.
    Done(Result<(), Refusal>),
    /// Of load and fetch: the value, the real address and the count.
    Loaded(Result<(u64, u64, u64), Stop>),
    /// Of store: the real address and the count.
    Stored(Result<(u64, u64), Stop>),
    /// Of report: the fault record, or none.
    Reported(Result<Option<Fault>, Refusal>),
}
