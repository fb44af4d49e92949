//! The eight threads: a context and a fault record each.
ghost use Rattle.std.specs.Prelude.{◌≡◌, ◌<◌, replicate, slice_set};
ghost use Rattle.machine.specs.State.{first_thread, thread_at, entering as entering_of, faulting as faulting_of};

use crate::context::first_context;
use crate::refusal::Refusal;
use std::marker::Model;
use translation::fault::Fault;
use translation::registers::Context;

/// The number of a thread, 0 to 7.
#[derive(Clone, Copy)]
pub(crate) struct ThreadNumber {
    pub(crate) index: usize,
    ghost in_range: { index < 8 },
}

impl TryFrom<u64> for ThreadNumber {
    type Error = Refusal;

    ghost use Rattle.machine.specs.Threads.{Numbers};

    ghost try_from_gives = { Numbers };

    fn try_from(number: u64) -> Result<ThreadNumber, Refusal> {
        if number >= 8 {
            return Err(Refusal::NoThread);
        }
        Ok(ThreadNumber {
            index: number as usize,
        })
    }
}

/// A thread: its context, and the fault of its last access that stopped, if any.
#[derive(Clone, Copy)]
pub(crate) struct Thread {
    pub context: Context,
    pub fault: Option<Fault>,
}

impl Thread {
    /// The thread in another context; its fault record is erased if S changes.
    pub(crate) fn entering(&self, context: Context) -> Thread
        ensures { result ≡ entering_of self.now context }
    {
        let fault = if self.context.s == context.s {
            self.fault
        } else {
            None
        };
        Thread { context, fault }
    }

    /// The thread with a fault as its record.
    pub(crate) fn faulting(&self, fault: Fault) -> Thread
        ensures { result ≡ faulting_of self.now fault }
    {
        Thread {
            fault: Some(fault),
            ..*self
        }
    }
}

/// The threads 0 to 7.
#[derive(Drop)]
pub(crate) struct Threads {
    all: [Thread; 8],
}

// They are seen as the list of them.
impl Model for Threads {
    ghost use Rattle.std.specs.Prelude.{List};
    ghost use Rattle.machine.specs.declared.threads.Thread.{Thread};

    ghost Value = { List Thread };

    ghost view = { λ threads. threads.all };
}

impl Threads {
    /// Eight threads, each in its first context and with no fault record.
    pub(crate) fn new() -> Threads
        ensures { result ≡ replicate 8 first_thread }
    {
        let first = Thread {
            context: first_context(),
            fault: None,
        };
        Threads { all: [first; 8] }
    }

    /// The thread of a number.
    pub(crate) fn get(&self, number: ThreadNumber) -> Thread
        ensures { result ≡ thread_at self.now number.index }
    {
        self.all[number.index]
    }

    /// Another thread under a number.
    pub(crate) fn put(&mut self, number: ThreadNumber, thread: Thread)
        ensures { self.new ≡ slice_set self.old number.index thread }
    {
        self.all[number.index] = thread;
    }
}
