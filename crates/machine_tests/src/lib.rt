//! Tests of the machine: its setup, its calls one by one, and lists of them. Expected values are worked out by hand from
//! the rules.
#![tactic(auto)]

use machine::calls::{Answer, Call};
use machine::machine::Machine;
use machine::refusal::{Refusal, Stop};
use machine::setup::Setup;
use memory::protected::{Declined, Mark, ProtectedMemory};
use reference::REGISTERS;
use std::alloc::{AllocError, Global};
use translation::fault::Fault;
use translation::registers::Context;

#[cfg(test)]
mod call_tests;
#[cfg(test)]
mod checks;
#[cfg(test)]
mod refusal_tests;
#[cfg(test)]
mod run_tests;
#[cfg(test)]
mod setup_tests;

/// A setup for the reference tables: the partition table at 0x1000, HRMOR 0x3000, the facility on.
pub fn setup() -> Result<Setup, Refusal> {
    let mut setup = Setup::new();
    setup.set_ptcr(REGISTERS.ptcr)?;
    setup.set_hrmor(REGISTERS.hrmor)?;
    setup.set_facility(REGISTERS.facility);
    Ok(setup)
}

/// All that can be seen of a machine: its threads' contexts and records, and its memory's doublewords and marks.
#[derive(PartialEq, Eq, Drop)]
pub struct Snapshot {
    contexts: Vec<Result<Context, Refusal>>,
    records: Vec<Result<Option<Fault>, Refusal>>,
    words: Vec<Result<u64, Declined>>,
    marks: Vec<Result<Mark, Declined>>,
}

/// Looks at a machine.
pub fn look_at<M: ProtectedMemory>(
    heap: Global,
    machine: &Machine<M>,
) -> Result<Snapshot, AllocError> {
    let memory = machine.memory();
    Ok(Snapshot {
        contexts: (0..8).map(|thread| machine.context(thread)).collect(heap)?,
        records: (0..8).map(|thread| machine.report(thread)).collect(heap)?,
        words: (0..memory.size())
            .step_by(8)
            .map(|addr| memory.read(addr))
            .collect(heap)?,
        marks: (0..memory.frames())
            .map(|frame| memory.mark(frame))
            .collect(heap)?,
    })
}

/// What a call answers that is declined.
// Written out, and no `into`: an expected value is not taken from the machine's own conversion.
pub fn declined(call: &Call, refusal: Refusal) -> Answer {
    match call {
        Call::Enter { .. } | Call::Mark { .. } => Answer::Done(Err(refusal)),
        Call::Load { .. } | Call::Fetch { .. } => Answer::Loaded(Err(Stop::Declined(refusal))),
        Call::Store { .. } => Answer::Stored(Err(Stop::Declined(refusal))),
        Call::Report { .. } => Answer::Reported(Err(refusal)),
    }
}

/// A change of context.
pub fn enter(thread: u64, context: Context) -> Call {
    Call::Enter { thread, context }
}

/// A store of `width` bytes.
pub fn store(thread: u64, width: u64, base: u64, value: u64) -> Call {
    Call::Store {
        thread,
        width,
        base,
        index: 0,
        value,
    }
}

/// A mark.
pub fn mark(thread: u64, frame: u64, mark: Mark) -> Call {
    Call::Mark {
        thread,
        frame,
        mark,
    }
}

/// A load of eight bytes.
pub fn load(thread: u64, base: u64) -> Call {
    Call::Load {
        thread,
        width: 8,
        base,
        index: 0,
    }
}
