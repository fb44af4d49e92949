//! Fault records, and marks.
use crate::checks::answers_are;
use crate::{enter, load, mark, setup, store};
use machine::calls::{Answer, Call};
use machine::refusal::Stop;
use memory::flat::Flat;
use memory::protected::Mark;
use reference::{FIRST, Frames, ULTRAVISOR};
use std::test::Fail;
use translation::fault::{Cause, Fault, Layer, Purpose};
use translation::registers::Context;

// A real-mode access of eight bytes at the end of a memory of four frames, with HRMOR 0x3000.
fn beyond(store: bool) -> Fault {
    Fault {
        cause: Cause::Beyond,
        layer: Layer::Storage,
        purpose: Purpose::Datum,
        depth: 0,
        ea: 0x4000,
        guest: 0,
        real: 0x7000,
        vector: 0x200,
        store,
        count: 0,
    }
}

fn report(thread: u64) -> Call {
    Call::Report { thread }
}

fn recorded(fault: Fault) -> Answer {
    Answer::Reported(Ok(Some(fault)))
}

fn another_process() -> Context {
    Context { pid: 7, ..FIRST }
}

const DONE: Answer = Answer::Done(Ok(()));

const NONE: Answer = Answer::Reported(Ok(None));

// A fault is its own thread's record until another takes its place, or S changes.
fn record_steps() -> [(Call, Answer); 13] {
    [
        (
            load(5, 0x4000),
            Answer::Loaded(Err(Stop::Faulted(beyond(false)))),
        ),
        (report(5), recorded(beyond(false))),
        (report(4), NONE),
        (load(5, 0x8), Answer::Loaded(Ok((0, 0x3008, 0)))),
        (report(5), recorded(beyond(false))),
        (
            store(5, 8, 0x4000, 1),
            Answer::Stored(Err(Stop::Faulted(beyond(true)))),
        ),
        (report(5), recorded(beyond(true))),
        (enter(5, another_process()), DONE),
        (report(5), recorded(beyond(true))),
        (enter(5, ULTRAVISOR), DONE),
        (report(5), NONE),
        (enter(5, FIRST), DONE),
        (report(5), NONE),
    ]
}

#[test]
fn records_of_faults(rt: HostRuntime) -> Result<(), Fail> {
    let mut frames = Frames::<16384, 4>::new();
    let memory = frames.memory();
    answers_are(&rt, &mut setup()?.start(memory), &record_steps())
}

fn loaded(value: u64, real: u64) -> Answer {
    Answer::Loaded(Ok((value, real, 0)))
}

fn stored(real: u64) -> Answer {
    Answer::Stored(Ok((real, 0)))
}

// A frame is zeroed only as it turns from secure to ordinary. The ultravisor's URMOR is 0.
fn mark_steps() -> [(Call, Answer); 11] {
    [
        (enter(0, ULTRAVISOR), DONE),
        (store(0, 8, 0x1000, 77), stored(0x1000)),
        (store(0, 8, 0x2000, 88), stored(0x2000)),
        (mark(0, 1, Mark::Ordinary), DONE),
        (load(0, 0x1000), loaded(77, 0x1000)),
        (mark(0, 1, Mark::Secure), DONE),
        (load(0, 0x1000), loaded(77, 0x1000)),
        (mark(0, 1, Mark::Ordinary), DONE),
        (load(0, 0x1000), loaded(0, 0x1000)),
        (load(0, 0x2000), loaded(88, 0x2000)),
        (mark(0, 3, Mark::Secure), DONE),
    ]
}

// A mark byte that is nonzero already keeps its value when the frame is marked secure once more.
#[test]
fn marks_and_zeros(rt: HostRuntime) -> Result<(), Fail> {
    let mut bytes = [0u8; 16384];
    let mut marks = [0u8, 0, 0, 5];
    let mut machine = setup()?.start(Flat {
        bytes: &mut bytes,
        marks: &mut marks,
    });
    answers_are(&rt, &mut machine, &mark_steps())?;
    let memory = machine.into_memory();
    assert_eq!(rt; memory.marks.first().copied(), Some(0u8));
    assert_eq!(rt; memory.marks.last().copied(), Some(5u8));
    Ok(())
}
