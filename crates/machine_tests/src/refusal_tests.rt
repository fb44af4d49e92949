//! Each refusal, first in order while later ones hold too; and that a declined call changes nothing.
use crate::{declined, enter, load, look_at, mark, setup, store};
use machine::calls::Call;
use machine::machine::Machine;
use machine::refusal::Refusal;
use machine::setup::Setup;
use memory::protected::{Mark, ProtectedMemory};
use reference::{FIRST, Frames, SECURE_USER, TABLES, ULTRAVISOR, USER, lay};
use std::alloc::Global;
use std::process::Abort;
use std::test::Fail;
use translation::registers::Context;

// Each call is declined so, and after all of them the machine is as it was.
fn all_declined<M: ProtectedMemory>(
    rt: &impl Abort,
    heap: Global,
    machine: &mut Machine<M>,
    cases: &[(Call, Refusal)],
) -> Result<(), Fail> {
    let before = look_at(heap, machine)?;
    for (call, refusal) in cases {
        assert_eq!(rt; machine.call(*call), declined(call, *refusal));
    }
    assert!(rt; look_at(heap, machine)? == before);
    Ok(())
}

// Contexts that break one rule each: LPID, PID, all of S, HV and PR, a translated ultravisor, an untranslated process, a
// guest of partition 0.
fn bad_contexts() -> [Context; 8] {
    [
        Context {
            lpid: 4096,
            ..FIRST
        },
        Context {
            pid: 1_048_576,
            ..FIRST
        },
        Context {
            hv: true,
            ..SECURE_USER
        },
        Context {
            ir: true,
            ..ULTRAVISOR
        },
        Context {
            dr: true,
            ..ULTRAVISOR
        },
        Context { ir: false, ..USER },
        Context { dr: false, ..USER },
        Context { lpid: 0, ..USER },
    ]
}

fn fetch(thread: u64, base: u64) -> Call {
    Call::Fetch {
        thread,
        base,
        index: 0,
    }
}

fn narrow_load(thread: u64, width: u64) -> Call {
    Call::Load {
        thread,
        width,
        base: 1,
        index: 0,
    }
}

// Thread 0 is an ultravisor, all others are hypervisors.
fn cases() -> [(Call, Refusal); 22] {
    [
        (enter(8, bad_contexts()[0]), Refusal::NoThread),
        (store(8, 3, 1, u64::MAX), Refusal::NoThread),
        (load(u64::MAX, 1), Refusal::NoThread),
        (fetch(8, 1), Refusal::NoThread),
        (mark(9, u64::MAX, Mark::Secure), Refusal::NoThread),
        (Call::Report { thread: 8 }, Refusal::NoThread),
        (store(1, 3, 1, u64::MAX), Refusal::OddWidth),
        (store(1, 0, 1, u64::MAX), Refusal::OddWidth),
        (store(1, 16, 1, 0), Refusal::OddWidth),
        (narrow_load(1, 5), Refusal::OddWidth),
        (store(1, 2, 1, 0x1_0000), Refusal::Misaligned),
        (store(1, 8, 4, 0), Refusal::Misaligned),
        (load(1, u64::MAX), Refusal::Misaligned),
        (narrow_load(1, 2), Refusal::Misaligned),
        (fetch(1, 2), Refusal::Misaligned),
        (store(1, 1, 0, 0x100), Refusal::TooWide),
        (store(1, 2, 0, 0x1_0000), Refusal::TooWide),
        (store(1, 4, 0, 0x1_0000_0000), Refusal::TooWide),
        (mark(1, 0, Mark::Secure), Refusal::NotUltravisor),
        (mark(1, 8, Mark::Secure), Refusal::NotUltravisor),
        (mark(0, 8, Mark::Secure), Refusal::NoFrame),
        (mark(0, u64::MAX, Mark::Ordinary), Refusal::NoFrame),
    ]
}

// The machine of the cases: thread 0 an ultravisor, and a fault on record for thread 2.
fn prepare<M: ProtectedMemory>(rt: &impl Abort, machine: &mut Machine<M>) -> Result<(), Refusal> {
    machine.enter(0, ULTRAVISOR)?;
    assert!(rt; machine.load(2, 8, 0x9000, 0).is_err());
    Ok(())
}

#[test]
fn refusals_in_order(rt: HostRuntime) -> Result<(), Fail> {
    let mut frames = Frames::<32768, 8>::new();
    let mut memory = frames.memory();
    lay(&mut memory, &TABLES)?;
    let mut machine = setup()?.start(memory);
    prepare(&rt, &mut machine)?;
    all_declined(&rt, rt.alloc(), &mut machine, &cases())?;
    for context in bad_contexts() {
        let case = (enter(3, context), Refusal::BadContext);
        all_declined(&rt, rt.alloc(), &mut machine, &[case])?;
    }
    Ok(())
}

// With the facility off no thread becomes secure.
#[test]
fn secure_without_the_facility(rt: HostRuntime) -> Result<(), Fail> {
    let mut frames = Frames::<4096, 1>::new();
    let memory = frames.memory();
    let mut machine = Setup::new().start(memory);
    let cases = [
        (enter(0, ULTRAVISOR), Refusal::BadContext),
        (enter(0, SECURE_USER), Refusal::BadContext),
    ];
    all_declined(&rt, rt.alloc(), &mut machine, &cases)
}

// The numbers are 1 to 9 in the order in which they are checked.
#[test]
fn numbers_of_refusals(rt: HostRuntime) {
    let all = [
        (Refusal::PartitionTable, 1u64),
        (Refusal::RealOffset, 2),
        (Refusal::NoThread, 3),
        (Refusal::BadContext, 4),
        (Refusal::OddWidth, 5),
        (Refusal::Misaligned, 6),
        (Refusal::TooWide, 7),
        (Refusal::NotUltravisor, 8),
        (Refusal::NoFrame, 9),
    ];
    for (refusal, number) in all {
        assert_eq!(rt; u64::from(refusal), number);
    }
}
