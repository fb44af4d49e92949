//! Lists of calls: the reference tables through one list, and two lists that ordinary threads cannot tell apart.
use crate::{enter, load, mark, setup, store};
use machine::calls::{Answer, Call};
use machine::refusal::Stop;
use memory::flat::Flat;
use memory::paired::Paired;
use memory::protected::{Declined, Mark, ProtectedMemory};
use reference::{SECURE_USER, TABLES, ULTRAVISOR, USER, lay};
use std::alloc::Global;
use std::test::Fail;
use translation::fault::{Cause, Fault, Layer, Purpose};

// The fault of a load of frame 0 while it is secure.
fn secure() -> Fault {
    Fault {
        cause: Cause::Secure,
        layer: Layer::Storage,
        purpose: Purpose::Datum,
        depth: 1,
        ea: 0,
        guest: 0,
        real: 0,
        vector: 0xE00,
        store: false,
        count: 7,
    }
}

// A process loads at 0 twice and at 0x7FF8; frame 0 becomes secure; it is refused, a secure process is not.
fn reference_calls() -> [Call; 10] {
    [
        enter(0, USER),
        enter(1, ULTRAVISOR),
        enter(2, SECURE_USER),
        load(0, 0),
        load(0, 0),
        load(0, 0x7FF8),
        mark(1, 0, Mark::Secure),
        load(0, 0),
        Call::Report { thread: 0 },
        load(2, 0),
    ]
}

fn reference_answers() -> [Answer; 10] {
    [
        Answer::Done(Ok(())),
        Answer::Done(Ok(())),
        Answer::Done(Ok(())),
        Answer::Loaded(Ok((0, 0, 8))),
        Answer::Loaded(Ok((0, 0, 7))),
        Answer::Loaded(Ok((0, 0x7FF8, 7))),
        Answer::Done(Ok(())),
        Answer::Loaded(Err(Stop::Faulted(secure()))),
        Answer::Reported(Ok(Some(secure()))),
        Answer::Loaded(Ok((0, 0, 7))),
    ]
}

// Writes the tables, and a secret at 0x5000, whose frame is secure. The task's program has the same three lines: one
// function for both would be public, with a definition, a contract and an edit.
fn prepare<M: ProtectedMemory>(memory: &mut M, secret: u64) -> Result<(), Declined> {
    lay(memory, &TABLES)?;
    memory.write(0x5000, secret)?;
    memory.set_mark(5, Mark::Secure)
}

// What a list of calls answers on a machine with a secret.
fn answers(heap: Global, secret: u64, calls: &[Call]) -> Result<Vec<Answer>, Fail> {
    let mut low = [0u8; 8192];
    let mut low_marks = [0u8; 2];
    let mut high = [0u8; 24576];
    let mut high_marks = [0u8; 6];
    let mut memory = Paired {
        first: Flat {
            bytes: &mut low,
            marks: &mut low_marks,
        },
        second: Flat {
            bytes: &mut high,
            marks: &mut high_marks,
        },
    };
    prepare(&mut memory, secret)?;
    Ok(setup()?.start(memory).run(heap, calls)?)
}

#[test]
fn reference_list(rt: HostRuntime) -> Result<(), Fail> {
    let got = answers(rt.alloc(), 0, &reference_calls())?;
    assert!(rt; got.as_slice() == reference_answers().as_slice());
    Ok(())
}

#[test]
fn empty_list(rt: HostRuntime) -> Result<(), Fail> {
    assert_eq!(rt; answers(rt.alloc(), 0, &[])?.len(), 0usize);
    Ok(())
}

// What a hypervisor, thread 3, tries: a load of the secret, its record, the leaf of the process's tree, a store into the
// secret, its record again.
fn probe() -> Call {
    load(3, 0x8000_0000_0000_5000)
}

const REPORT: Call = Call::Report { thread: 3 };

fn leaf() -> Call {
    load(3, 0x8000_0000_0000_6000)
}

fn spoil() -> Call {
    store(3, 1, 0x8000_0000_0000_5007, 9)
}

fn one_list() -> [Call; 7] {
    [
        enter(2, SECURE_USER),
        load(2, 0x5000),
        probe(),
        REPORT,
        leaf(),
        spoil(),
        REPORT,
    ]
}

// The same, with other accesses and reports of the secure thread between.
fn other_list() -> [Call; 10] {
    [
        enter(2, SECURE_USER),
        load(2, 0x5000),
        probe(),
        load(2, 0x5000),
        REPORT,
        leaf(),
        Call::Report { thread: 2 },
        spoil(),
        load(2, 0xFFFF_FFFF),
        REPORT,
    ]
}

// With other secrets the hypervisor's answers are the same; the secure thread's are not.
#[test]
fn secrets_do_not_show(rt: HostRuntime) -> Result<(), Fail> {
    let left = answers(rt.alloc(), 0x1111, &one_list())?;
    let right = answers(rt.alloc(), 0x2222, &other_list())?;
    for (i, j) in [(0usize, 0usize), (2, 2), (3, 4), (4, 5), (5, 7), (6, 9)] {
        assert_eq!(rt; left.get(i).copied(), right.get(j).copied());
    }
    assert_eq!(rt;
        left.get(1).copied(),
        Some(Answer::Loaded(Ok((0x1111, 0x5000, 8))))
    );
    assert_eq!(rt;
        right.get(1).copied(),
        Some(Answer::Loaded(Ok((0x2222, 0x5000, 8))))
    );
    Ok(())
}
