//! The same list of calls on two machines that differ only in a secret.
use crate::scene::{
    GUEST, HYPERVISOR, SECRET_AT, SECRET_FRAME, ULTRAVISOR, load_secret, mark_secret,
};
use crate::words;
use machine::calls::{Answer, Call};
use machine::setup::Setup;
use memory::flat::Flat;
use memory::protected::{Declined, Mark, ProtectedMemory};
use reference::{PTCR, SECURE_USER, TABLES, lay};
use std::alloc::Global;

// The list: the guest reads its secret, and the hypervisor tries to learn of it.
fn calls() -> [Call; 10] {
    let probe = load_secret(HYPERVISOR);
    [
        Call::Enter {
            thread: ULTRAVISOR,
            context: reference::ULTRAVISOR,
        },
        Call::Enter {
            thread: GUEST,
            context: SECURE_USER,
        },
        load_secret(GUEST),
        probe,
        Call::Report { thread: HYPERVISOR },
        Call::Store {
            thread: HYPERVISOR,
            width: 1,
            base: SECRET_AT,
            index: 7,
            value: 0,
        },
        Call::Load {
            thread: HYPERVISOR,
            width: 8,
            base: 0x6000,
            index: 0,
        },
        Call::Fetch {
            thread: HYPERVISOR,
            base: SECRET_AT,
            index: 0,
        },
        mark_secret(ULTRAVISOR, Mark::Ordinary),
        probe,
    ]
}

// Writes the tables and a secret, and marks the secret's frame. The machine's tests have the same three lines: one
// function for both would be public, with a definition, a contract and an edit.
fn prepare<M: ProtectedMemory>(memory: &mut M, secret: u64) -> Result<(), Declined> {
    lay(memory, &TABLES)?;
    memory.write(SECRET_AT, secret)?;
    memory.set_mark(SECRET_FRAME, Mark::Secure)
}

// Runs the list on a machine with a secret, and gives every answer.
fn run(heap: Global, secret: u64) -> anyhow::Result<Vec<Answer>> {
    // As in the task: a struct of both buffers, shared, would be longer.
    let mut bytes = vec![in heap; 0u8; 32768]?;
    let mut marks = vec![in heap; 0u8; 8]?;
    let mut memory = Flat {
        bytes: bytes.as_mut_slice(),
        marks: marks.as_mut_slice(),
    };
    prepare(&mut memory, secret)?;
    let mut setup = Setup::new();
    setup.set_ptcr(PTCR)?;
    setup.set_facility(true);
    let mut machine = setup.start(memory);
    Ok(machine.run(heap, &calls())?)
}

// Whether a call is an access of the secure guest, which ordinary threads do not see.
fn of_guest(call: &Call) -> bool {
    matches!(call, Call::Load { thread: GUEST, .. })
}

/// Runs the list twice and tells what the two runs have in common.
pub fn tell_twins(rt: &impl Print, heap: Global) -> anyhow::Result<()> {
    println!(rt; "Two machines differ in the secret of frame 5 alone.")?;
    let one = run(heap, 0x1111_1111_1111_1111)?;
    let other = run(heap, 0x2222_2222_2222_2222)?;
    let calls = calls();
    let answers = calls.iter().zip(one.iter().zip(other.iter()));
    for (_, (left, right)) in answers.clone()?.filter(|(call, _)| of_guest(call)) {
        println!(rt; "The secure guest reads its secret on both:")?;
        words::tell_answer(rt, left)?;
        words::tell_answer(rt, right)?;
    }
    let others = answers.filter(|(call, _)| !of_guest(call));
    let same = others
        .clone()?
        .filter(|(_, (left, right))| left == right)
        .count();
    let different = others.filter(|(_, (left, right))| left != right).count();
    println!(rt;
        "Of the other calls {same} answered the same on both machines, and {different} did not."
    )?;
    Ok(())
}
