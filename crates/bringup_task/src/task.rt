//! The task: an ultravisor makes a frame secure for a guest, a hypervisor is refused it, and the frame is released.
use crate::scene::{GUEST, HYPERVISOR, SECRET_AT, ULTRAVISOR, load_secret, mark_secret};
use crate::words;
use machine::calls::Call;
use machine::machine::Machine;
use machine::setup::Setup;
use memory::flat::Flat;
use memory::protected::{Mark, ProtectedMemory};
use reference::{PTCR, SECURE_USER, TABLES, leaf_bits};
use std::alloc::Global;

// Sets up a machine: one image that is refused, and then those of the task.
fn set_up(rt: &impl Print) -> anyhow::Result<Setup> {
    let mut setup = Setup::new();
    println!(rt; "Setting PTCR to 0x1020, which has a reserved bit:")?;
    if let Err(refusal) = setup.set_ptcr(0x1020) {
        words::tell_refusal(rt, refusal)?;
    }
    setup.set_ptcr(PTCR)?;
    setup.set_facility(true);
    println!(rt; "Set up: the partition table at {PTCR:#06x}, the secure memory facility on.")?;
    Ok(setup)
}

// Says what a call is, makes it, and tells its answer.
fn tell_call<M: ProtectedMemory>(
    rt: &impl Print,
    machine: &mut Machine<M>,
    what: &str,
    call: Call,
) -> anyhow::Result<()> {
    println!(rt; "{what}:")?;
    let answer = machine.call(call);
    words::tell_answer(rt, &answer)
}

// Tells the leaves of both trees, as they stand in the memory.
fn tell_leaves<M: ProtectedMemory>(rt: &impl Print, memory: &M) -> anyhow::Result<()> {
    let process = leaf_bits(memory.read(0x6000)?);
    let partition = leaf_bits(memory.read(0x2000)?);
    println!(rt;
        "The leaf of the process's tree is {process}, of the partition's tree {partition}."
    )?;
    Ok(())
}

// The ultravisor writes the tables and a secret, and makes the secret's frame secure.
fn prepare<M: ProtectedMemory>(rt: &impl Print, machine: &mut Machine<M>) -> anyhow::Result<()> {
    tell_call(
        rt,
        machine,
        "Thread 0 becomes the ultravisor",
        Call::Enter {
            thread: ULTRAVISOR,
            context: reference::ULTRAVISOR,
        },
    )?;
    println!(rt; "It writes the tables of partition 1 and its process 1.")?;
    for (addr, value) in TABLES {
        if let Err(stop) = machine.store(ULTRAVISOR, 8, addr, 0, value) {
            words::tell_stop(rt, &stop)?;
        }
    }
    let store = Call::Store {
        thread: ULTRAVISOR,
        width: 8,
        base: SECRET_AT,
        index: 0,
        value: 0x5EC2_E700_0000_0001,
    };
    tell_call(rt, machine, "It stores a secret at 0x5000", store)?;
    tell_call(
        rt,
        machine,
        "It makes frame 5 secure",
        mark_secret(ULTRAVISOR, Mark::Secure),
    )
}

// The guest reads the secret; the hypervisor is refused it.
fn use_frame<M: ProtectedMemory>(rt: &impl Print, machine: &mut Machine<M>) -> anyhow::Result<()> {
    tell_call(
        rt,
        machine,
        "Thread 1 becomes a secure guest of partition 1",
        Call::Enter {
            thread: GUEST,
            context: SECURE_USER,
        },
    )?;
    tell_leaves(rt, machine.memory())?;
    tell_call(
        rt,
        machine,
        "The guest loads the secret",
        load_secret(GUEST),
    )?;
    tell_leaves(rt, machine.memory())?;
    tell_call(
        rt,
        machine,
        "Thread 2, a hypervisor, loads the same frame",
        load_secret(HYPERVISOR),
    )?;
    let report = Call::Report { thread: HYPERVISOR };
    tell_call(rt, machine, "It reads its fault record", report)?;
    let take = mark_secret(HYPERVISOR, Mark::Ordinary);
    tell_call(rt, machine, "It tries to make the frame ordinary", take)
}

/// Tells the task.
pub fn tell_task(rt: &impl Print, heap: Global) -> anyhow::Result<()> {
    let mut bytes = vec![in heap; 0u8; 32768]?;
    let mut marks = vec![in heap; 0u8; 8]?;
    let memory = Flat {
        bytes: bytes.as_mut_slice(),
        marks: marks.as_mut_slice(),
    };
    let setup = set_up(rt)?;
    let mut machine = setup.start(memory);
    println!(rt; "Started over eight frames; each thread is a hypervisor in real mode.")?;
    prepare(rt, &mut machine)?;
    use_frame(rt, &mut machine)?;
    let release = mark_secret(ULTRAVISOR, Mark::Ordinary);
    tell_call(
        rt,
        &mut machine,
        "The ultravisor makes frame 5 ordinary again",
        release,
    )?;
    tell_call(
        rt,
        &mut machine,
        "Now the hypervisor's load goes through",
        load_secret(HYPERVISOR),
    )
}
