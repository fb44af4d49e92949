//! One load through a process's tree under a partition's tree, and one that is refused.
use memory::protected::{Mark, ProtectedMemory};
use reference::{REGISTERS, TABLES, USER, lay, leaf_bits};
use translation::access::load;
use translation::fault::Fault;
use translation::operand::Operand;
use translation::registers::{Context, Registers};

// Tells a leaf's doubleword, with its reference and change bits.
fn tell_leaf<M: ProtectedMemory>(
    rt: &impl Print,
    memory: &M,
    name: &str,
    addr: u64,
) -> anyhow::Result<()> {
    let leaf = memory.read(addr)?;
    let bits = leaf_bits(leaf);
    println!(rt; "{name}, at {addr:#06x}, is the leaf {leaf:#018x}: {bits}.")?;
    Ok(())
}

// Tells both leaves.
fn tell_leaves<M: ProtectedMemory>(rt: &impl Print, memory: &M) -> anyhow::Result<()> {
    tell_leaf(rt, memory, "The process tree's first entry", 0x6000)?;
    tell_leaf(rt, memory, "The partition tree's first entry", 0x2000)
}

// Tells a fault.
fn tell_fault(rt: &impl Print, fault: &Fault) -> anyhow::Result<()> {
    let Fault {
        real,
        vector,
        count,
        ..
    } = *fault;
    println!(rt; "It is refused: {fault}.")?;
    println!(rt;
        "The real address is {real:#06x} and the vector {vector:#x}; {count} table doublewords were read."
    )?;
    Ok(())
}

// Tells a load of the doubleword at effective address 0.
fn tell_load<M: ProtectedMemory>(
    rt: &impl Print,
    memory: &mut M,
    registers: &Registers,
    context: &Context,
) -> anyhow::Result<()> {
    let operand = Operand::new(8, 0, 0)?;
    println!(rt; "A process of partition 1 loads the doubleword at effective address 0.")?;
    match load(registers, context, memory, &operand) {
        Ok((value, real, count)) => {
            println!(rt;
                "It gets {value:#018x} from real address {real:#06x}; {count} table doublewords were read."
            )?;
            Ok(())
        }
        Err(fault) => tell_fault(rt, &fault),
    }
}

/// Writes tables into a memory of eight frames, and tells loads through them.
pub fn tell_nested<M: ProtectedMemory>(rt: &impl Print, memory: &mut M) -> anyhow::Result<()> {
    let registers = Registers {
        hrmor: 0,
        ..REGISTERS
    };
    lay(memory, &TABLES)?;
    println!(rt;
        "The partition table's entry at 0x1010 names a tree at 0x2000 and a process table at 0x4000."
    )?;
    println!(rt; "The process table's entry at 0x4010 names a tree at 0x6000.")?;
    tell_leaves(rt, memory)?;
    tell_load(rt, memory, &registers, &USER)?;
    tell_leaves(rt, memory)?;
    tell_load(rt, memory, &registers, &USER)?;
    println!(rt; "Marking frame 0 secure.")?;
    memory.set_mark(0, Mark::Secure)?;
    tell_load(rt, memory, &registers, &USER)
}
