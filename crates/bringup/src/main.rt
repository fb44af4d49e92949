//! A tour of the translation unit as far as it is built: what a protected memory is, and one access.
#![tactic(auto)]

mod nested;

use memory::flat::Flat;
use memory::paired::Paired;
use memory::protected::{Mark, ProtectedMemory};
use memory::zeroing::zero_frame;
use std::alloc::{AllocError, Global};

// Tells the size of a memory.
fn tell_size<M: ProtectedMemory>(rt: &impl Print, name: &str, memory: &M) -> anyhow::Result<()> {
    let size = memory.size();
    let frames = memory.frames();
    println!(rt; "{name} has {size} bytes in {frames} frames of 4096.")?;
    Ok(())
}

// Writes a doubleword, and tells what is then read there.
fn tell_write<M: ProtectedMemory>(
    rt: &impl Print,
    memory: &mut M,
    addr: u64,
    value: u64,
) -> anyhow::Result<()> {
    memory.write(addr, value)?;
    let read = memory.read(addr)?;
    println!(rt; "Wrote {value:#018x} at {addr:#06x}, and read back {read:#018x}.")?;
    Ok(())
}

// Tells what is read at an address, or that it is declined.
fn tell_read<M: ProtectedMemory>(rt: &impl Print, memory: &M, addr: u64) -> anyhow::Result<()> {
    match memory.read(addr) {
        Ok(value) => println!(rt; "Reading at {addr:#06x} gives {value:#018x}.")?,
        Err(declined) => println!(rt; "Reading at {addr:#06x} is {declined}.")?,
    }
    Ok(())
}

// Tells each frame's mark.
fn tell_marks<M: ProtectedMemory>(rt: &impl Print, memory: &M) -> anyhow::Result<()> {
    for frame in 0..memory.frames() {
        let mark = memory.mark(frame)?;
        println!(rt; "Frame {frame} is {mark}.")?;
    }
    Ok(())
}

// Asks for what no memory of four frames has.
fn tell_declines<M: ProtectedMemory>(rt: &impl Print, memory: &mut M) -> anyhow::Result<()> {
    for addr in [0x4000u64, 0x1004] {
        match memory.write(addr, u64::MAX) {
            Ok(()) => println!(rt; "Writing at {addr:#06x} is done.")?,
            Err(declined) => println!(rt; "Writing at {addr:#06x} is {declined}.")?,
        }
    }
    match memory.set_mark(4, Mark::Secure) {
        Ok(()) => println!(rt; "Marking frame 4 is done.")?,
        Err(declined) => println!(rt; "Marking frame 4 is {declined}.")?,
    }
    Ok(())
}

// Works on the two memories end to end.
fn work<M: ProtectedMemory>(rt: &impl Print, memory: &mut M) -> anyhow::Result<()> {
    tell_size(rt, "The pair of them", memory)?;
    tell_write(rt, memory, 0x1FF8, 0x1122_3344_5566_7788)?;
    tell_write(rt, memory, 0x2000, 0x99AA_BBCC_DDEE_FF00)?;
    println!(rt; "Marking frame 2 secure.")?;
    memory.set_mark(2, Mark::Secure)?;
    tell_marks(rt, memory)?;
    println!(rt; "Filling frame 1 with zeros.")?;
    zero_frame(memory, 1)?;
    tell_read(rt, memory, 0x1FF8)?;
    tell_read(rt, memory, 0x2000)
}

// The buffers that a flat memory lies over.
#[derive(Clone, PartialEq, Drop)]
struct Buffers {
    bytes: Vec<u8>,
    marks: Vec<u8>,
}

impl Buffers {
    fn new(heap: Global, bytes: usize, marks: usize) -> Result<Buffers, AllocError> {
        Ok(Buffers {
            bytes: vec![in heap; 0u8; bytes]?,
            marks: vec![in heap; 0u8; marks]?,
        })
    }

    fn memory(&mut self) -> Flat<'_> {
        Flat {
            bytes: self.bytes.as_mut_slice(),
            marks: self.marks.as_mut_slice(),
        }
    }
}

// The buffers of the tour's two flat memories.
#[derive(Clone, PartialEq, Drop)]
struct Pair {
    low: Buffers,
    high: Buffers,
}

impl Pair {
    // The two memories end to end.
    fn memory(&mut self) -> Paired<Flat<'_>, Flat<'_>> {
        Paired {
            first: self.low.memory(),
            second: self.high.memory(),
        }
    }
}

fn tour(rt: &(impl Print + AllocGlobal)) -> anyhow::Result<()> {
    println!(rt;
        "A protected memory is bytes in frames of 4096, and each frame is ordinary or secure."
    )?;
    let mut pair = Pair {
        low: Buffers::new(rt.alloc(), 8192, 2)?,
        high: Buffers::new(rt.alloc(), 10000, 3)?,
    };
    let mut memory = pair.memory();
    tell_size(
        rt,
        "A flat memory over 8192 bytes and 2 mark bytes",
        &memory.first,
    )?;
    tell_size(
        rt,
        "A flat memory over 10000 bytes and 3 mark bytes",
        &memory.second,
    )?;
    work(rt, &mut memory)?;
    tell_buffers(rt, &pair)?;
    let before = pair.clone()?;
    tell_declines(rt, &mut pair.memory())?;
    if pair == before {
        println!(rt; "No byte and no mark has changed by what was declined.")?;
    } else {
        println!(rt; "What was declined has changed the buffers.")?;
    }
    tell_tables(rt, rt.alloc())
}

// Tells accesses through tables in a memory of eight frames.
fn tell_tables(rt: &impl Print, heap: Global) -> anyhow::Result<()> {
    println!(rt; "Now eight frames, with tables in them.")?;
    let mut buffers = Buffers::new(heap, 32768, 8)?;
    nested::tell_nested(rt, &mut buffers.memory())
}

// Tells what the caller finds in its own buffers.
fn tell_buffers(rt: &impl Print, pair: &Pair) -> anyhow::Result<()> {
    let marks = pair.low.marks.as_slice();
    let more = pair.high.marks.as_slice();
    println!(rt; "The mark bytes are now {marks:?} and {more:?}.")?;
    if let Some(first) = pair.high.bytes.first() {
        println!(rt; "The second buffer begins with the byte {first:#04x}.")?;
    }
    Ok(())
}

fn main(rt: HostRuntime) -> anyhow::Result<()> {
    tour(&rt)
}
