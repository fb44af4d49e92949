//! The reference tables: partition 1 has one tree of 2 MiB pages at 0x2000 and a process table at 0x4000, and its
//! process 1 has one such tree at 0x6000. Each tree's first leaf maps its page to real address 0.
#![tactic(auto)]

ghost use Rattle.std.specs.Prelude.{◌≡◌, replicate};
ghost use Rattle.reference.specs.Laid.{laid};
ghost use Rattle.reference.specs.Leaf.{bits_text};

use memory::flat::Flat;
use memory::protected::{Declined, ProtectedMemory};
use translation::fields::{changed, referenced};
use translation::registers::{Context, Registers};

/// PTCR: a partition table of 4,096 bytes at 0x1000.
pub const PTCR: u64 = 0x1000;

/// The doublewords of the tables, with their addresses.
pub const TABLES: [(u64, u64); 5] = [
    (0x1010, 0x8000_0000_0000_200A),
    (0x1018, 0x8000_0000_0000_4000),
    (0x2000, 0xC000_0000_0000_0003),
    (0x4010, 0x600A),
    (0x6000, 0xC000_0000_0000_0002),
];

/// The registers: hypervisors' real addresses are offset to 0x3000, and the facility is on.
pub const REGISTERS: Registers = Registers {
    ptcr: PTCR,
    hrmor: 0x3000,
    urmor: 0,
    facility: true,
};

/// The context of a thread when the machine starts: a hypervisor in real mode.
// Written out beside the machine's own: a test that compared the machine with its own constant would show nothing.
pub const FIRST: Context = Context {
    s: false,
    hv: true,
    pr: false,
    ir: false,
    dr: false,
    sf: true,
    lpid: 0,
    pid: 0,
};

/// An ultravisor: a secure hypervisor in real mode.
pub const ULTRAVISOR: Context = Context { s: true, ..FIRST };

/// Process 1 of partition 1, in problem state.
pub const USER: Context = Context {
    s: false,
    hv: false,
    pr: true,
    ir: true,
    dr: true,
    sf: true,
    lpid: 1,
    pid: 1,
};

/// A secure guest's process: the same process, secure.
pub const SECURE_USER: Context = Context { s: true, ..USER };

/// Writes doublewords, each at its address, in order, and stops at the first address that the memory declines.
#[tactic(auto, using(crate::proofs::Laying::turn))]
pub fn lay<M: ProtectedMemory>(memory: &mut M, words: &[(u64, u64)]) -> Result<(), Declined>
    ensures answer { result ≡ (laid words.now (M.meaning memory.old)).0 }
    ensures after { M.meaning memory.new ≡ (laid words.now (M.meaning memory.old)).1 }
    ensures keeps { M.keeps memory.old memory.new }
{
    for &(addr, value) in words {
        memory.write(addr, value)?;
    }
    Ok(())
}

/// The buffers of a flat memory, on the stack.
#[derive(Drop)]
pub struct Frames<const BYTES: usize, const MARKS: usize> {
    pub bytes: [u8; BYTES],
    pub marks: [u8; MARKS],
}

impl<const BYTES: usize, const MARKS: usize> Frames<BYTES, MARKS> {
    /// Zeros, all ordinary.
    pub fn new() -> Self
        ensures bytes { result.bytes ≡ replicate BYTES 0 }
        ensures marks { result.marks ≡ replicate MARKS 0 }
    {
        Frames {
            bytes: [0; BYTES],
            marks: [0; MARKS],
        }
    }

    /// The memory over them.
    pub fn memory(&mut self) -> Flat<'_>
        ensures bytes { result.bytes.now ≡ self.old.bytes }
        ensures marks { result.marks.now ≡ self.old.marks }
    {
        Flat {
            bytes: self.bytes.as_mut_slice(),
            marks: self.marks.as_mut_slice(),
        }
    }
}

/// A leaf's reference and change bits, in words.
pub fn leaf_bits(leaf: u64) -> &'static str
    ensures { result.now ≡ bits_text leaf }
{
    match (referenced(leaf), changed(leaf)) {
        (false, false) => "neither referenced nor changed",
        (false, true) => "changed",
        (true, false) => "referenced",
        (true, true) => "referenced and changed",
    }
}
