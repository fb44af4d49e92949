//! Clients of the memory library, proved from its contracts alone, and its tests.
#![tactic(auto)]

ghost use Rattle.std.specs.Prelude.{◌≡◌, length, if◌then◌else◌, Ok, Err};
ghost use Rattle.memory.specs.Protected.{declined, size_of, holds, has_frame, read_at, written, zeroed, stored};
ghost use Rattle.memory.specs.Flat.{flat, restored, Keeps};
ghost use Rattle.memory.specs.Paired.{joined};

use memory::flat::Flat;
use memory::paired::Paired;
use memory::protected::{Declined, Mark, ProtectedMemory};
use memory::zeroing::zero_frame;

#[cfg(test)]
mod checks;
#[cfg(test)]
mod flat_tests;
#[cfg(test)]
mod paired_tests;

/// Writes a doubleword and reads it back.
#[tactic(auto, using(memory::proofs::Laws::read_back))]
pub fn put_and_get<M: ProtectedMemory>(
    memory: &mut M,
    addr: u64,
    value: u64,
) -> Result<u64, Declined>
    ensures answer { result ≡ (if holds (M.ProtectedMemory.meaning memory.old) addr then Ok value else Err declined) }
    ensures after { M.ProtectedMemory.meaning memory.new ≡ written (M.ProtectedMemory.meaning memory.old) addr value }
{
    memory.write(addr, value)?;
    memory.read(addr)
}

// The buffers stay beside each other: what these functions show is what the caller knows of each of them afterwards.
/// Writes a doubleword into a caller's buffers, which the caller knows afterwards.
pub fn store_in(bytes: &mut [u8], marks: &mut [u8], addr: u64, value: u64) -> Result<(), Declined>
    ensures bytes { bytes.new ≡ stored (holds (flat bytes.old marks.old) addr) bytes.old addr value }
    ensures marks { marks.new ≡ marks.old }
{
    let mut memory = Flat { bytes, marks };
    memory.write(addr, value)
}

/// Marks a frame of a caller's buffers, which the caller knows afterwards.
pub fn mark_in(bytes: &mut [u8], marks: &mut [u8], frame: u64, mark: Mark) -> Result<(), Declined>
    ensures bytes { bytes.new ≡ bytes.old }
    ensures marks { marks.new ≡ restored (has_frame (flat bytes.old marks.old) frame) marks.old frame mark }
{
    let mut memory = Flat { bytes, marks };
    memory.set_mark(frame, mark)
}

/// Zeros a frame of a caller's buffers by code that is generic over memories; the caller still knows what the memory
/// means and that nothing past its end has changed.
pub fn zero_in(bytes: &mut [u8], marks: &mut [u8], frame: u64) -> Result<(), Declined>
    ensures after { flat bytes.new marks.new ≡ zeroed (flat bytes.old marks.old) frame }
    ensures keeps { Keeps bytes.old marks.old bytes.new marks.new }
{
    let mut memory = Flat { bytes, marks };
    zero_frame(&mut memory, frame)
}

/// The size of three memories in a nest.
pub fn size_of_three<
    A: ProtectedMemory + Drop,
    B: ProtectedMemory + Drop,
    C: ProtectedMemory + Drop,
>(a: A, b: B, c: C) -> u64
    ensures { result ≡ size_of (joined (A.ProtectedMemory.meaning a) (joined (B.ProtectedMemory.meaning b) (C.ProtectedMemory.meaning c))) }
{
    let inner = Paired {
        first: b,
        second: c,
    };
    let nest = Paired {
        first: a,
        second: inner,
    };
    nest.size()
}
