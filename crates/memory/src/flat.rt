//! The flat memory: a caller's byte buffer and mark buffer.
ghost use Rattle.std.specs.Prelude.{◌≡◌, ◌+◌, ◌*◌, ◌<◌, ◌≤◌, true, length, slice_index_or, slice_set};
ghost use Rattle.memory.specs.declared.protected.Mark.TheVariants.{Ordinary};
ghost use Rattle.memory.specs.Bytes.{Octets, number_at, octets, over};
ghost use Rattle.memory.specs.Protected.{size_of, frames_of, lies_below, has_frame, holds, read_at, written, mark_at, marked, answered, stored, number_of};
ghost use Rattle.memory.specs.Flat.{covered, flat_of, mark_of, restored, Counted, Stays, stays, flat_sound};

use crate::protected::{Declined, MOST_FRAMES, Mark, ProtectedMemory};

/// A memory over two buffers: its bytes, and one byte for each frame's mark, where nonzero means secure.
/// Its frames are those that both buffers cover, at most 2^28.
///
/// Build it by its literal, `Flat { bytes, marks }`: the caller then knows both buffers after the memory is let go.
#[derive(Drop)]
pub struct Flat<'a> {
    pub bytes: &'a mut [u8],
    pub marks: &'a mut [u8],
}

// The frames that buffers of these lengths both cover, at most 2^28.
fn covered_by(bytes: usize, marks: usize) -> u64
    ensures { result ≡ covered bytes marks }
{
    let whole = (bytes / 4096) as u64;
    whole.min(marks as u64).min(MOST_FRAMES)
}

// Whether a doubleword lies at an address of a memory of `size` bytes.
fn lies_below(addr: u64, size: u64) -> bool
    ensures { result ≡ lies_below addr size }
{
    addr % 8 == 0 && addr < size
}

/// The mark that a mark byte means: a byte that is not 0 is secure.
impl From<u8> for Mark {
    ghost from_gives = { λ byte mark. mark ≡ mark_of byte };

    fn from(byte: u8) -> Mark {
        if byte == 0 {
            Mark::Ordinary
        } else {
            Mark::Secure
        }
    }
}

// The doubleword at `at`. Of a parameter's bytes it is known that each is below 256; of a field's it is not.
fn doubleword(bytes: &[u8], at: usize) -> u64
    requires { at + 8 ≤ length bytes.now }
    ensures value { result ≡ number_at 8 bytes.now at }
    ensures octets { Octets bytes.now }
{
    u64::from_be_bytes(*bytes[at..].first_chunk().unwrap())
}

// Stores a doubleword at `at`.
#[tactic(auto, using(std::proofs::lemmas::Slice::overwrites, crate::proofs::Lists::laid_eight, crate::proofs::Lists::eight_octets))]
fn put_doubleword(bytes: &mut [u8], at: usize, value: u64)
    requires { at + 8 ≤ length bytes.old }
    ensures { bytes.new ≡ over bytes.old at (octets 8 value) }
{
    bytes[at..at + 8].copy_from_slice(&value.to_be_bytes());
}

// Stores a mark's number at `at`.
fn put_mark(marks: &mut [u8], at: usize, mark: Mark)
    requires { at < length marks.old }
    ensures { marks.new ≡ slice_set marks.old at (number_of mark) }
{
    marks[at] = u8::from(mark);
}

impl Flat<'_> {
    // The number of frames.
    fn count(&self) -> u64
        ensures { Counted result self.now }
    {
        covered_by(self.bytes.len(), self.marks.len())
    }

    // Whether a frame lies in the memory.
    fn has_frame(&self, frame: u64) -> bool
        ensures { result ≡ has_frame (flat_of self.now) frame }
    {
        frame < self.count()
    }
}

impl ProtectedMemory for Flat<'_> {
    ghost meaning = { flat_of };

    ghost sound = { λ m. flat_sound m.bytes.now m.marks.now };

    ghost keeps = { Stays };

    ghost keeping = { stays };

    fn size(&self) -> u64 {
        self.count() * 4096
    }

    #[tactic(auto, using(crate::proofs::Buffers::flat_number))]
    fn read(&self, addr: u64) -> Result<u64, Declined> {
        if !lies_below(addr, self.size()) {
            return Err(Declined);
        }
        Ok(doubleword(self.bytes, addr as usize))
    }

    #[tactic(auto, using(crate::proofs::Buffers::flat_written, crate::proofs::Buffers::written_keeps))]
    fn write(&mut self, addr: u64, value: u64) -> Result<(), Declined>
        ensures answer { result ≡ answered (holds (flat_of self.old) addr) }
        ensures after { flat_of self.new ≡ written (flat_of self.old) addr value }
        ensures keeps { Stays self.old self.new }
        ensures bytes { self.new.bytes.now ≡ stored (holds (flat_of self.old) addr) self.old.bytes.now addr value }
        ensures marks { self.new.marks.now ≡ self.old.marks.now }
    {
        if !lies_below(addr, self.size()) {
            return Err(Declined);
        }
        put_doubleword(self.bytes, addr as usize, value);
        Ok(())
    }

    #[tactic(auto, using(crate::proofs::Buffers::flat_mark))]
    fn mark(&self, frame: u64) -> Result<Mark, Declined> {
        if !self.has_frame(frame) {
            return Err(Declined);
        }
        Ok(Mark::from(self.marks[frame as usize]))
    }

    #[tactic(auto, using(crate::proofs::Buffers::flat_marked, crate::proofs::Buffers::marked_keeps))]
    fn set_mark(&mut self, frame: u64, mark: Mark) -> Result<(), Declined>
        ensures answer { result ≡ answered (has_frame (flat_of self.old) frame) }
        ensures after { flat_of self.new ≡ marked (flat_of self.old) frame mark }
        ensures keeps { Stays self.old self.new }
        ensures bytes { self.new.bytes.now ≡ self.old.bytes.now }
        ensures marks { self.new.marks.now ≡ restored (has_frame (flat_of self.old) frame) self.old.marks.now frame mark }
    {
        if !self.has_frame(frame) {
            return Err(Declined);
        }
        put_mark(self.marks, frame as usize, mark);
        Ok(())
    }
}
