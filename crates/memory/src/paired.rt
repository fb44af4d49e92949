//! The paired memory: any two protected memories end to end.
ghost use Rattle.std.specs.Prelude.{◌≡◌, ◌+◌, ◌^◌, ◌<◌, ◌≤◌, min};
ghost use Rattle.memory.specs.Protected.{holds, read_at, written, has_frame, mark_at, marked};
ghost use Rattle.memory.specs.Paired.{joined, joined_sound, in_second, Goes, BothKeep, both_keeping};

use crate::protected::{Declined, MOST_BYTES, MOST_FRAMES, Mark, ProtectedMemory};

/// Two memories end to end, the first's bytes below the second's, cut off at 2^40 bytes.
///
/// A call compares an address once and passes it on; a nest that grows in the second place asks one comparison a level.
#[derive(Drop)]
pub struct Paired<A, B> {
    pub first: A,
    pub second: B,
}

// The place in the second memory of what lies at `at`, or none where it lies in the first or past the cut.
fn second_place(at: u64, seam: u64, most: u64) -> Option<u64>
    requires { seam ≤ most }
    ensures { result ≡ in_second at seam most }
{
    let up = at.wrapping_sub(seam);
    (up < most - seam).then_some(up)
}

impl<A: ProtectedMemory, B: ProtectedMemory> Paired<A, B> {
    // The address in the second memory to which a call goes on, or none where it goes on to the first as it is: the
    // first declines an address past the cut.
    #[tactic(auto, using(crate::proofs::Ends::byte_goes))]
    fn byte_place(&self, addr: u64) -> Option<u64>
        ensures { Goes holds read_at written (A.ProtectedMemory.meaning self.now.first) (B.ProtectedMemory.meaning self.now.second) addr result }
    {
        second_place(addr, self.first.size(), MOST_BYTES)
    }

    // The same for a frame; one function for both would be told by a closure what to ask of the first, and be longer.
    #[tactic(auto, using(crate::proofs::Ends::frame_goes))]
    fn frame_place(&self, frame: u64) -> Option<u64>
        ensures { Goes has_frame mark_at marked (A.ProtectedMemory.meaning self.now.first) (B.ProtectedMemory.meaning self.now.second) frame result }
    {
        second_place(frame, self.first.frames(), MOST_FRAMES)
    }
}

impl<A: ProtectedMemory, B: ProtectedMemory> ProtectedMemory for Paired<A, B> {
    ghost meaning = { λ p. joined (A.ProtectedMemory.meaning p.first) (B.ProtectedMemory.meaning p.second) };

    ghost sound = { λ p. joined_sound _ _ (A.ProtectedMemory.sound p.first) (B.ProtectedMemory.sound p.second) };

    ghost keeps = { BothKeep A.ProtectedMemory.meaning B.ProtectedMemory.meaning A.ProtectedMemory.keeps B.ProtectedMemory.keeps };

    ghost keeping = { both_keeping _ _ A.ProtectedMemory.keeping B.ProtectedMemory.keeping };

    #[tactic(auto, using(crate::proofs::Ends::size_joined))]
    fn size(&self) -> u64 {
        (self.first.size() + self.second.size()).min(MOST_BYTES)
    }

    // Each call names its method for either part: a function over both parts would take two closures a call.
    fn read(&self, addr: u64) -> Result<u64, Declined> {
        match self.byte_place(addr) {
            Some(up) => self.second.read(up),
            None => self.first.read(addr),
        }
    }

    fn write(&mut self, addr: u64, value: u64) -> Result<(), Declined> {
        match self.byte_place(addr) {
            Some(up) => self.second.write(up, value),
            None => self.first.write(addr, value),
        }
    }

    fn mark(&self, frame: u64) -> Result<Mark, Declined> {
        match self.frame_place(frame) {
            Some(up) => self.second.mark(up),
            None => self.first.mark(frame),
        }
    }

    fn set_mark(&mut self, frame: u64, mark: Mark) -> Result<(), Declined> {
        match self.frame_place(frame) {
            Some(up) => self.second.set_mark(up, mark),
            None => self.first.set_mark(frame, mark),
        }
    }
}
