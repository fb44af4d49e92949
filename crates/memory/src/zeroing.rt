//! Filling a frame with zeros.
ghost use Rattle.std.specs.Prelude.{◌≡◌};
ghost use Rattle.memory.specs.Protected.{has_frame, answered, zeroed};

use crate::protected::{Declined, ProtectedMemory};

/// Fills a frame with zeros.
#[tactic(auto, using(crate::proofs::Lists::over_none, crate::proofs::Lists::zeros_more))]
pub fn zero_frame<M: ProtectedMemory>(memory: &mut M, frame: u64) -> Result<(), Declined>
    ensures answer { result ≡ answered (has_frame (M.ProtectedMemory.meaning memory.old) frame) }
    ensures after { M.ProtectedMemory.meaning memory.new ≡ zeroed (M.ProtectedMemory.meaning memory.old) frame }
    ensures keeps { M.ProtectedMemory.keeps memory.old memory.new }
{
    if frame >= memory.frames() {
        return Err(Declined);
    }
    let base = frame * 4096;
    for i in 0..512 {
        memory.write(base + 8 * i, 0)?;
    }
    Ok(())
}
