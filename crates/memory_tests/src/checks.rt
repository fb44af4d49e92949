//! Checks over any memory.
use memory::protected::{Declined, Mark, ProtectedMemory};
use memory::zeroing::zero_frame;
use std::process::Abort;

/// Neither a read nor a write at any of these addresses is taken.
pub fn declines_addresses<M: ProtectedMemory>(rt: &impl Abort, memory: &mut M, addrs: &[u64]) {
    for &addr in addrs {
        assert_eq!(rt; memory.read(addr), Err(Declined));
        assert_eq!(rt; memory.write(addr, 0), Err(Declined));
    }
}

/// None of these frames is marked, asked for its mark, or zeroed.
pub fn declines_frames<M: ProtectedMemory>(rt: &impl Abort, memory: &mut M, frames: &[u64]) {
    for &frame in frames {
        assert_eq!(rt; memory.mark(frame), Err(Declined));
        assert_eq!(rt; memory.set_mark(frame, Mark::Ordinary), Err(Declined));
        assert_eq!(rt; memory.set_mark(frame, Mark::Secure), Err(Declined));
        assert_eq!(rt; zero_frame(memory, frame), Err(Declined));
    }
}
