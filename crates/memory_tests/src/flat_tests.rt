//! The flat memory over small buffers, with values written out by hand.
use crate::checks::{declines_addresses, declines_frames};
use crate::{mark_in, put_and_get, store_in, zero_in};
use memory::flat::Flat;
use memory::protected::{Declined, Mark, ProtectedMemory};

// The size of a flat memory over these buffers.
fn size_over(bytes: &mut [u8], marks: &mut [u8]) -> u64 {
    let memory = Flat { bytes, marks };
    memory.size()
}

#[test]
fn no_bytes_are_no_frames(rt: HostRuntime) {
    assert_eq!(rt; size_over(&mut [], &mut [0u8; 1]), 0);
}

#[test]
fn one_byte_too_few_is_no_frame(rt: HostRuntime) {
    assert_eq!(rt; size_over(&mut [0u8; 4095], &mut [0u8; 1]), 0);
}

#[test]
fn a_whole_frame_counts(rt: HostRuntime) {
    assert_eq!(rt; size_over(&mut [0u8; 4096], &mut [0u8; 1]), 4096);
    assert_eq!(rt; size_over(&mut [0u8; 4097], &mut [0u8; 1]), 4096);
}

#[test]
fn one_mark_too_few_ends_the_memory(rt: HostRuntime) {
    assert_eq!(rt; size_over(&mut [0u8; 8192], &mut [0u8; 1]), 4096);
    assert_eq!(rt; size_over(&mut [0u8; 8192], &mut []), 0);
}

#[test]
fn marks_past_the_bytes_add_nothing(rt: HostRuntime) {
    assert_eq!(rt; size_over(&mut [0u8; 8191], &mut [0u8; 9]), 4096);
    assert_eq!(rt; size_over(&mut [0u8; 8192], &mut [0u8; 9]), 8192);
}

#[test]
fn a_doubleword_is_big_endian(rt: HostRuntime) {
    let mut bytes = [0xEEu8; 8192];
    let mut marks = [0u8; 2];
    assert_eq!(rt;
        store_in(&mut bytes, &mut marks, 4096, 0x0102_0304_0506_0708),
        Ok(())
    );
    assert_eq!(rt; bytes[4095], 0xEE);
    assert_eq!(rt; bytes[4096], 1);
    assert_eq!(rt; bytes[4097], 2);
    assert_eq!(rt; bytes[4102], 7);
    assert_eq!(rt; bytes[4103], 8);
    assert_eq!(rt; bytes[4104], 0xEE);
}

#[test]
fn what_is_written_is_read_back(rt: HostRuntime) {
    let mut bytes = [0u8; 4096];
    let mut marks = [0u8; 1];
    let mut memory = Flat {
        bytes: &mut bytes,
        marks: &mut marks,
    };
    assert_eq!(rt; put_and_get(&mut memory, 4088, u64::MAX), Ok(u64::MAX));
    assert_eq!(rt;
        put_and_get(&mut memory, 0, 0x8000_0000_0000_0001),
        Ok(0x8000_0000_0000_0001)
    );
    assert_eq!(rt; memory.read(8), Ok(0));
    assert_eq!(rt; put_and_get(&mut memory, 4096, 5), Err(Declined));
}

#[test]
fn any_mark_byte_but_zero_is_secure(rt: HostRuntime) {
    let mut bytes = [0u8; 12288];
    let mut marks = [0u8, 1, 255];
    let memory = Flat {
        bytes: &mut bytes,
        marks: &mut marks,
    };
    assert_eq!(rt; memory.mark(0), Ok(Mark::Ordinary));
    assert_eq!(rt; memory.mark(1), Ok(Mark::Secure));
    assert_eq!(rt; memory.mark(2), Ok(Mark::Secure));
    assert_eq!(rt; memory.mark(3), Err(Declined));
}

#[test]
fn setting_stores_one_or_zero_there_alone(rt: HostRuntime) {
    let mut bytes = [9u8; 12288];
    let mut marks = [7u8, 7, 7, 7];
    assert_eq!(rt; mark_in(&mut bytes, &mut marks, 1, Mark::Ordinary), Ok(()));
    assert!(rt; marks == [7u8, 0, 7, 7]);
    assert_eq!(rt; mark_in(&mut bytes, &mut marks, 2, Mark::Secure), Ok(()));
    assert!(rt; marks == [7u8, 0, 1, 7]);
    assert_eq!(rt;
        mark_in(&mut bytes, &mut marks, 3, Mark::Secure),
        Err(Declined)
    );
    assert!(rt; marks == [7u8, 0, 1, 7]);
    assert!(rt; bytes == [9u8; 12288]);
}

#[test]
fn a_decline_changes_nothing(rt: HostRuntime) {
    let mut bytes = [9u8; 8200];
    let mut marks = [7u8, 0, 7];
    let mut memory = Flat {
        bytes: &mut bytes,
        marks: &mut marks,
    };
    declines_addresses(
        &rt,
        &mut memory,
        &[
            1,
            4,
            7,
            8191,
            8192,
            8196,
            8200,
            0x1_0000_0000,
            u64::MAX - 7,
            u64::MAX,
        ],
    );
    declines_frames(&rt, &mut memory, &[2, 3, 0x1_0000_0000, u64::MAX]);
    assert_eq!(rt; memory.read(8184), Ok(0x0909_0909_0909_0909));
    assert!(rt; bytes == [9u8; 8200]);
    assert!(rt; marks == [7u8, 0, 7]);
}

#[test]
fn zeroing_fills_one_frame(rt: HostRuntime) {
    let mut bytes = [9u8; 12290];
    let mut marks = [1u8, 5, 0, 6];
    assert_eq!(rt; zero_in(&mut bytes, &mut marks, 1), Ok(()));
    assert!(rt; bytes[0..4096] == [9u8; 4096]);
    assert!(rt; bytes[4096..8192] == [0u8; 4096]);
    assert!(rt; bytes[8192..12290] == [9u8; 4098]);
    assert!(rt; marks == [1u8, 5, 0, 6]);
}
