//! The paired memory: its seam, nests of three, and declines.
ghost use Rattle.std.specs.Prelude.{◌+◌, ◌*◌, ◌≤◌, length};

use crate::checks::{declines_addresses, declines_frames};
use crate::{put_and_get, size_of_three};
use memory::flat::Flat;
use memory::paired::Paired;
use memory::protected::{Declined, Mark, ProtectedMemory};
use memory::zeroing::zero_frame;
use std::process::Abort;

// Two memories end to end, each over its own buffers.
fn in_two<'a>(
    low: &'a mut [u8],
    low_marks: &'a mut [u8],
    high: &'a mut [u8],
    high_marks: &'a mut [u8],
) -> Paired<Flat<'a>, Flat<'a>> {
    Paired {
        first: Flat {
            bytes: low,
            marks: low_marks,
        },
        second: Flat {
            bytes: high,
            marks: high_marks,
        },
    }
}

#[test]
fn the_second_begins_where_the_first_ends(rt: HostRuntime) {
    let mut low = [1u8; 4096];
    let mut low_marks = [0u8; 1];
    let mut high = [2u8; 5000];
    let mut high_marks = [3u8; 9];
    let mut memory = in_two(&mut low, &mut low_marks, &mut high, &mut high_marks);
    assert_eq!(rt; memory.size(), 8192);
    assert_eq!(rt; memory.frames(), 2);
    assert_eq!(rt; memory.read(4088), Ok(0x0101_0101_0101_0101));
    assert_eq!(rt; memory.read(4096), Ok(0x0202_0202_0202_0202));
    assert_eq!(rt; memory.mark(0), Ok(Mark::Ordinary));
    assert_eq!(rt; memory.mark(1), Ok(Mark::Secure));
    assert_eq!(rt; memory.write(4088, 0xA1), Ok(()));
    assert_eq!(rt; memory.write(4096, 0xB2), Ok(()));
    assert_eq!(rt; memory.set_mark(1, Mark::Ordinary), Ok(()));
    assert_eq!(rt; low[4094], 0);
    assert_eq!(rt; low[4095], 0xA1);
    assert_eq!(rt; high[0], 0);
    assert_eq!(rt; high[7], 0xB2);
    assert_eq!(rt; high[8], 2);
    assert!(rt; low_marks == [0u8; 1]);
    assert!(rt; high_marks == [0u8, 3, 3, 3, 3, 3, 3, 3, 3]);
}

#[test]
fn a_pair_declines_and_changes_nothing(rt: HostRuntime) {
    let mut low = [1u8; 4100];
    let mut low_marks = [4u8; 2];
    let mut high = [2u8; 4100];
    let mut high_marks = [0u8; 2];
    let mut memory = in_two(&mut low, &mut low_marks, &mut high, &mut high_marks);
    declines_addresses(
        &rt,
        &mut memory,
        &[
            4,
            4097,
            8191,
            8192,
            8200,
            0x100_0000_0000,
            u64::MAX - 7,
            u64::MAX,
        ],
    );
    declines_frames(&rt, &mut memory, &[2, 3, 0x1000_0000, u64::MAX]);
    assert!(rt; low == [1u8; 4100]);
    assert!(rt; low_marks == [4u8; 2]);
    assert!(rt; high == [2u8; 4100]);
    assert!(rt; high_marks == [0u8; 2]);
}

// One value in each frame of a memory of three, and the middle one zeroed and marked.
fn fill_three<M: ProtectedMemory>(rt: &impl Abort, memory: &mut M) {
    assert_eq!(rt; memory.size(), 12288);
    assert_eq!(rt; put_and_get(memory, 0, 0x11), Ok(0x11));
    assert_eq!(rt; put_and_get(memory, 4096, 0x22), Ok(0x22));
    assert_eq!(rt; put_and_get(memory, 8192, 0x33), Ok(0x33));
    assert_eq!(rt; put_and_get(memory, 12280, 0x44), Ok(0x44));
    assert_eq!(rt; put_and_get(memory, 12288, 0x55), Err(Declined));
    assert_eq!(rt; memory.set_mark(1, Mark::Secure), Ok(()));
    assert_eq!(rt; memory.mark(0), Ok(Mark::Ordinary));
    assert_eq!(rt; memory.mark(1), Ok(Mark::Secure));
    assert_eq!(rt; memory.mark(2), Ok(Mark::Ordinary));
    assert_eq!(rt; zero_frame(memory, 1), Ok(()));
    assert_eq!(rt; memory.read(0), Ok(0x11));
    assert_eq!(rt; memory.read(4096), Ok(0));
    assert_eq!(rt; memory.read(8192), Ok(0x33));
}

// Three memories over one byte buffer and one mark buffer: of so many frames the first two, and the third over the rest.
fn in_three<'a>(
    bytes: &'a mut [u8],
    marks: &'a mut [u8],
    first: usize,
    second: usize,
) -> (Flat<'a>, Flat<'a>, Flat<'a>)
    requires bytes { (first + second) * 4096 ≤ length bytes.old }
    requires marks { first + second ≤ length marks.old }
{
    let (a, rest) = bytes.split_at_mut(first * 4096);
    let (b, c) = rest.split_at_mut(second * 4096);
    let (x, others) = marks.split_at_mut(first);
    let (y, z) = others.split_at_mut(second);
    (
        Flat { bytes: a, marks: x },
        Flat { bytes: b, marks: y },
        Flat { bytes: c, marks: z },
    )
}

#[test]
fn a_nest_in_either_place_is_one_memory(rt: HostRuntime) {
    let mut bytes = [0u8; 12288];
    let mut marks = [0u8; 3];
    {
        let (first, second, third) = in_three(&mut bytes, &mut marks, 1, 1);
        let mut nest = Paired {
            first,
            second: Paired {
                first: second,
                second: third,
            },
        };
        fill_three(&rt, &mut nest);
        let Paired {
            first,
            second: inner,
        } = nest;
        let Paired {
            first: second,
            second: third,
        } = inner;
        let mut other = Paired {
            first: Paired { first, second },
            second: third,
        };
        fill_three(&rt, &mut other);
    }
    assert_eq!(rt; bytes[7], 0x11);
    assert_eq!(rt; bytes[4103], 0);
    assert_eq!(rt; bytes[8199], 0x33);
    assert_eq!(rt; bytes[12287], 0x44);
    assert!(rt; marks == [0u8, 1, 0]);
}

#[test]
fn sizes_of_three_add_up(rt: HostRuntime) {
    let mut bytes = [0u8; 20480];
    let mut marks = [0u8; 5];
    let (first, second, third) = in_three(&mut bytes, &mut marks, 2, 1);
    assert_eq!(rt; size_of_three(first, second, third), 20480);
}
