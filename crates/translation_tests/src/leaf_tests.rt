//! Leaves with 12, 16, 21 and 30 bits left, in a process's tree and in a partition's, and leaves with others.
use crate::reference_tests::in_process;
use crate::{Stop, load_at, with_tables};
use memory::protected::{Declined, ProtectedMemory};
use reference::{Frames, USER};
use std::process::Abort;
use std::test::Fail;
use translation::fault::{Cause, Purpose};
use translation::registers::Context;

// A tree of 35 bits whose root of width 5 is at `root`: a leaf with 30 bits left; below the next entry a table of width
// 9, with a leaf with 21 left, a table of width 5 with a leaf with 16 left, and a table of width 9 with a leaf with 12
// left. Page number bits below a leaf's own size are set.
fn lay_leaves<M: ProtectedMemory>(memory: &mut M, root: u64) -> Result<(), Declined> {
    memory.write(root, 0xC000_0000_3FFF_F002)?;
    memory.write(root | 8, 0x8000_0000_0000_7009)?;
    memory.write(0x7000, 0xC000_0000_001F_F002)?;
    memory.write(0x7008, 0x8000_0000_0000_6105)?;
    memory.write(0x7010, 0x8000_0000_0000_5009)?;
    memory.write(0x6100, 0xC000_0000_0000_F002)?;
    memory.write(0x5008, 0xC000_0000_0000_3002)?;
    memory.write(0x3008, 0x77)
}

// Loads the word through each leaf of `lay_leaves`, with its count, and finds each leaf referenced.
fn each_leaf<M: ProtectedMemory>(
    rt: &impl Abort,
    memory: &mut M,
    context: &Context,
    root: u64,
    loads: [(u64, u64); 4],
) {
    for (address, count) in loads {
        assert_eq!(rt;
            load_at(memory, context, 8, address),
            Ok((0x77, 0x3008, count))
        );
    }
    for (place, leaf) in [
        (root, 0xC000_0000_3FFF_F102),
        (0x7000, 0xC000_0000_001F_F102),
        (0x6100, 0xC000_0000_0000_F102),
        (0x5008, 0xC000_0000_0000_3102),
    ] {
        assert_eq!(rt; memory.read(place), Ok(leaf));
    }
}

// Each level below costs two doublewords, and the first settling one more.
fn process_leaves<M: ProtectedMemory>(rt: &impl Abort, memory: &mut M) -> Result<(), Fail> {
    memory.write(0x4010, 0x6085)?;
    lay_leaves(memory, 0x6000)?;
    let loads = [
        (0x3008, 8),
        (0x4000_3008, 10),
        (0x4020_3008, 12),
        (0x4040_1008, 12),
    ];
    each_leaf(rt, memory, &USER, 0x6000, loads);
    Ok(())
}

#[test]
fn leaves_of_a_process(rt: HostRuntime) -> Result<(), Fail> {
    let mut frames = Frames::new();
    let mut memory = with_tables(&mut frames)?;
    process_leaves(&rt, &mut memory)
}

// With translation off a guest's address is its partition's: no process table is read.
fn partition_leaves<M: ProtectedMemory>(rt: &impl Abort, memory: &mut M) -> Result<(), Fail> {
    memory.write(0x1010, 0x8000_0000_0000_2085)?;
    lay_leaves(memory, 0x2000)?;
    let context = Context { dr: false, ..USER };
    let loads = [
        (0x3008, 3),
        (0x4000_3008, 4),
        (0x4020_3008, 5),
        (0x4040_1008, 5),
    ];
    each_leaf(rt, memory, &context, 0x2000, loads);
    Ok(())
}

#[test]
fn leaves_of_a_partition(rt: HostRuntime) -> Result<(), Fail> {
    let mut frames = Frames::new();
    let mut memory = with_tables(&mut frames)?;
    partition_leaves(&rt, &mut memory)
}

// A form of the process's tree that is not supported.
fn unsupported(ea: u64, depth: u64, count: u64) -> Stop {
    in_process(
        Cause::Unsupported,
        Purpose::ProcessTree,
        depth,
        ea,
        0x300,
        count,
    )
}

// The largest tree, of 52 bits, with widths 13, 9, 9 and 9; its root's leaves would have 39 left.
fn largest_tree<M: ProtectedMemory>(rt: &impl Abort, memory: &mut M) -> Result<(), Fail> {
    memory.write(0x4010, 0x4000_0000_0000_00AD)?;
    memory.write(0, 0x8000_0000_0000_6009)?;
    memory.write(8, 0xC000_0000_0000_0002)?;
    memory.write(0x6000, 0xC000_0000_0000_0002)?;
    memory.write(0x6008, 0x8000_0000_0000_7009)?;
    memory.write(0x7000, 0xC000_0000_0000_0002)?;
    memory.write(0x7008, 0x8000_0000_0000_5009)?;
    memory.write(0x5008, 0xC000_0000_0000_3002)?;
    memory.write(0x3008, 0x77)?;
    for (address, count) in [(0x3008, 10), (0x4000_3008, 12), (0x4020_1008, 14)] {
        assert_eq!(rt;
            load_at(memory, &USER, 8, address),
            Ok((0x77, 0x3008, count))
        );
    }
    assert_eq!(rt;
        load_at(memory, &USER, 8, 0x80_0000_0000),
        Err(unsupported(0x80_0000_0000, 1, 6))
    );
    Ok(())
}

#[test]
fn leaves_of_the_largest_tree(rt: HostRuntime) -> Result<(), Fail> {
    let mut frames = Frames::new();
    let mut memory = with_tables(&mut frames)?;
    largest_tree(&rt, &mut memory)
}

// A root at address 0, whose first entry is a leaf: widths 15 and 16 leave 16 bits of 31 and 32, width 16 leaves 15 of
// 31, width 5 leaves 26.
fn roots<M: ProtectedMemory>(rt: &impl Abort, memory: &mut M) -> Result<(), Fail> {
    memory.write(0, 0xC000_0000_0000_0102)?;
    memory.write(0x3008, 0x77)?;
    for (tree, answer) in [
        (0x000F, Ok((0x77, 0x3008, 7))),
        (0x0030, Ok((0x77, 0x3008, 7))),
        (0x0010, Err(unsupported(0x3008, 1, 6))),
        (0x0005, Err(unsupported(0x3008, 1, 6))),
    ] {
        memory.write(0x4010, tree)?;
        assert_eq!(rt; load_at(memory, &USER, 8, 0x3008), answer);
    }
    Ok(())
}

// A tree of 37 bits with four widths of 5 has 17 left: the fourth entry can be no leaf, and no table either.
fn fourth_entry<M: ProtectedMemory>(rt: &impl Abort, memory: &mut M) -> Result<(), Fail> {
    memory.write(0x4010, 0x60C5)?;
    memory.write(0x6000, 0x8000_0000_0000_6105)?;
    memory.write(0x6100, 0x8000_0000_0000_6205)?;
    memory.write(0x6200, 0x8000_0000_0000_6305)?;
    memory.write(0x6300, 0x8000_0000_0000_6405)?;
    memory.write(0x6308, 0xC000_0000_0000_0002)?;
    assert_eq!(rt; load_at(memory, &USER, 8, 0), Err(unsupported(0, 4, 12)));
    assert_eq!(rt;
        load_at(memory, &USER, 8, 0x2_0000),
        Err(unsupported(0x2_0000, 4, 12))
    );
    Ok(())
}

#[test]
fn leaves_at_the_root_and_fourth_entries(rt: HostRuntime) -> Result<(), Fail> {
    let mut frames = Frames::new();
    let mut memory = with_tables(&mut frames)?;
    roots(&rt, &mut memory)?;
    fourth_entry(&rt, &mut memory)
}
