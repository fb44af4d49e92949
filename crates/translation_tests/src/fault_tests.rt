//! Each cause, in each layer and for each purpose that it can have.
use crate::{Stop, fetch_at, load_at, store_at, with_tables};
use memory::flat::Flat;
use memory::protected::{Declined, Mark, ProtectedMemory};
use reference::{Frames, TABLES, USER, lay};
use std::process::Abort;
use std::test::Fail;
use translation::fault::{Cause, Layer, Purpose};
use translation::registers::Context;

// What is looked at of a fault.
#[derive(Debug, Clone, Copy, PartialEq, Eq)]
struct Seen {
    cause: Cause,
    layer: Layer,
    purpose: Purpose,
    depth: u64,
    vector: u64,
    count: u64,
}

// The fault of an access, if it has one.
fn fault_of<A: Drop>(answer: Result<A, Stop>) -> Option<Seen> {
    match answer {
        Err(Stop::Faulted(fault)) => Some(Seen {
            cause: fault.cause,
            layer: fault.layer,
            purpose: fault.purpose,
            depth: fault.depth,
            vector: fault.vector,
            count: fault.count,
        }),
        _ => None,
    }
}

fn stop(
    cause: Cause,
    layer: Layer,
    purpose: Purpose,
    depth: u64,
    vector: u64,
    count: u64,
) -> Option<Seen> {
    Some(Seen {
        cause,
        layer,
        purpose,
        depth,
        vector,
        count,
    })
}

// A load while one doubleword is another.
fn load_with<M: ProtectedMemory>(
    memory: &mut M,
    place: u64,
    entry: u64,
    address: u64,
) -> Result<Option<Seen>, Declined> {
    let before = memory.read(place)?;
    memory.write(place, entry)?;
    let answer = fault_of(load_at(memory, &USER, 8, address));
    memory.write(place, before)?;
    Ok(answer)
}

// A load while one frame is secure.
fn load_secured<M: ProtectedMemory>(
    memory: &mut M,
    frame: u64,
    address: u64,
) -> Result<Option<Seen>, Declined> {
    memory.set_mark(frame, Mark::Secure)?;
    let answer = fault_of(load_at(memory, &USER, 8, address));
    memory.set_mark(frame, Mark::Ordinary)?;
    Ok(answer)
}

// The reference tables, with more: address 0x20_0000 is guest address 0x20_0000, for which the partition's tree has an
// entry of its own at 0x2008.
fn lay_apart<M: ProtectedMemory>(memory: &mut M) -> Result<(), Declined> {
    lay(memory, &TABLES)?;
    memory.write(0x6008, 0xC000_0000_0020_0002)?;
    memory.write(0x2008, 0xC000_0000_0000_0003)
}

// The reference tables, with the process's tree at guest address 0x20_6000, so that the partition's entry at 0x2008
// serves the process's tree and nothing else.
fn lay_tree_apart<M: ProtectedMemory>(memory: &mut M) -> Result<(), Declined> {
    lay(memory, &TABLES)?;
    memory.write(0x4010, 0x20_600A)?;
    memory.write(0x2008, 0xC000_0000_0000_0003)
}

// No segment of the process.
fn outside(purpose: Purpose, vector: u64, count: u64) -> Option<Seen> {
    stop(Cause::Segment, Layer::Process, purpose, 0, vector, count)
}

// An effective address that names no tree stops before any read; an offset beyond the process's tree is seen after both
// entries.
fn segments<M: ProtectedMemory>(rt: &impl Abort, memory: &mut M) {
    assert_eq!(rt;
        fault_of(load_at(memory, &USER, 8, 0x4000_0000_0000_0000)),
        outside(Purpose::Datum, 0x380, 0)
    );
    assert_eq!(rt;
        fault_of(fetch_at(memory, &USER, 0x8000_0000_0000_0000)),
        outside(Purpose::Datum, 0x480, 0)
    );
    assert_eq!(rt;
        fault_of(store_at(memory, &USER, 8, 0x8000_0000, 1)),
        outside(Purpose::ProcessTree, 0x380, 4)
    );
    assert_eq!(rt;
        fault_of(fetch_at(memory, &USER, 0x3FFF_FFFF_FFFF_FFFC)),
        outside(Purpose::ProcessTree, 0x480, 4)
    );
}

#[test]
fn no_segment(rt: HostRuntime) -> Result<(), Fail> {
    let mut frames = Frames::new();
    let mut memory = with_tables(&mut frames)?;
    segments(&rt, &mut memory);
    Ok(())
}

// The user under other numbers.
fn numbered(lpid: u64, pid: u64) -> Context {
    Context { lpid, pid, ..USER }
}

// Both tables have 256 entries. The last entry of each is read, and is zero: HR 0, or a tree of width 0.
fn indices<M: ProtectedMemory>(rt: &impl Abort, memory: &mut M) {
    for (lpid, cause, count) in [(256, Cause::Index, 0), (255, Cause::Unsupported, 2)] {
        assert_eq!(rt;
            fault_of(load_at(memory, &numbered(lpid, 1), 8, 0)),
            stop(
                cause,
                Layer::Partition,
                Purpose::PartitionEntry,
                0,
                0xE00,
                count
            )
        );
    }
    for (pid, cause, purpose, count) in [
        (256, Cause::Index, Purpose::ProcessEntry, 2),
        (255, Cause::Unsupported, Purpose::ProcessTree, 4),
    ] {
        assert_eq!(rt;
            fault_of(load_at(memory, &numbered(1, pid), 8, 0)),
            stop(cause, Layer::Process, purpose, 0, 0x300, count)
        );
    }
    for (lpid, pid, layer, purpose, vector, count) in [
        (256, 1, Layer::Partition, Purpose::PartitionEntry, 0xE20, 0),
        (1, 256, Layer::Process, Purpose::ProcessEntry, 0x400, 2),
    ] {
        assert_eq!(rt;
            fault_of(fetch_at(memory, &numbered(lpid, pid), 0)),
            stop(Cause::Index, layer, purpose, 0, vector, count)
        );
    }
}

#[test]
fn outside_a_table(rt: HostRuntime) -> Result<(), Fail> {
    let mut frames = Frames::new();
    let mut memory = with_tables(&mut frames)?;
    indices(&rt, &mut memory);
    Ok(())
}

// HR 0, GR 0, RTS 22, width 4, width 17, a base that is no multiple of 8192.
fn unsupported_partitions<M: ProtectedMemory>(rt: &impl Abort, memory: &mut M) -> Result<(), Fail> {
    for (place, entry) in [
        (0x1010, 0x200A),
        (0x1018, 0x4000),
        (0x1010, 0xC000_0000_0000_20CA),
        (0x1010, 0x8000_0000_0000_2004),
        (0x1010, 0x8000_0000_0000_0011),
        (0x1010, 0x8000_0000_0000_300A),
    ] {
        assert_eq!(rt;
            load_with(memory, place, entry, 0)?,
            stop(
                Cause::Unsupported,
                Layer::Partition,
                Purpose::PartitionEntry,
                0,
                0xE00,
                2
            )
        );
    }
    Ok(())
}

// The process table's size field 25, and a base that is no multiple of 32768; then the process's tree, with RTS 22,
// width 4, width 17 and a base that is no multiple of 8192.
fn unsupported_processes<M: ProtectedMemory>(rt: &impl Abort, memory: &mut M) -> Result<(), Fail> {
    for (place, entry, purpose, count) in [
        (0x1018, 0x8000_0000_0000_0019, Purpose::ProcessEntry, 2),
        (0x1018, 0x8000_0000_0000_4003, Purpose::ProcessEntry, 2),
        (0x4010, 0x4000_0000_0000_60CA, Purpose::ProcessTree, 4),
        (0x4010, 0x6004, Purpose::ProcessTree, 4),
        (0x4010, 0x0011, Purpose::ProcessTree, 4),
        (0x4010, 0x700A, Purpose::ProcessTree, 4),
    ] {
        assert_eq!(rt;
            load_with(memory, place, entry, 0)?,
            stop(Cause::Unsupported, Layer::Process, purpose, 0, 0x300, count)
        );
    }
    Ok(())
}

#[test]
fn unsupported_tables(rt: HostRuntime) -> Result<(), Fail> {
    let mut frames = Frames::new();
    let mut memory = with_tables(&mut frames)?;
    unsupported_partitions(&rt, &mut memory)?;
    unsupported_processes(&rt, &mut memory)
}

// The partition's entry at 0x2000 serves the process's entry first.
fn process_entry_stops<M: ProtectedMemory>(rt: &impl Abort, memory: &mut M) -> Result<(), Fail> {
    for (place, entry, cause, depth, count) in [
        (0x2000, 0x8000_0000_0000_2004, Cause::Unsupported, 1, 3),
        (0x2000, 0x4000_0000_0000_0003, Cause::Invalid, 1, 3),
        (0x2000, 0xC000_0000_0000_0000, Cause::Right, 1, 3),
        (0x1018, 0x8000_0000_8000_0000, Cause::Invalid, 0, 2),
    ] {
        assert_eq!(rt;
            load_with(memory, place, entry, 0)?,
            stop(
                cause,
                Layer::Partition,
                Purpose::ProcessEntry,
                depth,
                0xE00,
                count
            )
        );
    }
    Ok(())
}

// The process's own tree: V 0, a width of 4 below, and a leaf without the right.
fn process_tree_stops<M: ProtectedMemory>(rt: &impl Abort, memory: &mut M) -> Result<(), Fail> {
    for (entry, cause) in [
        (0x4000_0000_0000_0002, Cause::Invalid),
        (0x8000_0000_0000_7004, Cause::Unsupported),
        (0xC000_0000_0000_0001, Cause::Right),
        (0xC000_0000_0000_000A, Cause::Right),
    ] {
        assert_eq!(rt;
            load_with(memory, 0x6000, entry, 0)?,
            stop(cause, Layer::Process, Purpose::ProcessTree, 1, 0x300, 6)
        );
    }
    memory.write(0x6000, 0xC000_0000_0000_0004)?;
    assert_eq!(rt;
        fault_of(store_at(memory, &USER, 8, 0, 1)),
        stop(
            Cause::Right,
            Layer::Process,
            Purpose::ProcessTree,
            1,
            0x300,
            6
        )
    );
    Ok(())
}

#[test]
fn entries_that_stop_a_walk(rt: HostRuntime) -> Result<(), Fail> {
    let mut frames = Frames::new();
    let mut memory = with_tables(&mut frames)?;
    process_entry_stops(&rt, &mut memory)?;
    process_tree_stops(&rt, &mut memory)
}

// The partition's entry of the datum alone; and a guest address of 2^31, outside the partition's tree.
fn datum_stops<M: ProtectedMemory>(rt: &impl Abort, memory: &mut M) -> Result<(), Fail> {
    for (place, entry, cause, depth, count) in [
        (0x2008, 0x8000_0000_0000_2004, Cause::Unsupported, 1, 7),
        (0x2008, 0x4000_0000_0000_0003, Cause::Invalid, 1, 7),
        (0x6008, 0xC000_0000_8000_0002, Cause::Invalid, 0, 6),
        (0x2008, 0xC000_0000_0000_0001, Cause::Right, 1, 7),
    ] {
        assert_eq!(rt;
            load_with(memory, place, entry, 0x20_0000)?,
            stop(cause, Layer::Partition, Purpose::Datum, depth, 0xE00, count)
        );
    }
    memory.write(0x2008, 0xC000_0000_0000_0004)?;
    assert_eq!(rt;
        fault_of(store_at(memory, &USER, 8, 0x20_0000, 1)),
        stop(Cause::Right, Layer::Partition, Purpose::Datum, 1, 0xE00, 7)
    );
    memory.write(0x6008, 0xC000_0000_0020_0001)?;
    assert_eq!(rt;
        fault_of(fetch_at(memory, &USER, 0x20_0000)),
        stop(Cause::Right, Layer::Partition, Purpose::Datum, 1, 0xE20, 7)
    );
    Ok(())
}

#[test]
fn a_partition_stops_the_datum(rt: HostRuntime) -> Result<(), Fail> {
    let mut frames = Frames::<32768, 8>::new();
    let mut memory = frames.memory();
    lay_apart(&mut memory)?;
    datum_stops(&rt, &mut memory)
}

// The partition's entry of the process's tree alone. One that can be read and not written stops the settling of the
// process's leaf, and a leaf settled before needs none.
fn tree_stops<M: ProtectedMemory>(rt: &impl Abort, memory: &mut M) -> Result<(), Fail> {
    for (place, entry, cause, depth, count) in [
        (0x2008, 0x8000_0000_0000_2004, Cause::Unsupported, 1, 5),
        (0x2008, 0x4000_0000_0000_0003, Cause::Invalid, 1, 5),
        (0x4010, 0x8000_000A, Cause::Invalid, 0, 4),
        (0x2008, 0xC000_0000_0000_0001, Cause::Right, 1, 5),
    ] {
        assert_eq!(rt;
            load_with(memory, place, entry, 0)?,
            stop(
                cause,
                Layer::Partition,
                Purpose::ProcessTree,
                depth,
                0xE00,
                count
            )
        );
    }
    let settling = stop(
        Cause::SettlingRight,
        Layer::Partition,
        Purpose::Settling,
        1,
        0xE00,
        8,
    );
    assert_eq!(rt;
        load_with(memory, 0x2008, 0xC000_0000_0000_0004, 0)?,
        settling
    );
    memory.write(0x6000, 0xC000_0000_0000_0102)?;
    assert_eq!(rt; load_with(memory, 0x2008, 0xC000_0000_0000_0004, 0)?, None);
    memory.write(0x2008, 0xC000_0000_0000_0004)?;
    assert_eq!(rt; fault_of(store_at(memory, &USER, 8, 0, 1)), settling);
    Ok(())
}

#[test]
fn a_partition_stops_the_process_tree(rt: HostRuntime) -> Result<(), Fail> {
    let mut frames = Frames::<32768, 8>::new();
    let mut memory = frames.memory();
    lay_tree_apart(&mut memory)?;
    tree_stops(&rt, &mut memory)
}

// The frames of the datum, of the process's entry, of the process's tree and of the partition's tree. The partition
// table's own is read whatever its mark.
fn secure_frames<M: ProtectedMemory>(rt: &impl Abort, memory: &mut M) -> Result<(), Fail> {
    for (frame, purpose, depth, count) in [
        (0, Purpose::Datum, 1, 7),
        (4, Purpose::ProcessEntry, 1, 3),
        (2, Purpose::ProcessEntry, 0, 2),
        (6, Purpose::ProcessTree, 1, 5),
    ] {
        assert_eq!(rt;
            load_secured(memory, frame, 0)?,
            stop(Cause::Secure, Layer::Storage, purpose, depth, 0xE00, count)
        );
    }
    assert_eq!(rt; load_secured(memory, 1, 0)?, None);
    Ok(())
}

#[test]
fn secure_frames_stop_each_purpose(rt: HostRuntime) -> Result<(), Fail> {
    let mut frames = Frames::new();
    let mut memory = with_tables(&mut frames)?;
    secure_frames(&rt, &mut memory)
}

// A real address beyond the memory.
fn beyond_it(purpose: Purpose, depth: u64, count: u64) -> Option<Seen> {
    stop(Cause::Beyond, Layer::Storage, purpose, depth, 0x200, count)
}

// The datum, the process's entry and its tree beyond 32768 bytes; for LPID 0 no partition's tree is read.
fn beyond<M: ProtectedMemory>(rt: &impl Abort, memory: &mut M) -> Result<(), Fail> {
    assert_eq!(rt;
        fault_of(load_at(memory, &USER, 8, 0x8000)),
        beyond_it(Purpose::Datum, 1, 7)
    );
    assert_eq!(rt;
        load_with(memory, 0x1018, 0x8000_0000_0000_8000, 0)?,
        beyond_it(Purpose::ProcessEntry, 1, 3)
    );
    assert_eq!(rt;
        load_with(memory, 0x4010, 0x800A, 0)?,
        beyond_it(Purpose::ProcessTree, 1, 5)
    );
    memory.write(0x1000, 0x8000_0000_0000_0000)?;
    memory.write(0x1008, 0x8000_0000_0000_4000)?;
    assert_eq!(rt;
        fault_of(load_at(memory, &numbered(0, 1), 8, 0x8000)),
        beyond_it(Purpose::Datum, 0, 4)
    );
    memory.write(0x4010, 0x800A)?;
    assert_eq!(rt;
        fault_of(load_at(memory, &numbered(0, 1), 8, 0)),
        beyond_it(Purpose::ProcessTree, 0, 3)
    );
    memory.write(0x1008, 0x8000_0000_0000_8000)?;
    assert_eq!(rt;
        fault_of(load_at(memory, &numbered(0, 1), 8, 0)),
        beyond_it(Purpose::ProcessEntry, 0, 2)
    );
    Ok(())
}

#[test]
fn beyond_the_memory(rt: HostRuntime) -> Result<(), Fail> {
    let mut frames = Frames::new();
    let mut memory = with_tables(&mut frames)?;
    beyond(&rt, &mut memory)
}

// A memory of one frame ends before the partition table.
#[test]
fn a_partition_table_beyond_the_memory(rt: HostRuntime) {
    let mut bytes = [0u8; 4096];
    let mut marks = [0u8; 1];
    let mut memory = Flat {
        bytes: &mut bytes,
        marks: &mut marks,
    };
    assert_eq!(rt;
        fault_of(load_at(&mut memory, &USER, 8, 0)),
        stop(
            Cause::Beyond,
            Layer::Storage,
            Purpose::PartitionEntry,
            0,
            0x200,
            0,
        )
    );
}
