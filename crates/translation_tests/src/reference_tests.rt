//! The reference tables: each case's answer, fault and entries after it.
use crate::{Stop, fetch_at, load_at, with_tables};
use memory::protected::{Mark, ProtectedMemory};
use reference::{FIRST, Frames, SECURE_USER, USER};
use std::process::Abort;
use std::test::Fail;
use translation::fault::{Cause, Fault, Layer, Purpose};
use translation::registers::Context;

// A fault of a load that stopped in its process's tables.
pub(crate) fn in_process(
    cause: Cause,
    purpose: Purpose,
    depth: u64,
    ea: u64,
    vector: u64,
    count: u64,
) -> Stop {
    Stop::Faulted(Fault {
        cause,
        layer: Layer::Process,
        purpose,
        depth,
        ea,
        guest: 0,
        real: 0,
        vector,
        store: false,
        count,
    })
}

// Loads of doublewords over the reference tables, in order.
fn cases_1_to_4<M: ProtectedMemory>(rt: &impl Abort, memory: &mut M) {
    assert_eq!(rt; load_at(memory, &USER, 8, 0), Ok((0, 0, 8)));
    assert_eq!(rt; memory.read(0x6000), Ok(0xC000_0000_0000_0102));
    assert_eq!(rt; memory.read(0x2000), Ok(0xC000_0000_0000_0183));
    assert_eq!(rt; load_at(memory, &USER, 8, 0), Ok((0, 0, 7)));
    assert_eq!(rt; load_at(memory, &USER, 8, 0x7FF8), Ok((0, 0x7FF8, 7)));
    let beyond = Stop::Faulted(Fault {
        cause: Cause::Beyond,
        layer: Layer::Storage,
        purpose: Purpose::Datum,
        depth: 1,
        ea: 0x8000,
        guest: 0x8000,
        real: 0x8000,
        vector: 0x200,
        store: false,
        count: 7,
    });
    assert_eq!(rt; load_at(memory, &USER, 8, 0x8000), Err(beyond));
    assert_eq!(rt;
        load_at(memory, &USER, 8, 0x7FFF_FFF8),
        Err(in_process(
            Cause::Invalid,
            Purpose::ProcessTree,
            1,
            0x7FFF_FFF8,
            0x300,
            6,
        ))
    );
    assert_eq!(rt;
        load_at(memory, &USER, 8, 0x8000_0000),
        Err(in_process(
            Cause::Segment,
            Purpose::ProcessTree,
            0,
            0x8000_0000,
            0x380,
            4,
        ))
    );
    assert_eq!(rt;
        load_at(memory, &USER, 8, 0x4000_0000_0000_0000),
        Err(in_process(
            Cause::Segment,
            Purpose::Datum,
            0,
            0x4000_0000_0000_0000,
            0x380,
            0,
        ))
    );
}

#[test]
fn loads_of_the_reference_tables(rt: HostRuntime) -> Result<(), Fail> {
    let mut frames = Frames::new();
    let mut memory = with_tables(&mut frames)?;
    cases_1_to_4(&rt, &mut memory);
    Ok(())
}

#[test]
fn a_fetch_needs_the_execute_right(rt: HostRuntime) -> Result<(), Fail> {
    let mut frames = Frames::new();
    let mut memory = with_tables(&mut frames)?;
    assert_eq!(rt;
        fetch_at(&mut memory, &USER, 0),
        Err(in_process(Cause::Right, Purpose::ProcessTree, 1, 0, 0x400, 6))
    );
    Ok(())
}

// A secure frame that stopped a load of address 0.
fn secure(purpose: Purpose, depth: u64, guest: u64, real: u64, count: u64) -> Stop {
    Stop::Faulted(Fault {
        cause: Cause::Secure,
        layer: Layer::Storage,
        purpose,
        depth,
        ea: 0,
        guest,
        real,
        vector: 0xE00,
        store: false,
        count,
    })
}

#[test]
fn a_secure_frame_stops_an_ordinary_thread(rt: HostRuntime) -> Result<(), Fail> {
    let mut frames = Frames::new();
    let mut memory = with_tables(&mut frames)?;
    memory.set_mark(0, Mark::Secure)?;
    assert_eq!(rt;
        load_at(&mut memory, &USER, 8, 0),
        Err(secure(Purpose::Datum, 1, 0, 0, 7))
    );
    assert_eq!(rt; memory.read(0x6000), Ok(0xC000_0000_0000_0002));
    memory.set_mark(1, Mark::Secure)?;
    assert_eq!(rt;
        load_at(&mut memory, &USER, 8, 0),
        Err(secure(Purpose::Datum, 1, 0, 0, 7))
    );
    memory.set_mark(2, Mark::Secure)?;
    assert_eq!(rt;
        load_at(&mut memory, &USER, 8, 0),
        Err(secure(Purpose::ProcessEntry, 0, 0x4010, 0x2000, 2))
    );
    Ok(())
}

#[test]
fn a_secure_thread_goes_through(rt: HostRuntime) -> Result<(), Fail> {
    let mut frames = Frames::new();
    frames.marks = [1; 8];
    let mut memory = with_tables(&mut frames)?;
    assert_eq!(rt; load_at(&mut memory, &SECURE_USER, 8, 0), Ok((0, 0, 8)));
    Ok(())
}

#[test]
fn a_hypervisor_in_real_mode_is_offset(rt: HostRuntime) -> Result<(), Fail> {
    let mut frames = Frames::<32768, 8>::new();
    let mut memory = frames.memory();
    memory.write(0x3000, 0x77)?;
    memory.write(0x1000, 0x88)?;
    let context = Context {
        lpid: 1,
        pid: 1,
        ..FIRST
    };
    assert_eq!(rt;
        load_at(&mut memory, &context, 8, 0x1000),
        Ok((0x77, 0x3000, 0))
    );
    assert_eq!(rt;
        load_at(&mut memory, &context, 8, 0x8000_0000_0000_1000),
        Ok((0x88, 0x1000, 0))
    );
    Ok(())
}
