//! Widths, alignment and values; narrow data; the quadrants of the effective address; SF = 0.
use crate::{Stop, load_at, store_at, with_tables};
use memory::protected::ProtectedMemory;
use reference::{Frames, USER};
use std::process::Abort;
use std::test::Fail;
use translation::operand::Operand;
use translation::widths::Unaskable;

// What cannot be asked is refused by number, and nothing happens.
fn refusals<M: ProtectedMemory>(rt: &impl Abort, memory: &mut M) {
    assert_eq!(rt; u64::from(Unaskable::OddWidth), 5);
    assert_eq!(rt; u64::from(Unaskable::Misaligned), 6);
    assert_eq!(rt; u64::from(Unaskable::TooWide), 7);
    assert_eq!(rt;
        load_at(memory, &USER, 3, 1),
        Err(Stop::Unaskable(Unaskable::OddWidth))
    );
    assert_eq!(rt;
        load_at(memory, &USER, 4, 2),
        Err(Stop::Unaskable(Unaskable::Misaligned))
    );
    assert_eq!(rt;
        store_at(memory, &USER, 1, 0, 256),
        Err(Stop::Unaskable(Unaskable::TooWide))
    );
    assert_eq!(rt; store_at(memory, &USER, 8, 0, u64::MAX), Ok((0, 8)));
}

#[test]
fn what_cannot_be_asked_is_refused(rt: HostRuntime) -> Result<(), Fail> {
    let mut frames = Frames::new();
    let mut memory = with_tables(&mut frames)?;
    refusals(&rt, &mut memory);
    assert_eq!(rt; memory.read(0), Ok(u64::MAX));
    Ok(())
}

// Narrow data in one doubleword.
fn narrow<M: ProtectedMemory>(rt: &impl Abort, memory: &mut M) {
    assert_eq!(rt; store_at(memory, &USER, 1, 3, 0xAB), Ok((3, 8)));
    assert_eq!(rt; memory.read(0), Ok(0x0000_00AB_0000_0000));
    assert_eq!(rt; store_at(memory, &USER, 2, 6, 0xCDEF), Ok((6, 7)));
    assert_eq!(rt; store_at(memory, &USER, 4, 4, 0x1122_3344), Ok((4, 7)));
    assert_eq!(rt; memory.read(0), Ok(0x0000_00AB_1122_3344));
    assert_eq!(rt; load_at(memory, &USER, 1, 3), Ok((0xAB, 3, 7)));
    assert_eq!(rt; load_at(memory, &USER, 2, 2), Ok((0xAB, 2, 7)));
    assert_eq!(rt; load_at(memory, &USER, 4, 4), Ok((0x1122_3344, 4, 7)));
}

#[test]
fn narrow_data_are_big_endian(rt: HostRuntime) -> Result<(), Fail> {
    let mut frames = Frames::new();
    let mut memory = with_tables(&mut frames)?;
    narrow(&rt, &mut memory);
    Ok(())
}

// EA bits 0:1 choose the tables; PID 0 has the same tree, LPID 0 has real addresses.
fn quadrants<M: ProtectedMemory>(rt: &impl Abort, memory: &mut M) -> Result<(), Fail> {
    memory.write(0x1000, 0x8000_0000_0000_0000)?;
    memory.write(0x1008, 0x8000_0000_0000_4000)?;
    memory.write(0x4000, 0x600A)?;
    let mut context = USER;
    assert_eq!(rt;
        load_at(memory, &context, 8, 0xC000_0000_0000_0000),
        Ok((0, 0, 8))
    );
    context.hv = true;
    assert_eq!(rt; load_at(memory, &context, 8, 0), Ok((0, 0, 4)));
    assert_eq!(rt;
        load_at(memory, &context, 8, 0x4000_0000_0000_0000),
        Ok((0, 0, 7))
    );
    assert_eq!(rt;
        load_at(memory, &context, 8, 0x8000_0000_0000_0000),
        Ok((0, 0, 7))
    );
    assert_eq!(rt;
        load_at(memory, &context, 8, 0xC000_0000_0000_0000),
        Ok((0, 0, 4))
    );
    context.hv = false;
    context.sf = false;
    assert_eq!(rt;
        load_at(memory, &context, 8, 0x4000_0001_0000_0008),
        Ok((0, 8, 7))
    );
    Ok(())
}

#[test]
fn quadrants_choose_the_tables(rt: HostRuntime) -> Result<(), Fail> {
    let mut frames = Frames::new();
    let mut memory = with_tables(&mut frames)?;
    quadrants(&rt, &mut memory)
}

#[test]
fn an_operand_with_a_value_is_shown_field_by_field(rt: HostRuntime) -> Result<(), Fail> {
    let stored = Operand::new(8, 8, 0)?.with_value(5)?;
    let shown = format!(in rt.alloc(); "{stored:?}")?;
    assert_eq!(rt;
        shown.as_str(),
        "Stored { address: 8, width: Doubleword, value: 5 }"
    );
    let pretty = format!(in rt.alloc(); "{stored:#?}")?;
    let lines = "Stored {\n    address: 8,\n    width: Doubleword,\n    value: 5,\n}";
    assert_eq!(rt; pretty.as_str(), lines);
    Ok(())
}
