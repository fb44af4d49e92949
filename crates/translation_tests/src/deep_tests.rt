//! Four levels over four: the longest walk.
use crate::load_at;
use memory::protected::{Declined, ProtectedMemory};
use reference::{Frames, USER};
use std::process::Abort;
use std::test::Fail;

// Trees of 32 bits, each of four tables of width 5. The partition's tree gives each of its first eight pages to itself;
// the process's gives address 0 to guest page 5.
fn lay_deep_tables<M: ProtectedMemory>(memory: &mut M) -> Result<(), Declined> {
    memory.write(0x1010, 0x8000_0000_0000_2025)?;
    memory.write(0x1018, 0x8000_0000_0000_4000)?;
    memory.write(0x2000, 0x8000_0000_0000_2105)?;
    memory.write(0x2100, 0x8000_0000_0000_2205)?;
    memory.write(0x2200, 0x8000_0000_0000_2305)?;
    for page in 0..8u64 {
        memory.write(0x2300 + 8 * page, 0xC000_0000_0000_0002 + 4096 * page)?;
    }
    memory.write(0x4010, 0x6025)?;
    memory.write(0x6000, 0x8000_0000_0000_6105)?;
    memory.write(0x6100, 0x8000_0000_0000_6205)?;
    memory.write(0x6200, 0x8000_0000_0000_6305)?;
    memory.write(0x6300, 0xC000_0000_0000_5002)?;
    memory.write(0x5008, 0x1122_3344_5566_7788)
}

// The first load reads 35 doublewords, and settles four leaves; the second reads 31, and settles none.
fn deepest<M: ProtectedMemory>(rt: &impl Abort, memory: &mut M) {
    assert_eq!(rt;
        load_at(memory, &USER, 8, 8),
        Ok((0x1122_3344_5566_7788, 0x5008, 35))
    );
    assert_eq!(rt; memory.read(0x2320), Ok(0xC000_0000_0000_4102));
    assert_eq!(rt; memory.read(0x2328), Ok(0xC000_0000_0000_5102));
    assert_eq!(rt; memory.read(0x2330), Ok(0xC000_0000_0000_6182));
    assert_eq!(rt; memory.read(0x6300), Ok(0xC000_0000_0000_5102));
    assert_eq!(rt;
        load_at(memory, &USER, 8, 8),
        Ok((0x1122_3344_5566_7788, 0x5008, 31))
    );
}

#[test]
fn four_levels_over_four(rt: HostRuntime) -> Result<(), Fail> {
    let mut frames = Frames::<32768, 8>::new();
    let mut memory = frames.memory();
    lay_deep_tables(&mut memory)?;
    deepest(&rt, &mut memory);
    Ok(())
}
