//! The setup's registers, and what threads are when the machine starts.
use crate::setup;
use machine::refusal::Refusal;
use machine::setup::Setup;
use reference::{FIRST, Frames};
use std::test::Fail;

// Bits 0:3, bits 52:58, a size field above 24, and a base that is no multiple of the table's size.
#[test]
fn bad_images_of_ptcr(rt: HostRuntime) {
    let mut setup = Setup::new();
    for image in [
        0x1000_0000_0000_0000u64,
        0x20,
        0x800,
        0x19,
        0x1001,
        0x8_0000_0018,
    ] {
        assert_eq!(rt; setup.set_ptcr(image), Err(Refusal::PartitionTable));
    }
    for image in [0u64, 0x1000, 0x2001, 0x10_0000_0018, 0x0FFF_FFFF_FFFF_F000] {
        assert_eq!(rt; setup.set_ptcr(image), Ok(()));
    }
}

// A multiple of 4,096 below 2^57; a refused image changes nothing, as the real address of a load shows.
#[test]
fn bad_images_of_offsets(rt: HostRuntime) {
    let mut setup = Setup::new();
    assert_eq!(rt; setup.set_hrmor(0x3000), Ok(()));
    assert_eq!(rt;
        setup.set_urmor(0x1FF_FFFF_FFFF_F000 >> 1),
        Err(Refusal::RealOffset)
    );
    for image in [0x800u64, 1 << 57, (1 << 57) + 4096, u64::MAX] {
        assert_eq!(rt; setup.set_hrmor(image), Err(Refusal::RealOffset));
        assert_eq!(rt; setup.set_urmor(image), Err(Refusal::RealOffset));
    }
    assert_eq!(rt; setup.set_urmor(0x1FF_FFFF_FFFF_F000), Ok(()));
    let mut frames = Frames::<16384, 4>::new();
    let memory = frames.memory();
    let mut machine = setup.start(memory);
    assert_eq!(rt; machine.load(0, 8, 0x10, 0), Ok((0, 0x3010, 0)));
}

#[test]
fn threads_at_the_start(rt: HostRuntime) -> Result<(), Fail> {
    let mut frames = Frames::<16384, 4>::new();
    let memory = frames.memory();
    let machine = setup()?.start(memory);
    for thread in 0..8 {
        assert_eq!(rt; machine.context(thread), Ok(FIRST));
        assert_eq!(rt; machine.report(thread), Ok(None));
    }
    assert_eq!(rt; machine.context(8), Err(Refusal::NoThread));
    assert_eq!(rt; machine.report(u64::MAX), Err(Refusal::NoThread));
    Ok(())
}
