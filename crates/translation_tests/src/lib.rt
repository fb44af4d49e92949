//! Tests of one access, over the reference tables and deeper ones, with values worked out by hand from the rules.
#![tactic(auto)]

ghost use Rattle.std.specs.Prelude.{◌≡◌};
ghost use Rattle.translation_tests.specs.declared.Stop.TheVariants as stops;

use memory::flat::Flat;
use memory::protected::{Declined, ProtectedMemory};
use reference::{Frames, REGISTERS, TABLES, lay};
use translation::access::{fetch, load, store};
use translation::fault::Fault;
use translation::operand::{Instruction, Operand};
use translation::registers::Context;
use translation::widths::Unaskable;

#[cfg(test)]
mod deep_tests;
#[cfg(test)]
mod fault_tests;
#[cfg(test)]
mod leaf_tests;
#[cfg(test)]
mod operand_tests;
#[cfg(test)]
mod reference_tests;

/// Why an access gave no answer.
#[derive(Debug, Clone, Copy, PartialEq, Eq)]
pub enum Stop {
    Unaskable(Unaskable),
    Faulted(Fault),
}

impl From<Unaskable> for Stop {
    ghost from_gives = { λ e stop. stop ≡ stops.Unaskable e };

    fn from(unaskable: Unaskable) -> Stop {
        Stop::Unaskable(unaskable)
    }
}

impl From<Fault> for Stop {
    ghost from_gives = { λ e stop. stop ≡ stops.Faulted e };

    fn from(fault: Fault) -> Stop {
        Stop::Faulted(fault)
    }
}

/// The memory of eight frames, with the reference tables in it.
pub(crate) fn with_tables(frames: &mut Frames<32768, 8>) -> Result<Flat<'_>, Declined> {
    let mut memory = frames.memory();
    lay(&mut memory, &TABLES)?;
    Ok(memory)
}

/// A load of `width` bytes.
pub fn load_at<M: ProtectedMemory>(
    memory: &mut M,
    context: &Context,
    width: u64,
    address: u64,
) -> Result<(u64, u64, u64), Stop> {
    let operand = Operand::new(width, address, 0)?;
    Ok(load(&REGISTERS, context, memory, &operand)?)
}

/// A fetch.
pub fn fetch_at<M: ProtectedMemory>(
    memory: &mut M,
    context: &Context,
    address: u64,
) -> Result<(u64, u64, u64), Stop> {
    let instruction = Instruction::new(address, 0)?;
    Ok(fetch(&REGISTERS, context, memory, &instruction)?)
}

/// A store of `width` bytes.
pub fn store_at<M: ProtectedMemory>(
    memory: &mut M,
    context: &Context,
    width: u64,
    address: u64,
    value: u64,
) -> Result<(u64, u64), Stop> {
    let stored = Operand::new(width, address, 0)?.with_value(value)?;
    Ok(store(&REGISTERS, context, memory, &stored)?)
}
