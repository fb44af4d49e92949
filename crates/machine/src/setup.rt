//! The setup: the registers that all threads share, set before the machine starts.
ghost use Rattle.std.specs.Prelude.{◌≡◌};
ghost use Rattle.machine.specs.Setup.{no_registers, names_table, offset_of, with_ptcr, with_hrmor, with_urmor, with_facility};
ghost use Rattle.machine.specs.State.{state_of, started};

use crate::machine::Machine;
use crate::refusal::Refusal;
use memory::protected::ProtectedMemory;
use std::marker::Model;
use translation::fields::{clear, misplaced, table_base, table_size};
use translation::registers::Registers;

/// A machine that has not started: its registers, all zero at first, and the secure memory facility off.
#[derive(Drop)]
pub struct Setup {
    registers: Registers,
}

// A setup is seen as its registers.
impl Model for Setup {
    ghost use Rattle.translation.specs.declared.registers.Registers.{Registers};

    ghost Value = { Registers };

    ghost view = { λ setup. setup.registers };
}

// Whether PTCR names a partition table.
fn names_table(v: u64) -> bool
    ensures { result ≡ names_table v }
{
    clear(v) && !misplaced(table_size(v), table_base(v))
}

// What HRMOR or URMOR may hold, or refusal 2.
fn offset(value: u64) -> Result<u64, Refusal>
    ensures { result ≡ offset_of value }
{
    if value % 4096 == 0 && value < 1 << 57 {
        Ok(value)
    } else {
        Err(Refusal::RealOffset)
    }
}

impl Setup {
    /// All registers zero, and the facility off.
    // Written out, and no `Default`: what each register is at first is a rule.
    pub fn new() -> Setup
        ensures { result ≡ no_registers }
    {
        Setup {
            registers: Registers {
                ptcr: 0,
                hrmor: 0,
                urmor: 0,
                facility: false,
            },
        }
    }

    /// Sets PTCR: the partition table's base and size. Refusal 1 changes nothing.
    pub fn set_ptcr(&mut self, value: u64) -> Result<(), Refusal>
        ensures answer { result ≡ (with_ptcr self.old value).0 }
        ensures after { self.new ≡ (with_ptcr self.old value).1 }
    {
        if !names_table(value) {
            return Err(Refusal::PartitionTable);
        }
        self.registers.ptcr = value;
        Ok(())
    }

    // HRMOR and URMOR have a call each, as the rules name them; what both test and refuse is `offset`.

    /// Sets HRMOR, which is ORed to a hypervisor's real addresses. Refusal 2 changes nothing.
    pub fn set_hrmor(&mut self, value: u64) -> Result<(), Refusal>
        ensures answer { result ≡ (with_hrmor self.old value).0 }
        ensures after { self.new ≡ (with_hrmor self.old value).1 }
    {
        self.registers.hrmor = offset(value)?;
        Ok(())
    }

    /// Sets URMOR, which is ORed to an ultravisor's real addresses. Refusal 2 changes nothing.
    pub fn set_urmor(&mut self, value: u64) -> Result<(), Refusal>
        ensures answer { result ≡ (with_urmor self.old value).0 }
        ensures after { self.new ≡ (with_urmor self.old value).1 }
    {
        self.registers.urmor = offset(value)?;
        Ok(())
    }

    /// Switches the secure memory facility on or off.
    pub fn set_facility(&mut self, on: bool)
        ensures { self.new ≡ with_facility self.old on }
    {
        self.registers.facility = on;
    }

    /// Starts the machine over a memory. The setup is used up, and every thread begins as a hypervisor in real mode.
    pub fn start<M: ProtectedMemory>(self, memory: M) -> Machine<M>
        ensures state { state_of M.ProtectedMemory.meaning result ≡ started self (M.ProtectedMemory.meaning memory) }
        ensures memory { result.memory ≡ memory }
    {
        Machine::new(self.registers, memory)
    }
}
