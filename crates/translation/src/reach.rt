//! An access under way: reaching real addresses, and reading and writing what was reached.
ghost use Rattle.std.specs.Prelude.{◌≡◌, ◌+◌, ◌^◌, ◌<◌, ◌≤◌};
ghost use Rattle.translation.specs.Fault.{fault_at, faulted};
ghost use Rattle.translation.specs.Program.{secure_at, reachable as is_reachable, doubleword, read_reached, write_reached, reached, partition_word as partition_words, table_word as table_words};
ghost use Rattle.translation.specs.Underway.{state_of, Performs, LeavesMemory};

use crate::fault::{Cause, Fault, Layer, Purpose, Setting, Site};
use crate::tables::Half;
use memory::protected::{Mark, ProtectedMemory};

/// An access under way: what stays the same over it, the memory, and how many table doublewords were read so far.
// Each method bounds the count by what it reads itself, so no one bound can stand in the type.
#[derive(Drop)]
pub struct Access<'a, M> {
    pub setting: Setting,
    pub memory: &'a mut M,
    pub count: u64,
}

impl<M: ProtectedMemory> Access<'_, M> {
    /// The partition under which it runs.
    pub fn lpid(&self) -> u64
        ensures { result ≡ self.now.setting.lpid }
    {
        self.setting.lpid
    }

    /// The fault that arises at a site.
    fn fault(&self, site: Site, layer: Layer, cause: Cause, real: u64) -> Fault
        ensures { result ≡ fault_at self.now.setting site layer cause real self.now.count }
    {
        self.setting.fault(site, layer, cause, real, self.count)
    }

    /// A check's answer, with its cause made a fault of this site.
    pub fn check<A>(&self, site: Site, layer: Layer, answer: Result<A, Cause>) -> Result<A, Fault>
        ensures { result ≡ faulted self.now.setting site layer self.now.count answer }
    {
        let setting = self.setting;
        let count = self.count;
        answer.map_err(|cause| setting.fault(site, layer, cause, 0, count))
    }

    // Whether the frame that an address lies in is secure.
    fn secure_at(&self, addr: u64) -> bool
        ensures { result ≡ secure_at (M.meaning self.now.memory.now) addr }
    {
        matches!(self.memory.mark(addr / 4096), Ok(Mark::Secure))
    }

    // Whether an address can be reached.
    fn reachable(&self, addr: u64) -> bool
        ensures { result ≡ is_reachable self.now.setting (M.meaning self.now.memory.now) addr }
    {
        addr < self.memory.size() && !(self.setting.confined && self.secure_at(addr))
    }

    // The doubleword in which an address lies, and 0 beyond the memory.
    fn doubleword_at(&self, addr: u64) -> u64
        ensures { result ≡ doubleword (M.meaning self.now.memory.now) addr }
    {
        self.memory.read(addr / 8 * 8).unwrap_or(0)
    }

    /// Reaches an address: it lies in the memory, and not in a secure frame where those are refused.
    pub fn reach(&self, site: Site, addr: u64) -> Result<(), Fault>
        ensures { result ≡ reached self.now.setting (state_of M.meaning self.now) site addr }
    {
        if addr >= self.memory.size() {
            return Err(self.fault(site, Layer::Storage, Cause::Beyond, addr));
        }
        if self.setting.confined && self.secure_at(addr) {
            return Err(self.fault(site, Layer::Storage, Cause::Secure, addr));
        }
        Ok(())
    }

    /// A doubleword of the partition's entry, whatever its mark.
    pub fn partition_word(&mut self, half: Half) -> Result<u64, Fault>
        requires { self.old.count < 2 ^ 32 }
        ensures performs { Performs M.meaning M.keeps self.old (partition_words half) result self.new }
        ensures few { self.new.count ≤ self.old.count + 1 }
    {
        let site = Site::new(Purpose::PartitionEntry, 0, 0);
        if self.setting.lpid >= self.setting.entries {
            return Err(self.fault(site, Layer::Partition, Cause::Index, 0));
        }
        let addr = self.setting.table + (16 * self.setting.lpid + half as u64);
        if addr >= self.memory.size() {
            return Err(self.fault(site, Layer::Storage, Cause::Beyond, addr));
        }
        self.count += 1;
        Ok(self.doubleword_at(addr))
    }

    /// Reaches a table's doubleword and reads it.
    pub fn table_word(&mut self, site: Site, addr: u64) -> Result<u64, Fault>
        requires { self.old.count < 2 ^ 32 }
        ensures performs { Performs M.meaning M.keeps self.old (table_words site addr) result self.new }
        ensures few { self.new.count ≤ self.old.count + 1 }
    {
        self.reach(site, addr)?;
        self.count += 1;
        Ok(self.doubleword_at(addr))
    }

    /// A doubleword that was reached before.
    pub fn reached_word(&self, addr: u64) -> u64
        ensures { result ≡ read_reached self.now.setting (M.meaning self.now.memory.now) addr }
    {
        if self.reachable(addr) {
            self.doubleword_at(addr)
        } else {
            0
        }
    }

    /// Writes a doubleword that was reached before.
    pub fn put_word(&mut self, addr: u64, value: u64)
        ensures { LeavesMemory M.meaning M.keeps self.old (write_reached self.old.setting (M.meaning self.old.memory.now) addr value) self.new }
    {
        if self.reachable(addr) {
            let _ = self.memory.write(addr / 8 * 8, value);
        }
    }
}
