//! The partition's tree: guest-reaching, settling, and the partition's entry.
ghost use Rattle.std.specs.Prelude.{◌≡◌, ◌+◌, ◌^◌, ◌<◌, ◌≤◌, Some, Ok};
ghost use Rattle.translation.specs.Program.{amended, settled};
ghost use Rattle.translation.specs.Underway.{Performs, LeavesMemory};
ghost use Rattle.translation.specs.Access.{guest_reach as guest_reaching, guest_word as guest_words, settled_word, partition_entry as partition_entries};

use crate::fault::{Cause, Fault, Kind, Layer, Purpose, Site};
use crate::reach::Access;
use crate::tables::{Half, Leaf, Partition, Table, partition_of, right_of};
use crate::walk::{Tree, walk};
use memory::protected::ProtectedMemory;

/// An address that was guest-reached: where it is, and the partition leaf that led there, or none for LPID 0.
#[derive(Clone, Copy)]
pub struct Reached {
    pub real: u64,
    pub leaf: Option<Leaf>,
}

// A partition's tree, walked on a guest real address.
#[derive(Clone, Copy)]
struct PartitionTree {
    purpose: Purpose,
    addr: u64,
}

impl Tree for PartitionTree {
    ghost use Rattle.translation.specs.declared.fault.Layer.TheVariants.{Partition as InPartition};
    ghost use Rattle.translation.specs.Program.{table_word};
    ghost use Rattle.translation.specs.Access.{site_of};

    ghost layer = { λ _. InPartition };

    ghost purpose = { λ t. t.purpose };

    ghost guest = { λ t. t.addr };

    // each entry is reached and read
    ghost entry = { λ t depth place. table_word (site_of t.purpose depth t.addr) place };

    ghost most = { 1 };

    fn layer(&self) -> Layer {
        Layer::Partition
    }

    fn site(&self, depth: u64) -> Site {
        Site::new(self.purpose, depth, self.addr)
    }

    fn entry<M: ProtectedMemory>(
        &self,
        access: &mut Access<'_, M>,
        depth: u64,
        place: u64,
    ) -> Result<u64, Fault> {
        access.table_word(self.site(depth), place)
    }
}

impl<M: ProtectedMemory> Access<'_, M> {
    // Guest-reaches an address under a partition's tree.
    #[tactic(auto, using(crate::proofs::Performing::steps), unfolding(crate::specs::Access::guest_reach))]
    fn guest_reach_in(
        &mut self,
        root: &Table,
        purpose: Purpose,
        kind: Kind,
        addr: u64,
    ) -> Result<Reached, Fault>
        requires { self.old.count + 4 < 2 ^ 32 }
        ensures performs { Performs M.meaning M.keeps self.old (guest_reaching (Some root.now) purpose kind addr) result self.new }
        ensures few { self.new.count ≤ self.old.count + 4 }
    {
        let tree = PartitionTree { purpose, addr };
        let range = root.inside(addr, Cause::Invalid);
        self.check(tree.site(0), Layer::Partition, range)?;
        let leaf = walk(self, &tree, addr, root)?;
        let site = tree.site(leaf.depth);
        let right = right_of(purpose, kind, leaf.word);
        self.check(site, Layer::Partition, right)?;
        self.reach(site, leaf.address)?;
        Ok(Reached {
            real: leaf.address,
            leaf: Some(leaf),
        })
    }

    /// Guest-reaches an address: under a partition's tree, or for LPID 0 as a real address.
    #[tactic(auto, using(crate::proofs::Performing::steps), unfolding(crate::specs::Access::guest_reach))]
    pub fn guest_reach(
        &mut self,
        tree: &Option<Table>,
        purpose: Purpose,
        kind: Kind,
        addr: u64,
    ) -> Result<Reached, Fault>
        requires { self.old.count + 4 < 2 ^ 32 }
        ensures performs { Performs M.meaning M.keeps self.old (guest_reaching tree.now purpose kind addr) result self.new }
        ensures few { self.new.count ≤ self.old.count + 4 }
    {
        match tree {
            None => {
                self.reach(Site::new(purpose, 0, 0), addr)?;
                Ok(Reached {
                    real: addr,
                    leaf: None,
                })
            }
            Some(root) => self.guest_reach_in(root, purpose, kind, addr),
        }
    }

    /// Adds R, and C for a store, to the doubleword at a place as it stands.
    #[tactic(auto, unfolding(crate::specs::Program::amended))]
    pub fn amend(&mut self, kind: Kind, place: u64)
        ensures { LeavesMemory M.meaning M.keeps self.old (amended self.old.setting (M.meaning self.old.memory.now) kind place) self.new }
    {
        let word = self.reached_word(place);
        self.put_word(place, word | kind.bits());
    }

    /// Settles a leaf, where its bits do not stand already.
    #[tactic(auto, unfolding(crate::specs::Program::settled))]
    pub fn settle(&mut self, kind: Kind, leaf: &Option<Leaf>)
        ensures { LeavesMemory M.meaning M.keeps self.old (settled self.old.setting (M.meaning self.old.memory.now) kind leaf.now) self.new }
    {
        if let Some(leaf) = leaf {
            if !kind.settled(leaf.word) {
                self.amend(kind, leaf.place);
            }
        }
    }

    // A table's doubleword that was guest-reached: the leaf that led there settled for a load, and then read.
    fn settled_word(&mut self, reached: &Reached) -> u64
        requires { self.old.count < 2 ^ 32 }
        ensures performs { Performs M.meaning M.keeps self.old (settled_word reached.now) (Ok result) self.new }
        ensures few { self.new.count ≤ self.old.count + 1 }
    {
        self.settle(Kind::Load, &reached.leaf);
        self.count += 1;
        self.reached_word(reached.real)
    }

    /// A table's doubleword under the partition: guest-reached for a load, that leaf settled, and then read.
    #[tactic(auto, using(crate::proofs::Performing::steps), unfolding(crate::specs::Access::guest_word))]
    pub fn guest_word(
        &mut self,
        tree: &Option<Table>,
        purpose: Purpose,
        addr: u64,
    ) -> Result<u64, Fault>
        requires { self.old.count + 5 < 2 ^ 32 }
        ensures performs { Performs M.meaning M.keeps self.old (guest_words tree.now purpose addr) result self.new }
        ensures few { self.new.count ≤ self.old.count + 5 }
    {
        let reached = self.guest_reach(tree, purpose, Kind::Load, addr)?;
        Ok(self.settled_word(&reached))
    }

    /// Both doublewords of the partition's entry, and what they say.
    #[tactic(auto, using(crate::proofs::Performing::steps), unfolding(crate::specs::Access::partition_entry))]
    pub fn partition_entry(&mut self) -> Result<Partition, Fault>
        requires { self.old.count + 2 < 2 ^ 32 }
        ensures performs { Performs M.meaning M.keeps self.old (partition_entries self.old.setting.lpid) result self.new }
        ensures few { self.new.count ≤ self.old.count + 2 }
    {
        let lpid = self.lpid();
        let first = self.partition_word(Half::First)?;
        let second = self.partition_word(Half::Second)?;
        let site = Site::new(Purpose::PartitionEntry, 0, 0);
        let partition = partition_of(lpid, first, second);
        self.check(site, Layer::Partition, partition)
    }
}
