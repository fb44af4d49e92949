//! The process's entry and tree, and settling its leaf.
ghost use Rattle.std.specs.Prelude.{◌≡◌, ◌+◌, ◌^◌, ◌<◌, ◌≤◌, Ok};
ghost use Rattle.translation.specs.Underway.{Performs};
ghost use Rattle.translation.specs.Access.{site_of, process_entry as process_entries, process_leaf as process_leaves, settle_reached, settle_process as settling_process};

use crate::fault::{Fault, Kind, Layer, Purpose, Site};
use crate::partition::Reached;
use crate::reach::Access;
use crate::tables::{Leaf, Partition, Table, process_place, process_right, process_tree};
use crate::walk::{Tree, walk};
use memory::protected::ProtectedMemory;

// A site in the process's own tables: no guest address is being translated there.
fn process_site(purpose: Purpose, depth: u64) -> Site
    ensures { result ≡ site_of purpose depth 0 }
{
    Site::new(purpose, depth, 0)
}

// A process's tree, in a partition of this tree, or of none for LPID 0.
#[derive(Clone, Copy)]
struct ProcessTree {
    partition: Option<Table>,
}

impl Tree for ProcessTree {
    ghost use Rattle.translation.specs.declared.fault.Layer.TheVariants.{Process as InProcess};
    ghost use Rattle.translation.specs.declared.fault.Purpose.TheVariants.{ProcessTree as ATreeOfProcess};
    ghost use Rattle.translation.specs.Access.{guest_word};

    ghost layer = { λ _. InProcess };

    ghost purpose = { λ _. ATreeOfProcess };

    ghost guest = { λ _. 0 };

    // each entry is a doubleword under the partition
    ghost entry = { λ t depth place. guest_word t.partition ATreeOfProcess place };

    ghost most = { 5 };

    fn layer(&self) -> Layer {
        Layer::Process
    }

    fn site(&self, depth: u64) -> Site {
        process_site(Purpose::ProcessTree, depth)
    }

    fn entry<M: ProtectedMemory>(
        &self,
        access: &mut Access<'_, M>,
        _depth: u64,
        place: u64,
    ) -> Result<u64, Fault> {
        access.guest_word(&self.partition, Purpose::ProcessTree, place)
    }
}

impl<M: ProtectedMemory> Access<'_, M> {
    /// The first doubleword of a process's entry, which describes its tree.
    #[tactic(auto, using(crate::proofs::Performing::steps), unfolding(crate::specs::Access::process_entry))]
    pub fn process_entry(&mut self, partition: &Partition, pid: u64) -> Result<u64, Fault>
        requires { self.old.count + 5 < 2 ^ 32 }
        ensures performs { Performs M.meaning M.keeps self.old (process_entries partition.now pid) result self.new }
        ensures few { self.new.count ≤ self.old.count + 5 }
    {
        let site = process_site(Purpose::ProcessEntry, 0);
        let place = process_place(partition.process_table, pid);
        let place = self.check(site, Layer::Process, place)?;
        self.guest_word(&partition.tree, Purpose::ProcessEntry, place)
    }

    /// The leaf of a process's tree for an offset, and its right checked.
    #[tactic(auto, using(crate::proofs::Performing::steps), unfolding(crate::specs::Access::process_leaf))]
    pub fn process_leaf(
        &mut self,
        partition: &Option<Table>,
        problem: bool,
        kind: Kind,
        offset: u64,
        descriptor: u64,
    ) -> Result<Leaf, Fault>
        requires { self.old.count + 20 < 2 ^ 32 }
        ensures performs { Performs M.meaning M.keeps self.old (process_leaves partition.now problem kind offset descriptor) result self.new }
        ensures few { self.new.count ≤ self.old.count + 20 }
    {
        let tree = ProcessTree {
            partition: *partition,
        };
        let root = process_tree(descriptor, offset);
        let root = self.check(tree.site(0), Layer::Process, root)?;
        let leaf = walk(self, &tree, offset, &root)?;
        let right = process_right(problem, kind, leaf.word);
        self.check(tree.site(leaf.depth), Layer::Process, right)?;
        Ok(leaf)
    }

    // Settles a leaf that was guest-reached: the leaf that led there for a store, and then it.
    fn settle_reached(&mut self, kind: Kind, reached: &Reached)
        ensures performs { Performs M.meaning M.keeps self.old (settle_reached kind reached.now) (Ok tt) self.new }
        ensures count { self.new.count ≡ self.old.count }
    {
        self.settle(Kind::Store, &reached.leaf);
        self.amend(kind, reached.real);
    }

    /// Settles a process leaf whose bits do not stand: it is guest-reached for a store, that leaf settled, and then it.
    #[tactic(auto, using(crate::proofs::Performing::steps), unfolding(crate::specs::Access::settle_process))]
    pub fn settle_process(
        &mut self,
        partition: &Option<Table>,
        kind: Kind,
        leaf: &Leaf,
    ) -> Result<(), Fault>
        requires { self.old.count + 4 < 2 ^ 32 }
        ensures performs { Performs M.meaning M.keeps self.old (settling_process partition.now kind leaf.now) result self.new }
        ensures few { self.new.count ≤ self.old.count + 4 }
    {
        if kind.settled(leaf.word) {
            return Ok(());
        }
        let reached = self.guest_reach(partition, Purpose::Settling, Kind::Store, leaf.place)?;
        self.settle_reached(kind, &reached);
        Ok(())
    }
}
