//! Walking a tree of tables, whatever its entries are read from.
ghost use Rattle.std.specs.Prelude.{◌≡◌, ℕ, ◌+◌, ◌*◌, ◌^◌, ◌<◌, ◌≤◌};
ghost use Rattle.translation.specs.declared.fault.Layer.{Layer as LayerOf};
ghost use Rattle.translation.specs.declared.fault.Purpose.{Purpose as PurposeOf};
ghost use Rattle.translation.specs.Program.{Program};
ghost use Rattle.translation.specs.Access.{site_of, walk};
ghost use Rattle.translation.specs.Underway.{Performs};

use crate::fault::{Cause, Fault, Layer, Site};
use crate::reach::Access;
use crate::tables::{Leaf, Step, Table};
use memory::protected::ProtectedMemory;

/// A tree to walk: how its entries are read, and what a fault on the way says.
pub trait Tree {
    // the tables that stop a walk
    ghost layer: { Self → LayerOf };

    // what is looked for
    ghost purpose: { Self → PurposeOf };

    // the guest real address that is being translated, or 0
    ghost guest: { Self → ℕ };

    // reading the entry at a place, when so many were read before
    ghost entry: { Self → ℕ → ℕ → Program ℕ };

    // how many table doublewords that takes at most
    ghost most: { ℕ };

    fn layer(&self) -> Layer
        ensures { result ≡ layer self.now };

    fn site(&self, depth: u64) -> Site
        ensures { result ≡ site_of (purpose self.now) depth (guest self.now) };

    fn entry<M: ProtectedMemory>(
        &self,
        access: &mut Access<'_, M>,
        depth: u64,
        place: u64,
    ) -> Result<u64, Fault>
        requires { access.old.count + most < 2 ^ 32 }
        ensures performs { Performs M.meaning M.keeps access.old (entry self.now depth place) result access.new }
        ensures few { access.new.count ≤ access.old.count + most };
}

/// Walks a tree on an address, from its root table through four tables at most.
pub fn walk<T: Tree, M: ProtectedMemory>(
    access: &mut Access<'_, M>,
    tree: &T,
    addr: u64,
    root: &Table,
) -> Result<Leaf, Fault>
    requires { access.old.count + 4 * T.most < 2 ^ 32 }
    ensures performs { Performs M.meaning M.keeps access.old (walk (T.entry tree.now) (T.layer tree.now) (T.purpose tree.now) (T.guest tree.now) addr 4 0 root.now) result access.new }
    ensures few { access.new.count ≤ access.old.count + 4 * T.most }
{
    let mut table = *root;
    for depth in 0..4 {
        let place = table.place_of(addr);
        let word = tree.entry(access, depth, place)?;
        let step = table.step(addr, place, depth + 1, word);
        match access.check(tree.site(depth + 1), tree.layer(), step)? {
            Step::Found(leaf) => return Ok(leaf),
            Step::Next(next) => table = next,
        }
    }
    access.check(tree.site(4), tree.layer(), Err(Cause::Unsupported))
}
