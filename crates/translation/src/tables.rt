//! What descriptors and entries say: the tables of a tree, its leaves, and what is not supported.
ghost use Rattle.std.specs.Prelude.{◌≡◌, ◌≤◌, not, Ok};
ghost use Rattle.translation.specs.declared.fault.Cause.TheVariants.{Invalid};
ghost use Rattle.translation.specs.Fields.{valid as is_valid};
ghost use Rattle.translation.specs.Tables.{unless, flawed_table, page_bits, page_address, outside as is_outside, translates as does_translate, table_of, leaf_of, step_of, place_of, tree_of, inside_of, partition_of, process_place, process_tree, allows, right_of, process_right, settling_bits, is_settled};

use crate::fault::{Cause, Kind, Purpose};
use crate::fields::{
    changed, executable, leaf, misplaced, next_base, next_width, page_base, privileged, readable,
    referenced, table_base, table_size, tree_size, valid, writable,
};
use std::marker::Model;

/// A table of a tree. `left` bits are still to translate below its index.
#[derive(Clone, Copy)]
pub struct Table {
    base: u64,
    width: u64,
    left: u64,
}

impl Model for Table {
    ghost use Rattle.translation.specs.Values.{TableValue, IsWalkable};

    ghost Value = { TableValue };

    ghost view = { λ t. record { base = t.base; width = t.width; left = t.left } };

    ghost invariant = { λ t. IsWalkable t.base t.width t.left };

    ghost inverse = { λ t. record { base = t.base; width = t.width; left = t.left } };
}

/// A leaf that a walk found: where it stands, its doubleword, the address that it gives, and the entries read.
#[derive(Clone, Copy)]
pub struct Leaf {
    pub place: u64,
    pub word: u64,
    pub address: u64,
    pub depth: u64,
}

/// What an entry says: the next table, or a leaf.
#[derive(Clone, Copy)]
pub enum Step {
    Next(Table),
    Found(Leaf),
}

/// A doubleword of a partition's entry, with its offset there.
#[derive(Clone, Copy)]
pub enum Half {
    First = 0,
    Second = 8,
}

/// A partition: its tree, or none for LPID 0, whose addresses are real; and the doubleword that names its process table.
#[derive(Clone, Copy)]
pub struct Partition {
    pub tree: Option<Table>,
    pub process_table: u64,
}

// Whether a table is not supported.
fn flawed_table(width: u64, base: u64, left: u64) -> bool
    requires { left ≤ 52 }
    ensures { result ≡ flawed_table width base left }
{
    !(5..=16).contains(&width) || left < width + 12 || base % (1 << (width + 3)) != 0
}

/// The table that a doubleword names, where `left` bits are still to translate.
#[tactic(auto, unfolding(crate::specs::Tables::table_of))]
pub fn table_of(v: u64, left: u64) -> Result<Table, Cause>
    requires { left ≤ 52 }
    ensures { result ≡ table_of v left }
{
    let width = next_width(v);
    let base = next_base(v);
    if flawed_table(width, base, left) {
        return Err(Cause::Unsupported);
    }
    Ok(Table {
        base,
        width,
        left: left - width,
    })
}

// Whether a leaf may keep this many bits as its offset.
fn page_bits(left: u64) -> bool
    ensures { result ≡ page_bits left }
{
    matches!(left, 12 | 16 | 21 | 30)
}

// The address that a leaf gives.
fn page_address(left: u64, addr: u64, v: u64) -> u64
    requires { left ≤ 30 }
    ensures { result ≡ page_address left addr v }
{
    let page = page_base(v);
    page - page % (1 << left) + addr % (1 << left)
}

/// The leaf that a doubleword is, where `left` bits are the offset.
#[tactic(auto, unfolding(crate::specs::Tables::leaf_of))]
pub fn leaf_of(left: u64, addr: u64, place: u64, depth: u64, v: u64) -> Result<Leaf, Cause>
    ensures { result ≡ leaf_of left addr place depth v }
{
    if !page_bits(left) {
        return Err(Cause::Unsupported);
    }
    Ok(Leaf {
        place,
        word: v,
        address: page_address(left, addr, v),
        depth,
    })
}

// V comes before all else that an entry says.
fn valid_first(v: u64) -> Result<(), Cause>
    ensures { result ≡ unless (not (is_valid v)) Invalid (Ok tt) }
{
    if !valid(v) {
        return Err(Cause::Invalid);
    }
    Ok(())
}

impl Table {
    /// Where its entry for an address stands.
    #[tactic(auto, unfolding(crate::specs::Tables::place_of))]
    pub fn place_of(&self, addr: u64) -> u64
        ensures { result ≡ place_of self.now addr }
    {
        self.base + (addr >> self.left) % (1 << self.width) * 8
    }

    /// What its entry at a place says: V comes first, then the unsupported forms.
    #[tactic(auto, unfolding(crate::specs::Tables::step_of))]
    pub fn step(&self, addr: u64, place: u64, depth: u64, v: u64) -> Result<Step, Cause>
        ensures { result ≡ step_of self.now.left addr place depth v }
    {
        valid_first(v)?;
        if leaf(v) {
            Ok(Step::Found(leaf_of(self.left, addr, place, depth, v)?))
        } else {
            Ok(Step::Next(table_of(v, self.left)?))
        }
    }

    // Whether it translates an address, as a root table.
    fn translates(&self, addr: u64) -> bool
        ensures { result ≡ does_translate self.now addr }
    {
        addr >> (self.left + self.width) == 0
    }

    /// Checks that it translates an address, as a root table.
    pub fn inside(&self, addr: u64, otherwise: Cause) -> Result<(), Cause>
        ensures { result ≡ inside_of self.now addr otherwise }
    {
        if self.translates(addr) {
            Ok(())
        } else {
            Err(otherwise)
        }
    }
}

/// The root table that a tree descriptor names.
#[tactic(auto, unfolding(crate::specs::Tables::tree_of))]
pub fn tree_of(v: u64) -> Result<Table, Cause>
    ensures { result ≡ tree_of v }
{
    let size = tree_size(v);
    if size > 21 {
        return Err(Cause::Unsupported);
    }
    table_of(v, size + 31)
}

/// What a partition's two doublewords say: HR, GR, and then for a nonzero LPID its tree.
#[tactic(auto, unfolding(crate::specs::Tables::partition_of))]
pub fn partition_of(lpid: u64, first: u64, second: u64) -> Result<Partition, Cause>
    ensures { result ≡ partition_of lpid first second }
{
    if !valid(first) || !valid(second) {
        return Err(Cause::Unsupported);
    }
    let tree = if lpid == 0 {
        None
    } else {
        Some(tree_of(first)?)
    };
    Ok(Partition {
        tree,
        process_table: second,
    })
}

// Whether an index lies outside a table of this size field.
fn outside(size: u64, index: u64) -> bool
    requires { size ≤ 24 }
    ensures { result ≡ is_outside size index }
{
    index >= 1 << (size + 8)
}

/// Where a process's entry stands in the table that a doubleword names.
#[tactic(auto, unfolding(crate::specs::Tables::process_place))]
pub fn process_place(table: u64, pid: u64) -> Result<u64, Cause>
    ensures { result ≡ process_place table pid }
{
    let size = table_size(table);
    let base = table_base(table);
    if misplaced(size, base) {
        return Err(Cause::Unsupported);
    }
    if outside(size, pid) {
        return Err(Cause::Index);
    }
    Ok(base + 16 * pid)
}

/// The root table of a process's tree, for an offset that it translates.
#[tactic(auto, unfolding(crate::specs::Tables::process_tree))]
pub fn process_tree(descriptor: u64, offset: u64) -> Result<Table, Cause>
    ensures { result ≡ process_tree descriptor offset }
{
    let tree = tree_of(descriptor)?;
    tree.inside(offset, Cause::Segment)?;
    Ok(tree)
}

impl Kind {
    /// Whether a leaf's access authority allows this.
    pub(crate) fn allowed(self, v: u64) -> bool
        ensures { result ≡ allows self v }
    {
        match self {
            Kind::Load => readable(v) || writable(v),
            Kind::Store => writable(v),
            Kind::Fetch => executable(v),
        }
    }

    /// The bits that this sets in a leaf: R, and C for a store.
    pub(crate) fn bits(self) -> u64
        ensures { result ≡ settling_bits self }
    {
        match self {
            Kind::Store => 0x180,
            _ => 0x100,
        }
    }

    /// Whether those bits stand in a leaf.
    pub(crate) fn settled(self, v: u64) -> bool
        ensures { result ≡ is_settled self v }
    {
        match self {
            Kind::Store => referenced(v) && changed(v),
            _ => referenced(v),
        }
    }
}

/// A partition leaf's right: its privileged bit has no effect.
#[tactic(auto, unfolding(crate::specs::Tables::right_of))]
pub fn right_of(purpose: Purpose, kind: Kind, v: u64) -> Result<(), Cause>
    ensures { result ≡ right_of purpose kind v }
{
    if kind.allowed(v) {
        return Ok(());
    }
    match purpose {
        Purpose::Settling => Err(Cause::SettlingRight),
        _ => Err(Cause::Right),
    }
}

/// A process leaf's right: its privileged bit excludes problem state.
#[tactic(auto, unfolding(crate::specs::Tables::process_right))]
pub fn process_right(problem: bool, kind: Kind, v: u64) -> Result<(), Cause>
    ensures { result ≡ process_right problem kind v }
{
    if problem && privileged(v) {
        return Err(Cause::Right);
    }
    if kind.allowed(v) {
        Ok(())
    } else {
        Err(Cause::Right)
    }
}
