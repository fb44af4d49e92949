//! The fault record: why, where and for what an access stopped.
ghost use Rattle.std.specs.Prelude.{◌≡◌, Some, if◌then◌else◌};
ghost use Rattle.translation.specs.Access.{site_of};
ghost use Rattle.translation.specs.Fault.{cause_number, layer_number, purpose_number, cause_text, layer_text, purpose_text, is_fetch, own_vector, partition_vector, storage_vector, segment_vector, vector_of, fault_at};

use std::fmt;
use std::marker::Model;

/// What an access asks of its datum.
#[derive(Debug, Clone, Copy, PartialEq, Eq)]
pub enum Kind {
    Load,
    Store,
    Fetch,
}

impl Kind {
    // The vector of a fetch's interrupt, or that of data.
    fn vector(self, fetch: u64, other: u64) -> u64
        ensures { result ≡ (if is_fetch self then fetch else other) }
    {
        match self {
            Kind::Fetch => fetch,
            _ => other,
        }
    }
}

/// Why an access stopped.
#[derive(Debug, Clone, Copy, PartialEq, Eq)]
pub enum Cause {
    /// No segment: the effective address names no process tree, or lies beyond its process tree.
    Segment = 1,
    /// An index outside a table.
    Index = 2,
    /// A form that is not supported.
    Unsupported = 3,
    /// An entry that is not valid, or a guest address outside its partition's tree.
    Invalid = 4,
    /// A right is missing.
    Right = 5,
    /// A right is missing where the process leaf's reference and change bits are to be set.
    SettlingRight = 6,
    /// A secure frame.
    Secure = 7,
    /// An address beyond the memory.
    Beyond = 8,
}

/// The cause's number, 1 to 8.
impl From<Cause> for u64 {
    ghost from_gives = { λ c n. n ≡ cause_number c };

    fn from(cause: Cause) -> u64 {
        cause as u64
    }
}

impl fmt::Display for Cause {
    ghost output = { λ c. Some (cause_text c) };

    fn fmt<W: fmt::Write>(&self, f: &mut fmt::Formatter<W>) -> fmt::Result {
        f.write_str(match self {
            Cause::Segment => "no segment",
            Cause::Index => "an index outside its table",
            Cause::Unsupported => "an unsupported form",
            Cause::Invalid => "no valid entry",
            Cause::Right => "a missing right",
            Cause::SettlingRight => "a missing right to settle the process leaf",
            Cause::Secure => "a secure frame",
            Cause::Beyond => "an address beyond the memory",
        })
    }
}

/// Which tables, or the storage itself, stopped an access.
#[derive(Debug, Clone, Copy, PartialEq, Eq)]
pub enum Layer {
    Process = 1,
    Partition = 2,
    Storage = 3,
}

/// The layer's number, 1 to 3.
impl From<Layer> for u64 {
    ghost from_gives = { λ l n. n ≡ layer_number l };

    fn from(layer: Layer) -> u64 {
        layer as u64
    }
}

impl fmt::Display for Layer {
    ghost output = { λ l. Some (layer_text l) };

    fn fmt<W: fmt::Write>(&self, f: &mut fmt::Formatter<W>) -> fmt::Result {
        f.write_str(match self {
            Layer::Process => "in the process's tables",
            Layer::Partition => "in the partition's tables",
            Layer::Storage => "at the storage itself",
        })
    }
}

/// What was being looked for.
#[derive(Debug, Clone, Copy, PartialEq, Eq)]
pub enum Purpose {
    Datum = 0,
    PartitionEntry = 1,
    ProcessEntry = 2,
    ProcessTree = 3,
    Settling = 4,
}

/// The purpose's number, 0 to 4.
impl From<Purpose> for u64 {
    ghost from_gives = { λ p n. n ≡ purpose_number p };

    fn from(purpose: Purpose) -> u64 {
        purpose as u64
    }
}

impl fmt::Display for Purpose {
    ghost output = { λ p. Some (purpose_text p) };

    fn fmt<W: fmt::Write>(&self, f: &mut fmt::Formatter<W>) -> fmt::Result {
        f.write_str(match self {
            Purpose::Datum => "the datum",
            Purpose::PartitionEntry => "the partition's entry",
            Purpose::ProcessEntry => "the process's entry",
            Purpose::ProcessTree => "an entry of the process's tree",
            Purpose::Settling => "the process leaf, to settle it",
        })
    }
}

/// Why, where and for what an access stopped.
// Its addresses are numbers, with 0 for none, and no `Option`: so the rules define the record that a fault leaves.
#[derive(Debug, Clone, Copy, PartialEq, Eq)]
pub struct Fault {
    pub cause: Cause,
    pub layer: Layer,
    pub purpose: Purpose,
    /// Entries read of the tree that stopped.
    pub depth: u64,
    /// The effective address.
    pub ea: u64,
    /// The guest real address that was being translated, or 0.
    pub guest: u64,
    /// The real address that was not reached, or 0.
    pub real: u64,
    /// The interrupt vector.
    pub vector: u64,
    /// Whether the access was a store.
    pub store: bool,
    /// Table doublewords read so far.
    pub count: u64,
}

/// What stays the same over one access.
#[derive(Clone, Copy)]
pub struct Setting {
    /// Whether secure frames are refused: an ordinary thread, with the facility on.
    pub confined: bool,
    /// The partition table's base.
    pub table: u64,
    /// How many entries the partition table has.
    pub entries: u64,
    /// The partition under which the access runs.
    pub lpid: u64,
    /// The effective address.
    pub ea: u64,
    pub kind: Kind,
}

impl Model for Setting {
    ghost use Rattle.translation.specs.Values.{SettingValue, IsNamed};

    ghost Value = { SettingValue };

    ghost view = { λ s. record { confined = s.confined; table = s.table; entries = s.entries; lpid = s.lpid; ea = s.ea; kind = s.kind } };

    ghost invariant = { λ s. IsNamed s.table s.entries };

    ghost inverse = { λ s. record { confined = s.confined; table = s.table; entries = s.entries; lpid = s.lpid; ea = s.ea; kind = s.kind } };
}

/// What a fault that arises here repeats; its guest address is 0 where none is being translated, as in the record.
#[derive(Clone, Copy)]
pub struct Site {
    pub purpose: Purpose,
    pub depth: u64,
    pub guest: u64,
}

impl Site {
    /// What is looked for, the entries read so far, and the guest real address being translated, or 0.
    pub(crate) fn new(purpose: Purpose, depth: u64, guest: u64) -> Site
        ensures { result ≡ site_of purpose depth guest }
    {
        Site {
            purpose,
            depth,
            guest,
        }
    }
}

impl Setting {
    // The thread's own storage interrupt, of data or of a fetch.
    fn own_vector(&self) -> u64
        ensures { result ≡ own_vector self.now.kind }
    {
        self.kind.vector(0x400, 0x300)
    }

    // The hypervisor's, for a nonzero LPID.
    fn partition_vector(&self) -> u64
        ensures { result ≡ partition_vector self.now }
    {
        if self.lpid == 0 {
            return self.own_vector();
        }
        self.kind.vector(0xE20, 0xE00)
    }

    // The storage interrupt that a layer gives.
    fn storage_vector(&self, layer: Layer) -> u64
        ensures { result ≡ storage_vector self.now layer }
    {
        match layer {
            Layer::Process => self.own_vector(),
            _ => self.partition_vector(),
        }
    }

    // The segment interrupt.
    fn segment_vector(&self) -> u64
        ensures { result ≡ segment_vector self.now.kind }
    {
        self.kind.vector(0x480, 0x380)
    }

    fn vector(&self, layer: Layer, cause: Cause) -> u64
        ensures { result ≡ vector_of self.now layer cause }
    {
        match cause {
            Cause::Beyond => 0x200,
            Cause::Segment => self.segment_vector(),
            _ => self.storage_vector(layer),
        }
    }

    /// The fault that arises at a site.
    #[tactic(auto, unfolding(crate::specs::Fault::fault_at))]
    pub(crate) fn fault(
        &self,
        site: Site,
        layer: Layer,
        cause: Cause,
        real: u64,
        count: u64,
    ) -> Fault
        ensures { result ≡ fault_at self.now site layer cause real count }
    {
        Fault {
            cause,
            layer,
            purpose: site.purpose,
            depth: site.depth,
            ea: self.ea,
            guest: site.guest,
            real,
            vector: self.vector(layer, cause),
            store: matches!(self.kind, Kind::Store),
            count,
        }
    }
}
