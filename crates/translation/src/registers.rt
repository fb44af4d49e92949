//! What a machine and a thread bring to an access, and which tables an effective address goes through.
ghost use Rattle.std.specs.Prelude.{◌≡◌, ◌^◌, ◌<◌};
ghost use Rattle.translation.specs.declared.registers.Route.TheVariants.{AtProcess};
ghost use Rattle.translation.specs.Route.{effective, relocated, real_address, own_quadrant, hypervisor_quadrant, route_of, lpid_of, confined, table_entries, setting_of};

use crate::fault::{Kind, Setting};
use crate::fields::{bit, bits, page_base, table_base, table_size};

/// The registers that all threads share.
#[derive(Debug, Clone, Copy, PartialEq, Eq)]
pub struct Registers {
    /// The partition table's base and size.
    pub ptcr: u64,
    /// What is ORed to a hypervisor's real addresses.
    pub hrmor: u64,
    /// What is ORed to an ultravisor's real addresses.
    pub urmor: u64,
    /// Whether the secure memory facility is on.
    pub facility: bool,
}

/// A thread's context.
#[derive(Debug, Clone, Copy, PartialEq, Eq)]
pub struct Context {
    /// S: secure.
    pub s: bool,
    /// HV: hypervisor.
    pub hv: bool,
    /// PR: problem state.
    pub pr: bool,
    /// IR: fetches are translated.
    pub ir: bool,
    /// DR: data accesses are translated.
    pub dr: bool,
    /// SF: 64-bit addresses.
    pub sf: bool,
    pub lpid: u64,
    pub pid: u64,
}

/// Which tables an effective address goes through.
#[derive(Clone, Copy)]
pub enum Route {
    /// None: the address is in no segment.
    NoSegment,
    /// None: a real address.
    AtReal { address: u64 },
    /// A partition's tree alone, on a guest real address.
    AtGuest { lpid: u64, address: u64 },
    /// A process's tree under a partition's, on an offset.
    AtProcess { lpid: u64, pid: u64, offset: u64 },
}

impl Route {
    // A process's tree under a partition's, on an offset.
    fn process(lpid: u64, pid: u64, offset: u64) -> Route
        ensures { result ≡ AtProcess lpid pid offset }
    {
        Route::AtProcess { lpid, pid, offset }
    }

    /// The partition under which it runs; 0 for real addresses.
    pub(crate) fn lpid(&self) -> u64
        ensures { result ≡ lpid_of self.now }
    {
        match self {
            Route::AtGuest { lpid, .. } | Route::AtProcess { lpid, .. } => *lpid,
            _ => 0,
        }
    }
}

impl Context {
    /// The effective address: SF = 0 clears its upper half.
    pub(crate) fn effective(&self, address: u64) -> u64
        ensures { result ≡ effective self.now address }
    {
        if self.sf {
            address
        } else {
            address % (1 << 32)
        }
    }

    // Whether an access of this kind is translated.
    fn relocated(&self, kind: Kind) -> bool
        ensures { result ≡ relocated self.now kind }
    {
        match kind {
            Kind::Fetch => self.ir,
            _ => self.dr,
        }
    }

    // The quadrants with HV = 0.
    fn own_quadrant(&self, ea: u64) -> Route
        ensures { result ≡ own_quadrant self.now ea }
    {
        let offset = bits::<2, 63>(ea);
        match bits::<0, 1>(ea) {
            0 => Route::process(self.lpid, self.pid, offset),
            3 => Route::process(self.lpid, 0, offset),
            _ => Route::NoSegment,
        }
    }

    // The quadrants with HV = 1.
    fn hypervisor_quadrant(&self, ea: u64) -> Route
        ensures { result ≡ hypervisor_quadrant self.now ea }
    {
        let offset = bits::<2, 63>(ea);
        match bits::<0, 1>(ea) {
            0 => Route::process(0, self.pid, offset),
            1 => Route::process(self.lpid, self.pid, offset),
            2 => Route::process(self.lpid, 0, offset),
            _ => Route::process(0, 0, offset),
        }
    }
}

impl Registers {
    // A real address of the hypervisor or the ultravisor.
    fn real_address(&self, context: &Context, ea: u64) -> u64
        ensures { result ≡ real_address self.now context.now ea }
    {
        let address = bits::<4, 63>(ea);
        if bit::<0>(ea) {
            return address;
        }
        address | page_base(if context.s { self.urmor } else { self.hrmor })
    }

    /// Which tables an effective address goes through.
    #[tactic(auto, unfolding(crate::specs::Route::route_of))]
    pub(crate) fn route(&self, context: &Context, kind: Kind, ea: u64) -> Route
        ensures { result ≡ route_of self.now context.now kind ea }
    {
        match (context.relocated(kind), context.hv) {
            (true, true) => context.hypervisor_quadrant(ea),
            (true, false) => context.own_quadrant(ea),
            (false, true) => Route::AtReal {
                address: self.real_address(context, ea),
            },
            (false, false) => Route::AtGuest {
                lpid: context.lpid,
                address: bits::<4, 63>(ea),
            },
        }
    }

    // Whether a thread is refused secure frames.
    fn confines(&self, context: &Context) -> bool
        ensures { result ≡ confined self.now context.now }
    {
        !context.s && self.facility
    }

    // How many entries the partition table has.
    fn entries(&self) -> u64
        ensures value { result ≡ table_entries self.now.ptcr }
        ensures small { result < 2 ^ 40 }
    {
        1 << (table_size(self.ptcr) + 8)
    }

    /// What stays the same over one access.
    pub(crate) fn setting(&self, context: &Context, kind: Kind, ea: u64, lpid: u64) -> Setting
        ensures { result ≡ setting_of self.now context.now kind ea lpid }
    {
        Setting {
            confined: self.confines(context),
            table: table_base(self.ptcr),
            entries: self.entries(),
            lpid,
            ea,
            kind,
        }
    }
}
