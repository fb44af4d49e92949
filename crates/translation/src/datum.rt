//! The datum: read or written where it was reached.
ghost use Rattle.std.specs.Prelude.{◌≡◌, ◌+◌, ◌-◌, ◌*◌, ◌^◌, ◌<◌, ◌≤◌, Ok};
ghost use Rattle.translation.specs.Widths.{bytes_of, above as bits_above, part as part_of, merged as merged_of};
ghost use Rattle.translation.specs.Request.{stored_value};
ghost use Rattle.translation.specs.Underway.{Performs};

use crate::fault::Kind;
use crate::reach::Access;
use crate::widths::Width;
use memory::protected::ProtectedMemory;

/// What is asked of the datum.
#[derive(Clone, Copy)]
pub enum Ask {
    ToLoad,
    ToFetch,
    ToStore(u64),
}

impl Ask {
    ghost use Rattle.translation.specs.Access.{kind_of};

    pub fn kind(self) -> Kind
        ensures { result ≡ kind_of self }
    {
        match self {
            Ask::ToLoad => Kind::Load,
            Ask::ToFetch => Kind::Fetch,
            Ask::ToStore(_) => Kind::Store,
        }
    }
}

/// A datum: what is asked of it, how wide it is, and at which offset of its doubleword it lies.
#[derive(Clone, Copy)]
pub struct Datum {
    pub ask: Ask,
    pub width: Width,
    pub offset: u64,
    ghost inside: { bytes_of width + offset ≤ 8 },
    ghost fits: { stored_value ask < 2 ^ (8 * bytes_of width) },
}

impl Datum {
    // How far above its doubleword's last byte it ends, in bits.
    fn above(&self) -> u64
        ensures { result ≡ bits_above (bytes_of self.now.width) self.now.offset }
    {
        8 * (8 - u64::from(self.width) - self.offset)
    }

    // It, in a doubleword.
    #[tactic(auto, using(crate::proofs::Parts::parts))]
    fn part(&self, v: u64) -> u64
        ensures { result ≡ part_of (bytes_of self.now.width) self.now.offset v }
    {
        match self.width {
            Width::Doubleword => v,
            _ => (v >> self.above()) % (1 << (8 * u64::from(self.width))),
        }
    }

    // The doubleword with another value in its place.
    #[tactic(auto, using(crate::proofs::Parts::merges))]
    fn merged(&self, v: u64, x: u64) -> u64
        requires { x < 2 ^ (8 * bytes_of self.now.width) }
        ensures { result ≡ merged_of (bytes_of self.now.width) self.now.offset v x }
    {
        let shift = self.above();
        v - self.part(v) * (1 << shift) + x * (1 << shift)
    }
}

impl<M: ProtectedMemory> Access<'_, M> {
    ghost use Rattle.translation.specs.Access.{use_datum as using_datum};

    /// The datum's value (0 for a store), its real address and the count.
    #[tactic(auto, unfolding(crate::specs::Access::use_datum))]
    pub fn use_datum(&mut self, datum: &Datum, addr: u64) -> (u64, u64, u64)
        ensures performs { Performs M.meaning M.keeps self.old (using_datum datum.now.ask (bytes_of datum.now.width) datum.now.offset addr) (Ok result) self.new }
        ensures count { self.new.count ≡ self.old.count }
    {
        let word = self.reached_word(addr);
        let value = match datum.ask {
            Ask::ToStore(value) => {
                self.put_word(addr, datum.merged(word, value));
                0
            }
            _ => datum.part(word),
        };
        (value, addr, self.count)
    }
}
