//! What an access is asked on: an address and a width that go together, and for a store a value that fits.
ghost use Rattle.std.specs.Prelude.{◌≡◌, ◌==◌, if◌then◌else◌, ◌+◌, ◌*◌, ◌%◌, ◌^◌, ◌<◌, ◌≤◌, Ok, Err, MatchResult};
ghost use Rattle.translation.specs.declared.widths.Unaskable.TheVariants.{Misaligned};
ghost use Rattle.translation.specs.Widths.{bytes_of, asked, fitting, fetched};

use crate::widths::{Unaskable, Width};
use std::fmt;

/// An address that is a multiple of a width.
#[derive(Debug, Clone, Copy)]
pub struct Operand {
    pub address: u64,
    pub width: Width,
    ghost aligned: { address % bytes_of width ≡ 0 },
    ghost inside: { bytes_of width + address % 8 ≤ 8 },
}

/// An operand, and a value that fits its width.
#[derive(Clone, Copy)]
pub struct Stored {
    pub operand: Operand,
    pub value: u64,
    ghost fits: { value < 2 ^ (8 * bytes_of operand.width) },
}

// Written out, and no derive: it shows address, width and value side by side.
impl fmt::Debug for Stored {
    fn fmt<W: fmt::Write>(&self, f: &mut fmt::Formatter<W>) -> fmt::Result {
        f.debug_struct("Stored")
            .field("address", &self.operand.address)
            .field("width", &self.operand.width)
            .field("value", &self.value)
            .finish()
    }
}

/// An instruction's address, a multiple of 4.
#[derive(Debug, Clone, Copy)]
pub struct Instruction {
    pub address: u64,
    ghost aligned: { address % 4 ≡ 0 },
}

// Base plus index modulo 2^64, a multiple of the width.
fn aligned(base: u64, index: u64, width: Width) -> Result<u64, Unaskable>
    ensures { result ≡ (if (base + index) % 2 ^ 64 % bytes_of width == 0 then Ok ((base + index) % 2 ^ 64) else Err Misaligned) }
{
    let address = base.wrapping_add(index);
    if address % u64::from(width) != 0 {
        return Err(Unaskable::Misaligned);
    }
    Ok(address)
}

impl Operand {
    /// The operand of a load: base plus index modulo 2^64, with a width of 1, 2, 4 or 8 of which it is a multiple.
    pub fn new(width: u64, base: u64, index: u64) -> Result<Operand, Unaskable>
        ensures { MatchResult result (λ o. Ok (o.address, o.width) ≡ asked width base index) (λ e. Err e ≡ asked width base index) }
    {
        let width = Width::try_from(width)?;
        let address = aligned(base, index, width)?;
        Ok(Operand { address, width })
    }

    /// The operand of a store, with a value that fits its width.
    pub fn with_value(&self, value: u64) -> Result<Stored, Unaskable>
        ensures { MatchResult result (λ o. Ok (o.operand.address, o.operand.width, o.value) ≡ fitting self.now.address self.now.width value) (λ e. Err e ≡ fitting self.now.address self.now.width value) }
    {
        if !self.width.fits(value) {
            return Err(Unaskable::TooWide);
        }
        Ok(Stored {
            operand: *self,
            value,
        })
    }
}

impl Instruction {
    /// An instruction's address: base plus index modulo 2^64, a multiple of 4.
    pub fn new(base: u64, index: u64) -> Result<Instruction, Unaskable>
        ensures { MatchResult result (λ o. Ok o.address ≡ fetched base index) (λ e. Err e ≡ fetched base index) }
    {
        let address = aligned(base, index, Width::Word)?;
        Ok(Instruction { address })
    }
}
