//! The widths of data.
ghost use Rattle.std.specs.Prelude.{◌≡◌, Some};
ghost use Rattle.translation.specs.Widths.{bytes_of, unaskable_number, unaskable_text, width_of, fits as does_fit};

use std::error::Error;
use std::fmt;

/// How many bytes an access reads or writes.
#[derive(Debug, Clone, Copy, PartialEq, Eq)]
pub enum Width {
    Byte = 1,
    Halfword = 2,
    Word = 4,
    Doubleword = 8,
}

/// What cannot be asked of an access.
#[derive(Debug, Clone, Copy, PartialEq, Eq)]
pub enum Unaskable {
    /// The width is not 1, 2, 4 or 8.
    OddWidth = 5,
    /// The effective address is no multiple of the width.
    Misaligned = 6,
    /// The value does not fit the width.
    TooWide = 7,
}

/// The refusal's number: 5, 6 or 7.
impl From<Unaskable> for u64 {
    ghost from_gives = { λ u n. n ≡ unaskable_number u };

    fn from(unaskable: Unaskable) -> u64 {
        unaskable as u64
    }
}

impl fmt::Display for Unaskable {
    ghost output = { λ u. Some (unaskable_text u) };

    fn fmt<W: fmt::Write>(&self, f: &mut fmt::Formatter<W>) -> fmt::Result {
        f.write_str(match self {
            Unaskable::OddWidth => "the width is not 1, 2, 4 or 8",
            Unaskable::Misaligned => "the address is no multiple of the width",
            Unaskable::TooWide => "the value does not fit the width",
        })
    }
}

impl Error for Unaskable {}

/// The width of a number of bytes.
impl TryFrom<u64> for Width {
    type Error = Unaskable;

    ghost try_from_gives = { λ bytes r. r ≡ width_of bytes };

    fn try_from(bytes: u64) -> Result<Width, Unaskable> {
        match bytes {
            1 => Ok(Width::Byte),
            2 => Ok(Width::Halfword),
            4 => Ok(Width::Word),
            8 => Ok(Width::Doubleword),
            _ => Err(Unaskable::OddWidth),
        }
    }
}

/// The number of bytes.
impl From<Width> for u64 {
    ghost from_gives = { λ width n. n ≡ bytes_of width };

    fn from(width: Width) -> u64 {
        width as u64
    }
}

impl Width {
    /// Whether a value fits: it is below 2^(8 × width).
    pub(crate) fn fits(self, value: u64) -> bool
        ensures { result ≡ does_fit self value }
    {
        match self {
            Width::Byte => value < 1 << 8,
            Width::Halfword => value < 1 << 16,
            Width::Word => value < 1 << 32,
            Width::Doubleword => true,
        }
    }
}
