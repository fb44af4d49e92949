//! Bit fields of a doubleword; bit 0 is the most significant.
ghost use Rattle.std.specs.Prelude.{◌≡◌, ◌==◌, ◌&&◌, ◌+◌, ◌<◌, ◌≤◌};
ghost use Rattle.translation.specs.Fields.{bits as bits_of, bit as is_set, table_base, table_size, next_base, next_width, tree_size, valid as is_valid, leaf as is_leaf, page_base, referenced as is_referenced, changed as is_changed, privileged as is_privileged, may_read, may_write, may_execute};
ghost use Rattle.translation.specs.Tables.{flawed_process_table};

/// Bits I to J, as a number.
pub(crate) fn bits<const I: u32, const J: u32>(v: u64) -> u64
    requires ordered { I ≤ J }
    requires inside { J < 64 }
    requires part { J < 63 + I }
    ensures { result ≡ bits_of v I J }
{
    (v >> (63 - J)) % (1 << (J + 1 - I))
}

/// Whether bit I is 1.
pub(crate) fn bit<const I: u32>(v: u64) -> bool
    requires { I < 64 }
    ensures { result ≡ is_set v I }
{
    bits::<I, I>(v) == 1
}

/// A table's base, of PTCR and of a partition entry's second doubleword.
pub fn table_base(v: u64) -> u64
    ensures { result ≡ table_base v }
{
    bits::<4, 51>(v) << 12
}

/// A table's size field, beside its base.
pub fn table_size(v: u64) -> u64
    ensures { result ≡ table_size v }
{
    bits::<59, 63>(v)
}

/// Whether no reserved bit of PTCR is 1: none of bits 0:3 and 52:58.
pub fn clear(v: u64) -> bool
    ensures { result ≡ (bits_of v 0 3 == 0 && bits_of v 52 58 == 0) }
{
    bits::<0, 3>(v) == 0 && bits::<52, 58>(v) == 0
}

/// Whether no table of this size field may stand at this base: the field is above 24, or the base no multiple of the size.
pub fn misplaced(size: u64, base: u64) -> bool
    ensures { result ≡ flawed_process_table size base }
{
    size > 24 || base % (1 << (size + 12)) != 0
}

/// The next table's base, of a root descriptor and a page directory entry.
pub(crate) fn next_base(v: u64) -> u64
    ensures { result ≡ next_base v }
{
    bits::<4, 55>(v) << 8
}

/// The next table's width, beside its base, where a table's size field stands.
pub(crate) fn next_width(v: u64) -> u64
    ensures { result ≡ next_width v }
{
    table_size(v)
}

/// A root descriptor's RTS.
pub(crate) fn tree_size(v: u64) -> u64
    ensures { result ≡ tree_size v }
{
    bits::<1, 2>(v) * 8 + bits::<56, 58>(v)
}

/// V.
pub(crate) fn valid(v: u64) -> bool
    ensures { result ≡ is_valid v }
{
    bit::<0>(v)
}

/// L.
pub(crate) fn leaf(v: u64) -> bool
    ensures { result ≡ is_leaf v }
{
    bit::<1>(v)
}

/// A leaf's page number, as an address; and the part of HRMOR and URMOR that is used.
pub(crate) fn page_base(v: u64) -> u64
    ensures { result ≡ page_base v }
{
    bits::<7, 51>(v) << 12
}

/// R.
pub fn referenced(v: u64) -> bool
    ensures { result ≡ is_referenced v }
{
    bit::<55>(v)
}

/// C.
pub fn changed(v: u64) -> bool
    ensures { result ≡ is_changed v }
{
    bit::<56>(v)
}

/// The privileged bit.
pub(crate) fn privileged(v: u64) -> bool
    ensures { result ≡ is_privileged v }
{
    bit::<60>(v)
}

/// The read bit.
pub(crate) fn readable(v: u64) -> bool
    ensures { result ≡ may_read v }
{
    bit::<61>(v)
}

/// The read-write bit.
pub(crate) fn writable(v: u64) -> bool
    ensures { result ≡ may_write v }
{
    bit::<62>(v)
}

/// The execute bit.
pub(crate) fn executable(v: u64) -> bool
    ensures { result ≡ may_execute v }
{
    bit::<63>(v)
}
