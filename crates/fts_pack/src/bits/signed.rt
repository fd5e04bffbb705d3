// Signed numbers as unsigned ones in the same order, so that one kind of column serves both.
ghost use Rattle.std.specs.Prelude.{◌≡◌, ℤ, ℕ};
ghost use Rattle.fts_pack.specs.bits.Signed.{i64_of, u64_of};

/// Maps signed numbers to unsigned ones in the same order: the top bit is flipped, so the least number becomes 0.
#[inline]
pub fn i64_to_u64(value: i64) -> u64
    ensures { result ≡ u64_of value }
{
    value.cast_unsigned().wrapping_add(1 << 63)
}

/// The inverse of `i64_to_u64`.
#[inline]
pub fn u64_to_i64(value: u64) -> i64
    ensures { result ≡ i64_of value }
{
    value.wrapping_add(1 << 63).cast_signed()
}
