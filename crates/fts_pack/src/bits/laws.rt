// Consequences of the definitions, as functions that do nothing.
ghost use Rattle.std.specs.Prelude.{◌≡◌, ◌≤◌, ◌≤ℤ◌, ◌↔◌, ℤ};
ghost use Rattle.fts_pack.specs.bits.Signed.{i64_of, u64_of};

/// Signed numbers and the unsigned numbers that stand for them have the same order.
pub fn signed_order_is_kept(a: i64, b: i64)
    ensures { (u64_of a ≤ u64_of b) ↔ (a ≤ℤ b) }
{}

/// A signed number is converted back to itself.
pub fn signed_comes_back(value: i64)
    ensures { i64_of (u64_of value) ≡ value }
{}

/// An unsigned number is converted back to itself.
pub fn unsigned_comes_back(value: u64)
    ensures { u64_of (i64_of value) ≡ value }
{}
