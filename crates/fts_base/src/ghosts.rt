// Values that only contracts read: a count, and the bytes of a stream. Neither takes a byte.
ghost use Rattle.std.specs.Prelude.{◌≡◌, ◌+◌, ◌++◌, ℕ, List, []};
ghost use Rattle.std.specs.Borrow.{ftrue};

use std::marker::Model;

/// A zero-sized list of bytes visible only to contracts, such as those read from a stream.
#[derive(Drop)]
pub struct GhostBytes {
    pub ghost bytes: { List ℕ },
}

impl Model for GhostBytes {
    ghost also_owns = { λ _. ftrue };
}

impl GhostBytes {
    /// An empty list.
    pub fn none() -> GhostBytes
        ensures { result.bytes ≡ [] }
    {
        GhostBytes {}
    }

    /// This list with `more` appended.
    pub fn and(&self, more: &[u8]) -> GhostBytes
        ensures { result.bytes ≡ self.now.bytes ++ more.now }
    {
        GhostBytes {}
    }
}

// It has no data, so any thread may have it.
unsafe impl Send for GhostBytes {}

/// A zero-sized counter visible only to contracts.
#[derive(Drop)]
pub struct GhostCount {
    /// A list with as many bytes as were counted.
    units: GhostBytes,
}

impl Model for GhostCount {
    ghost use Rattle.std.specs.Prelude.{ℕ, length};

    ghost Value = { ℕ };

    ghost view = { λ c. length c.units.bytes };
}

impl GhostCount {
    /// A count of zero.
    pub fn zero() -> GhostCount
        ensures { result ≡ 0 }
    {
        GhostCount {
            units: GhostBytes::none(),
        }
    }

    /// This count plus one.
    pub fn and_one(&self) -> GhostCount
        ensures { result ≡ self.now + 1 }
    {
        GhostCount {
            units: self.units.and(&[0]),
        }
    }
}
