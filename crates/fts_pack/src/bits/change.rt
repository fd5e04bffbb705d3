// How a word of bits changes another.
ghost use Rattle.std.specs.Prelude.{◌≡◌, ℕ, ◌<◌, ◌==◌};
ghost use Rattle.std.specs.Int.{bit_at};
ghost use Rattle.fts_pack.specs.bits.Changes.{changed};

/// Which documents a word has bits of afterwards.
#[derive(Clone, Copy)]
pub(crate) enum Change {
    /// Those that both words have.
    And,
    /// Those that one of the words has.
    Or,
    /// Those that the other word doesn't have.
    AndNot,
}

impl Change {
    /// The word after the change by another's bits.
    #[inline(always)]
    pub(crate) fn of(self, told: u64, bits: u64) -> u64
        ensures { (j : ℕ) → j < 64 → (bit_at result j == 1) ≡ changed self (bit_at told j == 1) (bit_at bits j == 1) }
    {
        match self {
            Change::And => told & bits,
            Change::Or => told | bits,
            Change::AndNot => told & !bits,
        }
    }
}
