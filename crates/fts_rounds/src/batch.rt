// The batch of operations that a round gathers.
ghost use Rattle.std.specs.Prelude.{◌≡◌, ◌+◌, ◌^◌, ◌<◌, length};
ghost use Rattle.std.specs.List.{range_with_len};
ghost use Rattle.fts_model.specs.Operations.{stamps_of};

use fts_base::release;
use fts_model::{Op, Stamp, Stamped};
use std::marker::Model;

/// All operations that were submitted to a round, in the order of their stamps. Contracts see the round's number, the
/// first stamp and the list.
#[derive(Drop)]
pub struct Batch {
    pub(crate) round: u64,
    pub(crate) first: Stamp,
    pub(crate) ops: Vec<Stamped<Op>>,
}

impl Model for Batch {
    ghost use Rattle.std.specs.Prelude.{◌≡◌, ◌+◌, ◌^◌, ◌<◌, length};
    ghost use Rattle.std.specs.List.{range_with_len};
    ghost use Rattle.fts_model.specs.Operations.{stamps_of};
    ghost use Rattle.fts_rounds.specs.Rounds.{Gathered};

    ghost Value = { Gathered };

    ghost view = { λ b. record { round = b.round; first = b.first; ops = b.ops.items } };

    ghost invariant = { λ b. (stamps_of b.ops.items ≡ range_with_len b.first (length b.ops.items))
        × (b.first + length b.ops.items < 2 ^ 62) };
}

impl Batch {
    /// Frees the operations.
    pub fn release(self) {
        let Batch { ops, .. } = self;
        release(ops);
    }

    /// The number of the round.
    pub fn round(&self) -> u64
        ensures { result ≡ self.now.round }
    {
        self.round
    }

    /// The stamp of the first operation, if there is one.
    pub fn first(&self) -> Stamp
        ensures { result ≡ self.now.first }
    {
        self.first
    }

    /// The operations with their stamps, which are consecutive from the first.
    pub fn ops(&self) -> &[Stamped<Op>]
        ensures ops { result.now ≡ self.now.ops }
        ensures numbered { stamps_of result.now ≡ range_with_len self.now.first (length result.now) }
    {
        &self.ops
    }

    /// The stamp after those of the operations.
    pub fn end(&self) -> Stamp
        ensures end { result ≡ self.now.first + length self.now.ops }
        ensures small { result < 2 ^ 62 }
    {
        self.first + self.ops.len() as u64
    }
}
