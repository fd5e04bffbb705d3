// A lane of a round: it draws a stamp for each operation and stores the operations.
ghost use Rattle.std.specs.Prelude.{◌≡◌, ◌+◌, ℕ, ◌<◌, ◌≤◌, ◌↔◌, ◌⊎◌, [], ◌∷◌, ◌++◌, length, All, IfOk, IfErr, IsErrAnd};

use crate::stamps::{Draw, Drawn, RoundLimits, Stamps};
use atomic_table::{Seat, Table};
use fts_model::{Op, Refusal, Stamp, Stamped};
use std::alloc::Global;
use std::marker::Model;
use std::sync::Arc;

/// The table that a round and its lanes share.
pub(crate) type StampTable = Table<(), Drawn, RoundLimits, Stamps, Global>;

/// A lane of a round. It may be moved to a thread of its own, and waits for nobody. Contracts see its round, the
/// round's limits, its number among the round's lanes, and the operations that were submitted.
#[derive(Drop)]
pub struct Lane {
    pub(crate) table: Arc<StampTable>,
    pub(crate) seat: Seat<(), Drawn>,
    pub(crate) limits: RoundLimits,
    pub(crate) lane: usize,
    pub(crate) ops: Vec<Stamped<Op>>,
}

impl Model for Lane {
    ghost use Rattle.std.specs.Prelude.{◌≡◌, ◌≤◌, [], length};
    ghost use Rattle.std.specs.Arc.{arc_value};
    ghost use Rattle.fts_model.specs.Operations.{stamps_of};
    ghost use Rattle.fts_rounds.specs.Rounds.{Held, Rises};
    ghost use Rattle.fts_rounds.specs.RoundsDrawn.{drawn};

    ghost Value = { Held };

    ghost view = { λ l. record { table = l.seat.table_id; limits = l.limits; lane = l.lane; ops = l.ops.items } };

    ghost invariant = { λ l. (l.seat.table_id ≡ (arc_value l.table).shared.table_id)
        × (l.seat.table_id.words ≡ 1)
        × (l.seat.me ≡ (drawn l.limits 1 (stamps_of l.ops.items), []))
        × Rises (stamps_of l.ops.items)
        × (length l.ops.items ≤ l.limits.cap) };
}

/// A lane that takes no more operations.
#[derive(Drop)]
pub struct LaneEnd {
    pub(crate) ended: Lane,
}

impl Model for LaneEnd {
    ghost use Rattle.fts_rounds.specs.Rounds.{Held};

    ghost Value = { Held };

    ghost view = { λ e. e.ended };
}

impl Lane {
    ghost use Rattle.fts_rounds.specs.Rounds.{SameLane};

    /// Draws the next stamp of the round for the operation, and stores it.
    ///
    /// It is refused as `LaneFull` if the lane has as many operations as it can take, or for memory. A refusal draws no
    /// stamp and hands the operation back.
    pub fn submit(&mut self, op: Op) -> Result<Stamp, (Op, Refusal)>
        ensures same { SameLane self.old self.new }
        ensures ok { IfOk result (λ stamp.
            self.new ≡ record self.old { ops = self.old.ops ++ record { stamp = stamp; value = op } ∷ [] }) }
        ensures above { IfOk result (λ stamp. All (λ s. s.stamp < stamp) self.old.ops) }
        ensures from_first { IfOk result (λ stamp. self.old.limits.first ≤ stamp) }
        ensures alone { self.old.limits.lanes ≡ 1 →
            IfOk result (λ stamp. stamp ≡ self.old.limits.first + length self.old.ops) }
        ensures full { IsErrAnd result (λ e. e.1 ≡ Refusal.LaneFull) ↔
            (length self.old.ops ≡ self.old.limits.cap) }
        ensures refused { IfErr result (λ e. (e.1 ≡ Refusal.LaneFull) ⊎ (e.1 ≡ Refusal.Memory)) }
        ensures handed_back { IfErr result (λ e. (self.new ≡ self.old) × (e.0 ≡ op)) }
    {
        if self.ops.len() >= self.limits.cap {
            return Err((op, Refusal::LaneFull));
        }
        if self.ops.reserve(1).is_err() {
            return Err((op, Refusal::Memory));
        }
        let stamp = self.table.shared.fetch_add::<Draw>(&mut self.seat, 0, 1);
        self.ops.push_reserved(Stamped { stamp, value: op });
        Ok(stamp)
    }

    /// Ends the lane. Its operations stay in its end.
    pub fn end(self) -> LaneEnd
        ensures { result ≡ self }
    {
        LaneEnd { ended: self }
    }
}

impl LaneEnd {
    /// The number of the lane in its round, from 0.
    pub fn lane(&self) -> usize
        ensures { result ≡ self.now.lane }
    {
        self.ended.lane
    }

    /// The number of submitted operations.
    pub(crate) fn len(&self) -> usize
        ensures len { result ≡ length self.now.ops }
        ensures most { result ≤ self.now.limits.cap }
    {
        let ended = &self.ended;
        ended.ops.len()
    }
}
