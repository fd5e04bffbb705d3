// A round: it creates its lanes, and gathers their ends into one batch.
ghost use Rattle.std.specs.Prelude.{◌≡◌, ℕ, ◌+◌, ◌*◌, ◌^◌, ◌<◌, ◌≤◌, ◌↔◌, ◌⊎◌, [], ◌∷◌, map, length};
ghost use Rattle.std.specs.Prelude.{vec_len, All, IsTrue, IfOk, IfErr, IsErrAnd, IsOkUnless, MatchOption, MatchResult};
ghost use Rattle.std.specs.List.{range_with_len};
ghost use Rattle.std.specs.Vec.{vec_capacity};
ghost use Rattle.fts_base.specs.Totals.{times};
ghost use Rattle.fts_rounds.specs.Rounds.{IsLaneOf, fresh, lanes_of};
ghost use Rattle.fts_rounds.specs.Shuffles.{IsLeastMissing, IsShuffle, submissions};

use crate::batch::Batch;
use crate::lane::{Lane, LaneEnd, StampTable};
use crate::stamps::{Collect, Deal, Drawn, Look, RoundLimits};
use atomic_table::{Seat, Table};
use fts_base::release;
use fts_model::{Op, Refusal, Stamp, Stamped};
use std::alloc::Global;
use std::marker::Model;
use std::sync::Arc;

/// A round whose lanes were created. Contracts see its table, which no other round has, and its limits.
#[derive(Drop)]
pub struct Round {
    table: Arc<StampTable>,
    seat: Seat<(), Drawn>,
    limits: RoundLimits,
}

impl Model for Round {
    ghost use Rattle.std.specs.Prelude.{◌≡◌, ◌+◌, ◌*◌, ◌^◌, ◌<◌, []};
    ghost use Rattle.std.specs.Arc.{arc_value};
    ghost use Rattle.fts_rounds.specs.Rounds.{Opened};
    ghost use Rattle.fts_rounds.specs.RoundsDrawn.{drawn};

    ghost Value = { Opened };

    ghost view = { λ r. record { table = r.seat.table_id; limits = r.limits } };

    ghost invariant = { λ r. (r.seat.table_id ≡ (arc_value r.table).shared.table_id)
        × (r.seat.table_id.words ≡ 1)
        × (r.seat.me ≡ (drawn r.limits 0 [], []))
        × (0 < r.limits.lanes)
        × (r.limits.lanes * r.limits.cap < 2 ^ 62) };
}

/// Opens the round of this number, whose first stamp is `first`, with this many lanes, each of which takes up to `cap`
/// operations.
pub fn open_round(
    alloc: Global,
    number: u64,
    first: Stamp,
    lanes: usize,
    cap: usize,
) -> Result<(Round, Vec<Lane>), Refusal>
    requires lanes { (1 ≤ lanes) × (lanes ≤ 64) }
    requires cap { (1 ≤ cap) × (cap ≤ 1000000) }
    requires stamps { first + lanes * cap < 2 ^ 62 }
    ensures limits { IfOk result (λ r.
        r.0.limits ≡ record { round = number; first = first; lanes = lanes; cap = cap }) }
    ensures lanes { IfOk result (λ r. r.1.items ≡ map (fresh r.0) (range_with_len 0 lanes)) }
    ensures memory { IsOkUnless result Refusal.Memory }
{
    let limits = RoundLimits {
        round: number,
        first,
        lanes,
        cap,
    };
    let (table, mut seat) = Table::of_words(alloc, &[first], &limits)?;
    let table = Arc::new(alloc, table)?;
    let mut dealt = Vec::with_capacity(alloc, lanes)?;
    for lane in 0..lanes {
        let shared = Arc::try_clone(&table)?;
        let lane_seat = shared.shared.split_seat::<Deal>(&mut seat);
        dealt.push_reserved(Lane {
            table: shared,
            seat: lane_seat,
            limits,
            lane,
            ops: Vec::new(alloc),
        });
    }
    Ok((
        Round {
            table,
            seat,
            limits,
        },
        dealt,
    ))
}

fn has_lane(ends: &[LaneEnd], lane: usize) -> bool
    ensures { IsTrue result ↔ (0 < times lane (lanes_of ends.now)) }
{
    for end in ends {
        if end.lane() == lane {
            return true;
        }
    }
    false
}

fn least_missing(ends: &[LaneEnd], lanes: usize) -> Option<usize>
    ensures { MatchOption result
        ((n : ℕ) → n < lanes → 0 < times n (lanes_of ends.now))
        (IsLeastMissing lanes (lanes_of ends.now)) }
{
    for lane in 0..lanes {
        if !has_lane(ends, lane) {
            return Some(lane);
        }
    }
    None
}

/// The only end, or the ends if there are several.
fn only(ends: Vec<LaneEnd>) -> Result<LaneEnd, Vec<LaneEnd>>
    ensures { MatchResult result (λ end. ends.items ≡ end ∷ []) (λ others. others ≡ ends) }
{
    let mut ends = ends;
    if ends.len() == 1
        && let Some(end) = ends.pop()
    {
        return Ok(end);
    }
    Err(ends)
}

/// The number of operations that were submitted to all lanes.
fn submitted(ends: &[LaneEnd], limits: &RoundLimits) -> usize
    requires few { length ends.now * limits.now.cap < 2 ^ 62 }
    requires limits { All (λ e. e.limits ≡ limits.now) ends.now }
    ensures { result ≡ length (submissions ends.now) }
{
    let mut count = 0;
    for end in ends {
        count += end.len();
    }
    count
}

impl Round {
    /// Gathers the operations of all lanes, from the ends of this round's lanes in any order, each at most once.
    ///
    /// It is refused as `LaneMissing` with the least lane that has no end here, or for memory; the round and the ends
    /// are handed back.
    pub fn gather(
        self,
        alloc: Global,
        ends: Vec<LaneEnd>,
    ) -> Result<Batch, (Round, Vec<LaneEnd>, Refusal)>
        requires lanes { All (IsLaneOf self) ends.items }
        requires each_once { (n : ℕ) → times n (lanes_of ends.items) ≤ 1 }
        ensures round { IfOk result (λ b. b.round ≡ self.limits.round) }
        ensures first { IfOk result (λ b. b.first ≡ self.limits.first) }
        ensures shuffle { IfOk result (λ b. IsShuffle self.limits.first b.ops ends.items) }
        ensures alone { (end : _) → ends.items ≡ end ∷ [] → IfOk result (λ b. b.ops ≡ end.ops) }
        ensures missing { (n : ℕ) → IsErrAnd result (λ e. e.2 ≡ Refusal.LaneMissing n) ↔
            IsLeastMissing self.limits.lanes (lanes_of ends.items) n }
        ensures refused { IfErr result (λ e.
            (e.2 ≡ Refusal.Memory) ⊎ ((n : ℕ) × (e.2 ≡ Refusal.LaneMissing n))) }
        ensures handed_back { IfErr result (λ e. (e.0 ≡ self) × (e.1 ≡ ends)) }
    {
        if let Some(lane) = least_missing(&ends, self.limits.lanes) {
            return Err((self, ends, Refusal::LaneMissing(lane)));
        }
        match only(ends) {
            Ok(end) => Ok(self.alone(end)),
            Err(ends) => self.gather_all(alloc, ends),
        }
    }

    /// Gathers the ends of all lanes. The only refusal is `Memory`.
    fn gather_all(
        self,
        alloc: Global,
        ends: Vec<LaneEnd>,
    ) -> Result<Batch, (Round, Vec<LaneEnd>, Refusal)>
        requires lanes { All (IsLaneOf self) ends.items }
        requires each_once { (n : ℕ) → times n (lanes_of ends.items) ≤ 1 }
        requires none_missing { (n : ℕ) → n < self.limits.lanes → 0 < times n (lanes_of ends.items) }
        ensures round { IfOk result (λ b. b.round ≡ self.limits.round) }
        ensures first { IfOk result (λ b. b.first ≡ self.limits.first) }
        ensures shuffle { IfOk result (λ b. IsShuffle self.limits.first b.ops ends.items) }
        ensures alone { (end : _) → ends.items ≡ end ∷ [] → IfOk result (λ b. b.ops ≡ end.ops) }
        ensures refused { IfErr result (λ e. e.2 ≡ Refusal.Memory) }
        ensures handed_back { IfErr result (λ e. (e.0 ≡ self) × (e.1 ≡ ends)) }
    {
        let count = submitted(&ends, &self.limits);
        let Ok(room) = Vec::with_capacity(alloc, count) else {
            return Err((self, ends, Refusal::Memory));
        };
        Ok(self.merge(ends, room))
    }

    /// The batch of a round of one lane: its operations as they were submitted, which are in the order of their stamps.
    fn alone(self, end: LaneEnd) -> Batch
        requires lane { IsLaneOf self end }
        requires one { self.limits.lanes ≡ 1 }
        ensures round { result.round ≡ self.limits.round }
        ensures first { result.first ≡ self.limits.first }
        ensures shuffle { IsShuffle self.limits.first result.ops (end ∷ []) }
        ensures alone { result.ops ≡ end.ops }
    {
        let Round {
            table,
            mut seat,
            limits,
        } = self;
        let LaneEnd { ended } = end;
        let Lane {
            seat: other,
            ops,
            ..
        } = ended;
        table.shared.join_seat::<Collect>(&mut seat, other);
        table.shared.load::<Look>(&mut seat, 0);
        Batch {
            round: limits.round,
            first: limits.first,
            ops,
        }
    }

    /// Merges the ends of all lanes, by a sort in place. It allocates only afterwards, so nothing can be refused once
    /// the first end was taken apart.
    fn merge(self, mut ends: Vec<LaneEnd>, mut ops: Vec<Stamped<Op>>) -> Batch
        requires lanes { All (IsLaneOf self) ends.items }
        requires all { vec_len ends ≡ self.limits.lanes }
        requires empty { ops.items ≡ [] }
        requires room { length (submissions ends.items) ≤ vec_capacity ops }
        ensures round { result.round ≡ self.limits.round }
        ensures first { result.first ≡ self.limits.first }
        ensures shuffle { IsShuffle self.limits.first result.ops ends.items }
        ensures alone { (end : _) → ends.items ≡ end ∷ [] → result.ops ≡ end.ops }
    {
        let Round {
            table,
            mut seat,
            limits,
        } = self;
        while let Some(end) = ends.pop() {
            let LaneEnd { ended } = end;
            let Lane {
                seat: other,
                ops: mut submitted,
                ..
            } = ended;
            table.shared.join_seat::<Collect>(&mut seat, other);
            let Ok(()) = ops.append(&mut submitted) else {
                unreachable!()
            };
            release(submitted);
        }
        table.shared.load::<Look>(&mut seat, 0);
        ops.sort_unstable_by_key(|s| s.stamp);
        Batch {
            round: limits.round,
            first: limits.first,
            ops,
        }
    }
}
