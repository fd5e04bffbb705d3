// The rule of a round's table, whose single word is the next stamp, and the outcome of each step on it.

use atomic_table::{Join, Play, Split, TableRule};
use fts_model::Stamp;
use std::collections::LinkedList;

/// The limits that a round was opened with.
#[derive(Clone, Copy, Debug, PartialEq, Eq)]
pub struct RoundLimits {
    /// The number of the round.
    pub round: u64,
    /// The stamp that is drawn first.
    pub first: Stamp,
    /// The number of lanes.
    pub lanes: usize,
    /// The greatest number of operations of a lane.
    pub cap: usize,
}

/// The knowledge of a seat of the table: the round's limits, the number of lanes that it represents, and the stamps
/// that these drew. No value of it is ever made.
pub struct Drawn {
    pub limits: RoundLimits,
    pub lanes: usize,
    pub stamps: LinkedList<u64>,
}

/// The rule: the stamps of all seats are those from the first to the last one drawn, each once.
pub struct Stamps;

impl TableRule<(), Drawn, RoundLimits> for Stamps {
    ghost use Rattle.fts_rounds.specs.RoundsDrawn.{Kept, begun};

    ghost holds = { Kept };

    ghost first = { begun };
}

/// The step that draws the next stamp for a seat.
pub struct Draw;

impl Play<(), Drawn> for Draw {
    ghost use Rattle.fts_rounds.specs.RoundsDrawn.{Draws};

    ghost then = { Draws };
}

/// The step that shows that a seat of all lanes has all stamps.
pub struct Look;

impl Play<(), Drawn> for Look {
    ghost use Rattle.fts_rounds.specs.RoundsDrawn.{Looks};

    ghost then = { Looks };
}

/// The step that splits one lane off a seat that drew nothing.
pub struct Deal;

impl Split<Drawn> for Deal {
    ghost use Rattle.fts_rounds.specs.RoundsDrawn.{one_less, one_lane};

    ghost left = { one_less };

    ghost right = { one_lane };
}

/// The step that joins the lanes and the stamps of another seat to a seat.
pub struct Collect;

impl Join<Drawn> for Collect {
    ghost use Rattle.fts_rounds.specs.RoundsDrawn.{joined, spent};

    ghost both = { joined };

    ghost spent = { spent };
}
