// A snapshot at its commit stamp.
ghost use Rattle.fts_snapshots.specs.Stamps.{IsStamped};

use crate::snapshot::Snapshot;
use fts_model::Stamp;

/// A snapshot with the stamp of its commit.
#[derive(Drop)]
pub struct CommitPoint {
    pub stamp: Stamp,
    pub snapshot: Snapshot,
    ghost stamped: { IsStamped stamp snapshot },
}
