// A merged segment that has not replaced its sources yet.
ghost use Rattle.std.specs.Prelude.{◌≡◌};
ghost use Rattle.fts_snapshots.specs.MergedSegments.{MergedSegmentValue, IsMergedSegment, segment_of};

use fts_merge::Merged;
use std::marker::Model;

/// A segment of the live documents of its sources, with their segment numbers: the result of a
/// [`MergeJob`](crate::MergeJob). It has the origin of each document, and no two documents have the same.
#[derive(Drop)]
pub struct MergedSegment {
    merged: Merged,
    ids: Vec<u64>,
}

impl Model for MergedSegment {
    ghost use Rattle.fts_snapshots.specs.MergedSegments.{MergedSegmentValue, IsMergedSegment, segment_of};

    ghost Value = { MergedSegmentValue };

    ghost view = { λ m. segment_of m.merged m.ids.items };

    ghost invariant = { λ m. IsMergedSegment (segment_of m.merged m.ids.items) };
}

impl MergedSegment {
    /// Adds the numbers of its sources to a merged segment.
    pub(crate) fn new(merged: Merged, ids: Vec<u64>) -> MergedSegment
        requires { IsMergedSegment (segment_of merged ids.items) }
        ensures { result ≡ segment_of merged ids.items }
    {
        MergedSegment { merged, ids }
    }

    /// The segment, with the origin of each document: the index of its source in [`sources`](MergedSegment::sources),
    /// and its number there.
    pub fn merged(&self) -> &Merged
        ensures merged { result.now ≡ self.now.merged }
        ensures each { IsMergedSegment self.now }
    {
        &self.merged
    }

    /// The numbers of the sources, in the order of the merge.
    pub fn sources(&self) -> &[u64]
        ensures ids { result.now ≡ self.now.ids }
        ensures each { IsMergedSegment self.now }
    {
        &self.ids
    }
}
