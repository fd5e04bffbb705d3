// The policy by which segments are merged.
ghost use Rattle.std.specs.Prelude.{◌≡◌};
ghost use Rattle.fts_merge.specs.Levels.{usual};

/// The policy by which segments are merged: those of one level together, once there are enough, and one with many
/// deleted documents by itself.
#[derive(Clone, Copy, Debug, PartialEq, Eq)]
pub struct MergePolicy {
    /// A segment with fewer live documents counts as one with this many.
    pub floor: u32,
    /// The number of segments of one level that makes them a candidate.
    pub members: usize,
    /// A segment with more live documents is in no level.
    pub most: u32,
    /// A segment with more than this percentage of deleted documents is merged by itself; with 100, none is.
    pub dead: u32,
}

/// The size of a segment.
#[derive(Clone, Copy, Debug, PartialEq, Eq)]
pub struct SegmentSize {
    /// The number of documents.
    pub docs: u32,
    /// The number of live documents.
    pub live: u32,
}

impl MergePolicy {
    /// The policy of an index: eight segments of one level, of 10,000 to 1,000,000 live documents.
    pub fn usual() -> MergePolicy
        ensures { result ≡ usual }
    {
        MergePolicy {
            floor: 10_000,
            members: 8,
            most: 1_000_000,
            dead: 100,
        }
    }
}
