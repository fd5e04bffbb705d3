// The origin of a document of a merged segment.

/// The origin of a document of a merged segment: its source and its number there.
#[derive(Clone, Copy, Debug, PartialEq, Eq)]
pub struct Origin {
    /// The index of the segment among the sources of the merge.
    pub source: usize,
    /// The number of the document in that segment.
    pub document: usize,
}
