// The greatest numbers of documents of a segment.

/// The most documents of a segment that is built of adds.
pub const MOST_BUILT: usize = 65_536;

/// The most documents of a merged segment.
pub const MOST_MERGED: usize = 1_048_576;
