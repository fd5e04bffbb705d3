//! Segments: documents that were built together, with their dictionary, lists, positions and columns.

pub use fts_positions::Positions;
pub use fts_segment::{Builder, ListId, LiveSegment, Segment, join};
