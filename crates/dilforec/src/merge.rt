//! Deletes applied to a segment, plans of merges, and merges.

pub use fts_merge::{MergePolicy, Merged, Origin, SegmentSize, merge, plan, plan_by, strike};
