//! Operations on finished segments: deletes are applied to them, and several are merged into one.
//!
//! A segment never changes. Beside it are its live bits, one per document, and its content is the documents whose bit
//! is set. So applying a delete clears bits ([`strike`]), in time proportional to the documents that have its term and
//! not to all of them. Deleted documents are dropped when segments are merged: [`merge`] makes one segment of the live
//! documents of several. The result records the origin of each document ([`Merged`]), so that documents that are
//! deleted in the meantime can be found in it. The indexes of its fields can be made by several threads ([`merge_by`]).
//! A merge policy chooses segments by their sizes alone ([`plan`]): those
//! of one level, which have about the same size, once there are eight of them.
//!
//! ```text
//! let live = strike(alloc, &segment, &live, &ops)?;
//! let sources = vec![in alloc; LiveSegment::new(&segment, &live), LiveSegment::new(&other, &others_live)]?;
//! let merged = merge(alloc, &sources)?;
//! let origin = merged.origins()[0];
//! // Document 0 of the merged segment was document `origin.document` of `sources[origin.source]`.
//! ```
#![tactic(auto)]

mod field_job;
mod join_by;
pub mod laws;
mod live_strike;
mod merge_plan;
mod merge_policy;
mod merged;
mod origin;
mod segment_merge;
mod term_delete;

pub use fts_segment::LiveSegment;
pub use live_strike::strike;
pub use merge_plan::{plan, plan_by};
pub use merge_policy::{MergePolicy, SegmentSize};
pub use merged::Merged;
pub use origin::Origin;
pub use segment_merge::{merge, merge_by};
