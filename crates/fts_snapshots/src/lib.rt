//! The states of an index, and how commits and merges lead from one to the next.
//!
//! - A [`Snapshot`] is the state of an index at one time: segments, each an [`Entry`] with its number and its live
//!   bits. It never changes. A commit or a merge makes another snapshot, which shares all that is unchanged, so a
//!   refusal leaves everything as it was, and a snapshot stays valid as long as it is held. Its segments are an
//!   [`EntryList`], of which a commit without a delete copies only a small part.
//! - A commit divides the adds of a batch among new segments by a [`Cut`]. The work on each segment is a job of its own
//!   ([`CommitJob`]): [`Snapshot::commit_alone`] runs them one after the other, and those of a [`PreparedCommit`] may
//!   be run by any threads.
//! - A merge can end later: [`Snapshot::begin_merge`] gives a [`MergeJob`], which any thread may run, and
//!   [`Snapshot::end_merge`] replaces the sources by the [`MergedSegment`], with the live bits that they have in the
//!   snapshot in which it ends. It may end in every snapshot that follows the one in which it began ([`laws`]).
//! - The merges of several candidates can be run side by side: [`due_tasks`] starts them as jobs of a pool, and
//!   [`end_due`] ends them one after the other.
//!
//! This crate publishes nothing, and starts threads only in [`MergeJob::run_by`] and [`Snapshot::merge_by`], where the
//! fields of a merge are jobs of a pool: otherwise the crates above do.
//!
//! ```text
//! let next = snapshot.commit_alone(alloc, batch, Cut::Runs(65_536))?;
//! // in any thread:
//! let merged = next.begin_merge(alloc, &[0, 1])?.run(alloc)?;
//! // when the merge ends, possibly after several commits:
//! let smaller = next.end_merge(alloc, &merged)?;
//! ```
#![tactic(auto)]

mod commit_point;
mod commits;
mod entries;
pub mod laws;
mod made_merges;
mod mergeable;
mod merges;
mod snapshot;

pub use commit_point::CommitPoint;
pub use commits::{CommitJob, PreparedCommit, push_live};
pub use entries::{Entry, EntryIter, EntryList, ID_LIMIT, SegmentInfo};
pub use fts_merge::MergePolicy;
pub use fts_model::Cut;
pub use made_merges::{LateMergeable, end_due};
pub use mergeable::{Mergeable, merge_all, merge_due, merge_planned, whole};
pub use merges::{MergeJob, MergeTask, MergedSegment, due_tasks};
pub use snapshot::Snapshot;
