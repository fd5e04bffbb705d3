//! The index: written by one writer in as many lanes as there are threads, and searched from any thread.
//!
//! A [`Snapshot`] is what is found at one time. How commits and merges lead from one to the next is in a crate below
//! (`fts_snapshots`), and so are the rounds that take operations (`fts_rounds`): their types are handed on here.
//!
//! - A [`Writer`] opens rounds, commits their batches, and merges segments. It holds the newest snapshot, counts rounds
//!   and stamps, and refuses a batch that isn't of the open round.
//! - After a commit, [`Writer::merge_planned`] merges what a policy says: several threads make the segments side by
//!   side.
//! - A merge can end later: [`Writer::begin_merge`] gives a [`MergeJob`], which any thread may run beside the writer,
//!   and [`Writer::end_merge`] puts the [`MergedSegment`] in place of its sources, with the live bits that these have
//!   by then.
//! - Commits are *published* ([`publications`]). A [`Reader`] in any thread takes the newest one by one look, without a
//!   lock, and never goes back; a [`Searcher`] keeps the one that it was made of.
//! - A search asks each segment by a job of its own, and joins the parts ([`Searcher::search`]).
//!   [`Searcher::search_by`] finds the same by the threads of a [`SearchPool`], which stay between searches.
//!   [`Searcher::cost`] estimates the work, by which a caller chooses how many threads to take.
//!
//! ```text
//! let mut writer = Writer::new(rt, alloc, &schema)?;
//! let (round, mut lanes) = writer.open_round(alloc, 2, 1000)?;
//! // each lane in a thread of its own:
//! let stamp = lane.submit(Op::Add(document))?;
//! let end = lane.end();
//! // back in one thread:
//! let batch = round.gather(alloc, ends)?;
//! let committed = writer.commit(rt, alloc, &batch, Cut::Runs(65_536), 4, &Open)?;
//! // in a reader's thread:
//! reader.told(&committed.seen)?;
//! let searcher = reader.searcher()?;
//! // searcher.commit_stamp() is committed.stamp, or more
//! let found = searcher.search(rt, alloc, &query, &request, 4, &Open)?;
//! // found.answer is that over all documents of the commit
//! writer.close(rt);
//! ```
#![tactic(auto)]

mod commit;
mod merges;
pub mod publications;
mod searches;
mod writer;

pub use fts_model::Cut;
pub use fts_rounds::{Batch, Lane, LaneEnd, Round, RoundLimits};
pub use fts_snapshots::{
    CommitJob, Entry, EntryIter, EntryList, MergeJob, MergePolicy, MergedSegment, SegmentInfo,
    Snapshot,
};
pub use publications::{CommitSeen, Publisher, Reader, Searcher};
pub use searches::{Found, SearchJob, SearchPool};
pub use writer::{Committed, Writer};
