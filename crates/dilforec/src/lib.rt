//! A full-text index over JSON documents, held in memory, that is proved: all that a program needs of it, from one
//! crate.
//!
//! A [`Schema`] names the fields. A [`Writer`] gives out rounds of lanes, which take adds and deletes, in threads of
//! their own if you like; a commit makes them findable, and each [`Searcher`] goes on answering for the commit that it
//! was made of. What a search answers is what one thread finds that scans the live documents, for every cutting into
//! segments, every merge and every number of lanes and workers: that is a clause of [`Writer::commit`] and of
//! [`Searcher::search`], and so is that a call which runs out of memory leaves the last commit as it was.
//!
//! ```text
//! let schema = Schema::new(alloc, fields)?;
//! let mut writer = Writer::new(rt, alloc, &schema)?;
//!
//! let (round, mut lanes) = writer.open_round(alloc, 1, 1_000)?;
//! let mut lane = lanes.pop()?;
//! lane.submit(Op::Add(Document::from_json(alloc, &schema, &json)?))?;
//! let batch = round.gather(alloc, vec![in alloc; lane.end()]?)?;
//! writer.commit(rt, alloc, &batch, Cut::Runs(65_536), 1, &Open)?;
//!
//! let searcher = writer.searcher()?;
//! let query = parse(alloc, &schema, "title:pearls AND price:[1 TO 20]")?;
//! let request = Request::new(&schema, Some("tag"), Some(("price", 10, Order::Rising)))?;
//! let found = searcher.search(rt, alloc, &query, &request, 1, &Open)?;
//! // found.answer has the count, the groups and the ten cheapest.
//! writer.close(rt);
//! ```
//!
//! - [`script`]: the same index by lines of JSON, as the program `fts` runs them, and the program's command line.
//! - [`text`], [`pack`], [`segment`], [`cursor`], [`collect`], [`merge`] and [`pool`]: the parts, for those who build
//!   on them.
//! - [`laws`]: what the definitions that contracts cite say of each other.
//!
//! `CALLING.md` beside this crate has a whole program. Nothing is defined here: each item, with its contract, is handed
//! on from another crate, and `specs/` hands on the definitions that the contracts cite.
#![tactic(auto)]

pub mod collect;
pub mod cursor;
pub mod laws;
pub mod merge;
pub mod pack;
pub mod pool;
pub mod script;
pub mod segment;
pub mod text;

pub use fts_index::{
    Batch, CommitSeen, Committed, Cut, Entry, EntryIter, EntryList, Found, Lane, LaneEnd, MergeJob,
    MergePolicy, MergedSegment, Reader, Round, RoundLimits, SearchJob, SearchPool, Searcher,
    SegmentInfo, Snapshot, Writer,
};
pub use fts_model::{
    Answer, Document, Field, FieldValue, GroupValue, Hit, Kind, MOST_BUILT, MOST_MERGED, Number,
    Op, Order, Query, Refusal, Request, Schema, Stamp, Stamped, Term, Text, Texts, Top,
};
pub use fts_pool::{Gate, Open};
pub use fts_query::{parse, syntax_at};
