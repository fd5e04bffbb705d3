//! An index of segments under a script.
//!
//! [`IndexEngine`] is an engine of scripts over a writer of segments: it submits to rounds of one lane, cuts and merges
//! as its options say, and searches the last commit through a reader. For every cutting, merging and number of workers
//! it takes the same steps as a plain list of documents, so no option changes a reply. A search takes further threads
//! only if its estimated work is worth waking them, up to the number of workers. They are started by the first search
//! that takes them, and stay until the engine is closed; so the engine is given a runtime that is [`Lasting`].
//!
//! `LocalEngine` of `fts_engine_local` takes the same steps in the calling thread alone.
//!
//! ```text
//! run_script::<_, IndexEngine, _, _>(rt, &mut streams, options)?;
//! ```
#![tactic(auto)]

mod index_engine;
mod lasting;
mod threads;
mod uncommitted;

pub use index_engine::IndexEngine;
pub use lasting::Lasting;
