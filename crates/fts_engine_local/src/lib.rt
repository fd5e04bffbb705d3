//! An index over segments, in one thread.
//!
//! [`LocalEngine`] is an engine of scripts that does all of its work in the calling thread: it needs memory and nothing
//! else, starts no thread and waits for none, and so can be in a library that a program of another language calls. It
//! takes the same steps as a plain list of documents, and its forks share a commit, each in a thread of its own. A
//! limit keeps its commits from merging large segments: it starts such a merge, another thread runs it
//! ([`BegunMerge`]), and the engine ends it.
//!
//! ```text
//! let mut session: Session<LocalEngine> = Session::new(options);
//! session.answer(&((), alloc), line, &mut replies)?;
//! ```
#![tactic(auto)]

mod begun_merge;
mod local_engine;
mod local_policy;
mod next_commit;
mod stats;

pub use begun_merge::BegunMerge;
pub use local_engine::LocalEngine;
pub use stats::Stats;
