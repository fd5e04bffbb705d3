//! Commits for readers that never wait and never go back.
//!
//! A commit leaves a snapshot that never changes. A [`Publisher`], which is the part of a writer that shows commits to
//! other threads, puts the snapshot and its commit stamp at the end of one list. Readers take the last of that list: a
//! [`Reader`] makes a [`Searcher`] by one look, with no lock, while the publisher goes on, and the searcher keeps its
//! snapshot for good.
//!
//! What a reader knows of the list is a beginning of it, and only grows. It grows when the reader looks, and when a
//! [`CommitSeen`] is reported to it ([`Reader::told`]), which the publisher returns and any thread may hand on. So a
//! reader that knows of a commit finds that commit or a later one, and two searchers of one stamp have the same
//! documents.
//!
//! The list exists in proofs alone. The threads share its length, in one word (`publication_log`), and the newest
//! snapshot, in two copies: readers read one while the other is changed (`left_right_rule`).
//!
//! ```text
//! let mut publisher = Publisher::new(&rt, alloc, snapshot)?;
//! let mut reader = publisher.reader()?;
//! // in the writer's thread
//! let seen = publisher.publish(&rt, alloc, snapshot, 2)?;
//! // in a thread of the reader's
//! reader.told(&seen)?;
//! let searcher = reader.searcher()?;
//! // searcher.commit_stamp() is 2, or more
//! publisher.close(&rt);
//! ```

mod front;
pub mod laws;
mod left_right_rule;
mod publication;
mod publication_log;
mod publisher;
mod reader;
mod searcher;
mod writer_id;

pub use publisher::Publisher;
pub use reader::Reader;
pub use searcher::{CommitSeen, Searcher};
