//! The search that scans every document, and the laws of its results.
//!
//! [`alive`] applies each operation in turn, and [`matches`] and [`answer`] look at each document. Their contracts are
//! the definitions of `fts_model`, so every faster search is compared with them. [`laws`] ties these definitions to
//! each other.
//!
//! ```text
//! let ops = vec![in alloc; Stamped { stamp: 1, value: Op::Add(document) }]?;
//! let documents = fts_scan::alive(alloc, &schema, &ops)?;
//! let request = Request::new(&schema, Some("price"), None)?;
//! let answer = fts_scan::answer(alloc, &schema, &Query::All, &request, &documents)?;
//! // answer.count is 1, and answer.groups is [(30, 1)].
//! ```
#![tactic(auto)]

mod answers;
pub mod laws;
mod matcher;
mod operations;
mod strings;
mod terms;

pub use answers::answer;
pub use matcher::matches;
pub use operations::alive;
pub use terms::has;
