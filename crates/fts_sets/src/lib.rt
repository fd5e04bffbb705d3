//! Documents that are told by their number: by bits, and by what a column keeps for them.
//!
//! A [`Leaf`] is one test of a document's number. A [`DocIdSet`] has the documents that pass some tests, one of each of
//! others, and none of still others. It tells of a document whether it has it ([`DocIdSet::has`]), and of 1,024 at once,
//! as the bits of 16 words, which each test changes in turn. A [`SetCursor`] goes over a set. Contracts see both as the
//! list of their documents.
//!
//! ```text
//! let mut set = DocIdSet::every(alloc, docs);
//! set.with(Leaf::Set(&live))?;
//! set.with(Leaf::Within { column: &column, low: 10, high: 20 })?;
//! let mut cursor = SetCursor::new(set, None);
//! ```
#![tactic(auto)]

mod doc_id_set;
mod leaf;
mod retain;
mod rows;
mod set_cursor;

pub use doc_id_set::DocIdSet;
pub use leaf::{Leaf, leaves_of};
pub use set_cursor::SetCursor;
