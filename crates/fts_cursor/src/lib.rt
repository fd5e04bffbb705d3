//! The cursor of a query: the documents of a segment that match it, one after the other, without a list of them.
//!
//! [`cursor_of`] makes the [`Cursor`] of a query, over a segment and the bits of its documents. It is a [`DocSet`]: it
//! is at a document, steps to the next, goes to the first from a number on, or writes up to 128 at once. Its steps
//! take no memory.
//!
//! It is a tree of cursors, one for each query within the query. A term is a [`PostingCursor`] over its list, and terms
//! that must all match are a [`Conjunction`] of these. A Boolean query whose hits bits and columns tell is one set,
//! which is read by words; if they tell a part of it, the set filters the documents of the rest, as live bits do. Ranges
//! are read from columns, or from the lists of their numbers if these have few documents. Phrases read positions only in
//! documents that have all of their terms, and what must not match is asked for the documents that are left. Blocks
//! that are opened are counted, and contracts bound the count.
//!
//! ```text
//! let mut cursor = cursor_of(alloc, &segment, &live, &query)?;
//! while let Some(doc) = cursor.doc() {
//!     let document = segment.document(doc as usize);
//!     cursor.advance();
//! }
//! ```
#![tactic(auto)]

mod any;
mod cursor;
mod hit_sets;
mod list_union;
mod phrase;
mod query_tree;
mod range;
mod term_lists;
mod terms;
mod told;
mod tree;

pub use cursor::Cursor;
pub use fts_postings::{Conjunction, DocSet, PostingCursor};
pub use hit_sets::hit_set;
pub use query_tree::cursor_of;
