//! Cursors over posting lists: the documents of a list, or of several together, one after the other.
//!
//! A [`DocSet`] is what every cursor is: it is at a document ([`DocSet::doc`]), steps to the next
//! ([`DocSet::advance`]), goes to the first from a number on ([`DocSet::seek`]), or writes up to 128 at once
//! ([`DocSet::take`]). Contracts see it as the list of documents that remain. Its steps take no memory and don't fail.
//!
//! A [`PostingCursor`] goes over any list in blocks: it opens a block when it enters it, and passes over blocks it
//! needn't read. A [`Conjunction`] lets one such cursor lead and seeks its documents alone in the others. Both count
//! the blocks they open, and contracts bound the count. Cursors of any kind are made with the rest: [`stretch`], the
//! documents of an open block in an array, [`marks`], 64 documents as the bits of a word, and a [`Window`] of 4,096.
//!
//! Nothing here knows of segments or queries: lists are blocks of rising numbers.
//!
//! ```text
//! let mut cursor = PostingCursor::new(list.source());
//! cursor.seek(1000);
//! while let Some(doc) = cursor.doc() {
//!     cursor.advance();
//! }
//! ```
#![tactic(auto)]

mod conjunction;
mod doc_set;
pub mod marks;
mod posting;
pub mod stretch;
mod window;

pub use conjunction::Conjunction;
pub use doc_set::DocSet;
pub use posting::PostingCursor;
pub use window::Window;
