//! Positions of terms, packed: for each posting of a term, where the term is in the document.
//!
//! A [`PositionListLog`] collects lists, one after the other, and [`PositionLists`] has them packed. The lists of many
//! terms follow each other, so that a term is a range of them. A [`PositionReader`] reads those of one term: it gives
//! the [`Positions`] of a posting, and tells whether a posting has a position. A [`PositionCopier`] copies lists to
//! another log without the sums in between.
//!
//! ```text
//! let mut reader = PositionReader::new(Some(&lists), start, end);
//! if reader.has(posting, 7) {
//!     let positions = reader.get(posting);
//! }
//! ```
#![tactic(auto)]

mod block_reader;
mod position_copier;
mod position_lists;
mod position_reader;
mod positions;

pub use position_copier::PositionCopier;
pub use position_lists::{PositionListLog, PositionLists};
pub use position_reader::PositionReader;
pub use positions::Positions;
