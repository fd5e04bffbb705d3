//! Numbers packed in words: bit vectors, lists of documents, and columns.
//!
//! - [`bits`]: [`Bits`] is a bit vector with one bit per document, beside the arithmetic of numbers of a few bits that
//!   are packed end to end.
//! - [`column`]: a [`Column`] has an optional value per document.
//! - A [`Block`] is a list of up to 128 numbers, and [`Blocks`] is a list of documents in blocks.
//! - [`Lists`] has many rising lists of documents side by side: one of them is a [`ListRef`], some of them in a row are
//!   a [`ListRange`], and a [`ListSource`] opens the blocks of one. A [`List`] is one list by itself.
#![tactic(auto)]

pub mod bits;
mod block;
mod block_meta;
mod blocks;
pub mod column;
mod four_lanes;
mod gaps;
pub mod laws;
mod list;
mod list_bits;
mod list_entry;
mod list_range;
mod list_ref;
mod list_source;
mod lists;
mod long_entry;
mod packed_block;
mod packed_list;
mod packed_numbers;
mod prefix_sums;
mod skip;
mod stored_list;

pub use bits::Bits;
pub use block::{BLOCK, Block};
pub use blocks::Blocks;
pub use column::Column;
pub use gaps::push_gaps;
pub use list::List;
pub use list_range::ListRange;
pub use list_ref::ListRef;
pub use list_source::ListSource;
pub use lists::Lists;
pub use packed_block::PackedBlock;
pub use packed_numbers::PackedNumbers;
