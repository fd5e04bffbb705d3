//! Columns: an optional value per document, each in as few bits as the greatest of them needs.

mod block_ranges;
mod column;
mod last_within;
pub mod laws;
mod offset_array;
mod offset_int;
mod value_counts;

pub use column::Column;
