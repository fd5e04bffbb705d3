//! The hits of a query among the live documents of a segment, and what a search returns of them.
//!
//! [`collect`] makes a query's cursor and takes its hits, up to 128 at a time, for the [`Part`] of the segment; if it
//! takes fewer steps, it looks for the first hits of a top list among the documents with the best numbers.
//! [`search_alone`] asks the segments of a snapshot one after the other ([`parts_in_turn`]) and joins their parts;
//! [`search_segment`] is what jobs ask of each.
#![tactic(auto)]

mod collector;
mod searches;
mod walk;

pub use collector::collect;
pub use fts_parts::Part;
pub use searches::{parts_in_turn, search_alone, search_segment};
