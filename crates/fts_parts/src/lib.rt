//! The answer over the hits of one segment, and how the parts of several segments make one answer.
//!
//! A search asks each segment for itself and joins the answers. A [`Part`] is the answer over the hits of one segment:
//! their number, their groups, and the first `k` of them, which is all that any answer over more segments can need of
//! it. [`Part::join`] adds the numbers, merges the groups number by number and picks the first of the top lists.
//! However documents were cut into segments, the joined parts are the answer over all of them, as long as no stamp
//! occurs twice.
//!
//! A part is made of [`Seen`]: [`nothing_seen`] makes it for a request, [`see`] takes the numbers of more hits, in
//! their order, and [`told`] makes the part of them. How hits are found is not known here. A top list may also be made
//! by a [`Ranking`] apart, if whoever looks for the hits knows that no other is one of the first.
//!
//! Documents are handles here. A part holds those of its top list alone, and joining moves them.
#![tactic(auto)]

mod groups;
mod lent;
mod order;
mod part;
mod ranks;
mod seen;
mod tally;
mod top;
mod top_k;

pub use part::Part;
pub use ranks::{Ranking, numbers_of};
pub use seen::{Seen, nothing_seen, see, told};
pub use tally::Tally;
pub use top_k::{Key, TopK};
