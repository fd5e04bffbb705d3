//! Operations that several threads submit at once, and the one order in which they take effect.
//!
//! A *round* takes operations. [`open_round`] creates its lanes: each [`Lane`] draws the next stamp by one atomic step
//! and stores its own operations, so lanes never wait for each other. The [`Round`] gathers the ended lanes into one
//! [`Batch`], in the order of the stamps: the operations take effect in this order, whatever the threads did.
//! `fts_snapshots` commits a batch.
//!
//! ```text
//! let (round, mut lanes) = open_round(alloc, number, first, 2, 1000)?;
//! // each lane in a thread of its own:
//! let stamp = lane.submit(Op::Add(document))?;
//! let end = lane.end();
//! // back in one thread:
//! let batch = round.gather(alloc, ends)?;
//! ```
#![tactic(auto)]

mod batch;
mod lane;
mod round;
mod stamps;

pub use batch::Batch;
pub use lane::{Lane, LaneEnd};
pub use round::{Round, open_round};
pub use stamps::RoundLimits;
