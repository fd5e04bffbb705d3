//! The base of every crate: refusals, and values visible only to contracts.
//!
//! [`Refusal`] is the one enum of all refusals of the index. `specs/` also relates a call's result to what a definition
//! says: `Gives` is that result, or `Memory` if the allocator refuses a growth. Crates that need no document depend on
//! this crate alone. [`piece`] reads one of several lists that are concatenated in a buffer, and [`release`] frees a
//! large buffer.
#![tactic(auto)]

mod buffers;
mod ghosts;
mod pieces;
mod refusal;

pub use buffers::release;
pub use ghosts::{GhostBytes, GhostCount};
pub use pieces::{piece, start_of};
pub use refusal::Refusal;
