//! Bit vectors, and numbers of a few bits in 64-bit words.
//!
//! [`Bits`] is a bit vector with one bit per document. [`widths`] computes the number of bits that numbers take, and
//! reads those that are packed end to end. Signed numbers are stored as unsigned ones in the same order
//! ([`i64_to_u64`]).

mod bits;
mod change;
pub mod laws;
mod signed;
pub mod widths;

pub use bits::Bits;
pub use signed::{i64_to_u64, u64_to_i64};
