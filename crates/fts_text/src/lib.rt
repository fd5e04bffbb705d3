//! The tokens of a text: its spans of alphanumeric characters, numbered and folded.
//!
//! A span is a maximal sequence of characters that are Alphabetic or of general category Nd, Nl or No. Spans are
//! numbered from 0. A span of 40 bytes or more, before folding, is no token but takes a number, so that a phrase does
//! not match across it. The folding is simple case folding, character by character, as in Unicode's CaseFolding.txt
//! with the statuses C and S.
//!
//! [`Tokens`] finds the spans in one pass and without memory, and [`fold_into`] folds one of them into the caller's
//! buffer. They are separate so that no token costs an allocation, and a caller that needs only places folds nothing:
//! ```text
//! for token in Tokens::new(text) {
//!     term.clear();
//!     fold_into(token.span(text), &mut term)?;
//! }
//! ```
#![tactic(auto)]

mod case_fold;
mod characters;
pub mod laws;
mod tokenizer;

pub use case_fold::fold_into;
pub use characters::is_alphanumeric;
pub use tokenizer::{Token, Tokens};
