//! Tokens of a text: runs of letters and digits, numbered, and how they are folded.

pub use fts_text::{Token, Tokens, fold_into, is_alphanumeric};
