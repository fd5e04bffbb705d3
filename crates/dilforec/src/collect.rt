//! The part of one segment in a search's answer, and how parts are joined.

pub use fts_collect::{Part, collect};
