//! A script, line by line: its state, and its replies.
//!
//! A [`Session`] reads each line as a command, executes it over an `Engine` of `fts_engine`, and appends the reply to
//! those before it. It knows no block and no stream.

mod blank;
mod commands;
mod group_search;
pub mod laws;
mod maintenance;
mod print;
mod replace;
mod reply;
mod savepoint;
mod search;
mod session;
mod usual_count;

pub use blank::{first_line, is_blank, is_white};
pub use maintenance::Maintenance;
pub use savepoint::Savepoint;
pub use session::{MOST_LINES, Session};
