//! What a script needs of an index: one step of the definitions for each call.
//!
//! An [`Engine`] takes operations, and, as an [`EngineOver`] the resources that it is given, commits, rolls back,
//! merges and searches. [`ListEngine`] holds a plain list of documents; the engines over segments are in crates above.
//! [`Options`] say how an engine works, and change nothing that it answers.
#![tactic(auto)]

mod engine;
mod fork;
mod list_engine;
mod options;
mod take_back;

pub use engine::{Engine, EngineOver, MOST_UNCOMMITTED};
pub use fork::Fork;
pub use list_engine::ListEngine;
pub use options::{Cut, Merge, Options};
pub use take_back::TakeBack;
