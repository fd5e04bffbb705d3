//! Scripts: lines of JSON in, lines of replies out, over any engine.
//!
//! [`run_script`] reads blocks of bytes, finds the lines in them, executes the command of each line over an
//! [`Engine`], and writes the replies one after the other. What it writes is one stated function of what it read
//! (`specs/Outputs`): no block, buffer, option or engine occurs in it.
//!
//! - An [`Engine`] is what a script needs of an index; each of its methods is one step of the definitions.
//!   [`ListEngine`] holds a plain list of documents. The engine over segments is in a crate above, so that this
//!   one is proved beside the index.
//! - A script is read from a [`ScriptIn`] and answered to a [`ScriptOut`]; [`Plain`] makes one of a reader or writer
//!   of std.
//!
//! ```text
//! let mut reader = Plain::new(bytes);
//! let mut writer = Plain::new(Vec::new(alloc));
//! run_script::<_, ListEngine, _, _>(rt, &mut reader, &mut writer, Options::default())?;
//! // The writer has the replies to the lines of the bytes.
//! ```
#![tactic(auto)]

pub mod command;
mod fault;
mod partial_line;
mod plain;
mod responder;
mod run;
pub mod session;
mod streams;

pub use fault::Fault;
pub use fts_engine::{Cut, Engine, EngineOver, ListEngine, Merge, Options};
pub use partial_line::LONGEST;
pub use plain::Plain;
pub use run::run_script;
pub use streams::{ScriptIn, ScriptOut, StreamError};
