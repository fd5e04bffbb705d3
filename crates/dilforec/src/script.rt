//! Scripts: lines of JSON in, lines of replies out, over any engine, and the program's command line.

pub use fts_base::{GhostBytes, GhostCount};
pub use fts_cli::args::{ArgFault, Asked, args};
pub use fts_cli::status::{arg_status, status};
pub use fts_engine::{Engine, EngineOver, ListEngine, Merge, Options};
pub use fts_engine_index::{IndexEngine, Lasting};
pub use fts_engine_local::{BegunMerge, LocalEngine};
pub use fts_model::Cut;
pub use fts_script::{Fault, Plain, ScriptIn, ScriptOut, StreamError, run_script};
