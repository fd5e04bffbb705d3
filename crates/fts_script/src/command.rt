//! The commands of a script, out of JSON, and answers as JSON texts.
//!
//! A line of a script is a JSON object with one member; [`command_of`] says which [`Command`] it is, if it is one.
//! [`answer_text`] writes the JSON of an answer's count, groups and top list.

mod answer;
mod command;
mod field_names;

pub use answer::answer_text;
pub use command::{Command, Search, command_of};
pub use field_names::field_names_of;
