//! The command line: what its words ask for, and the status with which the program ends.
#![tactic(auto)]

pub mod args;
pub mod laws;
mod options;
mod parser;
pub mod status;
