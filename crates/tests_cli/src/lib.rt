//! Command lines, with what the program says of them.
#![tactic(auto)]

#[cfg(test)]
mod lines;
