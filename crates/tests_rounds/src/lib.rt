//! Lanes of rounds, in threads and one after the other: what they refuse, and the order of what is gathered of them.
#![tactic(auto)]

#[cfg(test)]
mod rounds;
