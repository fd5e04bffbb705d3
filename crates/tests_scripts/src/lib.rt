//! Scripts in memory: readers and writers that are slow or fail, and what no reply shows.
#![tactic(auto)]

#[cfg(test)]
mod segments;
#[cfg(test)]
mod streams;
