//! Readers beside a writer, jobs and merges by several threads, and growths that are refused to them.
#![tactic(auto)]

#[cfg(test)]
mod growths;
#[cfg(test)]
mod merges;
#[cfg(test)]
mod readers;
#[cfg(test)]
mod workers;
