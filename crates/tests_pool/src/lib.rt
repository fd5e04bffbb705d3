//! What `fts_pool` does with jobs: each value is compared with one from outside.
#![tactic(auto)]

#[cfg(test)]
mod tests;
