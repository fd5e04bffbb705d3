//! A gate for tests of jobs, which holds one back until the others have passed.
#![tactic(auto)]

mod holder;

pub use holder::Holder;
