//! A pool of threads that runs a list of jobs, each once, with their results in the order of the jobs.

pub use fts_pool::{Gate, Job, Open, Pool, run_all};
