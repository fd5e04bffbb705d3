//! Runs jobs on several threads, with one result per job in the order of the jobs.
//!
//! A search is a job per segment, and a commit is a job for each segment that it changes or builds. Segments differ in
//! size by orders of magnitude, so jobs aren't assigned in advance: each has a slot for its result, and each worker goes
//! through the slots, the dearest first, and runs the jobs that nobody has begun.
//!
//! - [`Job`] is a job, with its cost, and a relation between it and its possible results.
//! - [`run_all`] runs a list of jobs. The calling thread is a worker itself, and starts the others. It runs whatever
//!   nobody else takes, so it is no refusal if a thread doesn't start; with one worker, or one job, none is started.
//! - [`Pool`] has threads that stay between its calls, since a thread's start takes as long as many a job. Its jobs own
//!   what they need.
//! - [`Gate`] is called around each job on the thread that runs it. [`Open`] does nothing; a test uses one to hold a
//!   job back, and checks that another worker goes on.
//!
//! No contract says which worker runs a job, nor that it is run only once. The contracts specify the results fully:
//! they are those of the jobs, whatever the threads did.
//!
//! ```text
//! let counts = run_all(rt, alloc, &searches, 4, &Open)?;
//! // counts[n] is the result of searches[n].run()
//! ```
#![tactic(auto)]

mod gate;
mod job;
mod job_slot;
mod pool;
mod pool_call;
mod run;

pub use gate::{Gate, Open};
pub use job::Job;
pub use pool::Pool;
pub use run::run_all;
