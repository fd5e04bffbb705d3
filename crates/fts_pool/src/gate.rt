// Calls around each job.

/// A worker calls the gate around each job that it runs, on its own thread.
pub trait Gate: Sync {
    /// Called just before the job of this number runs.
    fn before(&self, job: usize);

    /// Called just after the job of this number was run.
    fn after(&self, job: usize);
}

/// A gate that does nothing.
#[derive(Clone, Copy, Debug, PartialEq, Eq)]
pub struct Open;

impl Gate for Open {
    fn before(&self, _job: usize) {}

    fn after(&self, _job: usize) {}
}
