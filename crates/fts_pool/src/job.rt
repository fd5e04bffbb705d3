// Jobs, each with a relation to its possible results.

/// A job that any thread may run. It is shared by the workers, and its result is sent to the caller.
pub trait Job: Sync {
    type Out: Send + Sync + Drop;

    /// Whether this may be the result of the job.
    ghost gives: { Self → Self.Out → Type 0 };

    /// About how long a run takes, in a unit that is the same for all jobs of a list. Dear jobs are begun before cheap
    /// ones; nothing else depends on it.
    fn cost(&self) -> u64;

    /// Runs the job. A contract says nothing of a run except its result.
    fn run(&self) -> Self::Out
        ensures { gives self.now result };
}

impl<J: Job> Job for &J {
    type Out = J::Out;

    ghost gives = { λ job out. J.gives job.now out };

    fn cost(&self) -> u64 {
        (**self).cost()
    }

    fn run(&self) -> J::Out {
        (**self).run()
    }
}
