// A job with the place of its result.
ghost use Rattle.std.specs.Prelude.{◌≡◌, IfSome};

use crate::gate::Gate;
use crate::job::Job;
use counted_slot::{Counted, FREE, Fits, MARKED, PRESENT, TAKEN};

/// A result of a job.
#[derive(Drop)]
pub(crate) struct JobOutput<J: Job> {
    out: J::Out,
}

impl<J: Job> Fits for JobOutput<J> {
    type Tag = J;

    ghost fits = { λ job answer. J.gives job answer.out };
}

/// A job, and its result once a worker has run it.
#[derive(Drop)]
pub(crate) struct JobSlot<J: Job + Drop> {
    pub(crate) job: J,
    answer: Counted<Option<JobOutput<J>>>,
    ghost same: { answer ≡ job },
}

impl<J: Job + Drop> JobSlot<J> {
    pub(crate) fn new(job: J) -> JobSlot<J>
        ensures { result.job ≡ job }
    {
        let answer = Counted::new(None, &job);
        JobSlot { job, answer }
    }

    /// Runs the job between the gate's two calls, unless a worker has begun it. Returns whether it did.
    pub(crate) fn run<G: Gate>(&self, number: usize, gate: &G) -> bool {
        let (found, claim) = self.answer.turn(FREE, TAKEN);
        if found != FREE {
            claim.done();
            return false;
        }
        gate.before(number);
        let out = self.job.run();
        gate.after(number);
        drop(claim.put(Some(JobOutput { out }), PRESENT));
        true
    }

    /// Takes the result, if it is there. The slot stays marked, so a worker that comes later doesn't run the job again.
    pub(crate) fn take(&self) -> Option<J::Out>
        ensures { IfSome result (J.gives self.now.job) }
    {
        let (found, claim) = self.answer.turn(PRESENT, TAKEN);
        if found != PRESENT {
            claim.done();
            return None;
        }
        Some(claim.put(None, MARKED)?.out)
    }
}
