// Threads that stay between calls.
ghost use Rattle.std.specs.Prelude.{◌≡◌, ◌≤◌, map, IfOk, IsOkUnless};
ghost use Rattle.std.specs.Arc.{arc_value};
ghost use Rattle.std.specs.List.{AllZip};

use crate::gate::Open;
use crate::job::Job;
use crate::job_slot::JobSlot;
use crate::pool_call::{PoolCall, results_of};
use crossbeam_channel::{Receiver, Sender};
use fts_base::Refusal;
use std::alloc::{AllocError, Global};
use std::sync::{Arc, Wait};
use std::thread;
use std::thread::{JoinHandle, Threads};

/// How many calls may wait for a thread. One that finds no room is left to the others and to its caller.
const MOST_CALLS: usize = 64;

/// Threads that run jobs of one type, until the pool is closed. They are started when they are wanted first.
#[derive(Drop)]
pub struct Pool<J: Job + Send + Drop + 'static>
where
    J::Out: 'static,
{
    alloc: Global,
    calls: Sender<Arc<PoolCall<J>>>,
    asked: Receiver<Arc<PoolCall<J>>>,
    threads: Vec<JoinHandle<()>>,
}

/// Takes part in calls, until the pool is closed.
fn work<J: Job + Send + Drop, R: Wait>(rt: &R, asked: &Receiver<Arc<PoolCall<J>>>) {
    for _ in rt.forever() {
        let Ok(call) = asked.recv(rt) else {
            return;
        };
        call.work(&Open);
    }
}

/// The slots of jobs.
fn own_slots<J: Job + Drop>(alloc: Global, jobs: Vec<J>) -> Result<Vec<JobSlot<J>>, AllocError>
    ensures { IfOk result (λ slots. map (λ slot. slot.job) slots.items ≡ jobs.items) }
{
    let mut slots = Vec::with_capacity(alloc, jobs.len())?;
    for job in jobs {
        slots.push(JobSlot::new(job))?;
    }
    Ok(slots)
}

impl<J: Job + Send + Drop + 'static> Pool<J>
where
    J::Out: 'static,
{
    /// A pool without threads.
    pub fn new(alloc: Global) -> Result<Pool<J>, AllocError> {
        let (calls, asked) = crossbeam_channel::bounded(alloc, MOST_CALLS)?;
        Ok(Pool {
            alloc,
            calls,
            asked,
            threads: Vec::new(alloc),
        })
    }

    /// Starts one more thread.
    fn start<R: Threads + Wait + Copy + Send + 'static>(
        &mut self,
        rt: R,
    ) -> Result<(), AllocError> {
        self.threads.reserve(1)?;
        let asked = self.asked.clone()?;
        let thread = thread::spawn(&rt, move || work(&rt, &asked))?;
        self.threads.push_reserved(thread);
        Ok(())
    }

    /// Asks this many threads to take part in a call, and starts those that are missing.
    fn ask<R: Threads + Wait + Copy + Send + 'static>(
        &mut self,
        rt: R,
        call: &Arc<PoolCall<J>>,
        helpers: usize,
    ) -> Result<(), AllocError> {
        for number in 0..helpers {
            if number >= self.threads.len() {
                self.start(rt)?;
            }
            if self.calls.try_send(&rt, Arc::try_clone(call)?).is_err() {
                return Ok(());
            }
        }
        Ok(())
    }

    /// Runs each job on up to `workers` threads, the calling one among them, and returns one result per job, in the
    /// order of the jobs. The other threads stay.
    ///
    /// It is refused only for memory, and then before any job ran.
    pub fn run_all<R: Threads + Wait + Copy + Send + 'static>(
        &mut self,
        rt: &R,
        jobs: Vec<J>,
        workers: usize,
    ) -> Result<Vec<J::Out>, Refusal>
        requires workers { (1 ≤ workers) × (workers ≤ 64) }
        ensures ok { IfOk result (λ outs. AllZip J.gives jobs.items outs.items) }
        ensures memory { IsOkUnless result Refusal.Memory }
    {
        let helpers = workers.min(jobs.len()).saturating_sub(1);
        let outs = Vec::with_capacity(self.alloc, jobs.len())?;
        let slots = own_slots(self.alloc, jobs)?;
        let call = PoolCall::new(self.alloc, slots)?;
        let call = Arc::new(self.alloc, call)?;
        // If memory or threads are refused, the others run the jobs.
        let _ = self.ask(*rt, &call, helpers);
        call.work(&Open);
        call.wait(rt);
        Ok(results_of(rt, &call.slots, outs, &Open))
    }

    /// Ends the threads.
    pub fn close<R: Threads>(self, rt: &R) {
        let Pool {
            alloc: _,
            calls,
            asked,
            threads,
        } = self;
        drop(calls);
        drop(asked);
        for thread in threads {
            thread.join(rt);
        }
    }
}
