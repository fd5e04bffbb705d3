// `run_all` runs the jobs of a list and returns their results in the order of the jobs.
ghost use Rattle.std.specs.Prelude.{◌≡◌, ◌≤◌, map, IfOk, IsOkUnless};
ghost use Rattle.std.specs.List.{AllZip};

use crate::gate::Gate;
use crate::job::Job;
use crate::job_slot::JobSlot;
use crate::pool_call::{PoolCall, results_of};
use fts_base::Refusal;
use std::alloc::{AllocError, Global};
use std::sync::Wait;
use std::thread::{Threads, map_indices};

/// The slots of jobs that the caller keeps.
fn lent_slots<'a, J: Job>(alloc: Global, jobs: &'a [J]) -> Result<Vec<JobSlot<&'a J>>, AllocError>
    ensures { IfOk result (λ slots. map (λ slot. slot.job.now) slots.items ≡ jobs.now) }
{
    let mut slots = Vec::with_capacity(alloc, jobs.len())?;
    for job in jobs {
        slots.push(JobSlot::new(job))?;
    }
    Ok(slots)
}

/// Runs each job on up to `workers` threads, the calling one among them, and returns one result per job, in the order
/// of the jobs.
///
/// It is refused only for memory, and then before any job ran.
pub fn run_all<R: Threads + Wait + Sync, J: Job, G: Gate>(
    rt: &R,
    alloc: Global,
    jobs: &[J],
    workers: usize,
    gate: &G,
) -> Result<Vec<J::Out>, Refusal>
    requires workers { (1 ≤ workers) × (workers ≤ 64) }
    ensures ok { IfOk result (λ outs. AllZip J.gives jobs.now outs.items) }
    ensures memory { IsOkUnless result Refusal.Memory }
{
    let slots = lent_slots(alloc, jobs)?;
    let call = PoolCall::new(alloc, slots)?;
    let outs = Vec::with_capacity(alloc, jobs.len())?;
    let threads = workers.min(jobs.len());
    if threads > 1 {
        // What isn't run because memory was refused is run below.
        let _ = map_indices(rt, alloc, threads, &|_| call.work(gate));
    }
    Ok(results_of(rt, &call.slots, outs, gate))
}
