// A list of jobs that several workers run.
ghost use Rattle.std.specs.Prelude.{◌≡◌, ◌<◌, ◌≤◌, [], length, IfOk};
ghost use Rattle.std.specs.List.{AllZip, HoldsAt};
ghost use Rattle.std.specs.Vec.{vec_capacity};

use crate::gate::Gate;
use crate::job::Job;
use crate::job_slot::JobSlot;
use std::alloc::{AllocError, Global};
use std::cmp::Reverse;
use std::sync::Wait;
use std::sync::atomic::{AtomicU64, Ordering};
use std::thread::yield_now;

/// The number of a job, with its cost.
#[derive(Clone, Copy)]
struct RankedJob {
    cost: u64,
    number: usize,
}

/// Jobs with the places of their results. Each is run by the worker that comes to it first.
#[derive(Drop)]
pub(crate) struct PoolCall<J: Job + Drop> {
    pub(crate) slots: Vec<JobSlot<J>>,
    /// The order in which the jobs are begun.
    order: Vec<RankedJob>,
    /// How many jobs haven't been run.
    left: AtomicU64,
}

/// The numbers of jobs, the dearest first, so that none of them is left for the end, when other workers have nothing to
/// do. Those of equal costs are by their numbers.
fn dearest_first<J: Job + Drop>(
    alloc: Global,
    slots: &[JobSlot<J>],
) -> Result<Vec<RankedJob>, AllocError> {
    let mut order = Vec::with_capacity(alloc, slots.len())?;
    for (number, slot) in slots.iter().enumerate() {
        let cost = slot.job.cost();
        order.push(RankedJob { cost, number })?;
    }
    order.sort_unstable_by_key(|job| (Reverse(job.cost), job.number));
    Ok(order)
}

impl<J: Job + Drop> PoolCall<J> {
    /// The jobs of these slots.
    pub(crate) fn new(alloc: Global, slots: Vec<JobSlot<J>>) -> Result<PoolCall<J>, AllocError>
        ensures { IfOk result (λ call. call.slots ≡ slots) }
    {
        let order = dearest_first(alloc, &slots)?;
        let left = AtomicU64::new(slots.len() as u64);
        Ok(PoolCall { slots, order, left })
    }

    /// Runs the jobs that no worker has begun, the dearest first. Whoever ends the last job wakes the caller.
    pub(crate) fn work<G: Gate>(&self, gate: &G) {
        for job in &self.order {
            if let Some(slot) = self.slots.get(job.number)
                && slot.run(job.number, gate)
                && self.left.fetch_sub(1, Ordering::SeqCst) == 1
            {
                self.left.wake_one();
            }
        }
    }

    /// Sleeps until all jobs were run.
    pub(crate) fn wait<R: Wait>(&self, rt: &R) {
        for _ in rt.forever() {
            let left = self.left.load(Ordering::SeqCst);
            if left == 0 {
                return;
            }
            // Sleeps while the word's low half is this.
            self.left.park(rt, (left % (1 << 32)) as u32);
        }
    }
}

/// The result of the job of this number, which is run here if no worker has begun it.
fn result_of<R: Wait, J: Job + Drop, G: Gate>(
    rt: &R,
    slots: &[JobSlot<J>],
    number: usize,
    gate: &G,
) -> J::Out
    requires { number < length slots.now }
    ensures { HoldsAt (λ slot. J.gives slot.job result) slots.now number }
{
    for _ in rt.forever() {
        if let Some(out) = slots[number].take() {
            return out;
        }
        if !slots[number].run(number, gate) {
            yield_now();
        }
    }
    unreachable!()
}

/// The results of jobs, which are run here in turn if no worker has begun them.
pub(crate) fn results_of<R: Wait, J: Job + Drop, G: Gate>(
    rt: &R,
    slots: &[JobSlot<J>],
    mut outs: Vec<J::Out>,
    gate: &G,
) -> Vec<J::Out>
    requires empty { outs.items ≡ [] }
    requires room { length slots.now ≤ vec_capacity outs }
    ensures { AllZip (λ slot out. J.gives slot.job out) slots.now result.items }
{
    for number in 0..slots.len() {
        outs.push_reserved(result_of(rt, slots, number, gate));
    }
    outs
}
