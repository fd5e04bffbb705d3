// Started merges as jobs of a pool.
ghost use Rattle.std.specs.Prelude.{◌≤◌, IfOk, map};
ghost use Rattle.std.specs.List.{AllZip};
ghost use Rattle.fts_snapshots.specs.Candidates.{due};
ghost use Rattle.fts_snapshots.specs.MadeMerges.{IsTaskFor, Makes};

use crate::merges::merge_job::MergeJob;
use crate::merges::merged_segment::MergedSegment;
use crate::snapshot::Snapshot;
use fts_model::Refusal;
use fts_pool::{Gate, Job};
use std::alloc::Global;
use std::sync::Wait;
use std::thread::Threads;

/// The merge of a candidate as a job of a pool, which makes one segment of the live documents.
#[derive(Drop)]
pub struct MergeTask {
    alloc: Global,
    job: MergeJob,
}

impl Job for MergeTask {
    ghost use Rattle.fts_snapshots.specs.MadeMerges.{Makes};

    type Out = Result<MergedSegment, Refusal>;

    ghost gives = { Makes };

    /// The number of live documents.
    fn cost(&self) -> u64 {
        let mut live: u64 = 0;
        for entry in self.job.entries() {
            live = live.saturating_add(entry.live_count() as u64);
        }
        live
    }

    /// Makes the segment, as [`MergeJob::make`] does.
    fn run(&self) -> Result<MergedSegment, Refusal> {
        self.job.make(self.alloc)
    }
}

impl MergeTask {
    /// Makes the segment by up to this many threads, 1 to 64, the calling one among them: each field is a job. The gate
    /// is called around each.
    pub fn run_by<R: Threads + Wait + Sync, G: Gate>(
        &self,
        rt: &R,
        workers: usize,
        gate: &G,
    ) -> Result<MergedSegment, Refusal>
        requires { (1 ≤ workers) × (workers ≤ 64) }
        ensures { Makes self.now result }
    {
        self.job.make_by(rt, self.alloc, workers, gate)
    }
}

/// Starts the merge of a candidate.
fn task_of(alloc: Global, snapshot: &Snapshot, ids: &[u64]) -> Result<MergeTask, Refusal>
    ensures { IfOk result (IsTaskFor snapshot.now ids.now) }
{
    let job = snapshot.begin_merge(alloc, ids)?;
    Ok(MergeTask { alloc, job })
}

/// Starts the merges of candidates in order, up to the first of one segment, which is the last that is due. The first
/// refusal of [`Snapshot::begin_merge`] is that of the whole.
pub fn due_tasks(
    alloc: Global,
    snapshot: &Snapshot,
    candidates: &[Vec<u64>],
) -> Result<Vec<MergeTask>, Refusal>
    ensures { IfOk result (λ tasks. AllZip (IsTaskFor snapshot.now)
        (due (map (λ ids. ids.items) candidates.now)) tasks.items) }
{
    let mut tasks = Vec::with_capacity(alloc, candidates.len())?;
    for ids in candidates {
        tasks.push(task_of(alloc, snapshot, ids)?)?;
        if ids.len() < 2 {
            return Ok(tasks);
        }
    }
    Ok(tasks)
}
