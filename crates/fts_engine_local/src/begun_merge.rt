// A merge that any thread may run beside the engine, which then ends it.
ghost use Rattle.std.specs.Prelude.{◌≡◌, ◌≤◌, ◌⊎◌, None, Some, IfErr, IfNone, IfOk, IfSome, OnErr, OnOk, IsOkUnless};
ghost use Rattle.std.specs.Prelude.{IsFalse, IsTrue, map, sum_by};
ghost use Rattle.std.specs.Arc.{arc_value};
ghost use Rattle.std.specs.Option.{ForSome};
ghost use Rattle.fts_model.specs.Limits.{most_merged};
ghost use Rattle.fts_snapshots.specs.Entries.{live_count};
ghost use Rattle.fts_snapshots.specs.LateMerges.{after_end, end_fault};
ghost use Rattle.fts_snapshots.specs.MergedSegments.{merged_of};
ghost use Rattle.fts_snapshots.specs.Snapshots.{content_of};
ghost use Rattle.fts_snapshots.specs.Successors as successors;
ghost use Rattle.fts_engine_local.specs.BegunMerges.{EndsIn, are_few, due_job, first_job, job_of};

use crate::local_policy::policy;
use counted_slot::{Counted, Fits};
use fts_model::{MOST_MERGED, Refusal};
use fts_snapshots::{CommitPoint, Entry, MergeJob, MergedSegment, Snapshot};
use std::alloc::{AllocError, Global};
use std::sync::Arc;

/// The segment that a job made.
#[derive(Drop)]
pub(crate) struct MadeSegment {
    segment: MergedSegment,
}

impl Fits for MadeSegment {
    type Tag = MergeJob;

    ghost fits = { λ job made. made.segment ≡ merged_of job };
}

/// Holds the segment that a job makes. Contracts see it as the segments of the job.
#[derive(Drop)]
pub(crate) struct MergeSlot {
    pub(crate) made: Counted<Option<MadeSegment>>,
}

impl MergeSlot {
    /// The slot of a job, still empty.
    fn new(job: &MergeJob) -> MergeSlot
        ensures { result.made ≡ job.now }
    {
        MergeSlot {
            made: Counted::new(None, job),
        }
    }

    /// Stores the segment, unless one is stored already.
    fn put(&self, segment: MergedSegment)
        requires { segment ≡ merged_of self.now.made }
    {
        let (found, claim) = self.made.turn(0, 3);
        if found == 0 {
            drop(claim.put(Some(MadeSegment { segment }), 1));
        } else {
            claim.done();
        }
    }

    /// The snapshot with the merged segment in place of its sources, or why it can't be; nothing if no segment was
    /// made.
    fn end_in(&self, alloc: Global, snapshot: &Snapshot) -> Option<Result<Snapshot, Refusal>>
        requires { successors.Fits (merged_of self.now.made) snapshot.now }
        ensures { IfSome result (EndsIn self.now.made snapshot.now) }
    {
        let (found, claim) = self.made.turn(1, 5);
        if found != 1 {
            claim.done();
            return None;
        }
        let ended = match claim.get() {
            Some(made) => Some(snapshot.end_merge(alloc, &made.segment)),
            None => None,
        };
        claim.leave();
        ended
    }
}

/// A merge of segments of an engine. Any thread may run it while the engine goes on; then the engine ends it.
#[derive(Drop)]
pub struct BegunMerge {
    job: Option<MergeJob>,
    place: Arc<MergeSlot>,
    ghost same: { ForSome job (λ j. (arc_value place).made ≡ j) },
    ghost within: { ForSome job (λ j. sum_by live_count j ≤ most_merged) },
}

impl BegunMerge {
    /// Makes one segment of the live documents of the segments, if it wasn't made before. Nothing is found differently
    /// until the engine ends the merge. A refusal leaves the merge as it was.
    pub fn run(&mut self, alloc: Global) -> Result<(), Refusal>
        ensures ran { OnOk result (self.new.job ≡ None) }
        ensures same { OnErr result (self.new.job ≡ self.old.job) }
        ensures memory { IsOkUnless result Refusal.Memory }
    {
        let Some(job) = self.job.take() else {
            return Ok(());
        };
        match job.run(alloc) {
            Ok(segment) => {
                self.place.put(segment);
                Ok(())
            }
            Err((job, refusal)) => {
                self.job = Some(job);
                Err(refusal)
            }
        }
    }
}

/// Whether segments have at most 1,048,576 live documents together, so that they can be merged.
fn is_within(entries: &[Entry]) -> bool
    ensures { result ≡ are_few entries.now }
{
    let mut live = 0;
    for entry in entries {
        let more = entry.live_count();
        if more > MOST_MERGED - live {
            return false;
        }
        live += more;
    }
    true
}

/// The job that merges the segments of these numbers, if they can be merged.
fn job_of(alloc: Global, snapshot: &Snapshot, ids: &[u64]) -> Result<Option<MergeJob>, Refusal>
    ensures job { IfOk result (λ job. job ≡ job_of ids.now snapshot.now.entries) }
    ensures fits { IfOk result (λ job. IfSome job (λ j. successors.Fits (merged_of j) snapshot.now)) }
    ensures few { IfOk result (λ job. IfSome job (λ j. sum_by live_count j ≤ most_merged)) }
    ensures memory { IsOkUnless result Refusal.Memory }
{
    match snapshot.begin_merge(alloc, ids) {
        Ok(job) => {
            if is_within(job.entries()) {
                Ok(Some(job))
            } else {
                Ok(None)
            }
        }
        Err(Refusal::Memory) => Err(Refusal::Memory),
        Err(_) => Ok(None),
    }
}

/// The job of the first of candidates that can be merged, if there is one.
fn first_job(
    alloc: Global,
    snapshot: &Snapshot,
    candidates: &[Vec<u64>],
) -> Result<Option<MergeJob>, Refusal>
    ensures job { IfOk result (λ job. job
        ≡ first_job (map (λ ids. ids.items) candidates.now) snapshot.now.entries) }
    ensures fits { IfOk result (λ job. IfSome job (λ j. successors.Fits (merged_of j) snapshot.now)) }
    ensures few { IfOk result (λ job. IfSome job (λ j. sum_by live_count j ≤ most_merged)) }
    ensures memory { IsOkUnless result Refusal.Memory }
{
    for ids in candidates {
        let job = job_of(alloc, snapshot, ids)?;
        if job.is_some() {
            return Ok(job);
        }
    }
    Ok(None)
}

/// Starts a merge of the first candidate of the policy that can be merged, if there is one: the merge, and the slot
/// that the engine shares with it.
pub(crate) fn begun(
    alloc: Global,
    snapshot: &Snapshot,
) -> Result<Option<(BegunMerge, Arc<MergeSlot>)>, Refusal>
    ensures none { IfOk result (λ begun. IfNone begun (due_job snapshot.now.entries ≡ None)) }
    ensures some { IfOk result (λ begun. IfSome begun (λ b. (due_job snapshot.now.entries
        ≡ Some (arc_value b.1).made) × (b.0.job ≡ Some (arc_value b.1).made))) }
    ensures fits { IfOk result (λ begun. IfSome begun (λ b.
        successors.Fits (merged_of (arc_value b.1).made) snapshot.now)) }
    ensures memory { IsOkUnless result Refusal.Memory }
{
    let candidates = snapshot.plan_by(alloc, &policy(None))?;
    let Some(job) = first_job(alloc, snapshot, &candidates)? else {
        return Ok(None);
    };
    let place = Arc::new(alloc, MergeSlot::new(&job))?;
    let shared = Arc::try_clone(&place)?;
    let merge = BegunMerge {
        job: Some(job),
        place,
    };
    Ok(Some((merge, shared)))
}

/// Whether memory ran out.
pub(crate) fn is_memory(refusal: Refusal) -> bool
    ensures yes { IsTrue result → refusal ≡ Refusal.Memory }
    ensures no { IsFalse result → refusal ≡ Refusal.Memory → ⊥ }
{
    match refusal {
        Refusal::Memory => true,
        _ => false,
    }
}

/// The commit with the merged segment in place of its sources, or why it can't be; nothing if no segment was made.
pub(crate) fn ended(
    alloc: Global,
    place: &MergeSlot,
    commit: &CommitPoint,
) -> Result<Option<Arc<CommitPoint>>, Refusal>
    requires { successors.Fits (merged_of place.now.made) commit.now.snapshot }
    ensures unrefused { IfOk result (λ next. IfSome next (λ _.
        end_fault commit.now.snapshot.next_id (merged_of place.now.made) commit.now.snapshot.entries ≡ None)) }
    ensures ended { IfOk result (λ next. IfSome next (λ c.
        (arc_value c).snapshot ≡ after_end (merged_of place.now.made) commit.now.snapshot)) }
    ensures content { IfOk result (λ next. IfSome next (λ c.
        content_of (arc_value c).snapshot ≡ content_of commit.now.snapshot)) }
    ensures stamp { IfOk result (λ next. IfSome next (λ c. (arc_value c).stamp ≡ commit.now.stamp)) }
    ensures refused { IfErr result (λ e. (e ≡ Refusal.Memory)
        ⊎ (end_fault commit.now.snapshot.next_id (merged_of place.now.made) commit.now.snapshot.entries ≡ Some e)) }
{
    let Some(ended) = place.end_in(alloc, &commit.snapshot) else {
        return Ok(None);
    };
    match ended {
        Ok(snapshot) => {
            let stamp = commit.stamp;
            Ok(Some(Arc::new(alloc, CommitPoint { stamp, snapshot })?))
        }
        Err(refusal) => Err(refusal),
    }
}
