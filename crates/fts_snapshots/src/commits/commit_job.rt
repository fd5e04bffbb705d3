// The jobs of a commit, one for each segment that it changes or builds.
ghost use Rattle.std.specs.Prelude.{◌≡◌, ◌≤◌, ◌+◌, ◌++◌, ◌^◌, map, length, All, IfOk, OnOk, IsOkUnless};
ghost use Rattle.fts_model.specs.Limits.{most_built};
ghost use Rattle.fts_snapshots.specs.Commits.{struck};
ghost use Rattle.fts_snapshots.specs.EntryLists.{entries_ahead};
ghost use Rattle.fts_snapshots.specs.Groups.{built, built_from, documents_in};
ghost use Rattle.fts_snapshots.specs.Jobs.{entry_of};

use crate::commits::new_segment::NewSegment;
use crate::entries::{Entry, EntryIter};
use fts_merge::strike;
use fts_model::{Op, Refusal, Stamped};
use fts_pack::bits::Bits;
use fts_pool::Job;
use fts_segment::Builder;
use std::alloc::{AllocError, Global};

/// The task of a job.
#[derive(Drop)]
pub(crate) enum Task<'a> {
    /// Deletes are applied to an existing segment.
    Strike(&'a Entry),
    /// A new segment is built, and deletes are applied to it.
    Build(NewSegment<'a>),
}

/// The work of a commit on one segment: deletes are applied to an existing one, or a new one is built of its documents
/// and deletes are applied to it.
#[derive(Drop)]
pub struct CommitJob<'a> {
    alloc: Global,
    ops: &'a [Stamped<Op>],
    task: Task<'a>,
}

impl Job for CommitJob<'_> {
    ghost use Rattle.fts_snapshots.specs.Jobs.{Answers};

    type Out = Result<Entry, Refusal>;

    ghost gives = { Answers };

    /// About how many nanoseconds it takes, without the deletes, which each job applies. A document of a new segment
    /// takes some thousands; the live bits of an existing one are copied 64 at a time.
    fn cost(&self) -> u64 {
        match &self.task {
            Task::Strike(entry) => entry.segment().docs() as u64 / 64,
            Task::Build(segment) => (segment.builder.docs() as u64).saturating_mul(8_000),
        }
    }

    /// Returns the segment that it leaves. The only refusal is `Memory`.
    fn run(&self) -> Result<Entry, Refusal> {
        match &self.task {
            Task::Strike(entry) => struck(self.alloc, self.ops, entry),
            Task::Build(segment) => fresh(self.alloc, self.ops, segment),
        }
    }
}

/// A segment with deletes applied. Its bits are shared if there are no operations.
fn struck(alloc: Global, ops: &[Stamped<Op>], entry: &Entry) -> Result<Entry, Refusal>
    ensures ok { IfOk result (λ new. new ≡ struck ops.now entry.now) }
    ensures memory { IsOkUnless result Refusal.Memory }
{
    let live = entry.live();
    if ops.is_empty() {
        return Ok(entry.clone()?);
    }
    let live = strike(alloc, entry.segment(), live, ops)?;
    let segment = entry.segment().clone()?;
    Ok(Entry::new(alloc, entry.id(), segment, live)?)
}

/// A new segment with deletes applied.
fn fresh(alloc: Global, ops: &[Stamped<Op>], new: &NewSegment<'_>) -> Result<Entry, Refusal>
    ensures ok { IfOk result (λ entry. entry ≡ built ops.now new.now.id new.now.builder.now) }
    ensures memory { IsOkUnless result Refusal.Memory }
{
    let segment = new.builder.build(alloc)?;
    let all = Bits::all_set(alloc, segment.docs())?;
    let live = strike(alloc, &segment, &all, ops)?;
    Ok(Entry::new(alloc, new.id, segment, live)?)
}

/// The jobs of a commit: one for each of these existing segments, and then one for each group of adds. The new segments
/// are numbered from `id`.
pub(crate) fn commit_jobs<'a>(
    alloc: Global,
    ops: &'a [Stamped<Op>],
    entries: EntryIter<'a>,
    id: u64,
    groups: &'a [Builder],
) -> Result<Vec<CommitJob<'a>>, AllocError>
    requires room { id + length groups.now ≤ 2 ^ 62 }
    requires few { All (λ group. length group ≤ most_built) (documents_in groups.now) }
    ensures { IfOk result (λ jobs. map entry_of jobs.items
        ≡ map (struck ops.now) (entries_ahead entries.entry) ++ built_from ops.now id groups.now) }
{
    let mut jobs = Vec::new(alloc);
    for entry in entries {
        let task = Task::Strike(entry);
        jobs.push(CommitJob { alloc, ops, task })?;
    }
    push_builds(&mut jobs, alloc, ops, id, groups)?;
    Ok(jobs)
}

/// Appends the jobs of new segments.
fn push_builds<'a>(
    jobs: &mut Vec<CommitJob<'a>>,
    alloc: Global,
    ops: &'a [Stamped<Op>],
    first: u64,
    groups: &'a [Builder],
) -> Result<(), AllocError>
    requires room { first + length groups.now ≤ 2 ^ 62 }
    requires few { All (λ group. length group ≤ most_built) (documents_in groups.now) }
    ensures { OnOk result (map entry_of jobs.new.items
        ≡ map entry_of jobs.old.items ++ built_from ops.now first groups.now) }
{
    let mut id = first;
    for builder in groups {
        let task = Task::Build(NewSegment { id, builder });
        jobs.push(CommitJob { alloc, ops, task })?;
        id += 1;
    }
    Ok(())
}
