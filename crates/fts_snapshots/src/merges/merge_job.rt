// A merge that was started: any thread may run it, beside the writer.
ghost use Rattle.std.specs.Prelude.{◌≡◌, ◌≤◌, ◌⊎◌, None, Some, IfOk, IfErr, OnOk, map, sum_by};
ghost use Rattle.fts_base.specs.Results.{Gives, ok_unless};
ghost use Rattle.fts_snapshots.specs.Entries.{live_count};
ghost use Rattle.fts_snapshots.specs.Merges.{size_fault};
ghost use Rattle.fts_snapshots.specs.MergedSegments.{IsJob, ids_of, merged_of};
ghost use Rattle.fts_snapshots.specs.Sources.{IsMergeOf, source_of};

use crate::entries::{Entry, ids_of_entries};
use crate::merges::merged_segment::MergedSegment;
use fts_merge::{LiveSegment, Merged, merge, merge_by};
use fts_model::Refusal;
use fts_pool::Gate;
use std::alloc::{AllocError, Global};
use std::marker::Model;
use std::sync::Wait;
use std::thread::Threads;

/// The segments of a merge with the live bits that they had when it started. Contracts see these segments, in the order
/// of the merge.
#[derive(Drop)]
pub struct MergeJob {
    entries: Vec<Entry>,
}

impl Model for MergeJob {
    ghost use Rattle.std.specs.Prelude.{List};
    ghost use Rattle.fts_snapshots.specs.Entries.{EntryValue};
    ghost use Rattle.fts_snapshots.specs.MergedSegments.{IsJob};

    ghost Value = { List EntryValue };

    ghost view = { λ job. job.entries.items };

    ghost invariant = { λ job. IsJob job.entries.items };
}

impl MergeJob {
    /// Makes a job of these segments.
    pub(crate) fn new(entries: Vec<Entry>) -> MergeJob
        requires { IsJob entries.items }
        ensures { result ≡ entries.items }
    {
        MergeJob { entries }
    }

    /// The segments.
    pub fn entries(&self) -> &[Entry]
        ensures entries { result.now ≡ self.now }
        ensures job { IsJob self.now }
    {
        &self.entries
    }

    /// Makes one segment of the live documents, in the order of the segments; the job stays as it is. It is refused as
    /// `TooLarge` for over 1,048,576 live documents.
    pub fn make(&self, alloc: Global) -> Result<MergedSegment, Refusal>
        ensures { Gives (λ merged. merged) result
            (ok_unless (size_fault (sum_by live_count self.now)) (merged_of self.now)) }
    {
        merged(alloc, &self.entries)
    }

    /// Makes the segment as [`make`](MergeJob::make) does, by up to this many threads, 1 to 64, the calling one among
    /// them: each field is a job. The gate is called around each.
    pub(crate) fn make_by<R: Threads + Wait + Sync, G: Gate>(
        &self,
        rt: &R,
        alloc: Global,
        workers: usize,
        gate: &G,
    ) -> Result<MergedSegment, Refusal>
        requires workers { (1 ≤ workers) × (workers ≤ 64) }
        ensures { Gives (λ merged. merged) result
            (ok_unless (size_fault (sum_by live_count self.now)) (merged_of self.now)) }
    {
        merged_by(rt, alloc, &self.entries, workers, gate)
    }

    /// Makes one segment of the live documents, in the order of the segments. It needs no writer, and no search result
    /// changes by it.
    ///
    /// It is refused as `TooLarge` for over 1,048,576 live documents. A refusal hands the job back.
    pub fn run(self, alloc: Global) -> Result<MergedSegment, (MergeJob, Refusal)>
        ensures merged { IfOk result (λ merged. merged ≡ merged_of self) }
        ensures few { OnOk result (size_fault (sum_by live_count self) ≡ None) }
        ensures refused { IfErr result (λ e.
            (e.1 ≡ Refusal.Memory) ⊎ (size_fault (sum_by live_count self) ≡ Some e.1)) }
        ensures handed_back { IfErr result (λ e. e.0 ≡ self) }
    {
        match merged(alloc, &self.entries) {
            Ok(merged) => Ok(merged),
            Err(refusal) => Err((self, refusal)),
        }
    }

    /// Makes the segment as [`run`](MergeJob::run) does, by up to this many threads, 1 to 64, the calling one among them:
    /// each field is a job. The gate is called around each.
    pub fn run_by<R: Threads + Wait + Sync, G: Gate>(
        self,
        rt: &R,
        alloc: Global,
        workers: usize,
        gate: &G,
    ) -> Result<MergedSegment, (MergeJob, Refusal)>
        requires workers { (1 ≤ workers) × (workers ≤ 64) }
        ensures merged { IfOk result (λ merged. merged ≡ merged_of self) }
        ensures few { OnOk result (size_fault (sum_by live_count self) ≡ None) }
        ensures refused { IfErr result (λ e.
            (e.1 ≡ Refusal.Memory) ⊎ (size_fault (sum_by live_count self) ≡ Some e.1)) }
        ensures handed_back { IfErr result (λ e. e.0 ≡ self) }
    {
        match self.make_by(rt, alloc, workers, gate) {
            Ok(merged) => Ok(merged),
            Err(refusal) => Err((self, refusal)),
        }
    }
}

/// Segments as the sources of a merge.
fn sources<'a>(alloc: Global, entries: &'a [Entry]) -> Result<Vec<LiveSegment<'a>>, AllocError>
    ensures { IfOk result (λ sources. sources.items ≡ map source_of entries.now) }
{
    let mut sources = Vec::with_capacity(alloc, entries.len())?;
    for entry in entries {
        sources.push(LiveSegment::new(entry.segment(), entry.live()))?;
    }
    Ok(sources)
}

/// A merged segment with the numbers of its sources, if they could be merged.
fn with_ids(
    alloc: Global,
    entries: &[Entry],
    made: Result<Merged, Refusal>,
) -> Result<MergedSegment, Refusal>
    requires job { IsJob entries.now }
    requires is { IsMergeOf entries.now made }
    ensures { Gives (λ merged. merged) result
        (ok_unless (size_fault (sum_by live_count entries.now)) (merged_of entries.now)) }
{
    let merged = match made {
        Ok(merged) => merged,
        Err(refusal) => return Err(refusal),
    };
    let ids = ids_of_entries(alloc, entries)?;
    Ok(MergedSegment::new(merged, ids))
}

/// One segment of the live documents of segments.
fn merged(alloc: Global, entries: &[Entry]) -> Result<MergedSegment, Refusal>
    requires { IsJob entries.now }
    ensures { Gives (λ merged. merged) result
        (ok_unless (size_fault (sum_by live_count entries.now)) (merged_of entries.now)) }
{
    let sources = sources(alloc, entries)?;
    with_ids(alloc, entries, merge(alloc, &sources))
}

/// One segment of the live documents of segments, by up to this many threads, 1 to 64.
fn merged_by<R: Threads + Wait + Sync, G: Gate>(
    rt: &R,
    alloc: Global,
    entries: &[Entry],
    workers: usize,
    gate: &G,
) -> Result<MergedSegment, Refusal>
    requires job { IsJob entries.now }
    requires workers { (1 ≤ workers) × (workers ≤ 64) }
    ensures { Gives (λ merged. merged) result
        (ok_unless (size_fault (sum_by live_count entries.now)) (merged_of entries.now)) }
{
    let sources = sources(alloc, entries)?;
    with_ids(alloc, entries, merge_by(rt, alloc, &sources, workers, gate))
}
