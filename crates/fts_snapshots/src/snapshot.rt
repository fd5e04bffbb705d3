// The state of an index at one time, and the states that commits and merges make of it.
ghost use Rattle.std.specs.Prelude.{◌≡◌, ◌≤◌, ◌^◌, [], None, Err, map, IfOk, IfSome, IsOkUnless};
ghost use Rattle.fts_model.specs.Limits.{most_merged};
ghost use Rattle.fts_base.specs.Results.{Gives, ok_unless};
ghost use Rattle.fts_snapshots.specs.Entries.{content};
ghost use Rattle.fts_snapshots.specs.Infos.{info_of, infos_after_merge, candidate_ids, candidate_ids_by};
ghost use Rattle.fts_snapshots.specs.Cuts.{IsCut};
ghost use Rattle.fts_snapshots.specs.Commits.{misfit};
ghost use Rattle.fts_snapshots.specs.MadeMerges.{AreApart};
ghost use Rattle.fts_snapshots.specs.Merges.{entries_at, names_fault};
ghost use Rattle.fts_snapshots.specs.MergedSegments.{merged_of};
ghost use Rattle.fts_snapshots.specs.PreparedCommits.{prepared};
ghost use Rattle.fts_snapshots.specs.Successors.{Fits};
ghost use Rattle.fts_snapshots.specs.LateMerges.{end_fault, after_end, after_merge};
ghost use Rattle.fts_snapshots.specs.Snapshots.{IsBehind, IsSnapshot, GivesCommit, commit_fault, merge_fault};

use crate::commits::{PreparedCommit, entries_in_turn};
use crate::entries::{EntryList, SegmentInfo};
use crate::merges::end_entries::end_entries;
use crate::merges::named_entries::named_entries;
use crate::merges::{MergeJob, MergedSegment, candidates_by};
use fts_merge::MergePolicy;
use fts_model::{Cut, Op, Refusal, Schema, Stamped};
use fts_pool::Gate;
use std::alloc::{AllocError, Global};
use std::marker::Model;
use std::sync::Wait;
use std::thread::Threads;

/// The segments of an index at one time, by rising numbers. It never changes: a commit or a merge makes another
/// snapshot, and a refused one makes none.
#[derive(Drop)]
pub struct Snapshot {
    schema: Schema,
    entries: EntryList,
    next_id: u64,
}

impl Model for Snapshot {
    ghost use Rattle.fts_snapshots.specs.Snapshots.{SnapshotValue, IsSnapshot};

    ghost Value = { SnapshotValue };

    ghost view = { λ s. record { schema = s.schema; entries = s.entries; next_id = s.next_id } };

    ghost invariant = { λ s.
        IsSnapshot (record { schema = s.schema; entries = s.entries; next_id = s.next_id }) };
}

impl Snapshot {
    /// A snapshot without a segment, whose first one will have the number 0.
    pub fn new(alloc: Global, schema: Schema) -> Snapshot
        ensures { result ≡ record { schema = schema; entries = []; next_id = 0 } }
    {
        Snapshot {
            schema,
            entries: EntryList::new(alloc),
            next_id: 0,
        }
    }

    /// The schema of all documents.
    pub fn schema(&self) -> &Schema
        ensures schema { result.now ≡ self.now.schema }
        ensures snapshot { IsSnapshot self.now }
    {
        &self.schema
    }

    /// The segments, by rising numbers.
    pub fn entries(&self) -> &EntryList
        ensures entries { result.now ≡ self.now.entries }
        ensures snapshot { IsSnapshot self.now }
    {
        &self.entries
    }

    /// Makes a snapshot of these segments.
    pub(crate) fn of(schema: Schema, entries: EntryList, next_id: u64) -> Snapshot
        requires { IsSnapshot (record { schema = schema; entries = entries; next_id = next_id }) }
        ensures { result ≡ record { schema = schema; entries = entries; next_id = next_id } }
    {
        Snapshot {
            schema,
            entries,
            next_id,
        }
    }

    /// The number of the next segment.
    pub(crate) fn next_id(&self) -> u64
        ensures next { result ≡ self.now.next_id }
        ensures snapshot { IsSnapshot self.now }
    {
        self.next_id
    }

    /// Starts a commit of a batch that fits the schema and comes after the documents of this snapshot: its adds are
    /// divided among new segments. Any threads may run the jobs of the commit.
    ///
    /// It is refused as `StampsUsedUp` if the number of a new segment would be 2^62 or more, before memory is taken.
    pub fn prepare_commit<'a>(
        &'a self,
        alloc: Global,
        batch: &'a [Stamped<Op>],
        cut: Cut,
    ) -> Result<PreparedCommit<'a>, Refusal>
        requires cut { IsCut cut }
        requires behind { IsBehind (content self.now.entries) batch.now }
        requires fits { misfit self.now.schema batch.now ≡ None }
        ensures commit { Gives (λ commit. commit) result
            (ok_unless (commit_fault cut batch.now self.now) (prepared cut batch.now self.now)) }
        ensures fault { IfSome (commit_fault cut batch.now self.now) (λ refusal. result ≡ Err refusal) }
    {
        PreparedCommit::new(alloc, cut, batch, self)
    }

    /// The snapshot after a batch that fits the schema and comes after the documents of this snapshot. Its adds are
    /// divided among new segments; a segment without a live document is dropped. The calling thread does all the work.
    ///
    /// It is refused as `StampsUsedUp` if the number of a new segment would be 2^62 or more.
    pub fn commit_alone(
        &self,
        alloc: Global,
        batch: &[Stamped<Op>],
        cut: Cut,
    ) -> Result<Snapshot, Refusal>
        requires cut { IsCut cut }
        requires behind { IsBehind (content self.now.entries) batch.now }
        requires fits { misfit self.now.schema batch.now ≡ None }
        ensures { GivesCommit cut batch.now self.now result }
    {
        let commit = self.prepare_commit(alloc, batch, cut)?;
        let jobs = commit.jobs(alloc)?;
        let entries = entries_in_turn(alloc, &jobs)?;
        commit.finish(alloc, entries)
    }

    /// Starts, runs and ends a merge at once, with the refusals of these three.
    pub fn merge(&self, alloc: Global, ids: &[u64]) -> Result<Snapshot, Refusal>
        ensures snapshot { Gives (λ new. new) result
            (ok_unless (merge_fault ids.now self.now) (after_merge ids.now self.now)) }
        ensures segments { IfOk result (λ new. map info_of new.entries ≡ infos_after_merge ids.now self.now) }
        ensures content { IfOk result (λ new. content new.entries ≡ content self.now.entries) }
        ensures empty { ids.now ≡ [] → result ≡ Err Refusal.NoSegments }
    {
        let job = self.begin_merge(alloc, ids)?;
        match job.run(alloc) {
            Ok(merged) => self.end_merge(alloc, &merged),
            Err((_, refusal)) => Err(refusal),
        }
    }

    /// Merges as [`merge`](Snapshot::merge) does. Up to this many threads, 1 to 64, the calling one among them, make the
    /// segment: each field is a job, and the gate is called around each.
    pub fn merge_by<R: Threads + Wait + Sync, G: Gate>(
        &self,
        rt: &R,
        alloc: Global,
        ids: &[u64],
        workers: usize,
        gate: &G,
    ) -> Result<Snapshot, Refusal>
        requires workers { (1 ≤ workers) × (workers ≤ 64) }
        ensures snapshot { Gives (λ new. new) result
            (ok_unless (merge_fault ids.now self.now) (after_merge ids.now self.now)) }
        ensures segments { IfOk result (λ new. map info_of new.entries ≡ infos_after_merge ids.now self.now) }
        ensures content { IfOk result (λ new. content new.entries ≡ content self.now.entries) }
        ensures empty { ids.now ≡ [] → result ≡ Err Refusal.NoSegments }
    {
        let begun = self.begin_merge(alloc, ids)?;
        match begun.run_by(rt, alloc, workers, gate) {
            Ok(merged) => self.end_merge(alloc, &merged),
            Err((_, refusal)) => Err(refusal),
        }
    }

    /// Starts a merge of the segments with these numbers, in their order. The job holds them with their current live
    /// bits.
    ///
    /// It is refused as `NoSegments`, before any memory is taken, or by the first faulty number as `UnknownSegment` or
    /// `SegmentTwice`.
    pub fn begin_merge(&self, alloc: Global, ids: &[u64]) -> Result<MergeJob, Refusal>
        ensures job { Gives (λ job. job) result
            (ok_unless (names_fault self.now.entries ids.now) (entries_at self.now.entries ids.now)) }
        ensures empty { ids.now ≡ [] → result ≡ Err Refusal.NoSegments }
        ensures fits { IfOk result (λ job. Fits (merged_of job) self.now) }
        ensures snapshot { IsSnapshot self.now }
    {
        let entries = named_entries(alloc, &self.entries, ids)?;
        Ok(MergeJob::new(entries))
    }

    /// The snapshot in which a merged segment replaces its sources, under the next number. Its live bits are those that
    /// its sources have in this snapshot, and if none is set the segment is dropped.
    ///
    /// It is refused as `SourceGone` if a missing source prevents the end; otherwise as `StampsUsedUp` if the number
    /// would be 2^62.
    pub fn end_merge(&self, alloc: Global, merged: &MergedSegment) -> Result<Snapshot, Refusal>
        requires { Fits merged.now self.now }
        ensures snapshot { Gives (λ new. new) result
            (ok_unless (end_fault self.now.next_id merged.now self.now.entries) (after_end merged.now self.now)) }
        ensures content { IfOk result (λ new. content new.entries ≡ content self.now.entries) }
    {
        let all = self.entries.to_vec(alloc)?;
        let entries = match end_entries(alloc, &all, merged, self.next_id) {
            Ok(entries) => entries,
            Err(refusal) => return Err(refusal),
        };
        let entries = EntryList::new(alloc).with_more(alloc, entries)?;
        let schema = self.schema.clone()?;
        Ok(Snapshot {
            schema,
            entries,
            next_id: self.next_id + 1,
        })
    }

    /// The sizes of the segments, by rising numbers.
    pub fn segments(&self, alloc: Global) -> Result<Vec<SegmentInfo>, Refusal>
        ensures segments { IfOk result (λ infos. infos.items ≡ map info_of self.now.entries) }
        ensures memory { IsOkUnless result Refusal.Memory }
    {
        Ok(infos(alloc, &self.entries)?)
    }

    /// The segments that the usual policy merges, by their ids: each list is one merge.
    pub fn plan(&self, alloc: Global) -> Result<Vec<Vec<u64>>, Refusal>
        ensures candidates { IfOk result (λ found. map (λ c. c.items) found.items ≡ candidate_ids self.now.entries) }
        ensures memory { IsOkUnless result Refusal.Memory }
    {
        self.plan_by(alloc, &MergePolicy::usual())
    }

    /// The candidates of a policy, each as the numbers of its segments.
    pub fn plan_by(&self, alloc: Global, policy: &MergePolicy) -> Result<Vec<Vec<u64>>, Refusal>
        requires floor { policy.now.floor ≤ most_merged }
        requires most { policy.now.most ≤ most_merged }
        ensures candidates { IfOk result (λ found.
            map (λ c. c.items) found.items ≡ candidate_ids_by policy.now self.now.entries) }
        ensures apart { IfOk result (λ found. AreApart (map (λ c. c.items) found.items)) }
        ensures memory { IsOkUnless result Refusal.Memory }
    {
        let entries = self.entries.to_vec(alloc)?;
        candidates_by(alloc, policy, &entries)
    }
}

/// The sizes of segments.
fn infos(alloc: Global, entries: &EntryList) -> Result<Vec<SegmentInfo>, AllocError>
    ensures { IfOk result (λ infos. infos.items ≡ map info_of entries.now) }
{
    let mut infos = Vec::with_capacity(alloc, entries.len())?;
    for entry in entries.iter() {
        infos.push(entry.info())?;
    }
    Ok(infos)
}
