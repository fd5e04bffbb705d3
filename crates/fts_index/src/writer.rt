// The writer of an index: it opens rounds, commits their batches, merges segments, and publishes what these leave.
ghost use Rattle.std.specs.Prelude.{◌≡◌, ◌+◌, ◌*◌, ◌^◌, ◌<◌, ◌≤◌, ◌⊎◌, ◌↔◌, ◌++◌, [], ◌∷◌, List, IsTrue, Some};
ghost use Rattle.std.specs.Prelude.{None, Ok, Err, IfOk, IfErr, IfSome, OnOk, OnErr, IsOkUnless, is_ok, map, length};
ghost use Rattle.std.specs.Prelude.{option_map};
ghost use Rattle.std.specs.List.{range_with_len};
ghost use Rattle.fts_model.specs.Limits.{most_merged};
ghost use Rattle.fts_model.specs.Operations.{alive, adds};
ghost use Rattle.fts_rounds.specs.Rounds.{fresh};
ghost use Rattle.fts_snapshots.specs.Candidates.{MergesDue};
ghost use Rattle.fts_snapshots.specs.Changes.{Merges};
ghost use Rattle.fts_snapshots.specs.CountedSnapshots.{candidates_after};
ghost use Rattle.fts_snapshots.specs.Cuts.{IsCut};
ghost use Rattle.fts_snapshots.specs.Commits.{misfit};
ghost use Rattle.fts_snapshots.specs.Infos.{info_of, infos_after_merge, candidate_ids};
ghost use Rattle.fts_snapshots.specs.Snapshots.{content_of, merge_fault, IsSnapshot};
ghost use Rattle.fts_snapshots.specs.Merges.{entries_at, names_fault};
ghost use Rattle.fts_snapshots.specs.MergedSegments.{merged_of};
ghost use Rattle.fts_snapshots.specs.Successors.{Follows, Fits};
ghost use Rattle.fts_index.specs.Publications.{opening, schema_of, IsFront, IsOneCommit};
ghost use Rattle.fts_index.specs.Writers.{IsRefusedFor, KeepsRounds, next_round, with_round, without_round};
ghost use Rattle.fts_index.specs.Writers.{round_fault, is_of, batch_fault, stamp_behind, with_commit, with_merge};
ghost use Rattle.fts_index.specs.Writers.{late_fault, with_end};

use crate::commit::commit;
use crate::merges::merge_by;
use crate::publications::{CommitSeen, Publisher, Reader, Searcher};
use fts_model::{Cut, Op, Refusal, Schema, Stamp, Stamped};
use fts_pool::Gate;
use fts_rounds::{Batch, Lane, Round, RoundLimits, open_round};
use fts_snapshots::{
    ID_LIMIT, LateMergeable, MergeJob, MergePolicy, Mergeable, MergedSegment, SegmentInfo,
    Snapshot, whole,
};
use std::alloc::Global;
use std::marker::Model;
use std::sync::Wait;
use std::thread::Threads;

/// Writes an index. There is no round or one open round, from `open_round` until `commit` succeeds or `abandon`.
///
/// A writer isn't dropped but closed.
pub struct Writer {
    publisher: Publisher,
    rounds: u64,
    round: Option<RoundLimits>,
}

/// A commit that was made.
#[derive(Drop)]
pub struct Committed {
    /// Its stamp, above those of its operations.
    pub stamp: Stamp,
    /// What the writer has published by it: a reader to which it is reported finds this commit or a later one.
    pub seen: CommitSeen,
}

impl Model for Writer {
    ghost use Rattle.fts_index.specs.Writers.{WriterValue, IsWriter};

    ghost Value = { WriterValue };

    ghost view = { λ w. record { front = w.publisher; rounds = w.rounds; round = w.round } };

    ghost invariant = { λ w. IsWriter (record { front = w.publisher; rounds = w.rounds; round = w.round }) };
}

/// Whether a batch is of the open round.
fn is_of(round: Option<RoundLimits>, batch: &Batch) -> bool
    ensures { result ≡ is_of round batch.now }
{
    match round {
        None => false,
        Some(limits) => limits.round == batch.round() && limits.first == batch.first(),
    }
}

/// Why operations can't be committed under a schema: the first one that doesn't fit it.
fn misfit(schema: &Schema, ops: &[Stamped<Op>]) -> Option<Refusal>
    ensures { result ≡ misfit schema.now ops.now }
{
    for op in ops {
        if !op.value.fits(schema) {
            return Some(Refusal::OtherSchema(op.stamp));
        }
    }
    None
}

impl Writer {
    /// A writer of an index without documents, whose commit stamp is 0.
    pub fn new<R: Wait>(rt: &R, alloc: Global, schema: &Schema) -> Result<Writer, Refusal>
        ensures stamp { IfOk result (λ w. w.front.stamp ≡ 0) }
        ensures schema { IfOk result (λ w. w.front.snapshot.schema ≡ schema.now) }
        ensures segments { IfOk result (λ w. w.front.snapshot.entries ≡ []) }
        ensures numbers { IfOk result (λ w. w.front.snapshot.next_id ≡ 0) }
        ensures publications { IfOk result (λ w. w.front.seen.list ≡ opening schema.now ∷ []) }
        ensures rounds { IfOk result (λ w. (w.rounds ≡ 0) × (w.round ≡ None)) }
        ensures memory { IsOkUnless result Refusal.Memory }
    {
        let snapshot = Snapshot::new(alloc, schema.clone()?);
        let publisher = Publisher::new(rt, alloc, snapshot)?;
        Ok(Writer {
            publisher,
            rounds: 0,
            round: None,
        })
    }

    /// The stamp of the last commit, and 0 before the first. It is above those of all documents.
    pub fn commit_stamp(&self) -> Stamp
        ensures stamp { result ≡ self.now.front.stamp }
        ensures front { IsFront self.now.front }
    {
        self.publisher.commit_stamp()
    }

    /// The schema of all documents. Contracts learn here that the numbers of segments rise, and that no stamp occurs
    /// twice.
    pub fn schema(&self) -> &Schema
        ensures schema { result.now ≡ self.now.front.snapshot.schema }
        ensures snapshot { IsSnapshot self.now.front.snapshot }
    {
        self.publisher.snapshot().schema()
    }

    /// What the last commit left.
    pub fn snapshot(&self) -> &Snapshot
        ensures snapshot { result.now ≡ self.now.front.snapshot }
        ensures front { IsFront self.now.front }
    {
        self.publisher.snapshot()
    }

    /// The last commit, to be searched.
    pub fn searcher(&self) -> Result<Searcher, Refusal>
        ensures searcher { IfOk result (λ s. s ≡ self.now.front) }
        ensures front { IfOk result IsFront }
        ensures memory { IsOkUnless result Refusal.Memory }
    {
        self.publisher.searcher()
    }

    /// Whether a searcher, which a reader of this writer made, searches the last commit.
    pub fn is_last(&self, searcher: &Searcher) -> bool
        requires { searcher.now.seen.of ≡ self.now.front.seen.of }
        ensures { IsTrue result ↔ IsOneCommit searcher.now self.now.front }
    {
        self.publisher.is_last(searcher)
    }

    /// Opens a round of this many lanes, 1 to 64, each of which takes up to `cap` operations, 1 to 1,000,000. Its first
    /// stamp is the commit stamp plus 1.
    ///
    /// `RoundOpen` if one is open; `StampsUsedUp` if a stamp of the round, or its number, could be 2^62 or more.
    pub fn open_round(
        &mut self,
        alloc: Global,
        lanes: usize,
        cap: usize,
    ) -> Result<(Round, Vec<Lane>), Refusal>
        requires lanes { (1 ≤ lanes) × (lanes ≤ 64) }
        requires cap { (1 ≤ cap) × (cap ≤ 1000000) }
        ensures writer { OnOk result (self.new ≡ with_round lanes cap self.old) }
        ensures refused { IsRefusedFor (round_fault lanes cap self.old) result }
        ensures fault { IfSome (round_fault lanes cap self.old) (λ refusal. result ≡ Err refusal) }
        ensures round { IfOk result (λ r. r.0.limits ≡ next_round lanes cap self.old) }
        ensures lanes { IfOk result (λ r. r.1.items ≡ map (fresh r.0) (range_with_len 0 lanes)) }
        ensures follows { Follows self.old.front.snapshot self.new.front.snapshot }
        ensures same { OnErr result (self.new ≡ self.old) }
    {
        if self.round.is_some() {
            return Err(Refusal::RoundOpen);
        }
        let first = self.publisher.commit_stamp() + 1;
        let stamps = lanes as u64 * cap as u64;
        if self.rounds >= ID_LIMIT || first + stamps >= ID_LIMIT {
            return Err(Refusal::StampsUsedUp);
        }
        let round = open_round(alloc, self.rounds, first, lanes, cap)?;
        self.round = Some(RoundLimits {
            round: self.rounds,
            first,
            lanes,
            cap,
        });
        self.rounds += 1;
        Ok(round)
    }

    /// Commits a batch: its adds are cut into new segments, and its deletes are applied. The work is done by up to this
    /// many threads, 1 to 64, the calling one among them: if the batch has a delete, one job for each segment that was
    /// there, in their order; and then one for each new segment, in the order of their first adds. The gate is called
    /// around each.
    ///
    /// `StaleBatch` if no round is open, or the batch isn't of the open one; then `OtherSchema` with the stamp of the
    /// first operation that doesn't fit the schema; then `StampsUsedUp` if a segment's number would reach 2^62. A
    /// refusal leaves everything as it was, and the batch can be tried again.
    pub fn commit<R: Threads + Wait + Sync, G: Gate>(
        &mut self,
        rt: &R,
        alloc: Global,
        batch: &Batch,
        cut: Cut,
        workers: usize,
        gate: &G,
    ) -> Result<Committed, Refusal>
        requires cut { IsCut cut }
        requires workers { (1 ≤ workers) × (workers ≤ 64) }
        ensures writer { OnOk result (self.new ≡ with_commit cut batch.now self.old) }
        ensures refused { IsRefusedFor (batch_fault cut batch.now self.old) result }
        ensures fault { IfSome (batch_fault cut batch.now self.old) (λ refusal. result ≡ Err refusal) }
        ensures stamp { IfOk result (λ c. c.stamp ≡ stamp_behind batch.now) }
        ensures content { OnOk result (content_of self.new.front.snapshot
            ≡ alive self.old.front.snapshot.schema
            (adds (content_of self.old.front.snapshot) ++ batch.now.ops)) }
        ensures seen { IfOk result (λ c. c.seen ≡ self.new.front.seen) }
        ensures follows { Follows self.old.front.snapshot self.new.front.snapshot }
        ensures same { OnErr result (self.new ≡ self.old) }
    {
        if !is_of(self.round, batch) {
            return Err(Refusal::StaleBatch);
        }
        let snapshot = self.publisher.snapshot();
        if let Some(refusal) = misfit(snapshot.schema(), batch.ops()) {
            return Err(refusal);
        }
        let next = commit(rt, alloc, snapshot, batch.ops(), cut, workers, gate)?;
        let stamp = batch.end();
        let seen = self.publisher.publish(rt, alloc, next, stamp)?;
        self.round = None;
        Ok(Committed { stamp, seen })
    }

    /// Gives up the open round, if there is one, and returns the stamp of the last commit.
    pub fn abandon(&mut self) -> Stamp
        ensures writer { self.new ≡ without_round self.old }
        ensures follows { Follows self.old.front.snapshot self.new.front.snapshot }
        ensures stamp { result ≡ self.old.front.stamp }
    {
        self.round = None;
        self.publisher.commit_stamp()
    }

    /// The sizes of the segments of the last commit, by rising numbers.
    pub fn segments(&self, alloc: Global) -> Result<Vec<SegmentInfo>, Refusal>
        ensures segments { IfOk result (λ infos.
            infos.items ≡ map info_of self.now.front.snapshot.entries) }
        ensures memory { IsOkUnless result Refusal.Memory }
    {
        self.publisher.snapshot().segments(alloc)
    }

    /// The segments that are worth merging, by their numbers. Each list is one merge, and those of larger segments come
    /// first. A segment is as large as it has live documents.
    pub fn plan(&self, alloc: Global) -> Result<Vec<Vec<u64>>, Refusal>
        ensures candidates { IfOk result (λ found.
            map (λ c. c.items) found.items ≡ candidate_ids self.now.front.snapshot.entries) }
        ensures memory { IsOkUnless result Refusal.Memory }
    {
        self.publisher.snapshot().plan(alloc)
    }

    /// Makes one segment of the live documents of the segments of these numbers, in their order. Nothing is found
    /// differently.
    ///
    /// `NoSegments` for an empty list; then at the first bad place `UnknownSegment`, or `SegmentTwice` if the number
    /// occurs earlier in the list; then `TooLarge` for over 1,048,576 live documents, and `StampsUsedUp` if the new
    /// segment's number would reach 2^62. A refusal leaves everything as it was.
    pub fn merge<R: Wait>(&mut self, rt: &R, alloc: Global, ids: &[u64]) -> Result<(), Refusal>
        ensures writer { OnOk result (self.new ≡ with_merge ids.now self.old) }
        ensures refused { IsRefusedFor (merge_fault ids.now self.old.front.snapshot) result }
        ensures empty { ids.now ≡ [] → result ≡ Err Refusal.NoSegments }
        ensures segments { OnOk result (map info_of self.new.front.snapshot.entries
            ≡ infos_after_merge ids.now self.old.front.snapshot) }
        ensures content { OnOk result
            (content_of self.new.front.snapshot ≡ content_of self.old.front.snapshot) }
        ensures follows { Follows self.old.front.snapshot self.new.front.snapshot }
        ensures same { OnErr result (self.new ≡ self.old) }
    {
        let merged = self.publisher.snapshot().merge(alloc, ids)?;
        self.publisher.publish_again(rt, alloc, merged)?;
        Ok(())
    }

    /// Merges as [`merge`](Writer::merge) does. Up to this many threads, 1 to 64, the calling one among them, make the
    /// segment: each field is a job, and the gate is called around each.
    pub fn merge_by<R: Threads + Wait + Sync, G: Gate>(
        &mut self,
        rt: &R,
        alloc: Global,
        ids: &[u64],
        workers: usize,
        gate: &G,
    ) -> Result<(), Refusal>
        requires workers { (1 ≤ workers) × (workers ≤ 64) }
        ensures writer { OnOk result (self.new ≡ with_merge ids.now self.old) }
        ensures refused { IsRefusedFor (merge_fault ids.now self.old.front.snapshot) result }
        ensures empty { ids.now ≡ [] → result ≡ Err Refusal.NoSegments }
        ensures segments { OnOk result (map info_of self.new.front.snapshot.entries
            ≡ infos_after_merge ids.now self.old.front.snapshot) }
        ensures content { OnOk result
            (content_of self.new.front.snapshot ≡ content_of self.old.front.snapshot) }
        ensures follows { Follows self.old.front.snapshot self.new.front.snapshot }
        ensures same { OnErr result (self.new ≡ self.old) }
    {
        let merged = self
            .publisher
            .snapshot()
            .merge_by(rt, alloc, ids, workers, gate)?;
        self.publisher.publish_again(rt, alloc, merged)?;
        Ok(())
    }

    /// Merges all segments into one, if there are any, as [`merge_by`](Writer::merge_by) does, and returns the number of
    /// live documents. It is refused as `TooLarge` if there are over 1,048,576. Neither that nor an index without a
    /// segment takes memory.
    pub fn merge_all<R: Threads + Wait + Sync, G: Gate>(
        &mut self,
        rt: &R,
        alloc: Global,
        workers: usize,
        gate: &G,
    ) -> Result<u64, Refusal>
        requires workers { (1 ≤ workers) × (workers ≤ 64) }
        requires room { 0 < length self.old.front.snapshot.entries
            → self.old.front.snapshot.next_id + 1 ≤ 2 ^ 62 }
        ensures merges { OnOk result (Merges 1 self.old.front.snapshot self.new.front.snapshot) }
        ensures one { OnOk result (length self.new.front.snapshot.entries ≤ 1) }
        ensures keeps { KeepsRounds self.old self.new }
        ensures empty { self.old.front.snapshot.entries ≡ [] → result ≡ Ok 0 }
        ensures count { IfOk result (λ n. n ≡ length (content_of self.old.front.snapshot)) }
        ensures few { IfOk result (λ n. n ≤ most_merged) }
        ensures large { most_merged < length (content_of self.old.front.snapshot)
            → result ≡ Err Refusal.TooLarge }
        ensures same { OnErr result (self.new ≡ self.old) }
        ensures refused { IfErr result (λ e. (e ≡ Refusal.Memory) ⊎ ((e ≡ Refusal.TooLarge)
            × (most_merged < length (content_of self.old.front.snapshot)))) }
    {
        let snapshot = self.publisher.snapshot();
        if snapshot.entries().is_empty() {
            return Ok(0);
        }
        let (live, ids) = whole(alloc, snapshot)?;
        self.merge_by(rt, alloc, &ids, workers, gate)?;
        Ok(live)
    }

    /// Merges what a policy says of the last commit, if there is a policy, up to the first candidate of one segment. Up
    /// to this many threads, 1 to 64, the calling one among them, make the segments of several candidates side by side,
    /// or the fields of one if it alone is due; the gate is called around each. Segments of several candidates are held
    /// in memory until the last has been made; then they replace their sources in the order of the candidates. With one
    /// thread each segment replaces its sources before the next is made.
    ///
    /// `Memory` if memory ran out for a candidate, also when it was tried alone: it stays until a later commit, and the
    /// others are merged. A candidate that can't be merged stays.
    pub fn merge_planned<R: Threads + Wait + Sync, G: Gate>(
        &mut self,
        rt: &R,
        alloc: Global,
        policy: Option<MergePolicy>,
        workers: usize,
        gate: &G,
    ) -> Result<(), Refusal>
        requires workers { (1 ≤ workers) × (workers ≤ 64) }
        requires floor { IfSome policy (λ p. p.floor ≤ most_merged) }
        requires most { IfSome policy (λ p. p.most ≤ most_merged) }
        ensures planned { MergesDue (candidates_after policy self.old.front.snapshot)
            self.old.front.snapshot self.new.front.snapshot (is_ok result) }
        ensures merges { Merges 1 self.old.front.snapshot self.new.front.snapshot }
        ensures keeps { KeepsRounds self.old self.new }
        ensures memory { IsOkUnless result Refusal.Memory }
    {
        match policy {
            None => Ok(()),
            Some(policy) => merge_by(rt, alloc, self, &policy, workers, gate),
        }
    }

    /// Starts a merge of the segments of these numbers, in their order. It may be run in another thread and ended here
    /// later.
    ///
    /// `NoSegments` for an empty list; then at the first bad place `UnknownSegment`, or `SegmentTwice` if the number
    /// occurs earlier in the list.
    pub fn begin_merge(&self, alloc: Global, ids: &[u64]) -> Result<MergeJob, Refusal>
        ensures job { IfOk result (λ job.
            job ≡ entries_at self.now.front.snapshot.entries ids.now) }
        ensures fits { IfOk result (λ job. Fits (merged_of job) self.now.front.snapshot) }
        ensures refused { IsRefusedFor
            (names_fault self.now.front.snapshot.entries ids.now) result }
        ensures empty { ids.now ≡ [] → result ≡ Err Refusal.NoSegments }
    {
        self.publisher.snapshot().begin_merge(alloc, ids)
    }

    /// Ends a merge that was started on this writer: the merged segment takes the place of its sources under the next
    /// number. Documents deleted since the start are deleted in it, and nothing is found differently.
    ///
    /// `SourceGone` with the first source that isn't in the last commit, if none is, or if one that isn't there has a
    /// document that is live in another segment; then `StampsUsedUp` if the new segment's number would reach 2^62. A
    /// refusal leaves everything as it was, and hands the merged segment back.
    pub fn end_merge<R: Wait>(
        &mut self,
        rt: &R,
        alloc: Global,
        merged: MergedSegment,
    ) -> Result<CommitSeen, (MergedSegment, Refusal)>
        requires fits { Fits merged self.old.front.snapshot }
        ensures writer { OnOk result (self.new ≡ with_end merged self.old) }
        ensures can { OnOk result (late_fault merged self.old ≡ None) }
        ensures refused { IfErr result (λ e.
            (e.1 ≡ Refusal.Memory) ⊎ (late_fault merged self.old ≡ Some e.1)) }
        ensures content { OnOk result
            (content_of self.new.front.snapshot ≡ content_of self.old.front.snapshot) }
        ensures seen { IfOk result (λ seen. seen ≡ self.new.front.seen) }
        ensures follows { Follows self.old.front.snapshot self.new.front.snapshot }
        ensures same { OnErr result (self.new ≡ self.old) }
        ensures handed_back { IfErr result (λ e. e.0 ≡ merged) }
    {
        let next = match self.publisher.snapshot().end_merge(alloc, &merged) {
            Ok(next) => next,
            Err(refusal) => return Err((merged, refusal)),
        };
        match self.publisher.publish_again(rt, alloc, next) {
            Ok(seen) => Ok(seen),
            Err(refusal) => Err((merged, refusal)),
        }
    }

    /// A reader for another thread, which knows all that was published so far. `NoReader` if there are 64.
    pub fn reader(&mut self) -> Result<Reader, Refusal>
        ensures same { self.new ≡ self.old }
        ensures reader { IfOk result (λ r. r ≡ self.old.front.seen) }
        ensures schema { IfOk result (λ r. schema_of r ≡ self.old.front.snapshot.schema) }
        ensures refused { IfErr result (λ e. (e ≡ Refusal.Memory) ⊎ (e ≡ Refusal.NoReader)) }
    {
        self.publisher.reader()
    }

    /// Ends the writer, and gives up an open round. Searchers keep their snapshots, and readers go on with the newest
    /// that they know.
    pub fn close<R: Wait>(self, rt: &R) {
        let Writer {
            publisher,
            rounds: _,
            round: _,
        } = self;
        publisher.close(rt);
    }
}

impl<R: Wait> Mergeable<R> for Writer {
    ghost use Rattle.std.specs.Prelude.{refl};
    ghost use Rattle.std.proofs.Common.{◌∙◌};
    ghost use Rattle.fts_index.specs.Writers.{KeepsRounds};

    ghost left = { λ w. w.front.snapshot };

    ghost keeps = { KeepsRounds };

    fn last_commit(&self) -> &Snapshot {
        self.snapshot()
    }

    fn merge_segments(&mut self, rt: &R, alloc: Global, ids: &[u64]) -> Result<(), Refusal> {
        self.merge(rt, alloc, ids)
    }

    ghost keeps_itself = { λ w. record { stamp = refl; of = refl; rounds = refl; round = refl } };

    ghost keeps_further = { λ a b c ab bc. record {
      stamp = bc.stamp ∙ ab.stamp;
      of = bc.of ∙ ab.of;
      rounds = bc.rounds ∙ ab.rounds;
      round = bc.round ∙ ab.round;
    } };
}

impl<R: Wait> LateMergeable<R> for Writer {
    fn replace_sources(
        &mut self,
        rt: &R,
        alloc: Global,
        merged: &MergedSegment,
    ) -> Result<(), Refusal> {
        let next = match self.publisher.snapshot().end_merge(alloc, merged) {
            Ok(next) => next,
            Err(refusal) => return Err(refusal),
        };
        self.publisher.publish_again(rt, alloc, next)?;
        Ok(())
    }
}
