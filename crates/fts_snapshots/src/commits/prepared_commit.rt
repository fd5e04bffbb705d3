// A commit whose jobs may be run by any threads.
ghost use Rattle.std.specs.Prelude.{◌≡◌, ◌++◌, None, Err, map, IfOk, IfSome, IsOkUnless};
ghost use Rattle.fts_base.specs.Results.{Gives, ok_unless};
ghost use Rattle.fts_model.specs.Operations.{alive, adds};
ghost use Rattle.fts_snapshots.specs.Commits.{misfit};
ghost use Rattle.fts_snapshots.specs.Cuts.{IsCut};
ghost use Rattle.fts_snapshots.specs.Jobs.{entry_of};
ghost use Rattle.fts_snapshots.specs.PreparedCommits.{entries_kept, entries_left, prepared};
ghost use Rattle.fts_snapshots.specs.Snapshots.{IsBehind, after_commit, commit_fault, content_of};

use crate::commits::batch_jobs::{entries_after, strikers, struck_by};
use crate::commits::commit_job::{CommitJob, commit_jobs};
use crate::commits::groups::groups;
use crate::commits::segment_of_add::new_segments;
use crate::entries::{Entry, are_used_up};
use crate::snapshot::Snapshot;
use fts_model::{Cut, Op, Refusal, Stamped};
use fts_segment::Builder;
use std::alloc::{AllocError, Global};
use std::marker::Model;

/// A commit of a batch whose adds are divided among new segments. What remains are its jobs, one for each segment,
/// which any threads may run.
#[derive(Drop)]
pub struct PreparedCommit<'a> {
    cut: Cut,
    batch: &'a [Stamped<Op>],
    snapshot: &'a Snapshot,
    groups: Vec<Builder>,
}

impl<'a> Model for PreparedCommit<'a> {
    ghost use Rattle.std.specs.Prelude.{◌≡◌};
    ghost use Rattle.fts_model.specs.Operations.{added};
    ghost use Rattle.fts_snapshots.specs.Cuts.{groups_of};
    ghost use Rattle.fts_snapshots.specs.Groups.{AreOf, documents_in};
    ghost use Rattle.fts_snapshots.specs.PreparedCommits.{IsPrepared, PreparedValue, prepared};

    ghost Value = { PreparedValue };

    ghost view = { λ p. prepared p.cut p.batch.now p.snapshot.now };

    ghost invariant = { λ p.
        (documents_in p.groups.items ≡ groups_of p.cut (added p.batch.now)) × AreOf p.snapshot.now.schema p.groups.items
        × IsPrepared (prepared p.cut p.batch.now p.snapshot.now) };
}

impl<'a> PreparedCommit<'a> {
    /// Prepares a commit of a batch that fits the schema and comes after the documents of the snapshot. The documents
    /// are copied only if there are numbers for their segments.
    pub(crate) fn new(
        alloc: Global,
        cut: Cut,
        batch: &'a [Stamped<Op>],
        snapshot: &'a Snapshot,
    ) -> Result<PreparedCommit<'a>, Refusal>
        requires cut { IsCut cut }
        requires behind { IsBehind (content_of snapshot.now) batch.now }
        requires fits { misfit snapshot.now.schema batch.now ≡ None }
        ensures commit { Gives (λ commit. commit) result
            (ok_unless (commit_fault cut batch.now snapshot.now) (prepared cut batch.now snapshot.now)) }
        ensures fault { IfSome (commit_fault cut batch.now snapshot.now) (λ refusal. result ≡ Err refusal) }
    {
        if are_used_up(snapshot.next_id(), new_segments(cut, batch)) {
            return Err(Refusal::StampsUsedUp);
        }
        let groups = groups(alloc, snapshot.schema(), cut, batch)?;
        Ok(PreparedCommit {
            cut,
            batch,
            snapshot,
            groups,
        })
    }

    /// The jobs: if the batch has a delete, one for each existing segment; and then one for each new one, in the order
    /// of their first adds.
    pub fn jobs(&self, alloc: Global) -> Result<Vec<CommitJob<'_>>, AllocError>
        ensures { IfOk result (λ jobs. map entry_of jobs.items ≡ entries_left self.now) }
    {
        let snapshot = self.snapshot;
        let entries = struck_by(self.batch, snapshot.entries());
        commit_jobs(
            alloc,
            strikers(self.batch),
            entries,
            snapshot.next_id(),
            &self.groups,
        )
    }

    /// The snapshot after the commit: the segments that its jobs left, without those that have no live document. If the
    /// batch has no delete, they come after the existing segments, which are unchanged.
    pub fn finish(&self, alloc: Global, entries: Vec<Entry>) -> Result<Snapshot, Refusal>
        requires { entries.items ≡ entries_kept self.now }
        ensures snapshot { IfOk result (λ new.
            new ≡ after_commit self.now.cut self.now.batch self.now.snapshot) }
        ensures content { IfOk result (λ new. content_of new
            ≡ alive self.now.snapshot.schema (adds (content_of self.now.snapshot) ++ self.now.batch)) }
        ensures memory { IsOkUnless result Refusal.Memory }
    {
        let snapshot = self.snapshot;
        let schema = snapshot.schema().clone()?;
        let next_id = snapshot.next_id() + self.groups.len() as u64;
        let entries = entries_after(alloc, self.batch, snapshot.entries(), entries)?;
        Ok(Snapshot::of(schema, entries, next_id))
    }
}
