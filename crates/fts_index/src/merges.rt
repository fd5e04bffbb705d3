// The merges that are due after a commit: several threads make the segments, and the writer ends one merge after the
// other.
ghost use Rattle.std.specs.Prelude.{◌≡◌, ◌≤◌, IfOk, IsOkUnless, is_ok, map};
ghost use Rattle.fts_model.specs.Limits.{most_merged};
ghost use Rattle.fts_snapshots.specs.Candidates.{MergesAllBut, MergesDue, due};
ghost use Rattle.fts_snapshots.specs.Changes.{Merges};
ghost use Rattle.fts_snapshots.specs.Infos.{candidate_ids_by};
ghost use Rattle.fts_snapshots.specs.MadeMerges.{AreApart, AreMadeFor};
ghost use Rattle.fts_index.specs.Writers.{KeepsRounds};

use crate::writer::Writer;
use fts_model::Refusal;
use fts_pool::{Gate, run_all};
use fts_snapshots::{MergePolicy, MergedSegment, Snapshot, due_tasks, end_due, merge_due};
use std::alloc::Global;
use std::sync::Wait;
use std::thread::Threads;

/// Makes a segment for each candidate that is due, by up to this many threads, 1 to 64: side by side, or the fields of
/// one if it alone is due.
fn made<R: Threads + Wait + Sync, G: Gate>(
    rt: &R,
    alloc: Global,
    snapshot: &Snapshot,
    candidates: &[Vec<u64>],
    workers: usize,
    gate: &G,
) -> Result<Vec<Result<MergedSegment, Refusal>>, Refusal>
    requires { (1 ≤ workers) × (workers ≤ 64) }
    ensures { IfOk result (λ made.
        AreMadeFor (due (map (λ ids. ids.items) candidates.now)) snapshot.now made.items) }
{
    let tasks = due_tasks(alloc, snapshot, candidates)?;
    if tasks.len() != 1 {
        return run_all(rt, alloc, &tasks, workers, gate);
    }
    Ok(vec![in alloc; tasks[0].run_by(rt, workers, gate)]?)
}

/// Merges candidates in order, up to the first of one segment, as `merge_due` does. Up to this many threads make their
/// segments; if that can't begin, they are merged one after the other.
fn merge_candidates<R: Threads + Wait + Sync, G: Gate>(
    rt: &R,
    alloc: Global,
    writer: &mut Writer,
    candidates: &[Vec<u64>],
    workers: usize,
    gate: &G,
) -> usize
    requires workers { (1 ≤ workers) × (workers ≤ 64) }
    requires apart { AreApart (map (λ ids. ids.items) candidates.now) }
    ensures due { MergesAllBut result (due (map (λ ids. ids.items) candidates.now))
        writer.old.front.snapshot writer.new.front.snapshot }
    ensures merges { Merges 1 writer.old.front.snapshot writer.new.front.snapshot }
    ensures keeps { KeepsRounds writer.old writer.new }
{
    if workers == 1 {
        return merge_due(rt, alloc, writer, candidates);
    }
    match made(rt, alloc, writer.snapshot(), candidates, workers, gate) {
        Ok(made) => end_due(rt, alloc, writer, candidates, &made),
        Err(_) => merge_due(rt, alloc, writer, candidates),
    }
}

/// Merges the candidates of a policy, as `merge_planned` of `fts_snapshots` does.
pub(crate) fn merge_by<R: Threads + Wait + Sync, G: Gate>(
    rt: &R,
    alloc: Global,
    writer: &mut Writer,
    policy: &MergePolicy,
    workers: usize,
    gate: &G,
) -> Result<(), Refusal>
    requires workers { (1 ≤ workers) × (workers ≤ 64) }
    requires floor { policy.now.floor ≤ most_merged }
    requires most { policy.now.most ≤ most_merged }
    ensures planned { MergesDue (candidate_ids_by policy.now writer.old.front.snapshot.entries)
        writer.old.front.snapshot writer.new.front.snapshot (is_ok result) }
    ensures merges { Merges 1 writer.old.front.snapshot writer.new.front.snapshot }
    ensures keeps { KeepsRounds writer.old writer.new }
    ensures memory { IsOkUnless result Refusal.Memory }
{
    let Ok(candidates) = writer.snapshot().plan_by(alloc, policy) else {
        return Err(Refusal::Memory);
    };
    if merge_candidates(rt, alloc, writer, &candidates, workers, gate) > 0 {
        return Err(Refusal::Memory);
    }
    Ok(())
}
