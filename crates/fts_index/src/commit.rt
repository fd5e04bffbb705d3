// A commit whose jobs are run by several threads.
ghost use Rattle.std.specs.Prelude.{◌≡◌, ◌≤◌, None, List, map, filter, IfOk, IfErr, IsOkUnless};
ghost use Rattle.fts_snapshots.specs.Commits.{misfit};
ghost use Rattle.fts_snapshots.specs.Cuts.{IsCut};
ghost use Rattle.fts_snapshots.specs.Entries.{has_live};
ghost use Rattle.fts_snapshots.specs.Jobs.{entry_of};
ghost use Rattle.fts_snapshots.specs.Snapshots.{GivesCommit, IsBehind, content_of};
ghost use Rattle.fts_snapshots.specs.declared.commits.commit_job.CommitJob.{CommitJob};
ghost use Rattle.fts_index.specs.CommitJobs.{AreAnswers};

use fts_model::{Cut, Op, Refusal, Stamped};
use fts_pool::{Gate, run_all};
use fts_snapshots::{CommitJob, Entry, Snapshot, push_live};
use std::alloc::Global;
use std::sync::Wait;
use std::thread::Threads;

/// The segments that jobs left, except those without a live document; or the first refusal.
fn assemble(alloc: Global, answers: Vec<Result<Entry, Refusal>>) -> Result<Vec<Entry>, Refusal>
    ensures ok { IfOk result (λ entries. (jobs : List CommitJob) → AreAnswers jobs answers.items →
        entries.items ≡ filter has_live (map entry_of jobs)) }
    ensures memory { IfErr result (λ e. (jobs : List CommitJob) → AreAnswers jobs answers.items → e ≡ Refusal.Memory) }
{
    let mut entries = Vec::new(alloc);
    for answer in answers {
        match answer {
            Ok(entry) => push_live(&mut entries, entry)?,
            Err(refusal) => return Err(refusal),
        }
    }
    Ok(entries)
}

/// The segments that jobs leave, except those without a live document. Up to this many threads run the jobs.
fn entries_of_jobs<R: Threads + Wait + Sync, G: Gate>(
    rt: &R,
    alloc: Global,
    jobs: &[CommitJob<'_>],
    workers: usize,
    gate: &G,
) -> Result<Vec<Entry>, Refusal>
    requires { (1 ≤ workers) × (workers ≤ 64) }
    ensures ok { IfOk result (λ entries. entries.items ≡ filter has_live (map entry_of jobs.now)) }
    ensures memory { IsOkUnless result Refusal.Memory }
{
    let answers = run_all(rt, alloc, jobs, workers, gate)?;
    assemble(alloc, answers)
}

/// The snapshot after a batch, as by `Snapshot::commit_alone`. Up to this many threads, 1 to 64, run the jobs: one for
/// each segment that the batch may strike, and then one for each new one.
pub(crate) fn commit<R: Threads + Wait + Sync, G: Gate>(
    rt: &R,
    alloc: Global,
    snapshot: &Snapshot,
    batch: &[Stamped<Op>],
    cut: Cut,
    workers: usize,
    gate: &G,
) -> Result<Snapshot, Refusal>
    requires cut { IsCut cut }
    requires workers { (1 ≤ workers) × (workers ≤ 64) }
    requires behind { IsBehind (content_of snapshot.now) batch.now }
    requires fits { misfit snapshot.now.schema batch.now ≡ None }
    ensures { GivesCommit cut batch.now snapshot.now result }
{
    let commit = snapshot.prepare_commit(alloc, batch, cut)?;
    let jobs = commit.jobs(alloc)?;
    let entries = entries_of_jobs(rt, alloc, &jobs, workers, gate)?;
    commit.finish(alloc, entries)
}
