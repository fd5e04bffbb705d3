// The jobs of a batch: which of its operations can delete, and which segments need no job.
ghost use Rattle.std.specs.Prelude.{◌≡◌, ◌<◌, ◌≤◌, ◌+◌, ◌^◌, ◌++◌, ◌∷◌, [], List, length};
ghost use Rattle.std.specs.Prelude.{map, filter, IfOk, OnOk, IsOkUnless};
ghost use Rattle.fts_model.specs.declared.schema.Field.{Field};
ghost use Rattle.fts_model.specs.declared.operation.Stamped.{Stamped};
ghost use Rattle.fts_model.specs.Documents.{DocumentValue};
ghost use Rattle.fts_model.specs.Operations.{survives};
ghost use Rattle.fts_snapshots.specs.Entries.{has_live};
ghost use Rattle.fts_snapshots.specs.EntryLists.{entries_ahead};
ghost use Rattle.fts_snapshots.specs.Commits.{has_delete, struck_by, spared_by};
ghost use Rattle.fts_snapshots.specs.Jobs.{entry_of};

use crate::commits::commit_job::CommitJob;
use crate::entries::{Entry, EntryIter, EntryList};
use fts_model::{Op, Refusal, Stamped};
use fts_pool::Job;
use std::alloc::{AllocError, Global};

/// A batch without the adds after its last delete: they delete nothing.
pub(crate) fn strikers(batch: &[Stamped<Op>]) -> &[Stamped<Op>]
    ensures { (schema : List Field) (document : Stamped DocumentValue) →
        survives schema result.now document ≡ survives schema batch.now document }
{
    let mut end = 0;
    for (i, op) in batch.iter().enumerate() {
        if !matches!(op.value, Op::Add(_)) {
            end = i + 1;
        }
    }
    &batch[..end]
}

/// Whether a batch has a delete.
fn has_delete(batch: &[Stamped<Op>]) -> bool
    ensures { result ≡ has_delete batch.now }
{
    batch.iter().any(|op| !matches!(op.value, Op::Add(_)))
}

/// The segments whose documents a batch may delete.
pub(crate) fn struck_by<'a>(batch: &[Stamped<Op>], entries: &'a EntryList) -> EntryIter<'a>
    ensures { entries_ahead result ≡ struck_by batch.now entries.now }
{
    if has_delete(batch) {
        entries.iter()
    } else {
        EntryIter::none()
    }
}

/// The segments after a batch: those that it can't change, and then those that its jobs left.
pub(crate) fn entries_after(
    alloc: Global,
    batch: &[Stamped<Op>],
    entries: &EntryList,
    left: Vec<Entry>,
) -> Result<EntryList, AllocError>
    requires { length (spared_by batch.now entries.now ++ left.items) < 2 ^ 64 }
    ensures { IfOk result (λ all. all ≡ spared_by batch.now entries.now ++ left.items) }
{
    if has_delete(batch) {
        EntryList::new(alloc).with_more(alloc, left)
    } else {
        entries.with_more(alloc, left)
    }
}

/// Appends a segment, if it has a live document.
pub fn push_live(entries: &mut Vec<Entry>, entry: Entry) -> Result<(), AllocError>
    ensures { OnOk result (entries.new.items ≡ entries.old.items ++ filter has_live (entry ∷ [])) }
{
    if entry.has_live() {
        entries.push(entry)?;
    }
    Ok(())
}

/// The segments with a live document that jobs leave, run one after the other.
pub(crate) fn entries_in_turn(alloc: Global, jobs: &[CommitJob<'_>]) -> Result<Vec<Entry>, Refusal>
    ensures ok { IfOk result (λ entries. entries.items ≡ filter has_live (map entry_of jobs.now)) }
    ensures memory { IsOkUnless result Refusal.Memory }
{
    let mut entries = Vec::new(alloc);
    for job in jobs {
        let entry = job.run()?;
        push_live(&mut entries, entry)?;
    }
    Ok(entries)
}
