// The commit after the last one of an engine of one thread.
ghost use Rattle.std.specs.Prelude.{◌≡◌, ◌+◌, ◌^◌, ◌<◌, ◌≤◌, None, length, IfOk, IsOkUnless};
ghost use Rattle.std.specs.Arc.{arc_value};
ghost use Rattle.std.specs.List.{range_with_len};
ghost use Rattle.fts_model.specs.Operations.{stamps_of};
ghost use Rattle.fts_snapshots.specs.Changes.{Commits};
ghost use Rattle.fts_snapshots.specs.Commits.{misfit};
ghost use Rattle.fts_snapshots.specs.Cuts.{IsCut};
ghost use Rattle.fts_snapshots.specs.Successors.{Follows};

use fts_model::{Cut, Op, Refusal, Stamped};
use fts_snapshots::CommitPoint;
use std::alloc::Global;
use std::sync::Arc;

/// The commit after another one, of the operations since.
pub(crate) fn next_commit(
    alloc: Global,
    last: &CommitPoint,
    ops: &[Stamped<Op>],
    cut: Cut,
) -> Result<Arc<CommitPoint>, Refusal>
    requires cut { IsCut cut }
    requires numbered { stamps_of ops.now ≡ range_with_len (last.now.stamp + 1) (length ops.now) }
    requires fit { misfit last.now.snapshot.schema ops.now ≡ None }
    requires stamps { last.now.stamp + length ops.now + 1 < 2 ^ 62 }
    requires numbers { last.now.snapshot.next_id + length ops.now ≤ 2 ^ 62 }
    ensures commits { IfOk result (λ next. Commits ops.now last.now.snapshot (arc_value next).snapshot) }
    ensures follows { IfOk result (λ next. Follows last.now.snapshot (arc_value next).snapshot) }
    ensures stamp { IfOk result (λ next. (arc_value next).stamp ≡ last.now.stamp + length ops.now + 1) }
    ensures memory { IsOkUnless result Refusal.Memory }
{
    // The stamps of a snapshot's documents rise.
    let _schema = last.snapshot.schema();
    let snapshot = match last.snapshot.commit_alone(alloc, ops, cut) {
        Ok(snapshot) => snapshot,
        Err(refusal) => return Err(refusal),
    };
    let stamp = last.stamp + ops.len() as u64 + 1;
    Ok(Arc::new(alloc, CommitPoint { stamp, snapshot })?)
}
