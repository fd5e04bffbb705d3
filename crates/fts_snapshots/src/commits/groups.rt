// The adds of a batch in groups, one for each new segment, in its builder.
ghost use Rattle.std.specs.Prelude.{◌≡◌, ◌<◌, ◌≤◌, ◌+◌, ◌^◌, true, None, All, IfOk, OnOk, IsOkUnless, length};
ghost use Rattle.fts_model.specs.Documents.{fits};
ghost use Rattle.fts_model.specs.Operations.{added_by, added, op_fits};
ghost use Rattle.fts_model.specs.Limits.{most_built};
ghost use Rattle.fts_snapshots.specs.Commits.{misfit};
ghost use Rattle.fts_snapshots.specs.Cuts.{IsCut, place_of, put_into, dealt_from, groups_of};
ghost use Rattle.fts_snapshots.specs.Groups.{AreOf, documents_in};

use crate::commits::segment_of_add::segment_of_add;
use fts_model::{Cut, Document, Op, Refusal, Schema, Stamp, Stamped};
use fts_segment::Builder;
use std::alloc::Global;

/// Adds a document to the group of this number, or to a new group after the last.
fn put(
    alloc: Global,
    schema: &Schema,
    groups: &mut Vec<Builder>,
    at: usize,
    stamp: Stamp,
    document: &Document,
) -> Result<(), Refusal>
    requires schema { AreOf schema.now groups.old.items }
    requires few { All (λ group. length group ≤ most_built)
        (put_into at (record { stamp = stamp; value = document.now }) (documents_in groups.old.items)) }
    requires fits { fits schema.now document.now ≡ true }
    ensures schema { OnOk result (AreOf schema.now groups.new.items) }
    ensures ok { OnOk result (documents_in groups.new.items
        ≡ put_into at (record { stamp = stamp; value = document.now }) (documents_in groups.old.items)) }
    ensures memory { IsOkUnless result Refusal.Memory }
{
    if at < groups.len() {
        return groups[at].add(stamp, document);
    }
    let mut group = Builder::new(alloc, schema)?;
    group.add(stamp, document)?;
    groups.push(group)?;
    Ok(())
}

/// Adds the document that an operation adds to its group, if `count` were added before, and returns how many were
/// added.
fn put_added(
    alloc: Global,
    schema: &Schema,
    cut: Cut,
    groups: &mut Vec<Builder>,
    count: usize,
    op: &Stamped<Op>,
) -> Result<usize, Refusal>
    requires cut { IsCut cut }
    requires small { count + 1 < 2 ^ 64 }
    requires schema { AreOf schema.now groups.old.items }
    requires few { All (λ group. length group ≤ most_built) (dealt_from (place_of cut) count
        (documents_in groups.old.items) (added_by op.now.stamp op.now.value)) }
    requires fits { op_fits schema.now op.now.value ≡ true }
    ensures schema { OnOk result (AreOf schema.now groups.new.items) }
    ensures groups { OnOk result (documents_in groups.new.items ≡ dealt_from (place_of cut) count
        (documents_in groups.old.items) (added_by op.now.stamp op.now.value)) }
    ensures count { IfOk result (λ n. n ≡ count + length (added_by op.now.stamp op.now.value)) }
    ensures memory { IsOkUnless result Refusal.Memory }
{
    let Op::Add(document) = &op.value else {
        return Ok(count);
    };
    let at = segment_of_add(cut, count);
    put(alloc, schema, groups, at, op.stamp, document)?;
    Ok(count + 1)
}

/// The documents that operations add, in groups. Only handles of documents are stored.
pub(crate) fn groups(
    alloc: Global,
    schema: &Schema,
    cut: Cut,
    ops: &[Stamped<Op>],
) -> Result<Vec<Builder>, Refusal>
    requires cut { IsCut cut }
    requires fits { misfit schema.now ops.now ≡ None }
    ensures schema { IfOk result (λ groups. AreOf schema.now groups.items) }
    ensures groups { IfOk result (λ groups. documents_in groups.items ≡ groups_of cut (added ops.now)) }
    ensures memory { IsOkUnless result Refusal.Memory }
{
    let mut groups = Vec::new(alloc);
    let mut count = 0;
    for op in ops {
        count = put_added(alloc, schema, cut, &mut groups, count, op)?;
    }
    Ok(groups)
}
