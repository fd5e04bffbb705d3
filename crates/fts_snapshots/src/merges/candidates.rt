// The segments of a snapshot that are worth merging.
ghost use Rattle.std.specs.Prelude.{◌≡◌, ◌<◌, ◌≤◌, All, map, length, IfOk, IsOkUnless};
ghost use Rattle.fts_model.specs.Limits.{most_merged};
ghost use Rattle.fts_snapshots.specs.Infos.{id_at, candidate_ids_by, size_of};

use crate::entries::Entry;
use fts_merge::{MergePolicy, SegmentSize, plan_by};
use fts_model::Refusal;
use std::alloc::{AllocError, Global};

/// The numbers of the segments at these indexes.
fn ids_at(alloc: Global, entries: &[Entry], indexes: &[usize]) -> Result<Vec<u64>, AllocError>
    requires { All (λ index. index < length entries.now) indexes.now }
    ensures { IfOk result (λ ids. ids.items ≡ map (id_at entries.now) indexes.now) }
{
    let mut ids = Vec::with_capacity(alloc, indexes.len())?;
    for index in indexes {
        ids.push(entries[*index].id())?;
    }
    Ok(ids)
}

/// As `ids_at`, for several lists.
fn all_ids_at(
    alloc: Global,
    entries: &[Entry],
    lists: &[Vec<usize>],
) -> Result<Vec<Vec<u64>>, AllocError>
    requires { All (λ list. All (λ index. index < length entries.now) list.items) lists.now }
    ensures { IfOk result (λ all. map (λ ids. ids.items) all.items
        ≡ map (λ list. map (id_at entries.now) list.items) lists.now) }
{
    let mut all = Vec::with_capacity(alloc, lists.len())?;
    for list in lists {
        all.push(ids_at(alloc, entries, list)?)?;
    }
    Ok(all)
}

/// The size of each segment.
fn segment_sizes(alloc: Global, entries: &[Entry]) -> Result<Vec<SegmentSize>, AllocError>
    ensures { IfOk result (λ sizes. sizes.items ≡ map size_of entries.now) }
{
    let mut sizes = Vec::with_capacity(alloc, entries.len())?;
    for entry in entries {
        sizes.push(entry.size())?;
    }
    Ok(sizes)
}

/// The candidates of a policy, each as the numbers of its segments.
pub(crate) fn candidates_by(
    alloc: Global,
    policy: &MergePolicy,
    entries: &[Entry],
) -> Result<Vec<Vec<u64>>, Refusal>
    requires floor { policy.now.floor ≤ most_merged }
    requires most { policy.now.most ≤ most_merged }
    ensures candidates { IfOk result (λ found.
        map (λ ids. ids.items) found.items ≡ candidate_ids_by policy.now entries.now) }
    ensures memory { IsOkUnless result Refusal.Memory }
{
    let sizes = segment_sizes(alloc, entries)?;
    let found = plan_by(alloc, policy, &sizes)?;
    Ok(all_ids_at(alloc, entries, &found)?)
}
