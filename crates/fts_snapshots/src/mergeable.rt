// Merges in any holder of the last commit of an index: of all segments, and of those that a policy chooses.
ghost use Rattle.std.specs.Prelude.{◌≡◌, ◌+◌, ◌^◌, ◌<◌, ◌≤◌, ◌⊎◌, ◌∷◌, [], Ok, Err, length, map, sum_by};
ghost use Rattle.std.specs.Prelude.{IfOk, IfErr, IfSome, OnOk, OnErr, IsOkUnless, MatchOption, is_ok};
ghost use Rattle.fts_model.specs.Limits.{most_merged};
ghost use Rattle.fts_snapshots.specs.Candidates.{MergesAllBut, MergesDue, after_candidate, due};
ghost use Rattle.fts_snapshots.specs.Changes.{Merges};
ghost use Rattle.fts_snapshots.specs.Entries.{live_count};
ghost use Rattle.fts_snapshots.specs.CountedSnapshots.{candidates_after};
ghost use Rattle.fts_snapshots.specs.Infos.{candidate_ids_by};
ghost use Rattle.fts_snapshots.specs.MergedSegments.{ids_of};
ghost use Rattle.fts_snapshots.specs.Snapshots.{content_of};

use crate::commit_point::CommitPoint;
use crate::entries::EntryList;
use crate::snapshot::Snapshot;
use fts_merge::MergePolicy;
use fts_model::{MOST_MERGED, Refusal};
use std::alloc::{AllocError, Global};
use std::sync::Arc;

/// A holder of the last commit of an index that can merge its segments, given an `R` to work with. A writer may have to
/// wait, so it needs an `R` that can.
pub trait Mergeable<R> {
    ghost use Rattle.std.specs.Prelude.{◌≡◌, OnOk, OnErr};
    ghost use Rattle.fts_base.specs.Results.{Gives, ok_unless};
    ghost use Rattle.fts_snapshots.specs.LateMerges.{after_merge};
    ghost use Rattle.fts_snapshots.specs.Snapshots.{SnapshotValue, content_of, merge_fault};

    /// The snapshot of the last commit.
    ghost left: { Self → SnapshotValue };

    /// The relation of two states that merges maintain, beside equal content.
    ghost keeps: { Self → Self → Type 0 };

    /// The snapshot of the last commit.
    fn last_commit(&self) -> &Snapshot
        ensures { result.now ≡ left self.now };

    /// Makes one segment of the live documents of the segments with these numbers, as [`Snapshot::merge`] does. A
    /// refusal leaves everything as it was.
    fn merge_segments(&mut self, rt: &R, alloc: Global, ids: &[u64]) -> Result<(), Refusal>
        ensures snapshot { Gives (λ done. left self.new) result
            (ok_unless (merge_fault ids.now (left self.old)) (after_merge ids.now (left self.old))) }
        ensures content { OnOk result (content_of (left self.new) ≡ content_of (left self.old)) }
        ensures keeps { keeps self.old self.new }
        ensures same { OnErr result (self.new ≡ self.old) };

    ghost keeps_itself: { (x : Self) → keeps x x };

    ghost keeps_further: { (x y z : Self) → keeps x y → keeps y z → keeps x z };
}

impl<R> Mergeable<R> for Arc<CommitPoint> {
    ghost use Rattle.std.specs.Prelude.{refl};
    ghost use Rattle.std.specs.Arc.{arc_value};
    ghost use Rattle.std.proofs.Common.{◌∙◌};
    ghost use Rattle.fts_snapshots.specs.Successors.{follows_further, follows_itself};
    ghost use Rattle.fts_snapshots.specs.LaterCommits.{IsLaterCommit};

    ghost left = { λ commit. (arc_value commit).snapshot };

    ghost keeps = { λ old new. IsLaterCommit (arc_value old) (arc_value new) };

    fn last_commit(&self) -> &Snapshot {
        &self.snapshot
    }

    fn merge_segments(&mut self, _rt: &R, alloc: Global, ids: &[u64]) -> Result<(), Refusal> {
        let stamp = self.stamp;
        let snapshot = self.snapshot.merge(alloc, ids)?;
        *self = Arc::new(alloc, CommitPoint { stamp, snapshot })?;
        Ok(())
    }

    ghost keeps_itself = { λ x. record {
      stamp = refl;
      follows = follows_itself (arc_value x).snapshot;
    } };

    ghost keeps_further = { λ x y z xy yz. record {
      stamp = yz.stamp ∙ xy.stamp;
      follows = follows_further (arc_value x).snapshot (arc_value y).snapshot (arc_value z).snapshot
          xy.follows yz.follows;
    } };
}

/// The number of live documents, or none if there are over 1,048,576, too many for one segment.
fn live_in(entries: &EntryList) -> Option<usize>
    ensures { MatchOption result (most_merged < sum_by live_count entries.now)
        (λ live. (live ≡ sum_by live_count entries.now) × (live ≤ most_merged)) }
{
    let mut live = 0;
    for entry in entries.iter() {
        let more = entry.live_count();
        if more > MOST_MERGED - live {
            return None;
        }
        live += more;
    }
    Some(live)
}

/// The ids of segments.
fn ids_in(alloc: Global, entries: &EntryList) -> Result<Vec<u64>, AllocError>
    ensures { IfOk result (λ ids. ids.items ≡ ids_of entries.now) }
{
    let mut ids = Vec::with_capacity(alloc, entries.len())?;
    for entry in entries.iter() {
        ids.push(entry.id())?;
    }
    Ok(ids)
}

/// What a merge of all segments takes: how many live documents there are, and the ids of the segments. `TooLarge` if
/// there are over 1,048,576 documents; that takes no memory.
pub fn whole(alloc: Global, snapshot: &Snapshot) -> Result<(u64, Vec<u64>), Refusal>
    ensures count { IfOk result (λ whole. whole.0 ≡ length (content_of snapshot.now)) }
    ensures few { IfOk result (λ whole. whole.0 ≤ most_merged) }
    ensures ids { IfOk result (λ whole. whole.1.items ≡ ids_of snapshot.now.entries) }
    ensures large { most_merged < length (content_of snapshot.now) → result ≡ Err Refusal.TooLarge }
    ensures refused { IfErr result (λ e. (e ≡ Refusal.Memory) ⊎ ((e ≡ Refusal.TooLarge)
        × (most_merged < length (content_of snapshot.now)))) }
{
    let entries = snapshot.entries();
    let Some(live) = live_in(entries) else {
        return Err(Refusal::TooLarge);
    };
    let ids = ids_in(alloc, entries)?;
    Ok((live as u64, ids))
}

/// Merges all segments into one, if there are any, and returns the number of live documents. It is refused as
/// `TooLarge` if there are over 1,048,576. Neither that nor an index without a segment takes memory.
pub fn merge_all<R, S: Mergeable<R>>(rt: &R, alloc: Global, index: &mut S) -> Result<u64, Refusal>
    requires { 0 < length (S.left index.old).entries → (S.left index.old).next_id + 1 ≤ 2 ^ 62 }
    ensures merges { OnOk result (Merges 1 (S.left index.old) (S.left index.new)) }
    ensures one { OnOk result (length (S.left index.new).entries ≤ 1) }
    ensures keeps { S.keeps index.old index.new }
    ensures empty { (S.left index.old).entries ≡ [] → result ≡ Ok 0 }
    ensures count { IfOk result (λ n. n ≡ length (content_of (S.left index.old))) }
    ensures few { IfOk result (λ n. n ≤ most_merged) }
    ensures large { most_merged < length (content_of (S.left index.old)) → result ≡ Err Refusal.TooLarge }
    ensures same { OnErr result (index.new ≡ index.old) }
    ensures refused { IfErr result (λ e. (e ≡ Refusal.Memory) ⊎ ((e ≡ Refusal.TooLarge)
        × (most_merged < length (content_of (S.left index.old))))) }
{
    let snapshot = index.last_commit();
    if snapshot.entries().is_empty() {
        return Ok(0);
    }
    let (live, ids) = whole(alloc, snapshot)?;
    index.merge_segments(rt, alloc, &ids)?;
    Ok(live)
}

/// Merges the segments of a candidate. If they can't be merged, they are unchanged.
fn merge_candidate<R, S: Mergeable<R>>(
    rt: &R,
    alloc: Global,
    index: &mut S,
    ids: &[u64],
) -> Result<(), Refusal>
    ensures merged { OnOk result (S.left index.new ≡ after_candidate ids.now (S.left index.old)) }
    ensures same { OnErr result (index.new ≡ index.old) }
    ensures several { 2 ≤ length ids.now → Merges 0 (S.left index.old) (S.left index.new) }
    ensures merges { Merges 1 (S.left index.old) (S.left index.new) }
    ensures keeps { S.keeps index.old index.new }
    ensures memory { IsOkUnless result Refusal.Memory }
{
    match index.merge_segments(rt, alloc, ids) {
        Ok(()) => Ok(()),
        Err(Refusal::Memory) => Err(Refusal::Memory),
        Err(_) => Ok(()),
    }
}

/// Merges the segments of a candidate, and returns the number of candidates for which memory ran out: 1 or 0.
pub(crate) fn try_candidate<R, S: Mergeable<R>>(
    rt: &R,
    alloc: Global,
    index: &mut S,
    ids: &[u64],
) -> usize
    ensures merged { MergesAllBut result (ids.now ∷ []) (S.left index.old) (S.left index.new) }
    ensures few { result ≤ 1 }
    ensures several { 2 ≤ length ids.now → Merges 0 (S.left index.old) (S.left index.new) }
    ensures merges { Merges 1 (S.left index.old) (S.left index.new) }
    ensures keeps { S.keeps index.old index.new }
{
    match merge_candidate(rt, alloc, index, ids) {
        Ok(()) => 0,
        Err(_) => 1,
    }
}

/// Runs candidates in order, stopping after the first single-segment one: such a merge uses up an id without freeing
/// one, and the bound on ids allows one per commit. A candidate that runs out of memory is skipped and counted.
pub fn merge_due<R, S: Mergeable<R>>(
    rt: &R,
    alloc: Global,
    index: &mut S,
    candidates: &[Vec<u64>],
) -> usize
    ensures due { MergesAllBut result (due (map (λ ids. ids.items) candidates.now)) (S.left index.old)
        (S.left index.new) }
    ensures merges { Merges 1 (S.left index.old) (S.left index.new) }
    ensures keeps { S.keeps index.old index.new }
{
    let mut refused = 0;
    for ids in candidates {
        refused += try_candidate(rt, alloc, index, ids);
        if ids.len() < 2 {
            return refused;
        }
    }
    refused
}

/// Merges the candidates of a policy one after the other, up to the first of one segment. One that can't be merged
/// stays, and so does one for which memory runs out, which is refused: a later commit may merge it. The others are
/// merged.
fn merge_by<R, S: Mergeable<R>>(
    rt: &R,
    alloc: Global,
    index: &mut S,
    policy: &MergePolicy,
) -> Result<(), Refusal>
    requires floor { policy.now.floor ≤ most_merged }
    requires most { policy.now.most ≤ most_merged }
    ensures planned { MergesDue (candidate_ids_by policy.now (S.left index.old).entries) (S.left index.old)
        (S.left index.new) (is_ok result) }
    ensures merges { Merges 1 (S.left index.old) (S.left index.new) }
    ensures keeps { S.keeps index.old index.new }
    ensures memory { IsOkUnless result Refusal.Memory }
{
    let Ok(candidates) = index.last_commit().plan_by(alloc, policy) else {
        return Err(Refusal::Memory);
    };
    if merge_due(rt, alloc, index, &candidates) > 0 {
        return Err(Refusal::Memory);
    }
    Ok(())
}

/// Merges what a policy says of the last commit, if there is a policy, up to the first candidate of one segment. One
/// that can't be merged stays. `Memory` if memory ran out for one: it stays until a later commit, and the others are
/// merged.
pub fn merge_planned<R, S: Mergeable<R>>(
    rt: &R,
    alloc: Global,
    index: &mut S,
    policy: Option<MergePolicy>,
) -> Result<(), Refusal>
    requires floor { IfSome policy (λ p. p.floor ≤ most_merged) }
    requires most { IfSome policy (λ p. p.most ≤ most_merged) }
    ensures planned { MergesDue (candidates_after policy (S.left index.old)) (S.left index.old)
        (S.left index.new) (is_ok result) }
    ensures merges { Merges 1 (S.left index.old) (S.left index.new) }
    ensures keeps { S.keeps index.old index.new }
    ensures memory { IsOkUnless result Refusal.Memory }
{
    match policy {
        None => Ok(()),
        Some(policy) => merge_by(rt, alloc, index, &policy),
    }
}
