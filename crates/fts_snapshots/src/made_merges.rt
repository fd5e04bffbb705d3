// Merges of candidates whose segments were made side by side.
ghost use Rattle.std.specs.Prelude.{◌≡◌, ◌≤◌, ◌∷◌, [], IfOk, OnOk, OnErr, IsOkUnless, length, map};
ghost use Rattle.fts_snapshots.specs.Candidates.{MergesAllBut, after_candidate, due};
ghost use Rattle.fts_snapshots.specs.Changes.{Merges};
ghost use Rattle.fts_snapshots.specs.MadeMerges.{AreApart, AreMadeFor, IsMadeFor};

use crate::mergeable::{Mergeable, try_candidate};
use crate::merges::MergedSegment;
use fts_model::Refusal;
use std::alloc::Global;

/// A [`Mergeable`] in which a merge can end whose segment was made before, by any thread.
pub trait LateMergeable<R>: Mergeable<R> {
    ghost use Rattle.std.specs.Prelude.{◌≡◌, OnOk, OnErr};
    ghost use Rattle.fts_base.specs.Results.{Gives, ok_unless};
    ghost use Rattle.fts_snapshots.specs.LateMerges.{after_end, end_fault};
    ghost use Rattle.fts_snapshots.specs.Snapshots.{content_of};
    ghost use Rattle.fts_snapshots.specs.Successors.{Fits};

    /// Puts a merged segment in the place of its sources, as [`Snapshot::end_merge`](crate::Snapshot::end_merge) does.
    /// A refusal leaves everything as it was.
    fn replace_sources(
        &mut self,
        rt: &R,
        alloc: Global,
        merged: &MergedSegment,
    ) -> Result<(), Refusal>
        requires fits { Fits merged.now (Self.left self.old) }
        ensures snapshot { Gives (λ done. Self.left self.new) result
            (ok_unless (end_fault (Self.left self.old).next_id merged.now (Self.left self.old).entries)
            (after_end merged.now (Self.left self.old))) }
        ensures content { OnOk result (content_of (Self.left self.new) ≡ content_of (Self.left self.old)) }
        ensures keeps { Self.keeps self.old self.new }
        ensures same { OnErr result (self.new ≡ self.old) };
}

/// Puts the segment that was made for a candidate in the place of its sources. If numbers are used up, they are
/// unchanged.
fn end_candidate<R, S: LateMergeable<R>>(
    rt: &R,
    alloc: Global,
    index: &mut S,
    merged: &MergedSegment,
) -> Result<(), Refusal>
    requires { IsMadeFor merged.now.ids (S.left index.old) merged.now }
    ensures merged { OnOk result (S.left index.new ≡ after_candidate merged.now.ids (S.left index.old)) }
    ensures same { OnErr result (index.new ≡ index.old) }
    ensures several { 2 ≤ length merged.now.ids → Merges 0 (S.left index.old) (S.left index.new) }
    ensures merges { Merges 1 (S.left index.old) (S.left index.new) }
    ensures keeps { S.keeps index.old index.new }
    ensures memory { IsOkUnless result Refusal.Memory }
{
    match index.replace_sources(rt, alloc, merged) {
        Ok(()) => Ok(()),
        Err(Refusal::Memory) => Err(Refusal::Memory),
        Err(_) => Ok(()),
    }
}

/// Ends the merge of a candidate whose segment was made. If it was refused, the candidate is merged now: there may be
/// memory for it while no other segment is made. Returns the number of candidates for which memory ran out: 1 or 0.
fn end_or_merge<R, S: LateMergeable<R>>(
    rt: &R,
    alloc: Global,
    index: &mut S,
    ids: &[u64],
    made: &Result<MergedSegment, Refusal>,
) -> usize
    requires { IfOk made.now (IsMadeFor ids.now (S.left index.old)) }
    ensures merged { MergesAllBut result (ids.now ∷ []) (S.left index.old) (S.left index.new) }
    ensures few { result ≤ 1 }
    ensures several { 2 ≤ length ids.now → Merges 0 (S.left index.old) (S.left index.new) }
    ensures merges { Merges 1 (S.left index.old) (S.left index.new) }
    ensures keeps { S.keeps index.old index.new }
{
    match made {
        Ok(merged) => match end_candidate(rt, alloc, index, merged) {
            Ok(()) => 0,
            Err(_) => 1,
        },
        Err(_) => try_candidate(rt, alloc, index, ids),
    }
}

/// Ends the merges of candidates in order, up to the first of one segment. Their segments were made in the last commit,
/// one for each candidate that is due; one that was refused is made now. Candidates for which memory runs out are
/// skipped and counted.
pub fn end_due<R, S: LateMergeable<R>>(
    rt: &R,
    alloc: Global,
    index: &mut S,
    candidates: &[Vec<u64>],
    made: &[Result<MergedSegment, Refusal>],
) -> usize
    requires apart { AreApart (map (λ ids. ids.items) candidates.now) }
    requires made { AreMadeFor (due (map (λ ids. ids.items) candidates.now)) (S.left index.old) made.now }
    ensures due { MergesAllBut result (due (map (λ ids. ids.items) candidates.now)) (S.left index.old)
        (S.left index.new) }
    ensures merges { Merges 1 (S.left index.old) (S.left index.new) }
    ensures keeps { S.keeps index.old index.new }
{
    let mut refused = 0;
    for number in 0..candidates.len() {
        let ids = &candidates[number];
        refused += end_or_merge(rt, alloc, index, ids, &made[number]);
        if ids.len() < 2 {
            return refused;
        }
    }
    refused
}
