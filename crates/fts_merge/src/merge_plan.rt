// Chooses segments to merge by their sizes: a size is a number of live documents.
ghost use Rattle.std.specs.Prelude.{◌≡◌, ◌≤◌, ◌&&◌, ◌^◌, [], ◌∷◌, ◌++◌, All, IfOk, IsOk, IsOkUnless, OnOk, cond, map};
ghost use Rattle.std.specs.Prelude.{nat_eq};
ghost use Rattle.std.specs.Prelude.{not};
ghost use Rattle.std.specs.List.{list_any};
ghost use Rattle.fts_model.specs.Limits.{most_merged};
ghost use Rattle.fts_merge.specs.Levels.{considered, greatest_first, joins, levels_of, large_enough, candidates};
ghost use Rattle.fts_merge.specs.Levels.{together};
ghost use Rattle.fts_merge.specs.Levels.{alone, candidates_by, is_mostly_dead, is_named, live_sizes};

use crate::merge_policy::{MergePolicy, SegmentSize};
use fts_model::Refusal;
use std::alloc::{AllocError, Global};
use std::cmp::Reverse;

/// A size raised to the policy's floor, with its index among the given sizes.
#[derive(Clone, Copy)]
pub(crate) struct LevelSize {
    size: u32,
    index: usize,
}

/// Sizes up to the policy's maximum, raised to its floor, each with its index.
fn considered(
    alloc: Global,
    policy: MergePolicy,
    sizes: &[u32],
) -> Result<Vec<LevelSize>, AllocError>
    ensures { IfOk result (λ counted. counted.items ≡ considered policy sizes.now) }
{
    let mut counted = Vec::new(alloc);
    for (index, size) in sizes.iter().enumerate() {
        if *size <= policy.most {
            let size = policy.floor.max(*size);
            counted.push(LevelSize { size, index })?;
        }
    }
    Ok(counted)
}

/// The sizes in descending order, and equal ones by their indexes.
fn sorted(mut counted: Vec<LevelSize>) -> Vec<LevelSize>
    ensures { result.items ≡ greatest_first counted.items }
{
    counted.sort_unstable_by_key(|c| (Reverse(c.size), c.index));
    counted
}

/// The fourth power of a size.
fn fourth_power(size: u32) -> u128
    requires { size ≤ most_merged }
    ensures { result ≡ size ^ 4 }
{
    u128::from(size).pow(4)
}

/// Whether a size is in the level whose first size is `first`.
fn joins(first: u32, size: u32) -> bool
    requires first { first ≤ most_merged }
    requires size { size ≤ most_merged }
    ensures { result ≡ joins first size }
{
    fourth_power(first) <= 8 * fourth_power(size)
}

/// The indexes of sizes.
fn indexes(alloc: Global, level: &[LevelSize]) -> Result<Vec<usize>, AllocError>
    ensures { IfOk result (λ indexes. indexes.items ≡ map (λ c. c.index) level.now) }
{
    let mut indexes = Vec::with_capacity(alloc, level.len())?;
    for counted in level {
        indexes.push(counted.index)?;
    }
    Ok(indexes)
}

/// Appends the indexes of a level's sizes, if the level is large enough.
fn push_level(
    alloc: Global,
    members: usize,
    levels: &mut Vec<Vec<usize>>,
    level: &[LevelSize],
) -> Result<(), AllocError>
    ensures { OnOk result (map (λ c. c.items) levels.new.items
        ≡ map (λ c. c.items) levels.old.items ++ large_enough members (level.now ∷ [])) }
{
    if level.len() >= members {
        levels.push(indexes(alloc, level)?)?;
    }
    Ok(())
}

/// The levels of sorted sizes that are large enough.
fn large_levels(
    alloc: Global,
    members: usize,
    counted: &[LevelSize],
) -> Result<Vec<Vec<usize>>, AllocError>
    requires { All (λ c. c.size ≤ most_merged) counted.now }
    ensures { IfOk result (λ levels.
        map (λ c. c.items) levels.items ≡ large_enough members (levels_of counted.now)) }
{
    let mut levels = Vec::new(alloc);
    if counted.is_empty() {
        return Ok(levels);
    }
    let mut start = 0;
    let mut first = counted[0].size;
    for place in 1..counted.len() {
        let next = counted[place];
        if !joins(first, next.size) {
            push_level(alloc, members, &mut levels, &counted[start..place])?;
            start = place;
            first = next.size;
        }
    }
    push_level(alloc, members, &mut levels, &counted[start..])?;
    Ok(levels)
}

/// The candidates for levels of segments with these sizes.
fn together(
    alloc: Global,
    policy: MergePolicy,
    sizes: &[u32],
) -> Result<Vec<Vec<usize>>, AllocError>
    requires floor { policy.floor ≤ most_merged }
    requires most { policy.most ≤ most_merged }
    ensures { IfOk result (λ found. map (λ c. c.items) found.items ≡ together policy sizes.now) }
{
    let counted = sorted(considered(alloc, policy, sizes)?);
    large_levels(alloc, policy.members, &counted)
}

/// Whether an index is in a candidate.
fn is_named(found: &[Vec<usize>], index: usize) -> bool
    ensures { result ≡ list_any (λ candidate. list_any (λ named. nat_eq named index) candidate.items) found.now }
{
    found.iter().any(|candidate| candidate.contains(&index))
}

/// Whether more than this percentage of a segment's documents are deleted.
fn is_mostly_dead(percent: u32, segment: SegmentSize) -> bool
    ensures { result ≡ is_mostly_dead percent segment }
{
    let dead = segment.docs.saturating_sub(segment.live);
    u64::from(percent) * u64::from(segment.docs) < 100 * u64::from(dead)
}

/// Whether a segment is a candidate of its own.
fn is_alone(percent: u32, found: &[Vec<usize>], index: usize, segment: SegmentSize) -> bool
    ensures { result ≡ (is_mostly_dead percent segment && not (is_named (map (λ c. c.items) found.now) index)) }
{
    is_mostly_dead(percent, segment) && !is_named(found, index)
}

/// Appends an index as a candidate of its own.
fn push_alone(alloc: Global, alone: &mut Vec<Vec<usize>>, index: usize) -> Result<(), AllocError>
    ensures { OnOk result (map (λ c. c.items) alone.new.items
        ≡ map (λ c. c.items) alone.old.items ++ (index ∷ []) ∷ []) }
{
    let mut candidate = Vec::with_capacity(alloc, 1)?;
    candidate.push(index)?;
    alone.push(candidate)?;
    Ok(())
}

/// The candidates of a single segment, beside those that were found.
fn alone(
    alloc: Global,
    percent: u32,
    found: &[Vec<usize>],
    segments: &[SegmentSize],
) -> Result<Vec<Vec<usize>>, AllocError>
    ensures { IfOk result (λ more. map (λ c. c.items) more.items
        ≡ alone percent (map (λ c. c.items) found.now) segments.now) }
{
    let mut alone = Vec::new(alloc);
    for (index, segment) in segments.iter().enumerate() {
        if is_alone(percent, found, index, *segment) {
            push_alone(alloc, &mut alone, index)?;
        }
    }
    Ok(alone)
}

/// The number of live documents of each segment.
fn live_sizes(alloc: Global, segments: &[SegmentSize]) -> Result<Vec<u32>, AllocError>
    ensures { IfOk result (λ sizes. sizes.items ≡ live_sizes segments.now) }
{
    let mut sizes = Vec::with_capacity(alloc, segments.len())?;
    for segment in segments {
        sizes.push(segment.live)?;
    }
    Ok(sizes)
}

/// The candidates of a policy for segments of these sizes, each as the indexes of its segments.
///
/// First the levels that are large enough, as in `plan`; then each segment with more than the policy's share of deleted
/// documents, unless its level is merged.
pub fn plan_by(
    alloc: Global,
    policy: &MergePolicy,
    segments: &[SegmentSize],
) -> Result<Vec<Vec<usize>>, Refusal>
    requires floor { policy.now.floor ≤ most_merged }
    requires most { policy.now.most ≤ most_merged }
    ensures candidates { IfOk result (λ found.
        map (λ c. c.items) found.items ≡ candidates_by policy.now segments.now) }
    ensures memory { IsOkUnless result Refusal.Memory }
{
    let sizes = live_sizes(alloc, segments)?;
    let mut found = together(alloc, *policy, &sizes)?;
    let mut more = alone(alloc, policy.dead, &found, segments)?;
    found.append(&mut more)?;
    Ok(found)
}

/// The candidates for segments of these sizes, each as the indexes of its segments.
///
/// Sizes over 1,000,000 are left out, and those below 10,000 count as 10,000. The sizes are sorted in descending order,
/// and equal ones by their indexes. The first size begins a level. A size is in the current level if its logarithm to
/// base 2 is at most 0.75 less than that of the level's first, and otherwise begins another. A level of at least 8
/// sizes is a candidate.
///
/// An empty list takes no memory.
pub fn plan(alloc: Global, sizes: &[u32]) -> Result<Vec<Vec<usize>>, Refusal>
    ensures candidates { IfOk result (λ found.
        map (λ c. c.items) found.items ≡ candidates sizes.now) }
    ensures memory { IsOkUnless result Refusal.Memory }
    ensures none { sizes.now ≡ [] → IsOk result }
{
    if sizes.is_empty() {
        return Ok(Vec::new(alloc));
    }
    Ok(together(alloc, MergePolicy::usual(), sizes)?)
}
