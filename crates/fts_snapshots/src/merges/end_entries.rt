// The parts of the end of a merge: whether it can end, and which documents of its segment are live by then.
ghost use Rattle.std.specs.Prelude.{◌≡◌, ◌≤◌, ◌^◌, ◌==◌, ℕ, IfOk, OnOk, IsOkUnless, map, nat_eq, length};
ghost use Rattle.std.specs.List.{list_any, flat_map};
ghost use Rattle.std.specs.HashSet.{contains};
ghost use Rattle.std.specs.Option.{option_map};
ghost use Rattle.fts_base.specs.Results.{Gives, ok_unless};
ghost use Rattle.fts_snapshots.specs.Entries.{live_in};
ghost use Rattle.fts_snapshots.specs.Snapshots.{IdsRise};
ghost use Rattle.fts_snapshots.specs.Merges.{is_among, is_there, without};
ghost use Rattle.fts_snapshots.specs.MergedSegments.{IsMergedSegment};
ghost use Rattle.fts_snapshots.specs.Lookups.{place_in, TellsOf};
ghost use Rattle.fts_snapshots.specs.LateMerges.{ended, replaced, first_gone, stamps_left};
ghost use Rattle.fts_snapshots.specs.LateMerges.{is_gone, gone_fault, end_fault};

use crate::commits::push_live;
use crate::entries::{Entry, Lookup, are_used_up, places};
use crate::merges::merged_segment::MergedSegment;
use fts_model::Refusal;
use fts_pack::bits::Bits;
use std::alloc::{AllocError, Global};
use std::collections::HashSet;

/// The first of these numbers that no segment has.
fn first_gone(lookup: &Lookup<'_>, ids: &[u64]) -> Option<u64>
    ensures { result ≡ first_gone lookup.now ids.now }
{
    for id in ids {
        if !lookup.is_there(*id) {
            return Some(*id);
        }
    }
    None
}

/// Whether a segment has one of these numbers.
fn is_any_there(lookup: &Lookup<'_>, ids: &[u64]) -> bool
    ensures { result ≡ list_any (is_there lookup.now) ids.now }
{
    ids.iter().any(|id| lookup.is_there(*id))
}

/// The stamps of documents whose source segment is gone.
fn stamps_left(
    alloc: Global,
    lookup: &Lookup<'_>,
    places: &[Option<usize>],
    segment: &MergedSegment,
) -> Result<HashSet<u64>, AllocError>
    requires { places.now ≡ map (place_in lookup.now) segment.now.ids }
    ensures { IfOk result (λ stamps.
        TellsOf (contains nat_eq stamps) (stamps_left segment.now lookup.now)) }
{
    let merged = segment.merged();
    let origins = merged.origins();
    let documents = merged.segment();
    let mut stamps = HashSet::new(alloc);
    for document in 0..origins.len() {
        let source = origins[document].source;
        if places[source].is_none() {
            stamps.insert(documents.stamp(document))?;
        }
    }
    Ok(stamps)
}

/// Whether a live document of a segment has one of these stamps.
fn has_one(entry: &Entry, stamps: &HashSet<u64>) -> bool
    ensures { result ≡ list_any (λ d. contains nat_eq stamps.now d.stamp) (live_in entry.now) }
{
    let segment = entry.segment();
    let live = entry.live();
    for document in 0..segment.docs() {
        if live.get(document) && stamps.contains(&segment.stamp(document)) {
            return true;
        }
    }
    false
}

/// Whether a live document of some segment has one of these stamps.
fn is_some_live(entries: &[Entry], stamps: &HashSet<u64>) -> bool
    ensures { result ≡ list_any (λ d. contains nat_eq stamps.now d.stamp)
        (flat_map live_in entries.now) }
{
    for entry in entries {
        if has_one(entry, stamps) {
            return true;
        }
    }
    false
}

/// The first missing source, if the merge can't end because of it.
fn gone(
    alloc: Global,
    lookup: &Lookup<'_>,
    places: &[Option<usize>],
    segment: &MergedSegment,
) -> Result<Option<u64>, AllocError>
    requires { places.now ≡ map (place_in lookup.now) segment.now.ids }
    ensures { IfOk result (λ gone.
        option_map Refusal.SourceGone gone ≡ gone_fault segment.now lookup.now) }
{
    let Some(first) = first_gone(lookup, segment.sources()) else {
        return Ok(None);
    };
    if !is_any_there(lookup, segment.sources()) {
        return Ok(Some(first));
    }
    let stamps = stamps_left(alloc, lookup, places, segment)?;
    if is_some_live(lookup.entries(), &stamps) {
        return Ok(Some(first));
    }
    Ok(None)
}

/// The live bits of the merged segment, from those that its sources have now. The sources are at these indexes.
fn live_bits(
    alloc: Global,
    lookup: &Lookup<'_>,
    places: &[Option<usize>],
    segment: &MergedSegment,
) -> Result<Bits, Refusal>
    requires { places.now ≡ map (place_in lookup.now) segment.now.ids }
    ensures ok { IfOk result (λ live. live ≡ (ended 0 segment.now lookup.now).live) }
    ensures memory { IsOkUnless result Refusal.Memory }
{
    let origins = segment.merged().origins();
    let mut live = Bits::all_clear(alloc, origins.len())?;
    for document in 0..origins.len() {
        let origin = origins[document];
        if lookup.is_live(places[origin.source], origin.document) {
            live.set(document);
        }
    }
    Ok(live)
}

/// The merged segment under this number, with the live bits that its sources have now.
fn ended(
    alloc: Global,
    next: u64,
    lookup: &Lookup<'_>,
    segment: &MergedSegment,
) -> Result<Entry, Refusal>
    requires next { next ≤ 2 ^ 62 }
    ensures { Gives (λ entry. entry) result
        (ok_unless (end_fault next segment.now lookup.now) (ended next segment.now lookup.now)) }
{
    let places = places(alloc, lookup, segment.sources())?;
    if let Some(id) = gone(alloc, lookup, &places, segment)? {
        return Err(Refusal::SourceGone(id));
    }
    if are_used_up(next, 1) {
        return Err(Refusal::StampsUsedUp);
    }
    let live = live_bits(alloc, lookup, &places, segment)?;
    let documents = segment.merged().segment().clone()?;
    let entry = Entry::new(alloc, next, documents, live)?;
    Ok(entry)
}

/// A set of these numbers.
fn set_of(alloc: Global, ids: &[u64]) -> Result<HashSet<u64>, AllocError>
    ensures { IfOk result (λ set. TellsOf (contains nat_eq set) ids.now) }
{
    let mut set = HashSet::new(alloc);
    for id in ids {
        set.insert(*id)?;
    }
    Ok(set)
}

/// The segments with other numbers.
fn others(alloc: Global, entries: &[Entry], ids: &[u64]) -> Result<Vec<Entry>, AllocError>
    ensures { IfOk result (λ others. others.items ≡ without entries.now ids.now) }
{
    let set = set_of(alloc, ids)?;
    let mut others = Vec::new(alloc);
    for entry in entries {
        if !set.contains(&entry.id()) {
            others.push(entry.clone()?)?;
        }
    }
    Ok(others)
}

/// The segments in which a merged one replaces its sources, if it has a live document.
pub(crate) fn end_entries(
    alloc: Global,
    entries: &[Entry],
    segment: &MergedSegment,
    next: u64,
) -> Result<Vec<Entry>, Refusal>
    requires next { next ≤ 2 ^ 62 }
    requires rising { IdsRise entries.now }
    ensures entries { Gives (λ new. new.items) result
        (ok_unless (end_fault next segment.now entries.now) (replaced next segment.now entries.now)) }
    ensures each { OnOk result (IsMergedSegment segment.now) }
{
    let lookup = Lookup::new(alloc, entries)?;
    let entry = match ended(alloc, next, &lookup, segment) {
        Ok(entry) => entry,
        Err(refusal) => return Err(refusal),
    };
    let mut new = others(alloc, entries, segment.sources())?;
    push_live(&mut new, entry)?;
    Ok(new)
}
