// The segments that a merge starts with.
ghost use Rattle.std.specs.Prelude.{◌≡◌, ◌⊎◌, ◌++◌, ◌∷◌, [], ℕ, List, Some, Err, IfOk, OnOk, MatchResult, nat_eq};
ghost use Rattle.std.specs.HashSet.{contains};
ghost use Rattle.fts_base.specs.Results.{Gives, ok_unless};
ghost use Rattle.fts_snapshots.specs.Snapshots.{IdsRise};
ghost use Rattle.fts_snapshots.specs.Merges.{entry_at, entries_at, fault_behind, names_fault};
ghost use Rattle.fts_snapshots.specs.Lookups.{TellsOf};

use crate::entries::{Entry, EntryList, Lookup};
use fts_model::Refusal;
use std::alloc::Global;
use std::collections::HashSet;

/// The segment of this number, which is added to the numbers so far. It is refused if no segment has the number, or if
/// it is one of them.
fn named(lookup: &Lookup<'_>, names: &mut HashSet<u64>, id: u64) -> Result<Entry, Refusal>
    ensures names { (before : List ℕ) → TellsOf (contains nat_eq names.old) before →
        OnOk result (TellsOf (contains nat_eq names.new) (before ++ id ∷ [])) }
    ensures entry { IfOk result (λ entry. entry_at lookup.now id ≡ entry ∷ []) }
    ensures fault { (before ids : List ℕ) → TellsOf (contains nat_eq names.old) before →
        MatchResult result
        (λ _. fault_behind lookup.now before (id ∷ ids) ≡ fault_behind lookup.now (before ++ id ∷ []) ids)
        (λ e. (e ≡ Refusal.Memory) ⊎ (fault_behind lookup.now before (id ∷ ids) ≡ Some e)) }
{
    let Some(entry) = lookup.get(id) else {
        return Err(Refusal::UnknownSegment(id));
    };
    if !names.insert(id)? {
        return Err(Refusal::SegmentTwice(id));
    }
    Ok(entry.clone()?)
}

/// The segments of these numbers, in the order of the numbers. It is refused if there is no number, or by the first
/// number that no segment has or that comes twice. The segments are copied only if there is a number.
pub(crate) fn named_entries(
    alloc: Global,
    entries: &EntryList,
    ids: &[u64],
) -> Result<Vec<Entry>, Refusal>
    requires { IdsRise entries.now }
    ensures found { Gives (λ found. found.items) result
        (ok_unless (names_fault entries.now ids.now) (entries_at entries.now ids.now)) }
    ensures empty { ids.now ≡ [] → result ≡ Err Refusal.NoSegments }
{
    if ids.is_empty() {
        return Err(Refusal::NoSegments);
    }
    let all = entries.to_vec(alloc)?;
    let lookup = Lookup::new(alloc, &all)?;
    let mut names = HashSet::new(alloc);
    let mut found = Vec::with_capacity(alloc, ids.len())?;
    for id in ids {
        found.push(named(&lookup, &mut names, *id)?)?;
    }
    Ok(found)
}
