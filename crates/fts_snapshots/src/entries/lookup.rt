// A binary search for the segments of a snapshot by their numbers.
ghost use Rattle.std.specs.Prelude.{◌≡◌, ◌∷◌, [], IfOk, MatchOption, map};
ghost use Rattle.fts_snapshots.specs.Snapshots.{IdsRise};
ghost use Rattle.fts_snapshots.specs.MergedSegments.{ids_of};
ghost use Rattle.fts_snapshots.specs.Merges.{is_there, entry_at};
ghost use Rattle.fts_snapshots.specs.Lookups.{place_in, is_live_there};

use crate::entries::entry::Entry;
use std::alloc::{AllocError, Global};
use std::marker::Model;

/// Segments by rising numbers, with a separate list of the numbers. Contracts see the segments.
#[derive(Drop)]
pub(crate) struct Lookup<'a> {
    entries: &'a [Entry],
    numbers: Vec<u64>,
}

impl<'a> Model for Lookup<'a> {
    ghost use Rattle.std.specs.Prelude.{◌≡◌, List};
    ghost use Rattle.fts_snapshots.specs.Entries.{EntryValue};
    ghost use Rattle.fts_snapshots.specs.Snapshots.{IdsRise};
    ghost use Rattle.fts_snapshots.specs.MergedSegments.{ids_of};

    ghost Value = { List EntryValue };

    ghost view = { λ l. l.entries.now };

    ghost invariant = { λ l. (l.numbers.items ≡ ids_of l.entries.now) × IdsRise l.entries.now };
}

impl<'a> Lookup<'a> {
    /// Makes a look-up of these segments.
    pub(crate) fn new(alloc: Global, entries: &'a [Entry]) -> Result<Lookup<'a>, AllocError>
        requires { IdsRise entries.now }
        ensures { IfOk result (λ lookup. lookup ≡ entries.now) }
    {
        let numbers = ids_of_entries(alloc, entries)?;
        Ok(Lookup { entries, numbers })
    }

    /// The segments.
    pub(crate) fn entries(&self) -> &'a [Entry]
        ensures { result.now ≡ self.now }
    {
        self.entries
    }

    /// The index of the segment of this number, if there is one.
    pub(crate) fn place_in(&self, id: u64) -> Option<usize>
        ensures { result ≡ place_in self.now id }
    {
        match self.numbers.binary_search(&id) {
            Ok(place) => Some(place),
            Err(_) => None,
        }
    }

    /// The segment of this number, if there is one.
    pub(crate) fn get(&self, id: u64) -> Option<&'a Entry>
        ensures { MatchOption result (entry_at self.now id ≡ [])
            (λ entry. entry_at self.now id ≡ entry.now ∷ []) }
    {
        let Some(place) = self.place_in(id) else {
            return None;
        };
        self.entries.get(place)
    }

    /// Whether there is a segment of this number.
    pub(crate) fn is_there(&self, id: u64) -> bool
        ensures { result ≡ is_there self.now id }
    {
        self.place_in(id).is_some()
    }

    /// Whether a document of the segment at an index is live.
    pub(crate) fn is_live(&self, place: Option<usize>, document: usize) -> bool
        ensures { result ≡ is_live_there self.now place document }
    {
        let Some(place) = place else {
            return false;
        };
        match self.entries.get(place) {
            Some(entry) => entry.is_live(document),
            None => false,
        }
    }
}

/// The numbers of segments.
pub(crate) fn ids_of_entries(alloc: Global, entries: &[Entry]) -> Result<Vec<u64>, AllocError>
    ensures { IfOk result (λ numbers. numbers.items ≡ ids_of entries.now) }
{
    let mut numbers = Vec::with_capacity(alloc, entries.len())?;
    for entry in entries {
        numbers.push(entry.id())?;
    }
    Ok(numbers)
}

/// The indexes of the segments of these numbers.
pub(crate) fn places(
    alloc: Global,
    lookup: &Lookup<'_>,
    ids: &[u64],
) -> Result<Vec<Option<usize>>, AllocError>
    ensures { IfOk result (λ places. places.items ≡ map (place_in lookup.now) ids.now) }
{
    let mut places = Vec::with_capacity(alloc, ids.len())?;
    for id in ids {
        places.push(lookup.place_in(*id))?;
    }
    Ok(places)
}
