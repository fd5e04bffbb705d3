// The segments of a snapshot, in runs that several snapshots share.
ghost use Rattle.std.specs.Prelude.{◌≡◌, ◌≤◌, ◌++◌, IfOk, length};
ghost use Rattle.fts_snapshots.specs.EntryLists.{entries_ahead, entries_of};

use crate::entries::entry::Entry;
use std::alloc::{AllocError, Global};
use std::marker::Model;
use std::sync::Arc;

/// The segments of a snapshot, by rising numbers. Contracts see the list of them.
///
/// The list consists of runs of segments, which later lists share. A run has more segments than all runs after it
/// together, so there are few runs, and a segment is copied O(log n) times while n segments are appended.
#[derive(Drop)]
pub struct EntryList {
    runs: Vec<Arc<Vec<Entry>>>,
    len: usize,
}

impl Model for EntryList {
    ghost use Rattle.std.specs.Prelude.{◌≡◌, List, length};
    ghost use Rattle.fts_snapshots.specs.Entries.{EntryValue};
    ghost use Rattle.fts_snapshots.specs.EntryLists.{entries_of};

    ghost Value = { List EntryValue };

    ghost view = { λ l. entries_of l.runs.items };

    ghost invariant = { λ l. l.len ≡ length (entries_of l.runs.items) };
}

impl EntryList {
    ghost use Rattle.std.specs.Prelude.{◌≡◌, ◌+◌, ◌<◌, ◌^◌, ◌++◌, ◌↔◌, [], IfOk, IsTrue, length};
    ghost use Rattle.fts_snapshots.specs.EntryLists.{entries_ahead};

    /// An empty list.
    pub(crate) fn new(alloc: Global) -> EntryList
        ensures { result ≡ [] }
    {
        EntryList {
            runs: Vec::new(alloc),
            len: 0,
        }
    }

    /// The number of segments.
    pub fn len(&self) -> usize
        ensures { result ≡ length self.now }
    {
        self.len
    }

    /// Whether there is no segment.
    pub fn is_empty(&self) -> bool
        ensures { IsTrue result ↔ (self.now ≡ []) }
    {
        self.len() == 0
    }

    /// Iterates over the segments.
    pub fn iter(&self) -> EntryIter<'_>
        ensures { entries_ahead result ≡ self.now }
    {
        EntryIter::of(&self.runs)
    }

    /// The segments as a vector of handles.
    pub(crate) fn to_vec(&self, alloc: Global) -> Result<Vec<Entry>, AllocError>
        ensures { IfOk result (λ entries. entries.items ≡ self.now) }
    {
        joined(alloc, self.iter(), Vec::new(alloc))
    }

    /// This list with more segments appended. Runs that aren't longer than the segments after them are merged into one.
    pub(crate) fn with_more(&self, alloc: Global, more: Vec<Entry>) -> Result<EntryList, AllocError>
        requires { length self.now + length more.items < 2 ^ 64 }
        ensures { IfOk result (λ list. list ≡ self.now ++ more.items) }
    {
        let len = self.len + more.len();
        let runs = runs_with(alloc, &self.runs, more)?;
        Ok(EntryList { runs, len })
    }
}

/// An iterator over the segments of a list.
#[derive(Drop)]
pub struct EntryIter<'a> {
    run: &'a [Entry],
    runs: &'a [Arc<Vec<Entry>>],
}

impl<'a> EntryIter<'a> {
    ghost use Rattle.std.specs.Prelude.{◌≡◌, []};
    ghost use Rattle.fts_snapshots.specs.EntryLists.{entries_ahead, entries_of};

    /// Iterates over the segments of these runs.
    fn of(runs: &'a [Arc<Vec<Entry>>]) -> EntryIter<'a>
        ensures { entries_ahead result ≡ entries_of runs.entry.now }
    {
        EntryIter { run: &[], runs }
    }

    /// An iterator without a segment.
    pub(crate) fn none() -> EntryIter<'a>
        ensures { entries_ahead result ≡ [] }
    {
        EntryIter {
            run: &[],
            runs: &[],
        }
    }
}

impl<'a> Iterator for EntryIter<'a> {
    ghost use Rattle.std.specs.Iterator.{YieldsFirstRef, item_count};
    ghost use Rattle.fts_snapshots.specs.EntryLists.{entries_ahead};

    type Item = &'a Entry;

    ghost next_gives = { YieldsFirstRef entries_ahead };

    ghost remaining = { item_count entries_ahead };

    fn next(&mut self) -> Option<&'a Entry> {
        while self.run.is_empty() {
            let (run, runs) = self.runs.split_first()?;
            self.run = run;
            self.runs = runs;
        }
        let (entry, run) = self.run.split_first()?;
        self.run = run;
        Some(entry)
    }
}

/// Handles on the segments of some runs, with more segments appended.
fn joined(
    alloc: Global,
    entries: EntryIter<'_>,
    mut more: Vec<Entry>,
) -> Result<Vec<Entry>, AllocError>
    ensures { IfOk result (λ all. all.items ≡ entries_ahead entries.entry ++ more.items) }
{
    let mut all = Vec::new(alloc);
    for entry in entries {
        all.push(entry.clone()?)?;
    }
    all.append(&mut more)?;
    Ok(all)
}

/// The number of runs that are unchanged if `more` segments are appended. The other runs aren't longer than the
/// segments after them.
fn runs_kept(runs: &[Arc<Vec<Entry>>], more: usize) -> usize
    ensures { result ≤ length runs.now }
{
    let mut after = more;
    for i in (0..runs.len()).rev() {
        let run = runs[i].len();
        if run > after {
            return i + 1;
        }
        after = after.saturating_add(run);
    }
    0
}

/// Handles on runs.
fn shared(alloc: Global, runs: &[Arc<Vec<Entry>>]) -> Result<Vec<Arc<Vec<Entry>>>, AllocError>
    ensures { IfOk result (λ copy. entries_of copy.items ≡ entries_of runs.now) }
{
    let mut copy = Vec::with_capacity(alloc, runs.len() + 1)?;
    for run in runs {
        copy.push(Arc::try_clone(run)?)?;
    }
    Ok(copy)
}

/// The runs of a list with more segments appended.
fn runs_with(
    alloc: Global,
    runs: &[Arc<Vec<Entry>>],
    more: Vec<Entry>,
) -> Result<Vec<Arc<Vec<Entry>>>, AllocError>
    ensures { IfOk result (λ all. entries_of all.items ≡ entries_of runs.now ++ more.items) }
{
    let kept = runs_kept(runs, more.len());
    let mut all = shared(alloc, &runs[..kept])?;
    let last = joined(alloc, EntryIter::of(&runs[kept..]), more)?;
    all.push(Arc::new(alloc, last)?)?;
    Ok(all)
}
