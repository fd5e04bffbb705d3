// A cursor over documents that are in memory.
ghost use Rattle.std.specs.Prelude.{◌≡◌, ◌+◌, ◌≤◌, IfOk, OnOk, ◌++◌, Contains, length, sum_by, ℕ};
ghost use Rattle.std.specs.List.{flat_map};
ghost use Rattle.std.specs.List.Sorted.{IsStrictlyIncreasing};
ghost use Rattle.fts_pack.specs.Documents.{block_count};
ghost use Rattle.fts_pack.specs.ListRange.{lists_in_range};
ghost use Rattle.fts_pack.specs.ListRef.{listed};
ghost use Rattle.fts_pack.specs.ListSource.{documents_in, openings_of};

use fts_pack::{Blocks, ListRange, ListRef, ListSource};
use fts_postings::DocSet;
use fts_postings::stretch::place_of;
use std::alloc::{AllocError, Global};
use std::marker::Model;

/// A cursor over documents that are in memory, rising.
#[derive(Drop)]
pub(crate) struct ListedCursor {
    documents: Vec<u32>,
    at: usize,
}

impl Model for ListedCursor {
    ghost use Rattle.std.specs.Prelude.{ℕ, List, drop};
    ghost use Rattle.std.specs.List.Sorted.{IsStrictlyIncreasing};

    ghost Value = { List ℕ };

    ghost view = { λ c. drop c.at c.documents.items };

    ghost invariant = { λ c. IsStrictlyIncreasing c.documents.items };
}

impl ListedCursor {
    /// Over the documents of some lists, and how many blocks were opened to read them: each block of each list.
    pub(crate) fn of_lists(
        alloc: Global,
        lists: ListRange<'_>,
    ) -> Result<(ListedCursor, u64), AllocError>
        ensures rises { IfOk result (λ made. IsStrictlyIncreasing made.0) }
        ensures sound { IfOk result (λ made. (d : ℕ) → Contains made.0 d
            → Contains (flat_map (λ list. list) (lists_in_range lists.entry)) d) }
        ensures whole { IfOk result (λ made. (d : ℕ) → Contains (flat_map (λ list. list) (lists_in_range lists.entry)) d
            → Contains made.0 d) }
        ensures opened { IfOk result (λ made. made.1 ≡ sum_by (λ list. block_count (length list))
            (lists_in_range lists.entry)) }
    {
        let (mut documents, opened) = joined(alloc, lists)?;
        documents.sort_unstable();
        documents.dedup();
        let cursor = ListedCursor { documents, at: 0 };
        Ok((cursor, opened as u64))
    }

    /// How many documents remain.
    pub(crate) fn cost(&self) -> usize
        ensures { length self.now ≤ result }
    {
        self.documents.len().saturating_sub(self.at)
    }
}

impl DocSet for ListedCursor {
    ghost remaining = { λ c. c };

    #[inline]
    fn doc(&self) -> Option<u32> {
        self.documents.get(self.at).copied()
    }

    #[inline]
    fn advance(&mut self) {
        if self.at >= self.documents.len() {
            return;
        }
        self.at += 1;
    }

    fn seek(&mut self, target: u32) {
        if self.at >= self.documents.len() {
            return;
        }
        self.at = place_of(&self.documents, self.at, self.documents.len(), target);
    }
}

/// The documents of lists, one list after the other, and how many blocks were opened to read them.
fn joined(alloc: Global, lists: ListRange<'_>) -> Result<(Vec<u32>, usize), AllocError>
    ensures documents { IfOk result (λ all. all.0.items ≡ flat_map (λ list. list) (lists_in_range lists.entry)) }
    ensures opened { IfOk result (λ all. all.1 ≡ sum_by (λ list. block_count (length list))
        (lists_in_range lists.entry)) }
{
    // No list is empty.
    let mut documents = Vec::with_capacity(alloc, lists.len())?;
    // Each block has a document, so they are no more than these.
    let mut opened = 0;
    for index in 0..lists.len() {
        opened += push_list(&mut documents, lists.get(index))?;
    }
    Ok((documents, opened))
}

/// Puts the documents of a list after others, and gives how many blocks it opened.
fn push_list(documents: &mut Vec<u32>, list: ListRef<'_>) -> Result<usize, AllocError>
    ensures documents { OnOk result (documents.new.items ≡ documents.old.items ++ listed list.entry) }
    ensures opened { IfOk result (λ opened. opened ≡ block_count (length (listed list.entry))) }
{
    let mut source = list.source();
    push_blocks(documents, &mut source)
}

/// Puts the documents of all blocks after others, and gives how many blocks these are. Each is opened once.
fn push_blocks(documents: &mut Vec<u32>, source: &mut ListSource) -> Result<usize, AllocError>
    ensures documents { OnOk result (documents.new.items ≡ documents.old.items ++ documents_in source.old) }
    ensures opened { IfOk result (λ opened. opened ≡ block_count (length (documents_in source.old))) }
    ensures counted { IfOk result (λ opened. openings_of source.new ≡ openings_of source.old + opened) }
{
    let mut numbers = [0; 128];
    let blocks = source.blocks();
    for block in 0..blocks {
        let count = source.open(block, &mut numbers);
        documents.extend_from_slice(&numbers[..count])?;
    }
    Ok(blocks)
}
