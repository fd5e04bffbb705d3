// New numbers for the live documents of a segment.
ghost use Rattle.std.specs.Prelude.{◌≡◌, ◌+◌, ◌<◌, ◌^◌, ◌++◌, ◌∷◌, [], true, count_by, IfOk, IfSome, OnOk, Some, None};
ghost use Rattle.std.specs.Prelude.{if◌then◌else◌, slice_get};
ghost use Rattle.fts_segment.specs.Parts.{AreInARow, number_in, renumbered};

use fts_base::release;
use fts_pack::bits::Bits;
use std::alloc::{AllocError, Global};
use std::marker::Model;

/// Maps a source's document numbers to the merged segment's; a deleted document maps to none. Contracts see the list of
/// new numbers.
pub(crate) struct DocMap {
    numbers: Vec<Option<u32>>,
    /// The first new number, if every document is live: then the new numbers are consecutive.
    first: Option<u32>,
}

impl Model for DocMap {
    ghost use Rattle.std.specs.Prelude.{IfSome, List, Option, ℕ};
    ghost use Rattle.fts_segment.specs.Parts.{AreInARow};

    ghost Value = { List (Option ℕ) };

    ghost view = { λ n. n.numbers.items };

    ghost invariant = { λ n. IfSome n.first (AreInARow n.numbers.items) };
}

impl Drop for DocMap {
    fn drop(self) {
        let DocMap { numbers, first: _ } = self;
        release(numbers);
    }
}

impl DocMap {
    /// Numbers the live documents from `first`.
    pub(crate) fn new(alloc: Global, first: u32, live: &Bits) -> Result<DocMap, AllocError>
        requires { first + count_by (λ bit. bit) live.now < 2 ^ 32 }
        ensures { IfOk result (λ numbers. numbers ≡ renumbered first live.now) }
    {
        let numbers = renumber(alloc, first, live)?;
        let first = first_in_a_row(first, live);
        Ok(DocMap { numbers, first })
    }

    /// The new number of a document, if it has one.
    pub(crate) fn get(&self, doc: u32) -> Option<u32>
        ensures { result ≡ number_in (slice_get self.now doc) }
    {
        match self.numbers.get(doc as usize) {
            Some(Some(number)) => Some(*number),
            Some(None) | None => None,
        }
    }

    /// The first new number, if every document is live.
    pub(crate) fn first(&self) -> Option<u32>
        ensures { IfSome result (AreInARow self.now) }
    {
        self.first
    }
}

/// The first new number, if all bits are set.
fn first_in_a_row(first: u32, live: &Bits) -> Option<u32>
    requires { first + count_by (λ bit. bit) live.now < 2 ^ 32 }
    ensures { IfSome result (AreInARow (renumbered first live.now)) }
{
    if live.is_all_set() { Some(first) } else { None }
}

/// The new number of each document: live ones are numbered from `first`, and a deleted one has none.
fn renumber(alloc: Global, first: u32, live: &Bits) -> Result<Vec<Option<u32>>, AllocError>
    requires { first + count_by (λ bit. bit) live.now < 2 ^ 32 }
    ensures { IfOk result (λ numbers. numbers.items ≡ renumbered first live.now) }
{
    let mut numbers = Vec::with_capacity(alloc, live.len())?;
    let mut next = first;
    for document in 0..live.len() {
        next = push_number(&mut numbers, next, live.get(document))?;
    }
    Ok(numbers)
}

/// Appends the number of one more document, and returns the next number.
fn push_number(numbers: &mut Vec<Option<u32>>, next: u32, live: bool) -> Result<u32, AllocError>
    requires { live ≡ true → next + 1 < 2 ^ 32 }
    ensures numbers { OnOk result (numbers.new.items
        ≡ numbers.old.items ++ (if live then Some next else None) ∷ []) }
    ensures next { IfOk result (λ n. n ≡ (if live then next + 1 else next)) }
{
    if live {
        numbers.push(Some(next))?;
        Ok(next + 1)
    } else {
        numbers.push(None)?;
        Ok(next)
    }
}
