// The top lists of several parts as one.
ghost use Rattle.std.specs.Prelude.{◌≡◌, ◌≤◌, ◌+◌, ◌++◌, [], IfOk, OnOk, length, vec_capacity, vec_len};
ghost use Rattle.fts_parts.specs.Internals.Joins.{AreApart, all_hits, first_of, hits_in};

use crate::order::rank;
use crate::part::Part;
use fts_model::{Hit, Top};
use std::alloc::{AllocError, Global};

/// Keeps the first hits of a top list, in their order.
fn keep_first(wanted: Top, list: &mut Vec<Hit>)
    ensures { AreApart list.old.items →
        list.new.items ≡ first_of wanted.k wanted.order list.old.items }
{
    list.sort_unstable_by(|a, b| rank(wanted.order, a, b));
    list.truncate(wanted.k as usize);
}

/// How many hits are in the top list of a part.
fn length_of(part: &Part) -> usize
    ensures { result ≡ length (hits_in part.now) }
{
    match &part.top {
        None => 0,
        Some(hits) => hits.len(),
    }
}

/// An empty list with capacity for the top lists of all parts.
pub(crate) fn room_for_hits(alloc: Global, parts: &[Part]) -> Result<Vec<Hit>, AllocError>
    ensures none { IfOk result (λ list. list.items ≡ []) }
    ensures room { IfOk result (λ list. length (all_hits parts.now) ≤ vec_capacity list) }
{
    let mut count = 0usize;
    for part in parts {
        count = count.checked_add(length_of(part)).ok_or(AllocError)?;
    }
    Vec::with_capacity(alloc, count)
}

/// Moves the top list of a part to the end of `list`, whose capacity suffices.
fn move_hits(list: &mut Vec<Hit>, part: Part)
    requires { vec_len list.old + length (hits_in part) ≤ vec_capacity list.old }
    ensures items { list.new.items ≡ list.old.items ++ hits_in part }
    ensures len { vec_len list.new ≡ vec_len list.old + length (hits_in part) }
    ensures room { vec_capacity list.old ≤ vec_capacity list.new }
{
    let Part { top, .. } = part;
    if let Some(mut hits) = top {
        let _ = list.append(&mut hits);
    }
}

/// The top list of all parts, in the list that was allocated for it.
pub(crate) fn joined_top(wanted: Top, parts: Vec<Part>, room: Vec<Hit>) -> Vec<Hit>
    requires none { room.items ≡ [] }
    requires room { length (all_hits parts.items) ≤ vec_capacity room }
    ensures { AreApart (all_hits parts.items) →
        result.items ≡ first_of wanted.k wanted.order (all_hits parts.items) }
{
    let mut parts = parts;
    let mut list = room;
    while let Some(part) = parts.pop() {
        move_hits(&mut list, part);
    }
    keep_first(wanted, &mut list);
    list
}
