// The cursor of a list that leads others: by words if all have bits, and cut by the bits of those that have some.
ghost use Rattle.std.specs.Prelude.{◌≡◌, ℕ, ◌^◌, ◌<◌, ◌≤◌, All, IfOk, [], length, map};
ghost use Rattle.fts_sets.specs.Leaves.{in_each};
ghost use Rattle.std.specs.List.{AllZip};
ghost use Rattle.fts_pack.specs.Documents.{Rises};
ghost use Rattle.fts_pack.specs.ListRef.{listed};
ghost use Rattle.fts_postings.specs.Sets.{has};
ghost use Rattle.fts_cursor.specs.Hits.{is_live};
ghost use Rattle.fts_cursor.specs.Leading.{IsOver};
ghost use Rattle.fts_cursor.specs.Splits.{FindsAll, FindsSplit, IsSplit};

use crate::tree::Tree;
use fts_pack::bits::Bits;
use fts_pack::{ListRef, ListSource};
use fts_postings::{Conjunction, PostingCursor};
use fts_sets::{DocIdSet, Leaf, SetCursor, leaves_of};
use std::alloc::{AllocError, Global};

/// The documents that a list, which leads, and others have in common.
pub(crate) fn of_lists<'a>(
    alloc: Global,
    shortest: ListRef<'a>,
    others: &[ListRef<'a>],
) -> Result<Tree<'a>, AllocError>
    requires { Rises 0 (listed shortest) }
    ensures { IfOk result (λ t. FindsAll (listed shortest.entry) (map listed others.now) t.standing) }
{
    let Split { bits, rest, opened } = split_of(alloc, others)?;
    if bits.is_empty() {
        return untold(alloc, shortest, others);
    }
    if rest.is_empty() {
        if let Some(first) = shortest.bits() {
            return all_told(alloc, shortest, first, bits, opened);
        }
    }
    some_told(alloc, shortest, &rest, bits, opened)
}

// Lists by whether they have bits, and how many blocks were opened of those that do: the first of each.
#[derive(Drop)]
struct Split<'a> {
    bits: Vec<&'a Bits>,
    rest: Vec<ListRef<'a>>,
    opened: u64,
}

fn split_of<'a>(alloc: Global, lists: &[ListRef<'a>]) -> Result<Split<'a>, AllocError>
    ensures split { IfOk result (λ split. IsSplit (map listed lists.now) split.bits.items
        (map listed split.rest.items) split.opened) }
    ensures few { IfOk result (λ split. All (λ b. length b.now ≤ 2 ^ 32) split.bits.items) }
{
    let mut bits = Vec::new(alloc);
    let mut rest = Vec::new(alloc);
    let mut opened = 0;
    for list in lists {
        match list.bits() {
            Some(told) => {
                bits.push(told)?;
                opened += cursor_over(*list).openings();
            }
            None => rest.push(*list)?,
        }
    }
    Ok(Split { bits, rest, opened })
}

/// The cursor if none of the others has bits.
fn untold<'a>(
    alloc: Global,
    shortest: ListRef<'a>,
    others: &[ListRef<'a>],
) -> Result<Tree<'a>, AllocError>
    ensures { IfOk result (λ t. FindsAll (listed shortest.entry) (map listed others.now) t.standing) }
{
    let lead = cursor_over(shortest);
    let others = cursors_over(alloc, others)?;
    Tree::terms(alloc, Conjunction::new(lead, others), 0)
}

/// The cursor if all have bits.
fn all_told<'a>(
    alloc: Global,
    shortest: ListRef<'a>,
    first: &'a Bits,
    bits: Vec<&'a Bits>,
    opened: u64,
) -> Result<Tree<'a>, AllocError>
    requires rises { Rises 0 (listed shortest) }
    requires few { length first.now ≤ 2 ^ 32 }
    requires tells { (d : ℕ) → is_live first.now d ≡ has (listed shortest) d }
    ensures { IfOk result (λ t. FindsSplit (listed shortest.entry) bits.entry.items [] opened t.standing) }
{
    let opened = opened.saturating_add(cursor_over(shortest).openings());
    let leaves = leaves_of(alloc, &bits)?;
    let mut set = DocIdSet::every(alloc, first.len());
    set.with(Leaf::Set(first))?;
    set.with_each(&leaves)?;
    Tree::dense(alloc, SetCursor::new(set, None), opened)
}

/// The cursor if some of the others have bits.
fn some_told<'a>(
    alloc: Global,
    shortest: ListRef<'a>,
    rest: &[ListRef<'a>],
    bits: Vec<&'a Bits>,
    opened: u64,
) -> Result<Tree<'a>, AllocError>
    requires rises { Rises 0 (listed shortest) }
    requires some { 0 < length bits.items }
    requires few { All (λ b. length b.now ≤ 2 ^ 32) bits.items }
    ensures { IfOk result (λ t. FindsSplit (listed shortest.entry) bits.entry.items
        (map listed rest.now) opened t.standing) }
{
    let lead = cursor_over(shortest);
    let others = cursors_over(alloc, rest)?;
    let set = set_in_each(alloc, &bits)?;
    let tree = Tree::terms(alloc, Conjunction::new(lead, others), opened)?;
    Tree::filtered(alloc, tree, set)
}

/// The documents that are set in each of some bits.
fn set_in_each<'a>(alloc: Global, bits: &[&'a Bits]) -> Result<DocIdSet<'a>, AllocError>
    requires some { 0 < length bits.now }
    requires few { All (λ b. length b.now ≤ 2 ^ 32) bits.now }
    ensures { IfOk result (λ set. (d : ℕ) → has set d ≡ in_each bits.now d) }
{
    let leaves = leaves_of(alloc, bits)?;
    let mut set = DocIdSet::every(alloc, bits[0].len());
    set.with_each(&leaves)?;
    Ok(set)
}

/// A cursor over a list.
pub(crate) fn cursor_over<'a>(list: ListRef<'a>) -> PostingCursor<ListSource<'a>>
    ensures { IsOver result (listed list.entry) }
{
    PostingCursor::new(list.source())
}

/// A cursor over each list.
fn cursors_over<'a>(
    alloc: Global,
    lists: &[ListRef<'a>],
) -> Result<Vec<PostingCursor<ListSource<'a>>>, AllocError>
    ensures { IfOk result (λ cursors. AllZip (λ p l. IsOver p (listed l)) cursors.items lists.now) }
{
    let mut cursors = Vec::with_capacity(alloc, lists.len())?;
    for list in lists {
        cursors.push(cursor_over(*list))?;
    }
    Ok(cursors)
}
