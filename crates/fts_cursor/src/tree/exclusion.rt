// What one cursor has and another doesn't.
ghost use Rattle.std.specs.Prelude.{◌≡◌, ◌≢◌, ℕ, ◌≤◌, All, MatchBool, Option, take};
ghost use Rattle.std.specs.List.Sorted.{IsStrictlyIncreasing};
ghost use Rattle.fts_postings.specs.Sets.{has, lacks};
ghost use Rattle.fts_postings.specs.Takes.{Takes};
ghost use Rattle.fts_sets.specs.Kept.{IsKept};
ghost use Rattle.fts_cursor.specs.Standing.{Walked};
ghost use Rattle.fts_cursor.specs.TreeValues.{Narrowed, TreeContinues};
ghost use Rattle.fts_cursor.specs.Trees.{Met, StandsAt, differ, tree_value};

use crate::tree::{Node, Tree};

// What the first has and the second doesn't.
#[cycle(tree)]
#[derive(Drop)]
pub(crate) struct Exclusion<'a> {
    pub(crate) kept: Box<Tree<'a>>,
    pub(crate) dropped: Box<Tree<'a>>,
}

/// Brings the first to the first of its documents that the second doesn't have, and gives it.
#[cycle(tree)]
pub(crate) fn settle(parts: &mut Exclusion) -> Option<u32>
    ensures met { Met result (differ parts.old) (lacks parts.new.dropped.value.remaining)
        parts.new.kept.value.remaining }
    ensures continues { TreeContinues (tree_value (Node.Without parts.old))
        (tree_value (Node.Without parts.new)) }
{
    while let Some(doc) = parts.kept.doc() {
        parts.dropped.seek(doc);
        let found = parts.dropped.doc();
        if !is_at(found, doc) {
            return Some(doc);
        }
        parts.kept.advance();
    }
    None
}

/// Takes some of the next documents of the first, and picks those that the second doesn't have. The first is at one of
/// these, so at least one is picked if any remains. Returns how many they are, and the next document.
#[cycle(take)]
pub(crate) fn take_without(parts: &mut Exclusion, out: &mut [u32; 128]) -> (usize, Option<u32>)
    requires { (doc : Option ℕ) × StandsAt doc (Node.Without parts.old) }
    ensures taken { Takes (differ parts.old) (differ parts.new) out.new result.0 }
    ensures stands { StandsAt result.1 (Node.Without parts.new) }
    ensures walked { Walked (tree_value (Node.Without parts.old)).standing
        (tree_value (Node.Without parts.new)).standing }
{
    let taken = parts.kept.take(out);
    let kept = keep_lacking(&mut parts.dropped, taken, out);
    let next = settle(parts);
    (kept, next)
}

/// Moves those of the first documents that a cursor doesn't have to the front. Returns how many these are.
fn keep_lacking(dropped: &mut Tree, end: usize, docs: &mut [u32; 128]) -> usize
    requires room { end ≤ 128 }
    requires rises { IsStrictlyIncreasing (take end docs.old) }
    ensures kept { IsKept (lacks dropped.old.remaining) end docs.old docs.new result }
    ensures later { (d : ℕ) → All (λ doc. doc ≤ d) (take end docs.old)
        → has dropped.new.remaining d ≡ has dropped.old.remaining d }
    ensures continues { TreeContinues dropped.old dropped.new }
{
    let mut kept = 0;
    for index in 0..end {
        let doc = docs[index];
        docs[kept] = doc;
        kept += usize::from(!meets(dropped, doc));
    }
    kept
}

/// Whether a cursor has a document, for which it is sought only if its next document isn't beyond that.
#[inline]
fn meets(dropped: &mut Tree, doc: u32) -> bool
    ensures met { result ≡ has dropped.old.remaining doc }
    ensures narrowed { Narrowed doc dropped.old dropped.new }
{
    match dropped.doc() {
        Some(first) if first <= doc => {
            dropped.seek(doc);
            is_at(dropped.doc(), doc)
        }
        _ => false,
    }
}

/// Whether it is that document.
fn is_at(found: Option<u32>, doc: u32) -> bool
    ensures { MatchBool result (found ≡ Some doc) (found ≢ Some doc) }
{
    match found {
        Some(other) => other == doc,
        None => false,
    }
}
