// What one of several cursors has: the next documents of all are marked in a window, which steps read off.
ghost use Rattle.std.specs.Prelude.{◌≡◌, ℕ, ◌+◌, ◌-◌, ◌^◌, [], All, Option, filter, length, min, slice_get};
ghost use Rattle.std.specs.List.{AllZip};
ghost use Rattle.std.specs.List.Sorted.{IsStrictlyIncreasing};
ghost use Rattle.fts_postings.specs.Sets.{IsLeast, has, in_some, lesser_of, union};
ghost use Rattle.fts_postings.specs.Posting.{Follows, remaining_of};
ghost use Rattle.fts_postings.specs.Remaining.{at_least};
ghost use Rattle.fts_postings.specs.Takes.{Takes};
ghost use Rattle.fts_postings.specs.Windows.{is_set};
ghost use Rattle.fts_cursor.specs.TreeValues.{Left, TreeContinues, remains};
ghost use Rattle.fts_cursor.specs.Standing.{Walked};
ghost use Rattle.fts_cursor.specs.Trees.{AreBeyond, IsNow, StandsAt, gathered, tree_value};
ghost use Rattle.fts_sets.specs.Rows.{AreMarked, found};

use crate::tree::{Node, Source, Tree};
use fts_pack::ListSource;
use fts_pack::bits::Bits;
use fts_postings::{DocSet, PostingCursor, Window};

// What one of the parts has. The first documents are found already, and all parts come after the window of these.
#[cycle(tree)]
#[derive(Drop)]
pub(crate) struct BufferedUnion<'a> {
    pub(crate) parts: Vec<Tree<'a>>,
    pub(crate) window: Window,
}

/// Passes the documents below the target, and returns the first document from there on.
#[cycle(tree)]
#[inline]
pub(crate) fn gather(buffered: &mut BufferedUnion, target: u32) -> Option<u32>
    requires { AreBeyond buffered.old.window (remains buffered.old.parts.items) }
    ensures now { IsNow result (Node.Or buffered.new) (at_least target (gathered buffered.old)) }
    ensures continues { TreeContinues (tree_value (Node.Or buffered.old))
        (tree_value (Node.Or buffered.new)) }
{
    buffered.window.seek(target);
    if let Some(doc) = buffered.window.first() {
        return Some(doc);
    }
    refill(buffered, target)
}

/// Takes what fits of the window of a union. Returns how many documents these are, and the next one.
pub(crate) fn take_gathered(
    buffered: &mut BufferedUnion,
    out: &mut [u32; 128],
) -> (usize, Option<u32>)
    requires { (doc : Option ℕ) × StandsAt doc (Node.Or buffered.old) }
    ensures taken { Takes (gathered buffered.old) (gathered buffered.new) out.new result.0 }
    ensures stands { StandsAt result.1 (Node.Or buffered.new) }
    ensures walked { Walked (tree_value (Node.Or buffered.old)).standing
        (tree_value (Node.Or buffered.new)).standing }
{
    let count = buffered.window.take(out);
    let next = gather(buffered, 0);
    (count, next)
}

/// How many documents remain, of which `doc` is the first, or the greatest `usize`. Passes all.
pub(crate) fn count_gathered(buffered: &mut BufferedUnion, doc: Option<u32>) -> usize
    requires { StandsAt doc (Node.Or buffered.old) }
    ensures count { result ≡ min (2 ^ 64 - 1) (length (gathered buffered.old)) }
    ensures now { IsNow None (Node.Or buffered.new) [] }
    ensures walked { Walked (tree_value (Node.Or buffered.old)).standing
        (tree_value (Node.Or buffered.new)).standing }
{
    let mut count = 0usize;
    let mut next = doc;
    while let Some(_first) = next {
        let here = buffered.window.count();
        count = count.saturating_add(here);
        next = refill(buffered, 0);
    }
    count
}

/// How many of the documents that remain have their bit set, or the greatest `usize`, by the words of the windows.
/// `doc` is the first that remains. Passes all.
pub(crate) fn count_set(buffered: &mut BufferedUnion, doc: Option<u32>, bits: &Bits) -> usize
    requires { StandsAt doc (Node.Or buffered.old) }
    ensures count { result ≡ min (2 ^ 64 - 1) (length (filter (is_set bits.now) (gathered buffered.old))) }
    ensures now { IsNow None (Node.Or buffered.new) [] }
    ensures walked { Walked (tree_value (Node.Or buffered.old)).standing
        (tree_value (Node.Or buffered.new)).standing }
{
    let mut count = 0usize;
    let mut next = doc;
    while let Some(_first) = next {
        let here = buffered.window.count_set(bits);
        count = count.saturating_add(here);
        next = refill(buffered, 0);
    }
    count
}

/// Moves a window that has nothing left to the first document from the target on, and fills it.
#[cycle(tree)]
pub(crate) fn refill(buffered: &mut BufferedUnion, target: u32) -> Option<u32>
    requires { found buffered.old.window ≡ [] }
    ensures now { IsNow result (Node.Or buffered.new)
        (at_least target (union (remains buffered.old.parts.items))) }
    ensures continues { TreeContinues (tree_value (Node.Or buffered.old))
        (tree_value (Node.Or buffered.new)) }
{
    let reach = buffered.window.reach(target);
    let least = seek_each(&mut buffered.parts, target)?;
    buffered.window.begin(least, reach);
    mark_each(&mut buffered.parts, &mut buffered.window);
    Some(least)
}

/// Passes the documents below the target in each part, and returns the first document of all.
#[cycle(tree)]
fn seek_each(parts: &mut [Tree], target: u32) -> Option<u32>
    ensures each { AllZip (Left target) parts.old parts.new }
    ensures least { IsLeast result (remains parts.new) }
{
    let mut least = None;
    for part in parts.iter_mut() {
        part.seek(target);
        if let Some(first) = part.doc() {
            least = lesser(least, first);
        }
    }
    least
}

/// The lesser of two documents, if there is one.
fn lesser(a: Option<u32>, b: u32) -> Option<u32>
    ensures { result ≡ lesser_of a b }
{
    match a {
        Some(a) if a < b => Some(a),
        _ => Some(b),
    }
}

/// Marks the documents of each part that are in the window, and passes them.
#[cycle(tree)]
fn mark_each(parts: &mut [Tree], window: &mut Window)
    requires { All (λ part. part.remaining ≡ at_least window.old.from part.remaining) parts.old }
    ensures each { AllZip (Left (window.old.last + 1)) parts.old parts.new }
    ensures place { (window.new.from ≡ window.old.from) × (window.new.last ≡ window.old.last) }
    ensures marked { AreMarked (in_some (remains parts.old)) window.old window.new }
{
    for part in parts.iter_mut() {
        mark_part(part, window);
    }
}

/// Marks the documents of a part that are in the window, and passes them.
#[cycle(tree)]
fn mark_part(part: &mut Tree, window: &mut Window)
    requires { part.old.remaining ≡ at_least window.old.from part.old.remaining }
    ensures left { Left (window.old.last + 1) part.old part.new }
    ensures place { (window.new.from ≡ window.old.from) × (window.new.last ≡ window.old.last) }
    ensures marked { AreMarked (has part.old.remaining) window.old window.new }
{
    let Source::Cursor(node) = &mut part.source else {
        return;
    };
    match &mut **node {
        Node::Postings(postings) => part.doc = mark_postings(postings, window),
        Node::Scan(scan, _) => {
            scan.mark(window);
            part.doc = scan.doc();
        }
        _ => mark_any(part, window),
    }
}

/// Marks the documents of a part that are in the window, one by one, and passes them.
#[cycle(tree)]
fn mark_any(part: &mut Tree, window: &mut Window)
    requires { part.old.remaining ≡ at_least window.old.from part.old.remaining }
    ensures left { Left (window.old.last + 1) part.old part.new }
    ensures place { (window.new.from ≡ window.old.from) × (window.new.last ≡ window.old.last) }
    ensures marked { AreMarked (has part.old.remaining) window.old window.new }
{
    while let Some(doc) = part.doc() {
        if !window.covers(doc) {
            return;
        }
        window.mark(doc);
        part.advance();
    }
}

/// Marks the documents of a list that are in the window, a block at a time. Returns the first document after the
/// window.
fn mark_postings(postings: &mut PostingCursor<ListSource>, window: &mut Window) -> Option<u32>
    requires { remaining_of postings.old ≡ at_least window.old.from (remaining_of postings.old) }
    ensures remaining { remaining_of postings.new
        ≡ at_least (window.old.last + 1) (remaining_of postings.old) }
    ensures follows { Follows postings.old postings.new }
    ensures first { result ≡ slice_get (remaining_of postings.new) 0 }
    ensures rises { IsStrictlyIncreasing (remaining_of postings.new) }
    ensures place { (window.new.from ≡ window.old.from) × (window.new.last ≡ window.old.last) }
    ensures marked { AreMarked (has (remaining_of postings.old)) window.old window.new }
{
    while let Some(doc) = postings.doc() {
        if !window.covers(doc) {
            return Some(doc);
        }
        let _ = postings.mark_open(window);
    }
    None
}
