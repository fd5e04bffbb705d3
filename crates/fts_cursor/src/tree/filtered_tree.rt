// The documents of a tree that are of a set.
ghost use Rattle.std.specs.Prelude.{◌≡◌, ℕ, ◌+◌, ◌-◌, ◌^◌, None, Option, filter, length, min};
ghost use Rattle.fts_postings.specs.Sets.{FirstPasses, has};
ghost use Rattle.fts_postings.specs.Takes.{Takes};
ghost use Rattle.fts_cursor.specs.Standing.{Walked};
ghost use Rattle.fts_cursor.specs.Trees.{IsSettledAt, StandsAt, kept, tree_value};

use crate::tree::buffered_union::count_set;
use crate::tree::{Node, Source, Tree};
use fts_sets::DocIdSet;

// The documents of a tree that are of a set. The tree is at the first of these.
#[cycle(tree)]
#[derive(Drop)]
pub(crate) struct FilteredTree<'a> {
    pub(crate) tree: Box<Tree<'a>>,
    pub(crate) set: DocIdSet<'a>,
}

/// Passes over documents of a tree that aren't of a set, and returns the first that is.
#[cycle(tree)]
pub(crate) fn settle(tree: &mut Tree, set: &DocIdSet) -> Option<u32>
    ensures same { filter (has set.now) tree.new.remaining ≡ filter (has set.now) tree.old.remaining }
    ensures settled { IsSettledAt result (has set.now) tree.new }
    ensures walked { Walked tree.old.standing tree.new.standing }
    ensures height { tree.new.height ≡ tree.old.height }
    ensures still { FirstPasses (has set.now) tree.old.remaining → tree.new ≡ tree.old }
{
    while let Some(doc) = tree.doc() {
        if set.has(doc as usize) {
            return Some(doc);
        }
        tree.advance();
    }
    None
}

/// Takes some of the next documents of the tree, and keeps those that are of the set: the first is, so at least one is
/// kept if any remains. Returns how many these are, and the next document.
#[cycle(take)]
pub(crate) fn take_filtered(
    filtered: &mut FilteredTree,
    out: &mut [u32; 128],
) -> (usize, Option<u32>)
    requires { (doc : Option ℕ) × StandsAt doc (Node.Filtered filtered.old) }
    ensures taken { Takes (kept filtered.old) (kept filtered.new) out.new result.0 }
    ensures stands { StandsAt result.1 (Node.Filtered filtered.new) }
    ensures walked { Walked (tree_value (Node.Filtered filtered.old)).standing
        (tree_value (Node.Filtered filtered.new)).standing }
{
    let taken = filtered.tree.take(out);
    let kept = filtered.set.retain(taken, out);
    let next = settle(&mut filtered.tree, &filtered.set);
    (kept, next)
}

/// How many documents of a tree are of a set, or the greatest `usize`. Passes all.
pub(crate) fn count_kept(tree: &mut Tree, set: &DocIdSet) -> usize
    ensures count { result ≡ min (2 ^ 64 - 1) (length (filter (has set.now) tree.old.remaining)) }
    ensures ended { IsSettledAt None (has set.now) tree.new }
    ensures walked { Walked tree.old.standing tree.new.standing }
{
    let counted = count_windows(tree, set);
    let rest = count_taken(tree, set);
    counted.saturating_add(rest)
}

/// How many documents of a union are of a set, by the words of its windows, if bits alone tell the set. Passes what is
/// counted.
fn count_windows(tree: &mut Tree, set: &DocIdSet) -> usize
    ensures sum { min (2 ^ 64 - 1) (result + length (filter (has set.now) tree.new.remaining))
        ≡ min (2 ^ 64 - 1) (length (filter (has set.now) tree.old.remaining)) }
    ensures walked { Walked tree.old.standing tree.new.standing }
{
    let Some(bits) = set.bits() else {
        return 0;
    };
    let Source::Cursor(node) = &mut tree.source else {
        return 0;
    };
    let Node::Or(buffered) = &mut **node else {
        return 0;
    };
    let count = count_set(buffered, tree.doc, bits);
    tree.doc = None;
    count
}

/// As `count_kept`, some documents at a time.
fn count_taken(tree: &mut Tree, set: &DocIdSet) -> usize
    ensures count { result ≡ min (2 ^ 64 - 1) (length (filter (has set.now) tree.old.remaining)) }
    ensures ended { IsSettledAt None (has set.now) tree.new }
    ensures walked { Walked tree.old.standing tree.new.standing }
{
    let mut docs = [0; 128];
    let mut count = 0usize;
    while let Some(_first) = tree.doc() {
        let taken = tree.take(&mut docs);
        let kept = set.count_in(taken, &mut docs);
        count = count.saturating_add(kept);
    }
    count
}
