// Keeps those of some documents that pass tests of their number: one test goes over all of them after the other.
ghost use Rattle.std.specs.Prelude.{◌≡◌, ℕ, ◌<◌, ◌≤◌, ◌&&◌, All, false, filter, length, nat_lt, not, true};
ghost use Rattle.std.specs.Bool.{beq};
ghost use Rattle.fts_postings.specs.Windows.{is_set};
ghost use Rattle.fts_sets.specs.Kept.{IsKept};
ghost use Rattle.fts_sets.specs.Leaves.{all_have, leaf_has, one_has, rest_has};

use crate::leaf::{self, Leaf};
use fts_pack::bits::Bits;

/// Whether one of some tests shows that what passes each of them is below a number.
pub(crate) fn show_below(count: usize, leaves: &[Leaf]) -> bool
    ensures { result ≡ true → (d : ℕ) → all_have leaves.now d ≡ (nat_lt d count && all_have leaves.now d) }
{
    for leaf in leaves {
        if is_below(count, leaf) {
            return true;
        }
    }
    false
}

/// Whether what passes is below a number, as its bits show.
fn is_below(count: usize, leaf: &Leaf) -> bool
    ensures { result ≡ true → (d : ℕ) → count ≤ d → leaf_has leaf.now d ≡ false }
{
    match leaf {
        Leaf::Set(bits) => bits.len() <= count,
        Leaf::Below(_) | Leaf::Within { .. } => false,
    }
}

/// Whether each of some documents is below a number.
pub(crate) fn are_below(count: usize, docs: &[u32]) -> bool
    ensures { result ≡ true → All (λ d. d < count) docs.now }
{
    for doc in docs {
        if *doc as usize >= count {
            return false;
        }
    }
    true
}

/// Whether some documents that pass each of these are below a number: a test may show it, or else each document is
/// looked at.
#[inline]
pub(crate) fn are_first(count: usize, leaves: &[Leaf], docs: &[u32]) -> bool
    requires { All (λ d. all_have leaves.now d ≡ true) docs.now }
    ensures { result ≡ true → All (λ d. d < count) docs.now }
{
    show_below(count, leaves) || are_below(count, docs)
}

/// Moves those of the first documents that pass each of these to the front. Returns how many these are.
pub(crate) fn keep_each(leaves: &[Leaf], end: usize, docs: &mut [u32; 128]) -> usize
    requires { end ≤ 128 }
    ensures { IsKept (all_have leaves.now) end docs.old docs.new result }
{
    let mut end = end;
    for leaf in leaves {
        end = keep_if(leaf, true, end, docs);
    }
    end
}

/// As `keep_each`, for those that pass none.
pub(crate) fn drop_each(leaves: &[Leaf], end: usize, docs: &mut [u32; 128]) -> usize
    requires { end ≤ 128 }
    ensures { IsKept (λ d. not (one_has leaves.now d)) end docs.old docs.new result }
{
    let mut end = end;
    for leaf in leaves {
        end = keep_if(leaf, false, end, docs);
    }
    end
}

/// As `keep_each`, for those that pass, or for those that don't.
#[inline]
fn keep_if(leaf: &Leaf, passing: bool, end: usize, docs: &mut [u32; 128]) -> usize
    requires { end ≤ 128 }
    ensures { IsKept (λ d. beq (leaf_has leaf.now d) passing) end docs.old docs.new result }
{
    match leaf {
        Leaf::Set(bits) if passing => keep_set(bits, end, docs),
        Leaf::Set(bits) => drop_set(bits, end, docs),
        Leaf::Below(_) | Leaf::Within { .. } => keep_tested(leaf, passing, end, docs),
    }
}

/// As `keep_if`, for those whose bit is set. No branch depends on a document.
fn keep_set(bits: &Bits, end: usize, docs: &mut [u32; 128]) -> usize
    requires { end ≤ 128 }
    ensures { IsKept (λ d. beq (is_set bits.now d) true) end docs.old docs.new result }
{
    let mut kept = 0;
    for index in 0..end {
        let doc = docs[index];
        docs[kept] = doc;
        kept += usize::from(bits.contains(doc as usize));
    }
    kept
}

/// As `keep_if`, for those whose bit isn't set.
fn drop_set(bits: &Bits, end: usize, docs: &mut [u32; 128]) -> usize
    requires { end ≤ 128 }
    ensures { IsKept (λ d. beq (is_set bits.now d) false) end docs.old docs.new result }
{
    let mut kept = 0;
    for index in 0..end {
        let doc = docs[index];
        docs[kept] = doc;
        kept += usize::from(!bits.contains(doc as usize));
    }
    kept
}

/// How many of some documents have their bit set.
pub(crate) fn count_set(bits: &Bits, docs: &[u32]) -> usize
    ensures { result ≡ length (filter (is_set bits.now) docs.now) }
{
    let mut count = 0;
    for doc in docs {
        count += usize::from(bits.contains(*doc as usize));
    }
    count
}

/// As `keep_if`, by the test itself.
fn keep_tested(leaf: &Leaf, passing: bool, end: usize, docs: &mut [u32; 128]) -> usize
    requires { end ≤ 128 }
    ensures { IsKept (λ d. beq (leaf_has leaf.now d) passing) end docs.old docs.new result }
{
    let mut kept = 0;
    for index in 0..end {
        let doc = docs[index];
        docs[kept] = doc;
        kept += usize::from(leaf.has(doc as usize) == passing);
    }
    kept
}

/// As `keep_each`, for those that are below a number, pass one of each of some tests, and none of others.
pub(crate) fn keep_rest(
    below: usize,
    any: &[Vec<Leaf>],
    none: &[Leaf],
    end: usize,
    docs: &mut [u32; 128],
) -> usize
    requires { end ≤ 128 }
    ensures { IsKept (rest_has below any.now none.now) end docs.old docs.new result }
{
    let mut kept = 0;
    for index in 0..end {
        let doc = docs[index];
        docs[kept] = doc;
        kept += usize::from(leaf::rest_has(below, any, none, doc as usize));
    }
    kept
}
