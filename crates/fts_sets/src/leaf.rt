// Tests of a document by its number: by a bit, or by what a column keeps for it.
ghost use Rattle.std.specs.Prelude.{◌≡◌, ℕ, ◌+◌, ◌*◌, ◌^◌, ◌<◌, ◌==◌, IfOk, Option, nat_lt};
ghost use Rattle.std.specs.Int.{bit_at};
ghost use Rattle.fts_pack.specs.column.Column.{is_within};
ghost use Rattle.fts_sets.specs.Leaves.{all_have, each_has, in_each, in_one, leaf_has, one_has, rest_has};

use fts_pack::bits::Bits;
use fts_pack::column::Column;
use std::alloc::{AllocError, Global};

/// What a document is tested for.
#[derive(Clone, Copy)]
pub enum Leaf<'a> {
    /// That it is one of the first, this many.
    Below(usize),
    /// That its bit is set.
    Set(&'a Bits),
    /// That its number in the column is `low` or more and `high` or less.
    Within {
        column: &'a Column,
        low: u64,
        high: u64,
    },
}

impl Leaf<'_> {
    /// Whether a document passes.
    #[inline]
    pub(crate) fn has(&self, doc: usize) -> bool
        ensures { result ≡ leaf_has self.now doc }
    {
        match self {
            Leaf::Below(docs) => doc < *docs,
            Leaf::Set(bits) => bits.contains(doc),
            Leaf::Within { column, low, high } => is_within(*low, *high, column.get(doc)),
        }
    }

    /// Which of the 64 documents of the word of an index pass, the first of them the lowest bit.
    #[inline]
    pub(crate) fn word(&self, index: usize) -> u64
        requires { index < 2 ^ 58 }
        ensures { (j : ℕ) → j < 64 → (bit_at result j == 1) ≡ leaf_has self.now (64 * index + j) }
    {
        match self {
            Leaf::Below(docs) => below(*docs, index),
            Leaf::Set(bits) => bits.word(index),
            Leaf::Within { column, low, high } => column.marks_within(64 * index, *low, *high),
        }
    }
}

/// Which of a word's documents are below a number.
#[inline]
fn below(docs: usize, index: usize) -> u64
    requires { index < 2 ^ 58 }
    ensures { (j : ℕ) → j < 64 → (bit_at result j == 1) ≡ nat_lt (64 * index + j) docs }
{
    let last = docs / 64;
    if index < last {
        u64::MAX
    } else if index > last {
        0
    } else {
        (1 << (docs % 64)) - 1
    }
}

/// Whether there is a number, and it is `low` or more and `high` or less.
#[inline]
fn is_within(low: u64, high: u64, number: Option<u64>) -> bool
    ensures { result ≡ is_within low high number }
{
    match number {
        None => false,
        Some(number) => low <= number && number <= high,
    }
}

/// Whether a document passes each of these.
#[inline]
pub(crate) fn all_have(leaves: &[Leaf], doc: usize) -> bool
    ensures { result ≡ all_have leaves.now doc }
{
    for leaf in leaves {
        if !leaf.has(doc) {
            return false;
        }
    }
    true
}

/// Whether it passes one of these.
#[inline]
pub(crate) fn one_has(leaves: &[Leaf], doc: usize) -> bool
    ensures { result ≡ one_has leaves.now doc }
{
    for leaf in leaves {
        if leaf.has(doc) {
            return true;
        }
    }
    false
}

/// Whether it passes one of each of these.
#[inline]
pub(crate) fn each_has(clauses: &[Vec<Leaf>], doc: usize) -> bool
    ensures { result ≡ each_has clauses.now doc }
{
    for clause in clauses {
        if !one_has(clause, doc) {
            return false;
        }
    }
    true
}

/// Whether it is below a number, passes one of each of some tests, and none of others.
#[inline]
pub(crate) fn rest_has(below: usize, any: &[Vec<Leaf>], none: &[Leaf], doc: usize) -> bool
    ensures { result ≡ rest_has below any.now none.now doc }
{
    doc < below && each_has(any, doc) && !one_has(none, doc)
}

/// The tests of some bits.
pub fn leaves_of<'a>(alloc: Global, list: &[&'a Bits]) -> Result<Vec<Leaf<'a>>, AllocError>
    ensures one { IfOk result (λ leaves. (d : ℕ) → one_has leaves.items d ≡ in_one list.now d) }
    ensures all { IfOk result (λ leaves. (d : ℕ) → all_have leaves.items d ≡ in_each list.now d) }
{
    let mut leaves = Vec::with_capacity(alloc, list.len())?;
    for bits in list {
        leaves.push(Leaf::Set(*bits))?;
    }
    Ok(leaves)
}
