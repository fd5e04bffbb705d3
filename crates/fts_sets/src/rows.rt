// Rows of 16 words, each the bits of 64 documents, and what is left of them after a test.
ghost use Rattle.std.specs.Prelude.{◌≡◌, ℕ, ◌+◌, ◌-◌, ◌*◌, ◌^◌, ◌<◌, ◌≤◌, ◌==◌, ◌&&◌, Bool, length, nat_le, nat_lt, not, slice_index};
ghost use Rattle.std.specs.Int.{bit_at};
ghost use Rattle.fts_pack.specs.bits.Changes.{AreChanged};
ghost use Rattle.fts_postings.specs.Windows.{is_set, passing};
ghost use Rattle.fts_sets.specs.Leaves.{all_have, each_has, has_within, leaf_has, one_has};
ghost use Rattle.fts_sets.specs.Rows.{AreAdded, Tells};

use crate::leaf::Leaf;
use fts_pack::bits::Bits;
use fts_pack::column::Column;

/// The documents from `first` on that pass one of each of these, of this many words from the word of an index on. That
/// of the first is the first word, or is before it.
#[inline]
pub(crate) fn begin_each(
    clauses: &[Vec<Leaf>],
    index: usize,
    words: usize,
    first: usize,
) -> [u64; 16]
    requires few { words ≤ 16 }
    requires near { index < 2 ^ 57 }
    requires first { first < 64 * index + 64 }
    ensures { (k : ℕ) → k < words
        → Tells (λ d. nat_le first d && each_has clauses.now d) (64 * (index + k)) (slice_index result k) }
{
    let Some((clause, others)) = clauses.split_first() else {
        return begin(index, words, first);
    };
    let mut row = some(clause, index, words);
    keep_from(first, index, &mut row);
    keep_clauses(others, index, &mut row);
    row
}

/// The documents from `first` on.
#[inline]
fn begin(index: usize, words: usize, first: usize) -> [u64; 16]
    requires few { words ≤ 16 }
    requires near { index < 2 ^ 57 }
    requires first { first < 64 * index + 64 }
    ensures { (k : ℕ) → k < words → Tells (nat_le first) (64 * (index + k)) (slice_index result k) }
{
    let mut row = [0; 16];
    for place in 0..words {
        row[place] = u64::MAX;
    }
    keep_from(first, index, &mut row);
    row
}

/// The documents that pass one of these.
#[inline]
fn some(leaves: &[Leaf], index: usize, words: usize) -> [u64; 16]
    requires few { words ≤ 16 }
    requires near { index < 2 ^ 57 }
    ensures { (k : ℕ) → k < words → Tells (one_has leaves.now) (64 * (index + k)) (slice_index result k) }
{
    let mut row = [0; 16];
    for leaf in leaves {
        add(leaf, index, words, &mut row);
    }
    row
}

/// Adds the documents that pass. A column is compared for this many words alone.
#[inline]
fn add(leaf: &Leaf, index: usize, words: usize, row: &mut [u64; 16])
    requires few { words ≤ 16 }
    requires near { index < 2 ^ 57 }
    ensures { AreAdded (leaf_has leaf.now) index words row.old row.new }
{
    match leaf {
        Leaf::Set(bits) => bits.or_into(index, row),
        Leaf::Below(_) | Leaf::Within { .. } => add_words(*leaf, index, words, row),
    }
}

/// As `add`, word by word.
fn add_words(leaf: Leaf, index: usize, words: usize, row: &mut [u64; 16])
    requires few { words ≤ 16 }
    requires near { index < 2 ^ 57 }
    ensures { AreAdded (leaf_has leaf.entry) index words row.old row.new }
{
    for place in 0..words {
        row[place] |= leaf.word(index + place);
    }
}

/// Keeps the documents from a first one on. Its word is the first, or is before it.
#[inline]
fn keep_from(first: usize, index: usize, row: &mut [u64; 16])
    requires near { index < 2 ^ 57 }
    requires first { first < 64 * index + 64 }
    ensures { AreChanged (λ doc told. told && nat_le first doc) index row.old row.new }
{
    row[0] &= u64::MAX << first.saturating_sub(64 * index);
}

/// Keeps the documents below a number.
#[inline]
pub(crate) fn keep_first(docs: usize, index: usize, row: &mut [u64; 16])
    requires { index < 2 ^ 57 }
    ensures { AreChanged (λ doc told. told && nat_lt doc docs) index row.old row.new }
{
    if index + 16 <= docs / 64 {
        return;
    }
    keep_words(Leaf::Below(docs), index, row);
}

/// Keeps the documents that pass each of these.
#[inline]
pub(crate) fn keep_each(leaves: &[Leaf], index: usize, row: &mut [u64; 16])
    requires { index < 2 ^ 57 }
    ensures { AreChanged (λ doc told. told && all_have leaves.now doc) index row.old row.new }
{
    for leaf in leaves {
        keep(leaf, index, row);
    }
}

/// Keeps the documents that pass one of each of these.
#[inline]
fn keep_clauses(clauses: &[Vec<Leaf>], index: usize, row: &mut [u64; 16])
    requires { index < 2 ^ 57 }
    ensures { AreChanged (λ doc told. told && each_has clauses.now doc) index row.old row.new }
{
    for clause in clauses {
        keep_some(clause, index, row);
    }
}

/// Keeps the documents that pass one of these: all but those that pass none.
#[inline]
fn keep_some(leaves: &[Leaf], index: usize, row: &mut [u64; 16])
    requires { index < 2 ^ 57 }
    ensures { AreChanged (λ doc told. told && one_has leaves.now doc) index row.old row.new }
{
    let mut others = *row;
    drop_each(leaves, index, &mut others);
    for place in 0..16 {
        row[place] &= !others[place];
    }
}

/// Keeps the documents that pass none of these.
#[inline]
pub(crate) fn drop_each(leaves: &[Leaf], index: usize, row: &mut [u64; 16])
    requires { index < 2 ^ 57 }
    ensures { AreChanged (λ doc told. told && not (one_has leaves.now doc)) index row.old row.new }
{
    for leaf in leaves {
        drop_leaf(leaf, index, row);
    }
}

/// Keeps the documents that pass.
#[inline]
fn keep(leaf: &Leaf, index: usize, row: &mut [u64; 16])
    requires { index < 2 ^ 57 }
    ensures { AreChanged (λ doc told. told && leaf_has leaf.now doc) index row.old row.new }
{
    match leaf {
        Leaf::Set(bits) => bits.and_into(index, row),
        Leaf::Below(_) => keep_words(*leaf, index, row),
        Leaf::Within { column, low, high } => keep_within(column, *low, *high, index, row),
    }
}

/// Keeps the documents that don't pass.
#[inline]
fn drop_leaf(leaf: &Leaf, index: usize, row: &mut [u64; 16])
    requires { index < 2 ^ 57 }
    ensures { AreChanged (λ doc told. told && not (leaf_has leaf.now doc)) index row.old row.new }
{
    match leaf {
        Leaf::Set(bits) => bits.and_not_into(index, row),
        Leaf::Below(_) | Leaf::Within { .. } => drop_words(*leaf, index, row),
    }
}

/// Keeps the documents whose number in a column is within these. A word without documents isn't compared.
fn keep_within(column: &Column, low: u64, high: u64, index: usize, row: &mut [u64; 16])
    requires { index < 2 ^ 57 }
    ensures { AreChanged (λ doc told. told && has_within low high column.now doc) index row.old row.new }
{
    for place in 0..16 {
        if row[place] != 0 {
            row[place] &= column.marks_within(64 * (index + place), low, high);
        }
    }
}

/// As `keep`, word by word.
fn keep_words(leaf: Leaf, index: usize, row: &mut [u64; 16])
    requires { index < 2 ^ 57 }
    ensures { AreChanged (λ doc told. told && leaf_has leaf.entry doc) index row.old row.new }
{
    for place in 0..16 {
        if row[place] != 0 {
            row[place] &= leaf.word(index + place);
        }
    }
}

/// As `drop_leaf`, word by word.
fn drop_words(leaf: Leaf, index: usize, row: &mut [u64; 16])
    requires { index < 2 ^ 57 }
    ensures { AreChanged (λ doc told. told && not (leaf_has leaf.entry doc)) index row.old row.new }
{
    for place in 0..16 {
        if row[place] != 0 {
            row[place] &= !leaf.word(index + place);
        }
    }
}

/// How many documents a row tells.
#[inline]
pub(crate) fn ones(row: &[u64; 16]) -> usize
    ensures { (test : ℕ → Bool) (from : ℕ) →
        ((k : ℕ) → k < 16 → Tells test (from + 64 * k) (slice_index row.now k)) →
        result ≡ length (passing test from (64 * length row.now)) }
{
    let mut count = 0;
    for place in 0..16 {
        count += row[place].count_ones() as usize;
    }
    count
}

/// How many documents have a number of a column within these, and their bit set, from the first of a word on up to that of
/// another.
pub(crate) fn count_within(
    column: &Column,
    low: u64,
    high: u64,
    bits: &Bits,
    index: usize,
    end: usize,
) -> usize
    requires { end < 2 ^ 57 }
    ensures { result ≡ length (passing (λ d. has_within low high column.now d && is_set bits.now d)
        (64 * index) (64 * end - 64 * index)) }
{
    let mut count = 0;
    for place in index..end {
        let word = column.marks_within(64 * place, low, high) & bits.word(place);
        count += word.count_ones() as usize;
    }
    count
}
