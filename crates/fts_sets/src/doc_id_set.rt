// Sets of documents that are told by their number.
ghost use Rattle.std.specs.Prelude.{◌≡◌, ◌≢◌, ℕ, ◌+◌, ◌*◌, ◌^◌, ◌<◌, ◌≤◌, ◌&&◌, false, true, IfErr, IfOk, IfSome};
ghost use Rattle.std.specs.Prelude.{filter, length, nat_le, not, slice_index, take};
ghost use Rattle.std.specs.List.{range_with_len};
ghost use Rattle.fts_pack.specs.Documents.{Rises};
ghost use Rattle.fts_pack.specs.bits.Changes.{AreChanged};
ghost use Rattle.fts_postings.specs.Remaining.{at_least};
ghost use Rattle.fts_postings.specs.Sets.{has};
ghost use Rattle.fts_postings.specs.Windows.{is_set};
ghost use Rattle.fts_sets.specs.Kept.{IsKept};
ghost use Rattle.fts_sets.specs.Leaves.{all_have, has_within, is_told, leaf_has, one_has};
ghost use Rattle.fts_sets.specs.Rows.{AreMarked, Tells};

use crate::leaf::{self, Leaf};
use crate::{retain, rows};
use fts_pack::bits::Bits;
use fts_pack::column::Column;
use fts_postings::Window;
use std::alloc::{AllocError, Global};
use std::marker::Model;

/// How many documents are looked at to guess how many a set has.
const SAMPLE: usize = 256;

/// The documents that pass each of some tests, one of each of others, and none of still others. It borrows bits and
/// columns. Contracts see the documents.
#[derive(Drop)]
pub struct DocIdSet<'a> {
    // No document has this number or a higher one.
    docs: usize,
    all: Vec<Leaf<'a>>,
    any: Vec<Vec<Leaf<'a>>>,
    none: Vec<Leaf<'a>>,
}

impl<'a> Model for DocIdSet<'a> {
    ghost use Rattle.std.specs.Prelude.{ℕ, List, ◌^◌, ◌≤◌};
    ghost use Rattle.fts_postings.specs.Windows.{passing};
    ghost use Rattle.fts_sets.specs.Kept.{IsKept};
    ghost use Rattle.fts_sets.specs.Leaves.{is_told};

    ghost Value = { List ℕ };

    ghost view = { λ s. passing (is_told s.docs s.all.items s.any.items s.none.items) 0 s.docs };

    ghost invariant = { λ s. s.docs ≤ 2 ^ 32 };
}

impl<'a> DocIdSet<'a> {
    /// The first documents, this many.
    pub fn every(alloc: Global, docs: usize) -> DocIdSet<'a>
        requires { docs ≤ 2 ^ 32 }
        ensures { result ≡ range_with_len 0 docs }
    {
        DocIdSet {
            docs,
            all: Vec::new(alloc),
            any: Vec::new(alloc),
            none: Vec::new(alloc),
        }
    }

    /// Keeps only the documents that pass.
    pub fn with(&mut self, leaf: Leaf<'a>) -> Result<(), AllocError>
        ensures kept { IfOk result (λ _. self.new ≡ filter (leaf_has leaf.entry) self.old) }
        ensures failed { IfErr result (λ _. self.new ≡ self.old) }
    {
        match leaf {
            Leaf::Below(docs) => self.docs = self.docs.min(docs),
            // Bits come first, so that a column isn't compared for the documents that they leave out.
            Leaf::Set(_) => self.all.insert(0, leaf)?,
            Leaf::Within { .. } => self.all.push(leaf)?,
        }
        Ok(())
    }

    /// Keeps only the documents that are of another set too. The tests of that set follow, so it is best the one with more
    /// documents.
    pub fn meet(&mut self, other: DocIdSet<'a>) -> Result<(), AllocError>
        ensures { IfOk result (λ _. self.new ≡ filter (has other.entry) self.old) }
    {
        let DocIdSet {
            docs,
            mut all,
            mut any,
            mut none,
        } = other;
        self.docs = self.docs.min(docs);
        self.all.append(&mut all)?;
        self.any.append(&mut any)?;
        self.none.append(&mut none)?;
        Ok(())
    }

    /// Keeps only the documents that pass each of these.
    pub fn with_each(&mut self, leaves: &[Leaf<'a>]) -> Result<(), AllocError>
        ensures { IfOk result (λ _. self.new ≡ filter (all_have leaves.now) self.old) }
    {
        for leaf in leaves {
            self.with(*leaf)?;
        }
        Ok(())
    }

    /// Keeps only the documents that pass one of these.
    pub fn with_any(&mut self, leaves: Vec<Leaf<'a>>) -> Result<(), AllocError>
        ensures { IfOk result (λ _. self.new ≡ filter (one_has leaves.entry.items) self.old) }
    {
        if leaves.len() == 1 {
            return self.with(leaves[0]);
        }
        self.any.push(leaves)?;
        Ok(())
    }

    /// Keeps only the documents that pass none of these.
    pub fn without_each(&mut self, leaves: &[Leaf<'a>]) -> Result<(), AllocError>
        ensures { IfOk result (λ _. self.new ≡ filter (λ d. not (one_has leaves.now d)) self.old) }
    {
        for leaf in leaves {
            self.without(*leaf)?;
        }
        Ok(())
    }

    fn without(&mut self, leaf: Leaf<'a>) -> Result<(), AllocError>
        ensures { IfOk result (λ _. self.new ≡ filter (λ d. not (leaf_has leaf.entry d)) self.old) }
    {
        self.none.push(leaf)?;
        Ok(())
    }

    /// A number that is greater than each document. Contracts learn here that these rise.
    #[inline]
    pub fn docs(&self) -> usize
        ensures few { result ≤ 2 ^ 32 }
        ensures past { (d : ℕ) → result ≤ d → has self.now d ≡ false }
        ensures rises { Rises 0 self.now }
    {
        self.docs
    }

    /// Whether the document is one of them.
    #[inline(always)]
    pub fn has(&self, doc: usize) -> bool
        ensures { result ≡ has self.now doc }
    {
        leaf::all_have(&self.all, doc) && leaf::rest_has(self.docs, &self.any, &self.none, doc)
    }

    /// Moves those of the first documents that are of the set to the front. Returns how many these are.
    pub fn retain(&self, end: usize, docs: &mut [u32; 128]) -> usize
        requires { end ≤ 128 }
        ensures { IsKept (has self.now) end docs.old docs.new result }
    {
        let passed = retain::keep_each(&self.all, end, docs);
        if self.any.is_empty() && retain::are_first(self.docs, &self.all, &docs[..passed]) {
            return retain::drop_each(&self.none, passed, docs);
        }
        retain::keep_rest(self.docs, &self.any, &self.none, passed, docs)
    }

    /// How many documents there are: their number, if there is no test or bits alone tell them, otherwise about their
    /// number, by a sample.
    pub fn estimate(&self) -> usize {
        if let Some(docs) = self.untested() {
            return docs;
        }
        if let Some(bits) = self.bits() {
            return bits.count_ones();
        }
        // An odd step, so that a sample doesn't follow what alternates.
        let step = self.docs / SAMPLE | 1;
        let mut found = 0usize;
        for place in 0..SAMPLE {
            let hit = self.has(place.saturating_mul(step));
            found = found.saturating_add(usize::from(hit));
        }
        found.saturating_mul(step)
    }

    /// The bits that alone tell the documents, if there are such.
    pub fn bits(&self) -> Option<&'a Bits>
        ensures { IfSome result (λ bits. (d : ℕ) → has self.now d ≡ is_set bits.now d) }
    {
        if self.all.len() != 1 || !suffice(self.docs, &self.all, &self.any, &self.none) {
            return None;
        }
        match self.all[0] {
            Leaf::Set(bits) => Some(bits),
            Leaf::Below(_) | Leaf::Within { .. } => None,
        }
    }

    /// How many of the first documents are of the set. Some of them may be moved to the front for that.
    pub fn count_in(&self, end: usize, docs: &mut [u32; 128]) -> usize
        requires { end ≤ 128 }
        ensures { result ≡ length (filter (has self.now) (take end docs.old)) }
    {
        match self.bits() {
            Some(bits) => retain::count_set(bits, &docs[..end]),
            None => self.retain(end, docs),
        }
    }

    /// How many documents have their bit set, if it is known since there is no test.
    pub fn count_set(&self, bits: &Bits) -> Option<usize>
        ensures { IfSome result (λ n. n ≡ length (filter (is_set bits.now) self.now)) }
    {
        if bits.len() != self.untested()? {
            return None;
        }
        Some(bits.count_ones())
    }

    /// How many documents there are, if there is no test: they are the first, this many.
    #[inline]
    pub(crate) fn untested(&self) -> Option<usize>
        ensures { IfSome result (λ n. (self.now ≡ range_with_len 0 n) × (n ≤ 2 ^ 32)) }
    {
        if self.all.is_empty() && self.any.is_empty() && self.none.is_empty() {
            Some(self.docs)
        } else {
            None
        }
    }

    /// An upper bound on the documents from one on.
    pub fn cost_from(&self, from: usize) -> usize
        ensures { length (at_least from self.now) ≤ result }
    {
        self.docs.saturating_sub(from)
    }

    /// How many documents there are from one on.
    pub fn count_from(&self, from: usize) -> usize
        ensures { result ≡ length (at_least from self.now) }
    {
        if from >= self.docs() {
            return 0;
        }
        let row = self.row(from / 64, 16, from);
        rows::ones(&row) + self.count_words(from / 64 + 16)
    }

    /// How many documents there are from the first of a word on.
    fn count_words(&self, index: usize) -> usize
        requires { index < 2 ^ 56 }
        ensures { result ≡ length (at_least (64 * index) self.now) }
    {
        let words = self.docs() / 64 + 1;
        if let Some((column, low, high, bits)) = self.within_set() {
            return rows::count_within(column, low, high, bits, index, words);
        }
        let mut count = 0;
        let mut index = index;
        while index < words {
            let row = self.row(index, 16, 64 * index);
            count += rows::ones(&row);
            index += 16;
        }
        count
    }

    /// The column, the least and the greatest number, and the bits, if a range of numbers and bits alone tell the documents.
    fn within_set(&self) -> Option<(&'a Column, u64, u64, &'a Bits)>
        ensures { IfSome result (λ r. (d : ℕ) → has self.now d
            ≡ (has_within r.1 r.2 r.0.now d && is_set r.3.now d)) }
    {
        if self.all.len() != 2 || !suffice(self.docs, &self.all, &self.any, &self.none) {
            return None;
        }
        let Leaf::Within { column, low, high } = self.all[0] else {
            return None;
        };
        let Leaf::Set(bits) = self.all[1] else {
            return None;
        };
        Some((column, low, high, bits))
    }

    /// Marks the documents from one on in a window, up to the window's last.
    pub fn mark(&self, window: &mut Window, first: u32)
        requires { window.old.from ≤ first }
        ensures place { (window.new.from ≡ window.old.from) × (window.new.last ≡ window.old.last) }
        ensures marked { AreMarked (λ d. nat_le first d && has self.now d) window.old window.new }
    {
        let end = window.last as usize / 64 + 1;
        let mut index = first as usize / 64;
        while index < end {
            let words = (end - index).min(16);
            let row = self.row(index, words, first as usize);
            window.mark_words(64 * index as u64, &row[..words]);
            index += words;
        }
    }

    /// The documents from `first` on, of this many words from the word of an index on.
    #[inline]
    fn row(&self, index: usize, words: usize, first: usize) -> [u64; 16]
        requires few { words ≤ 16 }
        requires near { index < 2 ^ 57 }
        requires first { first < 64 * index + 64 }
        ensures { (k : ℕ) → k < words
            → Tells (λ d. nat_le first d && has self.now d) (64 * (index + k)) (slice_index result k) }
    {
        let mut row = rows::begin_each(&self.any, index, words, first);
        rows::keep_first(self.docs, index, &mut row);
        rows::keep_each(&self.all, index, &mut row);
        rows::drop_each(&self.none, index, &mut row);
        row
    }
}

/// Whether the first tests tell the documents alone: there are no others, and the bits of one show that what passes them
/// is below the number.
fn suffice(docs: usize, all: &[Leaf], any: &[Vec<Leaf>], none: &[Leaf]) -> bool
    ensures { result ≡ true → (d : ℕ) → is_told docs all.now any.now none.now d ≡ all_have all.now d }
{
    any.is_empty() && none.is_empty() && retain::show_below(docs, all)
}
