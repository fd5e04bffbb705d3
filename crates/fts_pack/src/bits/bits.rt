// Bit vectors with one bit per document: document `i` has bit `i % 64` of word `i / 64`, and the bits past the last
// document are 0.
ghost use Rattle.std.specs.Prelude.{◌≡◌, ℕ, ◌<◌, ◌*◌, ◌^◌, ◌==◌, ◌&&◌, ◌||◌, List, Bool, true, false, IfOk, IsOkUnless};
ghost use Rattle.std.specs.Prelude.{All, count_by, drop, length, map, not, replicate, slice_get, slice_index_or};
ghost use Rattle.std.specs.Prelude.{slice_set, take};
ghost use Rattle.std.specs.List.{list_all, list_any};
ghost use Rattle.std.specs.Cmp.{bool_eq_equiv, partial_equiv_from_equiv};
ghost use Rattle.std.specs.Cmp.Lexicographic.{pointwise, lists_per};
ghost use Rattle.std.proofs.lemmas.Cmp.{lists_equiv};
ghost use Rattle.std.proofs.Math.Bool.{beq};
ghost use Rattle.fts_pack.specs.bits.Digits.{numbers_in, words_of};
ghost use Rattle.fts_pack.specs.bits.Bits.{AreCounted, flags, marks, number_of};
ghost use Rattle.fts_pack.specs.bits.Changes.{AreChanged, changed};

use crate::bits::change::Change;
use crate::bits::widths;
use fts_base::{Refusal, release};
use std::alloc::{AllocError, Global};
use std::marker::Model;

/// A bit vector with one bit per document.
pub struct Bits {
    len: usize,
    // The number of set bits.
    ones: usize,
    words: Vec<u64>,
}

impl Model for Bits {
    ghost Value = { List Bool };

    ghost view = { λ b. flags (numbers_in 64 1 b.len b.words.items) };

    ghost invariant = { λ b. AreCounted b.len b.ones b.words.items };
}

impl Drop for Bits {
    fn drop(self) {
        let Bits {
            len: _,
            ones: _,
            words,
        } = self;
        release(words);
    }
}

impl Bits {
    /// A bit vector for `len` documents, with every bit set.
    pub fn all_set(alloc: Global, len: usize) -> Result<Bits, Refusal>
        ensures ok { IfOk result (λ bits. bits ≡ replicate len true) }
        ensures memory { IsOkUnless result Refusal.Memory }
    {
        Self::filled(alloc, len).map_err(|_| Refusal::Memory)
    }

    fn filled(alloc: Global, len: usize) -> Result<Bits, AllocError>
        ensures { IfOk result (λ bits. bits ≡ replicate len true) }
    {
        let mut words = vec![in alloc; u64::MAX; widths::word_count_64(len)]?;
        let rest = len % 64;
        if rest > 0 {
            words[len / 64] = (1 << rest) - 1;
        }
        Ok(Bits {
            len,
            ones: len,
            words,
        })
    }

    /// A bit vector for `len` documents, with every bit clear.
    pub fn all_clear(alloc: Global, len: usize) -> Result<Bits, Refusal>
        ensures ok { IfOk result (λ bits. bits ≡ replicate len false) }
        ensures memory { IsOkUnless result Refusal.Memory }
    {
        Self::zeroed(alloc, len).map_err(|_| Refusal::Memory)
    }

    /// As `all_clear`, with `AllocError` for callers that have an error of their own.
    pub fn zeroed(alloc: Global, len: usize) -> Result<Bits, AllocError>
        ensures { IfOk result (λ bits. bits ≡ replicate len false) }
    {
        let words = vec![in alloc; 0u64; widths::word_count_64(len)]?;
        Ok(Bits {
            len,
            ones: 0,
            words,
        })
    }

    /// A copy in memory of the allocator.
    pub fn copied(&self, alloc: Global) -> Result<Bits, Refusal>
        ensures ok { IfOk result (λ bits. bits ≡ self.now) }
        ensures memory { IsOkUnless result Refusal.Memory }
    {
        let words = Vec::from_slice(alloc, &self.words).map_err(|_| Refusal::Memory)?;
        Ok(Bits {
            len: self.len,
            ones: self.ones,
            words,
        })
    }

    /// The number of documents.
    pub fn len(&self) -> usize
        ensures { result ≡ length self.now }
    {
        self.len
    }

    /// Whether there is no document.
    pub fn is_empty(&self) -> bool
        ensures { result ≡ (length self.now == 0) }
    {
        self.len == 0
    }

    /// Whether the document's bit is set.
    #[inline]
    pub fn get(&self, doc: usize) -> bool
        requires { doc < length self.now }
        ensures { slice_get self.now doc ≡ Some result }
    {
        (self.words[doc / 64] >> (doc % 64)) & 1 == 1
    }

    /// Whether the document exists and its bit is set.
    #[inline]
    pub fn contains(&self, doc: usize) -> bool
        ensures { result ≡ slice_index_or self.now doc false }
    {
        doc < self.len() && self.get(doc)
    }

    /// Sets the document's bit.
    pub fn set(&mut self, doc: usize)
        requires { doc < length self.old }
        ensures { self.new ≡ slice_set self.old doc true }
    {
        self.put(doc, true);
    }

    /// Sets the bits of these documents.
    pub fn set_all(&mut self, docs: &[u32])
        requires { All (λ d. d < length self.old) docs.now }
        ensures len { length self.new ≡ length self.old }
        ensures set { (d : ℕ) → slice_index_or self.new d false
            ≡ (slice_index_or self.old d false || list_any (λ x. x == d) docs.now) }
    {
        for doc in docs {
            self.put(*doc as usize, true);
        }
    }

    /// A bit vector for `len` documents in which the bits of `docs` are set.
    pub fn of_documents(alloc: Global, len: usize, docs: &[u32]) -> Result<Bits, AllocError>
        requires { All (λ d. d < len) docs.now }
        ensures len { IfOk result (λ bits. length bits ≡ len) }
        ensures set { IfOk result (λ bits. (d : ℕ) → slice_index_or bits d false
            ≡ list_any (λ x. x == d) docs.now) }
    {
        let mut bits = Self::zeroed(alloc, len)?;
        bits.set_all(docs);
        Ok(bits)
    }

    /// Clears the document's bit.
    pub fn clear(&mut self, doc: usize)
        requires { doc < length self.old }
        ensures { self.new ≡ slice_set self.old doc false }
    {
        self.put(doc, false);
    }

    #[inline]
    fn put(&mut self, doc: usize, bit: bool)
        requires { doc < length self.old }
        ensures { self.new ≡ slice_set self.old doc bit }
    {
        let was = self.get(doc);
        self.ones = self.ones - usize::from(was) + usize::from(bit);
        if bit {
            self.words[doc / 64] |= 1 << (doc % 64);
        } else {
            self.words[doc / 64] &= !(1 << (doc % 64));
        }
    }

    /// The bits of documents `64 * index` to `64 * index + 63`, the first in the lowest bit. Bits past the last
    /// document are 0.
    #[inline]
    pub fn word(&self, index: usize) -> u64
        ensures { result ≡ number_of (take 64 (drop (64 * index) self.now)) }
    {
        self.words.get(index).copied().unwrap_or(0)
    }

    /// ANDs the words from an index on into others, which tell documents as these do.
    #[inline]
    pub fn and_into(&self, index: usize, words: &mut [u64])
        requires { index < 2 ^ 58 }
        ensures { AreChanged (λ doc told. told && slice_index_or self.now doc false) index words.old words.new }
    {
        self.change(Change::And, index, words);
    }

    /// ORs the words from an index on into others.
    #[inline]
    pub fn or_into(&self, index: usize, words: &mut [u64])
        requires { index < 2 ^ 58 }
        ensures { AreChanged (λ doc told. told || slice_index_or self.now doc false) index words.old words.new }
    {
        self.change(Change::Or, index, words);
    }

    /// Clears in other words the bits that are set in the words from an index on.
    #[inline]
    pub fn and_not_into(&self, index: usize, words: &mut [u64])
        requires { index < 2 ^ 58 }
        ensures { AreChanged (λ doc told. told && not (slice_index_or self.now doc false)) index words.old words.new }
    {
        self.change(Change::AndNot, index, words);
    }

    /// Changes other words by those from an index on. If there are enough, no bound is tested, so that LLVM vectorizes
    /// the loop.
    #[inline(always)]
    fn change(&self, change: Change, index: usize, words: &mut [u64])
        requires { index < 2 ^ 58 }
        ensures { AreChanged (λ doc told. changed change told (slice_index_or self.now doc false))
            index words.old words.new }
    {
        if self.words.len().saturating_sub(index) < words.len() {
            self.change_last(change, index, words);
            return;
        }
        for place in 0..words.len() {
            words[place] = change.of(words[place], self.words[index + place]);
        }
    }

    /// Changes other words by those from an index on; a missing word counts as 0.
    #[inline(never)]
    fn change_last(&self, change: Change, index: usize, words: &mut [u64])
        requires { index < 2 ^ 58 }
        ensures { AreChanged (λ doc told. changed change told (slice_index_or self.now doc false))
            index words.old words.new }
    {
        for place in 0..words.len() {
            words[place] = change.of(words[place], self.word(index + place));
        }
    }

    /// The number of set bits. It is maintained on every change, so this is O(1).
    #[inline]
    pub fn count_ones(&self) -> usize
        ensures { result ≡ count_by (λ bit. bit) self.now }
    {
        self.ones
    }

    /// Whether every bit is set. This is O(1) too.
    #[inline]
    pub fn is_all_set(&self) -> bool
        ensures { result ≡ list_all (λ bit. bit) self.now }
    {
        self.count_ones() == self.len()
    }

    /// The words of the bit vector.
    pub fn words(&self) -> &[u64]
        ensures { result.now ≡ words_of 64 1 (marks self.now) }
    {
        &self.words
    }
}

impl PartialEq for Bits {
    ghost eq = { pointwise beq };

    ghost laws = { lists_per (partial_equiv_from_equiv bool_eq_equiv) };

    fn eq(&self, other: &Bits) -> bool {
        self.len == other.len && self.words == other.words
    }
}

impl Eq for Bits {
    ghost laws = { lists_equiv bool_eq_equiv };
}
