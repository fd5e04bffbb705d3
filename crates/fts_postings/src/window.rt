// The documents found among the next 4,096.
ghost use Rattle.std.specs.Prelude.{◌≡◌, ℕ, ◌+◌, ◌^◌, ◌<◌, ◌≤◌, ◌∷◌, ◌||◌, ◌&&◌, ◌==◌, [], All, IfSome, MatchBool};
ghost use Rattle.std.specs.Prelude.{drop, false, filter, nat_le, ◌-◌, ◌%◌, length, slice_get, slice_index, take, true};
ghost use Rattle.std.specs.Int.{bit_at};
ghost use Rattle.std.specs.List.Sorted.{IsStrictlyIncreasing};
ghost use Rattle.fts_postings.specs.Sets.{has, with_one};
ghost use Rattle.fts_postings.specs.Remaining.{at_least};
ghost use Rattle.fts_postings.specs.Takes.{IsStretch, Takes};
ghost use Rattle.fts_postings.specs.Windows.{AreMarksFrom, found_in, is_found, is_set};

use crate::marks;
use crate::stretch::place_of;
use fts_pack::bits::Bits;

/// The documents marked among those of `from..=last`, at most 4,096.
#[derive(Drop)]
pub struct Window {
    /// The document of the first bit.
    pub base: u32,
    /// The first document that wasn't passed.
    pub from: u64,
    /// The last document that has a place.
    pub last: u32,
    /// A bit for each document from `base` on, 64 a word, the first of them the lowest: set if the document is found.
    pub words: [u64; 64],
    pub ghost aligned: { base % 64 ≡ 0 },
    pub ghost order: { base ≤ from },
    pub ghost few: { last ≤ base + 4095 },
    pub ghost fits: { last < 2 ^ 32 },
}

impl Window {
    /// A window with nothing marked.
    pub fn new() -> Window
        ensures { found_in result.base result.from result.last result.words ≡ [] }
    {
        Window {
            base: 0,
            from: 0,
            last: 0,
            words: [0; 64],
        }
    }

    /// Begins anew with nothing marked, for `doc` and the documents after it that are no more than `reach` above the
    /// first of the 64 to which `doc` belongs. So words of bits begin at the same documents as the window's.
    pub fn begin(&mut self, doc: u32, reach: u32)
        requires { reach ≤ 4095 }
        ensures from { self.new.from ≡ doc }
        ensures last { doc ≤ self.new.last }
        ensures nothing { found_in self.new.base self.new.from self.new.last self.new.words ≡ [] }
    {
        let base = doc / 64 * 64;
        let last = base.saturating_add(reach).max(doc);
        self.words = [0; 64];
        self.base = base;
        self.from = doc as u64;
        self.last = last;
    }

    /// Whether it has a place for the document, which isn't below its first.
    #[inline]
    pub fn covers(&self, doc: u32) -> bool
        ensures { MatchBool result (doc ≤ self.now.last) (self.now.last < doc) }
    {
        doc <= self.last
    }

    /// Marks the document.
    #[inline]
    pub fn mark(&mut self, doc: u32)
        requires low { self.old.from ≤ doc }
        requires high { doc ≤ self.old.last }
        ensures place { (self.new.from ≡ self.old.from) × (self.new.last ≡ self.old.last) }
        ensures marked { found_in self.new.base self.new.from self.new.last self.new.words
            ≡ with_one doc (found_in self.old.base self.old.from self.old.last self.old.words) }
    {
        let place = (doc - self.base) as usize;
        self.words[place / 64] |= 1 << (place % 64);
    }

    /// Marks the first of the documents, up to one that has no place, and gives how many they are.
    #[inline]
    pub fn mark_some(&mut self, docs: &[u32]) -> usize
        requires low { All (λ d. self.old.from ≤ d) docs.now }
        requires rises { IsStrictlyIncreasing docs.now }
        ensures place { (self.new.from ≡ self.old.from) × (self.new.last ≡ self.old.last) }
        ensures within { result ≤ length docs.now }
        ensures some { 0 < length docs.now → slice_index docs.now 0 ≤ self.old.last → 0 < result }
        ensures places { All (λ d. d ≤ self.old.last) (take result docs.now) }
        ensures marked { (d : ℕ) → has (found_in self.new.base self.new.from self.new.last self.new.words) d
            ≡ (has (found_in self.old.base self.old.from self.old.last self.old.words) d
            || has (take result docs.now) d) }
    {
        let count = self.count_covered(docs);
        self.mark_all(&docs[..count]);
        count
    }

    /// How many of the documents have a place. Mostly all have one, and then only the last is looked at.
    #[inline]
    fn count_covered(&self, docs: &[u32]) -> usize
        requires { IsStrictlyIncreasing docs.now }
        ensures within { result ≤ length docs.now }
        ensures some { 0 < length docs.now → slice_index docs.now 0 ≤ self.now.last → 0 < result }
        ensures places { All (λ d. d ≤ self.now.last) (take result docs.now) }
    {
        let count = docs.len();
        if count == 0 || self.covers(docs[count - 1]) {
            return count;
        }
        place_of(docs, 0, count, self.last + 1)
    }

    /// Marks the documents, each of which has a place.
    #[inline]
    fn mark_all(&mut self, docs: &[u32])
        requires low { All (λ d. self.old.from ≤ d) docs.now }
        requires high { All (λ d. d ≤ self.old.last) docs.now }
        ensures place { (self.new.from ≡ self.old.from) × (self.new.last ≡ self.old.last) }
        ensures marked { (d : ℕ) → has (found_in self.new.base self.new.from self.new.last self.new.words) d
            ≡ (has (found_in self.old.base self.old.from self.old.last self.old.words) d || has docs.now d) }
    {
        for doc in docs {
            self.mark(*doc);
        }
    }

    /// Marks the documents whose bits are set in words of 64 from a place on, as far as there are places.
    #[inline]
    pub fn mark_words(&mut self, start: u64, words: &[u64])
        requires low { self.old.base ≤ start }
        requires aligned { start % 64 ≡ 0 }
        ensures place { (self.new.from ≡ self.old.from) × (self.new.last ≡ self.old.last) }
        ensures base { self.new.base ≡ self.old.base }
        ensures marked { (d : ℕ) → self.old.base ≤ d → d ≤ self.old.last → is_found self.new.base self.new.words d
            ≡ (is_found self.old.base self.old.words d || (nat_le start d && is_found start words.now d)) }
    {
        let first = (start - self.base as u64) as usize / 64;
        let count = words.len().min(64usize.saturating_sub(first));
        for index in 0..count {
            self.words[first + index] |= words[index];
        }
    }

    /// The bits of the 64 documents from a place on, the first of them the lowest.
    #[inline]
    fn word(&self, start: u64) -> u64
        requires low { self.now.base ≤ start }
        requires high { start + 64 ≤ self.now.base + 4096 }
        requires aligned { (start - self.now.base) % 64 ≡ 0 }
        ensures { AreMarksFrom start self.now.base self.now.words result }
    {
        let place = (start - self.base as u64) as usize;
        self.words[place / 64]
    }

    /// The first document that is marked. Places without marks before it are passed.
    #[inline]
    pub fn first(&mut self) -> Option<u32>
        ensures first { result ≡ slice_get (found_in self.old.base self.old.from self.old.last self.old.words) 0 }
        ensures same { found_in self.new.base self.new.from self.new.last self.new.words
            ≡ found_in self.old.base self.old.from self.old.last self.old.words }
        ensures last { self.new.last ≡ self.old.last }
        ensures stands { IfSome result (λ doc. (self.new.from ≡ doc)
            × (found_in self.new.base self.new.from self.new.last self.new.words
            ≡ doc ∷ found_in self.new.base (doc + 1) self.new.last self.new.words)) }
    {
        while self.from <= self.last as u64 {
            if self.pass_word() && self.from <= self.last as u64 {
                return Some(self.from as u32);
            }
        }
        None
    }

    /// Passes the places before the first mark in the word of the first place, or all of that word if it has none.
    /// Returns whether it has one.
    #[inline]
    fn pass_word(&mut self) -> bool
        requires { self.old.from ≤ self.old.last }
        ensures same { found_in self.new.base self.new.from self.new.last self.new.words
            ≡ found_in self.old.base self.old.from self.old.last self.old.words }
        ensures last { self.new.last ≡ self.old.last }
        ensures further { result ≡ false → self.old.from < self.new.from }
        ensures marked { result ≡ true → is_found self.new.base self.new.words self.new.from ≡ true }
    {
        let place = (self.from - self.base as u64) % 64;
        let start = self.from - place;
        let marks = self.word(start) & (u64::MAX << place);
        if marks == 0 {
            self.from = start + 64;
            return false;
        }
        self.from = start + marks.trailing_zeros() as u64;
        true
    }

    /// Takes the first documents that are marked, as many as fit: writes them to the front of `out`, and returns how
    /// many they are.
    #[inline]
    pub fn take(&mut self, out: &mut [u32; 128]) -> usize
        ensures last { self.new.last ≡ self.old.last }
        ensures taken { Takes
            (found_in self.old.base self.old.from self.old.last self.old.words)
            (found_in self.new.base self.new.from self.new.last self.new.words)
            out.new result }
    {
        let mut taken = 0;
        while taken < 128 {
            let count = self.take_next(out, taken);
            if count == 0 {
                return taken;
            }
            taken += count;
        }
        128
    }

    /// Takes the marked documents of a whole word if all fit and the word ends no later than `last`, otherwise one
    /// document.
    #[inline]
    fn take_next(&mut self, out: &mut [u32; 128], filled: usize) -> usize
        requires { filled < 128 }
        ensures last { self.new.last ≡ self.old.last }
        ensures taken { IsStretch
            (found_in self.old.base self.old.from self.old.last self.old.words)
            (found_in self.new.base self.new.from self.new.last self.new.words)
            out.old out.new filled result }
    {
        let Some(doc) = self.first() else {
            return 0;
        };
        let place = (self.from - self.base as u64) % 64;
        let start = self.from - place;
        let marks = self.word(start) & (u64::MAX << place);
        let count = marks.count_ones() as usize;
        if filled + count > 128 || start + 63 > self.last as u64 {
            out[filled] = doc;
            self.from += 1;
            return 1;
        }
        let _ = marks::write(marks, start as usize, out, filled);
        self.from = start + 64;
        count
    }

    /// How many documents are marked. Passes all.
    pub fn count(&mut self) -> usize
        ensures count { result ≡ length (found_in self.old.base self.old.from self.old.last self.old.words) }
        ensures last { self.new.last ≡ self.old.last }
        ensures none { found_in self.new.base self.new.from self.new.last self.new.words ≡ [] }
    {
        let mut count = 0;
        while self.from <= self.last as u64 {
            count += self.count_word();
            count += self.count_words();
        }
        count
    }

    /// How many documents are marked and have a bit that is set. Passes all.
    pub fn count_set(&mut self, bits: &Bits) -> usize
        ensures count { result ≡ length (filter (is_set bits.now)
            (found_in self.old.base self.old.from self.old.last self.old.words)) }
        ensures last { self.new.last ≡ self.old.last }
        ensures none { found_in self.new.base self.new.from self.new.last self.new.words ≡ [] }
    {
        self.keep_set(bits);
        self.count()
    }

    /// Leaves only the marked documents that have a bit that is set.
    fn keep_set(&mut self, bits: &Bits)
        ensures kept { found_in self.new.base self.new.from self.new.last self.new.words
            ≡ filter (is_set bits.now) (found_in self.old.base self.old.from self.old.last self.old.words) }
        ensures last { self.new.last ≡ self.old.last }
    {
        bits.and_into(self.base as usize / 64, &mut self.words);
    }

    /// Passes the documents of the word of the first place, and returns how many of them are marked.
    #[inline]
    fn count_word(&mut self) -> usize
        requires { self.old.from ≤ self.old.last }
        ensures count { result + length (found_in self.new.base self.new.from self.new.last self.new.words)
            ≡ length (found_in self.old.base self.old.from self.old.last self.old.words) }
        ensures last { self.new.last ≡ self.old.last }
        ensures further { self.old.from < self.new.from }
        ensures whole { (self.new.from - self.new.base) % 64 ≡ 0 }
    {
        let place = (self.from - self.base as u64) % 64;
        let start = self.from - place;
        let marks = self.word(start) & (u64::MAX << place);
        let behind = (start + 63).saturating_sub(self.last as u64);
        let inside = marks & (u64::MAX >> behind);
        self.from = start + 64;
        inside.count_ones() as usize
    }

    /// Passes the documents of all words from the first place on, except for one that ends after the last, and returns
    /// how many are marked. The first place begins a word.
    #[inline]
    fn count_words(&mut self) -> usize
        requires { (self.old.from - self.old.base) % 64 ≡ 0 }
        ensures count { result + length (found_in self.new.base self.new.from self.new.last self.new.words)
            ≡ length (found_in self.old.base self.old.from self.old.last self.old.words) }
        ensures last { self.new.last ≡ self.old.last }
        ensures further { self.old.from ≤ self.new.from }
    {
        let first = (self.from - self.base as u64) as usize / 64;
        let end = (self.last as u64 + 1).saturating_sub(self.base as u64) as usize / 64;
        let mut count = 0;
        for index in first..end {
            count += self.words[index].count_ones() as usize;
        }
        self.from = self.from.max(self.base as u64 + end as u64 * 64);
        count
    }

    /// Passes the first document.
    #[inline]
    pub fn advance(&mut self)
        ensures last { self.new.last ≡ self.old.last }
        ensures marked { found_in self.new.base self.new.from self.new.last self.new.words
            ≡ drop 1 (found_in self.old.base self.old.from self.old.last self.old.words) }
    {
        if let Some(doc) = self.first() {
            self.from = doc as u64 + 1;
        }
    }

    /// Passes the documents below the target.
    #[inline]
    pub fn seek(&mut self, target: u32)
        ensures last { self.new.last ≡ self.old.last }
        ensures marked { found_in self.new.base self.new.from self.new.last self.new.words
            ≡ at_least target (found_in self.old.base self.old.from self.old.last self.old.words) }
    {
        self.from = self.from.max(target as u64);
    }

    /// An upper bound on the marked documents.
    pub fn cost(&self) -> usize
        ensures { length (found_in self.now.base self.now.from self.now.last self.now.words) ≤ result }
    {
        (self.last as u64 + 1).saturating_sub(self.from) as usize
    }

    /// How far a window from the target on is to reach, once nothing is left of this one. After steps, whose target is
    /// 0, it takes as much as it can, but for the first. A search that comes from far takes the one document that it
    /// asks for, since the next may go as far again.
    pub fn reach(&self, target: u32) -> u32
        ensures { result ≤ 4095 }
    {
        if target > self.last.saturating_add(128) {
            0
        } else if target > 0 || self.last == 0 {
            127
        } else {
            4095
        }
    }
}
