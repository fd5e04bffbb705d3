// A cursor over the blocks of one list. One block is open at a time.
ghost use Rattle.std.specs.Prelude.{◌≡◌, ℕ, ◌+◌, ◌-◌, ◌^◌, ◌<◌, ◌≤◌, List, [], drop, length, min, slice_index_or, take};
ghost use Rattle.std.specs.Prelude.{◌||◌, All, if◌then◌else◌, nat_lt, slice_index};
ghost use Rattle.std.specs.List.Sorted.{IsStrictlyIncreasing};
ghost use Rattle.fts_pack.specs.Documents.{blocks_of, last_of};
ghost use Rattle.fts_postings.specs.Takes.{IsStretch, Takes};
ghost use Rattle.fts_postings.specs.Sets.{has};
ghost use Rattle.fts_postings.specs.Posting.{Follows, Walks, blocks_reached, here, members_of, opened_by_step};
ghost use Rattle.fts_postings.specs.Posting.{remaining_of};
ghost use Rattle.fts_postings.specs.Remaining.{at_least, IsPlaceOf};
ghost use Rattle.fts_postings.specs.Windows.{found_in};

use crate::doc_set::DocSet;
use crate::stretch::{copy_part, place_of};
use crate::window::Window;
use fts_pack::Blocks;
use std::marker::Model;

/// A cursor over the blocks of one list. Its open block is in the value.
#[derive(Drop)]
pub struct PostingCursor<B: Blocks> {
    source: B,
    block: usize,
    at: usize,
    len: usize,
    opened: u64,
    numbers: [u32; 128],
}

impl<B: Blocks> Model for PostingCursor<B> {
    ghost use Rattle.fts_postings.specs.Posting.{Posting, IsPosting};

    ghost Value = { Posting };

    ghost view = { λ c. record {
      blocks = B.contents c.source;
      block = c.block;
      at = c.at;
      opened = c.opened;
      count = B.openings c.source;
    } };

    ghost invariant = { λ c. IsPosting (B.contents c.source) c.block c.at c.len c.opened c.numbers };
}

impl<B: Blocks> PostingCursor<B> {
    /// Opens the first block, if there is one.
    pub fn new(blocks: B) -> PostingCursor<B>
        ensures blocks { result.blocks ≡ B.contents blocks }
        ensures first { (result.block ≡ 0) × (result.at ≡ 0) }
        ensures opened { result.opened ≡ (if nat_lt 0 (length (B.contents blocks)) then 1 else 0) }
        ensures counted { result.count ≡ B.openings blocks + result.opened }
    {
        let mut cursor = PostingCursor {
            block: blocks.blocks(),
            source: blocks,
            at: 0,
            len: 0,
            opened: 0,
            numbers: [0; 128],
        };
        cursor.enter(0);
        cursor
    }

    /// The place in its list of the document at which it is. All blocks but the last have 128 documents.
    pub fn posting(&self) -> usize
        requires stands { 0 < length (remaining_of self.now) }
        requires few { length self.now.blocks ≤ 2 ^ 32 }
        ensures { (documents : List ℕ) → self.now.blocks ≡ blocks_of documents
            → drop result documents ≡ remaining_of self.now }
    {
        self.block * 128 + self.at
    }

    /// How many blocks were opened since it was made, the first included. Contracts learn here that its members rise.
    pub fn openings(&self) -> u64
        ensures opened { result ≡ self.now.opened }
        ensures bound { result ≤ blocks_reached self.now }
        ensures end { remaining_of self.now ≡ [] → blocks_reached self.now
            ≡ length self.now.blocks }
        ensures rises { IsStrictlyIncreasing (members_of self.now) }
    {
        self.opened
    }

    /// How many documents remain at most, or the greatest `usize`: as if each block that is left were full.
    pub fn cost(&self) -> usize
        ensures { min (2 ^ 64 - 1) (length (remaining_of self.now)) ≤ result }
    {
        (self.source.blocks() - self.block).saturating_mul(128)
    }

    /// Marks the documents of the open block that have a place in the window, passes them, and returns how many they
    /// are. The document at which it is has a place.
    #[inline]
    pub fn mark_open(&mut self, window: &mut Window) -> usize
        requires some { 0 < length (remaining_of self.old) }
        requires low { remaining_of self.old ≡ at_least window.old.from (remaining_of self.old) }
        requires place { slice_index (remaining_of self.old) 0 ≤ window.old.last }
        ensures some { 0 < result }
        ensures within { result ≤ length (remaining_of self.old) }
        ensures remaining { remaining_of self.new ≡ drop result (remaining_of self.old) }
        ensures walks { Walks self.old self.new }
        ensures place { (window.new.from ≡ window.old.from) × (window.new.last ≡ window.old.last) }
        ensures places { All (λ d. d ≤ window.old.last) (take result (remaining_of self.old)) }
        ensures marked { (d : ℕ) →
            has (found_in window.new.base window.new.from window.new.last window.new.words) d
            ≡ (has (found_in window.old.base window.old.from window.old.last window.old.words) d
            || has (take result (remaining_of self.old)) d) }
    {
        let count = window.mark_some(&self.numbers[self.at..self.len]);
        self.leave(count);
        count
    }

    /// How many documents remain, or the greatest `usize`. Opens each block that is left, and passes all.
    pub fn count(&mut self) -> usize
        ensures count { result ≡ min (2 ^ 64 - 1) (length (remaining_of self.old)) }
        ensures none { remaining_of self.new ≡ [] }
        ensures walks { Walks self.old self.new }
    {
        let mut count = 0usize;
        while self.at < self.len {
            let here = self.len - self.at;
            self.leave(here);
            count = count.saturating_add(here);
        }
        count
    }

    /// Passes all documents that remain.
    pub(crate) fn finish(&mut self)
        ensures nothing { remaining_of self.new ≡ [] }
        ensures follows { Follows self.old self.new }
    {
        self.block = self.source.blocks();
        self.at = 0;
        self.len = 0;
    }

    /// Goes to the beginning of a block, or to the end. It is kept out of what calls it, which seldom goes there.
    #[inline(never)]
    fn enter(&mut self, block: usize)
        requires few { self.old.opened ≤ block }
        requires within { block ≤ length self.old.blocks }
        ensures place { (self.new.block ≡ block) × (self.new.at ≡ 0) }
        ensures opened { self.new.opened
            ≡ self.old.opened + (if nat_lt block (length self.old.blocks) then 1 else 0) }
        ensures follows { Follows self.old self.new }
    {
        self.block = block;
        self.at = 0;
        self.len = 0;
        if block < self.source.blocks() {
            self.len = self.source.open(block, &mut self.numbers);
            self.opened += 1;
        }
    }

    /// Passes this many documents of the open block.
    #[inline]
    fn leave(&mut self, count: usize)
        requires some { 0 < count }
        requires within { self.old.at + count ≤ length (here self.old) }
        ensures remaining { remaining_of self.new ≡ drop count (remaining_of self.old) }
        ensures walks { Walks self.old self.new }
    {
        if self.at + count < self.len {
            self.at += count;
        } else {
            let next = self.block + 1;
            self.enter(next);
        }
    }

    /// Copies what fits of the rest of the open block after what fills `out` so far, and passes it.
    pub(crate) fn take_block(&mut self, out: &mut [u32; 128], filled: usize) -> usize
        requires { filled < 128 }
        ensures taken { IsStretch (remaining_of self.old) (remaining_of self.new) out.old out.new
            filled result }
        ensures walks { Walks self.old self.new }
    {
        if self.at >= self.len {
            return 0;
        }
        let count = (self.len - self.at).min(128 - filled);
        copy_part(&self.numbers, self.at, count, out, filled);
        self.leave(count);
        count
    }
}

impl<B: Blocks> DocSet for PostingCursor<B> {
    ghost remaining = { remaining_of };

    #[inline]
    fn doc(&self) -> Option<u32> {
        if self.at < self.len {
            Some(self.numbers[self.at])
        } else {
            None
        }
    }

    /// Opens a block exactly if the open one ends here and another follows.
    #[inline]
    fn advance(&mut self)
        ensures remaining { remaining_of self.new ≡ drop 1 (remaining_of self.old) }
        ensures opened { self.new.opened ≡ self.old.opened + opened_by_step self.old }
        ensures walks { Walks self.old self.new }
    {
        if self.at >= self.len {
            return;
        }
        if self.at + 1 < self.len {
            self.at += 1;
        } else {
            let next = self.block + 1;
            self.enter(next);
        }
    }

    /// Looks in the open block first, and otherwise opens the one block in which the target is or would be, if there is
    /// one.
    fn seek(&mut self, target: u32)
        ensures remaining { remaining_of self.new ≡ at_least target (remaining_of self.old) }
        ensures once { self.new.opened ≤ self.old.opened + 1 }
        ensures follows { Follows self.old self.new }
    {
        if self.at >= self.len {
            return;
        }
        if self.numbers[self.len - 1] < target {
            let block = block_of(&self.source, self.block + 1, target);
            self.enter(block);
        }
        self.at = place_of(&self.numbers, self.at, self.len, target);
    }

    /// Copies what is left of the open block.
    fn take(&mut self, out: &mut [u32; 128]) -> usize
        ensures taken { Takes (remaining_of self.old) (remaining_of self.new) out.new result }
        ensures walks { Walks self.old self.new }
    {
        self.take_block(out, 0)
    }
}

/// The first block from `from` on that ends with the target or more: the number of blocks if there is none. Looks at
/// the next first, then at ever farther ones, and halves what is left between.
#[inline(never)]
fn block_of<B: Blocks>(source: &B, from: usize, target: u32) -> usize
    requires { from ≤ length (B.contents source.now) }
    ensures { IsPlaceOf (λ k. last_of (slice_index_or (B.contents source.now) k [])) from
        (length (B.contents source.now)) target result }
{
    let to = source.blocks();
    let mut low = from;
    while low - from < to - low {
        let block = low + (low - from);
        if source.last(block) >= target {
            return block_between(source, low, block, target);
        }
        low = block + 1;
    }
    block_between(source, low, to, target)
}

/// The first of the blocks `from..to` that ends with the target or more: `to` if there is none.
fn block_between<B: Blocks>(source: &B, from: usize, to: usize, target: u32) -> usize
    requires order { from ≤ to }
    requires within { to ≤ length (B.contents source.now) }
    ensures { IsPlaceOf (λ k. last_of (slice_index_or (B.contents source.now) k [])) from to
        target result }
{
    let mut low = from;
    let mut high = to;
    while low < high {
        let middle = low + (high - low) / 2;
        if source.last(middle) < target {
            low = middle + 1;
        } else {
            high = middle;
        }
    }
    low
}
