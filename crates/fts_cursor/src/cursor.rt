// The cursor of a query: of the documents that match, those that are live remain.
ghost use Rattle.std.specs.Prelude.{◌≡◌, ◌-◌, ◌^◌, ◌≤◌, true, [], MatchOption, drop, length, min, slice_get};
ghost use Rattle.fts_postings.specs.Bounds.{most_at};
ghost use Rattle.fts_postings.specs.Remaining.{at_least};
ghost use Rattle.fts_postings.specs.Takes.{Takes};
ghost use Rattle.fts_cursor.specs.Standing.{Continues, OpensAlong, OpensOnce, Walked};

use crate::tree::Tree;
use fts_postings::DocSet;
use std::marker::Model;

/// The live documents of a segment that match a query, from the first on. It borrows the segment and its bits.
///
/// Contracts see what remains, how often its sources opened a block, the bound on its openings by the document at which
/// it is, whether it goes over one list and has opened each block up to there, and, if it goes over one list alone,
/// that list.
#[derive(Drop)]
pub struct Cursor<'a> {
    tree: Tree<'a>,
}

impl<'a> Model for Cursor<'a> {
    ghost use Rattle.fts_cursor.specs.Standing.{Standing};

    ghost Value = { Standing };

    ghost view = { λ c. c.tree.standing };
}

impl<'a> Cursor<'a> {
    /// The cursor of the documents of a tree.
    pub(crate) fn new(tree: Tree<'a>) -> Cursor<'a>
        ensures { result ≡ tree.entry.standing }
    {
        Cursor { tree }
    }

    /// The number of blocks that were opened since the cursor was made, those of the making included, or the greatest
    /// `u64`. It is never more than the bound at the document where the cursor is.
    pub fn openings(&self) -> u64
        ensures sum { result ≡ min (2 ^ 64 - 1) self.now.openings }
        ensures bound { self.now.openings
            ≤ most_at self.now.bound (slice_get self.now.remaining 0) }
        ensures end { self.now.whole ≡ true → self.now.remaining ≡ []
            → self.now.openings ≡ most_at self.now.bound None }
        ensures along { OpensAlong self.now }
    {
        self.tree.openings()
    }

    /// The number of documents that remain, or the greatest `usize`, if it can be found without listing them; it passes
    /// them then. It can for documents that words of bits give, for a list and for a union, and for what is filtered by a
    /// set, as a list and a union are if some documents of the segment aren't live.
    pub fn count(&mut self) -> Option<usize>
        ensures counted { MatchOption result (self.new ≡ self.old)
            (λ count. (count ≡ min (2 ^ 64 - 1) (length self.old.remaining)) × (self.new.remaining ≡ [])) }
        ensures walked { Walked self.old self.new }
    {
        self.tree.count()
    }
}

impl<'a> DocSet for Cursor<'a> {
    ghost remaining = { λ c. c.remaining };

    #[inline]
    fn doc(&self) -> Option<u32> {
        self.tree.doc()
    }

    fn advance(&mut self)
        ensures remaining { self.new.remaining ≡ drop 1 self.old.remaining }
        ensures walked { Walked self.old self.new }
    {
        self.tree.advance();
    }

    /// If the cursor goes over one list, it opens at most one block, and if documents aren't live, also the blocks that
    /// it steps through from the target's place to the next live document.
    fn seek(&mut self, target: u32)
        ensures remaining { self.new.remaining ≡ at_least target self.old.remaining }
        ensures continues { Continues self.old self.new }
        ensures once { OpensOnce target self.old self.new }
    {
        self.tree.seek(target);
    }

    fn take(&mut self, out: &mut [u32; 128]) -> usize
        ensures taken { Takes self.old.remaining self.new.remaining out.new result }
        ensures walked { Walked self.old self.new }
    {
        self.tree.take(out)
    }
}
