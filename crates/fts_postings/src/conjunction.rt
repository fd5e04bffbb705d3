// A conjunction of posting cursors: one of them leads, and the others are sought for its documents alone.
ghost use Rattle.std.specs.Prelude.{◌≡◌, ℕ, ◌-◌, ◌^◌, ◌<◌, ◌≤◌, All, List, drop, length, min, slice_get};
ghost use Rattle.std.specs.Prelude.{slice_index_or};
ghost use Rattle.std.specs.List.{AllZip};
ghost use Rattle.fts_postings.specs.Conjoined.{AllFollow, AreFew, Brought, IsAhead, MayBeBrought, StandAt};
ghost use Rattle.fts_postings.specs.Conjoined.{StandTogether, bound_of, common_of, each_remaining, openings_of};
ghost use Rattle.fts_postings.specs.Bounds.{most_at};
ghost use Rattle.fts_postings.specs.Sets.{common};
ghost use Rattle.fts_pack.specs.Documents.{blocks_of};
ghost use Rattle.fts_postings.specs.Posting.{Follows, Posting, remaining_of};
ghost use Rattle.fts_postings.specs.Remaining.{at_least};
ghost use Rattle.fts_postings.specs.Takes.{IsStretch, Takes};

use crate::doc_set::DocSet;
use crate::posting::PostingCursor;
use fts_pack::Blocks;
use std::marker::Model;

/// A conjunction of posting cursors.
#[derive(Drop)]
pub struct Conjunction<B: Blocks + Drop> {
    lead: PostingCursor<B>,
    others: Vec<PostingCursor<B>>,
}

impl<B: Blocks + Drop> Model for Conjunction<B> {
    ghost use Rattle.fts_postings.specs.Conjoined.{Conjoined, IsConjoined};

    ghost Value = { Conjoined };

    ghost view = { λ c. record { lead = c.lead; others = c.others.items } };

    ghost invariant = { λ c. IsConjoined c.lead c.others.items };
}

impl<B: Blocks + Drop> Conjunction<B> {
    /// Takes the cursor that leads, which is best that of the shortest list, and the others as they were made.
    pub fn new(lead: PostingCursor<B>, others: Vec<PostingCursor<B>>) -> Conjunction<B>
        requires fresh { All (λ p. p.opened ≤ 1) others.items }
        ensures remaining { common_of result
            ≡ common (remaining_of lead) (each_remaining others.items) }
        ensures follows { AllFollow (record { lead = lead; others = others.items }) result }
    {
        let mut lead = lead;
        let mut others = others;
        align(&mut lead, &mut others);
        Conjunction { lead, others }
    }

    /// How many documents remain at most, or the greatest `usize`.
    pub fn cost(&self) -> usize
        ensures { min (2 ^ 64 - 1) (length (common_of self.now)) ≤ result }
    {
        self.lead.cost()
    }

    /// The place in the leading list of the document at which all cursors are.
    pub fn lead_posting(&self) -> usize
        requires stands { 0 < length (common_of self.now) }
        requires few { length self.now.lead.blocks ≤ 2 ^ 32 }
        ensures { (documents : List ℕ) → self.now.lead.blocks ≡ blocks_of documents
            → slice_get (drop result documents) 0 ≡ slice_get (common_of self.now) 0 }
    {
        self.lead.posting()
    }

    /// The place in another list of the document at which all cursors are.
    pub fn other_posting(&self, other: usize) -> usize
        requires inside { other < length self.now.others }
        requires stands { 0 < length (common_of self.now) }
        requires few { All (λ p. length p.blocks ≤ 2 ^ 32) self.now.others }
        ensures { (documents : List ℕ) (p : Posting) →
            (slice_index_or self.now.others other p).blocks ≡ blocks_of documents
            → slice_get (drop result documents) 0 ≡ slice_get (common_of self.now) 0 }
    {
        self.others[other].posting()
    }

    /// How many blocks were opened since the cursors were made, or the greatest `u64`.
    ///
    /// Wherever the cursors are, they are no more than the blocks of the leading list, and for each other list one when
    /// its cursor was made and one for each document of the leading list up to the one at which all are.
    pub fn openings(&self) -> u64
        ensures sum { result ≡ min (2 ^ 64 - 1) (openings_of self.now) }
        ensures bound { openings_of self.now
            ≤ most_at (bound_of self.now) (slice_get (common_of self.now) 0) }
    {
        let mut sum = self.lead.openings();
        for other in &self.others {
            sum = sum.saturating_add(other.openings());
        }
        sum
    }

    /// Copies some of the first documents that remain after what fills `out` so far, at least one if there is any, and
    /// passes them. If there is one list alone, it takes the rest of the open block.
    pub fn take_stretch(&mut self, out: &mut [u32; 128], filled: usize) -> usize
        requires { filled < 128 }
        ensures taken { IsStretch (common_of self.old) (common_of self.new) out.old out.new filled result }
        ensures follows { AllFollow self.old self.new }
    {
        if self.others.is_empty() {
            return self.lead.take_block(out, filled);
        }
        let Some(doc) = self.doc() else {
            return 0;
        };
        out[filled] = doc;
        self.advance();
        1
    }
}

impl<B: Blocks + Drop> DocSet for Conjunction<B> {
    ghost remaining = { common_of };

    #[inline]
    fn doc(&self) -> Option<u32> {
        self.lead.doc()
    }

    fn advance(&mut self)
        ensures remaining { common_of self.new ≡ drop 1 (common_of self.old) }
        ensures follows { AllFollow self.old self.new }
    {
        self.lead.advance();
        align(&mut self.lead, &mut self.others);
    }

    fn seek(&mut self, target: u32)
        ensures remaining { common_of self.new ≡ at_least target (common_of self.old) }
        ensures follows { AllFollow self.old self.new }
    {
        if let Some(doc) = self.lead.doc() {
            if doc < target {
                self.lead.seek(target);
                align(&mut self.lead, &mut self.others);
            }
        }
    }

    /// Takes what lies open of a list alone, or goes by steps.
    fn take(&mut self, out: &mut [u32; 128]) -> usize
        ensures taken { Takes (common_of self.old) (common_of self.new) out.new result }
        ensures follows { AllFollow self.old self.new }
    {
        let mut taken = 0;
        while taken < 128 {
            let count = self.take_stretch(out, taken);
            if count == 0 {
                return taken;
            }
            taken += count;
        }
        128
    }
}

/// Seeks the document with each of the others in turn, and returns the first document that all may have: that one, if
/// all are at it, or a later one. `None` if one of them is at its end.
fn bring<B: Blocks + Drop>(others: &mut [PostingCursor<B>], doc: u32) -> Option<u32>
    ensures each { Brought doc others.old others.new }
    ensures next { IsAhead doc (each_remaining others.new) result }
    ensures stand { result ≡ Some doc → StandAt doc others.new }
{
    for other in others.iter_mut() {
        other.seek(doc);
        let next = other.doc()?;
        if next != doc {
            return Some(next);
        }
    }
    Some(doc)
}

/// Brings all to the first document that they have in common, or the leading one to its end.
fn align<B: Blocks + Drop>(lead: &mut PostingCursor<B>, others: &mut [PostingCursor<B>])
    requires few { MayBeBrought lead.old others.old }
    ensures common { common (remaining_of lead.new) (each_remaining others.new)
        ≡ common (remaining_of lead.old) (each_remaining others.old) }
    ensures together { StandTogether lead.new others.new }
    ensures few { AreFew lead.new others.new }
    ensures lead { Follows lead.old lead.new }
    ensures others { AllZip Follows others.old others.new }
{
    while let Some(doc) = lead.doc() {
        match bring(others, doc) {
            Some(next) if next == doc => return,
            Some(next) => lead.seek(next),
            None => lead.finish(),
        }
    }
}
