// A cursor over the documents that have a phrase. Positions are read only in documents that have all of its terms.
ghost use Rattle.std.specs.Prelude.{◌≡◌, ℕ, ◌+◌, ◌-◌, ◌^◌, ◌<◌, ◌≤◌, ◌==◌, Some, true, IfOk};
ghost use Rattle.std.specs.Prelude.{◌∷◌, [], drop, filter, length, min, slice_get, slice_index_or};
ghost use Rattle.std.specs.List.{list_all, list_any};
ghost use Rattle.fts_model.specs.Queries.{query_fits};
ghost use Rattle.fts_model.specs.QueryValues.{phrase};
ghost use Rattle.fts_cursor.specs.declared.phrase.Member.{Member};
ghost use Rattle.fts_postings.specs.Bounds.{most_at};
ghost use Rattle.fts_postings.specs.Conjoined.{AllFollow, bound_of, common_of};
ghost use Rattle.fts_postings.specs.Sets.{FirstPasses};
ghost use Rattle.fts_cursor.specs.Phrases.{AreMembersOf, is_behind, phrase_at};
ghost use Rattle.fts_postings.specs.Remaining.{at_least};
ghost use Rattle.fts_postings.specs.Takes.{Takes};
ghost use Rattle.fts_cursor.specs.Standing.{Continues, Walked};
ghost use Rattle.fts_cursor.specs.Terms.{AreTied};

use fts_pack::ListSource;
use fts_positions::PositionReader;
use fts_postings::{Conjunction, DocSet};
use fts_segment::ListId;
use std::marker::Model;

/// A member of a phrase: the list of its term, its positions in the documents of the list, and its offset.
#[derive(Drop)]
pub(crate) struct Member<'a> {
    pub(crate) list: ListId<'a>,
    pub(crate) positions: PositionReader<'a>,
    pub(crate) offset: u32,
}

/// A cursor over the documents in which the terms are at their offsets from some one position.
#[derive(Drop)]
pub(crate) struct PhraseCursor<'a> {
    terms: Conjunction<ListSource<'a>>,
    /// The first member has a box, since what its reader keeps would make each node of a tree larger.
    first: Box<Member<'a>>,
    others: Vec<Member<'a>>,
}

impl<'a> Model for PhraseCursor<'a> {
    ghost use Rattle.std.specs.Prelude.{◌∷◌, filter};
    ghost use Rattle.fts_cursor.specs.Standing.{Standing};

    ghost Value = { Standing };

    ghost use Rattle.fts_postings.specs.Bounds.{most_at};
    ghost use Rattle.fts_postings.specs.Conjoined.{common_of};
    ghost use Rattle.fts_cursor.specs.Phrases.{IsPhrase, phrase_at};
    ghost use Rattle.fts_cursor.specs.Terms.{of_terms};

    ghost view = { λ c. of_terms c.terms (filter (phrase_at (c.first.value ∷ c.others.items)) (common_of c.terms)) };

    ghost invariant = { λ c. IsPhrase c.terms (c.first.value ∷ c.others.items) };
}

impl<'a> PhraseCursor<'a> {
    /// Takes the terms as they were made, and a member for each: that of the leading cursor, and the others in turn.
    pub(crate) fn new(
        terms: Conjunction<ListSource<'a>>,
        first: Box<Member<'a>>,
        others: Vec<Member<'a>>,
    ) -> PhraseCursor<'a>
        requires tied { AreTied terms }
        requires members { AreMembersOf terms (first.value ∷ others.items) }
        ensures remaining { result.remaining
            ≡ filter (phrase_at (first.entry.value ∷ others.entry.items)) (common_of terms.entry) }
        ensures bound { result.bound ≡ bound_of terms.entry }
    {
        let mut terms = terms;
        let mut first = first;
        let mut others = others;
        settle(&mut terms, &mut first, &mut others);
        PhraseCursor {
            terms,
            first,
            others,
        }
    }

    /// How many documents remain at most, or the greatest `usize`.
    pub(crate) fn cost(&self) -> usize
        ensures { min (2 ^ 64 - 1) (length self.now.remaining) ≤ result }
    {
        self.terms.cost()
    }

    /// How many blocks were opened since the cursors were made, or the greatest `u64`.
    pub(crate) fn openings(&self) -> u64
        ensures sum { result ≡ min (2 ^ 64 - 1) self.now.openings }
        ensures bound { self.now.openings
            ≤ most_at self.now.bound (slice_get self.now.remaining 0) }
    {
        self.terms.openings()
    }
}

impl<'a> DocSet for PhraseCursor<'a> {
    ghost remaining = { λ c. c.remaining };

    fn doc(&self) -> Option<u32> {
        self.terms.doc()
    }

    fn advance(&mut self)
        ensures remaining { self.new.remaining ≡ drop 1 self.old.remaining }
        ensures walked { Walked self.old self.new }
    {
        self.terms.advance();
        settle(&mut self.terms, &mut self.first, &mut self.others);
    }

    fn seek(&mut self, target: u32)
        ensures remaining { self.new.remaining ≡ at_least target self.old.remaining }
        ensures continues { Continues self.old self.new }
    {
        self.terms.seek(target);
        settle(&mut self.terms, &mut self.first, &mut self.others);
    }

    fn take(&mut self, out: &mut [u32; 128]) -> usize
        ensures taken { Takes self.old.remaining self.new.remaining out.new result }
        ensures walked { Walked self.old self.new }
    {
        for taken in 0..128 {
            let Some(doc) = self.doc() else {
                return taken;
            };
            out[taken] = doc;
            self.advance();
        }
        128
    }
}

/// Passes over documents in which the phrase isn't.
fn settle(terms: &mut Conjunction<ListSource>, first: &mut Member, others: &mut [Member])
    requires { AreMembersOf terms.old (first.old ∷ others.old) }
    ensures same { filter (phrase_at (first.old ∷ others.old)) (common_of terms.new)
        ≡ filter (phrase_at (first.old ∷ others.old)) (common_of terms.old) }
    ensures settled { FirstPasses (phrase_at (first.old ∷ others.old)) (common_of terms.new) }
    ensures follows { AllFollow terms.old terms.new }
    ensures first { first.new ≡ first.old }
    ensures others { others.new ≡ others.old }
{
    while let Some(_doc) = terms.doc() {
        if stands(terms, first, others) {
            return;
        }
        terms.advance();
    }
}

/// Whether the phrase is in the document at which its terms do.
fn stands(terms: &Conjunction<ListSource>, first: &mut Member, others: &mut [Member]) -> bool
    requires some { 0 < length (common_of terms.now) }
    requires members { AreMembersOf terms.now (first.old ∷ others.old) }
    ensures stands { (doc : ℕ) → slice_get (common_of terms.now) 0 ≡ Some doc
        → result ≡ phrase_at (first.old ∷ others.old) doc }
    ensures first { first.new ≡ first.old }
    ensures others { others.new ≡ others.old }
{
    let mut positions = first.positions.get(terms.lead_posting());
    while let Some(position) = positions.next() {
        if all_follow(terms, others, first.offset, position) {
            return true;
        }
    }
    false
}

/// Whether each of the other members has a position that is as far after this one as its offset is after the first
/// one's.
fn all_follow(
    terms: &Conjunction<ListSource>,
    others: &mut [Member],
    offset: u32,
    position: u32,
) -> bool
    requires some { 0 < length (common_of terms.now) }
    requires members { (first : Member) × AreMembersOf terms.now (first ∷ others.old) }
    ensures follow { (doc : ℕ) → slice_get (common_of terms.now) 0 ≡ Some doc
        → result ≡ list_all (is_behind offset position doc) others.old }
    ensures same { others.new ≡ others.old }
{
    for (k, member) in others.iter_mut().enumerate() {
        if !follows(member, terms.other_posting(k), offset, position) {
            return false;
        }
    }
    true
}

/// Whether a member has, in the document of a posting, a position as far after this one as its offset is after the
/// other.
fn follows(member: &mut Member, posting: usize, offset: u32, position: u32) -> bool
    ensures follows { result
        ≡ list_any (λ q. q + offset == position + member.old.offset)
        (slice_index_or member.old.positions posting []) }
    ensures same { member.new ≡ member.old }
{
    let sum = u64::from(position) + u64::from(member.offset);
    match sum.checked_sub(u64::from(offset)) {
        Some(wanted) => member.positions.has(posting, wanted),
        None => false,
    }
}
