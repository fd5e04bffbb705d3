// The cursor of queries one of which must match. It works by words if the lists of terms have bits.
ghost use Rattle.std.specs.Prelude.{◌≡◌, ℕ, ◌^◌, ◌<◌, ◌≤◌, ◌||◌, All, IfOk, IfSome, None, length, map, true};
ghost use Rattle.fts_model.specs.QueryValues.{query_value};
ghost use Rattle.fts_cursor.specs.Hits.{is_live, segment_hits};
ghost use Rattle.fts_cursor.specs.Standing.{at_most};
ghost use Rattle.fts_cursor.specs.TreeValues.{all_most, remains};
ghost use Rattle.fts_pack.specs.Documents.{Rises};
ghost use Rattle.fts_postings.specs.Bounds.{most_at};
ghost use Rattle.fts_postings.specs.Sets.{has, in_some};
ghost use Rattle.fts_sets.specs.Leaves.{in_one};

use crate::terms::{is_term, list_of};
use crate::tree::Tree;
use fts_model::Query;
use fts_pack::bits::Bits;
use fts_segment::Segment;
use fts_sets::{DocIdSet, SetCursor, leaves_of};
use std::alloc::{AllocError, Global};

/// Queries one of which must match: the bits of the lists of those that are terms and have some, and cursors of the
/// others.
#[derive(Drop)]
pub(crate) struct Shoulds<'a> {
    pub(crate) bits: Vec<&'a Bits>,
    pub(crate) parts: Vec<Tree<'a>>,
}

/// The bits of the list of a query, if it is a term whose list has some.
pub(crate) fn told_by<'a>(segment: &'a Segment, query: &Query) -> Option<&'a Bits>
    ensures tells { IfSome result (λ bits. (d : ℕ) →
        is_live bits.now d ≡ has (segment_hits segment.now (query_value query.now)) d) }
    ensures few { IfSome result (λ bits. length bits.now ≤ 2 ^ 32) }
{
    if !is_term(query) {
        return None;
    }
    list_of(segment, query)?.bits()
}

/// The documents that are set in some bits or that one of some cursors has. The bits are gone over together, by words.
pub(crate) fn union_of<'a>(alloc: Global, shoulds: Shoulds<'a>) -> Result<Tree<'a>, AllocError>
    requires { All (λ b. length b.now ≤ 2 ^ 32) shoulds.bits.items }
    ensures has { IfOk result (λ t. (d : ℕ) → has t.remaining d
        ≡ (in_one shoulds.entry.bits.items d || in_some (remains shoulds.entry.parts.items) d)) }
    ensures rises { IfOk result (λ t. Rises 0 t.remaining) }
    ensures most { IfOk result (λ t. most_at t.bound None ≤ all_most shoulds.entry.parts.items) }
{
    let Shoulds { bits, mut parts } = shoulds;
    if bits.is_empty() {
        return Tree::or(alloc, parts);
    }
    let told = told(alloc, bits)?;
    if parts.is_empty() {
        return Ok(told);
    }
    parts.push(told)?;
    Tree::or(alloc, parts)
}

/// The documents that are set in at least one of some bits.
fn told<'a>(alloc: Global, bits: Vec<&'a Bits>) -> Result<Tree<'a>, AllocError>
    requires { All (λ b. length b.now ≤ 2 ^ 32) bits.items }
    ensures has { IfOk result (λ t. (d : ℕ) → has t.remaining d ≡ in_one bits.entry.items d) }
    ensures rises { IfOk result (λ t. Rises 0 t.remaining) }
    ensures bound { IfOk result (λ t. t.bound ≡ at_most 0) }
{
    let leaves = leaves_of(alloc, &bits)?;
    let docs = longest(&bits);
    let mut set = DocIdSet::every(alloc, docs);
    set.with_any(leaves)?;
    Tree::scan(alloc, SetCursor::new(set, None))
}

/// How many documents have a bit in one of these at most.
fn longest(list: &[&Bits]) -> usize
    requires { All (λ b. length b.now ≤ 2 ^ 32) list.now }
    ensures longest { All (λ b. length b.now ≤ result) list.now }
    ensures few { result ≤ 2 ^ 32 }
{
    let mut docs = 0usize;
    for bits in list {
        docs = docs.max(bits.len());
    }
    docs
}
