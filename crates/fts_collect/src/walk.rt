// The first hits of a segment from the sorted end of a column: of the documents with the best numbers, those that are
// hits.
ghost use Rattle.std.specs.Prelude.{◌≡◌, ◌<◌, ◌≤◌, ◌++◌, ◌∷◌, ◌⊎◌, ℕ, [], true, false, All, Contains, IfOk, IfSome};
ghost use Rattle.std.specs.Prelude.{OnOk, filter, length};
ghost use Rattle.fts_model.specs.Queries.{is_number_field};
ghost use Rattle.fts_pack.specs.ListRange.{lists_in_range};
ghost use Rattle.fts_pack.specs.ListRef.{listed};
ghost use Rattle.fts_postings.specs.Sets.{has};
ghost use Rattle.fts_segment.specs.Segments.{column};
ghost use Rattle.fts_parts.specs.Collected.{AreHits};
ghost use Rattle.fts_collect.specs.Internals.Walks.{IsBetween, IsEnd, RanksMore, hits_between};

use fts_model::{Order, Top};
use fts_pack::{Blocks, ListRange, ListRef};
use fts_parts::{Ranking, TopK, numbers_of};
use fts_segment::Segment;
use fts_sets::DocIdSet;
use std::alloc::{AllocError, Global};

/// Adds a document to others, if it is a hit.
#[inline]
fn push_hit(hits: &DocIdSet, doc: u32, found: &mut Vec<u32>) -> Result<(), AllocError>
    ensures { OnOk result (found.new.items
        ≡ found.old.items ++ filter (has hits.now) (doc ∷ [])) }
{
    if hits.has(doc as usize) {
        found.push(doc)?;
    }
    Ok(())
}

/// Adds those of the documents to others that are hits.
fn push_hits(hits: &DocIdSet, docs: &[u32], found: &mut Vec<u32>) -> Result<(), AllocError>
    ensures { OnOk result (found.new.items
        ≡ found.old.items ++ filter (has hits.now) docs.now) }
{
    for doc in docs {
        push_hit(hits, *doc, found)?;
    }
    Ok(())
}

/// Adds those documents of a list to others that are hits. Its blocks are opened in `open`.
fn push_list(
    hits: &DocIdSet,
    list: ListRef<'_>,
    open: &mut [u32; 128],
    found: &mut Vec<u32>,
) -> Result<(), AllocError>
    ensures { OnOk result (found.new.items
        ≡ found.old.items ++ filter (has hits.now) (listed list.entry)) }
{
    let mut source = list.source();
    for block in 0..source.blocks() {
        let len = source.open(block, open);
        push_hits(hits, &open[..len], found)?;
    }
    Ok(())
}

/// The hits whose numbers in a field are between two, these included, list by list.
fn listed_between(
    alloc: Global,
    segment: &Segment,
    field: usize,
    hits: &DocIdSet,
    low: u64,
    high: u64,
) -> Result<Vec<u32>, AllocError>
    requires { is_number_field segment.now.schema field ≡ true }
    ensures sound { IfOk result (λ found.
        All (IsBetween (column segment.now field) hits.now low high) found.items) }
    ensures whole { IfOk result (λ found. (doc : ℕ) →
        IsBetween (column segment.now field) hits.now low high doc → Contains found.items doc) }
{
    let mut found = Vec::with_capacity(alloc, segment.documents_between(field, low, high))?;
    let mut open = [0u32; 128];
    let lists = segment.lists_between(field, low, high);
    for index in 0..lists.len() {
        push_list(hits, lists.get(index), &mut open, &mut found)?;
    }
    Ok(found)
}

/// The hits whose numbers in a field are between two, these included, in the order of their documents.
fn hits_between(
    alloc: Global,
    segment: &Segment,
    field: usize,
    hits: &DocIdSet,
    low: u64,
    high: u64,
) -> Result<Vec<u32>, AllocError>
    requires number { is_number_field segment.now.schema field ≡ true }
    requires hits { AreHits segment.now hits.now }
    ensures { IfOk result
        (λ found. found.items ≡ hits_between segment.now field hits.now low high) }
{
    let mut found = listed_between(alloc, segment, field, hits, low, high)?;
    found.sort_unstable();
    found.dedup();
    Ok(found)
}

/// The shortest front of the lists that has this many documents: the index of its last list.
fn place_from_first(lists: ListRange<'_>, docs: usize) -> Option<usize>
    ensures { IfSome result (λ place. place < length (lists_in_range lists.entry)) }
{
    let mut left = docs;
    for place in 0..lists.len() {
        left = left.saturating_sub(lists.get(place).len());
        if left == 0 {
            return Some(place);
        }
    }
    None
}

/// The shortest end of the lists that has this many documents: the index of its first list.
fn place_from_last(lists: ListRange<'_>, docs: usize) -> Option<usize>
    ensures { IfSome result (λ place. place < length (lists_in_range lists.entry)) }
{
    let mut left = docs;
    let mut place = lists.len();
    while place > 0 {
        place -= 1;
        left = left.saturating_sub(lists.get(place).len());
        if left == 0 {
            return Some(place);
        }
    }
    None
}

/// A number in a field such that this many documents have it or a better one; none if fewer documents have a number. No
/// block is opened.
fn number_at_place(segment: &Segment, field: usize, order: Order, docs: usize) -> Option<u64>
    requires { is_number_field segment.now.schema field ≡ true }
{
    let lists = segment.lists_between(field, 0, u64::MAX);
    let place = match order {
        Order::Rising => place_from_first(lists, docs)?,
        Order::Falling => place_from_last(lists, docs)?,
    };
    let list = lists.get(place);
    if list.is_empty() {
        return None;
    }
    let doc = list.source().last(0);
    segment.column(field).get(doc as usize)
}

/// The bounds of the best numbers of a field that has numbers within a range: this many documents have one of these,
/// and those that share the last of them.
fn ends(segment: &Segment, field: usize, order: Order, range: (u64, u64), docs: usize) -> (u64, u64)
    requires { is_number_field segment.now.schema field ≡ true }
    ensures { IsEnd order range result.0 result.1 }
{
    let last = number_at_place(segment, field, order, docs);
    match order {
        Order::Rising => (range.0, last.unwrap_or(range.1)),
        Order::Falling => (last.unwrap_or(range.0), range.1),
    }
}

/// How many documents are looked at for the first `k` of this many hits: half as many again as there would be if hits
/// were spread evenly over the numbers, and a few more.
fn docs_for(k: u64, hits: usize, docs: usize) -> usize {
    let even = k.saturating_mul(docs as u64) / (hits as u64).max(1);
    even.saturating_add(even / 2).saturating_add(16) as usize
}

/// From how many documents on it takes longer to look at them than to offer each of this many hits.
fn most_docs(k: u64, hits: usize) -> usize {
    k.saturating_mul(4).saturating_add(hits as u64 / 4) as usize
}

/// Whether hits between two numbers are enough: they are `k` or more, or the range has no others.
fn are_enough(hits: &[u32], k: u64, bounds: (u64, u64), range: (u64, u64)) -> bool
    ensures { result ≡ true → (k ≤ length hits.now) ⊎ ((bounds.0 ≤ range.0) × (range.1 ≤ bounds.1)) }
{
    k <= hits.len() as u64 || (bounds.0 <= range.0 && range.1 <= bounds.1)
}

/// Offers the hits that have the best numbers, if it takes fewer steps than to offer all, and gives whether no other is
/// one of the first. Otherwise nothing is offered. There are about `count` hits.
pub(crate) fn offer_best(
    alloc: Global,
    segment: &Segment,
    top: Top,
    hits: &DocIdSet,
    count: usize,
    top_k: &mut TopK,
) -> Result<bool, AllocError>
    requires number { is_number_field segment.now.schema top.by ≡ true }
    requires hits { AreHits segment.now hits.now }
    ensures offered { IfOk result (λ done. done ≡ true →
        RanksMore segment.now top hits.now top_k.old top_k.new) }
    ensures kept { IfOk result (λ done. done ≡ false → top_k.new ≡ top_k.old) }
{
    let ranking = Ranking {
        segment,
        column: numbers_of(segment, top.by),
        order: top.order,
    };
    let Some((least, greatest)) = ranking.column.range() else {
        return Ok(false);
    };
    let range = (least, greatest);
    let docs = docs_for(top.k, count, segment.docs());
    let most = most_docs(top.k, count);
    if docs > most {
        return Ok(false);
    }
    let bounds = ends(segment, top.by, top.order, range, docs);
    if segment.documents_between(top.by, bounds.0, bounds.1) > most {
        return Ok(false);
    }
    let found = hits_between(alloc, segment, top.by, hits, bounds.0, bounds.1)?;
    let best: &[u32] = &found;
    if !are_enough(best, top.k, bounds, range) {
        return Ok(false);
    }
    ranking.offer_each(best, top_k)?;
    Ok(true)
}
