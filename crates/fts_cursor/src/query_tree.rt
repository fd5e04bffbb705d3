// The cursor of a query: a tree of cursors, one for each query within it.
ghost use Rattle.std.specs.Prelude.{◌≡◌, ◌-◌, ◌^◌, ◌≤◌, ◌<◌, true, IfOk, IsOkUnless, MatchOption, None, Some};
ghost use Rattle.std.specs.Prelude.{All, EachIndex, List, [], ◌∷◌, length, map, min, slice_index};
ghost use Rattle.std.specs.List.{AllZip, list_all};
ghost use Rattle.std.specs.List.Sorted.{IsStrictlyIncreasing};
ghost use Rattle.fts_model.specs.Queries.{matches, query_fits};
ghost use Rattle.fts_model.specs.QueryValues.{every, phrase, query_list, query_value};
ghost use Rattle.fts_pack.specs.Documents.{block_count};
ghost use Rattle.fts_segment.specs.Segments.{numbers_where, positions, postings};
ghost use Rattle.fts_cursor.specs.Hits.{live_hits, segment_hits};
ghost use Rattle.fts_postings.specs.Bounds.{most_at};
ghost use Rattle.fts_postings.specs.Sets.{common, union};
ghost use Rattle.fts_cursor.specs.Builds.{IsCursorOf, IsMemberFor, LacksTerm, text_term};
ghost use Rattle.fts_cursor.specs.Most.{Opens, most_for, most_for_all};
ghost use Rattle.fts_cursor.specs.Musts.{AreMusts};
ghost use Rattle.fts_cursor.specs.Shoulds.{AreShoulds};
ghost use Rattle.fts_segment.specs.ListIds.{documents_in, positions_in};
ghost use Rattle.fts_cursor.specs.Standing.{at_most};
ghost use Rattle.fts_cursor.specs.TreeValues.{TreeValue, all_most, remains};

use crate::any::{Shoulds, told_by, union_of};
use crate::cursor::Cursor;
use crate::hit_sets::keep_query;
use crate::phrase::{Member, PhraseCursor};
use crate::range::{fewest_scanned, of_range};
use crate::term_lists::cursor_over;
use crate::terms::{are_terms, of_terms};
use crate::told::{set_without, told};
use crate::tree::Tree;
use fts_model::{FieldValue, Query, Refusal, Term, Text};
use fts_pack::ListSource;
use fts_pack::bits::Bits;
use fts_postings::{Conjunction, PostingCursor};
use fts_segment::{ListId, Segment};
use fts_sets::{DocIdSet, Leaf, SetCursor};
use std::alloc::{AllocError, Global};

/// The cursor of a query over the documents of a segment whose bits are set.
///
/// The only refusal is `Memory`. What the cursor needs later is made here: its steps take no memory.
pub fn cursor_of<'a>(
    alloc: Global,
    segment: &'a Segment,
    live: &'a Bits,
    query: &Query,
) -> Result<Cursor<'a>, Refusal>
    requires bits { length live.now ≡ length segment.now.documents }
    requires fits { query_fits segment.now.schema (query_value query.now) ≡ true }
    ensures hits { IfOk result
        (λ c. c.remaining ≡ live_hits segment.now live.now (query_value query.now)) }
    ensures opens { IfOk result (λ c. Opens segment.now (query_value query.now) c) }
    ensures memory { IsOkUnless result Refusal.Memory }
{
    match live_tree(alloc, segment, live, query) {
        Err(AllocError) => Err(Refusal::Memory),
        Ok(tree) => Ok(Cursor::new(tree)),
    }
}

/// The documents that match a query and whose bits are set.
fn live_tree<'a>(
    alloc: Global,
    segment: &'a Segment,
    live: &'a Bits,
    query: &Query,
) -> Result<Tree<'a>, AllocError>
    requires bits { length live.now ≡ length segment.now.documents }
    requires fits { query_fits segment.now.schema (query_value query.now) ≡ true }
    ensures hits { IfOk result
        (λ t. t.remaining ≡ live_hits segment.now live.now (query_value query.now)) }
    ensures opens { IfOk result (λ t. Opens segment.now (query_value query.now) t.standing) }
{
    let tree = tree_of(alloc, segment, query)?;
    if live.is_all_set() {
        return Ok(tree);
    }
    let mut set = DocIdSet::every(alloc, segment.docs());
    set.with(Leaf::Set(live))?;
    Tree::filtered(alloc, tree, set)
}

/// The documents that match a query.
#[cycle(build)]
fn tree_of<'a>(alloc: Global, segment: &'a Segment, query: &Query) -> Result<Tree<'a>, AllocError>
    requires fits { query_fits segment.now.schema (query_value query.now) ≡ true }
    ensures hits { IfOk result (λ t. t.remaining
        ≡ segment_hits segment.now (query_value query.now)) }
    ensures opens { IfOk result (λ t. Opens segment.now (query_value query.now) t.standing) }
{
    match query {
        Query::All => of_all(alloc, segment),
        Query::None => Ok(Tree::nothing()),
        Query::Term(term) => of_term(alloc, segment, term),
        Query::Phrase { field, pattern } => of_phrase(alloc, segment, *field, pattern),
        Query::Range {
            field,
            lower,
            upper,
        } => of_range(alloc, segment, *field, lower, upper),
        Query::Bool {
            must,
            must_not,
            should,
        } => {
            if let Some(tree) = told(alloc, segment, query)? {
                return Ok(tree);
            }
            let kept = if must.is_empty() {
                any_of(alloc, segment, should)?
            } else if are_terms(must) {
                of_terms(alloc, segment, must)?
            } else {
                all_of(alloc, segment, must)?
            };
            if must_not.is_empty() {
                return Ok(kept);
            }
            if let Some(set) = set_without(alloc, segment, must_not)? {
                return Tree::filtered(alloc, kept, set);
            }
            let dropped = any_of(alloc, segment, must_not)?;
            Tree::without(alloc, kept, dropped)
        }
    }
}

/// The documents that match one of these at least. One alone needs no list.
#[cycle(build)]
fn any_of<'a>(
    alloc: Global,
    segment: &'a Segment,
    queries: &[Query],
) -> Result<Tree<'a>, AllocError>
    requires fits { list_all (λ q. query_fits segment.now.schema (query_value q)) queries.now
        ≡ true }
    ensures hits { IfOk result (λ t. t.remaining
        ≡ union (map (λ q. segment_hits segment.now (query_value q)) queries.now)) }
    ensures alone { IfOk result (λ t. (q : Query) → queries.now ≡ q ∷ []
        → Opens segment.now (query_value q) t.standing) }
    ensures none { IfOk result (λ t. queries.now ≡ [] → t.bound ≡ at_most 0) }
    ensures most { IfOk result (λ t. most_at t.bound None
        ≤ most_for_all segment.now (query_list (map query_value queries.now))) }
{
    match queries {
        [] => Ok(Tree::nothing()),
        [query] => tree_of(alloc, segment, query),
        _ => union_of(alloc, shoulds_of(alloc, segment, queries)?),
    }
}

/// The bits of those of these that are terms whose lists have some, and cursors of the others.
#[cycle(build)]
fn shoulds_of<'a>(
    alloc: Global,
    segment: &'a Segment,
    queries: &[Query],
) -> Result<Shoulds<'a>, AllocError>
    requires fits { list_all (λ q. query_fits segment.now.schema (query_value q)) queries.now
        ≡ true }
    ensures { IfOk result (λ shoulds. AreShoulds segment.now queries.now shoulds.bits.items shoulds.parts.items) }
{
    let mut bits = Vec::new(alloc);
    let mut parts = Vec::new(alloc);
    for query in queries {
        if let Some(told) = told_by(segment, query) {
            bits.push(told)?;
        } else {
            parts.push(tree_of(alloc, segment, query)?)?;
        }
    }
    Ok(Shoulds { bits, parts })
}

// Queries that must all match: the documents of which bits and columns tell that they match some of these, and cursors
// of the others.
#[derive(Drop)]
struct Musts<'a> {
    set: DocIdSet<'a>,
    // Whether they tell of any query.
    is_told: bool,
    parts: Vec<Tree<'a>>,
}

/// The documents that match each of these.
#[cycle(build)]
fn all_of<'a>(
    alloc: Global,
    segment: &'a Segment,
    queries: &[Query],
) -> Result<Tree<'a>, AllocError>
    requires some { 0 < length queries.now }
    requires fits { list_all (λ q. query_fits segment.now.schema (query_value q)) queries.now
        ≡ true }
    ensures hits { IfOk result (λ t. t.remaining ≡ numbers_where
        (λ d. list_all (λ q. matches segment.now.schema d.value (query_value q)) queries.now)
        0 segment.now.documents) }
    ensures most { IfOk result (λ t. most_at t.bound None
        ≤ most_for_all segment.now (query_list (map query_value queries.now))) }
{
    let Musts {
        set,
        is_told,
        parts,
    } = musts_of(alloc, segment, queries)?;
    if parts.is_empty() {
        return Tree::scan(alloc, SetCursor::new(set, None));
    }
    let tree = all(alloc, parts)?;
    if !is_told {
        return Ok(tree);
    }
    Tree::filtered(alloc, tree, set)
}

/// What bits and columns tell of these, and cursors of the others. A range that few documents are in is better listed.
#[cycle(build)]
fn musts_of<'a>(
    alloc: Global,
    segment: &'a Segment,
    queries: &[Query],
) -> Result<Musts<'a>, AllocError>
    requires fits { list_all (λ q. query_fits segment.now.schema (query_value q)) queries.now
        ≡ true }
    ensures { IfOk result (λ musts. AreMusts segment.now queries.now musts.is_told musts.set musts.parts.items) }
{
    let docs = segment.docs();
    let mut set = DocIdSet::every(alloc, docs);
    let mut is_told = false;
    let mut parts = Vec::new(alloc);
    for query in queries {
        if keep_query(alloc, segment, query, fewest_scanned(docs), &mut set)? {
            is_told = true;
        } else {
            parts.push(tree_of(alloc, segment, query)?)?;
        }
    }
    Ok(Musts {
        set,
        is_told,
        parts,
    })
}

/// What all have in common. The part of the least cost leads, and is all if there is no other.
fn all<'a>(alloc: Global, parts: Vec<Tree<'a>>) -> Result<Tree<'a>, AllocError>
    requires { 0 < length parts.items }
    ensures remaining { IfOk result (λ t. (first : TreeValue) (rest : List TreeValue) →
        parts.entry.items ≡ first ∷ rest
        → t.remaining ≡ common first.remaining (remains rest)) }
    ensures most { IfOk result (λ t. most_at t.bound None ≡ all_most parts.entry.items) }
{
    let mut parts = parts;
    let costs = costs_of(alloc, &parts)?;
    let lead = parts.remove(place_of_least(&costs));
    if parts.is_empty() {
        return Ok(lead);
    }
    let lead = Box::new(alloc, lead)?;
    Tree::and(alloc, lead, parts)
}

/// How many documents remain of each part at most, or the greatest `usize`.
fn costs_of(alloc: Global, parts: &[Tree]) -> Result<Vec<usize>, AllocError>
    ensures bounds { IfOk result (λ costs. AllZip
        (λ cost part. min (2 ^ 64 - 1) (length part.remaining) ≤ cost)
        costs.items parts.now) }
    ensures rise { IfOk result (λ costs.
        All (λ part. IsStrictlyIncreasing part.remaining) parts.now) }
{
    let mut costs = Vec::with_capacity(alloc, parts.len())?;
    for part in parts {
        costs.push(part.cost())?;
    }
    Ok(costs)
}

/// The place of the least number.
fn place_of_least(numbers: &[usize]) -> usize
    requires { 0 < length numbers.now }
    ensures inside { result < length numbers.now }
    ensures least { EachIndex numbers.now (λ k. slice_index numbers.now result
        ≤ slice_index numbers.now k) }
{
    let mut least = 0;
    for place in 1..numbers.len() {
        if numbers[place] < numbers[least] {
            least = place;
        }
    }
    least
}

/// Every document.
#[inline(never)]
fn of_all(alloc: Global, segment: &Segment) -> Result<Tree<'_>, AllocError>
    ensures remaining { IfOk result (λ t. t.remaining ≡ segment_hits segment.now every) }
    ensures bound { IfOk result (λ t. t.bound ≡ at_most 0) }
{
    let docs = segment.docs();
    let every = DocIdSet::every(alloc, docs);
    Tree::scan(alloc, SetCursor::new(every, Some(docs)))
}

/// The documents that have a term.
fn of_term<'a>(alloc: Global, segment: &'a Segment, term: &Term) -> Result<Tree<'a>, AllocError>
    ensures remaining { IfOk result (λ t. t.remaining ≡ postings segment.now term.now) }
    ensures bound { IfOk result
        (λ t. t.bound ≡ at_most (block_count (length (postings segment.now term.now)))) }
    ensures whole { IfOk result (λ t. t.whole ≡ true) }
    ensures list { IfOk result (λ t. t.list ≡ Some (postings segment.now term.now)) }
{
    match segment.find(term) {
        None => Ok(Tree::nothing()),
        Some(list) => Tree::postings(alloc, segment.postings(list)),
    }
}

/// The documents with a phrase.
#[inline(never)]
fn of_phrase<'a>(
    alloc: Global,
    segment: &'a Segment,
    field: usize,
    pattern: &[(u32, Text)],
) -> Result<Tree<'a>, AllocError>
    requires { query_fits segment.now.schema (phrase field pattern.now) ≡ true }
    ensures remaining { IfOk result (λ t. t.remaining ≡ segment_hits segment.now (phrase field pattern.now)) }
    ensures most { IfOk result (λ t. most_at t.bound None ≤ most_for segment.now (phrase field pattern.now)) }
{
    let Some(members) = members_of(alloc, segment, field, pattern)? else {
        return Ok(Tree::nothing());
    };
    // Shows the proof that the numbers of documents are few.
    let _ = segment.docs();
    let mut cursors = cursors_of(alloc, segment, &members)?;
    let lengths = lengths_of(alloc, segment, &members)?;
    let shortest = place_of_least(&lengths);
    let lead = cursors.remove(shortest);
    let terms = Conjunction::new(lead, cursors);
    let mut others = members;
    let first = others.remove(shortest);
    let first = Box::new(alloc, first)?;
    Tree::phrase(alloc, PhraseCursor::new(terms, first, others))
}

/// How many documents have the term of each member.
fn lengths_of<'a>(
    alloc: Global,
    segment: &'a Segment,
    members: &[Member<'a>],
) -> Result<Vec<usize>, AllocError>
    ensures { IfOk result (λ lengths.
        AllZip (λ count m. count ≡ length (documents_in m.list)) lengths.items members.now) }
{
    let mut lengths = Vec::with_capacity(alloc, members.len())?;
    for member in members {
        lengths.push(segment.postings(member.list).len())?;
    }
    Ok(lengths)
}

/// The lists of a phrase's terms, and none if one of them has no documents.
fn members_of<'a>(
    alloc: Global,
    segment: &'a Segment,
    field: usize,
    pattern: &[(u32, Text)],
) -> Result<Option<Vec<Member<'a>>>, AllocError>
    ensures { IfOk result (λ found. MatchOption found
        (LacksTerm segment.now field pattern.now)
        (λ members. AllZip (IsMemberFor segment.now field) pattern.now members.items)) }
{
    let mut members = Vec::with_capacity(alloc, pattern.len())?;
    for (offset, text) in pattern {
        match find_text(segment, field, text)? {
            None => return Ok(None),
            Some(list) => members.push(Member {
                list,
                positions: segment.positions(list),
                offset: *offset,
            })?,
        }
    }
    Ok(Some(members))
}

/// The list of a text as a term.
fn find_text<'a>(
    segment: &'a Segment,
    field: usize,
    text: &Text,
) -> Result<Option<ListId<'a>>, AllocError>
    ensures { IfOk result (λ found. MatchOption found
        (postings segment.now (text_term field text.now) ≡ [])
        (λ list. (documents_in list ≡ postings segment.now (text_term field text.now))
        × (positions_in list ≡ positions segment.now (text_term field text.now)))) }
{
    let value = FieldValue::Text(text.clone()?);
    Ok(segment.find(&Term { field, value }))
}

/// A cursor for each list.
fn cursors_of<'a>(
    alloc: Global,
    segment: &'a Segment,
    members: &[Member<'a>],
) -> Result<Vec<PostingCursor<ListSource<'a>>>, AllocError>
    ensures { IfOk result (λ cursors. AllZip IsCursorOf cursors.items members.now) }
{
    let mut cursors = Vec::with_capacity(alloc, members.len())?;
    for member in members {
        cursors.push(cursor_over(segment.postings(member.list)))?;
    }
    Ok(cursors)
}
