// The cursor of queries that are terms and must all match: one conjunction, led by the shortest list.
ghost use Rattle.std.specs.Prelude.{◌≡◌, ◌≢◌, ℕ, ◌≤◌, ◌<◌, nat_lt, false, true, if◌then◌else◌, IfOk, MatchOption};
ghost use Rattle.std.specs.Prelude.{None, Option, Some, [], ◌∷◌, length, map};
ghost use Rattle.std.specs.List.{list_all};
ghost use Rattle.fts_model.specs.Queries.{matches};
ghost use Rattle.fts_model.specs.QueryValues.{no_queries, queries, query_list, query_value};
ghost use Rattle.fts_pack.specs.ListRef.{listed};
ghost use Rattle.fts_segment.specs.Segments.{numbers_where};
ghost use Rattle.fts_cursor.specs.Builds.{is_term, only_term_in, term_in};
ghost use Rattle.fts_cursor.specs.Hits.{segment_hits};
ghost use Rattle.fts_cursor.specs.Leading.{IsLed};
ghost use Rattle.fts_cursor.specs.Openings.{bound_of_all};
ghost use Rattle.fts_postings.specs.Bounds.{most_at};
ghost use Rattle.fts_postings.specs.Sets.{in_all};

use crate::term_lists::of_lists;
use crate::tree::Tree;
use fts_model::{Query, Term};
use fts_pack::ListRef;
use fts_segment::Segment;
use std::alloc::{AllocError, Global};

/// Whether each of the queries is a term.
pub(crate) fn are_terms(queries: &[Query]) -> bool
    ensures { result ≡ list_all (λ q. is_term (query_value q)) queries.now }
{
    for query in queries {
        if !is_term(query) {
            return false;
        }
    }
    true
}

/// The documents that have each of the terms.
#[inline(never)]
pub(crate) fn of_terms<'a>(
    alloc: Global,
    segment: &'a Segment,
    queries: &[Query],
) -> Result<Tree<'a>, AllocError>
    requires some { 0 < length queries.now }
    requires terms { list_all (λ q. is_term (query_value q)) queries.now ≡ true }
    ensures remaining { IfOk result (λ t. t.remaining ≡ numbers_where
        (λ d. list_all (λ q. matches segment.now.schema d.value (query_value q)) queries.now)
        0 segment.now.documents) }
    ensures bound { IfOk result (λ t. (doc : Option ℕ) → most_at t.bound doc ≤ most_at
        (bound_of_all (map (λ q. segment_hits segment.now (query_value q)) queries.now)) doc) }
    ensures opened { IfOk result (λ t. t.remaining ≢ [] → length queries.now ≤ t.openings) }
{
    let Some(lists) = lists_of(alloc, segment, queries)? else {
        return Ok(Tree::nothing());
    };
    of_lists(alloc, lists.shortest, &lists.others)
}

// The lists of terms, led by the shortest.
#[derive(Drop)]
struct TermLists<'a> {
    shortest: ListRef<'a>,
    others: Vec<ListRef<'a>>,
}

/// The lists of terms, and none if no document has all of them.
fn lists_of<'a>(
    alloc: Global,
    segment: &'a Segment,
    queries: &[Query],
) -> Result<Option<TermLists<'a>>, AllocError>
    requires some { 0 < length queries.now }
    requires terms { list_all (λ q. is_term (query_value q)) queries.now ≡ true }
    ensures { IfOk result (λ found.
        let hits = map (λ q. segment_hits segment.now (query_value q)) queries.now in
        MatchOption found
        ((d : ℕ) → in_all hits d ≡ false)
        (λ lists. IsLed hits (listed lists.shortest) (map listed lists.others.items))) }
{
    let Some(mut shortest) = list_of(segment, &queries[0]) else {
        return Ok(None);
    };
    let mut others = Vec::with_capacity(alloc, queries.len())?;
    for place in 1..queries.len() {
        let Some(list) = list_of(segment, &queries[place]) else {
            return Ok(None);
        };
        let (shorter, longer) = by_length(shortest, list);
        shortest = shorter;
        others.push(longer)?;
    }
    Ok(Some(TermLists { shortest, others }))
}

/// The list of a term, and none if no document has it.
pub(crate) fn list_of<'a>(segment: &'a Segment, query: &Query) -> Option<ListRef<'a>>
    requires { is_term (query_value query.now) ≡ true }
    ensures { MatchOption result
        (segment_hits segment.now (query_value query.now) ≡ [])
        (λ list. listed list ≡ segment_hits segment.now (query_value query.now)) }
{
    let Some(term) = term_of(query) else {
        unreachable!();
    };
    Some(segment.postings(segment.find(term)?))
}

/// The term that a query is, alone or as its only should, as a word is if one field is marked default.
fn term_of(query: &Query) -> Option<&Term>
    ensures { MatchOption result
        (term_in (query_value query.now) ≡ None)
        (λ term. term_in (query_value query.now) ≡ Some term.now) }
{
    match query {
        Query::Term(term) => Some(term),
        Query::Bool {
            must,
            must_not,
            should,
        } => {
            if !must.is_empty() {
                return None;
            }
            if !must_not.is_empty() {
                return None;
            }
            only_term(should)
        }
        Query::All | Query::None | Query::Phrase { .. } | Query::Range { .. } => None,
    }
}

/// The term that is the only one of some queries.
#[tactic(auto, using(crate::proofs::TermLemmas::not_one, crate::proofs::TermLemmas::one_alone))]
fn only_term(queries: &[Query]) -> Option<&Term>
    ensures { MatchOption result
        (only_term_in (query_list (map query_value queries.now)) ≡ None)
        (λ term. only_term_in (query_list (map query_value queries.now)) ≡ Some term.now) }
{
    if queries.len() != 1 {
        return None;
    }
    alone(&queries[0])
}

/// The term that a query itself is.
fn alone(query: &Query) -> Option<&Term>
    ensures { MatchOption result
        (only_term_in (queries (query_value query.now) no_queries) ≡ None)
        (λ term. only_term_in (queries (query_value query.now) no_queries) ≡ Some term.now) }
{
    match query {
        Query::Term(term) => Some(term),
        Query::All
        | Query::None
        | Query::Phrase { .. }
        | Query::Range { .. }
        | Query::Bool { .. } => None,
    }
}

/// Two lists, the shorter first.
fn by_length<'a>(a: ListRef<'a>, b: ListRef<'a>) -> (ListRef<'a>, ListRef<'a>)
    ensures shorter { listed result.0 ≡ (if nat_lt (length (listed b.entry)) (length (listed a.entry))
        then listed b.entry else listed a.entry) }
    ensures longer { listed result.1 ≡ (if nat_lt (length (listed b.entry)) (length (listed a.entry))
        then listed a.entry else listed b.entry) }
{
    if b.len() < a.len() { (b, a) } else { (a, b) }
}

/// Whether the query is a term.
pub(crate) fn is_term(query: &Query) -> bool
    ensures { result ≡ is_term (query_value query.now) }
{
    term_of(query).is_some()
}
