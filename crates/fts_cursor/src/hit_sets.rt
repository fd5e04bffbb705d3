// The hits of a query as a set, if each is told by its number: by bits and columns, without a list.
ghost use Rattle.std.specs.Prelude.{◌≡◌, ◌≤◌, ◌^◌, false, true, IfOk, IfSome, filter, length};
ghost use Rattle.std.specs.List.{list_all};
ghost use Rattle.std.specs.Option.{option_map_or};
ghost use Rattle.fts_model.specs.Operations.{kind_at};
ghost use Rattle.fts_model.specs.Queries.{is_range_of, query_fits};
ghost use Rattle.fts_model.specs.QueryValues.{every, query_value, range};
ghost use Rattle.fts_segment.specs.Segments.{postings};
ghost use Rattle.fts_cursor.specs.Hits.{live_hits, segment_hits};
ghost use Rattle.fts_cursor.specs.Tests.{HasMore, hits_of_each, is_kept};
ghost use Rattle.fts_postings.specs.Sets.{has, in_all, in_some};

use crate::range::bounds_of;
use fts_model::{FieldValue, Query, Term};
use fts_pack::bits::Bits;
use fts_segment::Segment;
use fts_sets::{DocIdSet, Leaf};
use std::alloc::{AllocError, Global};
use std::ops::Bound;

/// The live hits of a query, if bits and columns suffice to tell them: if each of its terms is in many documents, and it
/// has no phrase and no Boolean query with musts or must-nots within another.
///
/// No block of a list is opened. The only refusal is that of memory.
pub fn hit_set<'a>(
    alloc: Global,
    segment: &'a Segment,
    live: &'a Bits,
    query: &Query,
) -> Result<Option<DocIdSet<'a>>, AllocError>
    requires bits { length live.now ≡ length segment.now.documents }
    requires fits { query_fits segment.now.schema (query_value query.now) ≡ true }
    ensures { IfOk result (λ found. IfSome found
        (λ hits. hits ≡ live_hits segment.now live.now (query_value query.now))) }
{
    let mut hits = DocIdSet::every(alloc, segment.docs());
    hits.with(Leaf::Set(live))?;
    if keep_hits(alloc, segment, query, 0, &mut hits)? {
        Ok(Some(hits))
    } else {
        Ok(None)
    }
}

/// Keeps of a set the hits of a query, or returns false if they aren't told by their numbers, or if fewer than `least`
/// documents are in one of its ranges.
pub(crate) fn keep_hits<'a>(
    alloc: Global,
    segment: &'a Segment,
    query: &Query,
    least: usize,
    set: &mut DocIdSet<'a>,
) -> Result<bool, AllocError>
    requires { query_fits segment.now.schema (query_value query.now) ≡ true }
    ensures { IfOk result (λ told. told ≡ true →
        set.new ≡ filter (has (segment_hits segment.now (query_value query.now))) set.old) }
{
    let Query::Bool {
        must,
        must_not,
        should,
    } = query
    else {
        return keep_query(alloc, segment, query, least, set);
    };
    if !keep_kept(alloc, segment, must, should, least, set)? {
        return Ok(false);
    }
    let mut leaves = Vec::new(alloc);
    if !push_queries(segment, must_not, least, &mut leaves)? {
        return Ok(false);
    }
    set.without_each(&leaves)?;
    Ok(true)
}

/// Keeps of a set what matches all musts, or one of the shoulds if there is no must.
fn keep_kept<'a>(
    alloc: Global,
    segment: &'a Segment,
    must: &[Query],
    should: &[Query],
    least: usize,
    set: &mut DocIdSet<'a>,
) -> Result<bool, AllocError>
    requires must { list_all (λ q. query_fits segment.now.schema (query_value q)) must.now ≡ true }
    requires should { list_all (λ q. query_fits segment.now.schema (query_value q)) should.now ≡ true }
    ensures { IfOk result (λ told. told ≡ true → set.new
        ≡ filter (is_kept (hits_of_each segment.now must.now) (hits_of_each segment.now should.now)) set.old) }
{
    if !must.is_empty() {
        return keep_each(alloc, segment, must, least, set);
    }
    let mut leaves = Vec::new(alloc);
    if !push_queries(segment, should, least, &mut leaves)? {
        return Ok(false);
    }
    set.with_any(leaves)?;
    Ok(true)
}

/// Keeps of a set what matches each of the queries.
fn keep_each<'a>(
    alloc: Global,
    segment: &'a Segment,
    queries: &[Query],
    least: usize,
    set: &mut DocIdSet<'a>,
) -> Result<bool, AllocError>
    requires { list_all (λ q. query_fits segment.now.schema (query_value q)) queries.now ≡ true }
    ensures { IfOk result (λ told. told ≡ true →
        set.new ≡ filter (in_all (hits_of_each segment.now queries.now)) set.old) }
{
    for query in queries {
        if !keep_query(alloc, segment, query, least, set)? {
            return Ok(false);
        }
    }
    Ok(true)
}

/// Keeps of a set what matches a query that has no musts and no must-nots.
pub(crate) fn keep_query<'a>(
    alloc: Global,
    segment: &'a Segment,
    query: &Query,
    least: usize,
    set: &mut DocIdSet<'a>,
) -> Result<bool, AllocError>
    requires { query_fits segment.now.schema (query_value query.now) ≡ true }
    ensures kept { IfOk result (λ told. told ≡ true →
        set.new ≡ filter (has (segment_hits segment.now (query_value query.now))) set.old) }
    ensures untold { IfOk result (λ told. told ≡ false → set.new ≡ set.old) }
{
    let mut leaves = Vec::new(alloc);
    if !push_query(segment, query, least, &mut leaves)? {
        return Ok(false);
    }
    set.with_any(leaves)?;
    Ok(true)
}

/// Adds tests one of which a document passes if and only if it matches the query, or returns false if there are no such
/// tests.
#[cycle(tests)]
fn push_query<'a>(
    segment: &'a Segment,
    query: &Query,
    least: usize,
    leaves: &mut Vec<Leaf<'a>>,
) -> Result<bool, AllocError>
    requires { query_fits segment.now.schema (query_value query.now) ≡ true }
    ensures { IfOk result (λ told. told ≡ true →
        HasMore (has (segment_hits segment.now (query_value query.now))) leaves.old.items leaves.new.items) }
{
    match query {
        Query::All => push_all(segment, leaves),
        Query::None => Ok(true),
        Query::Term(term) => push_term(segment, term, leaves),
        Query::Phrase { .. } => Ok(false),
        Query::Range {
            field,
            lower,
            upper,
        } => push_range(segment, *field, lower, upper, least, leaves),
        Query::Bool {
            must,
            must_not,
            should,
        } => {
            if !must.is_empty() {
                return Ok(false);
            }
            if !must_not.is_empty() {
                return Ok(false);
            }
            push_queries(segment, should, least, leaves)
        }
    }
}

/// Adds tests one of which a document passes if and only if it matches one of the queries, or returns false.
#[cycle(tests)]
pub(crate) fn push_queries<'a>(
    segment: &'a Segment,
    queries: &[Query],
    least: usize,
    leaves: &mut Vec<Leaf<'a>>,
) -> Result<bool, AllocError>
    requires { list_all (λ q. query_fits segment.now.schema (query_value q)) queries.now ≡ true }
    ensures { IfOk result (λ told. told ≡ true →
        HasMore (in_some (hits_of_each segment.now queries.now)) leaves.old.items leaves.new.items) }
{
    for query in queries {
        if !push_query(segment, query, least, leaves)? {
            return Ok(false);
        }
    }
    Ok(true)
}

/// Adds the test that every document passes.
fn push_all<'a>(segment: &'a Segment, leaves: &mut Vec<Leaf<'a>>) -> Result<bool, AllocError>
    ensures { IfOk result (λ told. told ≡ true →
        HasMore (has (segment_hits segment.now every)) leaves.old.items leaves.new.items) }
{
    leaves.push(Leaf::Below(segment.docs()))?;
    Ok(true)
}

/// Adds the test of a term, or none if no document has it. Returns false if its list has no bits.
fn push_term<'a>(
    segment: &'a Segment,
    term: &Term,
    leaves: &mut Vec<Leaf<'a>>,
) -> Result<bool, AllocError>
    ensures { IfOk result (λ told. told ≡ true →
        HasMore (has (postings segment.now term.now)) leaves.old.items leaves.new.items) }
{
    let Some(list) = segment.find(term) else {
        return Ok(true);
    };
    let Some(bits) = segment.postings(list).bits() else {
        return Ok(false);
    };
    leaves.push(Leaf::Set(bits))?;
    Ok(true)
}

/// Adds the test of a range, or none if no number or text is within it. Returns false if fewer than `least` documents
/// are in it.
fn push_range<'a>(
    segment: &'a Segment,
    field: usize,
    lower: &Bound<FieldValue>,
    upper: &Bound<FieldValue>,
    least: usize,
    leaves: &mut Vec<Leaf<'a>>,
) -> Result<bool, AllocError>
    requires { option_map_or (is_range_of lower.now upper.now) (kind_at segment.now.schema field) false ≡ true }
    ensures { IfOk result (λ told. told ≡ true → HasMore
        (has (segment_hits segment.now (range field lower.now upper.now))) leaves.old.items leaves.new.items) }
{
    let Some((low, high)) = bounds_of(segment, field, lower, upper) else {
        return Ok(true);
    };
    if least > 0 && segment.documents_between(field, low, high) < least {
        return Ok(false);
    }
    let column = segment.column(field);
    leaves.push(Leaf::Within { column, low, high })?;
    Ok(true)
}
