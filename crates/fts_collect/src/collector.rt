// The answer over the live hits of one segment.
ghost use Rattle.std.specs.Prelude.{◌≡◌, ◌<◌, ◌≤◌, ◌^◌, List, [], true, All, IfOk, IfSome, OnOk, IsOkUnless};
ghost use Rattle.std.specs.Prelude.{MatchOption, Some, length, min, ◌-◌};
ghost use Rattle.fts_cursor.specs.Hits.{live_hits};
ghost use Rattle.fts_cursor.specs.Standing.{Walked};
ghost use Rattle.fts_model.specs.declared.operation.Term.{Term};
ghost use Rattle.fts_model.specs.Queries.{query_fits, request_fits};
ghost use Rattle.fts_model.specs.QueryValues.{query_value};
ghost use Rattle.fts_model.specs.Answers.{answer, answer_of, groups, top};
ghost use Rattle.fts_segment.specs.Contents.{content_of};
ghost use Rattle.fts_postings.specs.Bounds.{most_at};
ghost use Rattle.fts_cursor.specs.Most.{Opens};
ghost use Rattle.fts_cursor.specs.Openings.{HasMusts};
ghost use Rattle.fts_collect.specs.Openings.{AreWalked, OpensIn};
ghost use Rattle.fts_parts.specs.Collected.{AreHits, HasRanked, HasSeen, HasValues};
ghost use Rattle.fts_parts.specs.Collected.{hits_at};

use crate::walk::offer_best;
use fts_cursor::{Cursor, DocSet, cursor_of, hit_set};
use fts_model::{Query, Refusal, Request, Top};
use fts_pack::bits::Bits;
use fts_parts::{Part, Seen, TopK, nothing_seen, see, told};
use fts_segment::Segment;
use fts_sets::DocIdSet;
use std::alloc::{AllocError, Global};

/// The number of hits that remain of a cursor, or the greatest `usize`, if nothing else is asked for and the cursor can
/// count them; it passes them then.
fn count_alone(request: &Request, cursor: &mut Cursor<'_>) -> Option<usize>
    ensures alone { IfSome result (λ _. (request.now.groups ≡ None) × (request.now.top ≡ None)) }
    ensures counted { MatchOption result (cursor.new ≡ cursor.old)
        (λ count. (count ≡ min (2 ^ 64 - 1) (length cursor.old.remaining)) × (cursor.new.remaining ≡ [])) }
    ensures walked { Walked cursor.old cursor.new }
{
    if request.groups.is_none() && request.top.is_none() {
        cursor.count()
    } else {
        None
    }
}

/// Takes all hits that remain of a cursor: only counts them, if that is enough, and otherwise takes up to 128 at a
/// time.
fn see_all(
    segment: &Segment,
    request: &Request,
    cursor: &mut Cursor<'_>,
    seen: &mut Seen,
) -> Result<(), AllocError>
    requires fits { request_fits segment.now.schema request.now ≡ true }
    requires within { All (λ doc. doc < length segment.now.documents) cursor.old.remaining }
    requires none { HasSeen segment.now request.now [] seen.old }
    ensures seen { OnOk result (HasSeen segment.now request.now cursor.old.remaining seen.new) }
    ensures end { OnOk result (cursor.new.remaining ≡ []) }
    ensures walked { OnOk result (Walked cursor.old cursor.new) }
{
    if let Some(count) = count_alone(request, cursor) {
        seen.count = seen.count.saturating_add(count as u64);
        return Ok(());
    }
    let mut docs = [0u32; 128];
    let mut len = cursor.take(&mut docs);
    while len > 0 {
        see(segment, request, &docs[..len], seen)?;
        len = cursor.take(&mut docs);
    }
    Ok(())
}

/// Takes all hits that remain of a cursor for what the request asks for beside a top list, whose first keys are known.
fn see_beside(
    segment: &Segment,
    request: &Request,
    top: Top,
    top_k: TopK,
    cursor: &mut Cursor<'_>,
    seen: &mut Seen,
) -> Result<(), AllocError>
    requires fits { request_fits segment.now.schema request.now ≡ true }
    requires top { request.now.top ≡ Some top }
    requires ranked { HasRanked segment.now (Some top) cursor.old.remaining top_k }
    requires within { All (λ doc. doc < length segment.now.documents) cursor.old.remaining }
    requires none { HasSeen segment.now request.now [] seen.old }
    ensures seen { OnOk result (HasSeen segment.now request.now cursor.old.remaining seen.new) }
    ensures end { OnOk result (cursor.new.remaining ≡ []) }
    ensures walked { OnOk result (Walked cursor.old cursor.new) }
{
    let others = Request {
        groups: request.groups,
        top: None,
    };
    see_all(segment, &others, cursor, seen)?;
    seen.top_k = top_k;
    Ok(())
}

/// Takes all hits if a document's number suffices to test it and a top list is asked for: the first hits are looked for
/// among the documents with the best numbers. There are about `count` hits.
fn see_told(
    alloc: Global,
    segment: &Segment,
    hits: &DocIdSet,
    count: usize,
    request: &Request,
    top: Top,
    cursor: &mut Cursor<'_>,
    seen: &mut Seen,
) -> Result<(), AllocError>
    requires fits { request_fits segment.now.schema request.now ≡ true }
    requires top { request.now.top ≡ Some top }
    requires told { cursor.old.remaining ≡ hits.now }
    requires hits { AreHits segment.now cursor.old.remaining }
    requires none { HasSeen segment.now request.now [] seen.old }
    ensures seen { OnOk result (HasSeen segment.now request.now cursor.old.remaining seen.new) }
    ensures end { OnOk result (cursor.new.remaining ≡ []) }
    ensures walked { OnOk result (Walked cursor.old cursor.new) }
{
    let mut top_k = TopK::new(alloc, top.k as usize);
    let done = offer_best(alloc, segment, top, hits, count, &mut top_k)?;
    if done {
        return see_beside(segment, request, top, top_k, cursor, seen);
    }
    see_all(segment, request, cursor, seen)
}

/// Takes all hits that remain of the cursor of a query.
fn see_hits(
    alloc: Global,
    segment: &Segment,
    live: &Bits,
    query: &Query,
    request: &Request,
    cursor: &mut Cursor<'_>,
    seen: &mut Seen,
) -> Result<(), AllocError>
    requires fits { request_fits segment.now.schema request.now ≡ true }
    requires bits { length live.now ≡ length segment.now.documents }
    requires query { query_fits segment.now.schema (query_value query.now) ≡ true }
    requires hits { AreHits segment.now cursor.old.remaining }
    requires remaining { cursor.old.remaining ≡ live_hits segment.now live.now (query_value query.now) }
    requires none { HasSeen segment.now request.now [] seen.old }
    ensures seen { OnOk result (HasSeen segment.now request.now cursor.old.remaining seen.new) }
    ensures end { OnOk result (cursor.new.remaining ≡ []) }
    ensures walked { OnOk result (Walked cursor.old cursor.new) }
{
    let Some(top) = request.top else {
        return see_all(segment, request, cursor, seen);
    };
    let Some(hits) = hit_set(alloc, segment, live, query)? else {
        return see_all(segment, request, cursor, seen);
    };
    let count = hits.estimate();
    see_told(alloc, segment, &hits, count, request, top, cursor, seen)
}

/// The answer over the live hits of a segment, and how many blocks were opened to find them.
fn part_of(
    alloc: Global,
    segment: &Segment,
    live: &Bits,
    query: &Query,
    request: &Request,
    cursor: &mut Cursor<'_>,
) -> Result<Part, AllocError>
    requires fits { request_fits segment.now.schema request.now ≡ true }
    requires documents { HasValues segment.now }
    requires bits { length live.now ≡ length segment.now.documents }
    requires query { query_fits segment.now.schema (query_value query.now) ≡ true }
    requires hits { AreHits segment.now cursor.old.remaining }
    requires remaining { cursor.old.remaining ≡ live_hits segment.now live.now (query_value query.now) }
    ensures answer { IfOk result (λ part. part.answer
        ≡ answer_of request.now (hits_at segment.now cursor.old.remaining)) }
    ensures most { IfOk result (λ part. part.openings ≤ most_at cursor.old.bound None) }
    ensures least { IfOk result (λ part. min (2 ^ 64 - 1) cursor.old.openings ≤ part.openings) }
    ensures whole { IfOk result (λ part. cursor.old.whole ≡ true →
        part.openings ≡ min (2 ^ 64 - 1) (most_at cursor.old.bound None)) }
    ensures openings { IfOk result (λ part. part.openings ≡ min (2 ^ 64 - 1) cursor.new.openings) }
    ensures within { OnOk result (cursor.new.openings ≤ most_at cursor.new.bound None) }
    ensures end { OnOk result (cursor.new.remaining ≡ []) }
    ensures walked { OnOk result (Walked cursor.old cursor.new) }
{
    let mut seen = nothing_seen(alloc, segment, request)?;
    see_hits(alloc, segment, live, query, request, cursor, &mut seen)?;
    let openings = cursor.openings();
    let part = told(alloc, segment, request, seen, openings)?;
    Ok(part)
}

/// How many musts a query has.
fn musts_of(query: &Query) -> usize
    ensures { (terms : List Term) → HasMusts (query_value query.now) terms → result ≡ length terms }
{
    match query {
        Query::Bool { must, .. } => must.len(),
        Query::All | Query::None | Query::Term(_) | Query::Phrase { .. } | Query::Range { .. } => 0,
    }
}

/// The answer over the live hits of a segment, which remain of a cursor of the query.
fn collected(
    alloc: Global,
    segment: &Segment,
    live: &Bits,
    query: &Query,
    request: &Request,
    cursor: Cursor<'_>,
) -> Result<Part, AllocError>
    requires bits { length live.now ≡ length segment.now.documents }
    requires query { query_fits segment.now.schema (query_value query.now) ≡ true }
    requires request { request_fits segment.now.schema request.now ≡ true }
    requires hits { cursor.remaining ≡ live_hits segment.now live.now (query_value query.now) }
    requires opens { Opens segment.now (query_value query.now) cursor }
    ensures part { IfOk result (λ part. part.answer ≡ answer segment.now.schema
        (query_value query.now) request.now (content_of segment.now live.now)) }
    ensures openings { IfOk result (OpensIn segment.now (query_value query.now)) }
    ensures walked { IfOk result (λ part. AreWalked segment.now (query_value query.now) part.openings) }
{
    // A count of openings has 64 bits: neither the documents nor the musts are more.
    let _documents = segment.docs();
    let _musts = musts_of(query);
    let mut cursor = cursor;
    let part = part_of(alloc, segment, live, query, request, &mut cursor)?;
    Ok(part)
}

/// The answer to the query and the request over a segment's live documents, in their order, and the openings of a
/// cursor that ran to its end. `live` has one bit per document.
///
/// The hits come from a cursor, up to 128 at a time, and only what the request wants of them is collected: counts by
/// number, the first keys, and in the end a handle for each document of the top list. If bits and columns suffice to
/// test hits, the first keys are looked for among the documents with the best numbers, if these are few enough; the
/// openings don't count the lists of these.
/// The only refusal is `Memory`.
pub fn collect(
    alloc: Global,
    segment: &Segment,
    live: &Bits,
    query: &Query,
    request: &Request,
) -> Result<Part, Refusal>
    requires bits { length live.now ≡ length segment.now.documents }
    requires query { query_fits segment.now.schema (query_value query.now) ≡ true }
    requires request { request_fits segment.now.schema request.now ≡ true }
    ensures part { IfOk result (λ part. part.answer ≡ answer segment.now.schema
        (query_value query.now) request.now (content_of segment.now live.now)) }
    ensures openings { IfOk result (OpensIn segment.now (query_value query.now)) }
    ensures walked { IfOk result (λ part. AreWalked segment.now (query_value query.now) part.openings) }
    ensures memory { IsOkUnless result Refusal.Memory }
{
    let cursor = cursor_of(alloc, segment, live, query)?;
    let part = collected(alloc, segment, live, query, request, cursor)?;
    Ok(part)
}
