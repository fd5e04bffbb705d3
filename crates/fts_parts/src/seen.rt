// What is collected of the hits of a segment as they are looked at, and the part that is made of it in the end.
ghost use Rattle.std.specs.Prelude.{◌≡◌, ◌<◌, ◌++◌, ◌^◌, ℕ, List, [], true, All, IfOk, IfSome, OnErr, OnOk, length};
ghost use Rattle.std.specs.Prelude.{option_map};
ghost use Rattle.fts_model.specs.Queries.{is_number_field, is_ordered_field, request_fits};
ghost use Rattle.fts_model.specs.Answers.{answer_of, groups, top};
ghost use Rattle.fts_parts.specs.Collected.{AreHits, HasCounted, HasNumbers, HasRanked, HasRankedLast, HasSeen};
ghost use Rattle.fts_parts.specs.Collected.{HasValues, IsTallyOf, KeysWithin, column_of, hits_at};

use crate::lent::Counted;
use crate::part::Part;
use crate::ranks::{Ranking, hits_of, numbers_of};
use crate::tally::Tally;
use crate::top_k::TopK;
use fts_model::{Hit, Request, Top};
use fts_pack::column::Column;
use fts_segment::Segment;
use std::alloc::{AllocError, Global};

/// What is collected of the hits looked at so far: as much of each as a request asks for.
#[derive(Drop)]
pub struct Seen {
    /// How many they are; the count stays at the greatest `u64`.
    pub count: u64,
    /// The counts of their numbers in the field of the groups.
    pub tally: Tally,
    /// The first of them by their numbers in the field of the top list.
    pub top_k: TopK,
}

/// The column of a field whose values have an order.
fn column_of(segment: &Segment, field: usize) -> &Column
    requires { is_ordered_field segment.now.schema field ≡ true }
    ensures { result.now ≡ column_of segment.now field }
{
    segment.column(field)
}

/// The tally of no hits, for the field of the groups.
fn empty_tally(alloc: Global, segment: &Segment, field: Option<usize>) -> Result<Tally, AllocError>
    requires { IfSome field (λ f. is_ordered_field segment.now.schema f ≡ true) }
    ensures places { IfOk result (IsTallyOf segment.now field) }
    ensures none { IfOk result (HasCounted segment.now field []) }
{
    match field {
        None => Ok(Tally::Numbers(Vec::new(alloc))),
        Some(field) => Tally::new(alloc, column_of(segment, field)),
    }
}

/// Counts hits by what the column of the field of the groups keeps for them. On `Err` none was counted.
fn count_hits(
    segment: &Segment,
    field: Option<usize>,
    docs: &[u32],
    tally: &mut Tally,
) -> Result<(), AllocError>
    requires fits { IfSome field (λ f. is_ordered_field segment.now.schema f ≡ true) }
    requires places { IsTallyOf segment.now field tally.old }
    ensures places { IsTallyOf segment.now field tally.new }
    ensures counted { OnOk result ((before : List ℕ) →
        HasCounted segment.now field before tally.old →
        HasCounted segment.now field (before ++ docs.now) tally.new) }
    ensures kept { OnErr result ((before : List ℕ) →
        HasCounted segment.now field before tally.old → HasCounted segment.now field before tally.new) }
{
    match field {
        None => Ok(()),
        Some(field) => tally.take(column_of(segment, field), docs),
    }
}

/// The groups that are asked for, of the hits that were counted.
fn groups_told(
    alloc: Global,
    segment: &Segment,
    field: Option<usize>,
    tally: Tally,
) -> Result<Option<Counted>, AllocError>
    requires fits { IfSome field (λ f. is_ordered_field segment.now.schema f ≡ true) }
    requires documents { HasValues segment.now }
    requires places { IsTallyOf segment.now field tally }
    ensures { (docs : List ℕ) → HasCounted segment.now field docs tally → length docs < 2 ^ 64 →
        IfOk result (λ found. found ≡ option_map (λ f. groups f (hits_at segment.now docs)) field) }
{
    match field {
        None => Ok(None),
        Some(field) => {
            let counts = tally.into_counts(alloc)?;
            Ok(Some(Counted::new(segment, field, counts)?))
        }
    }
}

/// Offers hits to the top list.
fn rank_hits(
    segment: &Segment,
    wanted: Option<Top>,
    docs: &[u32],
    top_k: &mut TopK,
) -> Result<(), AllocError>
    requires fits { IfSome wanted (λ t. is_number_field segment.now.schema t.by ≡ true) }
    requires within { All (λ doc. doc < length segment.now.documents) docs.now }
    ensures ok { OnOk result ((before : List ℕ) → HasRanked segment.now wanted before top_k.old →
        HasRanked segment.now wanted (before ++ docs.now) top_k.new) }
    ensures err { OnErr result ((before : List ℕ) → HasRanked segment.now wanted before top_k.old →
        HasRankedLast segment.now wanted before docs.now top_k.new) }
{
    match wanted {
        None => Ok(()),
        Some(top) => {
            let ranking = Ranking {
                segment,
                column: numbers_of(segment, top.by),
                order: top.order,
            };
            ranking.offer(docs, top_k)
        }
    }
}

/// The top list that is asked for, of the hits that were offered.
fn top_told(
    alloc: Global,
    segment: &Segment,
    wanted: Option<Top>,
    top_k: TopK,
) -> Result<Option<Vec<Hit>>, AllocError>
    requires fits { IfSome wanted (λ t. is_number_field segment.now.schema t.by ≡ true) }
    requires documents { HasNumbers segment.now }
    requires within { KeysWithin segment.now wanted top_k }
    ensures { (docs : List ℕ) → HasRanked segment.now wanted docs top_k → AreHits segment.now docs →
        IfOk result (λ list. option_map (λ l. l.items) list
        ≡ option_map (λ t. top t.k t.order t.by (hits_at segment.now docs)) wanted) }
{
    match wanted {
        None => Ok(None),
        Some(top) => {
            let kind = segment.schema().kind(top.by);
            let keys = top_k.into_keys();
            Ok(Some(hits_of(alloc, segment, kind, top.order, &keys)?))
        }
    }
}

/// Takes more hits: the numbers of documents of the segment, which come after those taken before. An error says that
/// memory was refused: of these hits none is counted, but the last of them may have been offered to the top list.
pub fn see(
    segment: &Segment,
    request: &Request,
    docs: &[u32],
    seen: &mut Seen,
) -> Result<(), AllocError>
    requires fits { request_fits segment.now.schema request.now ≡ true }
    requires within { All (λ doc. doc < length segment.now.documents) docs.now }
    requires places { IsTallyOf segment.now request.now.groups seen.old.tally }
    ensures ok { OnOk result ((before : List ℕ) → HasSeen segment.now request.now before seen.old →
        HasSeen segment.now request.now (before ++ docs.now) seen.new) }
    ensures kept { OnErr result ((before : List ℕ) → HasSeen segment.now request.now before seen.old →
        HasSeen segment.now request.now before (record seen.new { top_k = seen.old.top_k })) }
    ensures offered { OnErr result ((before : List ℕ) →
        HasRanked segment.now request.now.top before seen.old.top_k →
        HasRankedLast segment.now request.now.top before docs.now seen.new.top_k) }
{
    rank_hits(segment, request.top, docs, &mut seen.top_k)?;
    count_hits(segment, request.groups, docs, &mut seen.tally)?;
    seen.count = seen.count.saturating_add(docs.len() as u64);
    Ok(())
}

/// Nothing collected yet, for a request that fits the segment.
pub fn nothing_seen(alloc: Global, segment: &Segment, request: &Request) -> Result<Seen, AllocError>
    requires { request_fits segment.now.schema request.now ≡ true }
    ensures { IfOk result (HasSeen segment.now request.now []) }
{
    let tally = empty_tally(alloc, segment, request.groups)?;
    let k = match request.top {
        None => 0,
        Some(top) => top.k as usize,
    };
    Ok(Seen {
        count: 0,
        tally,
        top_k: TopK::new(alloc, k),
    })
}

/// The answer over the hits that were taken, and how many blocks were opened to find them, as the caller counted.
pub fn told(
    alloc: Global,
    segment: &Segment,
    request: &Request,
    seen: Seen,
    openings: u64,
) -> Result<Part, AllocError>
    requires fits { request_fits segment.now.schema request.now ≡ true }
    requires documents { HasValues segment.now }
    requires places { IsTallyOf segment.now request.now.groups seen.tally }
    requires within { KeysWithin segment.now request.now.top seen.top_k }
    ensures answer { (docs : List ℕ) →
        HasSeen segment.now request.now docs seen → AreHits segment.now docs →
        IfOk result (λ part. part.answer ≡ answer_of request.now (hits_at segment.now docs)) }
    ensures openings { IfOk result (λ part. part.openings ≡ openings) }
{
    let Seen {
        count,
        tally,
        top_k,
    } = seen;
    let groups = groups_told(alloc, segment, request.groups, tally)?;
    let top = top_told(alloc, segment, request.top, top_k)?;
    Ok(Part {
        count,
        groups,
        top,
        openings,
    })
}
