// How long one thread takes for a search: an estimate, of which no contract speaks.
//
// The query's terms are looked up in the segment with the most documents, and the others are taken to be like it. The
// constants are picoseconds; docs/DECISIONS.md says how near the estimates come to what searches take.
ghost use Rattle.std.specs.Prelude.{◌≡◌, Some};
ghost use Rattle.fts_model.specs.Operations.{kind_at};
ghost use Rattle.fts_model.specs.declared.schema.Kind.TheVariants as kinds;

use crate::searches::findings::Findings;
use fts_model::{FieldValue, Kind, Number, Query, Request, Term, Text};
use fts_pack::bits::i64_to_u64;
use fts_segment::Segment;
use fts_snapshots::{Entry, EntryList};
use std::ops::Bound;

/// What it takes to make a cursor and to join a part.
const SEGMENT: u64 = 1_000_000;

/// What it takes to look a term up and to open its list.
const TERM: u64 = 1_000_000;

/// What it takes to unpack a document of a list.
const UNPACK: u64 = 800;

/// What it takes to combine the bit of a document.
const COMBINE: u64 = 50;

/// What it takes to test a document by the bits of a list, or for a range that few documents are in.
const TEST_BIT: u64 = 3_000;

/// What it takes to test a document by a list without bits.
const TEST_LIST: u64 = 40_000;

/// What it takes to compare a document's number, if those of all documents are compared.
const COMPARE: u64 = 750;

/// What it takes to take a document within a range.
const WITHIN: u64 = 5_000;

/// What it takes to look a document's number up and to compare it.
const TEST_RANGE: u64 = 25_000;

/// What it takes to look for a phrase's terms in a document of its rarest.
const TERMS: u64 = 15_000;

/// What it takes to compare the positions of a phrase's terms in a document that has all.
const POSITIONS: u64 = 80_000;

/// What it takes to count a hit in its group.
const GROUP: u64 = 2_000;

/// What it takes to look at a hit's number for a top list.
const LOOK: u64 = 1_000;

/// What it takes to find that a document's number is none of the best by those of its block.
const LOOK_AT_ALL: u64 = 150;

/// What it takes to offer a hit to a top list.
const OFFER: u64 = 30_000;

/// How many documents of a segment have a term.
fn documents_with(segment: &Segment, term: &Term) -> u64 {
    match segment.find(term) {
        None => 0,
        Some(list) => segment.postings(list).len() as u64,
    }
}

/// How many documents of a segment have a text as a term; all of them if there is no memory to look it up.
fn documents_with_text(segment: &Segment, field: usize, text: &Text) -> u64 {
    let Ok(text) = text.clone() else {
        return segment.docs() as u64;
    };
    let value = FieldValue::Text(text);
    documents_with(segment, &Term { field, value })
}

/// What a term finds. Its list has bits if it has one in 64 documents or more.
fn of_term(segment: &Segment, term: &Term) -> Findings {
    let docs = segment.docs() as u64;
    let hits = documents_with(segment, term);
    let work = hits.saturating_mul(UNPACK).saturating_add(TERM);
    if hits < docs / 64 {
        return Findings {
            hits,
            work,
            test: TEST_LIST,
            bits: None,
        };
    }
    Findings {
        hits,
        work,
        test: TEST_BIT,
        bits: Some(docs.saturating_mul(COMBINE).saturating_add(TERM)),
    }
}

/// What a phrase finds: its hits are taken to be the documents of its rarest term.
fn of_phrase(segment: &Segment, field: usize, pattern: &[(u32, Text)]) -> Findings {
    let docs = segment.docs() as u64;
    let mut rarest = docs;
    // How many documents have all terms, if these are independent.
    let mut all = docs;
    let mut lookups = 0u64;
    for (_, text) in pattern {
        let hits = documents_with_text(segment, field, text);
        lookups = lookups.saturating_add(TERM);
        rarest = rarest.min(hits);
        all = all.saturating_mul(hits) / docs.max(1);
    }
    let positions = all.saturating_mul(POSITIONS);
    Findings {
        hits: rarest,
        work: rarest
            .saturating_mul(TERMS)
            .saturating_add(positions)
            .saturating_add(lookups),
        test: TERMS.saturating_add(positions / docs.max(1)),
        bits: None,
    }
}

/// The kind of a field, if there is one.
fn kind_of(segment: &Segment, field: usize) -> Option<Kind>
    ensures { result ≡ kind_at segment.now.schema field }
{
    Some(segment.schema().fields().get(field)?.kind)
}

/// The number of a bound in the column of a number field.
fn number_at(bound: &Bound<FieldValue>, unbounded: u64) -> u64 {
    match bound {
        Bound::Included(FieldValue::Number(number)) | Bound::Excluded(FieldValue::Number(number)) =>
            match number {
                Number::U64(number) => *number,
                Number::I64(number) => i64_to_u64(*number),
            },
        _ => unbounded,
    }
}

/// The ordinal of a bound in the column of a keyword field.
fn ordinal_at(segment: &Segment, field: usize, bound: &Bound<FieldValue>, unbounded: u64) -> u64
    requires { kind_at segment.now.schema field ≡ Some kinds.Keyword }
{
    match bound {
        Bound::Included(FieldValue::Text(text)) | Bound::Excluded(FieldValue::Text(text)) => {
            segment.equal_range(field, text.as_str()).0
        }
        _ => unbounded,
    }
}

/// How many documents of a segment have a value between two bounds; those with a bound's own value may be left out or
/// not.
fn documents_within(
    segment: &Segment,
    field: usize,
    lower: &Bound<FieldValue>,
    upper: &Bound<FieldValue>,
) -> u64 {
    let (low, high) = match kind_of(segment, field) {
        None | Some(Kind::Text) => return 0,
        Some(Kind::Keyword) => (
            ordinal_at(segment, field, lower, 0),
            ordinal_at(segment, field, upper, u64::MAX),
        ),
        Some(Kind::U64 | Kind::I64) => (number_at(lower, 0), number_at(upper, u64::MAX)),
    };
    segment.documents_between(field, low, high) as u64
}

/// What a range finds. If it finds few, lists are read and no column, unless it is a must-not. Beside others, the column
/// is compared into bits.
fn of_range(
    segment: &Segment,
    field: usize,
    lower: &Bound<FieldValue>,
    upper: &Bound<FieldValue>,
) -> Findings {
    let docs = segment.docs() as u64;
    let hits = documents_within(segment, field, lower, upper);
    let take = hits.saturating_mul(WITHIN);
    if hits <= docs / 256 {
        return Findings {
            hits,
            work: take,
            test: TEST_BIT,
            bits: None,
        };
    }
    let compare = docs.saturating_mul(COMPARE);
    Findings {
        hits,
        work: compare.saturating_add(take),
        test: TEST_RANGE,
        bits: Some(compare),
    }
}

/// What so many documents are that are found without work.
fn of_any_document(hits: u64) -> Findings {
    Findings {
        hits,
        work: 0,
        test: 0,
        bits: None,
    }
}

/// What a query finds.
#[cycle(findings)]
fn findings(segment: &Segment, query: &Query) -> Findings {
    match query {
        Query::All => of_any_document(segment.docs() as u64),
        Query::None => of_any_document(0),
        Query::Term(term) => of_term(segment, term),
        Query::Phrase { field, pattern } => of_phrase(segment, *field, pattern),
        Query::Range {
            field,
            lower,
            upper,
        } => of_range(segment, *field, lower, upper),
        Query::Bool {
            must,
            must_not,
            should,
        } => {
            let kept = if must.is_empty() {
                of_some(segment, should)
            } else {
                of_all(segment, must)
            };
            if must_not.is_empty() {
                return kept;
            }
            kept.tested_for(of_some(segment, must_not))
        }
    }
}

/// What at least one query finds.
#[cycle(findings)]
fn of_some(segment: &Segment, queries: &[Query]) -> Findings {
    let Some((first, others)) = queries.split_first() else {
        return of_any_document(0);
    };
    let only = findings(segment, first);
    if others.is_empty() {
        return only;
    }
    let mut found = only.marked();
    for query in others {
        found = found.or(findings(segment, query).marked());
    }
    found
}

/// What every query finds.
#[cycle(findings)]
fn of_all(segment: &Segment, queries: &[Query]) -> Findings {
    let Some((first, others)) = queries.split_first() else {
        return of_any_document(0);
    };
    let mut found = findings(segment, first);
    for query in others {
        found = found.and(findings(segment, query));
    }
    found
}

/// How many hits are offered to a top list. If there are many, and bits and columns tell them, the documents with the
/// best numbers are enough; all hits are taken to be such.
fn offered(hits: u64, docs: u64, k: u64) -> u64 {
    let best = k.saturating_mul(docs).saturating_mul(6) / hits.max(1);
    hits.min(best)
}

/// What is asked of the hits beside their number.
fn of_request(hits: u64, docs: u64, request: &Request) -> u64 {
    let groups = match request.groups {
        None => 0,
        Some(_) => hits.saturating_mul(GROUP),
    };
    let top = match request.top {
        None => 0,
        Some(top) => {
            let look = if hits == docs { LOOK_AT_ALL } else { LOOK };
            let offers = offered(hits, docs, top.k).saturating_mul(OFFER);
            hits.saturating_mul(look).saturating_add(offers)
        }
    };
    groups.saturating_add(top)
}

/// Whether a query is a range, or has one as its only clause.
fn is_range(query: &Query) -> bool {
    match query {
        Query::Range { .. } => true,
        Query::Bool {
            must,
            must_not,
            should,
        } => match should.as_slice() {
            [only] => {
                must.is_empty() && must_not.is_empty() && matches!(only, Query::Range { .. })
            }
            _ => false,
        },
        Query::All | Query::None | Query::Term(_) | Query::Phrase { .. } => false,
    }
}

/// Whether the number of hits is known without looking at one.
fn is_counted(entry: &Entry, query: &Query, request: &Request) -> bool {
    is_range(query)
        && request.groups.is_none()
        && request.top.is_none()
        && entry.live().is_all_set()
}

/// How many picoseconds one segment takes.
fn of_segment(entry: &Entry, query: &Query, request: &Request) -> u64 {
    if is_counted(entry, query, request) {
        return SEGMENT;
    }
    let segment = entry.segment();
    let docs = segment.docs() as u64;
    let found = findings(segment, query);
    let asked = of_request(found.hits.min(docs), docs, request);
    SEGMENT.saturating_add(found.work).saturating_add(asked)
}

/// About how many nanoseconds one thread takes for a search of all segments.
pub(crate) fn search_cost(entries: &EntryList, query: &Query, request: &Request) -> u64 {
    let mut docs = 0u64;
    let mut most = 0u64;
    let mut largest = None;
    for entry in entries.iter() {
        let count = entry.segment().docs() as u64;
        docs = docs.saturating_add(count);
        if count >= most {
            most = count;
            largest = Some(entry);
        }
    }
    let Some(largest) = largest else {
        return 0;
    };
    let nanoseconds = of_segment(largest, query, request) / 1_000;
    nanoseconds.saturating_mul(docs) / most.max(1)
}
