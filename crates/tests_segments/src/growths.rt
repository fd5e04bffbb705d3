// Calls of segments, cursors, collectors and merges. If a growth is refused, nothing has changed, and the second try
// succeeds.
use crate::fixtures::example;
use fts_collect::{Part, collect};
use fts_cursor::{DocSet, cursor_of};
use fts_merge::{LiveSegment, Merged, merge, strike};
use fts_model::{Answer, FieldValue, Op, Order, Query, Refusal, Request, Stamped, Term, Text};
use fts_pack::bits::Bits;
use fts_query::parse;
use fts_segment::Segment;
use std::alloc::{AllocError, Global};
use std::process::Abort;

/// A copy of a segment. If a growth was refused, the second try succeeds.
fn copied(rt: &impl Abort, segment: &Segment) -> Segment {
    match segment.clone() {
        Ok(copy) => copy,
        Err(AllocError) => segment.clone().expect(rt, "a copy again"),
    }
}

#[test]
fn copies(rt: HostRuntime) {
    let segment = example(&rt, rt.alloc());
    let copy = copied(&rt, &segment);
    drop(segment);
    assert_eq!(rt; copy.docs(), 3);
    assert_eq!(rt; copy.stamp(2), 9);
}

/// The bits of all documents of a segment.
fn all_set(rt: &impl Abort, alloc: Global, segment: &Segment) -> Bits {
    let live = Bits::all_set(alloc, segment.docs());
    live.expect(rt, "bits")
}

/// The first document that a query finds.
fn first(
    rt: &impl Abort,
    alloc: Global,
    segment: &Segment,
    live: &Bits,
    query: &Query,
) -> Option<u32> {
    if live.len() != segment.docs() || !query.fits(segment.schema()) {
        panic!(rt; "the segment can't be asked");
    }
    match cursor_of(alloc, segment, live, query) {
        Err(Refusal::Memory) => {
            let cursor = cursor_of(alloc, segment, live, query);
            cursor.expect(rt, "a cursor again").doc()
        }
        cursor => cursor.expect(rt, "a cursor").doc(),
    }
}

#[test]
fn cursors(rt: HostRuntime) {
    let segment = example(&rt, rt.alloc());
    let live = all_set(&rt, rt.alloc(), &segment);
    for (text, wanted) in [
        ("b -title:a", Some(1)),
        ("+title:a +title:b", Some(0)),
        ("\"b a\" OR price:[5 TO *]", Some(0)),
        ("tag:b", None),
    ] {
        let query = parse(rt.alloc(), segment.schema(), text).expect(&rt, "a query");
        let first = first(&rt, rt.alloc(), &segment, &live, &query);
        assert_eq!(rt; first, wanted, "{text}");
    }
}

/// The part of a segment for the documents that match.
fn part_of(
    rt: &impl Abort,
    alloc: Global,
    segment: &Segment,
    query: &Query,
    request: &Request,
) -> Part {
    let live = all_set(rt, alloc, segment);
    let schema = segment.schema();
    if live.len() != segment.docs() || !query.fits(schema) || !request.fits(schema) {
        panic!(rt; "the segment can't be asked");
    }
    match collect(alloc, segment, &live, query, request) {
        Err(Refusal::Memory) => {
            let part = collect(alloc, segment, &live, query, request);
            part.expect(rt, "a part again")
        }
        part => part.expect(rt, "a part"),
    }
}

/// The answer of two joined parts. If a growth was refused, they come back, and the second try succeeds.
fn joined(rt: &impl Abort, alloc: Global, parts: Vec<Part>, request: &Request) -> Answer {
    match Part::join(alloc, parts, request) {
        Ok(answer) => answer,
        Err((parts, refusal)) => {
            assert_eq!(rt; refusal, Refusal::Memory);
            Part::join(alloc, parts, request)
                .map_err(|e| e.1)
                .expect(rt, "an answer again")
        }
    }
}

#[test]
fn collectors(rt: HostRuntime) {
    let segment = example(&rt, rt.alloc());
    let query = parse(rt.alloc(), segment.schema(), "a b").expect(&rt, "a query");
    let rising = Some(("price", 2, Order::Rising));
    let request = Request::new(segment.schema(), Some("price"), rising).expect(&rt, "a request");
    let mut parts = Vec::with_capacity(rt.alloc(), 2).expect(&rt, "parts");
    for _ in 0..2 {
        let part = part_of(&rt, rt.alloc(), &segment, &query, &request);
        parts.push(part).expect(&rt, "parts");
    }
    let answer = joined(&rt, rt.alloc(), parts, &request);
    assert_eq!(rt; answer.count, 6);
}

/// A delete of the word b.
fn delete(alloc: Global, stamp: u64) -> Result<Stamped<Op>, AllocError> {
    let value = FieldValue::Text(Text::new(String::from_str(alloc, "b")?));
    let value = Op::Delete(Term { field: 0, value });
    Ok(Stamped { stamp, value })
}

/// The bits after a delete.
fn struck(rt: &impl Abort, alloc: Global, segment: &Segment, live: &Bits, stamp: u64) -> Bits {
    let ops = [delete(alloc, stamp).expect(rt, "a delete")];
    if live.len() != segment.docs() {
        panic!(rt; "not one bit a document");
    }
    match strike(alloc, segment, live, &ops) {
        Err(Refusal::Memory) => strike(alloc, segment, live, &ops).expect(rt, "bits again"),
        struck => struck.expect(rt, "bits"),
    }
}

/// The segment, with some of its documents live, before itself with others.
fn merged(
    rt: &impl Abort,
    alloc: Global,
    segment: &Segment,
    first: &Bits,
    second: &Bits,
) -> Merged {
    if first.len() != segment.docs() || second.len() != segment.docs() {
        panic!(rt; "not one bit a document");
    }
    let sources = [
        LiveSegment::new(segment, first),
        LiveSegment::new(segment, second),
    ];
    match merge(alloc, &sources) {
        Err(Refusal::Memory) => merge(alloc, &sources).expect(rt, "a segment again"),
        merged => merged.expect(rt, "a segment"),
    }
}

#[test]
fn deletes(rt: HostRuntime) {
    let segment = example(&rt, rt.alloc());
    let all = all_set(&rt, rt.alloc(), &segment);
    let some = struck(&rt, rt.alloc(), &segment, &all, 4);
    let same = struck(&rt, rt.alloc(), &segment, &some, 3);
    assert_eq!(rt; (some.count_ones(), same == some), (2, true));
}

#[test]
fn merges(rt: HostRuntime) {
    let segment = example(&rt, rt.alloc());
    let all = all_set(&rt, rt.alloc(), &segment);
    let some = struck(&rt, rt.alloc(), &segment, &all, 4);
    let merged = merged(&rt, rt.alloc(), &segment, &some, &all);
    assert_eq!(rt; (merged.segment().docs(), merged.origins().len()), (5, 5));
}
