// What a query finds in a snapshot.
//
// Each segment makes a part from its hits, and the hits of all segments are those of the content in another order: so
// the joined parts are the answer over the content, whatever the segments. [`parts_in_turn`] asks one segment after the
// other in the calling thread; a crate above asks them by jobs too, each of which is a [`search_segment`].

ghost use Rattle.std.specs.Prelude.{◌≡◌, ◌<◌, ◌^◌, true, IfOk, IsOkUnless, All, length};
ghost use Rattle.std.specs.List.{AllZip};
ghost use Rattle.fts_model.specs.Answers.{answer};
ghost use Rattle.fts_model.specs.Queries.{query_fits, request_fits};
ghost use Rattle.fts_model.specs.QueryValues.{query_value};
ghost use Rattle.fts_snapshots.specs.Snapshots.{content_of};
ghost use Rattle.fts_collect.specs.Searches.{IsPartOf};

use crate::{Part, collect};
use fts_model::{Answer, Query, Refusal, Request};
use fts_pool::{Gate, Open};
use fts_snapshots::{Entry, EntryList, Snapshot};
use std::alloc::Global;

/// The answer over the live hits of a segment. The only refusal is `Memory`.
pub fn search_segment(
    alloc: Global,
    entry: &Entry,
    query: &Query,
    request: &Request,
) -> Result<Part, Refusal>
    requires query { query_fits entry.now.segment.schema (query_value query.now) ≡ true }
    requires request { request_fits entry.now.segment.schema request.now ≡ true }
    ensures part { IfOk result (IsPartOf (query_value query.now) request.now entry.now) }
    ensures memory { IsOkUnless result Refusal.Memory }
{
    collect(alloc, entry.segment(), entry.live(), query, request)
}

/// The part of a segment, between the gate's two calls. The number is the segment's place among those that are asked.
fn part_by_gate<G: Gate>(
    alloc: Global,
    entry: &Entry,
    query: &Query,
    request: &Request,
    number: usize,
    gate: &G,
) -> Result<Part, Refusal>
    requires query { query_fits entry.now.segment.schema (query_value query.now) ≡ true }
    requires request { request_fits entry.now.segment.schema request.now ≡ true }
    ensures part { IfOk result (IsPartOf (query_value query.now) request.now entry.now) }
    ensures memory { IsOkUnless result Refusal.Memory }
{
    gate.before(number);
    let part = search_segment(alloc, entry, query, request);
    gate.after(number);
    part
}

/// The part of each segment, in the order of the segments, by the calling thread alone. The gate is called around each,
/// by its place among them. Once memory is refused for one, the segments after it aren't asked.
pub fn parts_in_turn<G: Gate>(
    alloc: Global,
    entries: &EntryList,
    query: &Query,
    request: &Request,
    gate: &G,
) -> Result<Vec<Part>, Refusal>
    requires query { All (λ entry.
        query_fits entry.segment.schema (query_value query.now) ≡ true) entries.now }
    requires request { All (λ entry.
        request_fits entry.segment.schema request.now ≡ true) entries.now }
    ensures parts { IfOk result (λ parts.
        AllZip (IsPartOf (query_value query.now) request.now) entries.now parts.items) }
    ensures memory { IsOkUnless result Refusal.Memory }
{
    let mut parts = Vec::with_capacity(alloc, entries.len())?;
    for entry in entries.iter() {
        let part = part_by_gate(alloc, entry, query, request, parts.len(), gate)?;
        parts.push(part)?;
    }
    Ok(parts)
}

/// What a query finds among all documents of a snapshot: one segment after the other, by the calling thread. The only
/// refusal is `Memory`.
pub fn search_alone(
    alloc: Global,
    snapshot: &Snapshot,
    query: &Query,
    request: &Request,
) -> Result<Answer, Refusal>
    requires query { query_fits snapshot.now.schema (query_value query.now) ≡ true }
    requires request { request_fits snapshot.now.schema request.now ≡ true }
    requires few { length (content_of snapshot.now) < 2 ^ 64 }
    ensures answer { IfOk result (λ found. found ≡ answer snapshot.now.schema
        (query_value query.now) request.now (content_of snapshot.now)) }
    ensures memory { IsOkUnless result Refusal.Memory }
{
    let entries = snapshot.entries();
    let parts = parts_in_turn(alloc, entries, query, request, &Open)?;
    match Part::join(alloc, parts, request) {
        Ok(answer) => Ok(answer),
        Err((_, refusal)) => Err(refusal),
    }
}
