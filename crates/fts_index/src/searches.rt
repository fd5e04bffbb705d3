// What a search asks each segment, by a job of its own, and what it makes of their parts.
ghost use Rattle.std.specs.Prelude.{◌≡◌, ◌≤◌, ◌-◌, ◌^◌, ◌⊎◌, true, Ok, Err, All, Contains};
ghost use Rattle.std.specs.Prelude.{IfOk, IfErr, IsOkUnless, map, min, sum_by};
ghost use Rattle.std.specs.Arc.{arc_value};
ghost use Rattle.std.specs.List.{AllZip};
ghost use Rattle.fts_model.specs.Queries.{query_fits, request_fits};
ghost use Rattle.fts_model.specs.QueryValues.{query_value};
ghost use Rattle.fts_collect.specs.Searches.{IsPartOf};
ghost use Rattle.fts_index.specs.SearchJobs.{asks, asked_of};

mod findings;
mod found;
mod query_copy;
mod search_cost;
mod search_job;

pub use found::Found;
use fts_collect::{Part, parts_in_turn};
use fts_model::{Query, Refusal, Request};
use fts_pool::{Gate, Pool, run_all};
use fts_snapshots::EntryList;
use query_copy::shared_query_copy;
pub(crate) use search_cost::search_cost;
pub use search_job::SearchJob;
use std::alloc::{AllocError, Global};
use std::sync::{Arc, Wait};
use std::thread::Threads;

/// Threads that stay between searches. They are started by the first that takes them, and end when the pool is closed.
pub type SearchPool = Pool<SearchJob>;

/// The jobs of a search, one for each segment, in their order.
fn search_jobs(
    alloc: Global,
    entries: &EntryList,
    query: &Arc<Query>,
    request: &Request,
) -> Result<Vec<SearchJob>, AllocError>
    requires query { All (λ entry.
        query_fits entry.segment.schema (query_value (arc_value query.now)) ≡ true) entries.now }
    requires request { All (λ entry.
        request_fits entry.segment.schema request.now ≡ true) entries.now }
    ensures { IfOk result (λ jobs. map asked_of jobs.items
        ≡ map (asks (query_value (arc_value query.now)) request.now) entries.now) }
{
    let mut jobs = Vec::with_capacity(alloc, entries.len())?;
    for entry in entries.iter() {
        jobs.push(SearchJob::new(alloc, entry, query, request)?)?;
    }
    Ok(jobs)
}

/// The parts that jobs returned, or the first refusal.
fn parts_of(alloc: Global, answers: Vec<Result<Part, Refusal>>) -> Result<Vec<Part>, Refusal>
    ensures ok { IfOk result (λ parts. answers.items ≡ map (λ part. Ok part) parts.items) }
    ensures err { IfErr result (λ e. (e ≡ Refusal.Memory) ⊎ Contains answers.items (Err e)) }
{
    let mut parts = Vec::with_capacity(alloc, answers.len())?;
    for answer in answers {
        match answer {
            Ok(part) => parts.push(part)?,
            Err(refusal) => return Err(refusal),
        }
    }
    Ok(parts)
}

/// How many blocks were opened for all parts.
pub(crate) fn openings_of(parts: &[Part]) -> u64
    ensures { result ≡ min (2 ^ 64 - 1) (sum_by (λ part. part.openings) parts.now) }
{
    let mut openings = 0u64;
    for part in parts {
        openings = openings.saturating_add(part.openings());
    }
    openings
}

/// The part of each segment, in the order of the segments. Up to this many threads search them; one needs no jobs.
pub(crate) fn segment_parts<R: Threads + Wait + Sync, G: Gate>(
    rt: &R,
    alloc: Global,
    entries: &EntryList,
    query: &Query,
    request: &Request,
    workers: usize,
    gate: &G,
) -> Result<Vec<Part>, Refusal>
    requires query { All (λ entry.
        query_fits entry.segment.schema (query_value query.now) ≡ true) entries.now }
    requires request { All (λ entry.
        request_fits entry.segment.schema request.now ≡ true) entries.now }
    requires workers { (1 ≤ workers) × (workers ≤ 64) }
    ensures parts { IfOk result (λ parts.
        AllZip (IsPartOf (query_value query.now) request.now) entries.now parts.items) }
    ensures memory { IsOkUnless result Refusal.Memory }
{
    if workers == 1 {
        return parts_in_turn(alloc, entries, query, request, gate);
    }
    let query = shared_query_copy(alloc, query)?;
    let jobs = search_jobs(alloc, entries, &query, request)?;
    let answers = run_all(rt, alloc, &jobs, workers, gate)?;
    parts_of(alloc, answers)
}

/// The part of each segment, in the order of the segments. Up to this many threads search them: the calling one, and
/// those of the pool.
pub(crate) fn segment_parts_by<R: Threads + Wait + Copy + Send + 'static>(
    rt: &R,
    alloc: Global,
    pool: &mut SearchPool,
    entries: &EntryList,
    query: &Query,
    request: &Request,
    workers: usize,
) -> Result<Vec<Part>, Refusal>
    requires query { All (λ entry.
        query_fits entry.segment.schema (query_value query.now) ≡ true) entries.now }
    requires request { All (λ entry.
        request_fits entry.segment.schema request.now ≡ true) entries.now }
    requires workers { (1 ≤ workers) × (workers ≤ 64) }
    ensures parts { IfOk result (λ parts.
        AllZip (IsPartOf (query_value query.now) request.now) entries.now parts.items) }
    ensures memory { IsOkUnless result Refusal.Memory }
{
    let query = shared_query_copy(alloc, query)?;
    let jobs = search_jobs(alloc, entries, &query, request)?;
    let answers = pool.run_all(rt, jobs, workers)?;
    parts_of(alloc, answers)
}
