// Searches of a commit by one thread.
use fts_index::Searcher;
use fts_model::{Refusal, Request};
use fts_pool::Open;
use fts_query::parse;
use std::alloc::Global;
use std::sync::Wait;
use std::thread::Threads;

/// How many documents a text finds.
pub fn count<R: Threads + Wait + Sync>(
    rt: &R,
    alloc: Global,
    searcher: &Searcher,
    text: &str,
) -> Result<u64, Refusal> {
    let schema = searcher.snapshot().schema();
    let query = parse(alloc, schema, text)?;
    let request = Request::new(schema, None, None)?;
    let found = searcher.search(rt, alloc, &query, &request, 1, &Open)?;
    Ok(found.answer.count)
}
