// If one of two jobs of a commit or of a search is held back, another worker runs the other, and each is run once. The
// writer may be closed by then. One worker alone searches the segments in turn.
ghost use Rattle.std.specs.Prelude.{◌≤◌};

use dilforec::{Cut, Refusal, Request, Searcher, Writer};
use fts_model::Query;
use std::alloc::Global;
use std::process::Abort;
use std::sync::Wait;
use std::thread::Threads;
use testing_gates::Holder;
use testing_writers::{batch, writer};

/// Commits two documents in segments of their own.
fn committed<R: Threads + Wait + Sync>(
    rt: &R,
    alloc: Global,
    writer: &mut Writer,
    gate: &Holder,
) -> Result<Searcher, Refusal> {
    let batch = batch(alloc, writer, &["+p", "+q"])?;
    writer.commit(rt, alloc, &batch, Cut::Runs(1), 2, gate)?;
    writer.searcher()
}

/// How many documents there are.
fn count<R: Threads + Wait + Sync>(
    rt: &R,
    alloc: Global,
    searcher: &Searcher,
    workers: usize,
    gate: &Holder,
) -> Result<u64, Refusal>
    requires { (1 ≤ workers) × (workers ≤ 64) }
{
    let request = Request::new(searcher.snapshot().schema(), None, None)?;
    let found = searcher.search(rt, alloc, &Query::All, &request, workers, gate)?;
    Ok(found.answer.count)
}

/// Holds one job of a commit.
fn commit_held<R: Threads + Wait + Sync + Abort>(
    rt: &R,
    alloc: Global,
    writer: &mut Writer,
    held: usize,
) -> Searcher {
    let gate = Holder::new(held, 2);
    let searcher = committed(rt, alloc, writer, &gate).expect(rt, "a searcher");
    assert!(rt; gate.was_held());
    searcher
}

/// Holds one of the two segments of a search of two documents.
fn search_held<R: Threads + Wait + Sync + Abort>(
    rt: &R,
    alloc: Global,
    searcher: &Searcher,
    workers: usize,
    held: usize,
)
    requires { (1 ≤ workers) × (workers ≤ 64) }
{
    let gate = Holder::new(held, 2);
    let found = count(rt, alloc, searcher, workers, &gate);
    assert_eq!(rt; (found, gate.was_held()), (Ok(2), true));
}

#[test]
fn one_of_two_jobs_is_held(rt: HostRuntime) {
    for held in 0..2usize {
        let mut writer = writer(&rt, rt.alloc()).expect(&rt, "a writer");
        let searcher = commit_held(&rt, rt.alloc(), &mut writer, held);
        writer.close(&rt);
        search_held(&rt, rt.alloc(), &searcher, 2, held);
    }
}

#[test]
fn one_worker_searches_the_last_segment_last(rt: HostRuntime) {
    let mut writer = writer(&rt, rt.alloc()).expect(&rt, "a writer");
    let searcher = commit_held(&rt, rt.alloc(), &mut writer, 0);
    writer.close(&rt);
    search_held(&rt, rt.alloc(), &searcher, 1, 1);
}
