// If any growth is refused to a merge that ends later, to one at once, or to a searcher, all is as before, and the
// second try succeeds. The messages for the second try end with "again".
ghost use Rattle.std.specs.Prelude.{◌≡◌};
ghost use Rattle.dilforec.specs.MergedSegments.{merged_of};
ghost use Rattle.dilforec.specs.Successors.{Fits};

use crate::steps::commit;
use dilforec::{MergeJob, MergedSegment, Open, Refusal, Searcher, Writer};
use std::alloc::Global;
use std::process::Abort;
use std::sync::Wait;
use std::thread::Threads;
use testing_writers::{seen, writer};

/// Asserts that a writer holds this.
fn shows(rt: &impl Abort, alloc: Global, writer: &Writer, wanted: &str) {
    assert_eq!(rt; seen(alloc, writer).expect(rt, "a list").as_str(), wanted);
}

/// Starts a merge of the first two segments.
fn begin(rt: &impl Abort, alloc: Global, writer: &Writer) -> MergeJob
    ensures { Fits (merged_of result) writer.now.front.snapshot }
{
    match writer.begin_merge(alloc, &[0, 1]) {
        Ok(job) => job,
        Err(refusal) => {
            assert_eq!(rt; refusal, Refusal::Memory);
            let job = writer.begin_merge(alloc, &[0, 1]);
            job.expect(rt, "a merge again")
        }
    }
}

/// Runs a merge that was refused and handed back.
fn ran(rt: &impl Abort, alloc: Global, refused: (MergeJob, Refusal)) -> MergedSegment
    ensures { result ≡ merged_of refused.0 }
{
    let (job, refusal) = refused;
    assert_eq!(rt; refusal, Refusal::Memory);
    job.run(alloc)
        .map_err(|e| e.1)
        .expect(rt, "a merged segment again")
}

/// Runs a merge.
fn run(rt: &impl Abort, alloc: Global, job: MergeJob) -> MergedSegment
    ensures { result ≡ merged_of job }
{
    match job.run(alloc) {
        Ok(merged) => merged,
        Err(refused) => ran(rt, alloc, refused),
    }
}

/// Ends a merge that was refused and handed back.
fn ended<R: Wait + Abort>(
    rt: &R,
    alloc: Global,
    writer: &mut Writer,
    refused: (MergedSegment, Refusal),
)
    requires { Fits refused.0 writer.old.front.snapshot }
{
    let (merged, refusal) = refused;
    assert_eq!(rt; refusal, Refusal::Memory);
    shows(rt, alloc, writer, "4: (0,1,1) (1,1,1) (2,1,1) 1p 2q 3r");
    let ended = writer.end_merge(rt, alloc, merged);
    drop(ended.map_err(|e| e.1).expect(rt, "an end again"));
}

/// Ends a merge.
fn end<R: Wait + Abort>(rt: &R, alloc: Global, writer: &mut Writer, merged: MergedSegment)
    requires { Fits merged writer.old.front.snapshot }
{
    match writer.end_merge(rt, alloc, merged) {
        Ok(_) => {}
        Err(refused) => ended(rt, alloc, writer, refused),
    }
}

/// Merges the first two of three segments.
fn merge_later<R: Threads + Wait + Sync + Abort>(rt: &R, alloc: Global, writer: &mut Writer) {
    commit(rt, alloc, writer, &["+p", "+q", "+r"]).expect(rt, "a commit");
    let job = begin(rt, alloc, writer);
    let merged = run(rt, alloc, job);
    end(rt, alloc, writer, merged);
    shows(rt, alloc, writer, "4: (2,1,1) (3,2,2) 3r 1p 2q");
}

/// Merges the rest at once, by two threads.
fn merge<R: Threads + Wait + Sync + Abort>(rt: &R, alloc: Global, writer: &mut Writer) {
    if let Err(refusal) = writer.merge_by(rt, alloc, &[2, 3], 2, &Open) {
        assert_eq!(rt; refusal, Refusal::Memory);
        shows(rt, alloc, writer, "4: (2,1,1) (3,2,2) 3r 1p 2q");
        writer.merge(rt, alloc, &[2, 3]).expect(rt, "a merge again");
    }
}

/// The last commit of a writer, to be searched.
fn searcher(rt: &impl Abort, writer: &Writer) -> Searcher {
    match writer.searcher() {
        Ok(searcher) => searcher,
        Err(refusal) => {
            assert_eq!(rt; refusal, Refusal::Memory);
            writer.searcher().expect(rt, "a searcher again")
        }
    }
}

#[test]
fn a_refused_growth_of_a_merge_can_be_tried_again(rt: HostRuntime) {
    let alloc = rt.alloc();
    let mut writer = writer(&rt, alloc).expect(&rt, "a writer");
    merge_later(&rt, alloc, &mut writer);
    merge(&rt, alloc, &mut writer);
    let searcher = searcher(&rt, &writer);
    shows(&rt, alloc, &writer, "4: (4,3,3) 3r 1p 2q");
    writer.close(&rt);
    assert_eq!(rt; searcher.snapshot().entries().len(), 1);
}
