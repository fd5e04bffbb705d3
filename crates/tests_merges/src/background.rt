// A log that goes on while another thread merges what was there.
ghost use Rattle.std.specs.Prelude.{◌≡◌, IfOk};
ghost use Rattle.dilforec.specs.Successors.{Follows, Fits};
ghost use Rattle.dilforec.specs.MergedSegments.{merged_of};

use crate::steps::{commit, end};
use dilforec::{MergeJob, MergedSegment, Refusal, Writer};
use std::alloc::Global;
use std::process::Abort;
use std::snapshot::Snapshot;
use std::sync::Wait;
use std::thread::{Promise, PromisedHandle, Threads, spawn_with};
use testing_writers::{seen, writer};

/// Commits lines one by one.
fn log<R: Threads + Wait + Sync + Abort>(rt: &R, alloc: Global, writer: &mut Writer, lines: &[&str])
    ensures { Follows writer.old.front.snapshot writer.new.front.snapshot }
{
    for line in lines {
        commit(rt, alloc, writer, &[*line]).expect(rt, "a commit");
    }
}

/// The promise of a thread that runs a merge: it returns the merged segment, or a refusal.
#[derive(Drop)]
struct Merging(Snapshot<MergeJob>);

impl Promise<Result<MergedSegment, Refusal>> for Merging {
    ghost use Rattle.std.specs.Prelude.{◌≡◌, IfOk};
    ghost use Rattle.dilforec.specs.MergedSegments.{merged_of};

    ghost kept_by = { λ p r. IfOk r (λ merged. merged ≡ merged_of p.0.value) };
}

/// A thread that runs a merge.
type Thread = PromisedHandle<Result<MergedSegment, Refusal>, Merging>;

/// Runs a merge.
fn run(alloc: Global, job: MergeJob) -> Result<MergedSegment, Refusal>
    ensures { IfOk result (λ merged. merged ≡ merged_of job) }
{
    match job.run(alloc) {
        Ok(merged) => Ok(merged),
        Err((_, refusal)) => Err(refusal),
    }
}

/// Starts a merge of segments, which is run in a thread of its own.
fn begun<R: Threads + Abort>(rt: &R, alloc: Global, writer: &Writer, ids: &[u64]) -> Thread
    ensures { Fits (merged_of result.promise.0.value) writer.now.front.snapshot }
{
    let job = writer.begin_merge(alloc, ids).expect(rt, "a merge");
    let promise = Merging(Snapshot::of(&job));
    spawn_with(rt, promise, move || run(alloc, job)).expect(rt, "a thread")
}

/// Ends the merge that a thread ran; the end isn't refused.
fn join_merge<R: Threads + Wait + Sync + Abort>(
    rt: &R,
    alloc: Global,
    writer: &mut Writer,
    thread: Thread,
)
    requires { Fits (merged_of thread.promise.0.value) writer.old.front.snapshot }
{
    let merged = thread.join(rt).expect(rt, "a merged segment");
    assert_eq!(rt; end(rt, alloc, writer, merged), None);
}

/// Merges segments while lines are logged.
pub(crate) fn merge_beside<R: Threads + Wait + Sync + Abort>(
    rt: &R,
    alloc: Global,
    writer: &mut Writer,
    ids: &[u64],
    lines: &[&str],
) {
    let thread = begun(rt, alloc, writer, ids);
    log(rt, alloc, writer, lines);
    join_merge(rt, alloc, writer, thread);
}

/// Merges four lines while others are logged, one of which deletes a line that is being merged.
fn merge_four<R: Threads + Wait + Sync + Abort>(rt: &R, alloc: Global, writer: &mut Writer) {
    commit(rt, alloc, writer, &["+a", "+b", "+c", "+d"]).expect(rt, "a commit");
    merge_beside(rt, alloc, writer, &[0, 1, 2, 3], &["+e", "+f", "-b", "+g"]);
}

#[test]
fn a_log_goes_on_beside_a_merge(rt: HostRuntime) {
    let mut writer = writer(&rt, rt.alloc()).expect(&rt, "a writer");
    merge_four(&rt, rt.alloc(), &mut writer);
    let seen = seen(rt.alloc(), &writer).expect(&rt, "a list");
    writer.close(&rt);
    let wanted = "13: (4,1,1) (5,1,1) (6,1,1) (7,4,3) 6e 8f 12g 1a 3c 4d";
    assert_eq!(rt; seen.as_str(), wanted);
}
