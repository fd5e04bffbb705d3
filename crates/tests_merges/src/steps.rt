// A commit, and the end of a merge, each of which leaves a snapshot that follows the one before.
ghost use Rattle.dilforec.specs.Successors.{Follows, Fits};

use dilforec::{Cut, MergedSegment, Open, Refusal, Writer};
use std::alloc::Global;
use std::sync::Wait;
use std::thread::Threads;
use testing_writers::batch;

/// Commits a round of one lane in segments of one add: a tag after `+` is added, one after `-` is deleted.
pub(crate) fn commit<R: Threads + Wait + Sync>(
    rt: &R,
    alloc: Global,
    writer: &mut Writer,
    tags: &[&str],
) -> Result<(), Refusal>
    ensures { Follows writer.old.front.snapshot writer.new.front.snapshot }
{
    let batch = batch(alloc, writer, tags)?;
    match writer.commit(rt, alloc, &batch, Cut::Runs(1), 1, &Open) {
        Ok(_) => Ok(()),
        Err(refusal) => Err(refusal),
    }
}

/// Ends a merge, and returns why it was refused, if it was.
pub(crate) fn end<R: Wait>(
    rt: &R,
    alloc: Global,
    writer: &mut Writer,
    merged: MergedSegment,
) -> Option<Refusal>
    requires { Fits merged writer.old.front.snapshot }
    ensures { Follows writer.old.front.snapshot writer.new.front.snapshot }
{
    match writer.end_merge(rt, alloc, merged) {
        Ok(_) => None,
        Err((_, refusal)) => Some(refusal),
    }
}
