// Two merges of one writer, each run in a thread of its own.
ghost use Rattle.std.specs.Prelude.{IfOk};
ghost use Rattle.dilforec.specs.Successors.{Fits};

use crate::steps::{commit, end};
use dilforec::{MergedSegment, Refusal, Writer};
use std::alloc::Global;
use std::sync::Wait;
use std::test::Fail;
use std::thread::{Threads, join};
use testing_writers::{count, schema, seen};

/// Runs two merges in two threads.
fn both<R: Threads + Wait + Sync>(
    rt: &R,
    alloc: Global,
    writer: &Writer,
) -> Result<(MergedSegment, MergedSegment), Refusal>
    ensures first { IfOk result (λ both. Fits both.0 writer.now.front.snapshot) }
    ensures second { IfOk result (λ both. Fits both.1 writer.now.front.snapshot) }
{
    let first = writer.begin_merge(alloc, &[0, 1])?;
    let second = writer.begin_merge(alloc, &[2, 3])?;
    let (first, second) = join(rt, || first.run(alloc), || second.run(alloc));
    match (first, second) {
        (Ok(first), Ok(second)) => Ok((first, second)),
        (Err((_, refusal)), _) => Err(refusal),
        (_, Err((_, refusal))) => Err(refusal),
    }
}

fn in_two_threads<R: Threads + Wait + Sync>(
    rt: &R,
    alloc: Global,
    writer: &mut Writer,
) -> Result<u64, Refusal> {
    commit(rt, alloc, writer, &["+p", "+q", "+r", "+s"])?;
    let (first, second) = both(rt, alloc, writer)?;
    commit(rt, alloc, writer, &["+t"])?;
    end(rt, alloc, writer, second);
    end(rt, alloc, writer, first);
    count(rt, alloc, &writer.searcher()?, "*")
}

#[test]
fn two_merges_in_two_threads(rt: HostRuntime) -> Result<(), Fail> {
    let alloc = rt.alloc();
    let mut writer = Writer::new(&rt, alloc, &schema(alloc)?)?;
    let ended = in_two_threads(&rt, alloc, &mut writer);
    let seen = seen(alloc, &writer);
    writer.close(&rt);
    assert_eq!(rt; ended?, 5);
    assert_eq!(rt; seen?.as_str(), "7: (4,1,1) (5,2,2) (6,2,2) 6t 3r 4s 1p 2q");
    Ok(())
}
