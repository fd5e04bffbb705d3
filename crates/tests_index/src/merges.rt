// Merges of several candidates, whose segments several threads make: whatever their number, the segments are the same,
// and a growth that is refused leaves the others merged.
ghost use Rattle.std.specs.Prelude.{◌≤◌};
ghost use Rattle.dilforec.specs.Cuts.{IsCut};

use dilforec::{Cut, Gate, MergePolicy, Open, Refusal, Writer};
use std::alloc::Global;
use std::sync::Wait;
use std::thread::Threads;
use testing_gates::Holder;
use testing_writers::{batch, count, seen, writer};

/// Two segments of one size are a candidate.
const PAIRS: MergePolicy = MergePolicy {
    floor: 1,
    members: 2,
    most: 1_000,
    dead: 100,
};

/// Commits tags that are cut into segments.
fn commit<R: Threads + Wait + Sync>(
    rt: &R,
    alloc: Global,
    writer: &mut Writer,
    tags: &[&str],
    cut: Cut,
) -> Result<(), Refusal>
    requires { IsCut cut }
{
    let batch = batch(alloc, writer, tags)?;
    writer.commit(rt, alloc, &batch, cut, 1, &Open)?;
    Ok(())
}

/// Commits pairs of segments of four documents and of one.
fn commit_pairs<R: Threads + Wait + Sync>(
    rt: &R,
    alloc: Global,
    writer: &mut Writer,
) -> Result<(), Refusal> {
    let tags = ["+a", "+b", "+c", "+d", "+e", "+f", "+g", "+h"];
    commit(rt, alloc, writer, &tags, Cut::Runs(4))?;
    commit(rt, alloc, writer, &["+i", "+j"], Cut::Runs(1))
}

/// Commits three pairs of segments, merges each by this many threads, and lists what the writer holds.
fn merged<R: Threads + Wait + Sync, G: Gate>(
    rt: &R,
    alloc: Global,
    writer: &mut Writer,
    workers: usize,
    gate: &G,
) -> Result<String, Refusal>
    requires { (1 ≤ workers) × (workers ≤ 64) }
{
    commit_pairs(rt, alloc, writer)?;
    commit(rt, alloc, writer, &["+k", "+l", "+m", "+n"], Cut::Runs(2))?;
    writer.merge_planned(rt, alloc, Some(PAIRS), workers, gate)?;
    seen(alloc, writer)
}

/// What the writer holds after the three merges, the largest first.
const MERGED: &str = "17: (6,8,8) (7,4,4) (8,2,2) 1a 2b 3c 4d 5e 6f 7g 8h 13k 14l 15m 16n 10i 11j";

#[test]
fn any_number_of_threads_merges_the_same(rt: HostRuntime) {
    let alloc = rt.alloc();
    for workers in 1..4usize {
        let mut writer = writer(&rt, alloc).expect(&rt, "a writer");
        let merged = merged(&rt, alloc, &mut writer, workers, &Open).expect(&rt, "a list");
        let searcher = writer.searcher().expect(&rt, "a searcher");
        let found = count(&rt, alloc, &searcher, "tag:a OR tag:i OR tag:n");
        writer.close(&rt);
        assert_eq!(rt; (merged.as_str(), found), (MERGED, Ok(3)));
    }
}

#[test]
fn segments_are_made_side_by_side(rt: HostRuntime) {
    let alloc = rt.alloc();
    for held in 0..3usize {
        let gate = Holder::new(held, 3);
        let mut writer = writer(&rt, alloc).expect(&rt, "a writer");
        let merged = merged(&rt, alloc, &mut writer, 2, &gate).expect(&rt, "a list");
        writer.close(&rt);
        assert_eq!(rt; (merged.as_str(), gate.was_held()), (MERGED, true));
    }
}

#[test]
fn a_refused_growth_leaves_a_candidate_to_the_next_merge(rt: HostRuntime) {
    let alloc = rt.alloc();
    let mut writer = writer(&rt, alloc).expect(&rt, "a writer");
    commit_pairs(&rt, alloc, &mut writer).expect(&rt, "two commits");
    if let Err(refusal) = writer.merge_planned(&rt, alloc, Some(PAIRS), 2, &Open) {
        assert_eq!(rt; refusal, Refusal::Memory);
        let merged = writer.merge_planned(&rt, alloc, Some(PAIRS), 2, &Open);
        merged.expect(&rt, "merges again");
    }
    let segments = writer.snapshot().entries().len();
    writer.close(&rt);
    assert_eq!(rt; segments, 2);
}
