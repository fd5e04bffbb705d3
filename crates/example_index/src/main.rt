// An index by the crate dilforec alone: two lanes in two threads, a commit, and a search beside a merge that ends
// later.
//
// It prints how many documents there are, how many have "pearls", and how many segments the merge left.
#![tactic(auto)]

ghost use Rattle.std.specs.Prelude.{◌≡◌, ◌++◌, List, IfOk, OnOk, OnErr};
ghost use Rattle.dilforec.specs.declared.Op.{Op};
ghost use Rattle.dilforec.specs.declared.Stamped.{Stamped};
ghost use Rattle.dilforec.specs.Operations.{alive, adds};
ghost use Rattle.dilforec.specs.Rounds.{SameLane};
ghost use Rattle.dilforec.specs.Snapshots.{content_of};
ghost use Rattle.dilforec.specs.Successors.{Fits};
ghost use Rattle.example_index.specs.Counts.{IsCountOf};

use dilforec::{
    Batch, Cut, Document, Field, Kind, Lane, LaneEnd, MergedSegment, Op, Open, Refusal, Request,
    Schema, Searcher, Stamp, Text, Writer, parse,
};
use serde_json::Value;
use std::alloc::Global;
use std::process::ExitCode;
use std::sync::Wait;
use std::thread::{Threads, join};

/// A schema of one text field.
fn titles(alloc: Global) -> Result<Schema, Refusal> {
    let name = Text::new(String::from_str(alloc, "title")?);
    let fields = vec![in alloc;
        Field {
            name,
            kind: Kind::Text,
            default: true
        },
    ]?;
    Schema::new(alloc, fields).map_err(|e| e.1)
}

/// Adds a document, which is JSON.
fn add(alloc: Global, schema: &Schema, json: &str) -> Result<Op, Refusal> {
    match Value::from_str(alloc, json) {
        Ok(json) => Ok(Op::Add(Document::from_json(alloc, schema, &json)?)),
        Err(error) if error.is_memory() => Err(Refusal::Memory),
        Err(_) => Err(Refusal::BadJson),
    }
}

/// Submits an operation to a lane, and ends it.
fn with_one(mut lane: Lane, op: Op) -> Result<LaneEnd, Refusal>
    ensures { IfOk result (λ end. SameLane lane end) }
{
    match lane.submit(op) {
        Ok(_) => Ok(lane.end()),
        Err((_, refusal)) => Err(refusal),
    }
}

/// A round of two lanes, each of which takes one operation in a thread of its own.
fn two_lanes<R: Threads + Sync>(
    rt: &R,
    alloc: Global,
    writer: &mut Writer,
    left: Op,
    right: Op,
) -> Result<Batch, Refusal>
    ensures { writer.new.front ≡ writer.old.front }
{
    let (round, mut lanes) = writer.open_round(alloc, 2, 10)?;
    let Some(second) = lanes.pop() else {
        return Err(Refusal::RoundOpen);
    };
    let Some(first) = lanes.pop() else {
        return Err(Refusal::RoundOpen);
    };
    let (first, second) = join(rt, || with_one(first, left), || with_one(second, right));
    let ends = vec![in alloc; second?, first?]?;
    round.gather(alloc, ends).map_err(|e| e.2)
}

/// Commits two operations. What is found then are the documents alive after those of before and the two.
fn commit_two<R: Threads + Wait + Sync>(
    rt: &R,
    alloc: Global,
    writer: &mut Writer,
    left: Op,
    right: Op,
) -> Result<Stamp, Refusal>
    ensures content { OnOk result ((ops : List (Stamped Op)) × (content_of writer.new.front.snapshot
        ≡ alive writer.old.front.snapshot.schema
        (adds (content_of writer.old.front.snapshot) ++ ops))) }
    ensures same { OnErr result (writer.new.front ≡ writer.old.front) }
{
    let batch = two_lanes(rt, alloc, writer, left, right)?;
    let committed = writer.commit(rt, alloc, &batch, Cut::Runs(1), 2, &Open)?;
    Ok(committed.stamp)
}

/// How many of the documents that are alive a text finds.
fn count<R: Threads + Wait + Sync>(
    rt: &R,
    alloc: Global,
    searcher: &Searcher,
    text: &str,
) -> Result<u64, Refusal>
    ensures { IfOk result (IsCountOf searcher.now text.now) }
{
    let schema = searcher.snapshot().schema();
    let query = parse(alloc, schema, text)?;
    let request = Request::new(schema, None, None)?;
    let found = searcher.search(rt, alloc, &query, &request, 2, &Open)?;
    Ok(found.answer.count)
}

/// Merges two segments in another thread, while this one counts. The merge may still end later in this writer.
fn merge_beside<R: Threads + Wait + Sync>(
    rt: &R,
    alloc: Global,
    writer: &Writer,
    searcher: &Searcher,
) -> Result<(MergedSegment, u64), Refusal>
    ensures { IfOk result (λ both. Fits both.0 writer.now.front.snapshot) }
{
    let job = writer.begin_merge(alloc, &[0, 1])?;
    let (merged, count) = join(
        rt,
        || job.run(alloc),
        || count(rt, alloc, searcher, "pearls"),
    );
    match merged {
        Ok(merged) => Ok((merged, count?)),
        Err((_, refusal)) => Err(refusal),
    }
}

/// Commits two books, and counts beside a merge of their segments.
fn books<R: Threads + Wait + Sync>(
    rt: &R,
    alloc: Global,
    writer: &mut Writer,
) -> Result<(u64, u64, usize), Refusal> {
    let left = add(alloc, writer.schema(), "{\"title\":\"Programming Pearls\"}")?;
    let right = add(alloc, writer.schema(), "{\"title\":\"Managing Gigabytes\"}")?;
    commit_two(rt, alloc, writer, left, right)?;

    let searcher = writer.reader()?.searcher()?;
    let all = count(rt, alloc, &searcher, "*")?;
    let (merged, pearls) = merge_beside(rt, alloc, writer, &searcher)?;
    writer.end_merge(rt, alloc, merged).map_err(|e| e.1)?;
    Ok((all, pearls, writer.segments(alloc)?.len()))
}

/// Counts the books in a writer of its own, which is closed whatever happens.
fn counted<R: Threads + Wait + Sync>(rt: &R, alloc: Global) -> Result<(u64, u64, usize), Refusal> {
    let schema = titles(alloc)?;
    let mut writer = Writer::new(rt, alloc, &schema)?;
    let counts = books(rt, alloc, &mut writer);
    writer.close(rt);
    counts
}

fn main(rt: HostRuntime) -> ExitCode {
    match counted(&rt, rt.alloc()) {
        Ok((all, pearls, segments)) => match println!(rt; "{all} {pearls} {segments}") {
            Ok(()) => ExitCode::SUCCESS,
            Err(_) => ExitCode::FAILURE,
        },
        Err(_) => ExitCode::FAILURE,
    }
}
