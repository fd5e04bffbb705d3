// Cases of deletes and merges of the first segment that was made: `strike`, `merge`, `merged_postings` and
// `merged_column`; and `plan` and `plan_by`.
ghost use Rattle.std.specs.Prelude.{◌≤◌};
ghost use Rattle.fts_model.specs.Limits.{most_merged};

use crate::bench::Bench;
use crate::lookups::{column, postings};
use crate::numbers::{all_bits, turn};
use fts_merge::{LiveSegment, MergePolicy, Merged, SegmentSize, merge, plan, plan_by, strike};
use fts_model::{MOST_MERGED, Op, Schema, Stamped};
use fts_pack::bits::Bits;
use fts_segment::Segment;
use serde_json::Value;
use testing_cases::{Trial, Trouble, list, member, number, numbers, only, op_of, size};

/// Appends the operation of an object `{"stamp":STAMP,"op":OPERATION}`.
fn push_op(trial: &mut Trial, ops: &mut Vec<Stamped<Op>>, schema: &Schema, item: &Value) {
    only(trial, item, &["stamp", "op"]);
    let stamp = number(trial, item, "stamp");
    let Some(op) = member(trial, item, "op") else {
        return;
    };
    if let Some(value) = op_of(trial, schema, op) {
        trial.push(ops, Stamped { stamp, value });
    }
}

/// The operations of a list of such objects.
fn ops_of(trial: &mut Trial, schema: &Schema, items: &[Value]) -> Vec<Stamped<Op>> {
    let mut ops = Vec::new(trial.alloc());
    for item in items {
        push_op(trial, &mut ops, schema, item);
    }
    ops
}

/// Gives the documents whose bit is set.
fn give_live(trial: &mut Trial, live: &Bits) {
    trial.open();
    for doc in 0..live.len() {
        if live.get(doc) {
            trial.give_number(doc as u64);
        }
    }
    trial.close();
}

/// The documents that are live after operations. The segment's own bits don't change.
fn struck(trial: &mut Trial, case: &Value, bench: &Bench) {
    if bench.live.len() != bench.segment.docs() {
        return trial.fail(Trouble::Impossible("not one bit a document"));
    }
    let items = list(trial, case, "ops");
    let ops = ops_of(trial, bench.segment.schema(), items);
    let live = strike(trial.alloc(), &bench.segment, &bench.live, &ops);
    if let Some(live) = trial.kept(live) {
        give_live(trial, &live);
    }
}

/// The bits of the documents of a list.
fn bits_of(trial: &mut Trial, case: &Value, name: &'static str, docs: usize) -> Option<Bits> {
    let mut live = all_bits(trial, docs, false)?;
    let docs = numbers(trial, case, name);
    turn(trial, &mut live, &docs, true, "no such document");
    Some(live)
}

/// A segment with some documents live, before itself with others live.
fn merged(trial: &mut Trial, segment: &Segment, first: &Bits, second: &Bits) -> Option<Merged> {
    if first.len() != segment.docs() || second.len() != segment.docs() {
        trial.fail(Trouble::Impossible("not one bit a document"));
        return None;
    }
    let sources = [
        LiveSegment::new(segment, first),
        LiveSegment::new(segment, second),
    ];
    let merged = merge(trial.alloc(), &sources);
    trial.kept(merged)
}

/// The merge of the segment with the documents `first` live before itself with the documents `second` live.
fn merged_of(trial: &mut Trial, case: &Value, segment: &Segment) -> Option<Merged> {
    let first = bits_of(trial, case, "first", segment.docs())?;
    let second = bits_of(trial, case, "second", segment.docs())?;
    merged(trial, segment, &first, &second)
}

/// Gives each merged document as its stamp, its source and its number there.
pub(crate) fn give_merged(trial: &mut Trial, merged: &Merged) {
    let segment = merged.segment();
    trial.open();
    for (doc, origin) in merged.origins().iter().enumerate() {
        if doc < segment.docs() {
            let (source, document) = (origin.source as u64, origin.document as u64);
            trial.give_stamps(&[segment.stamp(doc), source, document]);
        }
    }
    trial.close();
}

/// Gives what is to be merged of segments of some sizes: their places, by candidates.
pub(crate) fn planned(trial: &mut Trial, case: &Value) {
    let sizes = numbers(trial, case, "sizes");
    let candidates = plan(trial.alloc(), &sizes);
    if let Some(candidates) = trial.kept(candidates) {
        give_candidates(trial, &candidates);
    }
}

/// The number under a name, if it is at most that of the documents of a segment.
fn few(trial: &mut Trial, case: &Value, name: &'static str) -> u32
    ensures { result ≤ most_merged }
{
    let number = number(trial, case, name);
    if number > MOST_MERGED as u64 {
        trial.fail(Trouble::Impossible("too many documents"));
        return 0;
    }
    number as u32
}

/// The sizes of segments: how many documents each has, and how many of these are live.
fn segment_sizes(trial: &mut Trial, case: &Value) -> Vec<SegmentSize> {
    let docs = numbers(trial, case, "docs");
    let live = numbers(trial, case, "live");
    let mut sizes = Vec::new(trial.alloc());
    for (docs, live) in docs.iter().zip(&live) {
        trial.push(
            &mut sizes,
            SegmentSize {
                docs: *docs,
                live: *live,
            },
        );
    }
    sizes
}

/// Gives what is to be merged of such segments by a policy.
pub(crate) fn planned_by(trial: &mut Trial, case: &Value) {
    let sizes = segment_sizes(trial, case);
    let policy = MergePolicy {
        floor: few(trial, case, "floor"),
        members: size(trial, case, "members"),
        most: few(trial, case, "most"),
        dead: few(trial, case, "dead"),
    };
    let candidates = plan_by(trial.alloc(), &policy, &sizes);
    if let Some(candidates) = trial.kept(candidates) {
        give_candidates(trial, &candidates);
    }
}

fn give_candidates(trial: &mut Trial, candidates: &[Vec<usize>]) {
    trial.open();
    for candidate in candidates {
        give_candidate(trial, candidate);
    }
    trial.close();
}

fn give_candidate(trial: &mut Trial, candidate: &[usize]) {
    trial.open();
    for place in candidate {
        trial.give_number(*place as u64);
    }
    trial.close();
}

/// Tries a case of one of these words, and returns whether its word is one of them.
pub(crate) fn given(trial: &mut Trial, word: &str, case: &Value, bench: &Bench) -> bool {
    if word == "strike" {
        struck(trial, case, bench);
        return true;
    }
    if word != "merge" && word != "merged_postings" && word != "merged_column" {
        return false;
    }
    if let Some(merged) = merged_of(trial, case, &bench.segment) {
        match word {
            "merge" => give_merged(trial, &merged),
            "merged_postings" => postings(trial, case, merged.segment()),
            _ => column(trial, case, merged.segment()),
        }
    }
    true
}
