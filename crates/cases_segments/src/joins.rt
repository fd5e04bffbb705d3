// Cases of a merge of all segments that were made: `join`, which leaves the merged segment in their place.
ghost use Rattle.std.specs.Prelude.{◌≡◌, All, IfSome};

use crate::bench::{Bench, segment_with};
use crate::merges::give_merged;
use crate::numbers::all_bits;
use fts_merge::{LiveSegment, Merged, merge};
use fts_model::{Document, Schema, Stamped};
use fts_pack::bits::Bits;
use fts_segment::Segment;
use testing_cases::{Trial, Trouble};

/// Appends a document of a segment.
fn push_document(
    trial: &mut Trial,
    found: &mut Vec<Stamped<Document>>,
    segment: &Segment,
    doc: usize,
) {
    if doc >= segment.docs() {
        return;
    }
    let value: Result<Document, _> = segment.document(doc).clone();
    if let Some(value) = trial.kept(value) {
        let stamp = segment.stamp(doc);
        trial.push(found, Stamped { stamp, value });
    }
}

/// A segment of the same documents under a schema.
fn made_again(trial: &mut Trial, schema: &Schema, segment: &Segment) -> Option<Segment>
    ensures { IfSome result (λ made. made.schema ≡ schema.now) }
{
    let mut documents = Vec::new(trial.alloc());
    for doc in 0..segment.docs() {
        push_document(trial, &mut documents, segment, doc);
    }
    segment_with(trial, false, schema, &documents)
}

/// Appends a segment of the same documents under a schema.
fn push_again(trial: &mut Trial, again: &mut Vec<Segment>, schema: &Schema, segment: &Segment)
    requires { All (λ made. made.schema ≡ schema.now) again.old.items }
    ensures { All (λ made. made.schema ≡ schema.now) again.new.items }
{
    if let Some(made) = made_again(trial, schema, segment) {
        let pushed = again.push(made);
        trial.kept(pushed);
    }
}

/// All segments, each made again under the schema of the first.
fn all_again(trial: &mut Trial, schema: &Schema, made: &[Bench]) -> Vec<Segment>
    ensures { All (λ made. made.schema ≡ schema.now) result.items }
{
    let mut again = Vec::new(trial.alloc());
    for bench in made {
        push_again(trial, &mut again, schema, &bench.segment);
    }
    again
}

/// Puts a segment with its live bits after sources.
fn push_source<'a>(
    trial: &mut Trial,
    sources: &mut Vec<LiveSegment<'a>>,
    schema: &Schema,
    segment: &'a Segment,
    live: &'a Bits,
)
    requires sources { All (λ source. source.segment.schema ≡ schema.now) sources.old.items }
    requires segment { segment.now.schema ≡ schema.now }
    ensures { All (λ source. source.segment.schema ≡ schema.now) sources.new.items }
{
    if live.len() != segment.docs() {
        return trial.fail(Trouble::Impossible("not one bit a document"));
    }
    let pushed = sources.push(LiveSegment::new(segment, live));
    trial.kept(pushed);
}

/// The merge of segments of one schema, each with the live bits of the one from which it was made.
fn merged(trial: &mut Trial, schema: &Schema, again: &[Segment], made: &[Bench]) -> Option<Merged>
    requires { All (λ made. made.schema ≡ schema.now) again.now }
{
    let mut sources = Vec::new(trial.alloc());
    for index in 0..again.len() {
        if let Some(bench) = made.get(index) {
            push_source(trial, &mut sources, schema, &again[index], &bench.live);
        }
    }
    if sources.is_empty() {
        trial.fail(Trouble::Impossible("no documents were made"));
        return None;
    }
    let merged = merge(trial.alloc(), &sources);
    trial.kept(merged)
}

/// The merge of all segments that were made.
fn merged_of(trial: &mut Trial, made: &[Bench]) -> Option<Merged> {
    let schema = made.first()?.segment.schema();
    let again = all_again(trial, schema, made);
    merged(trial, schema, &again, made)
}

/// A merged segment, all of it live.
fn bench_of(trial: &mut Trial, merged: &Merged) -> Option<Bench> {
    let segment: Result<Segment, _> = merged.segment().clone();
    let segment = trial.kept(segment)?;
    let live = all_bits(trial, segment.docs(), true)?;
    Some(Bench { segment, live })
}

/// Merges all segments that were made, each with its live bits, and leaves only the merged one. Gives each of its
/// documents as its stamp, its source and its number there.
pub(crate) fn join(trial: &mut Trial, made: &mut Vec<Bench>) {
    let Some(merged) = merged_of(trial, made) else {
        return;
    };
    give_merged(trial, &merged);
    if let Some(bench) = bench_of(trial, &merged) {
        made.clear();
        trial.push(made, bench);
    }
}
