// Makes a segment of the documents of a case.
ghost use Rattle.std.specs.Prelude.{◌≡◌, IfSome};

use crate::numbers::{all_bits, turn};
use fts_model::{Document, MOST_MERGED, Schema, Stamped};
use fts_pack::bits::Bits;
use fts_segment::{Builder, Segment};
use serde_json::Value;
use testing_cases::{
    Trial, Trouble, has, list, nonempty, number, numbers, only, only_in_case, optional_flag,
    optional_list, schema_of,
};

/// A segment, and which of its documents are live.
#[derive(Drop)]
pub(crate) struct Bench {
    pub(crate) segment: Segment,
    pub(crate) live: Bits,
}

/// Appends the documents of a list to those of a case. The stamp of each is that of its place in `stamps`, and without
/// these its number plus one.
fn push_all(
    trial: &mut Trial,
    found: &mut Vec<Stamped<Document>>,
    schema: &Schema,
    stamps: &[u32],
    documents: &[Value],
) {
    for json in documents {
        let stamp = match stamps.get(found.len()) {
            Some(stamp) => u64::from(*stamp),
            None => (found.len() as u64).saturating_add(1),
        };
        let value = Document::from_json(trial.alloc(), schema, json);
        if let Some(value) = trial.kept(value) {
            trial.push(found, Stamped { stamp, value });
        }
    }
}

/// Appends documents, each as many times as the list says.
fn push_repeated(
    trial: &mut Trial,
    found: &mut Vec<Stamped<Document>>,
    schema: &Schema,
    json: &Value,
) {
    only(trial, json, &["times", "of"]);
    let times = number(trial, json, "times");
    let documents = nonempty(trial, json, "of");
    for _ in 0..times {
        push_all(trial, found, schema, &[], documents);
    }
}

/// The documents of a list of repetitions.
fn repeated(trial: &mut Trial, schema: &Schema, items: &[Value]) -> Vec<Stamped<Document>> {
    let mut found = Vec::new(trial.alloc());
    for item in items {
        push_repeated(trial, &mut found, schema, item);
    }
    found
}

/// The documents under `repeated` of a case, or else those of the list under `documents`, at the stamps of its
/// `stamps`.
fn documents_of(trial: &mut Trial, schema: &Schema, case: &Value) -> Vec<Stamped<Document>> {
    if let Some(items) = optional_list(trial, case, "repeated") {
        only_in_case(trial, case, &["schema", "merging", "repeated"]);
        return repeated(trial, schema, items);
    }
    let mut found = Vec::new(trial.alloc());
    let documents = list(trial, case, "documents");
    let stamps = stamps_of(trial, case, documents.len());
    push_all(trial, &mut found, schema, &stamps, documents);
    found
}

/// The stamps of this many documents of a case, and none if it has no `stamps`.
fn stamps_of(trial: &mut Trial, case: &Value, documents: usize) -> Vec<u32> {
    if !has(case, "stamps") {
        return Vec::new(trial.alloc());
    }
    let stamps = numbers(trial, case, "stamps");
    if stamps.len() != documents {
        trial.fail(Trouble::Impossible("not one stamp a document"));
    }
    stamps
}

/// Adds each document that fits.
fn add_all(
    trial: &mut Trial,
    builder: &mut Builder,
    schema: &Schema,
    documents: &[Stamped<Document>],
)
    requires { builder.old.segment.schema ≡ schema.now }
    ensures { builder.new.segment.schema ≡ schema.now }
{
    for document in documents {
        if !document.value.fits(schema) || builder.docs() >= MOST_MERGED {
            return trial.fail(Trouble::Impossible("a document that can't be added"));
        }
        let added = builder.add(document.stamp, &document.value);
        trial.kept(added);
    }
}

/// A builder of a segment, or of a merged one.
fn builder_of(trial: &mut Trial, merging: bool, schema: &Schema) -> Option<Builder>
    ensures { IfSome result (λ builder. builder.segment.schema ≡ schema.now) }
{
    let builder = if merging {
        Builder::merging(trial.alloc(), schema)
    } else {
        Builder::new(trial.alloc(), schema)
    };
    trial.kept(builder)
}

/// The segment of documents.
pub(crate) fn segment_with(
    trial: &mut Trial,
    merging: bool,
    schema: &Schema,
    documents: &[Stamped<Document>],
) -> Option<Segment>
    ensures { IfSome result (λ segment. segment.schema ≡ schema.now) }
{
    let mut builder = builder_of(trial, merging, schema)?;
    add_all(trial, &mut builder, schema, documents);
    match builder.finish(trial.alloc()) {
        Ok(segment) => Some(segment),
        Err((_, refusal)) => {
            trial.fail(Trouble::from(refusal));
            None
        }
    }
}

/// The segment of a case's documents.
fn segment_of(trial: &mut Trial, case: &Value) -> Option<Segment> {
    let schema = schema_of(trial, case)?;
    let documents = documents_of(trial, &schema, case);
    let merging = optional_flag(trial, case, "merging");
    segment_with(trial, merging, &schema, &documents)
}

/// The segment of a case's documents, all of them live.
pub(crate) fn made(trial: &mut Trial, case: &Value) -> Option<Bench> {
    let segment = segment_of(trial, case)?;
    let live = all_bits(trial, segment.docs(), true)?;
    Some(Bench { segment, live })
}

/// Clears the bits of the documents of a case, and gives how many are left.
pub(crate) fn cleared(trial: &mut Trial, live: &mut Bits, case: &Value) {
    let docs = numbers(trial, case, "docs");
    turn(trial, live, &docs, false, "no such document");
    trial.give_number(live.count_ones() as u64);
}
