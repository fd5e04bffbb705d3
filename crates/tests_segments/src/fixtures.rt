// The schema and the segment with which the tests of several files begin.
ghost use Rattle.std.specs.Prelude.{◌≡◌};

use fts_model::{Document, Field, Kind, MOST_MERGED, Refusal, Schema, Text};
use fts_segment::{Builder, Segment};
use serde_json::Value;
use std::alloc::{AllocError, Global};
use std::process::Abort;

pub(crate) fn field(
    alloc: Global,
    name: &str,
    kind: Kind,
    default: bool,
) -> Result<Field, AllocError> {
    let name = Text::new(String::from_str(alloc, name)?);
    Ok(Field {
        name,
        kind,
        default,
    })
}

/// The fields `title` (text) and `tag` (keyword), both marked default, `price` (`u64`) and `temp` (`i64`).
pub(crate) fn schema(rt: &impl Abort, alloc: Global) -> Schema {
    let mut fields = Vec::new(alloc);
    for (name, kind, default) in [
        ("title", Kind::Text, true),
        ("tag", Kind::Keyword, true),
        ("price", Kind::U64, false),
        ("temp", Kind::I64, false),
    ] {
        let field = field(alloc, name, kind, default).expect(rt, "a field");
        fields.push(field).expect(rt, "fields");
    }
    Schema::new(alloc, fields)
        .map_err(|e| e.1)
        .expect(rt, "a schema")
}

pub(crate) fn document(rt: &impl Abort, alloc: Global, schema: &Schema, json: &str) -> Document {
    let json = Value::from_str(alloc, json).expect(rt, "a value");
    Document::from_json(alloc, schema, &json).expect(rt, "a document")
}

/// Adds a document, if it fits. If a growth was refused, the builder is as before, and the second try succeeds.
pub(crate) fn add(
    rt: &impl Abort,
    builder: &mut Builder,
    schema: &Schema,
    stamp: u64,
    document: &Document,
)
    requires { builder.old.segment.schema ≡ schema.now }
    ensures { builder.new.segment.schema ≡ schema.now }
{
    let docs = builder.docs();
    if !document.fits(schema) || docs >= MOST_MERGED {
        panic!(rt; "a document that can't be added");
    }
    if let Err(refusal) = builder.add(stamp, document) {
        assert_eq!(rt; (builder.docs(), refusal), (docs, Refusal::Memory));
        builder.add(stamp, document).expect(rt, "an add again");
    }
}

/// The segment of the documents. If a growth was refused, the builder comes back, and the second try succeeds.
pub(crate) fn finished(rt: &impl Abort, alloc: Global, builder: Builder) -> Segment
    ensures { result.schema ≡ builder.segment.schema }
{
    let docs = builder.docs();
    match builder.finish(alloc) {
        Ok(segment) => segment,
        Err((builder, refusal)) => {
            assert_eq!(rt; (builder.docs(), refusal), (docs, Refusal::Memory));
            builder
                .finish(alloc)
                .map_err(|e| e.1)
                .expect(rt, "a segment again")
        }
    }
}

/// The documents `{"title":"a b a","price":4}`, `{"title":"b"}` and `{"tag":"a"}` at the stamps 3, 5 and 9.
pub(crate) fn example(rt: &impl Abort, alloc: Global) -> Segment {
    example_under(rt, alloc, &schema(rt, alloc))
}

fn example_under(rt: &impl Abort, alloc: Global, schema: &Schema) -> Segment {
    let mut builder = Builder::new(alloc, schema).expect(rt, "a builder");
    for (stamp, json) in [
        (3, r#"{"title":"a b a","price":4}"#),
        (5, r#"{"title":"b"}"#),
        (9, r#"{"tag":"a"}"#),
    ] {
        let document = document(rt, alloc, schema, json);
        add(rt, &mut builder, schema, stamp, &document);
    }
    finished(rt, alloc, builder)
}
