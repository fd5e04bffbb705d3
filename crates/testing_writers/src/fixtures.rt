// The schema of four fields, and documents and a writer of it.
use fts_index::Writer;
use fts_model::{Document, Field, Kind, Refusal, Schema, Text};
use serde_json::Value;
use std::alloc::{AllocError, Global};
use std::sync::Wait;

/// The name and the kind of each field, and whether it is marked default.
const FIELDS: [(&str, Kind, bool); 4] = [
    ("title", Kind::Text, true),
    ("tag", Kind::Keyword, true),
    ("price", Kind::U64, false),
    ("temp", Kind::I64, false),
];

fn field(alloc: Global, name: &str, kind: Kind, default: bool) -> Result<Field, AllocError> {
    let name = Text::new(String::from_str(alloc, name)?);
    Ok(Field {
        name,
        kind,
        default,
    })
}

/// The schema of the four fields.
pub fn schema(alloc: Global) -> Result<Schema, Refusal> {
    let mut fields = Vec::new(alloc);
    for (name, kind, default) in FIELDS {
        fields.push(field(alloc, name, kind, default)?)?;
    }
    Schema::new(alloc, fields).map_err(|e| e.1)
}

/// A new writer of that schema.
pub fn writer<R: Wait>(rt: &R, alloc: Global) -> Result<Writer, Refusal> {
    Writer::new(rt, alloc, &schema(alloc)?)
}

/// The document of a JSON text.
pub fn document(alloc: Global, schema: &Schema, json: &str) -> Result<Document, Refusal> {
    match Value::from_str(alloc, json) {
        Ok(json) => Document::from_json(alloc, schema, &json),
        Err(error) if error.is_memory() => Err(Refusal::Memory),
        Err(_) => Err(Refusal::BadJson),
    }
}
