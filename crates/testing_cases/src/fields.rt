// The schema of a case.
use crate::members::{flag, only, optional_list, text};
use crate::trial::Trial;
use crate::trouble::Trouble;
use fts_model::{Field, Kind, Schema, Text};
use serde_json::Value;

fn kind_named(trial: &mut Trial, name: &str) -> Kind {
    match name {
        "text" => Kind::Text,
        "keyword" => Kind::Keyword,
        "u64" => Kind::U64,
        "i64" => Kind::I64,
        _ => {
            trial.fail(Trouble::UnknownWord);
            Kind::Text
        }
    }
}

/// Appends a field.
fn push_field(trial: &mut Trial, fields: &mut Vec<Field>, name: &str, kind: Kind, default: bool) {
    let name = String::from_str(trial.alloc(), name);
    if let Some(name) = trial.kept(name) {
        let name = Text::new(name);
        trial.push(
            fields,
            Field {
                name,
                kind,
                default,
            },
        );
    }
}

/// Appends the field of an object.
fn push_read(trial: &mut Trial, fields: &mut Vec<Field>, json: &Value) {
    only(trial, json, &["name", "kind", "default"]);
    let kind = text(trial, json, "kind");
    let kind = kind_named(trial, kind);
    let default = flag(trial, json, "default");
    let name = text(trial, json, "name");
    push_field(trial, fields, name, kind, default);
}

/// The fields of a list.
pub fn fields_of(trial: &mut Trial, items: &[Value]) -> Vec<Field> {
    let mut fields = Vec::new(trial.alloc());
    for item in items {
        push_read(trial, &mut fields, item);
    }
    fields
}

/// The name and the kind of each field of a case without a schema, and whether it is marked default.
const FIELDS: [(&str, Kind, bool); 4] = [
    ("title", Kind::Text, true),
    ("tag", Kind::Keyword, true),
    ("price", Kind::U64, false),
    ("temp", Kind::I64, false),
];

/// The fields `title` (text) and `tag` (keyword), both marked default, `price` (`u64`) and `temp` (`i64`).
fn four_fields(trial: &mut Trial) -> Vec<Field> {
    let mut fields = Vec::new(trial.alloc());
    for (name, kind, default) in &FIELDS {
        push_field(trial, &mut fields, name, *kind, *default);
    }
    fields
}

/// The schema of fields.
pub fn schema_with(trial: &mut Trial, fields: Vec<Field>) -> Option<Schema> {
    match Schema::new(trial.alloc(), fields) {
        Ok(schema) => Some(schema),
        Err((_, refusal)) => {
            trial.fail(Trouble::from(refusal));
            None
        }
    }
}

/// The schema of the four fields.
pub fn schema_of_four(trial: &mut Trial) -> Option<Schema> {
    let fields = four_fields(trial);
    schema_with(trial, fields)
}

/// The schema of a case: that of its `schema`, and of the four fields `title`, `tag`, `price` and `temp` without one.
pub fn schema_of(trial: &mut Trial, case: &Value) -> Option<Schema> {
    match optional_list(trial, case, "schema") {
        Some(items) => {
            let fields = fields_of(trial, items);
            schema_with(trial, fields)
        }
        None => schema_of_four(trial),
    }
}
