// Cases of schemas: `schema` and `field`.
use fts_model::{Field, Kind, Schema};
use serde_json::Value;
use testing_cases::{Trial, fields_of, list, schema_of, text};

fn kind_name(kind: Kind) -> &'static str {
    match kind {
        Kind::Text => "text",
        Kind::Keyword => "keyword",
        Kind::U64 => "u64",
        Kind::I64 => "i64",
    }
}

fn give_fields(trial: &mut Trial, fields: &[Field]) {
    trial.open();
    for field in fields {
        trial.open();
        trial.give_text(field.name.as_str());
        trial.give_text(kind_name(field.kind));
        trial.give_flag(field.default);
        trial.close();
    }
    trial.close();
}

/// Gives the fields of a copy of a schema.
fn give_copy(trial: &mut Trial, schema: &Schema) {
    let copy: Result<_, _> = schema.clone();
    if let Some(copy) = trial.kept(copy) {
        give_fields(trial, copy.fields());
    }
}

/// Gives what a schema was refused for, and how many fields came back.
fn give_refused(trial: &mut Trial, name: &str, back: usize) {
    trial.open_object();
    trial.name("error");
    trial.give_text(name);
    trial.name("back");
    trial.give_number(back as u64);
    trial.close_object();
}

/// The fields of the schema of a list of fields. If it is refused, how many fields come back.
fn schema(trial: &mut Trial, case: &Value) {
    let items = list(trial, case, "fields");
    let fields = fields_of(trial, items);
    match Schema::new(trial.alloc(), fields) {
        Ok(schema) => give_copy(trial, &schema),
        Err((fields, refusal)) => give_refused(trial, refusal.name(), fields.len()),
    }
}

fn give_found(trial: &mut Trial, schema: &Schema, field: Option<usize>) {
    match field {
        Some(field) if field < schema.fields().len() => {
            trial.open();
            trial.give_number(field as u64);
            trial.give_text(kind_name(schema.kind(field)));
            trial.close();
        }
        _ => trial.give_null(),
    }
}

/// The number and the kind of the field of a name, or `null`.
fn field(trial: &mut Trial, case: &Value) {
    let name = text(trial, case, "name");
    if let Some(schema) = schema_of(trial, case) {
        give_found(trial, &schema, schema.field(name));
    }
}

/// Tries a case of one of these words, and returns whether its word is one of them.
pub(crate) fn given(trial: &mut Trial, word: &str, case: &Value) -> bool {
    match word {
        "schema" => schema(trial, case),
        "field" => field(trial, case),
        _ => return false,
    }
    true
}
