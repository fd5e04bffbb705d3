// Cases of documents and of what is alive: `document`, `long_document`, `fits`, `has`, `term` and `alive`.
use crate::texts::push_times;
use fts_model::{Document, Op, Schema, Stamped, Term};
use fts_scan::{alive, has};
use serde_json::Value;
use testing_cases::{
    Trial, Trouble, document_of, fields_of, list, member, nonempty, number, op_of, schema_of,
    schema_of_four, schema_with, term_of, text,
};

/// A document as JSON.
fn json_of(trial: &mut Trial, document: &Document) -> Option<Value> {
    let json = document.to_json(trial.alloc());
    trial.kept(json)
}

/// A copy of a document as JSON.
fn json_of_copy(trial: &mut Trial, document: &Document) -> Option<Value> {
    let copy: Result<_, _> = document.clone();
    let copy = trial.kept(copy)?;
    json_of(trial, &copy)
}

/// A value as it is read from its text.
fn read_again(trial: &mut Trial, json: &Value) -> Option<Value> {
    let text = json.to_string(trial.alloc());
    let text = trial.kept(text)?;
    read_of(trial, text.as_str())
}

/// The value of a text.
fn read_of(trial: &mut Trial, text: &str) -> Option<Value> {
    match Value::from_str(trial.alloc(), text) {
        Ok(read) => Some(read),
        Err(_) => {
            trial.fail(Trouble::Impossible("what is printed is no JSON"));
            None
        }
    }
}

/// A copy of a document, printed, read again and printed.
fn printed(trial: &mut Trial, schema: &Schema, document: &Document) -> Option<Value> {
    let json = json_of_copy(trial, document)?;
    let json = read_again(trial, &json)?;
    let read = Document::from_json(trial.alloc(), schema, &json);
    let read = trial.kept(read)?;
    json_of(trial, &read)
}

/// Gives a document as it is printed.
fn give_printed(trial: &mut Trial, schema: &Schema, document: &Document) {
    if let Some(json) = printed(trial, schema, document) {
        trial.give_value(&json);
    }
}

fn document(trial: &mut Trial, case: &Value) {
    let Some(schema) = schema_of(trial, case) else {
        return;
    };
    if let Some(document) = document_of(trial, &schema, case, "document") {
        give_printed(trial, &schema, &document);
    }
}

/// The document that has a text in a field.
fn document_with(trial: &mut Trial, schema: &Schema, name: &str, text: &str) -> Option<Document> {
    let json = format!(in trial.alloc(); "{{\"{name}\":\"{text}\"}}");
    let json = trial.kept(json)?;
    let json = read_of(trial, json.as_str())?;
    let document = Document::from_json(trial.alloc(), schema, &json);
    trial.kept(document)
}

/// Gives how many bytes the value has of a document with a text in a field.
fn give_length(trial: &mut Trial, schema: &Schema, name: &str, text: &str) {
    let Some(document) = document_with(trial, schema, name, text) else {
        return;
    };
    if let Some(json) = printed(trial, schema, &document) {
        let kept = json.get(name).and_then(Value::as_str).unwrap_or("");
        trial.give_number(kept.len() as u64);
    }
}

/// How many bytes the value has of a document with this many times `x` in a field.
fn long_document(trial: &mut Trial, case: &Value) {
    let mut long = String::new(trial.alloc());
    let times = number(trial, case, "times");
    push_times(trial, &mut long, "x", times);
    let name = text(trial, case, "field");
    if let Some(schema) = schema_of(trial, case) {
        give_length(trial, &schema, name, long.as_str());
    }
}

/// Gives whether a document fits a schema.
fn give_fits(trial: &mut Trial, there: &Schema, document: &Document) {
    trial.give_flag(document.fits(there));
}

/// Whether a document of the four fields fits another schema, when it fits its own.
fn fits(trial: &mut Trial, case: &Value) {
    let fields = nonempty(trial, case, "fields");
    let fields = fields_of(trial, fields);
    let Some(there) = schema_with(trial, fields) else {
        return;
    };
    let Some(here) = schema_of_four(trial) else {
        return;
    };
    if let Some(document) = document_of(trial, &here, case, "document") {
        if !document.fits(&here) {
            return trial.fail(Trouble::Impossible("a document that doesn't fit its own schema"));
        }
        give_fits(trial, &there, &document);
    }
}

/// The term of a case.
fn case_term(trial: &mut Trial, schema: &Schema, case: &Value) -> Option<Term> {
    let term = member(trial, case, "term")?;
    term_of(trial, schema, term)
}

/// Whether a term fits the schema that it was made under.
fn term(trial: &mut Trial, case: &Value) {
    let Some(schema) = schema_of(trial, case) else {
        return;
    };
    if let Some(term) = case_term(trial, &schema, case) {
        let fits = term.fits(&schema) && Op::Delete(term).fits(&schema);
        trial.give_flag(fits);
    }
}

/// Gives whether a document has a term.
fn give_has(trial: &mut Trial, schema: &Schema, document: &Document, term: &Term) {
    let has = has(trial.alloc(), schema, document, term);
    if let Some(has) = trial.kept(has) {
        trial.give_flag(has);
    }
}

/// Whether a document has a term.
fn has_term(trial: &mut Trial, case: &Value) {
    let Some(schema) = schema_of(trial, case) else {
        return;
    };
    let Some(document) = document_of(trial, &schema, case, "document") else {
        return;
    };
    if let Some(term) = case_term(trial, &schema, case) {
        give_has(trial, &schema, &document, &term);
    }
}

/// The operations of a list, at the stamps 1, 2, 3 and so on.
fn ops_of(trial: &mut Trial, schema: &Schema, items: &[Value]) -> Vec<Stamped<Op>> {
    let mut ops = Vec::new(trial.alloc());
    for json in items {
        let stamp = ops.len() as u64 + 1;
        if let Some(value) = op_of(trial, schema, json) {
            trial.push(&mut ops, Stamped { stamp, value });
        }
    }
    ops
}

fn give_stamps_of(trial: &mut Trial, documents: &[Stamped<Document>]) {
    trial.open();
    for document in documents {
        trial.give_number(document.stamp);
    }
    trial.close();
}

/// Gives the stamps of what is alive after operations.
fn give_alive(trial: &mut Trial, schema: &Schema, ops: &[Stamped<Op>]) {
    let left = alive(trial.alloc(), schema, ops);
    if let Some(left) = trial.kept(left) {
        give_stamps_of(trial, &left);
    }
}

/// The stamps of what is alive after the operations of a list, whose stamps are 1, 2, 3 and so on.
fn alive_stamps(trial: &mut Trial, case: &Value) {
    let Some(schema) = schema_of(trial, case) else {
        return;
    };
    let items = list(trial, case, "ops");
    let ops = ops_of(trial, &schema, items);
    give_alive(trial, &schema, &ops);
}

/// Tries a case of one of these words, and returns whether its word is one of them.
pub(crate) fn given(trial: &mut Trial, word: &str, case: &Value) -> bool {
    match word {
        "document" => document(trial, case),
        "long_document" => long_document(trial, case),
        "fits" => fits(trial, case),
        "term" => term(trial, case),
        "has" => has_term(trial, case),
        "alive" => alive_stamps(trial, case),
        _ => return false,
    }
    true
}
