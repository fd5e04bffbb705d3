// The terms and operations of a case.
use crate::members::{has, member, only, text};
use crate::trial::Trial;
use crate::trouble::Trouble;
use fts_model::{Document, Op, Schema, Term};
use serde_json::Value;

/// The term of an object `{"field":NAME,"is":VALUE}`.
pub fn term_of(trial: &mut Trial, schema: &Schema, json: &Value) -> Option<Term> {
    only(trial, json, &["field", "is"]);
    let field = text(trial, json, "field");
    let value = member(trial, json, "is")?;
    let term = Term::new(trial.alloc(), schema, field, value);
    trial.kept(term)
}

/// The document under a name of an object.
pub fn document_of(
    trial: &mut Trial,
    schema: &Schema,
    json: &Value,
    name: &'static str,
) -> Option<Document> {
    let document = member(trial, json, name)?;
    let document = Document::from_json(trial.alloc(), schema, document);
    trial.kept(document)
}

/// The operation of an object: it adds a document, or deletes all documents with a term.
fn named(trial: &mut Trial, schema: &Schema, json: &Value) -> Option<Op> {
    if has(json, "add") {
        only(trial, json, &["add"]);
        return document_of(trial, schema, json, "add").map(Op::Add);
    }
    only(trial, json, &["delete"]);
    let term = member(trial, json, "delete")?;
    term_of(trial, schema, term).map(Op::Delete)
}

/// The operation of an object `{"add":DOCUMENT}` or `{"delete":TERM}`, or of the text `delete_all`.
pub fn op_of(trial: &mut Trial, schema: &Schema, json: &Value) -> Option<Op> {
    match json.as_str() {
        None => named(trial, schema, json),
        Some("delete_all") => Some(Op::DeleteAll),
        Some(_) => {
            trial.fail(Trouble::UnknownWord);
            None
        }
    }
}
