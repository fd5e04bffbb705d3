// Operations on an index: a document is added, or the documents with a term are deleted.
ghost use Rattle.std.specs.Prelude.{◌≡◌, ◌≢◌, Err, IsErrOf, option_copied};
ghost use Rattle.serde_json.specs.View.{view};
ghost use Rattle.fts_base.specs.Results.{Gives};
ghost use Rattle.fts_model.specs.declared.schema.Kind.TheVariants as kinds;
ghost use Rattle.fts_model.specs.Operations.{kind_at, some_value_in, term_value};

use crate::document::{Document, fault_of_value, value_of};
use crate::schema::{Kind, Schema};
use crate::text::Text;
use crate::value::FieldValue;
use fts_base::Refusal;
use serde_json::Value;
use std::alloc::Global;

/// A position in the order of all operations and commits. The first operation has stamp 1.
pub type Stamp = u64;

/// The kind of a field by its number, if there is one.
pub(crate) fn kind_at(schema: &Schema, field: usize) -> Option<Kind>
    ensures { result ≡ kind_at schema.now field }
{
    Some(schema.fields().get(field)?.kind)
}

/// The value of a keyword or number field for a JSON value; null is refused.
fn some_value_of(alloc: Global, kind: Kind, json: &Value) -> Result<FieldValue, Refusal>
    requires { kind ≢ kinds.Text }
    ensures value { Gives (λ value. value) result (some_value_in kind (view json.now)) }
    ensures refused { (fault : Refusal) →
        some_value_in kind (view json.now) ≡ Err fault → IsErrOf result fault }
{
    if let Some(fault) = fault_of_value(kind, json) {
        return Err(fault);
    }
    if json.is_null() {
        return Err(Refusal::WrongKind);
    }
    match value_of(alloc, kind, json)? {
        Some(value) => Ok(value),
        None => Err(Refusal::WrongKind),
    }
}

/// A token of any length, from a JSON string.
fn token(alloc: Global, json: &Value) -> Result<FieldValue, Refusal>
    ensures value { Gives (λ value. value) result (term_value Kind.Text (view json.now)) }
    ensures refused { (fault : Refusal) →
        term_value Kind.Text (view json.now) ≡ Err fault → IsErrOf result fault }
{
    let Some(token) = json.as_str() else {
        return Err(Refusal::WrongKind);
    };
    let token = String::from_str(alloc, token)?;
    Ok(FieldValue::Text(Text::new(token)))
}

/// The value of a term in a field of this kind, from a JSON value.
fn term_value(alloc: Global, kind: Kind, json: &Value) -> Result<FieldValue, Refusal>
    ensures value { Gives (λ value. value) result (term_value kind (view json.now)) }
    ensures refused { (fault : Refusal) →
        term_value kind (view json.now) ≡ Err fault → IsErrOf result fault }
{
    match kind {
        Kind::Text => token(alloc, json),
        Kind::Keyword | Kind::U64 | Kind::I64 => some_value_of(alloc, kind, json),
    }
}

/// A term of a field, which a delete or a query looks for: a token of a text field, the whole text of a keyword field,
/// or the number of a number field. It isn't analysed, so a token must be given folded.
#[derive(Clone, Debug, Drop, PartialEq, Eq)]
pub struct Term {
    /// The number of the field.
    pub field: usize,
    pub value: FieldValue,
}

impl Term {
    ghost use Rattle.std.specs.Prelude.{◌≡◌, Err, IsErrOf};
    ghost use Rattle.serde_json.specs.View.{view};
    ghost use Rattle.fts_base.specs.Results.{Gives};
    ghost use Rattle.fts_model.specs.Operations.{term_of, term_fits};

    /// Makes the term of a JSON value in the field of this name.
    ///
    /// It is refused as `UnknownField`, or else as `WrongKind` (a text or keyword field takes a string, a `u64` or
    /// `i64` field a whole number in its range; none takes null) or `KeywordTooLong` (over 256 bytes). A text field
    /// takes a string of any length.
    pub fn new(alloc: Global, schema: &Schema, name: &str, json: &Value) -> Result<Term, Refusal>
        ensures term { Gives (λ term. term) result (term_of schema.now name.now (view json.now)) }
        ensures refused { (fault : Refusal) →
            term_of schema.now name.now (view json.now) ≡ Err fault → IsErrOf result fault }
    {
        let Some(field) = schema.field(name) else {
            return Err(Refusal::UnknownField);
        };
        let Some(kind) = kind_at(schema, field) else {
            return Err(Refusal::UnknownField);
        };
        let value = term_value(alloc, kind, json)?;
        Ok(Term { field, value })
    }

    /// Whether the term's value is of its field's kind.
    pub fn fits(&self, schema: &Schema) -> bool
        ensures { result ≡ term_fits schema.now self.now }
    {
        match kind_at(schema, self.field) {
            None => false,
            Some(kind) => kind.has_term(&self.value),
        }
    }
}

/// An operation on an index.
#[derive(Clone, Drop)]
pub enum Op {
    /// Adds a document.
    Add(Document),
    /// Deletes the documents of smaller stamp that have the term.
    Delete(Term),
    /// Deletes every document of smaller stamp.
    DeleteAll,
}

impl Op {
    ghost use Rattle.std.specs.Prelude.{◌≡◌};
    ghost use Rattle.fts_model.specs.Operations.{op_fits};

    /// Whether the document or the term fits the schema.
    pub fn fits(&self, schema: &Schema) -> bool
        ensures { result ≡ op_fits schema.now self.now }
    {
        match self {
            Op::Add(document) => document.fits(schema),
            Op::Delete(term) => term.fits(schema),
            Op::DeleteAll => true,
        }
    }
}

/// A value with its stamp.
#[derive(Drop)]
pub struct Stamped<T> {
    pub stamp: Stamp,
    pub value: T,
}
