// Documents: a value or none for each field of a schema.
ghost use Rattle.std.specs.Prelude.{◌≡◌, ◌<◌, ◌≤◌, List, ℕ, Some, None, Ok, Err, IfSome, IfOk, IfErr, IsErrOf, OnOk};
ghost use Rattle.std.specs.Prelude.{◌++◌, ◌∷◌, [], map, length, slice_get, unwrap_or, option_map, option_copied};
ghost use Rattle.std.specs.Arc.{arc_value};
ghost use Rattle.std.specs.List.{find};
ghost use Rattle.serde_json.specs.View.{items_of, items_view, view, members_view};
ghost use Rattle.fts_base.specs.Results.{Gives, error_if_err};
ghost use Rattle.serde_json.specs.Data.{array, object, no_members, string};
ghost use Rattle.fts_model.specs.Schemas.{schema_fault, is_named};
ghost use Rattle.fts_model.specs.Restricted.{is_among, restrict, value_among, values_among};
ghost use Rattle.fts_model.specs.Documents.{list_in, strings_in, value_in, value_at};
ghost use Rattle.fts_model.specs.Internals.Lists.{bytes_behind};
ghost use Rattle.fts_model.specs.declared.schema.Kind.TheVariants as Kind;
ghost use Rattle.fts_model.specs.Documents.{members_fault, member_fault, document_of, data_of};
ghost use Rattle.fts_model.specs.Documents.{with_value, with_values, json_of, CanHave, AreValuesOf, IsDocument};
ghost use Rattle.fts_model.specs.Documents.{may_stand, fits_fields, fits, value_in_field};
ghost use Rattle.fts_model.specs.Shorts.{IsShort};
ghost use Rattle.fts_base.specs.declared.refusal.Refusal.TheVariants.{Memory};

use crate::field_values::FieldValues;
use crate::schema::{Field, Kind, Schema};
use crate::text::Text;
use crate::texts::Texts;
use crate::value::{FieldValue, Number};
use fts_base::Refusal;
use serde_json::{Map, Value};
use std::alloc::{AllocError, Global};
use std::marker::Model;
use std::sync::Arc;

/// The most bytes of a text.
const LONGEST_TEXT: usize = 1_048_576;

/// The most texts of a list.
const MOST_TEXTS: usize = 1_024;

/// The most bytes of a keyword.
const LONGEST_KEYWORD: usize = 256;

/// The total bytes of the texts of a JSON array, if each item is a text.
fn bytes_of(items: &[Value]) -> Option<usize>
    ensures { result ≡ bytes_behind 0 (items_view items.now) }
{
    let mut bytes = 0usize;
    for item in items {
        bytes = bytes.saturating_add(item.as_str()?.len());
    }
    Some(bytes)
}

/// The fault of a JSON array in a text field, if it has one.
fn fault_of_list(items: &[Value]) -> Option<Refusal>
    ensures { result ≡ error_if_err (list_in Kind.Text (strings_in (items_view items.now))) }
{
    let Some(bytes) = bytes_of(items) else {
        return Some(Refusal::WrongKind);
    };
    if items.len() > MOST_TEXTS {
        return Some(Refusal::TooManyTexts);
    }
    if bytes > LONGEST_TEXT {
        return Some(Refusal::TextTooLong);
    }
    None
}

/// The fault of a JSON value in a field of this kind, if it has one.
pub(crate) fn fault_of_value(kind: Kind, json: &Value) -> Option<Refusal>
    ensures { result ≡ error_if_err (value_in kind (view json.now)) }
{
    if json.is_null() {
        return None;
    }
    if let Some(text) = json.as_str() {
        return match kind {
            Kind::Text if text.len() <= LONGEST_TEXT => None,
            Kind::Text => Some(Refusal::TextTooLong),
            Kind::Keyword if text.len() <= LONGEST_KEYWORD => None,
            Kind::Keyword => Some(Refusal::KeywordTooLong),
            Kind::U64 | Kind::I64 => Some(Refusal::WrongKind),
        };
    }
    if let Some(items) = json.as_array() {
        return match kind {
            Kind::Text => fault_of_list(items),
            Kind::Keyword | Kind::U64 | Kind::I64 => Some(Refusal::WrongKind),
        };
    }
    let Some(number) = json.as_number() else {
        return Some(Refusal::WrongKind);
    };
    let fits = match kind {
        Kind::Text | Kind::Keyword => false,
        Kind::U64 => number.is_u64(),
        Kind::I64 => number.is_i64(),
    };
    if fits { None } else { Some(Refusal::WrongKind) }
}

/// The texts of a JSON array of texts, in one allocation.
fn texts_of(alloc: Global, items: &[Value]) -> Result<Texts, AllocError>
    ensures { IfOk result (λ texts. (ts : List (List ℕ)) →
        strings_in (items_view items.now) ≡ Some ts → texts ≡ ts) }
{
    let bytes = bytes_of(items).unwrap_or(0);
    let mut texts = Texts::with_capacity(alloc, items.len(), bytes)?;
    for item in items {
        push_text(&mut texts, item)?;
    }
    Ok(texts)
}

/// Appends a JSON string to the texts.
fn push_text(texts: &mut Texts, json: &Value) -> Result<(), AllocError>
    ensures { OnOk result ((text : List ℕ) → view json.now ≡ string text →
        texts.new ≡ texts.old ++ text ∷ []) }
{
    match json.as_str() {
        Some(text) => texts.push(text),
        None => Ok(()),
    }
}

/// The value of a text field for a JSON array without a fault.
fn list_of(alloc: Global, items: &[Value]) -> Result<Option<FieldValue>, AllocError>
    requires { error_if_err (list_in Kind.Text (strings_in (items_view items.now))) ≡ None }
    ensures value { IfOk result (λ value. list_in Kind.Text (strings_in (items_view items.now)) ≡ Ok value) }
    ensures in_range { IfOk result (λ value. CanHave Kind.Text value) }
{
    if items.is_empty() {
        return Ok(None);
    }
    Ok(Some(FieldValue::Texts(texts_of(alloc, items)?)))
}

/// The value of a field of this kind for a JSON value.
pub(crate) fn value_of(
    alloc: Global,
    kind: Kind,
    json: &Value,
) -> Result<Option<FieldValue>, AllocError>
    requires { error_if_err (value_in kind (view json.now)) ≡ None }
    ensures value { IfOk result (λ value. value_in kind (view json.now) ≡ Ok value) }
    ensures in_range { IfOk result (λ value. CanHave kind value) }
{
    if let Some(text) = json.as_str() {
        let text = Text::new(String::from_str(alloc, text)?);
        return Ok(Some(FieldValue::Text(text)));
    }
    if let Some(items) = json.as_array() {
        return list_of(alloc, items);
    }
    let Some(number) = json.as_number() else {
        return Ok(None);
    };
    let number = match kind {
        Kind::U64 => number.as_u64().map(Number::U64),
        Kind::I64 => number.as_i64().map(Number::I64),
        Kind::Text | Kind::Keyword => None,
    };
    Ok(number.map(FieldValue::Number))
}

/// The field of this name.
pub(crate) fn field_of<'a>(fields: &'a [Field], name: &str) -> Option<&'a Field>
    ensures { option_copied result ≡ find (is_named name.now) fields.entry.now }
{
    fields.iter().find(|field| field.name.as_str() == name)
}

/// The fault of a member of a JSON object, if it has one.
fn fault_of_member(schema: &Schema, name: &str, json: &Value) -> Option<Refusal>
    ensures { result ≡ member_fault schema.now name.now (view json.now) }
{
    match field_of(schema.fields(), name) {
        None => Some(Refusal::UnknownField),
        Some(field) => fault_of_value(field.kind, json),
    }
}

/// The first fault of the members of a JSON object, in the order of their names.
fn fault_of_members(schema: &Schema, members: &Map<String, Value>) -> Option<Refusal>
    ensures { result ≡ members_fault schema.now (members_view members.now.entries) }
{
    for (name, json) in members {
        if let Some(fault) = fault_of_member(schema, name.as_str(), json) {
            return Some(fault);
        }
    }
    None
}

/// The values of a schema's fields for a JSON object without a fault.
fn values_of(
    alloc: Global,
    fields: &[Field],
    json: &Value,
    members: &Map<String, Value>,
) -> Result<FieldValues, AllocError>
    requires object { view json.now ≡ object (members_view members.now.entries) }
    requires valid { schema_fault fields.now ≡ None }
    requires no_fault { members_fault fields.now (members_view members.now.entries) ≡ None }
    ensures values { IfOk result
        (λ values. values ≡ map (value_at (members_view members.now.entries)) fields.now) }
    ensures in_range { IfOk result (λ values. AreValuesOf fields.now values) }
{
    let count = members.values().filter(|json| !json.is_null()).count();
    let mut values = FieldValues::with_capacity(alloc, count)?;
    for field in fields {
        let value = match json.get(field.name.as_str()) {
            Some(json) => value_of(alloc, field.kind, json)?,
            None => None,
        };
        values.push(value)?;
    }
    Ok(values)
}

/// The data that copies of a document share.
#[derive(Drop)]
struct DocumentData {
    schema: Schema,
    values: FieldValues,
}

/// Stores the values of an object without a fault.
fn store(
    alloc: Global,
    schema: &Schema,
    json: &Value,
    members: &Map<String, Value>,
) -> Result<Arc<DocumentData>, AllocError>
    requires object { view json.now ≡ object (members_view members.now.entries) }
    requires no_fault { members_fault schema.now (members_view members.now.entries) ≡ None }
    ensures schema { IfOk result (λ stored. (arc_value stored).schema ≡ schema.now) }
    ensures values { IfOk result
        (λ stored. (arc_value stored).values
        ≡ map (value_at (members_view members.now.entries)) schema.now) }
    ensures document { IfOk result (λ stored.
        IsDocument (record { schema = schema.now; values = (arc_value stored).values })) }
{
    let values = values_of(alloc, schema.fields(), json, members)?;
    let schema = schema.clone()?;
    Ok(Arc::new(alloc, DocumentData { schema, values })?)
}

/// A document: at most one value for each field of the schema that it was made under. A copy shares the data.
#[derive(Drop)]
pub struct Document {
    stored: Arc<DocumentData>,
}

impl Model for Document {
    ghost use Rattle.fts_model.specs.Documents.{DocumentValue};

    ghost Value = { DocumentValue };

    ghost use Rattle.fts_model.specs.Internals.DocumentData.{stored_value, IsStored};

    ghost view = { stored_value };

    ghost invariant = { IsStored };
}

impl Document {
    /// Makes a document of a JSON value under a schema.
    ///
    /// It is refused as `NotAnObject`, or else by the first fault of its members in the order of their names' bytes:
    /// `UnknownField`, `WrongKind` (a text or keyword field takes a string, a text field also a list of strings, a
    /// `u64` or `i64` field a whole number in its range; any field takes null, which is no value, as is an empty list),
    /// `TooManyTexts` (over 1,024 in a list), `TextTooLong` (over 1,048,576 bytes, those of a list together) or
    /// `KeywordTooLong` (over 256 bytes).
    pub fn from_json(alloc: Global, schema: &Schema, json: &Value) -> Result<Document, Refusal>
        ensures document { Gives (λ document. document) result
            (document_of schema.now (view json.now)) }
        ensures refused { (fault : Refusal) →
            document_of schema.now (view json.now) ≡ Err fault → IsErrOf result fault }
    {
        let Some(members) = json.as_object() else {
            return Err(Refusal::NotAnObject);
        };
        if let Some(fault) = fault_of_members(schema, members) {
            return Err(fault);
        }
        let stored = store(alloc, schema, json, members)?;
        Ok(Document { stored })
    }

    /// The fields that have a value, as a JSON object with the names in the order of their bytes. Under the schema that
    /// the document was made under, `from_json` reads the same document from it.
    pub fn to_json(&self, alloc: Global) -> Result<Value, Refusal>
        ensures json { IfOk result (λ json. view json ≡ json_of self.now) }
        ensures reads_back { IfOk result
            (λ json. document_of self.now.schema (view json) ≡ Ok self.now) }
        ensures memory { IfErr result (λ e. e ≡ Memory) }
    {
        let fields = self.stored.schema.fields();
        Ok(Value::Object(members_of(alloc, fields, &self.stored.values)?))
    }

    /// The named fields that have a value, as a JSON object with the names in the order of their bytes. No other field
    /// is copied.
    pub fn to_json_of(&self, alloc: Global, names: &[Text]) -> Result<Value, AllocError>
        ensures { IfOk result (λ json. view json ≡ json_of (restrict names.now self.now)) }
    {
        let fields = self.stored.schema.fields();
        let members = members_among(alloc, names, fields, &self.stored.values)?;
        Ok(Value::Object(members))
    }

    /// Whether each field that has a value is in the schema, at the same number and under the same name, and its kind
    /// allows the value.
    pub fn fits(&self, schema: &Schema) -> bool
        ensures { result ≡ fits schema.now self.now }
    {
        values_fit(
            schema.fields(),
            self.stored.schema.fields(),
            &self.stored.values,
        )
    }

    /// The schema that the document was made under. The document has a value or none for each of its fields, and each
    /// value is one that its field can have.
    pub fn schema(&self) -> &Schema
        ensures schema { result.now ≡ self.now.schema }
        ensures values { IsDocument self.now }
    {
        &self.stored.schema
    }

    /// The value of a field by its number, if it has one.
    pub fn value(&self, field: usize) -> Option<&FieldValue>
        ensures value { option_copied result ≡ value_in_field self.now field }
        ensures short { IfSome result (λ v. IsShort v.now) }
    {
        self.stored.values.get(field)
    }
}

impl Clone for Document {
    ghost is_clone = { λ document copy. copy ≡ document };

    fn clone(&self) -> Result<Self, AllocError> {
        Ok(Document {
            stored: Arc::try_clone(&self.stored)?,
        })
    }
}

/// A text as a JSON string.
fn json_of_text(alloc: Global, text: &str) -> Result<Value, AllocError>
    ensures { IfOk result (λ json. view json ≡ string text.now) }
{
    Ok(Value::String(String::from_str(alloc, text)?))
}

/// Texts as a JSON array.
fn json_of_texts(alloc: Global, texts: &Texts) -> Result<Value, AllocError>
    ensures { IfOk result (λ json. view json ≡ array (items_of (map string texts.now))) }
{
    let mut items = Vec::with_capacity(alloc, texts.len())?;
    for number in 0..texts.len() {
        items.push(json_of_text(alloc, texts.get(number))?)?;
    }
    Ok(Value::Array(items))
}

/// A value as JSON.
pub(crate) fn json_of_value(alloc: Global, value: &FieldValue) -> Result<Value, AllocError>
    ensures { IfOk result (λ json. view json ≡ data_of value.now) }
{
    Ok(match value {
        FieldValue::Text(text) => json_of_text(alloc, text.as_str())?,
        FieldValue::Texts(texts) => json_of_texts(alloc, texts)?,
        FieldValue::Number(Number::U64(n)) => Value::from(*n),
        FieldValue::Number(Number::I64(n)) => Value::from(*n),
    })
}

/// Adds the value of a field to the members of an object, if there is one.
fn put_value(
    alloc: Global,
    members: &mut Map<String, Value>,
    field: &Field,
    value: Option<&FieldValue>,
) -> Result<(), AllocError>
    ensures { OnOk result (members_view members.new.entries
        ≡ with_value (members_view members.old.entries) field.now (option_copied value.entry)) }
{
    if let Some(value) = value {
        let name = String::from_str(alloc, field.name.as_str())?;
        members.insert(name, json_of_value(alloc, value)?)?;
    }
    Ok(())
}

/// The members of a JSON object for the fields that have a value.
fn members_of(
    alloc: Global,
    fields: &[Field],
    values: &FieldValues,
) -> Result<Map<String, Value>, AllocError>
    ensures { IfOk result
        (λ members. members_view members.entries ≡ with_values no_members fields.now values.now) }
{
    let mut members = Map::new(alloc);
    for (number, field) in fields.iter().enumerate() {
        put_value(alloc, &mut members, field, values.get(number))?;
    }
    Ok(members)
}

/// Whether a field has one of these names.
fn is_among(names: &[Text], field: &Field) -> bool
    ensures { result ≡ is_among names.now field.now }
{
    names
        .iter()
        .any(|name| field.name.as_str() == name.as_str())
}

/// Adds the value of a field to the members of an object, if the field is among the names and has a value.
fn put_among(
    alloc: Global,
    members: &mut Map<String, Value>,
    names: &[Text],
    field: &Field,
    value: Option<&FieldValue>,
) -> Result<(), AllocError>
    ensures { OnOk result (members_view members.new.entries
        ≡ with_value (members_view members.old.entries) field.now
        (value_among names.now field.now (option_copied value.entry))) }
{
    if is_among(names, field) {
        put_value(alloc, members, field, value)?;
    }
    Ok(())
}

/// The members of a JSON object for those fields among the names that have a value.
fn members_among(
    alloc: Global,
    names: &[Text],
    fields: &[Field],
    values: &FieldValues,
) -> Result<Map<String, Value>, AllocError>
    ensures { IfOk result (λ members. members_view members.entries
        ≡ with_values no_members fields.now (values_among names.now fields.now values.now)) }
{
    let mut members = Map::new(alloc);
    for (number, field) in fields.iter().enumerate() {
        put_among(alloc, &mut members, names, field, values.get(number))?;
    }
    Ok(members)
}

/// Whether a value of `field` may be a value of the field `there`.
fn may_stand(there: Option<&Field>, field: &Field, value: Option<&FieldValue>) -> bool
    ensures { result ≡ may_stand (option_copied there.entry) field.now (option_copied value.entry) }
{
    match (there, value) {
        (_, None) => true,
        (None, Some(_)) => false,
        (Some(there), Some(value)) => {
            field.name.as_str() == there.name.as_str() && there.kind.holds(value)
        }
    }
}

/// Whether the values of other fields fit the fields of a schema, by number.
fn values_fit(schema: &[Field], fields: &[Field], values: &FieldValues) -> bool
    ensures { result ≡ fits_fields schema.now fields.now values.now }
{
    let mut schema = schema.iter();
    for (number, field) in fields.iter().enumerate() {
        if !may_stand(schema.next(), field, values.get(number)) {
            return false;
        }
    }
    true
}
