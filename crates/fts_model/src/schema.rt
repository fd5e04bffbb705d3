// The fields of an index.
ghost use Rattle.std.specs.Prelude.{◌≡◌, ◌<◌, ◌≤◌, List, ℕ, Some, None, IfOk, IfErr, IsErrAnd, OnOk, length, slice_get};
ghost use Rattle.std.specs.Prelude.{vec_len, option_map};
ghost use Rattle.fts_base.specs.Results.{first_of};
ghost use Rattle.fts_model.specs.Schemas.{is_name, is_reserved, starts_name, goes_on_name, has_name_start};
ghost use Rattle.fts_model.specs.Schemas.{holds_numbers, is_ordered, is_named, field_fault, first_fault, schema_fault};
ghost use Rattle.fts_model.specs.Schemas.{field_named};
ghost use Rattle.fts_base.specs.declared.refusal.Refusal.TheVariants.{Memory};
ghost use Rattle.std.specs.Arc.{arc_value};
ghost use Rattle.std.specs.List.{list_all, list_any};

use crate::text::Text;
use crate::value::{FieldValue, Number};
use fts_base::Refusal;
use std::alloc::{AllocError, Global};
use std::marker::Model;
use std::sync::Arc;

/// The kind of a field's values.
#[derive(Clone, Copy, Debug, PartialEq, Eq)]
pub enum Kind {
    /// A text, found by its tokens and by phrases.
    Text,
    /// A text that is one term as a whole.
    Keyword,
    /// An unsigned whole number of 64 bits.
    U64,
    /// A signed whole number of 64 bits.
    I64,
}

impl Kind {
    ghost use Rattle.fts_model.specs.Documents.{is_of_kind, is_term_of};

    /// Whether a field of this kind holds numbers.
    pub fn holds_numbers(self) -> bool
        ensures { result ≡ holds_numbers self }
    {
        match self {
            Kind::Text | Kind::Keyword => false,
            Kind::U64 | Kind::I64 => true,
        }
    }

    /// Whether the values of fields of this kind have an order, so that ranges are possible: keywords are ordered by
    /// their bytes, numbers by their values.
    pub fn is_ordered(self) -> bool
        ensures { result ≡ is_ordered self }
    {
        match self {
            Kind::Text => false,
            Kind::Keyword | Kind::U64 | Kind::I64 => true,
        }
    }

    /// Whether a field of this kind can hold the value.
    pub fn holds(self, value: &FieldValue) -> bool
        ensures { result ≡ is_of_kind self value.now }
    {
        match self {
            Kind::Text => matches!(value, FieldValue::Texts(_)) || self.has_term(value),
            Kind::Keyword | Kind::U64 | Kind::I64 => self.has_term(value),
        }
    }

    /// Whether the value can be a term or a bound in a field of this kind. A list of texts can be neither.
    pub fn has_term(self, value: &FieldValue) -> bool
        ensures { result ≡ is_term_of self value.now }
    {
        match self {
            Kind::Text | Kind::Keyword => matches!(value, FieldValue::Text(_)),
            Kind::U64 => matches!(value, FieldValue::Number(Number::U64(_))),
            Kind::I64 => matches!(value, FieldValue::Number(Number::I64(_))),
        }
    }
}

/// A field of a schema.
#[derive(Debug, Drop)]
pub struct Field {
    pub name: Text,
    pub kind: Kind,
    /// Whether a query literal that names no field is looked for in this field.
    pub default: bool,
}

/// The most fields of a schema.
const MOST_FIELDS: usize = 32;

fn starts_name(byte: u8) -> bool
    ensures { result ≡ starts_name byte }
{
    byte.is_ascii_alphabetic() || byte == b'_'
}

fn goes_on_name(byte: u8) -> bool
    ensures { result ≡ goes_on_name byte }
{
    byte.is_ascii_alphanumeric() || byte == b'_'
}

fn is_reserved(name: &str) -> bool
    ensures { result ≡ is_reserved name.now }
{
    name == "AND" || name == "OR" || name == "NOT"
}

fn has_name_start(name: &[u8]) -> bool
    ensures { result ≡ has_name_start name.now }
{
    match name {
        [] => false,
        [first, ..] => starts_name(*first),
    }
}

fn goes_on(name: &[u8]) -> bool
    ensures { result ≡ list_all goes_on_name name.now }
{
    name.iter().all(|byte| goes_on_name(*byte))
}

fn is_name(name: &str) -> bool
    ensures { result ≡ is_name name.now }
{
    let bytes = name.as_bytes();
    has_name_start(bytes) && goes_on(bytes) && bytes.len() <= 32 && !is_reserved(name)
}

fn is_taken(before: &[Field], name: &str) -> bool
    ensures { result ≡ list_any (is_named name.now) before.now }
{
    before.iter().any(|other| other.name.as_str() == name)
}

fn fault_of_field(before: &[Field], field: &Field) -> Option<Refusal>
    ensures { result ≡ field_fault before.now field.now }
{
    let name = field.name.as_str();
    if !is_name(name) {
        return Some(Refusal::BadName);
    }
    if is_taken(before, name) {
        return Some(Refusal::NameTwice);
    }
    if field.default && field.kind.holds_numbers() {
        return Some(Refusal::BadDefault);
    }
    None
}

fn fault_of(fields: &[Field]) -> Option<Refusal>
    ensures { result ≡ schema_fault fields.now }
{
    if fields.is_empty() {
        return Some(Refusal::NoFields);
    }
    if fields.len() > MOST_FIELDS {
        return Some(Refusal::TooManyFields);
    }
    for (i, field) in fields.iter().enumerate() {
        if let Some(fault) = fault_of_field(&fields[..i], field) {
            return Some(fault);
        }
    }
    None
}

/// The fields of an index, in order: 1 to 32, with distinct names. A copy shares them.
#[derive(Drop)]
pub struct Schema {
    fields: Arc<Vec<Field>>,
}

impl Model for Schema {
    ghost use Rattle.std.specs.Prelude.{◌≡◌, List, None};
    ghost use Rattle.std.specs.Arc.{arc_value};
    ghost use Rattle.fts_model.specs.Schemas.{schema_fault};
    ghost use Rattle.fts_model.specs.declared.schema.Field.{Field};

    ghost Value = { List Field };

    ghost view = { λ s. (arc_value s.fields).items };

    ghost invariant = { λ s. schema_fault (arc_value s.fields).items ≡ None };
}

impl Schema {
    /// Makes a schema of these fields. A refusal hands them back: `NoFields`, `TooManyFields` (more than 32), or the
    /// first fault field by field, of one field in this order: `BadName` (not `[A-Za-z_][A-Za-z0-9_]*` of 1 to 32
    /// bytes, or `AND`, `OR`, `NOT`), `NameTwice` (an earlier field has the name), `BadDefault` (a number field is
    /// marked default).
    pub fn new(alloc: Global, fields: Vec<Field>) -> Result<Schema, (Vec<Field>, Refusal)>
        ensures ok { IfOk result (λ schema. schema ≡ fields.items) }
        ensures valid { OnOk result (schema_fault fields.items ≡ None) }
        ensures refused { (fault : Refusal) → schema_fault fields.items ≡ Some fault →
            IsErrAnd result (λ e. e.1 ≡ fault) }
        ensures memory { IfErr result (λ e. schema_fault fields.items ≡ None → e.1 ≡ Memory) }
        ensures handed_back { IfErr result (λ e. e.0.items ≡ fields.items) }
    {
        if let Some(fault) = fault_of(&fields) {
            return Err((fields, fault));
        }
        match Arc::new(alloc, fields) {
            Ok(fields) => Ok(Schema { fields }),
            Err(refused) => Err((refused.value, Refusal::Memory)),
        }
    }

    /// The fields, in order.
    pub fn fields(&self) -> &[Field]
        ensures fields { result.now ≡ self.now }
        ensures valid { schema_fault result.now ≡ None }
    {
        self.fields.as_slice()
    }

    /// The number of the field of this name.
    pub fn field(&self, name: &str) -> Option<usize>
        ensures { result ≡ field_named name.now self.now }
    {
        self.fields
            .iter()
            .position(|field| field.name.as_str() == name)
    }

    /// The kind of the field of this number.
    pub fn kind(&self, field: usize) -> Kind
        requires { field < length self.now }
        ensures { option_map (λ f. f.kind) (slice_get self.now field) ≡ Some result }
    {
        let fields: &Vec<Field> = &self.fields;
        fields[field].kind
    }
}

impl Clone for Schema {
    ghost is_clone = { λ schema copy. copy ≡ schema };

    fn clone(&self) -> Result<Self, AllocError> {
        Ok(Schema {
            fields: Arc::try_clone(&self.fields)?,
        })
    }
}
