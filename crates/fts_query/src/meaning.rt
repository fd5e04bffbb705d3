// The meaning of literals and fields under a schema.
ghost use Rattle.std.specs.Prelude.{◌≡◌, ◌≤◌, ◌-◌, length, map, IfOk};
ghost use Rattle.std.specs.List.{list_any};
ghost use Rattle.fts_text.specs.Tokens.{tokens};
ghost use Rattle.fts_text.specs.Places.{IsPlaceIn, token_at};
ghost use Rattle.fts_base.specs.Results.{result_map};
ghost use Rattle.fts_model.specs.QueryValues.{query_value};
ghost use Rattle.fts_query.specs.Values.{value_seen, bound_seen, IsShort};
ghost use Rattle.fts_query.specs.Meanings.{between, with_value, number_value, value_in, with_tokens, literal_in};
ghost use Rattle.fts_query.specs.Meanings.{literal_anywhere, bound_in, within, meaning_in, field_meaning};

use crate::clauses::{Clauses, Meaning, Occur};
use crate::error::QueryError;
use crate::number::number_in;
use crate::value::Value;
use fts_model::{FieldValue, Kind, Query, Schema, Term, Text};
use fts_text::{Token, Tokens, fold_into};
use std::alloc::{AllocError, Global};
use std::ops::Bound;

/// The token at a place of a text.
fn token(alloc: Global, text: &str, place: Token) -> Result<Text, AllocError>
    requires { IsPlaceIn text.now place }
    ensures { IfOk result (λ t. t ≡ (token_at text.now place).1) }
{
    let mut token = String::new(alloc);
    fold_into(place.span(text), &mut token)?;
    Ok(Text::new(token))
}

/// The tokens of a text, each with its distance from a position.
fn pattern(alloc: Global, text: &str, from: usize) -> Result<Vec<(u32, Text)>, AllocError>
    requires { length text.now ≤ 4096 }
    ensures { IfOk result (λ p. p.items ≡ map (λ t. (t.0 - from, t.1)) (tokens text.now)) }
{
    let mut pattern = Vec::new(alloc);
    for place in Tokens::new(text) {
        let offset = place.position.saturating_sub(from) as u32;
        pattern.push((offset, token(alloc, text, place)?))?;
    }
    Ok(pattern)
}

/// The query for the documents that have the tokens of a text in a text field.
fn with_tokens(alloc: Global, field: usize, text: &str) -> Result<Query, AllocError>
    requires { length text.now ≤ 4096 }
    ensures { IfOk result (λ q. query_value q ≡ with_tokens field (tokens text.now)) }
{
    let mut places = Tokens::new(text);
    let Some(first) = places.next() else {
        return Ok(Query::None);
    };
    match places.next() {
        None => {
            let value = FieldValue::Text(token(alloc, text, first)?);
            Ok(Query::Term(Term { field, value }))
        }
        Some(_) => {
            let pattern = pattern(alloc, text, first.position)?;
            Ok(Query::Phrase { field, pattern })
        }
    }
}

/// The number of a text in a number field of this kind.
fn number_value(kind: Kind, text: &str) -> Result<FieldValue, QueryError>
    ensures { result ≡ number_value kind text.now }
{
    match number_in(kind, text) {
        Some(number) => Ok(FieldValue::Number(number)),
        None => Err(QueryError::BadNumber),
    }
}

/// The value of a text in a field whose values have an order: a keyword as it is written, or a number.
fn value_in(
    alloc: Global,
    kind: Kind,
    text: &str,
) -> Result<Result<FieldValue, QueryError>, AllocError>
    ensures { IfOk result (λ v. v ≡ value_in kind text.now) }
{
    match kind {
        Kind::Text => Ok(Err(QueryError::RangeOnText)),
        Kind::Keyword => {
            let keyword = Text::new(String::from_str(alloc, text)?);
            Ok(Ok(FieldValue::Text(keyword)))
        }
        Kind::U64 | Kind::I64 => Ok(number_value(kind, text)),
    }
}

/// The query for the documents that have a value in a field.
fn with_value(field: usize, value: Result<FieldValue, QueryError>) -> Meaning
    ensures { result_map query_value result ≡ result_map (λ v. with_value field v) value }
{
    let value = value?;
    Ok(Query::Term(Term { field, value }))
}

/// The meaning of a word or a quoted text in a field.
fn literal_in(alloc: Global, field: usize, kind: Kind, text: &str) -> Result<Meaning, AllocError>
    requires { length text.now ≤ 4096 }
    ensures { IfOk result (λ m. result_map query_value m ≡ literal_in field kind text.now) }
{
    match kind {
        Kind::Text => Ok(Ok(with_tokens(alloc, field, text)?)),
        Kind::Keyword | Kind::U64 | Kind::I64 => {
            let value = value_in(alloc, kind, text)?;
            Ok(with_value(field, value))
        }
    }
}

/// Whether some field is marked default.
fn has_default(schema: &Schema) -> bool
    ensures { result ≡ list_any (λ f. f.default) schema.now }
{
    schema.fields().iter().any(|field| field.default)
}

/// The meaning of a literal without a field: a should in each default field.
#[tactic(auto, unfolding(crate::specs::Meanings::literal_anywhere))]
pub(crate) fn literal_anywhere(
    alloc: Global,
    schema: &Schema,
    text: &str,
) -> Result<Meaning, AllocError>
    requires { length text.now ≤ 4096 }
    ensures { IfOk result (λ m. result_map query_value m ≡ literal_anywhere schema.now text.now) }
{
    if !has_default(schema) {
        return Ok(Err(QueryError::NoDefaultField));
    }
    let mut clauses = Clauses::new(alloc);
    for (i, field) in schema.fields().iter().enumerate() {
        if field.default {
            clauses.push(Occur::Should, literal_in(alloc, i, field.kind, text)?)?;
        }
    }
    Ok(clauses.into_node())
}

/// A bound in a field whose values have an order.
fn bound_in(
    alloc: Global,
    kind: Kind,
    bound: Bound<&str>,
) -> Result<Result<Bound<FieldValue>, QueryError>, AllocError>
    ensures { IfOk result (λ b. b ≡ bound_in kind (bound_seen bound.entry)) }
{
    match bound {
        Bound::Included(text) => Ok(value_in(alloc, kind, text)?.map(Bound::Included)),
        Bound::Excluded(text) => Ok(value_in(alloc, kind, text)?.map(Bound::Excluded)),
        Bound::Unbounded => Ok(Ok(Bound::Unbounded)),
    }
}

/// The query for the documents with a value of a field within bounds.
fn within(
    field: usize,
    lower: Result<Bound<FieldValue>, QueryError>,
    upper: Result<Bound<FieldValue>, QueryError>,
) -> Meaning
    ensures { result_map query_value result ≡ within field lower upper }
{
    let lower = lower?;
    let upper = upper?;
    Ok(Query::Range {
        field,
        lower,
        upper,
    })
}

/// The meaning of bounds in a field.
fn range_in(
    alloc: Global,
    field: usize,
    kind: Kind,
    lower: Bound<&str>,
    upper: Bound<&str>,
) -> Result<Meaning, AllocError>
    ensures { IfOk result (λ m. result_map query_value m
        ≡ meaning_in field kind (between (bound_seen lower.entry) (bound_seen upper.entry))) }
{
    if !kind.is_ordered() {
        return Ok(Err(QueryError::RangeOnText));
    }
    let lower = bound_in(alloc, kind, lower)?;
    let upper = bound_in(alloc, kind, upper)?;
    Ok(within(field, lower, upper))
}

/// The meaning of what follows a field, for the field of this number and kind.
fn meaning_in(
    alloc: Global,
    field: usize,
    kind: Kind,
    value: Value<'_>,
) -> Result<Meaning, AllocError>
    requires { IsShort (value_seen value) }
    ensures { IfOk result (λ m. result_map query_value m ≡ meaning_in field kind (value_seen value.entry)) }
{
    match value {
        Value::Word(word) => literal_in(alloc, field, kind, word),
        Value::Quoted(text) => literal_in(alloc, field, kind, text.as_str()),
        Value::Range(lower, upper) => range_in(alloc, field, kind, lower, upper),
    }
}

/// The meaning of a field, by its name, with what follows it.
#[tactic(auto, unfolding(crate::specs::Meanings::field_meaning))]
pub(crate) fn field_meaning(
    alloc: Global,
    schema: &Schema,
    name: &str,
    value: Value<'_>,
) -> Result<Meaning, AllocError>
    requires { IsShort (value_seen value) }
    ensures { IfOk result (λ m. result_map query_value m ≡ field_meaning schema.now name.now (value_seen value.entry)) }
{
    let Some(number) = schema.field(name) else {
        return Ok(Err(QueryError::UnknownField));
    };
    let Some(field) = schema.fields().get(number) else {
        return Ok(Err(QueryError::UnknownField));
    };
    meaning_in(alloc, number, field.kind, value)
}
