// Decides whether a query matches a document. A text is tokenized once for each term or member of a phrase.
ghost use Rattle.std.specs.Prelude.{◌≡◌, ◌+◌, ◌^◌, ◌<◌, ◌≤◌, ◌==◌, ◌&&◌, ℕ, List, IfOk, IfSome, Ok, length};
ghost use Rattle.std.specs.List.{list_any};
ghost use Rattle.std.specs.Str.{bytes_eq};
ghost use Rattle.fts_base.specs.Results.{Gives};
ghost use Rattle.fts_text.specs.Tokens.{following, tokens_from, tokens_of_texts};
ghost use Rattle.fts_text.specs.Places.{IsPlaceIn, token_at};
ghost use Rattle.fts_model.specs.QueryValues.{query_value};
ghost use Rattle.fts_model.specs.Queries.{stands_with, leads, phrase_in, value_has_phrase, number_lt, number_le};
ghost use Rattle.fts_model.specs.Queries.{text_lt, text_le, value_lt, value_le};
ghost use Rattle.fts_model.specs.Queries.{admits_from, admits_to, matches};
ghost use Rattle.fts_model.specs.Shorts.{IsShort};
ghost use Rattle.fts_scan.specs.Scans.{HasRoom, IsSought, one_is, strings};

use crate::strings::Strings;
use crate::terms::{document_has, is_token};
use fts_model::{Document, FieldValue, Number, Query, Refusal, Schema, Text};
use fts_text::{Token, Tokens};
use std::alloc::{AllocError, Global};
use std::ops::Bound;

/// Whether the token at a place is this one, and its position plus an offset is this sum.
fn is_token_at(
    text: &str,
    place: Token,
    offset: u32,
    sum: usize,
    token: &str,
    scratch: &mut String,
) -> Result<bool, AllocError>
    requires place { IsPlaceIn text.now place }
    requires near { place.position < 2 ^ 63 }
    ensures { IfOk result
        (λ same. same
        ≡ (((token_at text.now place).0 + offset == sum)
        && bytes_eq (token_at text.now place).1 token.now)) }
{
    if place.position + offset as usize != sum {
        return Ok(false);
    }
    is_token(text, place, token, scratch)
}

/// Looks for a token whose position plus an offset is this sum, in a text whose spans are numbered from `first`. If it
/// isn't found, the result is the first number of the next text.
fn seek_token_at(
    text: &str,
    first: usize,
    offset: u32,
    sum: usize,
    token: &str,
    scratch: &mut String,
) -> Result<Option<usize>, AllocError>
    requires { first + length text.now + 2 < 2 ^ 63 }
    ensures sought { IfOk result
        (IsSought (list_any (λ t. (t.0 + offset == sum) && bytes_eq t.1 token.now)
        (tokens_from first text.now)) (following first text.now)) }
    ensures near { IfOk result (λ next. IfSome next (λ n. n ≤ first + length text.now + 1)) }
{
    let mut tokens = Tokens::starting(text, first);
    while let Some(place) = tokens.next_token() {
        if is_token_at(text, place, offset, sum, token, scratch)? {
            return Ok(None);
        }
    }
    Ok(Some(tokens.following()))
}

/// Whether another member of a pattern is a token of these texts, as far after the position of a member as their
/// offsets differ.
fn stands_with(
    texts: Strings<'_>,
    member: &(u32, Text),
    position: usize,
    other: &(u32, Text),
    scratch: &mut String,
) -> Result<bool, AllocError>
    requires room { HasRoom 0 (strings texts) }
    requires near { position < 2 ^ 63 }
    ensures { IfOk result
        (λ stands. (bytes : List ℕ) → stands
        ≡ stands_with (tokens_of_texts 0 (strings texts.entry)) member.now (position, bytes) other.now) }
{
    let sum = position + other.0 as usize;
    let mut first = 0;
    for number in 0..texts.len() {
        let text = texts.get(number);
        match seek_token_at(text, first, member.0, sum, other.1.as_str(), scratch)? {
            None => return Ok(true),
            Some(next) => first = next,
        }
    }
    Ok(false)
}

/// Whether the token at a place of one of these texts is the first member of a pattern, and the others are at their
/// offsets from it.
fn leads(
    texts: Strings<'_>,
    text: &str,
    place: Token,
    first: &(u32, Text),
    others: &[(u32, Text)],
    scratch: &mut String,
) -> Result<bool, AllocError>
    requires room { HasRoom 0 (strings texts) }
    requires place { IsPlaceIn text.now place }
    requires near { place.position < 2 ^ 63 }
    ensures { IfOk result
        (λ found. found ≡ leads (tokens_of_texts 0 (strings texts.entry)) first.now others.now
        (token_at text.now place)) }
{
    if !is_token(text, place, first.1.as_str(), scratch)? {
        return Ok(false);
    }
    for other in others {
        if !stands_with(texts, first, place.position, other, scratch)? {
            return Ok(false);
        }
    }
    Ok(true)
}

/// Whether some token of these texts is the first member of a pattern, and the others are at their offsets from it.
fn any_leads(
    texts: Strings<'_>,
    first: &(u32, Text),
    others: &[(u32, Text)],
    scratch: &mut String,
) -> Result<bool, AllocError>
    requires { HasRoom 0 (strings texts) }
    ensures { IfOk result
        (λ stands. stands
        ≡ list_any (leads (tokens_of_texts 0 (strings texts.entry)) first.now others.now)
        (tokens_of_texts 0 (strings texts.entry))) }
{
    let mut start = 0;
    for number in 0..texts.len() {
        let text = texts.get(number);
        let mut tokens = Tokens::starting(text, start);
        while let Some(place) = tokens.next_token() {
            if leads(texts, text, place, first, others, scratch)? {
                return Ok(true);
            }
        }
        start = tokens.following();
    }
    Ok(false)
}

/// Whether a phrase occurs in these texts.
fn has_phrase(
    texts: Strings<'_>,
    pattern: &[(u32, Text)],
    scratch: &mut String,
) -> Result<bool, AllocError>
    requires { HasRoom 0 (strings texts) }
    ensures { IfOk result
        (λ stands. stands ≡ phrase_in (tokens_of_texts 0 (strings texts.entry)) pattern.now) }
{
    match pattern {
        [] => Ok(true),
        [first, others @ ..] => any_leads(texts, first, others, scratch),
    }
}

/// Whether a value contains a phrase.
fn value_has_phrase(
    value: &FieldValue,
    pattern: &[(u32, Text)],
    scratch: &mut String,
) -> Result<bool, AllocError>
    requires { IsShort value.now }
    ensures { IfOk result (λ stands. stands ≡ value_has_phrase pattern.now value.now) }
{
    match value {
        FieldValue::Text(text) => has_phrase(Strings::One(text), pattern, scratch),
        FieldValue::Texts(texts) => has_phrase(Strings::Many(texts), pattern, scratch),
        FieldValue::Number(_) => Ok(false),
    }
}

/// Whether one number is less than another of its kind.
fn number_lt(a: Number, b: Number) -> bool
    ensures { result ≡ number_lt a b }
{
    match (a, b) {
        (Number::U64(n), Number::U64(m)) => n < m,
        (Number::I64(n), Number::I64(m)) => n < m,
        (Number::U64(_), Number::I64(_)) | (Number::I64(_), Number::U64(_)) => false,
    }
}

/// Whether one number is at most another of its kind.
fn number_le(a: Number, b: Number) -> bool
    ensures { result ≡ number_le a b }
{
    match (a, b) {
        (Number::U64(n), Number::U64(m)) => n <= m,
        (Number::I64(n), Number::I64(m)) => n <= m,
        (Number::U64(_), Number::I64(_)) | (Number::I64(_), Number::U64(_)) => false,
    }
}

/// Whether one text is before another by their bytes.
fn text_lt(a: &str, b: &str) -> bool
    ensures { result ≡ text_lt a.now b.now }
{
    a < b
}

/// Whether one text is not after another by their bytes.
fn text_le(a: &str, b: &str) -> bool
    ensures { result ≡ text_le a.now b.now }
{
    a <= b
}

/// Whether one value is before another of its kind.
fn value_lt(a: &FieldValue, b: &FieldValue) -> bool
    ensures { result ≡ value_lt a.now b.now }
{
    match (a, b) {
        (FieldValue::Text(a), FieldValue::Text(b)) => text_lt(a.as_str(), b.as_str()),
        (FieldValue::Number(n), FieldValue::Number(m)) => number_lt(*n, *m),
        (FieldValue::Text(_) | FieldValue::Texts(_) | FieldValue::Number(_), _) => false,
    }
}

/// Whether one value is not after another of its kind.
fn value_le(a: &FieldValue, b: &FieldValue) -> bool
    ensures { result ≡ value_le a.now b.now }
{
    match (a, b) {
        (FieldValue::Text(a), FieldValue::Text(b)) => text_le(a.as_str(), b.as_str()),
        (FieldValue::Number(n), FieldValue::Number(m)) => number_le(*n, *m),
        (FieldValue::Text(_) | FieldValue::Texts(_) | FieldValue::Number(_), _) => false,
    }
}

/// Whether a lower bound admits a value.
fn admits_from(bound: &Bound<FieldValue>, value: &FieldValue) -> bool
    ensures { result ≡ admits_from bound.now value.now }
{
    match bound {
        Bound::Included(bound) => value_le(bound, value),
        Bound::Excluded(bound) => value_lt(bound, value),
        Bound::Unbounded => true,
    }
}

/// Whether an upper bound admits a value.
fn admits_to(bound: &Bound<FieldValue>, value: &FieldValue) -> bool
    ensures { result ≡ admits_to bound.now value.now }
{
    match bound {
        Bound::Included(bound) => value_le(value, bound),
        Bound::Excluded(bound) => value_lt(value, bound),
        Bound::Unbounded => true,
    }
}

/// Whether a query matches a document.
#[cycle(matches)]
pub(crate) fn query_matches(
    schema: &Schema,
    query: &Query,
    document: &Document,
    scratch: &mut String,
) -> Result<bool, AllocError>
    ensures { IfOk result
        (λ found. found ≡ matches schema.now document.now (query_value query.now)) }
{
    match query {
        Query::All => Ok(true),
        Query::None => Ok(false),
        Query::Term(term) => document_has(schema, document, term, scratch),
        Query::Phrase { field, pattern } => match document.value(*field) {
            None => Ok(false),
            Some(value) => value_has_phrase(value, pattern, scratch),
        },
        Query::Range {
            field,
            lower,
            upper,
        } => match document.value(*field) {
            None => Ok(false),
            Some(value) => Ok(admits_from(lower, value) && admits_to(upper, value)),
        },
        Query::Bool {
            must,
            must_not,
            should,
        } => {
            if one_is(schema, must, document, false, scratch)? {
                return Ok(false);
            }
            if one_is(schema, must_not, document, true, scratch)? {
                return Ok(false);
            }
            if !must.is_empty() {
                return Ok(true);
            }
            one_is(schema, should, document, true, scratch)
        }
    }
}

/// Whether one of these queries has the result `wanted` for a document: true if it matches, false if it doesn't.
#[cycle(matches)]
fn one_is(
    schema: &Schema,
    queries: &[Query],
    document: &Document,
    wanted: bool,
    scratch: &mut String,
) -> Result<bool, AllocError>
    ensures { IfOk result (λ found. found
        ≡ one_is wanted (λ q. matches schema.now document.now (query_value q)) queries.now) }
{
    for query in queries {
        if query_matches(schema, query, document, scratch)? == wanted {
            return Ok(true);
        }
    }
    Ok(false)
}

/// Whether a query matches a document. The only refusal is `Memory`.
pub fn matches(
    alloc: Global,
    schema: &Schema,
    query: &Query,
    document: &Document,
) -> Result<bool, Refusal>
    ensures { Gives (λ found. found) result
        (Ok (matches schema.now document.now (query_value query.now))) }
{
    let mut scratch = String::new(alloc);
    Ok(query_matches(schema, query, document, &mut scratch)?)
}
