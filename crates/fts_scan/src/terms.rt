// Decides whether a document has a term. Its text is tokenized once, and its tokens are folded, one at a time, into one
// buffer.
ghost use Rattle.std.specs.Prelude.{◌≡◌, ◌+◌, ◌^◌, ◌<◌, ◌≤◌, IfOk, IfSome, Ok, length};
ghost use Rattle.std.specs.Str.{bytes_eq};
ghost use Rattle.fts_base.specs.Results.{Gives};
ghost use Rattle.fts_text.specs.Tokens.{following, tokens_from, tokens_of_texts};
ghost use Rattle.fts_text.specs.Places.{IsPlaceIn, token_at};
ghost use Rattle.fts_model.specs.Shorts.{IsShort};
ghost use Rattle.fts_scan.specs.Scans.{HasRoom, IsSought, strings};
ghost use Rattle.fts_model.specs.Operations.{has_token, value_has, has};

use crate::strings::Strings;
use fts_model::{Document, FieldValue, Kind, Number, Refusal, Schema, Term};
use fts_text::{Token, Tokens, fold_into};
use std::alloc::{AllocError, Global};

/// Whether the token at a place of a text is this one.
pub(crate) fn is_token(
    text: &str,
    place: Token,
    token: &str,
    scratch: &mut String,
) -> Result<bool, AllocError>
    requires { IsPlaceIn text.now place }
    ensures { IfOk result (λ same. same ≡ bytes_eq (token_at text.now place).1 token.now) }
{
    scratch.clear();
    fold_into(place.span(text), scratch)?;
    Ok(scratch.as_str() == token)
}

/// Looks for a token in a text whose spans are numbered from `first`. If it isn't found, the result is the first number
/// of the next text.
fn seek_token(
    text: &str,
    first: usize,
    token: &str,
    scratch: &mut String,
) -> Result<Option<usize>, AllocError>
    requires { first + length text.now + 2 < 2 ^ 63 }
    ensures sought { IfOk result
        (IsSought (has_token (tokens_from first text.now) token.now) (following first text.now)) }
    ensures near { IfOk result (λ next. IfSome next (λ n. n ≤ first + length text.now + 1)) }
{
    let mut tokens = Tokens::starting(text, first);
    while let Some(place) = tokens.next_token() {
        if is_token(text, place, token, scratch)? {
            return Ok(None);
        }
    }
    Ok(Some(tokens.following()))
}

/// Whether one of these texts contains a token.
fn has_token(texts: Strings<'_>, token: &str, scratch: &mut String) -> Result<bool, AllocError>
    requires { HasRoom 0 (strings texts) }
    ensures { IfOk result (λ found. found ≡ has_token (tokens_of_texts 0 (strings texts.entry)) token.now) }
{
    let mut first = 0;
    for number in 0..texts.len() {
        match seek_token(texts.get(number), first, token, scratch)? {
            None => return Ok(true),
            Some(next) => first = next,
        }
    }
    Ok(false)
}

/// Whether a number of a field of this kind equals that of a term.
fn number_has(kind: Kind, number: Number, term: Number) -> bool
    ensures { result ≡ value_has kind (FieldValue.Number number) (FieldValue.Number term) }
{
    match (number, term) {
        (Number::U64(n), Number::U64(m)) => match kind {
            Kind::U64 => n == m,
            Kind::Text | Kind::Keyword | Kind::I64 => false,
        },
        (Number::I64(n), Number::I64(m)) => match kind {
            Kind::I64 => n == m,
            Kind::Text | Kind::Keyword | Kind::U64 => false,
        },
        (Number::U64(_), Number::I64(_)) | (Number::I64(_), Number::U64(_)) => false,
    }
}

/// Whether a value of a field of this kind has a term.
fn value_has(
    kind: Kind,
    value: &FieldValue,
    term: &FieldValue,
    scratch: &mut String,
) -> Result<bool, AllocError>
    requires { IsShort value.now }
    ensures { IfOk result (λ found. found ≡ value_has kind value.now term.now) }
{
    match (value, term) {
        (FieldValue::Text(text), FieldValue::Text(term)) => match kind {
            Kind::Text => has_token(Strings::One(text), term.as_str(), scratch),
            Kind::Keyword => Ok(text == term),
            Kind::U64 | Kind::I64 => Ok(false),
        },
        (FieldValue::Texts(texts), FieldValue::Text(term)) => match kind {
            Kind::Text => has_token(Strings::Many(texts), term.as_str(), scratch),
            Kind::Keyword | Kind::U64 | Kind::I64 => Ok(false),
        },
        (FieldValue::Number(number), FieldValue::Number(term)) => {
            Ok(number_has(kind, *number, *term))
        }
        (FieldValue::Text(_) | FieldValue::Texts(_) | FieldValue::Number(_), _) => Ok(false),
    }
}

/// Whether a document has a term.
pub(crate) fn document_has(
    schema: &Schema,
    document: &Document,
    term: &Term,
    scratch: &mut String,
) -> Result<bool, AllocError>
    ensures { IfOk result (λ found. found ≡ has schema.now document.now term.now) }
{
    match (schema.fields().get(term.field), document.value(term.field)) {
        (Some(field), Some(value)) => value_has(field.kind, value, &term.value, scratch),
        _ => Ok(false),
    }
}

/// Whether a document has a term. The only refusal is `Memory`.
pub fn has(
    alloc: Global,
    schema: &Schema,
    document: &Document,
    term: &Term,
) -> Result<bool, Refusal>
    ensures { Gives (λ found. found) result (Ok (has schema.now document.now term.now)) }
{
    let mut scratch = String::new(alloc);
    Ok(document_has(schema, document, term, &mut scratch)?)
}
