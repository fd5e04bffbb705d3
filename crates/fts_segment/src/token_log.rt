// Logs the tokens of a field, document by document.
ghost use Rattle.std.specs.Prelude.{◌≡◌, ◌+◌, ◌<◌, ◌≤◌, ◌++◌, ◌∷◌, [], ◌^◌, length, OnOk, IfOk, All, map, IfSome};
ghost use Rattle.std.specs.Prelude.{option_copied};
ghost use Rattle.fts_text.specs.Places.{IsPlaceFrom, token_at};
ghost use Rattle.fts_model.specs.Shorts.{IsShort};
ghost use Rattle.fts_model.specs.declared.schema.Kind.TheVariants.{Text};
ghost use Rattle.fts_segment.specs.Occurrences.{occurrence_at, occurrences_at, occurrences, values_in, HasFewTokens};
ghost use Rattle.fts_segment.specs.Occurrences.{HasRoom};
ghost use Rattle.fts_text.specs.Tokens.{following, tokens_from, tokens_of_texts};

use crate::term_log::TermLog;
use fts_model::{Document, FieldValue, Kind, Stamped, Texts};
use fts_text::{Token, Tokens, fold_into};
use std::alloc::{AllocError, Global};

/// Logs a token of one of a document's texts, whose spans are numbered from `first`. `term` is a scratch buffer.
fn push_token(
    log: &mut TermLog,
    term: &mut String,
    doc: u32,
    text: &str,
    first: usize,
    token: Token,
) -> Result<(), AllocError>
    requires short { first + length text.now + 2 < 2 ^ 32 }
    requires within { IsPlaceFrom first text.now token }
    ensures { OnOk result (log.new ≡ log.old ++ occurrence_at doc (token_at text.now token) ∷ []) }
{
    term.clear();
    fold_into(token.span(text), term)?;
    log.push(term.as_str(), doc, token.position as u32)
}

/// Logs the tokens of one of a document's texts, whose spans are numbered from `first`, and returns the first number of
/// the next text.
fn push_tokens(
    log: &mut TermLog,
    term: &mut String,
    doc: u32,
    text: &str,
    first: usize,
) -> Result<usize, AllocError>
    requires { first + length text.now + 2 < 2 ^ 32 }
    ensures logged { OnOk result
        (log.new ≡ log.old ++ map (occurrence_at doc) (tokens_from first text.now)) }
    ensures few { length (tokens_from first text.now) ≤ length text.now }
    ensures next { IfOk result (λ next. next ≡ following first text.now) }
    ensures near { IfOk result (λ next. next ≤ first + length text.now + 1) }
{
    let mut tokens = Tokens::starting(text, first);
    while let Some(token) = tokens.next_token() {
        push_token(log, term, doc, text, first, token)?;
    }
    Ok(tokens.following())
}

/// Logs the tokens of a list of texts of a document.
fn push_texts(
    log: &mut TermLog,
    term: &mut String,
    doc: u32,
    texts: &Texts,
) -> Result<(), AllocError>
    requires { HasRoom 0 texts.now }
    ensures logged { OnOk result
        (log.new ≡ log.old ++ map (occurrence_at doc) (tokens_of_texts 0 texts.now)) }
    ensures few { OnOk result (length (tokens_of_texts 0 texts.now) < 2 ^ 32) }
{
    let mut first = 0;
    for number in 0..texts.len() {
        first = push_tokens(log, term, doc, texts.get(number), first)?;
    }
    Ok(())
}

/// Logs the tokens of a document's value.
fn push_value(
    log: &mut TermLog,
    term: &mut String,
    doc: u32,
    kind: Kind,
    value: Option<&FieldValue>,
) -> Result<(), AllocError>
    requires { IfSome value (λ v. IsShort v.now) }
    ensures logged { OnOk result (log.new
        ≡ log.old ++ occurrences_at kind doc (option_copied value.entry)) }
    ensures few { OnOk result (HasFewTokens kind (option_copied value.entry)) }
{
    match kind {
        Kind::Text => match value {
            Some(FieldValue::Text(text)) => {
                push_tokens(log, term, doc, text.as_str(), 0)?;
                Ok(())
            }
            Some(FieldValue::Texts(texts)) => push_texts(log, term, doc, texts),
            Some(FieldValue::Number(_)) | None => Ok(()),
        },
        Kind::Keyword => match value {
            Some(FieldValue::Text(text)) => log.push(text.as_str(), doc, 0),
            Some(FieldValue::Texts(_) | FieldValue::Number(_)) | None => Ok(()),
        },
        Kind::U64 | Kind::I64 => Ok(()),
    }
}

/// Logs the tokens of the documents in a field of this kind.
pub(crate) fn log_of_field(
    alloc: Global,
    documents: &[Stamped<Document>],
    field: usize,
    kind: Kind,
) -> Result<TermLog, AllocError>
    requires { length documents.now ≤ 2 ^ 32 }
    ensures logged { IfOk result (λ log. log ≡ occurrences kind 0 (values_in field documents.now)) }
    ensures few { OnOk result (All (HasFewTokens kind) (values_in field documents.now)) }
{
    let mut log = TermLog::new(alloc);
    let mut term = String::new(alloc);
    for (doc, document) in documents.iter().enumerate() {
        let value = document.value.value(field);
        push_value(&mut log, &mut term, doc as u32, kind, value)?;
    }
    Ok(log)
}
