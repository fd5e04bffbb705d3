// Reads a text as a query.
ghost use Rattle.std.specs.Prelude.{◌≡◌, ◌⊎◌, ◌≤◌, length, Ok, Err, IfOk, IfErr, true};
ghost use Rattle.std.specs.List.{list_all};
ghost use Rattle.std.specs.Str.{chars};
ghost use Rattle.fts_base.specs.declared.refusal.Refusal.TheVariants.{Memory, TooLong, TooDeep};
ghost use Rattle.fts_model.specs.Queries.{query_fits};
ghost use Rattle.fts_model.specs.QueryValues.{query_value};
ghost use Rattle.fts_query.specs.Grammar.{is_space, IsBlank};
ghost use Rattle.fts_query.specs.Outcomes.{IsFit, Reads, byte_of};
ghost use Rattle.fts_query.specs.Answers.{refusal_of, answer_fit, IsAnswer};

use crate::depth::is_too_deep;
use crate::error::{ParseError, QueryError};
use crate::input::{Input, LONGEST};
use crate::reader::query_at;
use fts_model::{Query, Refusal, Schema};
use std::alloc::Global;

/// The refusal for an error.
fn refusal_of(error: QueryError) -> Refusal
    ensures { result ≡ refusal_of error }
{
    match error {
        QueryError::UnknownField => Refusal::UnknownField,
        QueryError::BadNumber => Refusal::BadNumber,
        QueryError::RangeOnText => Refusal::RangeOnText,
        QueryError::NoDefaultField => Refusal::NoDefaultField,
        QueryError::AllNegative => Refusal::AllNegative,
    }
}

/// Whether a text is only white space.
#[tactic(auto, using(crate::proofs::AnswersLemmas::blank_skips, crate::proofs::AnswersLemmas::no_blank_skips))]
fn is_blank(text: Input<'_>) -> bool
    ensures { result ≡ list_all is_space text.entry }
{
    text.after_space().first().is_none()
}

/// The outcome of a text that is neither too long nor too deep.
fn outcome_of(alloc: Global, schema: &Schema, text: &str) -> Result<Query, Refusal>
    requires { length text.now ≤ 4096 }
    ensures is { IsAnswer result (answer_fit schema.now (chars text.now)) }
    ensures byte { IfErr result (λ e. byte_of e ≤ length text.now) }
    ensures blank { IsBlank (chars text.now) → result ≡ Ok Query.None }
{
    if is_blank(Input::new(text)) {
        return Ok(Query::None);
    }
    match query_at(alloc, schema, Input::new(text)) {
        Ok(Ok(query)) => Ok(query),
        Ok(Err(error)) => Err(refusal_of(error)),
        Err(ParseError::Memory) => Err(Refusal::Memory),
        Err(ParseError::Syntax(left)) => Err(Refusal::Syntax(text.len().saturating_sub(left))),
    }
}

/// Reads a text as a query under a schema.
///
/// A text is refused as `TooLong` (over 4,096 bytes), else as `TooDeep` (parentheses outside quotes nest over 32 deep),
/// else as `Syntax` (it is neither only white space nor in the grammar, which docs/QUERIES.md has; the byte says how
/// far it could be read), else by the first error from the left: `UnknownField`, `RangeOnText`, `BadNumber`,
/// `NoDefaultField` (a literal has no field, and no field is a default) or `AllNegative` (only must-nots). A text of
/// only white space is the query for no document.
///
/// The result is `Memory` only if the allocator refused a growth. A text that is too long, too deep or only white space
/// needs no memory, so it always has its outcome.
pub fn parse(alloc: Global, schema: &Schema, text: &str) -> Result<Query, Refusal>
    ensures reads { IfOk result (λ query. Reads schema.now text.now (Ok (query_value query))) }
    ensures refused { IfErr result (λ refusal. (refusal ≡ Memory) ⊎ Reads schema.now text.now (Err refusal)) }
    ensures byte { IfErr result (λ refusal. byte_of refusal ≤ length text.now) }
    ensures fits { IfOk result (λ query. query_fits schema.now (query_value query) ≡ true) }

    // These outcomes need no memory.
    ensures too_long { Reads schema.now text.now (Err TooLong) → result ≡ Err TooLong }
    ensures too_deep { Reads schema.now text.now (Err TooDeep) → result ≡ Err TooDeep }
    ensures blank { IsFit text.now → IsBlank (chars text.now) → result ≡ Ok Query.None }
{
    if text.len() > LONGEST {
        return Err(Refusal::TooLong);
    }
    if is_too_deep(text) {
        return Err(Refusal::TooDeep);
    }
    outcome_of(alloc, schema, text)
}
