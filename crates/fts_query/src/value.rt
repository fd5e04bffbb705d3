// Reads what follows a field and a colon.
ghost use Rattle.std.specs.Prelude.{◌≡◌, ◌≤◌, length, option_map, IfOk, true, false, codes};
ghost use Rattle.fts_query.specs.Steps.{Finds};
ghost use Rattle.fts_query.specs.Values.{value_seen, bound_seen, IsShort};
ghost use Rattle.fts_query.specs.Grammar.{bound};
ghost use Rattle.fts_query.specs.Reading.{word_of, bound_of, range_end, range_of, compared_of, above_of, below_of};
ghost use Rattle.fts_query.specs.Reading.{quoted_value_of, plain_of, value_of};

use crate::error::ParseError;
use crate::input::{Input, is_word_char};
use std::alloc::Global;
use std::ops::Bound;

/// What follows a field and a colon: a literal, or the bounds of a range.
#[derive(Drop)]
pub(crate) enum Value<'a> {
    Word(&'a str),
    Quoted(String),
    Range(Bound<&'a str>, Bound<&'a str>),
}

/// A nonempty word.
#[tactic(auto, unfolding(crate::specs::Reading::word_of))]
fn word_at<'a>(text: Input<'a>) -> Result<(&'a str, Input<'a>), ParseError>
    ensures read { Finds (λ x. (x.0.now, x.1)) result (word_of text.entry) }
    ensures short { IfOk result (λ x. length x.0.now ≤ 4096) }
{
    let left = text.len();
    match text.fork().split_first() {
        None => Err(ParseError::Syntax(left)),
        Some((c, _)) => {
            if !is_word_char(c) {
                return Err(ParseError::Syntax(left));
            }
            Ok(text.split_word())
        }
    }
}

/// A bound of a range, if it isn't `*`.
#[tactic(auto, unfolding(crate::specs::Reading::bound_of))]
fn bound_at<'a>(text: Input<'a>) -> Result<(Option<&'a str>, Input<'a>), ParseError>
    ensures { Finds (λ x. (option_map (λ w. w.now) x.0, x.1)) result (bound_of text.entry) }
{
    let left = text.len();
    match text.fork().split_first() {
        None => Err(ParseError::Syntax(left)),
        Some((c, rest)) => {
            if c == '*' {
                return Ok((None, rest));
            }
            let (word, rest) = word_at(text)?;
            Ok((Some(word), rest))
        }
    }
}

/// The bound of a word, included or not, or none.
fn bound_of_word(included: bool, word: Option<&str>) -> Bound<&str>
    ensures { bound_seen result ≡ bound included (option_map (λ w. w.now) word.entry) }
{
    match word {
        None => Bound::Unbounded,
        Some(word) => {
            if included {
                Bound::Included(word)
            } else {
                Bound::Excluded(word)
            }
        }
    }
}

/// The end of a range; the upper bound was already read.
#[tactic(auto, unfolding(crate::specs::Reading::range_end))]
fn range_end_at<'a>(
    lower: Bound<&'a str>,
    upper: Option<&'a str>,
    text: Input<'a>,
) -> Result<(Value<'a>, Input<'a>), ParseError>
    ensures read { Finds (λ x. (value_seen x.0, x.1)) result
        (range_end (bound_seen lower.entry) (option_map (λ w. w.now) upper.entry) text.entry) }
    ensures short { IfOk result (λ x. IsShort (value_seen x.0)) }
{
    let left = text.len();
    match text.split_first() {
        None => Err(ParseError::Syntax(left)),
        Some((c, rest)) => {
            if c == ']' {
                let upper = bound_of_word(true, upper);
                return Ok((Value::Range(lower, upper), rest));
            }
            if c == '}' {
                let upper = bound_of_word(false, upper);
                return Ok((Value::Range(lower, upper), rest));
            }
            Err(ParseError::Syntax(left))
        }
    }
}

/// A range; its opening bracket was already read.
#[tactic(auto, unfolding(crate::specs::Reading::range_of))]
fn range_at<'a>(included: bool, text: Input<'a>) -> Result<(Value<'a>, Input<'a>), ParseError>
    ensures read { Finds (λ x. (value_seen x.0, x.1)) result (range_of included text.entry) }
    ensures short { IfOk result (λ x. IsShort (value_seen x.0)) }
{
    let (lower, rest) = bound_at(text.after_space())?;
    match rest.after_operator("TO") {
        None => Err(ParseError::Syntax(rest.len())),
        Some(next) => {
            let (upper, rest) = bound_at(next)?;
            range_end_at(bound_of_word(included, lower), upper, rest.after_space())
        }
    }
}

/// The word after `>` or `<`, and whether `=` comes before it.
#[tactic(auto, unfolding(crate::specs::Reading::compared_of))]
fn compared_at<'a>(text: Input<'a>) -> Result<((bool, &'a str), Input<'a>), ParseError>
    ensures { Finds (λ x. ((x.0.0, x.0.1.now), x.1)) result (compared_of text.entry) }
{
    let left = text.len();
    match text.fork().split_first() {
        None => Err(ParseError::Syntax(left)),
        Some((c, rest)) => {
            if c == '=' {
                let (word, rest) = word_at(rest)?;
                return Ok(((true, word), rest));
            }
            let (word, rest) = word_at(text)?;
            Ok(((false, word), rest))
        }
    }
}

/// A comparison; its `>` was already read.
#[tactic(auto, unfolding(crate::specs::Reading::above_of))]
fn above_at<'a>(text: Input<'a>) -> Result<(Value<'a>, Input<'a>), ParseError>
    ensures read { Finds (λ x. (value_seen x.0, x.1)) result (above_of text.entry) }
    ensures short { IfOk result (λ x. IsShort (value_seen x.0)) }
{
    let ((included, word), rest) = compared_at(text)?;
    let lower = bound_of_word(included, Some(word));
    Ok((Value::Range(lower, Bound::Unbounded), rest))
}

/// A comparison; its `<` was already read.
#[tactic(auto, unfolding(crate::specs::Reading::below_of))]
fn below_at<'a>(text: Input<'a>) -> Result<(Value<'a>, Input<'a>), ParseError>
    ensures read { Finds (λ x. (value_seen x.0, x.1)) result (below_of text.entry) }
    ensures short { IfOk result (λ x. IsShort (value_seen x.0)) }
{
    let ((included, word), rest) = compared_at(text)?;
    let upper = bound_of_word(included, Some(word));
    Ok((Value::Range(Bound::Unbounded, upper), rest))
}

/// A quoted text as a value; the opening quote was already read.
#[tactic(auto, unfolding(crate::specs::Reading::quoted_value_of))]
fn quoted_value_at<'a>(alloc: Global, text: Input<'a>) -> Result<(Value<'a>, Input<'a>), ParseError>
    ensures read { Finds (λ x. (value_seen x.0, x.1)) result (quoted_value_of text.entry) }
    ensures short { IfOk result (λ x. IsShort (value_seen x.0)) }
{
    let (unquoted, rest) = text.unquote(alloc)?;
    Ok((Value::Quoted(unquoted), rest))
}

/// A word as a value.
#[tactic(auto, unfolding(crate::specs::Reading::plain_of))]
fn unquoted_at<'a>(text: Input<'a>) -> Result<(Value<'a>, Input<'a>), ParseError>
    ensures read { Finds (λ x. (value_seen x.0, x.1)) result (plain_of text.entry) }
    ensures short { IfOk result (λ x. IsShort (value_seen x.0)) }
{
    let (word, rest) = word_at(text)?;
    Ok((Value::Word(word), rest))
}

/// What follows a field and a colon, and the input after it.
#[tactic(auto, unfolding(crate::specs::Reading::value_of))]
pub(crate) fn value_at<'a>(
    alloc: Global,
    text: Input<'a>,
) -> Result<(Value<'a>, Input<'a>), ParseError>
    ensures read { Finds (λ x. (value_seen x.0, x.1)) result (value_of text.entry) }
    ensures short { IfOk result (λ x. IsShort (value_seen x.0)) }
{
    let left = text.len();
    match text.fork().split_first() {
        None => Err(ParseError::Syntax(left)),
        Some((c, rest)) => match c {
            '"' => quoted_value_at(alloc, rest),
            '[' => range_at(true, rest),
            '{' => range_at(false, rest),
            '>' => above_at(rest),
            '<' => below_at(rest),
            _ => unquoted_at(text),
        },
    }
}
