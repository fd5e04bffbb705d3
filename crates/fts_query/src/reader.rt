// Reads a query from left to right: units, factors, and sequences of them.
ghost use Rattle.std.specs.Prelude.{◌≡◌, ◌≤◌, ◌∷◌, [], ℕ, length, IfOk, OnOk, option_map};
ghost use Rattle.fts_base.specs.Results.{result_map};
ghost use Rattle.fts_model.specs.QueryValues.{query_value};
ghost use Rattle.fts_query.specs.Gathering.{gathered_of, gather};
ghost use Rattle.fts_query.specs.Sequences.{factor_seen, part_seen, clause_of, node_of, separator_of, item_of};
ghost use Rattle.fts_query.specs.Sequences.{sequence_of, following};
ghost use Rattle.fts_query.specs.Steps.{Finds};
ghost use Rattle.fts_query.specs.Reading.{over, onto, after_bare, bare_of, quoted_literal_of, close, unit_of, group_of};
ghost use Rattle.fts_query.specs.Reading.{modifier_of, factor_of, meaning_of, query_of};
ghost use Rattle.fts_query.specs.Meanings.{conjunction};

use crate::clauses::{Clauses, Meaning, Modifier, Occur, occur_alone, occur_in_conjunction};
use crate::error::ParseError;
use crate::input::{Input, LONGEST, is_reserved, is_word_char};
use crate::meaning::{field_meaning, literal_anywhere};
use crate::value::value_at;
use fts_model::{Query, Schema};
use std::alloc::{AllocError, Global};

/// The levels of a list. Each is a sequence of items of the level before it; a conjunction is one of factors.
#[derive(Clone, Copy, Debug, PartialEq, Eq)]
pub enum Level {
    /// Factors separated by `AND`.
    Conjunction,
    /// Conjunctions separated by `OR`.
    Disjunction,
    /// Disjunctions separated by white space.
    List,
}

/// A unit with its modifier.
#[derive(Drop)]
pub(crate) struct Factor {
    modifier: Modifier,
    unit: Meaning,
}

/// A sequence as an item of the next level: its only factor, or the node of its clauses.
#[derive(Drop)]
pub(crate) enum SequenceItem {
    Lone(Factor),
    Several(Meaning),
}

/// The meaning of a factor as a conjunction.
fn conjunction_of_one(alloc: Global, factor: Factor) -> Result<Meaning, AllocError>
    ensures { IfOk result (λ m. result_map query_value m ≡ conjunction (factor_seen factor ∷ [])) }
{
    let mut clauses = Clauses::new(alloc);
    clauses.push(occur_in_conjunction(factor.modifier), factor.unit)?;
    Ok(clauses.into_node())
}

/// Adds an item as a clause to the node of its level.
fn push_item(
    alloc: Global,
    level: Level,
    clauses: &mut Clauses,
    item: SequenceItem,
) -> Result<(), AllocError>
    ensures { OnOk result (gathered_of clauses.new
        ≡ gather (gathered_of clauses.old) (clause_of level (part_seen item))) }
{
    match item {
        SequenceItem::Several(meaning) => clauses.push(Occur::Should, meaning),
        SequenceItem::Lone(factor) => match level {
            Level::Conjunction => {
                clauses.push(occur_in_conjunction(factor.modifier), factor.unit)
            }
            Level::Disjunction => {
                let meaning = conjunction_of_one(alloc, factor)?;
                clauses.push(Occur::Should, meaning)
            }
            Level::List => clauses.push(occur_alone(factor.modifier), factor.unit),
        },
    }
}

/// The input after the separator of a level, if there is one.
fn after_separator<'a>(level: Level, text: &Input<'a>) -> Option<Input<'a>>
    ensures { option_map (λ x. x) result ≡ separator_of level text.now }
{
    match level {
        Level::Conjunction => text.after_operator("AND"),
        Level::Disjunction => text.after_operator("OR"),
        Level::List => text.after_gap(),
    }
}

/// A bare word that ends here, or a field with what follows it.
#[tactic(auto, unfolding(crate::specs::Reading::after_bare))]
fn after_bare_at<'a>(
    alloc: Global,
    schema: &Schema,
    word: &str,
    text: Input<'a>,
) -> Result<(Meaning, Input<'a>), ParseError>
    requires { length word.now ≤ 4096 }
    ensures { Finds (λ x. (result_map query_value x.0, x.1)) result (after_bare schema.now word.now text.entry) }
{
    match text.fork().split_first() {
        None => Ok((literal_anywhere(alloc, schema, word)?, text)),
        Some((c, rest)) => {
            if c == ':' {
                let (value, rest) = value_at(alloc, rest)?;
                return Ok((field_meaning(alloc, schema, word, value)?, rest));
            }
            Ok((literal_anywhere(alloc, schema, word)?, text))
        }
    }
}

/// A bare word, as a literal or as a field.
#[tactic(auto, unfolding(crate::specs::Reading::bare_of))]
fn bare_at<'a>(
    alloc: Global,
    schema: &Schema,
    text: Input<'a>,
) -> Result<(Meaning, Input<'a>), ParseError>
    ensures { Finds (λ x. (result_map query_value x.0, x.1)) result (bare_of schema.now text.entry) }
{
    let left = text.len();
    match text.fork().split_first() {
        None => Err(ParseError::Syntax(left)),
        Some((c, _)) => {
            let (word, rest) = text.split_word();
            if !is_word_char(c) || c == '+' || c == '-' || is_reserved(word) {
                return Err(ParseError::Syntax(left));
            }
            after_bare_at(alloc, schema, word, rest)
        }
    }
}

/// A quoted text as a literal; the opening quote was already read.
#[tactic(auto, unfolding(crate::specs::Reading::quoted_literal_of))]
fn quoted_literal_at<'a>(
    alloc: Global,
    schema: &Schema,
    text: Input<'a>,
) -> Result<(Meaning, Input<'a>), ParseError>
    ensures { Finds (λ x. (result_map query_value x.0, x.1)) result (quoted_literal_of schema.now text.entry) }
{
    let (literal, rest) = text.unquote(alloc)?;
    Ok((literal_anywhere(alloc, schema, literal.as_str())?, rest))
}

/// The input after the closing parenthesis of a list.
fn close_at<'a>(meaning: Meaning, text: Input<'a>) -> Result<(Meaning, Input<'a>), ParseError>
    ensures { Finds (λ x. (result_map query_value x.0, x.1)) result
        (close (result_map query_value meaning) text.entry) }
{
    let left = text.len();
    match text.split_first() {
        None => Err(ParseError::Syntax(left)),
        Some((c, rest)) => {
            if c != ')' {
                return Err(ParseError::Syntax(left));
            }
            Ok((meaning, rest))
        }
    }
}

/// The modifier at the front of a factor, and the input after it.
#[tactic(auto, unfolding(crate::specs::Reading::modifier_of))]
fn modifier_at<'a>(text: Input<'a>) -> Result<(Modifier, Input<'a>), ParseError>
    ensures { Finds (λ x. x) result (modifier_of text.entry) }
{
    let left = text.len();
    match text.fork().split_first() {
        None => Err(ParseError::Syntax(left)),
        Some((c, rest)) => {
            if c == '+' {
                return Ok((Modifier::Plus, rest));
            }
            if c == '-' {
                return Ok((Modifier::Minus, rest));
            }
            let (word, rest) = text.fork().split_word();
            if word != "NOT" {
                return Ok((Modifier::Plain, text));
            }
            if !rest.begins_space() {
                return Err(ParseError::Syntax(rest.len()));
            }
            Ok((Modifier::Minus, rest.after_space()))
        }
    }
}

/// A unit with a limit of nestings.
#[cycle(reading)]
fn unit_at<'a>(
    alloc: Global,
    schema: &Schema,
    depth: usize,
    text: Input<'a>,
) -> Result<(Meaning, Input<'a>), ParseError>
    ensures { Finds (λ x. (result_map query_value x.0, x.1)) result (unit_of schema.now depth text.entry) }
{
    let left = text.len();
    if depth == 0 {
        return Err(ParseError::Syntax(left));
    }
    match text.fork().split_first() {
        None => Err(ParseError::Syntax(left)),
        Some((c, rest)) => {
            if c == '(' {
                group_at(alloc, schema, depth - 1, rest)
            } else if c == '*' {
                Ok((Ok(Query::All), rest))
            } else if c == '"' {
                quoted_literal_at(alloc, schema, rest)
            } else {
                bare_at(alloc, schema, text)
            }
        }
    }
}

/// A list in parentheses; the opening one was already read.
#[cycle(reading)]
#[tactic(auto, unfolding(crate::specs::Reading::group_of))]
fn group_at<'a>(
    alloc: Global,
    schema: &Schema,
    depth: usize,
    text: Input<'a>,
) -> Result<(Meaning, Input<'a>), ParseError>
    ensures { Finds (λ x. (result_map query_value x.0, x.1)) result (group_of (unit_of schema.now depth) text.entry) }
{
    let (meaning, rest) = list_at(alloc, schema, depth, text.after_space())?;
    close_at(meaning, rest.after_space())
}

/// A factor: a modifier, then a unit.
#[cycle(reading)]
#[tactic(auto, unfolding(crate::specs::Reading::factor_of))]
fn factor_at<'a>(
    alloc: Global,
    schema: &Schema,
    depth: usize,
    text: Input<'a>,
) -> Result<(Factor, Input<'a>), ParseError>
    ensures { Finds (λ x. (factor_seen x.0, x.1)) result (factor_of (unit_of schema.now depth) text.entry) }
{
    let (modifier, rest) = modifier_at(text)?;
    let (unit, rest) = unit_at(alloc, schema, depth, rest)?;
    Ok((Factor { modifier, unit }, rest))
}

/// An item of a level.
#[cycle(reading)]
fn item_at<'a>(
    alloc: Global,
    schema: &Schema,
    depth: usize,
    level: Level,
    text: Input<'a>,
) -> Result<(SequenceItem, Input<'a>), ParseError>
    ensures { Finds (λ x. (part_seen x.0, x.1)) result (item_of level (unit_of schema.now depth) text.entry) }
{
    match level {
        Level::Conjunction => {
            let (factor, rest) = factor_at(alloc, schema, depth, text)?;
            Ok((SequenceItem::Lone(factor), rest))
        }
        Level::Disjunction => sequence_at(alloc, schema, depth, Level::Conjunction, text),
        Level::List => sequence_at(alloc, schema, depth, Level::Disjunction, text),
    }
}

/// The node of an item, which was already read, and of those that follow it at its level.
#[cycle(reading)]
fn node_at<'a>(
    alloc: Global,
    schema: &Schema,
    depth: usize,
    level: Level,
    first: SequenceItem,
    text: Input<'a>,
) -> Result<(Meaning, Input<'a>), ParseError>
    ensures { (n : ℕ) → length text.entry ≤ n →
        Finds (λ x. (result_map query_value x.0, x.1)) result
        (over (node_of level)
        (onto (part_seen first) (following n level (unit_of schema.now depth) text.entry))) }
{
    let mut clauses = Clauses::new(alloc);
    push_item(alloc, level, &mut clauses, first)?;
    let mut rest = text;
    while let Some(next) = after_separator(level, &rest) {
        let (item, left) = item_at(alloc, schema, depth, level, next)?;
        push_item(alloc, level, &mut clauses, item)?;
        rest = left;
    }
    Ok((clauses.into_node(), rest))
}

/// A sequence of a level: its only item, or the node of all of them.
#[cycle(reading)]
fn sequence_at<'a>(
    alloc: Global,
    schema: &Schema,
    depth: usize,
    level: Level,
    text: Input<'a>,
) -> Result<(SequenceItem, Input<'a>), ParseError>
    ensures { Finds (λ x. (part_seen x.0, x.1)) result (sequence_of level (unit_of schema.now depth) text.entry) }
{
    let (first, rest) = item_at(alloc, schema, depth, level, text)?;
    match after_separator(level, &rest) {
        None => Ok((first, rest)),
        Some(_) => {
            let (node, rest) = node_at(alloc, schema, depth, level, first, rest)?;
            Ok((SequenceItem::Several(node), rest))
        }
    }
}

/// A list: the node of one or more disjunctions.
#[cycle(reading)]
fn list_at<'a>(
    alloc: Global,
    schema: &Schema,
    depth: usize,
    text: Input<'a>,
) -> Result<(Meaning, Input<'a>), ParseError>
    ensures { Finds (λ x. (result_map query_value x.0, x.1)) result (meaning_of (unit_of schema.now depth) text.entry) }
{
    let (first, rest) = item_at(alloc, schema, depth, Level::List, text)?;
    node_at(alloc, schema, depth, Level::List, first, rest)
}

/// The meaning of a whole text.
#[tactic(auto, unfolding(crate::specs::Reading::query_of))]
pub(crate) fn query_at(
    alloc: Global,
    schema: &Schema,
    text: Input<'_>,
) -> Result<Meaning, ParseError>
    ensures { Finds (λ m. result_map query_value m) result (query_of schema.now 4096 text.entry) }
{
    let (meaning, rest) = list_at(alloc, schema, LONGEST, text.after_space())?;
    let rest = rest.after_space();
    let left = rest.len();
    match rest.split_first() {
        None => Ok(meaning),
        Some(_) => Err(ParseError::Syntax(left)),
    }
}
