// Queries and requests.
ghost use Rattle.std.specs.Prelude.{◌≡◌, option_map, option_copied};
ghost use Rattle.std.specs.List.{list_all};
ghost use Rattle.fts_base.specs.Results.{Gives};
ghost use Rattle.fts_model.specs.Answers.{cmp_by};
ghost use Rattle.fts_model.specs.QueryValues.{query_value};
ghost use Rattle.fts_model.specs.Queries.{query_fits, is_bound_of, is_range_of, holds_phrases, is_number_field};
ghost use Rattle.fts_model.specs.Queries.{is_limit, is_ordered_field, number_field_named, ordered_field_named};
ghost use Rattle.fts_model.specs.Queries.{groups_of, top_of};

use crate::operation::{Term, kind_at};
use crate::schema::{Kind, Schema};
use crate::text::Text;
use crate::value::{FieldValue, Number};
use fts_base::Refusal;
use std::cmp::Ordering;
use std::ops::Bound;

/// Whether fields of this kind can be searched for phrases.
fn holds_phrases(kind: Kind) -> bool
    ensures { result ≡ holds_phrases kind }
{
    match kind {
        Kind::Text => true,
        Kind::Keyword | Kind::U64 | Kind::I64 => false,
    }
}

/// Whether a bound is possible for a field of this kind.
fn bound_fits(kind: Kind, bound: &Bound<FieldValue>) -> bool
    ensures { result ≡ is_bound_of kind bound.now }
{
    match bound {
        Bound::Included(value) | Bound::Excluded(value) => kind.has_term(value),
        Bound::Unbounded => true,
    }
}

/// Whether a range fits fields of this kind.
fn range_fits(kind: Kind, lower: &Bound<FieldValue>, upper: &Bound<FieldValue>) -> bool
    ensures { result ≡ is_range_of lower.now upper.now kind }
{
    kind.is_ordered() && bound_fits(kind, lower) && bound_fits(kind, upper)
}

/// A query: which documents are hits.
#[derive(Drop)]
pub enum Query {
    /// Every document.
    All,
    /// No document.
    None,
    /// The documents that have the term.
    Term(Term),
    /// The documents in which each of these tokens of a text field occurs at its offset from one common position.
    Phrase {
        field: usize,
        pattern: Vec<(u32, Text)>,
    },
    /// The documents with a value of a keyword or number field within the bounds. Keywords are ordered by their bytes,
    /// numbers by their values.
    Range {
        field: usize,
        lower: Bound<FieldValue>,
        upper: Bound<FieldValue>,
    },
    /// The documents that match all of `must`, none of `must_not`, and, if `must` is empty, at least one of `should`.
    Bool {
        must: Vec<Query>,
        must_not: Vec<Query>,
        should: Vec<Query>,
    },
}

impl Query {
    /// Whether the query fits the schema: a term's value is of its field's kind; a phrase is of a text field and not
    /// empty; a range is of a keyword or number field, and so are its bounds.
    #[cycle(query_fits)]
    pub fn fits(&self, schema: &Schema) -> bool
        ensures { result ≡ query_fits schema.now (query_value self.now) }
    {
        match self {
            Query::All | Query::None => true,
            Query::Term(term) => term.fits(schema),
            Query::Phrase { field, pattern } => {
                kind_at(schema, *field).is_some_and(holds_phrases) && !pattern.is_empty()
            }
            Query::Range {
                field,
                lower,
                upper,
            } => match kind_at(schema, *field) {
                None => false,
                Some(kind) => range_fits(kind, lower, upper),
            },
            Query::Bool {
                must,
                must_not,
                should,
            } => all_fit(must, schema) && all_fit(must_not, schema) && all_fit(should, schema),
        }
    }
}

/// Whether every query fits the schema.
#[cycle(query_fits)]
fn all_fit(queries: &[Query], schema: &Schema) -> bool
    ensures { result ≡ list_all (λ q. query_fits schema.now (query_value q)) queries.now }
{
    for query in queries {
        if !query.fits(schema) {
            return false;
        }
    }
    true
}

/// The order of a top list, by value. In both orders, equal values are in the order of their stamps.
#[derive(Clone, Copy, Debug, PartialEq, Eq)]
pub enum Order {
    Rising,
    Falling,
}

impl Order {
    /// The order of two numbers in a top list.
    pub fn compare(self, a: Number, b: Number) -> Ordering
        ensures { result ≡ cmp_by self a b }
    {
        match self {
            Order::Rising => a.compare(b),
            Order::Falling => b.compare(a),
        }
    }
}

/// A requested top list: its field, its order and its greatest length.
#[derive(Clone, Copy, Debug, PartialEq, Eq)]
pub struct Top {
    /// The number field by whose values it is ordered.
    pub by: usize,
    /// The most hits that it holds, 1 to 10,000.
    pub k: u64,
    pub order: Order,
}

/// A request for results besides the number of hits: groups, and a top list.
#[derive(Clone, Copy, Debug, PartialEq, Eq)]
pub struct Request {
    /// The keyword or number field by whose values the hits are counted in groups.
    pub groups: Option<usize>,
    pub top: Option<Top>,
}

/// The most members of a top list.
const MOST_HITS: u64 = 10_000;

/// Whether the field of this number holds numbers.
fn is_number_field(schema: &Schema, field: usize) -> bool
    ensures { result ≡ is_number_field schema.now field }
{
    match kind_at(schema, field) {
        None => false,
        Some(kind) => kind.holds_numbers(),
    }
}

/// Whether the values of the field of this number have an order.
fn is_ordered_field(schema: &Schema, field: usize) -> bool
    ensures { result ≡ is_ordered_field schema.now field }
{
    match kind_at(schema, field) {
        None => false,
        Some(kind) => kind.is_ordered(),
    }
}

/// Whether a top list may have at most this many members.
fn is_limit(k: u64) -> bool
    ensures { result ≡ is_limit k }
{
    1 <= k && k <= MOST_HITS
}

/// The number of the number field of this name.
fn number_field(schema: &Schema, name: &str) -> Result<usize, Refusal>
    ensures { result ≡ number_field_named schema.now name.now }
{
    let Some(field) = schema.field(name) else {
        return Err(Refusal::UnknownField);
    };
    if !is_number_field(schema, field) {
        return Err(Refusal::NotANumberField);
    }
    Ok(field)
}

/// The number of the keyword or number field of this name.
fn ordered_field(schema: &Schema, name: &str) -> Result<usize, Refusal>
    ensures { result ≡ ordered_field_named schema.now name.now }
{
    let Some(field) = schema.field(name) else {
        return Err(Refusal::UnknownField);
    };
    if !is_ordered_field(schema, field) {
        return Err(Refusal::NotANumberField);
    }
    Ok(field)
}

/// The field of the requested groups.
fn groups_in(schema: &Schema, groups: Option<&str>) -> Result<Option<usize>, Refusal>
    ensures { result ≡ groups_of schema.now (option_copied groups.entry) }
{
    match groups {
        None => Ok(None),
        Some(name) => Ok(Some(ordered_field(schema, name)?)),
    }
}

/// The requested top list.
fn top_in(schema: &Schema, top: Option<(&str, u64, Order)>) -> Result<Option<Top>, Refusal>
    ensures { result ≡ top_of schema.now (option_map (λ t. (t.0.now, t.1, t.2)) top.entry) }
{
    let Some((name, k, order)) = top else {
        return Ok(None);
    };
    let by = number_field(schema, name)?;
    if !is_limit(k) {
        return Err(Refusal::BadLimit);
    }
    Ok(Some(Top { by, k, order }))
}

impl Request {
    ghost use Rattle.std.specs.Prelude.{◌≡◌, option_map, option_copied};
    ghost use Rattle.fts_model.specs.Queries.{request_of, request_fits};

    /// Makes a request for groups by a named field, and for a top list of up to `k` hits by a named field.
    ///
    /// It is refused by its groups as `UnknownField` or, for a text field, `NotANumberField`, or else by its top list
    /// as `UnknownField`, for a text or keyword field `NotANumberField`, or `BadLimit` (not within 1..=10,000).
    pub fn new(
        schema: &Schema,
        groups: Option<&str>,
        top: Option<(&str, u64, Order)>,
    ) -> Result<Request, Refusal>
        ensures { result ≡ request_of schema.now (option_copied groups.entry)
            (option_map (λ t. (t.0.now, t.1, t.2)) top.entry) }
    {
        let groups = groups_in(schema, groups)?;
        let top = top_in(schema, top)?;
        Ok(Request { groups, top })
    }

    /// Whether the groups are by a keyword or number field of the schema, the top list is by a number field, and its
    /// limit is within 1..=10,000.
    pub fn fits(&self, schema: &Schema) -> bool
        ensures { result ≡ request_fits schema.now self.now }
    {
        let groups = match self.groups {
            None => true,
            Some(field) => is_ordered_field(schema, field),
        };
        let top = match self.top {
            None => true,
            Some(top) => is_number_field(schema, top.by) && is_limit(top.k),
        };
        groups && top
    }
}
