// Groups whose keywords stay where they are: in the segment whose hits were counted.
ghost use Rattle.std.specs.Prelude.{◌≡◌, [], slice_index_or, true, Some};
ghost use Rattle.fts_model.specs.Queries.{is_ordered_field};
ghost use Rattle.fts_model.specs.Operations.{kind_at};
ghost use Rattle.fts_model.specs.declared.schema.Kind.TheVariants as kinds;
ghost use Rattle.fts_segment.specs.Segments.{keywords};
ghost use Rattle.fts_parts.specs.Collected.{value_at};
ghost use Rattle.fts_parts.specs.Internals.Lent.{value_of};

use fts_model::{GroupValue, Kind, Text};
use fts_pack::bits::u64_to_i64;
use fts_segment::Segment;
use std::alloc::{AllocError, Global};
use std::cmp::Ordering;
use std::marker::Model;

/// The value of a group. A keyword is borrowed from the segment.
#[derive(Clone, Copy)]
pub(crate) enum LentValue<'a> {
    U64(u64),
    I64(i64),
    Keyword(&'a str),
}

impl LentValue<'_> {
    ghost use Rattle.std.specs.Prelude.{◌≡◌, IfOk};
    ghost use Rattle.fts_model.specs.Answers.{group_cmp};
    ghost use Rattle.fts_parts.specs.Internals.Lent.{value_of};

    /// How it is to another, as values of groups do.
    pub(crate) fn compare(self, other: LentValue<'_>) -> Ordering
        ensures { result ≡ group_cmp (value_of self.entry) (value_of other.entry) }
    {
        match (self, other) {
            (LentValue::U64(n), LentValue::U64(m)) => n.cmp(&m),
            (LentValue::I64(n), LentValue::I64(m)) => n.cmp(&m),
            (LentValue::Keyword(text), LentValue::Keyword(other)) => text.cmp(other),
            (LentValue::U64(_), _) => Ordering::Less,
            (_, LentValue::U64(_)) => Ordering::Greater,
            (LentValue::I64(_), LentValue::Keyword(_)) => Ordering::Less,
            (LentValue::Keyword(_), LentValue::I64(_)) => Ordering::Greater,
        }
    }

    /// The value, with a text of its own.
    pub(crate) fn copied(self, alloc: Global) -> Result<GroupValue, AllocError>
        ensures { IfOk result (λ value. value ≡ value_of self.entry) }
    {
        match self {
            LentValue::U64(n) => Ok(GroupValue::U64(n)),
            LentValue::I64(n) => Ok(GroupValue::I64(n)),
            LentValue::Keyword(text) => {
                let string = String::from_str(alloc, text)?;
                Ok(GroupValue::Keyword(Text::new(string)))
            }
        }
    }
}

/// A group whose value is borrowed. Contracts see the value and the count.
#[derive(Drop)]
pub(crate) struct Lent<'a> {
    value: LentValue<'a>,
    count: u64,
}

impl<'a> Model for Lent<'a> {
    ghost use Rattle.std.specs.Prelude.{ℕ};
    ghost use Rattle.fts_model.specs.declared.value.GroupValue.{GroupValue};
    ghost use Rattle.fts_parts.specs.Internals.Lent.{value_of};

    ghost Value = { GroupValue × ℕ };

    ghost view = { λ g. (value_of g.value, g.count) };
}

impl<'a> Lent<'a> {
    ghost use Rattle.std.specs.Prelude.{◌≡◌};
    ghost use Rattle.fts_parts.specs.Internals.Lent.{value_of};

    pub(crate) fn new(value: LentValue<'a>, count: u64) -> Lent<'a>
        ensures { result ≡ (value_of value.entry, count) }
    {
        Lent { value, count }
    }

    pub(crate) fn value(&self) -> LentValue<'a>
        ensures { value_of result ≡ self.now.0 }
    {
        self.value
    }

    pub(crate) fn count(&self) -> u64
        ensures { result ≡ self.now.1 }
    {
        self.count
    }
}

/// The keyword of an ordinal in a field, and no text if there is none.
fn keyword_at(segment: &Segment, field: usize, ordinal: u64) -> &str
    requires { kind_at segment.now.schema field ≡ Some kinds.Keyword }
    ensures { result.now ≡ slice_index_or (keywords segment.now field) ordinal [] }
{
    segment.keyword(field, ordinal).unwrap_or("")
}

/// The value that the column of a field keeps as a number.
fn value_at(segment: &Segment, field: usize, number: u64) -> LentValue<'_>
    requires { is_ordered_field segment.now.schema field ≡ true }
    ensures { value_of result ≡ value_at segment.now field number }
{
    match segment.schema().kind(field) {
        Kind::U64 | Kind::Text => LentValue::U64(number),
        Kind::I64 => LentValue::I64(u64_to_i64(number)),
        Kind::Keyword => LentValue::Keyword(keyword_at(segment, field, number)),
    }
}

/// Counts of the numbers that the column of a field keeps for values. The segment is shared, so that no keyword is
/// copied. Contracts see the values with their counts.
#[derive(Drop)]
pub(crate) struct Counted {
    segment: Segment,
    field: usize,
    counts: Vec<(u64, u64)>,
}

impl Model for Counted {
    ghost use Rattle.std.specs.Prelude.{◌≡◌, ℕ, List, true};
    ghost use Rattle.fts_model.specs.Queries.{is_ordered_field};
    ghost use Rattle.fts_model.specs.declared.value.GroupValue.{GroupValue};
    ghost use Rattle.fts_parts.specs.Collected.{named_by, value_at};

    ghost Value = { List (GroupValue × ℕ) };

    ghost view = { λ c. named_by (value_at c.segment c.field) c.counts.items };

    ghost invariant = { λ c. is_ordered_field c.segment.schema c.field ≡ true };
}

impl Counted {
    ghost use Rattle.std.specs.Prelude.{◌≡◌, IfOk, true};
    ghost use Rattle.fts_model.specs.Queries.{is_ordered_field};
    ghost use Rattle.fts_parts.specs.Collected.{named_by, value_at};

    /// Counts of numbers in the column of a field.
    pub(crate) fn new(
        segment: &Segment,
        field: usize,
        counts: Vec<(u64, u64)>,
    ) -> Result<Counted, AllocError>
        requires { is_ordered_field segment.now.schema field ≡ true }
        ensures { IfOk result (λ c. c ≡ named_by (value_at segment.now field) counts.items) }
    {
        let segment = segment.clone()?;
        Ok(Counted {
            segment,
            field,
            counts,
        })
    }

    /// The groups, whose keywords stay in the segment.
    pub(crate) fn lend(&self, alloc: Global) -> Result<Vec<Lent<'_>>, AllocError>
        ensures { IfOk result (λ list. list.items ≡ self.now) }
    {
        let mut list = Vec::with_capacity(alloc, self.counts.len())?;
        for count in &self.counts {
            let value = value_at(&self.segment, self.field, count.0);
            list.push(Lent::new(value, count.1))?;
        }
        Ok(list)
    }
}
