// The values of fields.
ghost use Rattle.std.specs.Prelude.{◌≡◌};
ghost use Rattle.fts_model.specs.Answers.{number_cmp};

use crate::text::Text;
use crate::texts::Texts;
use std::alloc::AllocError;
use std::cmp::Ordering;

/// A whole number of a number field.
#[derive(Clone, Copy, Debug, PartialEq, Eq)]
pub enum Number {
    /// A number of a `u64` field.
    U64(u64),
    /// A number of an `i64` field.
    I64(i64),
}

impl Number {
    /// The order of two numbers: by their values, and a `u64` field's before an `i64` field's.
    pub fn compare(self, other: Number) -> Ordering
        ensures { result ≡ number_cmp self other }
    {
        match (self, other) {
            (Number::U64(n), Number::U64(m)) => n.cmp(&m),
            (Number::U64(_), Number::I64(_)) => Ordering::Less,
            (Number::I64(_), Number::U64(_)) => Ordering::Greater,
            (Number::I64(n), Number::I64(m)) => n.cmp(&m),
        }
    }
}

/// The value of a field.
#[derive(Clone, Debug, Drop, PartialEq, Eq)]
pub enum FieldValue {
    /// The value of a text or keyword field.
    Text(Text),
    /// The texts of a text field that has a list of them. It can be no term and no bound.
    Texts(Texts),
    /// The value of a number field.
    Number(Number),
}

/// The value of a group, from a keyword or number field.
#[derive(Debug, Drop, PartialEq, Eq)]
pub enum GroupValue {
    /// A number of a `u64` field.
    U64(u64),
    /// A number of an `i64` field.
    I64(i64),
    /// A keyword.
    Keyword(Text),
}

impl GroupValue {
    ghost use Rattle.std.specs.Prelude.{◌≡◌, IfOk};
    ghost use Rattle.fts_model.specs.Answers.{group_of, group_cmp};

    /// The value of the group for a field's value. A list of texts has none.
    pub fn of(value: &FieldValue) -> Result<Option<GroupValue>, AllocError>
        ensures { IfOk result (λ group. group ≡ group_of value.now) }
    {
        Ok(match value {
            FieldValue::Text(text) => Some(GroupValue::Keyword(text.clone()?)),
            FieldValue::Texts(_) => None,
            FieldValue::Number(Number::U64(n)) => Some(GroupValue::U64(*n)),
            FieldValue::Number(Number::I64(n)) => Some(GroupValue::I64(*n)),
        })
    }

    /// The order of two group values: numbers by their values, keywords by their bytes; a `u64` field's come before an
    /// `i64` field's, and both before keywords.
    pub fn compare(&self, other: &GroupValue) -> Ordering
        ensures { result ≡ group_cmp self.now other.now }
    {
        match (self, other) {
            (GroupValue::U64(n), GroupValue::U64(m)) => n.cmp(m),
            (GroupValue::I64(n), GroupValue::I64(m)) => n.cmp(m),
            (GroupValue::Keyword(text), GroupValue::Keyword(other)) => {
                text.as_str().cmp(other.as_str())
            }
            (GroupValue::U64(_), _) => Ordering::Less,
            (_, GroupValue::U64(_)) => Ordering::Greater,
            (GroupValue::I64(_), GroupValue::Keyword(_)) => Ordering::Less,
            (GroupValue::Keyword(_), GroupValue::I64(_)) => Ordering::Greater,
        }
    }
}

impl Clone for GroupValue {
    ghost is_clone = { λ value copy. copy ≡ value };

    fn clone(&self) -> Result<Self, AllocError> {
        match self {
            GroupValue::U64(n) => Ok(GroupValue::U64(*n)),
            GroupValue::I64(n) => Ok(GroupValue::I64(*n)),
            GroupValue::Keyword(text) => Ok(GroupValue::Keyword(text.clone()?)),
        }
    }
}
