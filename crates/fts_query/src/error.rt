// The reasons for which a text is no query: it isn't in the grammar, or it has no meaning under the schema.
use std::alloc::{AllocError, AllocFailed};

/// The reason for which a parse stopped early.
#[derive(Clone, Copy, Debug, PartialEq, Eq)]
pub enum ParseError {
    /// The allocator refused a growth.
    Memory,
    /// The text isn't in the grammar; this many bytes were not read.
    Syntax(usize),
}

impl From<AllocError> for ParseError {
    ghost use Rattle.std.specs.Prelude.{◌≡◌};
    ghost use Rattle.fts_query.specs.declared.error.ParseError.TheVariants.{Memory};

    ghost from_gives = { λ _ e. e ≡ Memory };

    fn from(_error: AllocError) -> ParseError {
        ParseError::Memory
    }
}

impl<T: Drop> From<AllocFailed<T>> for ParseError {
    ghost use Rattle.std.specs.Prelude.{◌≡◌};
    ghost use Rattle.fts_query.specs.declared.error.ParseError.TheVariants.{Memory};

    ghost from_gives = { λ _ e. e ≡ Memory };

    fn from(_error: AllocFailed<T>) -> ParseError {
        ParseError::Memory
    }
}

/// The reason for which a text in the grammar is no query of a schema.
#[derive(Clone, Copy, Debug, PartialEq, Eq)]
pub enum QueryError {
    /// The schema has no field of that name.
    UnknownField,
    /// A literal or a bound of a number field is no number of its kind.
    BadNumber,
    /// A text field has a range or a comparison.
    RangeOnText,
    /// A literal has no field, and the schema has no default field.
    NoDefaultField,
    /// A Boolean node has only must-nots.
    AllNegative,
}
