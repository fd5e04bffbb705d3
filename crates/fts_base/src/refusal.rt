// The causes for which a call of the index is refused, each with its number and its name.
ghost use Rattle.std.specs.Prelude.{◌≡◌, List, ℕ};
ghost use Rattle.fts_base.specs.Refusals.{name_of, number_of};
ghost use Rattle.fts_base.specs.declared.refusal.Refusal.TheVariants.{Memory};

use std::alloc::{AllocError, AllocFailed};

/// Why a call was refused. A refused call leaves all that it borrowed as it was.
///
/// The numbers and the names are part of the format: scripts print the names, and neither ever changes.
#[derive(Clone, Copy, Debug, PartialEq, Eq)]
pub enum Refusal {
    /// 0: the allocator refused a growth.
    Memory,
    /// 1: the schema has no field.
    NoFields,
    /// 2: the schema has more than 32 fields.
    TooManyFields,
    /// 3: a name isn't `[A-Za-z_][A-Za-z0-9_]*` of 1 to 32 bytes, or is `AND`, `OR` or `NOT`.
    BadName,
    /// 4: two fields have one name.
    NameTwice,
    /// 5: a number field is marked default.
    BadDefault,
    /// 6: the document isn't a JSON object.
    NotAnObject,
    /// 7: the schema has no field of that name.
    UnknownField,
    /// 8: the value isn't of the field's kind, or is null if a term is wanted.
    WrongKind,
    /// 9: a text, or a list of texts together, has more than 1,048,576 bytes.
    TextTooLong,
    /// 10: a keyword has more than 256 bytes.
    KeywordTooLong,
    /// 11: the length of a top list isn't within 1..=10,000.
    BadLimit,
    /// 12: groups are requested for a text field, or a top list for a text or keyword field.
    NotANumberField,
    /// 13: the builder holds 65,536 documents.
    SegmentFull,
    /// 14: a query has more than 4,096 bytes.
    TooLong,
    /// 15: the query isn't in the grammar; at or before this byte it stops being one.
    Syntax(usize),
    /// 16: parentheses nest more than 32 deep.
    TooDeep,
    /// 17: a literal or a bound of a number field is no number of its kind.
    BadNumber,
    /// 18: a text field has a range or a comparison.
    RangeOnText,
    /// 19: a literal has no field, and the schema has no default field.
    NoDefaultField,
    /// 20: a Boolean node has only must-nots.
    AllNegative,
    /// 21: more than 1,048,576 live documents are to be merged.
    TooLarge,
    /// 22: a round is open already.
    RoundOpen,
    /// 23: stamps, segment numbers or round numbers would reach 2^62.
    StampsUsedUp,
    /// 24: the lane holds as many operations as it may.
    LaneFull,
    /// 25: this lane has not ended.
    LaneMissing(usize),
    /// 26: no round is open, or the batch isn't of the open round.
    StaleBatch,
    /// 27: the operation of this stamp doesn't fit the writer's schema.
    OtherSchema(u64),
    /// 28: no segment of the snapshot has this number.
    UnknownSegment(u64),
    /// 29: this segment occurs earlier in the list.
    SegmentTwice(u64),
    /// 30: the list of segments is empty.
    NoSegments,
    /// 31: this source of a merge is gone, so the merged segment can't replace the sources.
    SourceGone(u64),
    /// 32: the line isn't JSON, or isn't UTF-8, or nests more than 127 deep.
    BadJson,
    /// 33: the line is JSON and no command.
    BadCommand,
    /// 34: a command other than the schema comes before any schema.
    NoSchema,
    /// 35: the line has a second schema.
    SchemaTwice,
    /// 36: the line has more than 4,194,304 bytes before its end.
    LineTooLong,
    /// 37: the writer has as many readers as it may.
    NoReader,
    /// 38: a list has more than 1,024 texts.
    TooManyTexts,
}

impl From<AllocError> for Refusal {
    ghost from_gives = { λ _ refusal. refusal ≡ Memory };

    fn from(_refused: AllocError) -> Refusal {
        Refusal::Memory
    }
}

impl Refusal {
    /// The number of the cause, 0 to 38.
    pub fn number(&self) -> u8
        ensures { result ≡ number_of self.now }
    {
        self.row().0
    }

    /// The name of the cause, without its value.
    pub fn name(&self) -> &'static str
        ensures { result.now ≡ name_of self.now }
    {
        self.row().1
    }

    /// The number and the name.
    fn row(&self) -> (u8, &'static str)
        ensures number { result.0 ≡ number_of self.now }
        ensures name { result.1.now ≡ name_of self.now }
    {
        match self {
            Refusal::Memory => (0, "Memory"),
            // schemas, documents, terms and requests
            Refusal::NoFields => (1, "NoFields"),
            Refusal::TooManyFields => (2, "TooManyFields"),
            Refusal::BadName => (3, "BadName"),
            Refusal::NameTwice => (4, "NameTwice"),
            Refusal::BadDefault => (5, "BadDefault"),
            Refusal::NotAnObject => (6, "NotAnObject"),
            Refusal::UnknownField => (7, "UnknownField"),
            Refusal::WrongKind => (8, "WrongKind"),
            Refusal::TextTooLong => (9, "TextTooLong"),
            Refusal::KeywordTooLong => (10, "KeywordTooLong"),
            Refusal::BadLimit => (11, "BadLimit"),
            Refusal::NotANumberField => (12, "NotANumberField"),
            // segments and queries
            Refusal::SegmentFull => (13, "SegmentFull"),
            Refusal::TooLong => (14, "TooLong"),
            Refusal::Syntax(_) => (15, "Syntax"),
            Refusal::TooDeep => (16, "TooDeep"),
            Refusal::BadNumber => (17, "BadNumber"),
            Refusal::RangeOnText => (18, "RangeOnText"),
            Refusal::NoDefaultField => (19, "NoDefaultField"),
            Refusal::AllNegative => (20, "AllNegative"),
            // rounds and their lanes
            Refusal::LaneMissing(_) => (25, "LaneMissing"),
            Refusal::LaneFull => (24, "LaneFull"),
            Refusal::RoundOpen => (22, "RoundOpen"),
            Refusal::StaleBatch => (26, "StaleBatch"),
            Refusal::OtherSchema(_) => (27, "OtherSchema"),
            // merges and stamps
            Refusal::TooLarge => (21, "TooLarge"),
            Refusal::StampsUsedUp => (23, "StampsUsedUp"),
            // segments by number
            Refusal::UnknownSegment(_) => (28, "UnknownSegment"),
            Refusal::SegmentTwice(_) => (29, "SegmentTwice"),
            Refusal::NoSegments => (30, "NoSegments"),
            Refusal::SourceGone(_) => (31, "SourceGone"),
            // lines and readers
            Refusal::BadJson => (32, "BadJson"),
            Refusal::BadCommand => (33, "BadCommand"),
            Refusal::NoSchema => (34, "NoSchema"),
            Refusal::SchemaTwice => (35, "SchemaTwice"),
            Refusal::LineTooLong => (36, "LineTooLong"),
            Refusal::NoReader => (37, "NoReader"),
            Refusal::TooManyTexts => (38, "TooManyTexts"),
        }
    }
}

impl<T: Drop> From<AllocFailed<T>> for Refusal {
    ghost from_gives = { λ _ refusal. refusal ≡ Memory };

    fn from(_: AllocFailed<T>) -> Self {
        Refusal::Memory
    }
}
