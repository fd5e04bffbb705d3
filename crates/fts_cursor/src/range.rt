// Ranges, as what a column keeps: numbers, or ordinals of texts.
ghost use Rattle.std.specs.Prelude.{◌≡◌, ℕ, ◌+◌, ◌/◌, ◌^◌, ◌<◌, ◌≤◌, IfOk, None, Some, false, length};
ghost use Rattle.std.specs.Prelude.{slice_index_or, true};
ghost use Rattle.std.specs.Option.{option_map_or};
ghost use Rattle.fts_model.specs.Operations.{kind_at};
ghost use Rattle.fts_model.specs.declared.schema.Kind.TheVariants as kinds;
ghost use Rattle.fts_model.specs.Queries.{is_number_field, is_ordered_field, is_range_of};
ghost use Rattle.fts_model.specs.QueryValues.{range};
ghost use Rattle.fts_cursor.specs.Hits.{segment_hits};
ghost use Rattle.fts_cursor.specs.Most.{OpensRange, least_for, most_for};
ghost use Rattle.fts_pack.specs.ListRange.{lists_in_range};
ghost use Rattle.fts_postings.specs.Bounds.{most_at};
ghost use Rattle.fts_segment.specs.Segments.{column, keywords, ordinals};
ghost use Rattle.fts_cursor.specs.Ranges.{AreBoundsOf, IsGreatestOf, IsLastOrdinal, IsLeastOf, IsWhole, IsWholeBound};
ghost use Rattle.fts_cursor.specs.Ranges.{key_of, ordinal_from, values_of};
ghost use Rattle.fts_postings.specs.Windows.{passing};
ghost use Rattle.fts_sets.specs.Leaves.{has_within};
ghost use Rattle.fts_segment.specs.Between.{AreBetween, count_between};

use crate::list_union::ListedCursor;
use crate::tree::Tree;
use fts_model::{FieldValue, Number};
use fts_pack::ListRange;
use fts_pack::bits::i64_to_u64;
use fts_pack::column::Column;
use fts_segment::Segment;
use fts_sets::{DocIdSet, Leaf, SetCursor};
use std::alloc::{AllocError, Global};
use std::ops::Bound;

/// The documents with a value of a keyword or number field within bounds.
#[inline(never)]
pub(crate) fn of_range<'a>(
    alloc: Global,
    segment: &'a Segment,
    field: usize,
    lower: &Bound<FieldValue>,
    upper: &Bound<FieldValue>,
) -> Result<Tree<'a>, AllocError>
    requires { option_map_or (is_range_of lower.now upper.now) (kind_at segment.now.schema field)
        false ≡ true }
    ensures remaining { IfOk result
        (λ t. t.remaining ≡ segment_hits segment.now (range field lower.now upper.now)) }
    ensures most { IfOk result (λ t. most_at t.bound None
        ≤ most_for segment.now (range field lower.now upper.now)) }
    ensures least { IfOk result (λ t. least_for segment.now (range field lower.now upper.now) ≤ t.openings) }
{
    match bounds_of(segment, field, lower, upper) {
        None => Ok(Tree::nothing()),
        Some((low, high)) => of_bounds(alloc, segment, field, low, high),
    }
}

/// The least and the greatest number of a keyword or number field's column that a range admits. `None` if it admits no
/// value.
pub(crate) fn bounds_of(
    segment: &Segment,
    field: usize,
    lower: &Bound<FieldValue>,
    upper: &Bound<FieldValue>,
) -> Option<(u64, u64)>
    requires { option_map_or (is_range_of lower.now upper.now) (kind_at segment.now.schema field)
        false ≡ true }
    ensures { AreBoundsOf segment.now (range field lower.now upper.now) (values_of segment.now field) result }
{
    if segment.schema().kind(field).holds_numbers() {
        number_bounds(segment, field, lower, upper)
    } else {
        keyword_bounds(segment, field, lower, upper)
    }
}

/// As `bounds_of`, for a number field.
fn number_bounds(
    segment: &Segment,
    field: usize,
    lower: &Bound<FieldValue>,
    upper: &Bound<FieldValue>,
) -> Option<(u64, u64)>
    requires range { option_map_or (is_range_of lower.now upper.now) (kind_at segment.now.schema field)
        false ≡ true }
    requires numbers { is_number_field segment.now.schema field ≡ true }
    ensures { AreBoundsOf segment.now (range field lower.now upper.now) (column segment.now field) result }
{
    let column = segment.column(field);
    // These two show the proof that its numbers have 64 bits, and that each value of the field is a number.
    let _ = most_of(column);
    let _ = segment.docs();
    let low = least(lower);
    let high = greatest(upper);
    Some((low?, high?))
}

/// As `bounds_of`, for a keyword field: the ordinals of the texts within the range.
fn keyword_bounds(
    segment: &Segment,
    field: usize,
    lower: &Bound<FieldValue>,
    upper: &Bound<FieldValue>,
) -> Option<(u64, u64)>
    requires range { is_range_of lower.now upper.now kinds.Keyword ≡ true }
    requires keyword { kind_at segment.now.schema field ≡ Some kinds.Keyword }
    ensures { AreBoundsOf segment.now (range field lower.now upper.now) (ordinals segment.now field) result }
{
    let column = segment.column(field);
    // These two show the proof that its ordinals have 64 bits, and that each value of the field is a text.
    let _ = most_of(column);
    let _ = segment.docs();
    let low = first_ordinal(segment, field, lower);
    let high = last_ordinal(segment, field, upper)?;
    Some((low, high))
}

/// The documents with a number between two in the column of a keyword or number field.
fn of_bounds(
    alloc: Global,
    segment: &Segment,
    field: usize,
    low: u64,
    high: u64,
) -> Result<Tree<'_>, AllocError>
    requires { is_ordered_field segment.now.schema field ≡ true }
    ensures remaining { IfOk result (λ t. t.remaining
        ≡ passing (has_within low high (values_of segment.now field)) 0 (length segment.now.documents)) }
    ensures opens { IfOk result (λ t. OpensRange (length segment.now.documents) t.standing) }
{
    let column = segment.column(field);
    let lists = segment.lists_between(field, low, high);
    let documents = segment.documents_between(field, low, high);
    between(alloc, column, segment.docs(), lists, documents, low, high)
}

/// How many of some documents a range has at least whose column is read, not the lists of its numbers.
pub(crate) fn fewest_scanned(docs: usize) -> usize
    requires { docs ≤ 2 ^ 32 }
    ensures { result ≡ docs / 256 + 1 }
{
    docs / 256 + 1
}

/// The documents with a number of a column between two, which are in these lists, and how many they are. If they are
/// few, the lists are opened, otherwise the column is read.
fn between<'a>(
    alloc: Global,
    column: &'a Column,
    docs: usize,
    lists: ListRange<'_>,
    documents: usize,
    low: u64,
    high: u64,
) -> Result<Tree<'a>, AllocError>
    requires few { docs ≤ 2 ^ 32 }
    requires size { length column.now ≡ docs }
    requires lists { AreBetween column.now low high (lists_in_range lists) }
    requires documents { documents ≡ count_between low high column.now }
    ensures remaining { IfOk result (λ t. t.remaining ≡ passing (has_within low high column.now) 0 docs) }
    ensures opens { IfOk result (λ t. OpensRange docs t.standing) }
{
    if documents < fewest_scanned(docs) {
        let (listed, opened) = ListedCursor::of_lists(alloc, lists)?;
        // No document is in two lists, so the blocks are no more than the documents.
        return Tree::listed(alloc, listed, opened.min(documents as u64));
    }
    let mut set = DocIdSet::every(alloc, docs);
    set.with(Leaf::Within { column, low, high })?;
    Tree::scan(alloc, SetCursor::new(set, Some(documents)))
}

/// The least ordinal that a lower bound of a text admits.
fn first_ordinal(segment: &Segment, field: usize, bound: &Bound<FieldValue>) -> u64
    requires { kind_at segment.now.schema field ≡ Some kinds.Keyword }
    ensures { result ≡ ordinal_from (keywords segment.now field) bound.now }
{
    match bound {
        Bound::Included(FieldValue::Text(text)) => segment.equal_range(field, text.as_str()).0,
        Bound::Excluded(FieldValue::Text(text)) => segment.equal_range(field, text.as_str()).1,
        Bound::Included(FieldValue::Texts(_) | FieldValue::Number(_))
        | Bound::Excluded(FieldValue::Texts(_) | FieldValue::Number(_))
        | Bound::Unbounded => 0,
    }
}

/// The greatest ordinal that an upper bound of a text admits.
fn last_ordinal(segment: &Segment, field: usize, bound: &Bound<FieldValue>) -> Option<u64>
    requires { kind_at segment.now.schema field ≡ Some kinds.Keyword }
    ensures { IsLastOrdinal (keywords segment.now field) bound.now result }
{
    match bound {
        Bound::Included(FieldValue::Text(text)) => {
            segment.equal_range(field, text.as_str()).1.checked_sub(1)
        }
        Bound::Excluded(FieldValue::Text(text)) => {
            segment.equal_range(field, text.as_str()).0.checked_sub(1)
        }
        Bound::Included(FieldValue::Texts(_) | FieldValue::Number(_))
        | Bound::Excluded(FieldValue::Texts(_) | FieldValue::Number(_))
        | Bound::Unbounded => Some(u64::MAX),
    }
}

/// The greatest number of a column.
fn most_of(column: &Column) -> Option<u64>
    ensures { (doc x : ℕ) → slice_index_or column.now doc None ≡ Some x → x < 2 ^ 64 }
{
    match column.range() {
        None => None,
        Some((_, most)) => Some(most),
    }
}

/// The number as a column keeps it.
fn key(value: &FieldValue) -> u64
    ensures is { result ≡ key_of value.now }
    ensures whole { IsWhole value.now }
{
    match value {
        FieldValue::Number(Number::U64(number)) => *number,
        FieldValue::Number(Number::I64(number)) => i64_to_u64(*number),
        FieldValue::Text(_) | FieldValue::Texts(_) => 0,
    }
}

/// The least number that a lower bound admits.
fn least(bound: &Bound<FieldValue>) -> Option<u64>
    ensures is { IsLeastOf bound.now result }
    ensures whole { IsWholeBound bound.now }
{
    match bound {
        Bound::Included(value) => Some(key(value)),
        Bound::Excluded(value) => key(value).checked_add(1),
        Bound::Unbounded => Some(0),
    }
}

/// The greatest number that an upper bound admits.
fn greatest(bound: &Bound<FieldValue>) -> Option<u64>
    ensures is { IsGreatestOf bound.now result }
    ensures whole { IsWholeBound bound.now }
{
    match bound {
        Bound::Included(value) => Some(key(value)),
        Bound::Excluded(value) => key(value).checked_sub(1),
        Bound::Unbounded => Some(u64::MAX),
    }
}
