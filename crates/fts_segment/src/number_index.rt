// The index of a number field: a column, and the documents of each number.
ghost use Rattle.std.specs.Prelude.{◌≡◌, ℕ, ◌<◌, ◌≤◌, ◌^◌, [], Some, length, All, IfOk};
ghost use Rattle.std.specs.Prelude.{IfSome, OnOk, drop, option_copied, slice_get, slice_index_or, MatchOption};
ghost use Rattle.std.specs.List.Sorted.{IsNonDecreasingBy, IsStrictlyIncreasing};
ghost use Rattle.fts_segment.specs.Occurrences.{values_in};
ghost use Rattle.fts_segment.specs.Segments.{number_of, numbers_where};
ghost use Rattle.fts_segment.specs.Numbers.{Fits64, numbers_of, is_number, IsNumberIndex};
ghost use Rattle.fts_segment.specs.NumberPairs.{docs_of_number, begins_with, AreGroups};
ghost use Rattle.fts_segment.specs.ListIds.{documents_in, positions_in};

use crate::binary_search::find_number;
use crate::segment::ListId;
use fts_base::release;
use fts_model::{Document, FieldValue, Kind, Number, Stamped};
use fts_pack::Lists;
use fts_pack::bits::i64_to_u64;
use fts_pack::column::Column;
use std::alloc::{AllocError, Global};

/// The index of a number field.
pub(crate) struct NumberIndex {
    pub(crate) column: Column,
    /// The distinct numbers, rising.
    pub(crate) numbers: Vec<u64>,
    /// The documents of each number.
    pub(crate) lists: Lists,
}

impl Drop for NumberIndex {
    fn drop(self) {
        let NumberIndex {
            column: _,
            numbers,
            lists: _,
        } = self;
        release(numbers);
    }
}

impl NumberIndex {
    /// The index of a field of this kind.
    pub(crate) fn new(
        alloc: Global,
        documents: &[Stamped<Document>],
        field: usize,
        kind: Kind,
    ) -> Result<NumberIndex, AllocError>
        requires { length documents.now < 2 ^ 32 }
        ensures fit { OnOk result
            (All (λ v. IfSome v (Fits64 kind)) (values_in field documents.now)) }
        ensures column { IfOk result
            (λ index. index.column ≡ numbers_of kind (values_in field documents.now)) }
        ensures index { IfOk result
            (λ index. IsNumberIndex (numbers_of kind (values_in field documents.now))
            index.numbers.items index.lists) }
    {
        let values = numbers_of(alloc, documents, field, kind)?;
        let pairs = sorted_pairs(alloc, &values)?;
        let (numbers, lists) = grouped(alloc, &pairs)?;
        release(pairs);
        let Ok(column) = Column::build(alloc, &values) else {
            return Err(AllocError);
        };
        release(values);
        Ok(NumberIndex {
            column,
            numbers,
            lists,
        })
    }

    /// The list of a number, if a document has it.
    pub(crate) fn find(&self, number: u64) -> Option<ListId<'_>>
        requires rises { IsStrictlyIncreasing self.now.numbers.items }
        requires listed { length self.now.numbers.items ≡ length self.now.lists }
        ensures { MatchOption result
            ((i : ℕ) → slice_get self.now.numbers.items i ≡ Some number → ⊥)
            (λ list. (i : ℕ) × (slice_get self.now.numbers.items i ≡ Some number)
            × (documents_in list ≡ slice_index_or self.now.lists i [])
            × (positions_in list ≡ [])) }
    {
        let index = find_number(&self.numbers, number)?;
        Some(ListId {
            list: self.lists.get(index),
            positions: None,
            start: 0,
            end: 0,
        })
    }
}

/// The number of a value in a field of this kind, as a column stores it.
pub(crate) fn number_in(kind: Kind, value: Option<&FieldValue>) -> Option<u64>
    ensures number { result ≡ number_of kind (option_copied value.entry) }
    ensures fits { IfSome value.entry (λ v. Fits64 kind v.now) }
{
    let value = value?;
    match kind {
        Kind::U64 => match value {
            FieldValue::Number(Number::U64(number)) => Some(*number),
            FieldValue::Number(Number::I64(_)) | FieldValue::Text(_) | FieldValue::Texts(_) => None,
        },
        Kind::I64 => match value {
            FieldValue::Number(Number::I64(number)) => Some(i64_to_u64(*number)),
            FieldValue::Number(Number::U64(_)) | FieldValue::Text(_) | FieldValue::Texts(_) => None,
        },
        Kind::Text | Kind::Keyword => None,
    }
}

/// The numbers of the documents in a field of this kind.
fn numbers_of(
    alloc: Global,
    documents: &[Stamped<Document>],
    field: usize,
    kind: Kind,
) -> Result<Vec<Option<u64>>, AllocError>
    ensures numbers { IfOk result
        (λ v. v.items ≡ numbers_of kind (values_in field documents.now)) }
    ensures fit { OnOk result (All (λ v. IfSome v (Fits64 kind)) (values_in field documents.now)) }
{
    let mut numbers = Vec::with_capacity(alloc, documents.len())?;
    for document in documents {
        numbers.push(number_in(kind, document.value.value(field)))?;
    }
    Ok(numbers)
}

/// The numbers of documents, each with its document: the numbers rise, and of equal ones the documents.
fn sorted_pairs(alloc: Global, values: &[Option<u64>]) -> Result<Vec<(u64, u32)>, AllocError>
    requires few { length values.now ≤ 2 ^ 32 }
    ensures rise { IfOk result (λ v. IsNonDecreasingBy (λ p. p.0) v.items) }
    ensures docs { IfOk result
        (λ v. (x : ℕ) → docs_of_number x v.items ≡ numbers_where (is_number x) 0 values.now) }
{
    let mut pairs = Vec::with_capacity(alloc, values.len())?;
    for (doc, value) in values.iter().enumerate() {
        if let Some(number) = value {
            pairs.push((*number, doc as u32))?;
        }
    }
    // This sort takes no buffer. To free a large one would raise the size from which buffers come from the system.
    pairs.sort_unstable();
    Ok(pairs)
}

/// Whether the pair at this index is one of this number.
fn has_number(pairs: &[(u64, u32)], index: usize, number: u64) -> bool
    ensures { result ≡ begins_with number (drop index pairs.now) }
{
    match pairs.get(index) {
        Some(pair) => pair.0 == number,
        None => false,
    }
}

/// The distinct numbers of sorted pairs, rising, and the documents of each.
fn grouped(alloc: Global, pairs: &[(u64, u32)]) -> Result<(Vec<u64>, Lists), AllocError>
    requires rise { IsNonDecreasingBy (λ p. p.0) pairs.now }
    requires docs { (x : ℕ) → IsStrictlyIncreasing (docs_of_number x pairs.now) }
    ensures { IfOk result (λ r. AreGroups pairs.now r.0.items r.1) }
{
    let mut numbers = Vec::new(alloc);
    let mut lists = Lists::new(alloc);
    let mut docs = Vec::new(alloc);
    for (index, (number, doc)) in pairs.iter().enumerate() {
        docs.push(*doc)?;
        if !has_number(pairs, index + 1, *number) {
            numbers.push(*number)?;
            lists.push(alloc, &docs)?;
            docs.clear();
        }
    }
    release(docs);
    numbers.shrink_to_fit();
    lists.shrink_to_fit();
    Ok((numbers, lists))
}
