// A segment: documents that never change, with their terms.
ghost use Rattle.std.specs.Prelude.{◌≡◌, ◌≢◌, ◌^◌, ◌<◌, ◌≤◌, [], length, slice_get, option_copied, option_map, Some};
ghost use Rattle.std.specs.Prelude.{All, IfNone, IfOk, IfSome, true, false};
ghost use Rattle.std.specs.Option.{option_map_or};
ghost use Rattle.fts_model.specs.Documents.{IsDocument, fits};
ghost use Rattle.fts_model.specs.Queries.{is_number_field, is_ordered_field};
ghost use Rattle.fts_model.specs.Operations.{kind_at};
ghost use Rattle.fts_model.specs.Schemas.{holds_numbers};
ghost use Rattle.fts_model.specs.declared.schema.Kind.{Kind};
ghost use Rattle.fts_pack.specs.ListRange.{lists_in_range};
ghost use Rattle.fts_pack.specs.ListRef.{listed};
ghost use Rattle.fts_segment.specs.FieldIndexes.{AreTerms, NumbersFit};
ghost use Rattle.fts_segment.specs.Occurrences.{values_in};
ghost use Rattle.fts_segment.specs.Segments.{postings, positions, column, keywords, ordinals};
ghost use Rattle.fts_segment.specs.Between.{AreBetween, count_between};
ghost use Rattle.fts_segment.specs.SortedColumns.{IsOrdered, column_in};
ghost use Rattle.fts_segment.specs.Keywords.{before, text_in_value, up_to};
ghost use Rattle.fts_model.specs.declared.schema.Kind.TheVariants as kinds;
ghost use Rattle.fts_segment.specs.ListIds.{documents_in, positions_in};

use crate::binary_search::equal_range;
use crate::dictionary::Dictionary;
use crate::joining::IndexedField;
use crate::sorted_column::SortedColumn;
use fts_base::release;
use fts_model::{Document, FieldValue, Schema, Stamp, Stamped, Term};
use fts_pack::column::Column;
use fts_pack::{ListRange, ListRef};
use fts_positions::{PositionLists, PositionReader};
use std::alloc::{AllocError, Global};
use std::marker::Model;
use std::sync::Arc;

/// A reference to the list of a term of a segment.
#[derive(Clone, Copy)]
pub struct ListId<'a> {
    pub(crate) list: ListRef<'a>,
    /// The positions of the field's terms, unless this is a number.
    pub(crate) positions: Option<&'a PositionLists>,
    /// The index of the term's first list of positions, and the index after its last.
    pub(crate) start: usize,
    pub(crate) end: usize,
}

/// The data that copies of a segment share.
pub(crate) struct SegmentData {
    pub(crate) schema: Schema,
    pub(crate) documents: Vec<Stamped<Document>>,
    pub(crate) fields: Vec<IndexedField>,
}

impl Drop for SegmentData {
    fn drop(self) {
        let SegmentData {
            schema: _,
            documents,
            fields: _,
        } = self;
        release(documents);
    }
}

/// Documents with their stamps, numbered from 0. Contracts see the schema and the documents. A copy shares the data.
#[derive(Drop)]
pub struct Segment {
    pub(crate) stored: Arc<SegmentData>,
}

impl Model for Segment {
    ghost use Rattle.fts_segment.specs.Segments.{SegmentValue};

    ghost Value = { SegmentValue };

    ghost use Rattle.fts_segment.specs.SegmentData.{stored_value, IsStored};

    ghost view = { stored_value };

    ghost invariant = { IsStored };
}

impl Segment {
    /// The schema of its documents.
    pub fn schema(&self) -> &Schema
        ensures { result.now ≡ self.now.schema }
    {
        &self.stored.schema
    }

    /// The number of documents. Each fits the schema, and each of its values is one that its own field can have.
    pub fn docs(&self) -> usize
        ensures len { result ≡ length self.now.documents }
        ensures few { result ≤ 2 ^ 32 }
        ensures fit { All (λ d. fits self.now.schema d.value ≡ true) self.now.documents }
        ensures documents { All (λ d. IsDocument d.value) self.now.documents }
    {
        self.stored.documents.len()
    }

    /// The stamp of the document of this number.
    pub fn stamp(&self, doc: usize) -> Stamp
        requires { doc < length self.now.documents }
        ensures { option_map (λ d. d.stamp) (slice_get self.now.documents doc) ≡ Some result }
    {
        self.stored.documents[doc].stamp
    }

    /// The document of this number.
    pub fn document(&self, doc: usize) -> &Document
        requires { doc < length self.now.documents }
        ensures { option_map (λ d. d.value) (slice_get self.now.documents doc) ≡ Some result.now }
    {
        &self.stored.documents[doc].value
    }

    /// The list of a term, or `None` if no document has the term.
    pub fn find(&self, term: &Term) -> Option<ListId<'_>>
        ensures none { IfNone result (postings self.now term.now ≡ []) }
        ensures some { IfSome result (λ list. documents_in list ≢ []) }
        ensures documents { IfSome result (λ list. documents_in list ≡ postings self.now term.now) }
        ensures positions { IfSome result
            (λ list. positions_in list ≡ positions self.now term.now) }
    {
        let stored: &SegmentData = &self.stored;
        let field = stored.fields.get(term.field)?;
        field
            .index
            .find(stored.schema.kind(term.field), &term.value)
    }

    /// The numbers of the documents that have a term, rising.
    pub fn postings<'a>(&self, list: ListId<'a>) -> ListRef<'a>
        ensures { listed result ≡ documents_in list.entry }
    {
        list.list
    }

    /// The positions of a term in the documents of its postings, counted from 0: those of its tokens in a text, and 0
    /// for a keyword. A number has none.
    pub fn positions<'a>(&self, list: ListId<'a>) -> PositionReader<'a>
        ensures { result ≡ positions_in list.entry }
    {
        PositionReader::new(list.positions, list.start, list.end)
    }

    /// The column of a field. For a number field it has the documents' numbers, an `i64` as the `u64` that `i64_to_u64`
    /// gives; for a keyword field it has the documents' ordinals, each the number of the segment's distinct smaller
    /// keywords.
    pub fn column(&self, field: usize) -> &Column
        requires { is_ordered_field self.now.schema field ≡ true }
        ensures numbers { is_number_field self.now.schema field ≡ true → result.now ≡ column self.now field }
        ensures ordinals { is_number_field self.now.schema field ≡ false → result.now ≡ ordinals self.now field }
        ensures fit { (kind : Kind) → kind_at self.now.schema field ≡ Some kind
            → NumbersFit kind field self.now.documents }
    {
        self.ordered(field).column
    }

    /// The lists of the documents whose number or ordinal lies in `low..=high`, one for each distinct number or ordinal
    /// that a document has. No list is empty, and no document is in two lists.
    pub fn lists_between(&self, field: usize, low: u64, high: u64) -> ListRange<'_>
        requires { is_ordered_field self.now.schema field ≡ true }
        ensures numbers { is_number_field self.now.schema field ≡ true
            → AreBetween (column self.now field) low high (lists_in_range result) }
        ensures ordinals { is_number_field self.now.schema field ≡ false
            → AreBetween (ordinals self.now field) low high (lists_in_range result) }
    {
        self.ordered(field).lists_between(low, high)
    }

    /// The number of documents whose number or ordinal lies in `low..=high`. O(log n): no list is read.
    pub fn documents_between(&self, field: usize, low: u64, high: u64) -> usize
        requires { is_ordered_field self.now.schema field ≡ true }
        ensures numbers { is_number_field self.now.schema field ≡ true
            → result ≡ count_between low high (column self.now field) }
        ensures ordinals { is_number_field self.now.schema field ≡ false
            → result ≡ count_between low high (ordinals self.now field) }
    {
        self.ordered(field).documents_between(low, high)
    }

    /// The sorted numbers of a number field, or the ordinals of a keyword field.
    fn ordered(&self, field: usize) -> SortedColumn<'_>
        requires { is_ordered_field self.now.schema field ≡ true }
        ensures is { IsOrdered (column_in self.now field) result }
        ensures fit { (kind : Kind) → kind_at self.now.schema field ≡ Some kind
            → NumbersFit kind field self.now.documents }
    {
        let stored: &SegmentData = &self.stored;
        stored.fields[field]
            .index
            .ordered(stored.schema.kind(field))
    }

    /// The dictionary of a text or keyword field.
    pub(crate) fn dictionary(&self, field: usize) -> &Dictionary
        requires { option_map_or holds_numbers (kind_at self.now.schema field) true ≡ false }
        ensures { (kind : Kind) → kind_at self.now.schema field ≡ Some kind
            → AreTerms kind (values_in field self.now.documents) result.now }
    {
        let stored: &SegmentData = &self.stored;
        stored.fields[field]
            .index
            .dictionary(stored.schema.kind(field))
    }

    /// The keyword of an ordinal; none past the last ordinal.
    pub fn keyword(&self, field: usize, ordinal: u64) -> Option<&str>
        requires { kind_at self.now.schema field ≡ Some kinds.Keyword }
        ensures { option_copied result ≡ slice_get (keywords self.now field) ordinal }
    {
        let name = self.dictionary(field).name(ordinal as usize)?;
        match str::from_utf8(name) {
            Ok(keyword) => Some(keyword),
            // A name is bytes to contracts, so they can't rule this out.
            Err(_) => self.keyword_of_document(field, ordinal as usize),
        }
    }

    /// The keyword of an ordinal, borrowed from a document that has it; none past the last ordinal.
    fn keyword_of_document(&self, field: usize, ordinal: usize) -> Option<&str>
        requires { kind_at self.now.schema field ≡ Some kinds.Keyword }
        ensures { option_copied result ≡ slice_get (keywords self.now field) ordinal }
    {
        let doc = self.dictionary(field).document_with(ordinal)?;
        text_of(self.document(doc as usize).value(field)?)
    }

    /// The ordinals around a text: the number of the segment's distinct keywords of the field before it, and the number
    /// of those not after it. The two are equal if no document has the text.
    pub fn equal_range(&self, field: usize, text: &str) -> (u64, u64)
        requires { kind_at self.now.schema field ≡ Some kinds.Keyword }
        ensures before { result.0 ≡ before (keywords self.now field) text.now }
        ensures up_to { result.1 ≡ up_to (keywords self.now field) text.now }
    {
        let (before, up_to) = equal_range(&self.dictionary(field).names, text.as_bytes());
        (before as u64, up_to as u64)
    }
}

impl Clone for Segment {
    ghost is_clone = { λ segment copy. copy ≡ segment };

    fn clone(&self) -> Result<Self, AllocError> {
        Ok(Segment {
            stored: Arc::try_clone(&self.stored)?,
        })
    }
}

/// The text of a value, if it is one.
fn text_of(value: &FieldValue) -> Option<&str>
    ensures { option_copied result ≡ text_in_value value.now }
{
    match value {
        FieldValue::Text(text) => Some(text.as_str()),
        FieldValue::Texts(_) | FieldValue::Number(_) => None,
    }
}
