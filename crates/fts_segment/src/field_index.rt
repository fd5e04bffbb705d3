// The index of a field: the terms of its texts, its keywords or its numbers.
ghost use Rattle.std.specs.Prelude.{◌≡◌, ◌≢◌, [], List, Option, None, ◌<◌, ◌≤◌, ◌^◌, length, IfOk, IfNone, IfSome};
ghost use Rattle.std.specs.Prelude.{All, Some, true, false};
ghost use Rattle.fts_model.specs.declared.value.FieldValue.{FieldValue};
ghost use Rattle.fts_segment.specs.FieldIndexes.{IsFieldIndex, AreTerms};
ghost use Rattle.fts_segment.specs.ListIds.{documents_in, positions_in};
ghost use Rattle.fts_segment.specs.Occurrences.{holds, values_in};
ghost use Rattle.fts_segment.specs.Segments.{numbers_where};
ghost use Rattle.fts_segment.specs.Positions.{value_position_lists};
ghost use Rattle.fts_segment.specs.SortedColumns.{IsOrdered, column_of};
ghost use Rattle.fts_model.specs.Limits.{most_merged};
ghost use Rattle.fts_model.specs.Operations.{kind_at};
ghost use Rattle.fts_model.specs.Schemas.{holds_numbers, is_ordered};
ghost use Rattle.fts_segment.specs.Sources.{contents, live_count};

use crate::dictionary::Dictionary;
use crate::keyword_index::KeywordIndex;
use crate::live_segment::LiveSegment;
use crate::number_index::{NumberIndex, number_in};
use crate::segment::ListId;
use crate::sorted_column::SortedColumn;
use fts_model::{Document, FieldValue, Kind, Stamped};
use std::alloc::{AllocError, Global};

/// The index of a field, by its kind.
#[derive(Drop)]
pub(crate) enum FieldIndex {
    Terms(Dictionary),
    Keywords(KeywordIndex),
    Numbers(NumberIndex),
}

impl FieldIndex {
    /// The index of a field of this kind. If the documents are the live ones of sources, the terms are merged from theirs.
    pub(crate) fn new(
        alloc: Global,
        sources: &[LiveSegment<'_>],
        documents: &[Stamped<Document>],
        field: usize,
        kind: Kind,
    ) -> Result<FieldIndex, AllocError>
        requires fit { length documents.now < 2 ^ 32 }
        requires live { live_count sources.now ≤ most_merged }
        requires kinds { All (λ source. kind_at source.segment.schema field ≡ Some kind) sources.now }
        requires contents { 0 < length sources.now → documents.now ≡ contents sources.now }
        ensures { IfOk result (λ index. IsFieldIndex kind (values_in field documents.now) index) }
    {
        match kind {
            Kind::Text => {
                let dictionary = Dictionary::new(alloc, sources, documents, field, kind)?;
                Ok(FieldIndex::Terms(dictionary))
            }
            Kind::Keyword => {
                let index = KeywordIndex::new(alloc, sources, documents, field)?;
                Ok(FieldIndex::Keywords(index))
            }
            Kind::U64 | Kind::I64 => {
                let index = NumberIndex::new(alloc, documents, field, kind)?;
                Ok(FieldIndex::Numbers(index))
            }
        }
    }

    /// The number of documents in its lists, each counted once per list.
    pub(crate) fn postings(&self) -> usize {
        let lists = match self {
            FieldIndex::Terms(dictionary) => &dictionary.lists,
            FieldIndex::Keywords(index) => &index.dictionary.lists,
            FieldIndex::Numbers(index) => &index.lists,
        };
        lists.start(lists.len())
    }

    /// The dictionary of a text or keyword field.
    pub(crate) fn dictionary(&self, kind: Kind) -> &Dictionary
        requires terms { holds_numbers kind ≡ false }
        requires is { (vs : List (Option FieldValue)) × IsFieldIndex kind vs self.now }
        ensures { (vs : List (Option FieldValue)) → IsFieldIndex kind vs self.now → AreTerms kind vs result.now }
    {
        match self {
            FieldIndex::Terms(dictionary) => dictionary,
            FieldIndex::Keywords(index) => &index.dictionary,
            FieldIndex::Numbers(_) => unreachable!(),
        }
    }

    /// The sorted numbers of a number field, or the ordinals of a keyword field.
    pub(crate) fn ordered(&self, kind: Kind) -> SortedColumn<'_>
        requires ordered { is_ordered kind ≡ true }
        requires is { (vs : List (Option FieldValue)) × IsFieldIndex kind vs self.now }
        ensures { (vs : List (Option FieldValue)) → IsFieldIndex kind vs self.now
            → IsOrdered (column_of kind vs) result }
    {
        match self {
            FieldIndex::Keywords(index) => SortedColumn {
                column: &index.ordinals,
                numbers: None,
                lists: &index.dictionary.lists,
            },
            FieldIndex::Numbers(index) => SortedColumn {
                column: &index.column,
                numbers: Some(index.numbers.as_slice()),
                lists: &index.lists,
            },
            FieldIndex::Terms(_) => unreachable!(),
        }
    }

    /// The list of a term, if a document has it.
    pub(crate) fn find(&self, kind: Kind, term: &FieldValue) -> Option<ListId<'_>>
        requires { (vs : List (Option FieldValue)) × IsFieldIndex kind vs self.now }
        ensures none { (vs : List (Option FieldValue)) → IsFieldIndex kind vs self.now
            → IfNone result (numbers_where (holds kind term.now) 0 vs ≡ []) }
        ensures some { IfSome result (λ list. documents_in list ≢ []) }
        ensures documents { (vs : List (Option FieldValue)) → IsFieldIndex kind vs self.now
            → IfSome result (λ list. documents_in list ≡ numbers_where (holds kind term.now) 0 vs) }
        ensures positions { (vs : List (Option FieldValue)) → IsFieldIndex kind vs self.now
            → IfSome result (λ list. positions_in list ≡ value_position_lists kind term.now vs) }
    {
        match self {
            FieldIndex::Terms(dictionary) => find_text(dictionary, kind, term),
            FieldIndex::Keywords(index) => find_text(&index.dictionary, kind, term),
            FieldIndex::Numbers(index) => index.find(number_in(kind, Some(term))?),
        }
    }
}

/// The list of a term of a text or keyword field, if a document has it.
fn find_text<'a>(dictionary: &'a Dictionary, kind: Kind, term: &FieldValue) -> Option<ListId<'a>>
    requires { (vs : List (Option FieldValue)) × AreTerms kind vs dictionary.now }
    ensures none { (vs : List (Option FieldValue)) → AreTerms kind vs dictionary.entry.now
        → IfNone result (numbers_where (holds kind term.now) 0 vs ≡ []) }
    ensures some { IfSome result (λ list. documents_in list ≢ []) }
    ensures documents { (vs : List (Option FieldValue)) → AreTerms kind vs dictionary.entry.now
        → IfSome result (λ list. documents_in list ≡ numbers_where (holds kind term.now) 0 vs) }
    ensures positions { (vs : List (Option FieldValue)) → AreTerms kind vs dictionary.entry.now
        → IfSome result (λ list. positions_in list ≡ value_position_lists kind term.now vs) }
{
    match term {
        FieldValue::Text(text) => dictionary.find(text.as_str()),
        FieldValue::Texts(_) | FieldValue::Number(_) => None,
    }
}
