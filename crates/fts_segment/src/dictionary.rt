// The dictionary of a field: its terms in order, each with the list of its documents and its positions in them.
ghost use Rattle.std.specs.Prelude.{◌≡◌, [], Contains, List, MatchOption, None, Option};
ghost use Rattle.fts_model.specs.declared.schema.Kind.TheVariants as kinds;
ghost use Rattle.fts_model.specs.declared.value.FieldValue.{FieldValue};
ghost use Rattle.fts_model.specs.Limits.{most_merged};
ghost use Rattle.fts_model.specs.Operations.{kind_at};
ghost use Rattle.fts_model.specs.Schemas.{holds_numbers};
ghost use Rattle.fts_pack.specs.ListRef.{listed};
ghost use Rattle.fts_segment.specs.FieldIndexes.{AreTerms, HasKeywordAt};
ghost use Rattle.fts_segment.specs.Keywords.{texts_of};

use crate::binary_search::find_name;
use crate::dictionary_merge::merge_dictionaries;
use crate::live_segment::LiveSegment;
use crate::names::Names;
use crate::segment::ListId;
use crate::token_log::log_of_field;
use fts_model::{Document, Kind, Stamped};
use fts_pack::{Blocks, ListRef, Lists};
use fts_positions::PositionLists;
use std::alloc::{AllocError, Global};

/// The terms of a field, with the documents of each and its positions in them.
#[derive(Drop)]
pub(crate) struct Dictionary {
    pub(crate) names: Names,
    pub(crate) lists: Lists,
    /// The positions in each document of the first list, then in each of the second, and so on.
    pub(crate) positions: PositionLists,
}

impl Dictionary {
    ghost use Rattle.std.specs.Prelude.{◌≡◌, ◌<◌, ◌≤◌, ◌^◌, [], ℕ, All, Some, IfOk, false, MatchOption};
    ghost use Rattle.std.specs.Prelude.{length, option_copied, slice_get, slice_index_or};
    ghost use Rattle.fts_segment.specs.Occurrences.{values_in};
    ghost use Rattle.fts_segment.specs.Sources.{contents, live_count};
    ghost use Rattle.fts_segment.specs.Sorted.{Ascends};
    ghost use Rattle.fts_segment.specs.ListIds.{documents_in, positions_in};
    ghost use Rattle.fts_segment.specs.Postings.{term_positions};

    /// The terms of the documents in a text or keyword field. If they are the live ones of sources, the terms are merged
    /// from theirs.
    pub(crate) fn new(
        alloc: Global,
        sources: &[LiveSegment<'_>],
        documents: &[Stamped<Document>],
        field: usize,
        kind: Kind,
    ) -> Result<Dictionary, AllocError>
        requires fit { length documents.now < 2 ^ 32 }
        requires live { live_count sources.now ≤ most_merged }
        requires kinds { All (λ source. kind_at source.segment.schema field ≡ Some kind) sources.now }
        requires contents { 0 < length sources.now → documents.now ≡ contents sources.now }
        requires terms { holds_numbers kind ≡ false }
        ensures { IfOk result (AreTerms kind (values_in field documents.now)) }
    {
        if !sources.is_empty() {
            return merge_dictionaries(alloc, sources, field, kind);
        }
        let log = log_of_field(alloc, documents, field, kind)?;
        log.dictionary(alloc)
    }

    /// The list of a term, if it is one of the names.
    pub(crate) fn find(&self, term: &str) -> Option<ListId<'_>>
        requires ascends { Ascends self.now.names }
        requires listed { length self.now.names ≡ length self.now.lists }
        ensures { MatchOption result ((i : ℕ) → slice_get self.now.names i ≡ Some term.now → ⊥)
            (λ list. (i : ℕ) × (slice_get self.now.names i ≡ Some term.now)
            × (documents_in list ≡ slice_index_or self.now.lists i [])
            × (positions_in list ≡ term_positions self.now.lists self.now.positions i)) }
    {
        let number = find_name(&self.names, term.as_bytes())?;
        // Reveals to the proof that the number after it is a `usize`.
        let _ = self.lists.len();
        Some(ListId {
            list: self.lists.get(number),
            positions: Some(&self.positions),
            start: self.lists.start(number),
            end: self.lists.start(number + 1),
        })
    }

    /// The name of this number, if there is one.
    pub(crate) fn name(&self, number: usize) -> Option<&[u8]>
        ensures { option_copied result ≡ slice_get self.now.names number }
    {
        if number < self.names.len() {
            Some(self.names.get(number))
        } else {
            None
        }
    }

    /// A document that has the keyword of an ordinal.
    pub(crate) fn document_with(&self, ordinal: usize) -> Option<u32>
        ensures { (vs : List (Option FieldValue)) → AreTerms kinds.Keyword vs self.now
            → MatchOption result (slice_get (texts_of kinds.Keyword vs) ordinal ≡ None)
            (λ doc. HasKeywordAt vs ordinal doc) }
    {
        if ordinal >= self.lists.len() {
            return None;
        }
        some_document(self.lists.get(ordinal))
    }
}

/// A document of a list. No block is opened.
fn some_document(list: ListRef<'_>) -> Option<u32>
    ensures { MatchOption result (listed list.entry ≡ []) (Contains (listed list.entry)) }
{
    if list.is_empty() {
        return None;
    }
    Some(list.source().last(0))
}
