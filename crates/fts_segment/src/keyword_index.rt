// The index of a keyword field: a dictionary, and the ordinal of each document's keyword.
ghost use Rattle.std.specs.Prelude.{◌≡◌, ◌<◌, ◌≤◌, ◌^◌, All, IfOk, List, Option, Some, length};
ghost use Rattle.fts_model.specs.declared.value.FieldValue.{FieldValue};
ghost use Rattle.fts_model.specs.declared.schema.Kind.TheVariants as kinds;
ghost use Rattle.fts_model.specs.Limits.{most_merged};
ghost use Rattle.fts_model.specs.Operations.{kind_at};
ghost use Rattle.fts_pack.specs.ListRef.{listed};
ghost use Rattle.fts_segment.specs.FieldIndexes.{AreKeywords, AreTerms};
ghost use Rattle.fts_segment.specs.Keywords.{with_ordinal};
ghost use Rattle.fts_segment.specs.Occurrences.{values_in};
ghost use Rattle.fts_segment.specs.Sources.{contents, live_count};
ghost use Rattle.fts_segment.specs.Between.{AreKeyed, NumberColumn};

use crate::dictionary::Dictionary;
use crate::live_segment::LiveSegment;
use fts_base::release;
use fts_model::{Document, Kind, Stamped};
use fts_pack::column::Column;
use fts_pack::{BLOCK, Blocks, ListRef, Lists};
use std::alloc::{AllocError, Global};

/// The index of a keyword field.
#[derive(Drop)]
pub(crate) struct KeywordIndex {
    /// The distinct keywords in order, each with its documents.
    pub(crate) dictionary: Dictionary,
    /// Each document's ordinal: the number of distinct smaller keywords.
    pub(crate) ordinals: Column,
}

impl KeywordIndex {
    /// The index of the documents in a keyword field. If they are the live ones of sources, the keywords are merged from
    /// theirs.
    pub(crate) fn new(
        alloc: Global,
        sources: &[LiveSegment<'_>],
        documents: &[Stamped<Document>],
        field: usize,
    ) -> Result<KeywordIndex, AllocError>
        requires fit { length documents.now < 2 ^ 32 }
        requires live { live_count sources.now ≤ most_merged }
        requires kinds { All (λ source. kind_at source.segment.schema field ≡ Some kinds.Keyword) sources.now }
        requires contents { 0 < length sources.now → documents.now ≡ contents sources.now }
        ensures { IfOk result (AreKeywords kinds.Keyword (values_in field documents.now)) }
    {
        let dictionary = Dictionary::new(alloc, sources, documents, field, Kind::Keyword)?;
        let index = KeywordIndex::of(alloc, documents.len(), dictionary)?;
        Ok(index)
    }

    /// Builds the index from a finished dictionary and the number of documents.
    fn of(alloc: Global, docs: usize, dictionary: Dictionary) -> Result<KeywordIndex, AllocError>
        requires few { docs < 2 ^ 32 }
        requires terms { (vs : List (Option FieldValue)) × (length vs ≡ docs) × AreTerms kinds.Keyword vs dictionary }
        ensures { (vs : List (Option FieldValue)) → length vs ≡ docs → AreTerms kinds.Keyword vs dictionary
            → IfOk result (AreKeywords kinds.Keyword vs) }
    {
        let ordinals = ordinals_by(alloc, &dictionary.lists, docs)?;
        let Ok(column) = Column::build(alloc, &ordinals) else {
            return Err(AllocError);
        };
        release(ordinals);
        Ok(KeywordIndex {
            dictionary,
            ordinals: column,
        })
    }
}

/// Sets the ordinal of documents.
fn set_ordinals(ordinals: &mut [Option<u64>], documents: &[u32], ordinal: u64)
    requires { All (λ doc. doc < length ordinals.old) documents.now }
    ensures { ordinals.new ≡ with_ordinal ordinal ordinals.old documents.now }
{
    for doc in documents {
        ordinals[*doc as usize] = Some(ordinal);
    }
}

/// Sets the ordinal of the documents of a list. `room` is a scratch buffer for a block.
fn set_ordinals_of(
    ordinals: &mut [Option<u64>],
    list: ListRef<'_>,
    ordinal: u64,
    room: &mut [u32; BLOCK],
)
    requires { All (λ doc. doc < length ordinals.old) (listed list) }
    ensures { ordinals.new ≡ with_ordinal ordinal ordinals.old (listed list.entry) }
{
    let mut source = list.source();
    for block in 0..source.blocks() {
        let count = source.open(block, room);
        set_ordinals(ordinals, &room[..count], ordinal);
    }
}

/// The ordinal of each document, derived from the dictionary's lists without looking at any text.
fn ordinals_by(alloc: Global, lists: &Lists, docs: usize) -> Result<Vec<Option<u64>>, AllocError>
    requires { (column : NumberColumn) × (length column ≡ docs) × AreKeyed column lists.now (λ k. k) }
    ensures { (column : NumberColumn) → length column ≡ docs → AreKeyed column lists.now (λ k. k)
        → IfOk result (λ ordinals. ordinals.items ≡ column) }
{
    let mut ordinals = vec![in alloc; None; docs]?;
    let mut room = [0; BLOCK];
    for ordinal in 0..lists.len() {
        set_ordinals_of(&mut ordinals, lists.get(ordinal), ordinal as u64, &mut room);
    }
    Ok(ordinals)
}
