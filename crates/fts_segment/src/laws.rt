//! Laws that tie the results of a segment to each other: each contract is a law, and the body is empty.
ghost use Rattle.std.specs.Prelude.{◌≡◌, ◌<◌, ℕ, List, Some, length, slice_get, slice_index};
ghost use Rattle.fts_model.specs.Documents.{DocumentValue};
ghost use Rattle.fts_model.specs.declared.operation.Stamped.{Stamped};
ghost use Rattle.fts_model.specs.declared.operation.Term.{Term};
ghost use Rattle.fts_segment.specs.Segments.{SegmentValue, postings, positions, positions_among, document_tokens};
ghost use Rattle.fts_model.specs.declared.value.FieldValue.TheVariants.{Text};

/// The positions of a posting are those of the term's tokens in the posting's document.
pub fn positions_are_of_postings()
    ensures { (segment : SegmentValue) (term : Term) (text : List ℕ) (k : ℕ)
        → term.value ≡ Text text → k < length (postings segment term)
        → (d : Stamped DocumentValue)
        × (slice_get segment.documents (slice_index (postings segment term) k) ≡ Some d)
        × (slice_get (positions segment term) k
        ≡ Some (positions_among text (document_tokens segment.schema term.field d.value))) }
{}
