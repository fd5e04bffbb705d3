//! Laws that tie the definitions to each other: each contract is a law, and the body is empty.
ghost use Rattle.std.specs.Prelude.{◌≡◌, ◌<◌, ◌≤◌, ◌++◌, ℕ, true, Bool, List, Some, All, AllPairs, count_by, filter};
ghost use Rattle.std.specs.Prelude.{flat_map, length, slice_get, ◌≢◌};
ghost use Rattle.fts_model.specs.declared.schema.Field.{Field};
ghost use Rattle.fts_model.specs.declared.operation.Op.{Op};
ghost use Rattle.fts_model.specs.declared.operation.Stamped.{Stamped};
ghost use Rattle.fts_model.specs.Documents.{DocumentValue};
ghost use Rattle.fts_model.specs.Operations.{survives};
ghost use Rattle.fts_segment.specs.Contents.{content};
ghost use Rattle.fts_merge.specs.Strikes.{bits_after};
ghost use Rattle.fts_merge.specs.declared.merge_policy.MergePolicy.{MergePolicy};
ghost use Rattle.fts_merge.specs.declared.merge_policy.SegmentSize.{SegmentSize};
ghost use Rattle.fts_merge.specs.Levels.{candidates, candidates_by, is_mostly_dead, is_named, live_sizes, together};
ghost use Rattle.fts_merge.specs.Levels.{usual};
ghost use Rattle.fts_merge.specs.Merges.{SourceValue, HasBits, IsMerged, contents, live_count, merge_of, origins_from};
ghost use Rattle.fts_merge.specs.declared.origin.Origin.{Origin};

/// To apply the deletes of operations, and then those of more, is to apply those of all of them.
pub fn strikes_go_on()
    ensures { (schema : List Field) (ops more : List (Stamped Op))
        (documents : List (Stamped DocumentValue)) (live : List Bool) →
        bits_after schema more documents (bits_after schema ops documents live)
        ≡ bits_after schema (ops ++ more) documents live }
{}

/// Applying deletes leaves one bit per document, and sets none.
pub fn strikes_keep_the_documents()
    ensures { (schema : List Field) (ops : List (Stamped Op))
        (documents : List (Stamped DocumentValue)) (live : List Bool) →
        length live ≡ length documents →
        length (bits_after schema ops documents live) ≡ length documents }
{}

/// After deletes are applied, a segment's content is the part of it that survives.
pub fn content_after_a_strike()
    ensures { (schema : List Field) (ops : List (Stamped Op))
        (documents : List (Stamped DocumentValue)) (live : List Bool) →
        content documents (bits_after schema ops documents live)
        ≡ filter (survives schema ops) (content documents live) }
{}

/// A segment has as many live documents as set bits.
pub fn live_bits_count_the_content()
    ensures { (documents : List (Stamped DocumentValue)) (live : List Bool) →
        length live ≡ length documents →
        length (content documents live) ≡ count_by (λ bit. bit) live }
{}

/// The contents of segments together have as many documents as the segments have live ones.
pub fn live_bits_count_the_contents()
    ensures { (sources : List SourceValue) → All HasBits sources →
        length (contents sources) ≡ live_count sources }
{}

/// Each document of a merged segment has one origin, and no two have the same.
pub fn a_merge_tells_each_origin_once()
    ensures { (sources : List SourceValue) → All HasBits sources → IsMerged (merge_of sources) }
{}

/// Each live document of a source is in the merged segment, with its origin at the same index.
pub fn each_live_document_is_merged()
    ensures { (sources : List SourceValue) (number : ℕ) (source : SourceValue) (document : ℕ) →
        All HasBits sources → slice_get sources number ≡ Some source →
        slice_get source.live document ≡ Some true →
        (place : ℕ) × (slice_get (origins_from 0 sources) place
        ≡ Some (record { source = number; document = document }))
        × (slice_get (contents sources) place ≡ slice_get source.segment.documents document) }
{}

/// Each document of a merged segment is the live document that its origin names.
pub fn each_merged_document_was_live()
    ensures { (sources : List SourceValue) (place : ℕ) (origin : Origin) → All HasBits sources →
        slice_get (origins_from 0 sources) place ≡ Some origin →
        (source : SourceValue) × (slice_get sources origin.source ≡ Some source)
        × (slice_get source.live origin.document ≡ Some true)
        × (slice_get source.segment.documents origin.document
        ≡ slice_get (contents sources) place) }
{}

/// Each candidate for these sizes has at least eight of their indexes, and no index is in two candidates or twice in
/// one.
pub fn candidates_name_each_size_once()
    ensures many { (sizes : List ℕ) → All (λ candidate. 8 ≤ length candidate) (candidates sizes) }
    ensures within { (sizes : List ℕ) →
        All (λ index. index < length sizes) (flat_map (λ candidate. candidate) (candidates sizes)) }
    ensures once { (sizes : List ℕ) →
        AllPairs (λ i j. i ≢ j) (flat_map (λ candidate. candidate) (candidates sizes)) }
{}

/// The candidates of a policy have indexes of the given segments, none of them twice. Each candidate for a level has as
/// many members as the policy requires, and no segment with too many deleted documents is left out. With the usual
/// policy they are the candidates for the live sizes alone.
pub fn a_policy_names_each_segment_once()
    ensures many { (policy : MergePolicy) (segments : List SegmentSize) →
        All (λ candidate. policy.members ≤ length candidate) (together policy (live_sizes segments)) }
    ensures within { (policy : MergePolicy) (segments : List SegmentSize) →
        All (λ index. index < length segments) (flat_map (λ candidate. candidate) (candidates_by policy segments)) }
    ensures once { (policy : MergePolicy) (segments : List SegmentSize) →
        AllPairs (λ i j. i ≢ j) (flat_map (λ candidate. candidate) (candidates_by policy segments)) }
    ensures dead { (policy : MergePolicy) (segments : List SegmentSize) (index : ℕ) (segment : SegmentSize) →
        slice_get segments index ≡ Some segment → is_mostly_dead policy.dead segment ≡ true →
        is_named (candidates_by policy segments) index ≡ true }
    ensures usual { (segments : List SegmentSize) →
        candidates_by usual segments ≡ candidates (live_sizes segments) }
{}
