// Merges the dictionaries of the live documents of segments.
ghost use Rattle.std.specs.Prelude.{◌≡◌, ℕ, ◌+◌, ◌<◌, ◌≤◌, ◌^◌, ◌++◌, true, false, All, List, Some, count_by, length};
ghost use Rattle.std.specs.Prelude.{IfOk, OnOk, replicate};
ghost use Rattle.fts_model.specs.Documents.{DocumentValue};
ghost use Rattle.fts_model.specs.declared.operation.Stamped.{Stamped};
ghost use Rattle.fts_model.specs.declared.schema.Kind.{Kind};
ghost use Rattle.fts_model.specs.Limits.{most_merged};
ghost use Rattle.fts_model.specs.Operations.{kind_at};
ghost use Rattle.fts_model.specs.Schemas.{holds_numbers};
ghost use Rattle.fts_segment.specs.FieldIndexes.{AreTerms, AreTermsOf};
ghost use Rattle.fts_segment.specs.Occurrences.{values_in, HasFewTokens};
ghost use Rattle.fts_segment.specs.Parts.{AreParts, IsPart, IsWhole, part_from, renumbered};
ghost use Rattle.fts_segment.specs.Sources.{contents, live_count, HasBits};

use crate::dictionary::Dictionary;
use crate::doc_map::DocMap;
use crate::live_segment::LiveSegment;
use crate::term_merge::merge_terms;
use crate::term_stream::TermStream;
use fts_model::Kind;
use fts_pack::bits::Bits;
use std::alloc::{AllocError, Global};

/// The term stream of a source in a field; the source's first live document gets the number `next`.
fn stream_of<'a>(
    alloc: Global,
    source: &LiveSegment<'a>,
    field: usize,
    kind: Kind,
    next: usize,
) -> Result<TermStream<'a>, AllocError>
    requires kind { kind_at source.now.segment.schema field ≡ Some kind }
    requires terms { holds_numbers kind ≡ false }
    requires room { next + count_by (λ bit. bit) source.now.live < 2 ^ 32 }
    ensures is { IfOk result (IsPart kind field next source.now) }
    ensures few { OnOk result (All (HasFewTokens kind) (values_in field source.now.segment.documents)) }
    ensures bits { HasBits source.now }
{
    let terms = source.segment().dictionary(field);
    let numbers = DocMap::new(alloc, next as u32, source.live())?;
    Ok(TermStream::new(terms, numbers))
}

/// The term streams of sources in a field.
fn streams_of<'a>(
    alloc: Global,
    sources: &[LiveSegment<'a>],
    field: usize,
    kind: Kind,
) -> Result<Vec<TermStream<'a>>, AllocError>
    requires kinds { All (λ source. kind_at source.segment.schema field ≡ Some kind) sources.now }
    requires terms { holds_numbers kind ≡ false }
    requires few { live_count sources.now ≤ most_merged }
    ensures are { IfOk result (λ parts. AreParts kind field 0 sources.now parts.items) }
    ensures few { OnOk result
        (All (λ source. All (HasFewTokens kind) (values_in field source.segment.documents)) sources.now) }
    ensures bits { OnOk result (All HasBits sources.now) }
{
    let mut parts = Vec::with_capacity(alloc, sources.len())?;
    let mut next = 0;
    for source in sources {
        parts.push(stream_of(alloc, source, field, kind, next)?)?;
        next += source.live().count_ones();
    }
    Ok(parts)
}

/// The number of live documents of sources.
fn live_docs(sources: &[LiveSegment<'_>]) -> usize
    requires { live_count sources.now ≤ most_merged }
    ensures { result ≡ length (contents sources.now) }
{
    let mut docs = 0;
    for source in sources {
        docs += source.live().count_ones();
    }
    docs
}

/// The term stream of a dictionary of this many documents, which get the numbers from `next`.
fn whole_stream<'a>(
    alloc: Global,
    dictionary: &'a Dictionary,
    next: usize,
    docs: usize,
) -> Result<TermStream<'a>, AllocError>
    requires room { next + docs < 2 ^ 32 }
    requires whole { IsWhole dictionary.now (renumbered next (replicate docs true)) }
    ensures { IfOk result (λ stream. stream
        ≡ part_from 0 dictionary.entry.now (renumbered next (replicate docs true))) }
{
    let Ok(live) = Bits::all_set(alloc, docs) else {
        return Err(AllocError);
    };
    let numbers = DocMap::new(alloc, next as u32, &live)?;
    Ok(TermStream::new(dictionary, numbers))
}

/// The dictionary of the documents of two, of which each has this many: those of `front` and then those of `back`.
fn merge_halves(
    alloc: Global,
    front: &Dictionary,
    front_docs: usize,
    back: &Dictionary,
    back_docs: usize,
) -> Result<Dictionary, AllocError>
    requires room { front_docs + back_docs < 2 ^ 32 }
    requires are { (kind : Kind) × (field : ℕ) × (xs : List (Stamped DocumentValue))
        × (ys : List (Stamped DocumentValue))
        × AreTermsOf kind field xs front_docs front.now × AreTermsOf kind field ys back_docs back.now }
    ensures { (kind : Kind) (field : ℕ) (xs ys : List (Stamped DocumentValue))
        → AreTermsOf kind field xs front_docs front.now → AreTermsOf kind field ys back_docs back.now
        → IfOk result (AreTerms kind (values_in field (xs ++ ys))) }
{
    let first = whole_stream(alloc, front, 0, front_docs)?;
    let second = whole_stream(alloc, back, front_docs, back_docs)?;
    let mut parts = [first, second];
    let dictionary = merge_terms(alloc, &mut parts)?;
    Ok(dictionary)
}

/// The greatest number of dictionaries that are merged at once: the next terms of all of them are compared to find the
/// first.
const MOST_AT_ONCE: usize = 16;

/// The dictionary of the live documents of sources in a text or keyword field. If there are more than 16, that of each
/// half is made first, so that a term is compared with few others.
pub(crate) fn merge_dictionaries(
    alloc: Global,
    sources: &[LiveSegment<'_>],
    field: usize,
    kind: Kind,
) -> Result<Dictionary, AllocError>
    requires kinds { All (λ source. kind_at source.segment.schema field ≡ Some kind) sources.now }
    requires terms { holds_numbers kind ≡ false }
    requires few { live_count sources.now ≤ most_merged }
    ensures { IfOk result (AreTerms kind (values_in field (contents sources.now))) }
{
    if sources.len() <= MOST_AT_ONCE {
        let mut parts = streams_of(alloc, sources, field, kind)?;
        let dictionary = merge_terms(alloc, &mut parts)?;
        return Ok(dictionary);
    }
    let (front, back) = sources.split_at(sources.len() / 2);
    let front_terms = merge_dictionaries(alloc, front, field, kind)?;
    let back_terms = merge_dictionaries(alloc, back, field, kind)?;
    let dictionary = merge_halves(
        alloc,
        &front_terms,
        live_docs(front),
        &back_terms,
        live_docs(back),
    )?;
    Ok(dictionary)
}
