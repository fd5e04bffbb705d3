// Makes one segment of the live documents of several.
ghost use Rattle.std.specs.Prelude.{◌≡◌, ◌≢◌, ◌↔◌, ◌<◌, ◌≤◌, ◌∷◌, ◌++◌, [], Err, All, IfOk, IfErr, OnOk, length, nat_lt};
ghost use Rattle.std.specs.Prelude.{if◌then◌else◌};
ghost use Rattle.fts_base.specs.declared.refusal.Refusal.TheVariants.{Memory, TooLarge};
ghost use Rattle.fts_model.specs.Limits.{most_merged};
ghost use Rattle.fts_merge.specs.Merges.{merge_of, origins_in, origins_from};
ghost use Rattle.fts_segment.specs.Sources.{HasBits, live_count, AreOfOneSchema};

use crate::join_by::join_by;
use crate::merged::Merged;
use crate::origin::Origin;
use fts_model::{MOST_MERGED, Refusal};
use fts_pack::bits::Bits;
use fts_pool::Gate;
use fts_segment::{LiveSegment, join};
use std::alloc::{AllocError, Global};
use std::sync::Wait;
use std::thread::Threads;

/// Whether there are more live documents than a merged segment may have.
fn is_too_large(sources: &[LiveSegment<'_>]) -> bool
    ensures { result ≡ nat_lt most_merged (live_count sources.now) }
{
    let mut room = MOST_MERGED;
    for source in sources {
        let live = source.live().count_ones();
        if live > room {
            return true;
        }
        room -= live;
    }
    false
}

/// Appends the origin of a document if it is live.
fn push_origin(origins: &mut Vec<Origin>, origin: Origin, live: bool) -> Result<(), AllocError>
    ensures { OnOk result
        (origins.new.items ≡ origins.old.items ++ (if live then origin ∷ [] else [])) }
{
    if live {
        origins.push(origin)?;
    }
    Ok(())
}

/// Appends the origins of the live documents of a source, by the source's index.
fn push_origins(origins: &mut Vec<Origin>, number: usize, live: &Bits) -> Result<(), AllocError>
    ensures { OnOk result
        (origins.new.items ≡ origins.old.items ++ origins_in number live.now) }
{
    for document in 0..live.len() {
        let origin = Origin {
            source: number,
            document,
        };
        push_origin(origins, origin, live.get(document))?;
    }
    Ok(())
}

/// The origins of the live documents of sources.
fn origins_of(alloc: Global, sources: &[LiveSegment<'_>]) -> Result<Vec<Origin>, AllocError>
    ensures origins { IfOk result (λ origins. origins.items ≡ origins_from 0 sources.now) }
    ensures bits { OnOk result (All HasBits sources.now) }
{
    let mut origins = Vec::new(alloc);
    for (number, source) in sources.iter().enumerate() {
        push_origins(&mut origins, number, source.live())?;
    }
    Ok(origins)
}

/// One segment of the live documents of one or more sources that have the same schema. The documents are in the order
/// of the sources, and those of a source in the order of their numbers. They are handles, and their terms are merged
/// from the sources' dictionaries: no text is copied, and none is read again.
///
/// It is refused as `TooLarge` if there are over 1,048,576 live documents; they are counted first.
pub fn merge(alloc: Global, sources: &[LiveSegment<'_>]) -> Result<Merged, Refusal>
    requires some { 0 < length sources.now }
    requires schemas { AreOfOneSchema sources.now }
    ensures ok { IfOk result (λ merged. merged ≡ merge_of sources.now) }
    ensures large { (result ≡ Err TooLarge) ↔ (most_merged < live_count sources.now) }
    ensures other { IfErr result (λ e. e ≢ TooLarge → e ≡ Memory) }
{
    if is_too_large(sources) {
        return Err(Refusal::TooLarge);
    }
    let origins = origins_of(alloc, sources)?;
    let segment = join(alloc, sources)?;
    Ok(Merged::new(segment, origins, sources.len()))
}

/// Merges as [`merge`] does, by up to this many threads, 1 to 64, the calling one among them: each field is a job. The
/// gate is called around each, by the number of the field.
pub fn merge_by<R: Threads + Wait + Sync, G: Gate>(
    rt: &R,
    alloc: Global,
    sources: &[LiveSegment<'_>],
    workers: usize,
    gate: &G,
) -> Result<Merged, Refusal>
    requires some { 0 < length sources.now }
    requires schemas { AreOfOneSchema sources.now }
    requires workers { (1 ≤ workers) × (workers ≤ 64) }
    ensures ok { IfOk result (λ merged. merged ≡ merge_of sources.now) }
    ensures large { (result ≡ Err TooLarge) ↔ (most_merged < live_count sources.now) }
    ensures other { IfErr result (λ e. e ≢ TooLarge → e ≡ Memory) }
{
    if is_too_large(sources) {
        return Err(Refusal::TooLarge);
    }
    let origins = origins_of(alloc, sources)?;
    let segment = join_by(rt, alloc, sources, workers, gate)?;
    Ok(Merged::new(segment, origins, sources.len()))
}
