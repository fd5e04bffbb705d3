// Merges term streams: all terms in order, each with the postings of every stream, one stream after the other.
ghost use Rattle.std.specs.Prelude.{◌≡◌, ◌++◌, ℕ, List, [], None, IfOk, OnOk, map, flat_map};
ghost use Rattle.std.specs.List.{AllByRecursion};
ghost use Rattle.std.specs.List.Sorted.{IsStrictlyIncreasing};
ghost use Rattle.fts_segment.specs.Dictionaries.{unless_none};
ghost use Rattle.fts_segment.specs.Parts.{given, passed, least_of, lesser, joined, IsSound, IsJoined};
ghost use Rattle.fts_positions.specs.PositionListLogs.{IsPositionListLog, logged_position_lists};
ghost use Rattle.fts_segment.specs.Postings.{documents, position_lists};
ghost use Rattle.fts_segment.specs.Puts.{Puts};

use crate::dictionary::Dictionary;
use crate::names::Name;
use crate::postings_writer::PostingsWriter;
use crate::term_stream::TermStream;
use fts_base::release;
use fts_positions::PositionListLog;
use std::alloc::{AllocError, Global};

/// The first in order of two optional terms.
fn first_of<'a>(least: Option<Name<'a>>, term: Option<Name<'a>>) -> Option<Name<'a>>
    ensures { result ≡ lesser least.entry term.entry }
{
    match (least, term) {
        (None, term) => term,
        (Some(least), None) => Some(least),
        (Some(least), Some(term)) => {
            if least.compare(&term).is_gt() {
                Some(term)
            } else {
                Some(least)
            }
        }
    }
}

/// The first in order of the streams' next terms.
fn least<'a>(parts: &[TermStream<'a>]) -> Option<Name<'a>>
    ensures { result ≡ least_of None parts.now }
{
    let mut least = None;
    for part in parts {
        least = first_of(least, part.term());
    }
    least
}

/// Takes a term from each stream whose next term it is, and appends the postings.
fn take_from_each(
    parts: &mut [TermStream<'_>],
    term: &Name<'_>,
    docs: &mut Vec<u32>,
    log: &mut PositionListLog,
) -> Result<(), AllocError>
    requires { IsPositionListLog log.old }
    ensures parts { OnOk result (parts.new ≡ map (passed term.now) parts.old) }
    ensures puts { OnOk result
        (Puts (flat_map (given term.now) parts.old) docs.old.items log.old docs.new.items log.new) }
{
    for part in parts {
        part.take_term(term, docs, log)?;
    }
    Ok(())
}

/// Merges one term and appends it, unless all its postings were deleted. `docs` is a scratch buffer.
fn merge_term(
    writer: &mut PostingsWriter,
    alloc: Global,
    docs: &mut Vec<u32>,
    parts: &mut [TermStream<'_>],
    term: &Name<'_>,
) -> Result<(), AllocError>
    requires rise { IsStrictlyIncreasing (documents (flat_map (given term.now) parts.old)) }
    requires is { IsPositionListLog writer.old.positions }
    ensures parts { OnOk result (parts.new ≡ map (passed term.now) parts.old) }
    ensures names { OnOk result (writer.new.names
        ≡ writer.old.names ++ unless_none (flat_map (given term.now) parts.old) term.now) }
    ensures lists { OnOk result (writer.new.lists ≡ writer.old.lists
        ++ unless_none (flat_map (given term.now) parts.old) (documents (flat_map (given term.now) parts.old))) }
    ensures positions { OnOk result (logged_position_lists writer.new.positions
        ≡ logged_position_lists writer.old.positions ++ position_lists (flat_map (given term.now) parts.old)) }
    ensures is { OnOk result (IsPositionListLog writer.new.positions) }
{
    docs.clear();
    take_from_each(parts, term, docs, &mut writer.positions)?;
    if docs.is_empty() {
        return Ok(());
    }
    writer.push(alloc, term, docs)?;
    Ok(())
}

/// A writer with capacity for the terms and positions of all streams, so that it seldom grows.
fn writer_for(alloc: Global, parts: &[TermStream<'_>]) -> Result<PostingsWriter, AllocError>
    ensures names { IfOk result (λ writer. writer.names ≡ []) }
    ensures lists { IfOk result (λ writer. writer.lists ≡ []) }
    ensures positions { IfOk result (λ writer. logged_position_lists writer.positions ≡ []) }
    ensures is { IfOk result (λ writer. IsPositionListLog writer.positions) }
{
    let mut terms = 0usize;
    let mut positions = 0usize;
    for part in parts {
        let (of_terms, of_positions) = part.size();
        terms = terms.saturating_add(of_terms);
        positions = positions.saturating_add(of_positions);
    }
    PostingsWriter::with_capacity(alloc, terms, positions)
}

/// The dictionary of streams: the terms that have a live posting, in order, each with the postings of every stream.
pub(crate) fn merge_terms(
    alloc: Global,
    parts: &mut [TermStream<'_>],
) -> Result<Dictionary, AllocError>
    requires sound { AllByRecursion IsSound parts.old }
    requires rise { (q : List ℕ) → IsStrictlyIncreasing (documents (joined parts.old q)) }
    ensures { IfOk result (λ dictionary. IsJoined parts.old
        dictionary.names dictionary.lists dictionary.positions) }
{
    let mut writer = writer_for(alloc, parts)?;
    let mut docs = Vec::new(alloc);
    while let Some(term) = least(parts) {
        merge_term(&mut writer, alloc, &mut docs, parts, &term)?;
    }
    release(docs);
    let dictionary = writer.finish(alloc)?;
    Ok(dictionary)
}
