// A stream of a dictionary's terms, which is merged with others.
ghost use Rattle.std.specs.Prelude.{◌≡◌, drop, slice_get, OnOk};
ghost use Rattle.fts_segment.specs.Parts.{begins, given, passed, part_from, IsWhole};
ghost use Rattle.fts_positions.specs.PositionListLogs.{IsPositionListLog};
ghost use Rattle.fts_segment.specs.Puts.{Puts};

use crate::copy_postings::copy_postings;
use crate::dictionary::Dictionary;
use crate::doc_map::DocMap;
use crate::names::Name;
use fts_pack::BLOCK;
use fts_positions::{PositionCopier, PositionListLog};
use std::alloc::AllocError;
use std::marker::Model;

/// A cursor over the remaining terms of a source's dictionary, with its documents renumbered. Contracts see the
/// remaining terms with their postings, and the new numbers.
#[derive(Drop)]
pub(crate) struct TermStream<'a> {
    dictionary: &'a Dictionary,
    numbers: DocMap,
    at: usize,
    /// The next term.
    term: Option<Name<'a>>,
    lists: PositionCopier<'a>,
    /// A scratch buffer for a block of documents.
    room: [u32; BLOCK],
}

impl<'a> Model for TermStream<'a> {
    ghost use Rattle.fts_segment.specs.Parts.{TermStreamValue, IsPartOf, part_from};

    ghost Value = { TermStreamValue };

    ghost view = { λ p. part_from p.at p.dictionary.now p.numbers };

    ghost invariant = { λ p. IsPartOf p.at p.dictionary.now p.numbers p.term p.lists };
}

/// The term of this number, if there is one.
fn term_at(dictionary: &Dictionary, at: usize) -> Option<Name<'_>>
    ensures { result ≡ slice_get (drop at dictionary.now.names) 0 }
{
    if at < dictionary.names.len() {
        Some(dictionary.names.name(at))
    } else {
        None
    }
}

impl<'a> TermStream<'a> {
    /// A stream at the first term of a dictionary.
    pub(crate) fn new(dictionary: &'a Dictionary, numbers: DocMap) -> TermStream<'a>
        requires { IsWhole dictionary.now numbers }
        ensures { result ≡ part_from 0 dictionary.now numbers }
    {
        TermStream {
            dictionary,
            numbers,
            at: 0,
            term: term_at(dictionary, 0),
            lists: dictionary.positions.unpacked(),
            room: [0; BLOCK],
        }
    }

    /// The numbers of terms and positions, for sizing the merged dictionary's buffers.
    pub(crate) fn size(&self) -> (usize, usize) {
        let Dictionary {
            names,
            positions,
            ..
        } = self.dictionary;
        (names.len(), positions.positions())
    }

    /// The next term, if one is left.
    pub(crate) fn term(&self) -> Option<Name<'a>>
        ensures { result ≡ slice_get self.now.names 0 }
    {
        match &self.term {
            Some(term) => Some(term.again()),
            None => None,
        }
    }

    /// Whether a term is the next one.
    fn is_next(&self, term: &Name<'_>) -> bool
        ensures { result ≡ begins term.now self.now.names }
    {
        match &self.term {
            Some(next) => next.is(term),
            None => false,
        }
    }

    /// Goes past a term, if it is the next one, and appends its postings: their documents to `docs`, and their
    /// positions to a log.
    pub(crate) fn take_term(
        &mut self,
        term: &Name<'_>,
        docs: &mut Vec<u32>,
        log: &mut PositionListLog,
    ) -> Result<(), AllocError>
        requires { IsPositionListLog log.old }
        ensures part { OnOk result (self.new ≡ passed term.now self.old) }
        ensures puts { OnOk result
            (Puts (given term.now self.old) docs.old.items log.old docs.new.items log.new) }
    {
        if self.is_next(term) {
            // Shows the proof that the number of terms is a `usize`.
            let _ = self.dictionary.lists.len();
            let list = self.dictionary.lists.get(self.at);
            let start = self.dictionary.lists.start(self.at);
            copy_postings(
                list,
                start,
                &self.numbers,
                &mut self.lists,
                &mut self.room,
                docs,
                log,
            )?;
            self.at += 1;
            self.term = term_at(self.dictionary, self.at);
        }
        Ok(())
    }
}
