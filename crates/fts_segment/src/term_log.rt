// A log of the occurrences of terms in documents.
ghost use Rattle.std.specs.Prelude.{◌≡◌, ◌<◌, length, map, All};
ghost use Rattle.fts_segment.specs.TermLogs.{by_ordinal};

use crate::dictionary::Dictionary;
use crate::postings_writer::write_terms;
use crate::sorted_names::{SortedNames, sort_names};
use crate::term_groups::TermGroups;
use crate::term_ids::TermIds;
use fts_base::release;
use std::alloc::{AllocError, Global};
use std::marker::Model;

/// An occurrence of a term, by its id, in a document at a position.
#[derive(Clone, Copy)]
pub(crate) struct Occurrence {
    pub(crate) term: u32,
    pub(crate) doc: u32,
    pub(crate) position: u32,
}

/// The occurrences of terms, in the order in which they were logged. Contracts see them as a list.
#[derive(Drop)]
pub(crate) struct TermLog {
    terms: TermIds,
    log: Vec<Occurrence>,
}

impl Model for TermLog {
    ghost use Rattle.std.specs.Prelude.{List};
    ghost use Rattle.fts_segment.specs.Occurrences.{OccurrenceValue};

    ghost Value = { List OccurrenceValue };

    ghost use Rattle.fts_segment.specs.TermLogs.{occurrence_values, AreNamed};

    ghost view = { λ t. occurrence_values t.terms t.log.items };

    ghost invariant = { λ t. AreNamed t.terms t.log.items };
}

impl TermLog {
    ghost use Rattle.std.specs.Prelude.{◌≡◌, ◌++◌, ◌∷◌, [], ℕ, List, All, OnOk, IfOk};
    ghost use Rattle.std.specs.List.Sorted.{IsStrictlyIncreasing};
    ghost use Rattle.fts_segment.specs.Occurrences.{docs_with};
    ghost use Rattle.fts_segment.specs.Dictionaries.{IsDictionaryOf};
    ghost use Rattle.fts_segment.specs.Positions.{position_lists_with};
    ghost use Rattle.fts_positions.specs.PositionLists.{IsPositionList};

    /// An empty log.
    pub(crate) fn new(alloc: Global) -> TermLog
        ensures { result ≡ [] }
    {
        TermLog {
            terms: TermIds::new(alloc),
            log: Vec::new(alloc),
        }
    }

    /// Appends an occurrence.
    pub(crate) fn push(&mut self, term: &str, doc: u32, position: u32) -> Result<(), AllocError>
        ensures { OnOk result (self.new
            ≡ self.old ++ record { term = term.now; doc = doc; position = position } ∷ []) }
    {
        let number = self.terms.id_of(term)?;
        // 2^32 terms take over 100 GB, so an id that doesn't fit 32 bits is refused as out of memory.
        let Ok(term) = u32::try_from(number) else {
            return Err(AllocError);
        };
        self.log.push(Occurrence {
            term,
            doc,
            position,
        })?;
        Ok(())
    }

    /// The dictionary of the logged terms: in order, each with the list of its documents and its positions in them.
    pub(crate) fn dictionary(self, alloc: Global) -> Result<Dictionary, AllocError>
        requires rise { (q : List ℕ) → IsStrictlyIncreasing (docs_with q self) }
        requires positions { (q : List ℕ) → All IsPositionList (position_lists_with q self) }
        ensures { IfOk result
            (λ dictionary. IsDictionaryOf self dictionary.names dictionary.lists dictionary.positions) }
    {
        let TermLog { terms, mut log } = self;
        let terms = terms.into_names();
        let SortedNames { names, ordinals } = sort_names(alloc, &terms)?;
        put_in_order(&mut log, &ordinals);
        let groups = TermGroups::new(alloc, &log, names.len())?;
        // The log and the groups are the largest buffers, so each is freed before more is allocated.
        release(log);
        let writer = write_terms(alloc, &names, &groups)?;
        groups.release();
        release(names);
        release(ordinals);
        let dictionary = writer.finish(alloc)?;
        Ok(dictionary)
    }
}

/// Replaces the id of each occurrence's term by the rank of its name.
fn put_in_order(log: &mut [Occurrence], ordinals: &[u32])
    requires { All (λ occurrence. occurrence.term < length ordinals.now) log.old }
    ensures { log.new ≡ map (by_ordinal ordinals.now) log.old }
{
    for occurrence in log.iter_mut() {
        occurrence.term = ordinals[occurrence.term as usize];
    }
}
