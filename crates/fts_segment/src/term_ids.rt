// Assigns ids to terms.
ghost use Rattle.std.specs.Prelude.{◌≡◌, [], Some, IfOk, slice_get};
ghost use Rattle.fts_segment.specs.Numberings.{GoesOn};

use crate::id_cache::{IdCache, hash_of};
use crate::names::{Name, Names};
use std::alloc::{AllocError, Global};
use std::marker::Model;

/// Assigns ids to terms as they come. A term may get several ids if the cache forgot one; sorting unites them.
/// Contracts see the list of the terms' bytes, by id.
#[derive(Drop)]
pub(crate) struct TermIds {
    alloc: Global,
    names: Names,
    /// The ids of most terms, by a hash. Some are forgotten if terms were chosen to crowd each other out.
    guesses: IdCache,
}

impl Model for TermIds {
    ghost use Rattle.std.specs.Prelude.{List, ℕ};

    ghost Value = { List (List ℕ) };

    ghost view = { λ t. t.names };
}

impl TermIds {
    /// No term has an id yet.
    pub(crate) fn new(alloc: Global) -> TermIds
        ensures { result ≡ [] }
    {
        TermIds {
            alloc,
            names: Names::new(alloc),
            guesses: IdCache::new(alloc),
        }
    }

    /// The terms in the order of their ids.
    pub(crate) fn into_names(self) -> Names
        ensures { result ≡ self }
    {
        self.guesses.release();
        self.names
    }

    /// The id of a term; a new one if the cache doesn't find it.
    pub(crate) fn id_of(&mut self, term: &str) -> Result<usize, AllocError>
        ensures ok { IfOk result (λ id. slice_get self.new id ≡ Some term.now) }
        ensures stay { GoesOn self.old self.new }
    {
        let name = term.as_bytes();
        let hash = hash_of(name);
        if let Some(id) = self.guesses.find(&self.names, hash, name) {
            return Ok(id);
        }
        let id = self.names.len();
        self.names.push(&Name::new(name))?;
        self.guesses.put(self.alloc, hash, id);
        Ok(id)
    }
}
