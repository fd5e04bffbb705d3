// A strictly rising list of documents by itself.
ghost use Rattle.std.specs.Prelude.{◌≡◌};

use crate::bits::Bits;
use crate::list_ref::ListRef;
use crate::list_source::ListSource;
use crate::lists::Lists;
use fts_base::Refusal;
use std::alloc::{AllocError, Global};
use std::marker::Model;

/// A strictly rising list of documents.
#[derive(Drop)]
pub struct List {
    /// The list alone.
    lists: Lists,
}

impl Model for List {
    ghost use Rattle.std.specs.Prelude.{◌≡◌, [], length, slice_index_or};
    ghost use Rattle.fts_pack.specs.Documents.{DocumentNumbers};

    ghost Value = { DocumentNumbers };

    ghost view = { λ l. slice_index_or l.lists 0 [] };

    ghost invariant = { λ l. length l.lists ≡ 1 };
}

impl List {
    ghost use Rattle.std.specs.Prelude.{◌≡◌, ℕ, ◌^◌, ◌≤◌, ◌==◌, IfOk, IfSome, IsOkUnless, false, length};
    ghost use Rattle.std.specs.Prelude.{slice_index_or};
    ghost use Rattle.std.specs.List.{list_any};
    ghost use Rattle.std.specs.List.Sorted.{IsStrictlyIncreasing};
    ghost use Rattle.fts_pack.specs.ListRef.{listed};
    ghost use Rattle.fts_pack.specs.ListSource.{documents_in, openings_of};

    /// Packs the documents. Tests alone call it: the lists of a segment lie together, in [`Lists`].
    pub fn build(alloc: Global, documents: &[u32]) -> Result<List, Refusal>
        requires { IsStrictlyIncreasing documents.now }
        ensures ok { IfOk result (λ list. list ≡ documents.now) }
        ensures memory { IsOkUnless result Refusal.Memory }
    {
        let mut lists = Lists::new(alloc);
        match lists.push(alloc, documents) {
            Ok(()) => {
                lists.shrink_to_fit();
                Ok(List { lists })
            }
            Err(AllocError) => Err(Refusal::Memory),
        }
    }

    /// A reference to the list.
    pub fn as_list_ref(&self) -> ListRef<'_>
        ensures { listed result ≡ self.now }
    {
        self.lists.get(0)
    }

    /// The number of documents.
    pub fn len(&self) -> usize
        ensures { result ≡ length self.now }
    {
        self.as_list_ref().len()
    }

    /// Whether there is no document.
    pub fn is_empty(&self) -> bool
        ensures { result ≡ (length self.now == 0) }
    {
        self.len() == 0
    }

    /// A bit for each document up to the last, if the list is dense.
    pub fn bits(&self) -> Option<&Bits>
        ensures tells { IfSome result (λ bits. (d : ℕ) →
            slice_index_or bits.now d false ≡ list_any (λ x. x == d) self.now) }
        ensures few { IfSome result (λ bits. length bits.now ≤ 2 ^ 32) }
    {
        self.as_list_ref().bits()
    }

    /// A reader of the list's blocks, none of which was opened yet.
    pub fn source(&self) -> ListSource<'_>
        ensures documents { documents_in result ≡ self.now }
        ensures unopened { openings_of result ≡ 0 }
    {
        self.as_list_ref().source()
    }
}
