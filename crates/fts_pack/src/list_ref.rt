// A list of documents among others.
ghost use Rattle.std.specs.Prelude.{◌≡◌, ◌≤◌, length, take};
ghost use Rattle.std.specs.List.Sorted.{IsStrictlyIncreasing};
ghost use Rattle.fts_pack.specs.StoredList.{IsStoredAsSaid, IsStoredAsSaid-prop, documents_stored};

use crate::bits::Bits;
use crate::block::BLOCK;
use crate::list_source::ListSource;
use crate::packed_block::PackedBlock;
use crate::stored_list::StoredList;

/// A strictly rising list of documents, borrowed from where it is stored. A copy of it costs nothing.
#[derive(Clone, Copy)]
pub struct ListRef<'a> {
    stored: StoredList<'a>,
    ghost form: { IsStoredAsSaid stored } by { IsStoredAsSaid-prop stored },
    ghost rises: { IsStrictlyIncreasing (documents_stored stored) },
}

/// Writes the documents to the front of `out` and returns their count.
fn copy_plain(documents: &[u32], out: &mut [u32; 128]) -> usize
    requires { length documents.now ≤ 64 }
    ensures count { result ≡ length documents.now }
    ensures documents { take result out.new ≡ documents.now }
{
    out[..documents.len()].copy_from_slice(documents);
    documents.len()
}

impl<'a> ListRef<'a> {
    ghost use Rattle.std.specs.Prelude.{◌≡◌, ℕ, ◌*◌, ◌^◌, ◌<◌, ◌≤◌, ◌==◌, ◌↔◌, [], IfSome, IsNone, false, length};
    ghost use Rattle.std.specs.Prelude.{slice_index_or, take};
    ghost use Rattle.std.specs.List.{list_any};
    ghost use Rattle.std.specs.List.Sorted.{IsStrictlyIncreasing};
    ghost use Rattle.fts_pack.specs.bits.Digits.{IsWidthOf};
    ghost use Rattle.fts_pack.specs.Documents.{after, block_at, block_count, gaps, last_of};
    ghost use Rattle.fts_pack.specs.FourLanes.{words_in_lanes};
    ghost use Rattle.fts_pack.specs.ListRef.{listed};
    ghost use Rattle.fts_pack.specs.ListSource.{documents_in, openings_of};
    ghost use Rattle.fts_pack.specs.StoredList.{IsStoredAsSaid, documents_stored};

    pub(crate) fn new(stored: StoredList<'a>) -> ListRef<'a>
        requires form { IsStoredAsSaid stored }
        requires rises { IsStrictlyIncreasing (documents_stored stored) }
        ensures { listed result ≡ documents_stored stored.entry }
    {
        ListRef { stored }
    }

    /// The number of documents.
    pub fn len(self) -> usize
        ensures { result ≡ length (listed self.entry) }
    {
        match self.stored {
            StoredList::Plain(documents) => documents.len(),
            StoredList::Packed(list, _) => list.len(),
        }
    }

    /// Whether there is no document.
    pub fn is_empty(self) -> bool
        ensures { result ≡ (length (listed self.entry) == 0) }
    {
        self.len() == 0
    }

    pub(crate) fn blocks(self) -> usize
        ensures { result ≡ block_count (length (listed self.entry)) }
    {
        self.len().div_ceil(BLOCK)
    }

    pub(crate) fn last(self, block: usize) -> u32
        requires { block < block_count (length (listed self)) }
        ensures { result ≡ last_of (block_at (listed self.entry) block) }
    {
        match self.stored {
            StoredList::Plain(documents) => documents[documents.len() - 1],
            StoredList::Packed(list, _) => list.last(block),
        }
    }

    pub(crate) fn open(self, block: usize, out: &mut [u32; 128]) -> usize
        requires { block < block_count (length (listed self)) }
        ensures count { result ≡ length (block_at (listed self.entry) block) }
        ensures documents { take result out.new ≡ block_at (listed self.entry) block }
    {
        match self.stored {
            StoredList::Plain(documents) => copy_plain(documents, out),
            StoredList::Packed(list, _) => list.open(block, out),
        }
    }

    /// A reader of the list's blocks, none of which was opened yet.
    pub fn source(self) -> ListSource<'a>
        ensures documents { documents_in result ≡ listed self.entry }
        ensures unopened { openings_of result ≡ 0 }
    {
        ListSource::over(self)
    }

    /// A bit for each document up to the last, if the list is dense.
    pub fn bits(self) -> Option<&'a Bits>
        ensures tells { IfSome result (λ bits. (d : ℕ) →
            slice_index_or bits.now d false ≡ list_any (λ x. x == d) (listed self.entry)) }
        ensures few { IfSome result (λ bits. length bits.now ≤ 2 ^ 32) }
    {
        match self.stored {
            StoredList::Plain(_) => None,
            StoredList::Packed(_, bits) => bits,
        }
    }

    /// How a block of a list of over 64 documents is packed; none if the list is shorter.
    pub fn packed(self, block: usize) -> Option<PackedBlock<'a>>
        requires { block < block_count (length (listed self)) }
        ensures short { IsNone result ↔ (length (listed self.entry) ≤ 64) }
        ensures width { IfSome result (λ b.
            IsWidthOf (gaps (after 0 (take (block * 128) (listed self.entry))) (block_at (listed self.entry) block))
            b.width) }
        ensures words { IfSome result (λ b. b.words.now ≡ words_in_lanes b.width
            (gaps (after 0 (take (block * 128) (listed self.entry))) (block_at (listed self.entry) block))) }
        ensures last { IfSome result (λ b. b.last ≡ last_of (block_at (listed self.entry) block)) }
    {
        match self.stored {
            StoredList::Plain(_) => None,
            StoredList::Packed(list, _) => Some(list.packed(block)),
        }
    }
}
