// Lists of documents in a few buffers: short ones side by side as plain numbers, longer ones in blocks.
ghost use Rattle.std.specs.Prelude.{◌≡◌, ◌==◌, ◌+◌, ◌<◌, ◌≤◌, ◌++◌, ◌∷◌, [], IfOk, OnErr, OnOk, length, map};
ghost use Rattle.std.specs.Prelude.{slice_index_or, sum, take};
ghost use Rattle.std.specs.List.Sorted.{IsStrictlyIncreasing};

use crate::block::BLOCK;
use crate::list_bits::list_bits;
use crate::list_entry::ListEntry;
use crate::list_range::ListRange;
use crate::list_ref::ListRef;
use crate::long_entry::LongEntry;
use crate::packed_list::{PackedList, add_blocks};
use crate::skip::Skip;
use crate::stored_list::{MOST_PLAIN, StoredList};
use fts_base::release;
use std::alloc::{AllocError, Global};
use std::marker::Model;

/// Lists of documents, each of which rises strictly. Contracts see the list of these lists.
pub struct Lists {
    entries: Vec<ListEntry>,
    /// The documents of lists of up to 64, concatenated.
    plain: Vec<u32>,
    /// An entry for each longer list, in the order of the lists.
    long: Vec<LongEntry>,
    blocks: Vec<Skip>,
    words: Vec<u32>,
}

impl Model for Lists {
    ghost use Rattle.std.specs.Prelude.{List, ℕ};
    ghost use Rattle.fts_pack.specs.Lists.{AreStored, lists_in};

    ghost Value = { List (List ℕ) };

    ghost view = { λ l. lists_in
        (record { plain = l.plain.items; long = l.long.items; blocks = l.blocks.items; words = l.words.items })
        0 l.entries.items };

    ghost invariant = { λ l. AreStored
        (record { plain = l.plain.items; long = l.long.items; blocks = l.blocks.items; words = l.words.items })
        0 l.entries.items };
}

impl Drop for Lists {
    fn drop(self) {
        let Lists {
            entries,
            plain,
            long,
            blocks,
            words,
        } = self;
        release(entries);
        release(plain);
        release(long);
        release(blocks);
        release(words);
    }
}

impl Lists {
    ghost use Rattle.std.specs.Prelude.{◌≡◌, ◌==◌, ◌+◌, ◌<◌, ◌≤◌, ◌++◌, ◌∷◌, [], IfOk, OnErr, OnOk, length, map};
    ghost use Rattle.std.specs.Prelude.{slice_index_or, sum, take};
    ghost use Rattle.std.specs.List.Sorted.{IsStrictlyIncreasing};
    ghost use Rattle.fts_pack.specs.StoredList.{IsStoredAsSaid, documents_stored};

    /// No list.
    pub fn new(alloc: Global) -> Lists
        ensures { result ≡ [] }
    {
        Lists {
            entries: Vec::new(alloc),
            plain: Vec::new(alloc),
            long: Vec::new(alloc),
            blocks: Vec::new(alloc),
            words: Vec::new(alloc),
        }
    }

    /// No list, with capacity for this many.
    pub fn with_capacity(alloc: Global, lists: usize) -> Result<Lists, AllocError>
        ensures { IfOk result (λ lists. lists ≡ []) }
    {
        Ok(Lists {
            entries: Vec::with_capacity(alloc, lists)?,
            plain: Vec::new(alloc),
            long: Vec::new(alloc),
            blocks: Vec::new(alloc),
            words: Vec::new(alloc),
        })
    }

    /// The number of lists.
    pub fn len(&self) -> usize
        ensures { result ≡ length self.now }
    {
        self.entries.len()
    }

    /// Whether there is no list.
    pub fn is_empty(&self) -> bool
        ensures { result ≡ (length self.now == 0) }
    {
        self.len() == 0
    }

    /// The number of documents in the lists before this one.
    pub fn start(&self, number: usize) -> usize
        requires { number ≤ length self.now }
        ensures { result ≡ sum (take number (map length self.now)) }
    {
        if number == 0 {
            0
        } else {
            self.entries[number - 1].end
        }
    }

    /// The number of documents in all lists and in one more.
    fn end_with(&self, documents: &[u32]) -> Result<usize, AllocError>
        ensures { IfOk result (λ end. end
            ≡ sum (take (length self.now) (map length self.now)) + length documents.now) }
    {
        self.start(self.len())
            .checked_add(documents.len())
            .ok_or(AllocError)
    }

    /// Appends a list. On `Err` nothing was appended.
    pub fn push(&mut self, alloc: Global, documents: &[u32]) -> Result<(), AllocError>
        requires { IsStrictlyIncreasing documents.now }
        ensures ok { OnOk result (self.new ≡ self.old ++ documents.now ∷ []) }
        ensures err { OnErr result (self.new ≡ self.old) }
    {
        if documents.len() <= MOST_PLAIN {
            self.push_plain(documents)
        } else {
            self.push_packed(alloc, documents)
        }
    }

    fn push_plain(&mut self, documents: &[u32]) -> Result<(), AllocError>
        requires rises { IsStrictlyIncreasing documents.now }
        requires few { length documents.now ≤ 64 }
        ensures ok { OnOk result (self.new ≡ self.old ++ documents.now ∷ []) }
        ensures err { OnErr result (self.new ≡ self.old) }
    {
        let end = self.end_with(documents)?;
        let place = self.plain.len();
        self.plain.extend_from_slice(documents)?;
        self.entries.push(ListEntry { end, place })?;
        Ok(())
    }

    fn push_packed(&mut self, alloc: Global, documents: &[u32]) -> Result<(), AllocError>
        requires rises { IsStrictlyIncreasing documents.now }
        requires many { 64 < length documents.now }
        ensures ok { OnOk result (self.new ≡ self.old ++ documents.now ∷ []) }
        ensures err { OnErr result (self.new ≡ self.old) }
    {
        let end = self.end_with(documents)?;
        let bits = list_bits(alloc, documents)?;
        let first = self.blocks.len();
        let place = self.long.len();
        add_blocks(alloc, &mut self.blocks, &mut self.words, documents)?;
        self.long.push(LongEntry { first, bits })?;
        self.entries.push(ListEntry { end, place })?;
        Ok(())
    }

    /// A list, borrowed from where it is stored.
    fn stored(&self, number: usize) -> StoredList<'_>
        requires { number < length self.now }
        ensures documents { documents_stored result ≡ slice_index_or self.now number [] }
        ensures form { IsStoredAsSaid result }
    {
        let before = self.start(number);
        let ListEntry { end, place } = self.entries[number];
        let count = end - before;
        if count <= MOST_PLAIN {
            let (_, plain) = self.plain.split_at(place);
            let (documents, _) = plain.split_at(count);
            return StoredList::Plain(documents);
        }
        let long = &self.long[place];
        let (_, blocks) = self.blocks.split_at(long.first);
        let (blocks, _) = blocks.split_at(count.div_ceil(BLOCK));
        StoredList::Packed(
            PackedList::new(count, blocks, &self.words),
            long.bits.as_ref(),
        )
    }

    /// Frees the space that the buffers have beyond their elements.
    pub fn shrink_to_fit(&mut self)
        ensures { self.new ≡ self.old }
    {
        self.entries.shrink_to_fit();
        self.plain.shrink_to_fit();
        self.long.shrink_to_fit();
        self.blocks.shrink_to_fit();
        self.words.shrink_to_fit();
    }
}

impl Lists {
    ghost use Rattle.std.specs.Prelude.{◌≡◌, ◌<◌, ◌≤◌, [], length, slice_index_or, slice_range};
    ghost use Rattle.fts_pack.specs.ListRange.{lists_in_range};
    ghost use Rattle.fts_pack.specs.ListRef.{listed};

    /// One of the lists.
    pub fn get(&self, number: usize) -> ListRef<'_>
        requires { number < length self.now }
        ensures { listed result ≡ slice_index_or self.now number [] }
    {
        // Reveals to the proof that the documents rise.
        let _ = &self.entries;
        ListRef::new(self.stored(number))
    }

    /// The lists from one to before another.
    pub fn range(&self, start: usize, end: usize) -> ListRange<'_>
        requires order { start ≤ end }
        requires within { end ≤ length self.now }
        ensures { lists_in_range result ≡ slice_range self.now start end }
    {
        ListRange::new(self, start, end)
    }
}
