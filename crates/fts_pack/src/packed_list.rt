// A strictly rising list of documents in blocks of 128 gaps, with a skip entry for each block. Many lists share one
// buffer of words and one of skip entries.
ghost use Rattle.std.specs.Prelude.{◌≡◌, ◌*◌, ◌<◌, IfOk, OnErr, OnOk, length, slice_index_or, take};
ghost use Rattle.std.specs.List.Sorted.{IsStrictlyIncreasing};
ghost use Rattle.fts_pack.specs.bits.Digits.{IsWidthOf};
ghost use Rattle.fts_pack.specs.Documents.{after, block_at, block_count, gaps, last_of, Rises};
ghost use Rattle.fts_pack.specs.FourLanes.{words_in_lanes};
ghost use Rattle.fts_pack.specs.ListProps.{IsPackedList-prop};
ghost use Rattle.fts_pack.specs.PackedList.{AreBlocksAdded, Extends, IsPackedList, IsSkipAdded};

use crate::block::BLOCK;
use crate::block_meta::{BlockMeta, add_block};
use crate::gaps::push_gaps;
use crate::packed_block::PackedBlock;
use crate::skip::Skip;
use crate::{four_lanes, prefix_sums};
use std::alloc::{AllocError, Global};

/// A strictly rising list of documents in blocks.
#[derive(Clone, Copy)]
pub(crate) struct PackedList<'a> {
    count: usize,
    skips: &'a [Skip],
    words: &'a [u32],
    ghost is: { IsPackedList count skips.now words.now } by { IsPackedList-prop count skips.now words.now },
}

/// The skip entry of a block.
fn skip_at(skips: &[Skip], block: usize) -> Skip
    requires { block < length skips.now }
    ensures { result ≡ slice_index_or skips.now block result }
{
    skips[block]
}

impl<'a> PackedList<'a> {
    ghost use Rattle.std.specs.Prelude.{◌≡◌, ◌<◌, ◌*◌, length, take};
    ghost use Rattle.fts_pack.specs.bits.Digits.{IsWidthOf};
    ghost use Rattle.fts_pack.specs.Documents.{after, block_at, block_count, gaps, last_of};
    ghost use Rattle.fts_pack.specs.FourLanes.{words_in_lanes};
    ghost use Rattle.fts_pack.specs.PackedList.{IsPackedList, kept_documents};
    ghost use Rattle.fts_pack.specs.StoredList.{documents_packed};

    /// A list of `count` documents with these blocks.
    pub(crate) fn new(count: usize, skips: &'a [Skip], words: &'a [u32]) -> PackedList<'a>
        requires { IsPackedList count skips.now words.now }
        ensures { documents_packed result ≡ kept_documents words.now 0 count skips.now }
    {
        PackedList {
            count,
            skips,
            words,
        }
    }

    /// The number of documents.
    pub(crate) fn len(self) -> usize
        ensures { result ≡ length (documents_packed self.entry) }
    {
        self.count
    }

    /// The last document of the block.
    pub(crate) fn last(self, block: usize) -> u32
        requires { block < block_count (length (documents_packed self)) }
        ensures { result ≡ last_of (block_at (documents_packed self.entry) block) }
    {
        skip_at(self.skips, block).last
    }

    /// Writes the documents of the block to the front of `out` and returns their count.
    pub(crate) fn open(self, block: usize, out: &mut [u32; 128]) -> usize
        requires { block < block_count (length (documents_packed self)) }
        ensures count { result ≡ length (block_at (documents_packed self.entry) block) }
        ensures documents { take result out.new ≡ block_at (documents_packed self.entry) block }
    {
        let BlockMeta { start, width } = skip_at(self.skips, block).block;
        let (_, words) = self.words.split_at(start);
        four_lanes::unpack(words, width, out);
        prefix_sums::add_up(self.first(block), out);
        (self.count - block * BLOCK).min(BLOCK)
    }

    /// How the block is packed.
    pub(crate) fn packed(self, block: usize) -> PackedBlock<'a>
        requires { block < block_count (length (documents_packed self)) }
        ensures width { let documents = documents_packed self.entry in IsWidthOf
            (gaps (after 0 (take (block * 128) documents)) (block_at documents block)) result.width }
        ensures words { let documents = documents_packed self.entry in result.words.now
            ≡ words_in_lanes result.width (gaps (after 0 (take (block * 128) documents)) (block_at documents block)) }
        ensures last { result.last ≡ last_of (block_at (documents_packed self.entry) block) }
    {
        let skip = skip_at(self.skips, block);
        let BlockMeta { start, width } = skip.block;
        let (_, words) = self.words.split_at(start);
        let (words, _) = words.split_at(4 * width as usize);
        PackedBlock {
            width,
            words,
            last: skip.last,
        }
    }

    /// The least document that the block may have.
    fn first(self, block: usize) -> u32
        requires { block < block_count (length (documents_packed self)) }
        ensures { result ≡ after 0 (take (block * 128) (documents_packed self.entry)) }
    {
        if block == 0 {
            0
        } else {
            skip_at(self.skips, block - 1).last + 1
        }
    }
}

/// Appends a block, whose documents are at least `next`, and returns its skip entry. `gaps` is a scratch buffer.
pub(crate) fn add_skip(
    words: &mut Vec<u32>,
    gaps: &mut Vec<u32>,
    next: u64,
    documents: &[u32],
) -> Result<Skip, AllocError>
    requires some { 0 < length documents.now }
    requires rises { Rises next documents.now }
    ensures ok { IfOk result (λ skip. IsSkipAdded documents.now next words.old.items words.new.items skip) }
    ensures err { OnErr result (words.new.items ≡ words.old.items) }
{
    gaps.clear();
    push_gaps(gaps, next, documents)?;
    let block = add_block(words, gaps)?;
    Ok(Skip {
        block,
        last: documents[documents.len() - 1],
    })
}

/// Appends the blocks of documents. On `Err` some of them may have been appended.
pub(crate) fn add_blocks(
    alloc: Global,
    skips: &mut Vec<Skip>,
    words: &mut Vec<u32>,
    documents: &[u32],
) -> Result<(), AllocError>
    requires { IsStrictlyIncreasing documents.now }
    ensures ok { OnOk result (AreBlocksAdded documents.now skips.old.items skips.new.items words.new.items) }
    ensures skips { Extends skips.old.items skips.new.items }
    ensures words { Extends words.old.items words.new.items }
{
    let blocks = documents.len().div_ceil(BLOCK);
    let mut gaps = Vec::with_capacity(alloc, BLOCK)?;
    let mut next = 0;
    for block in 0..blocks {
        let start = block * BLOCK;
        let end = documents.len().min(start + BLOCK);
        let skip = add_skip(words, &mut gaps, next, &documents[start..end])?;
        next = u64::from(skip.last) + 1;
        skips.push(skip)?;
    }
    Ok(())
}
