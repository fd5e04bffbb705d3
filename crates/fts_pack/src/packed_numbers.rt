// A list of numbers in blocks of 128, all in one buffer of words. One number or a whole block is unpacked at a time.
ghost use Rattle.std.specs.Prelude.{◌≡◌, ◌<◌, IfOk, IsOkUnless, length, slice_index, take};
ghost use Rattle.fts_pack.specs.Documents.{block_at, block_count};

use crate::block::BLOCK;
use crate::block_meta::{BlockMeta, add_block};
use crate::four_lanes;
use fts_base::{Refusal, release};
use std::alloc::{AllocError, Global};
use std::marker::Model;

/// A list of numbers in blocks of 128, the last one of 1 to 128, each block at the width of its greatest number.
pub struct PackedNumbers {
    count: usize,
    blocks: Vec<BlockMeta>,
    words: Vec<u32>,
}

impl Model for PackedNumbers {
    ghost use Rattle.std.specs.Prelude.{List, ℕ};

    ghost Value = { List ℕ };

    ghost use Rattle.fts_pack.specs.PackedNumbers.{numbers_kept, AreKept};

    ghost view = { λ n. numbers_kept n.count n.blocks.items n.words.items };

    ghost invariant = { λ n. AreKept n.count n.blocks.items n.words.items };
}

impl Drop for PackedNumbers {
    fn drop(self) {
        let PackedNumbers {
            count: _,
            blocks,
            words,
        } = self;
        release(blocks);
        release(words);
    }
}

impl PackedNumbers {
    /// Packs the numbers.
    pub fn build(alloc: Global, numbers: &[u32]) -> Result<PackedNumbers, Refusal>
        ensures ok { IfOk result (λ packed. packed ≡ numbers.now) }
        ensures memory { IsOkUnless result Refusal.Memory }
    {
        Self::packed(alloc, numbers).map_err(|_| Refusal::Memory)
    }

    fn packed(alloc: Global, numbers: &[u32]) -> Result<PackedNumbers, AllocError>
        ensures { IfOk result (λ packed. packed ≡ numbers.now) }
    {
        let count = numbers.len().div_ceil(BLOCK);
        let mut blocks = Vec::with_capacity(alloc, count)?;
        let mut words = Vec::new(alloc);
        for block in 0..count {
            let start = block * BLOCK;
            let end = numbers.len().min(start + BLOCK);
            let packed = add_block(&mut words, &numbers[start..end])?;
            blocks.push(packed)?;
        }
        words.shrink_to_fit();
        Ok(PackedNumbers {
            count: numbers.len(),
            blocks,
            words,
        })
    }

    /// The number of numbers.
    pub fn len(&self) -> usize
        ensures { result ≡ length self.now }
    {
        self.count
    }

    /// The number at an index. No other number is unpacked.
    #[inline]
    pub fn get(&self, index: usize) -> u32
        requires { index < length self.now }
        ensures { result ≡ slice_index self.now index }
    {
        let BlockMeta { start, width } = self.blocks[index / BLOCK];
        let (_, words) = self.words.split_at(start);
        four_lanes::read(words, width, index % BLOCK)
    }

    /// Writes the numbers of the block to the front of `out` and returns their count. The rest of `out` is unspecified.
    pub fn open(&self, block: usize, out: &mut [u32; 128]) -> usize
        requires { block < block_count (length self.now) }
        ensures count { result ≡ length (block_at self.now block) }
        ensures numbers { take result out.new ≡ block_at self.now block }
    {
        let BlockMeta { start, width } = self.blocks[block];
        let (_, words) = self.words.split_at(start);
        four_lanes::unpack(words, width, out);
        (self.count - block * BLOCK).min(BLOCK)
    }
}
