// Up to 128 numbers, packed at the width of the greatest.
ghost use Rattle.std.specs.Prelude.{◌≡◌, ◌≤◌, IfOk, IsOkUnless, List, length, take, ℕ};
ghost use Rattle.fts_pack.specs.Block.{IsBlock, block_numbers};
ghost use Rattle.fts_pack.specs.bits.Digits.{IsWidthOf};
ghost use Rattle.fts_pack.specs.FourLanes.{words_in_lanes};

use crate::bits::widths;
use crate::four_lanes;
use fts_base::Refusal;
use std::alloc::{AllocError, Global};
use std::marker::Model;

/// The greatest number of numbers in a block.
pub const BLOCK: usize = 128;

/// Up to 128 numbers, each in as few bits as the greatest of them needs: `width` bits, in `4 * width` words.
///
/// Only tests call it: lists and positions pack their blocks of the same layout into one vector each.
#[derive(Drop)]
pub struct Block {
    count: usize,
    width: u32,
    words: Vec<u32>,
}

impl Model for Block {
    ghost Value = { List ℕ };

    ghost view = { λ b. block_numbers b.count b.width b.words.items };

    ghost invariant = { λ b. IsBlock b.count b.width b.words.items };
}

impl Block {
    /// Packs the numbers.
    pub fn pack(alloc: Global, numbers: &[u32]) -> Result<Block, Refusal>
        requires { length numbers.now ≤ 128 }
        ensures ok { IfOk result (λ block. block ≡ numbers.now) }
        ensures memory { IsOkUnless result Refusal.Memory }
    {
        Self::packed(alloc, numbers).map_err(|_| Refusal::Memory)
    }

    fn packed(alloc: Global, numbers: &[u32]) -> Result<Block, AllocError>
        requires { length numbers.now ≤ 128 }
        ensures { IfOk result (λ block. block ≡ numbers.now) }
    {
        let width = widths::width_of(numbers);
        let mut words = Vec::with_capacity(alloc, 4 * width as usize)?;
        four_lanes::append(&mut words, width, numbers)?;
        Ok(Block {
            count: numbers.len(),
            width,
            words,
        })
    }

    /// Writes the numbers to the front of `out` and returns their count. The rest of `out` is unspecified.
    pub fn unpack(&self, out: &mut [u32; 128]) -> usize
        ensures count { result ≡ length self.now }
        ensures at_most { result ≤ 128 }
        ensures numbers { take result out.new ≡ self.now }
    {
        four_lanes::unpack(&self.words, self.width, out);
        self.count
    }

    /// The number of bits of each number.
    pub fn width(&self) -> u32
        ensures { IsWidthOf self.now result }
    {
        self.width
    }

    /// The words that the numbers are packed in.
    pub fn words(&self) -> &[u32]
        ensures { (width : ℕ) → IsWidthOf self.now width → result.now ≡ words_in_lanes width self.now }
    {
        &self.words
    }
}
