// The position of a block among the words of a list, and the function that appends a block.
ghost use Rattle.std.specs.Prelude.{◌≡◌, IfOk, OnErr};
ghost use Rattle.fts_pack.specs.BlockMeta.{IsAdded};

use crate::bits::widths;
use crate::four_lanes;
use std::alloc::AllocError;

/// The position and the width of a block among the words of a list.
#[derive(Clone, Copy)]
pub(crate) struct BlockMeta {
    /// The first word of the block.
    pub(crate) start: usize,
    /// The number of bits of each number.
    pub(crate) width: u32,
}

/// Packs a block, appends it and returns its position. On `Err` nothing was appended.
pub(crate) fn add_block(words: &mut Vec<u32>, numbers: &[u32]) -> Result<BlockMeta, AllocError>
    ensures ok { IfOk result (λ block. IsAdded numbers.now words.old.items words.new.items block) }
    ensures err { OnErr result (words.new.items ≡ words.old.items) }
{
    let width = widths::width_of(numbers);
    let start = words.len();
    four_lanes::append(words, width, numbers)?;
    Ok(BlockMeta { start, width })
}
