// The least and greatest of each 128 values, so that a block can be skipped without reading its values.
ghost use Rattle.std.specs.Prelude.{◌≡◌, ◌*◌, ◌<◌, ◌≤◌, All, IfOk, IfSome, length};
ghost use Rattle.fts_pack.specs.column.BlockRanges.{AreEnds, AreEndsOf, block_of};
ghost use Rattle.fts_pack.specs.column.Column.{HaveOffsets};

use crate::column::column::range_of;
use fts_base::release;
use std::alloc::{AllocError, Global};

/// The number of values in a block.
const BLOCK: usize = 128;

/// The least and greatest offset of each block of 128 values. A block without a value has a least above its greatest.
pub(crate) enum BlockRanges {
    Words(Vec<(u32, u32)>),
    Longs(Vec<(u64, u64)>),
}

impl Drop for BlockRanges {
    fn drop(self) {
        match self {
            BlockRanges::Words(words) => release(words),
            BlockRanges::Longs(longs) => release(longs),
        }
    }
}

impl BlockRanges {
    ghost use Rattle.std.specs.Prelude.{◌≡◌, IfOk, slice_index_or};
    ghost use Rattle.fts_pack.specs.column.BlockRanges.{AreEndsOf, in_blocks, no_ends};
    ghost use Rattle.fts_pack.specs.column.Column.{HaveOffsets};

    /// Computes the offset range of each block; offsets have at most `width` bits.
    pub(crate) fn of_values(
        alloc: Global,
        width: u32,
        least: u64,
        values: &[Option<u64>],
    ) -> Result<BlockRanges, AllocError>
        requires { HaveOffsets least width values.now }
        ensures { IfOk result (λ blocks. AreEndsOf least values.now (in_blocks blocks)) }
    {
        if width <= 32 {
            Ok(BlockRanges::Words(words_of(alloc, width, least, values)?))
        } else {
            Ok(BlockRanges::Longs(longs_of(alloc, least, values)?))
        }
    }

    /// The offset range of a block; an empty range past the last block.
    #[inline]
    pub(crate) fn at(&self, block: usize) -> (u64, u64)
        ensures { result ≡ slice_index_or (in_blocks self.now) block no_ends }
    {
        match self {
            BlockRanges::Words(words) if block < words.len() => {
                let (least, greatest) = words[block];
                (u64::from(least), u64::from(greatest))
            }
            BlockRanges::Longs(longs) if block < longs.len() => longs[block],
            _ => (1, 0),
        }
    }
}

/// The least and greatest offset of the values from `least`.
fn ends_of(least: u64, values: &[Option<u64>]) -> (u64, u64)
    requires { All (λ v. IfSome v (λ x. least ≤ x)) values.now }
    ensures { AreEnds least values.now result }
{
    match range_of(values) {
        None => (1, 0),
        Some((first, last)) => (first - least, last - least),
    }
}

/// The values of a block.
fn block_at(values: &[Option<u64>], block: usize) -> &[Option<u64>]
    requires { 128 * block < length values.now }
    ensures { result.now ≡ block_of block values.now }
{
    let from = block * BLOCK;
    &values[from..(from + BLOCK).min(values.len())]
}

fn words_of(
    alloc: Global,
    width: u32,
    least: u64,
    values: &[Option<u64>],
) -> Result<Vec<(u32, u32)>, AllocError>
    requires narrow { width ≤ 32 }
    requires offsets { HaveOffsets least width values.now }
    ensures { IfOk result (λ list. AreEndsOf least values.now list.items) }
{
    let count = values.len().div_ceil(BLOCK);
    let mut words = Vec::with_capacity(alloc, count)?;
    for block in 0..count {
        let (first, last) = ends_of(least, block_at(values, block));
        words.push((first as u32, last as u32))?;
    }
    Ok(words)
}

fn longs_of(
    alloc: Global,
    least: u64,
    values: &[Option<u64>],
) -> Result<Vec<(u64, u64)>, AllocError>
    requires { All (λ v. IfSome v (λ x. least ≤ x)) values.now }
    ensures { IfOk result (λ list. AreEndsOf least values.now list.items) }
{
    let count = values.len().div_ceil(BLOCK);
    let mut longs = Vec::with_capacity(alloc, count)?;
    for block in 0..count {
        longs.push(ends_of(least, block_at(values, block)))?;
    }
    Ok(longs)
}
