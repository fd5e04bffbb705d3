// Offsets in integers of one width: each is read by one load, and 64 are compared at once.
ghost use Rattle.std.specs.Prelude.{◌≡◌, ◌%◌, ◌^◌, ◌≤◌, IfOk, length, map, min};
ghost use Rattle.fts_pack.specs.column.Column.{HaveOffsets, offsets};
ghost use Rattle.fts_pack.specs.column.OffsetArray.{AreLanesOf, AreMarked};

use crate::bits::Bits;
use crate::column::column::offset;
use crate::column::last_within::last_offset_within;
use crate::column::offset_int::OffsetInt;
use crate::column::value_counts::count_offsets;
use fts_base::release;
use std::alloc::{AllocError, Global};
use std::simd::prelude::*;

// The greatest numbers of 8 and of 32 bits.
const BYTE_MAX: u64 = 255;

const WORD_MAX: u64 = 4_294_967_295;

/// Offsets in integers of 8, 32 or 64 bits, padded to a multiple of 64.
pub(crate) enum OffsetArray {
    Bytes(Vec<u8>),
    Words(Vec<u32>),
    Longs(Vec<u64>),
}

impl Drop for OffsetArray {
    fn drop(self) {
        match self {
            OffsetArray::Bytes(bytes) => release(bytes),
            OffsetArray::Words(words) => release(words),
            OffsetArray::Longs(longs) => release(longs),
        }
    }
}

impl OffsetArray {
    ghost use Rattle.std.specs.Prelude.{◌≡◌, ℕ, ◌+◌, ◌<◌, ◌≤◌, IfOk, drop, length, slice_index};
    ghost use Rattle.fts_pack.specs.column.Column.{HaveOffsets, offsets};
    ghost use Rattle.fts_pack.specs.column.Counts.{AreCounted};
    ghost use Rattle.fts_pack.specs.column.Interval.{IsLastWithin};
    ghost use Rattle.fts_pack.specs.column.OffsetArray.{AreLanesOf, AreMarked, in_lanes, number_at};

    /// Stores the offset of each value from `least`, and 0 for a missing value; offsets have at most `width` bits.
    pub(crate) fn of_offsets(
        alloc: Global,
        width: u32,
        least: u64,
        values: &[Option<u64>],
    ) -> Result<OffsetArray, AllocError>
        requires { HaveOffsets least width values.now }
        ensures { IfOk result (λ lanes. AreLanesOf (offsets least values.now) (in_lanes lanes)) }
    {
        if width <= 8 {
            Ok(OffsetArray::Bytes(lanes_of(alloc, width, least, values)?))
        } else if width <= 32 {
            Ok(OffsetArray::Words(lanes_of(alloc, width, least, values)?))
        } else {
            Ok(OffsetArray::Longs(lanes_of(alloc, width, least, values)?))
        }
    }

    /// The offset at an index.
    #[inline]
    pub(crate) fn at(&self, place: usize) -> u64
        requires { place < length (in_lanes self.now) }
        ensures { result ≡ slice_index (in_lanes self.now) place }
    {
        match self {
            OffsetArray::Bytes(bytes) => u64::from(bytes[place]),
            OffsetArray::Words(words) => u64::from(words[place]),
            OffsetArray::Longs(longs) => longs[place],
        }
    }

    /// A mask of the 64 numbers from index `from` that are in `low..=high`.
    #[inline]
    pub(crate) fn mask_within(&self, from: usize, low: u64, high: u64) -> u64
        requires { from + 64 ≤ length (in_lanes self.now) }
        ensures { AreMarked (drop from (in_lanes self.now)) low high result }
    {
        if high < low {
            return 0;
        }
        match self {
            OffsetArray::Bytes(bytes) => bytes_within(&bytes[from..], low, high),
            OffsetArray::Words(words) => words_within(&words[from..], low, high),
            OffsetArray::Longs(longs) => longs_within(&longs[from..], low, high),
        }
    }

    /// Adds one to `counts[offset]` for each of the documents whose presence bit is set.
    pub(crate) fn count(&self, present: &Bits, docs: &[u32], counts: &mut [u64])
        requires enough { length present.now ≤ length (in_lanes self.now) }
        requires within { (doc : ℕ) → doc < length present.now
            → slice_index (in_lanes self.now) doc < length counts.old }
        ensures { AreCounted (number_at present.now (in_lanes self.now)) docs.now counts.old counts.new }
    {
        match self {
            OffsetArray::Bytes(bytes) => count_offsets(bytes.as_slice(), present, docs, counts),
            OffsetArray::Words(words) => count_offsets(words.as_slice(), present, docs, counts),
            OffsetArray::Longs(longs) => count_offsets(longs.as_slice(), present, docs, counts),
        }
    }

    /// The index of the last of the documents whose presence bit is set and whose offset is in `low..=high`.
    pub(crate) fn last_within(
        &self,
        present: &Bits,
        docs: &[u32],
        low: u64,
        high: u64,
    ) -> Option<usize>
        requires { length present.now ≤ length (in_lanes self.now) }
        ensures { IsLastWithin (number_at present.now (in_lanes self.now)) low high docs.now result }
    {
        match self {
            OffsetArray::Bytes(bytes) => last_offset_within(
                bytes.as_slice(),
                present,
                docs,
                low,
                high,
            ),
            OffsetArray::Words(words) => last_offset_within(
                words.as_slice(),
                present,
                docs,
                low,
                high,
            ),
            OffsetArray::Longs(longs) => last_offset_within(
                longs.as_slice(),
                present,
                docs,
                low,
                high,
            ),
        }
    }
}

fn lanes_of<L: OffsetInt>(
    alloc: Global,
    width: u32,
    least: u64,
    values: &[Option<u64>],
) -> Result<Vec<L>, AllocError>
    requires wide { min width 64 ≤ L.bits }
    requires offsets { HaveOffsets least width values.now }
    ensures { IfOk result (λ list. AreLanesOf (offsets least values.now) (map L.value list.items)) }
{
    let count = lane_count(values.len());
    let mut lanes = Vec::with_capacity(alloc, count)?;
    for value in values {
        lanes.push(L::of(offset(least, *value)))?;
    }
    lanes.resize(count, L::of(0))?;
    Ok(lanes)
}

/// The number of integers for `numbers` offsets: the next multiple of 64.
fn lane_count(numbers: usize) -> usize
    requires { numbers ≤ 2 ^ 32 }
    ensures enough { numbers ≤ result }
    ensures whole { result % 64 ≡ 0 }
{
    (numbers + 63) / 64 * 64
}

/// A 64-bit mask of the bytes in `low..=high`. Subtracting `low` wraps what is below, so one unsigned comparison
/// suffices.
#[inline]
fn bytes_within(numbers: &[u8], low: u64, high: u64) -> u64
    requires { (64 ≤ length numbers.now) × (low ≤ high) }
    ensures { AreMarked numbers.now low high result }
{
    if low > BYTE_MAX {
        return 0;
    }
    let span = (high.min(BYTE_MAX) - low) as u8;
    let above = u8x64::from_slice(numbers) - u8x64::splat(low as u8);
    above.simd_le(u8x64::splat(span)).to_bitmask()
}

/// As `bytes_within`, for 64-bit values.
#[inline]
fn longs_within(numbers: &[u64], low: u64, high: u64) -> u64
    requires { (64 ≤ length numbers.now) × (low ≤ high) }
    ensures { AreMarked numbers.now low high result }
{
    let above = u64x64::from_slice(numbers) - u64x64::splat(low);
    above.simd_le(u64x64::splat(high - low)).to_bitmask()
}

/// As `bytes_within`, for 32-bit values.
#[inline]
fn words_within(numbers: &[u32], low: u64, high: u64) -> u64
    requires { (64 ≤ length numbers.now) × (low ≤ high) }
    ensures { AreMarked numbers.now low high result }
{
    if low > WORD_MAX {
        return 0;
    }
    let span = (high.min(WORD_MAX) - low) as u32;
    let above = u32x64::from_slice(numbers) - u32x64::splat(low as u32);
    above.simd_le(u32x64::splat(span)).to_bitmask()
}
