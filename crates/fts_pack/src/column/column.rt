// One optional value per document. Each is stored as its offset from the least value, in integers of one width, with a
// bit for presence. `packed` gives the offsets in as few bits as the greatest needs.
ghost use Rattle.std.specs.Prelude.{◌≡◌, ◌≤◌, ◌<◌, ◌+◌, ◌-◌, ◌*◌, ◌%◌, ◌^◌, ◌==◌, ℕ, List, [], ◌∷◌, Option, None};
ghost use Rattle.std.specs.Prelude.{true, false, All, IfOk, IfSome, IsOkUnless, drop, is_some, length, map};
ghost use Rattle.std.specs.Prelude.{slice_index, slice_index_or, take};
ghost use Rattle.fts_pack.specs.bits.Digits.{IsWidthOf, words_of};
ghost use Rattle.std.specs.Option.{option_map_or};
ghost use Rattle.std.specs.Int.{bit_at};
ghost use Rattle.fts_pack.specs.column.BlockRanges.{AreEndsOf, block_of, in_blocks};
ghost use Rattle.fts_pack.specs.column.Column.{IsColumn, IsRangeOf, is_within, least_of, offsets, range_with};
ghost use Rattle.fts_pack.specs.column.Column.{spread_of, values_at};
ghost use Rattle.fts_pack.specs.column.Counts.{AreWithin, having};
ghost use Rattle.fts_pack.specs.column.OffsetArray.{in_lanes};

use crate::bits::{Bits, widths};
use crate::column::block_ranges::BlockRanges;
use crate::column::offset_array::OffsetArray;
use fts_base::Refusal;
use std::alloc::{AllocError, Global};
use std::marker::Model;

/// An optional value for each document.
#[derive(Drop)]
pub struct Column {
    range: Option<(u64, u64)>,
    present: Bits,
    lanes: OffsetArray,
    blocks: BlockRanges,
}

impl Model for Column {
    ghost Value = { List (Option ℕ) };

    ghost view = { λ c. values_at (least_of c.range) c.present (in_lanes c.lanes) };

    ghost invariant = { λ c. IsColumn (values_at (least_of c.range) c.present (in_lanes c.lanes)) c.range c.present
        (in_lanes c.lanes)
        × AreEndsOf (least_of c.range) (values_at (least_of c.range) c.present (in_lanes c.lanes))
        (in_blocks c.blocks) };
}

impl Column {
    /// Packs the values, one per document. Document numbers have 32 bits.
    pub fn build(alloc: Global, values: &[Option<u64>]) -> Result<Column, Refusal>
        requires { length values.now ≤ 2 ^ 32 }
        ensures ok { IfOk result (λ column. column ≡ values.now) }
        ensures memory { IsOkUnless result Refusal.Memory }
    {
        Self::of_values(alloc, values).map_err(|_| Refusal::Memory)
    }

    fn of_values(alloc: Global, values: &[Option<u64>]) -> Result<Column, AllocError>
        requires { length values.now ≤ 2 ^ 32 }
        ensures { IfOk result (λ column. column ≡ values.now) }
    {
        let range = range_of(values);
        let (least, greatest) = range.unwrap_or((0, 0));
        let width = widths::bit_length(greatest - least);
        let present = presence(alloc, values)?;
        let lanes = OffsetArray::of_offsets(alloc, width, least, values)?;
        let blocks = BlockRanges::of_values(alloc, width, least, values)?;
        Ok(Column {
            range,
            present,
            lanes,
            blocks,
        })
    }

    /// The number of documents.
    pub fn len(&self) -> usize
        ensures { result ≡ length self.now }
    {
        self.present.len()
    }

    /// Whether there is no document.
    pub fn is_empty(&self) -> bool
        ensures { result ≡ (length self.now == 0) }
    {
        self.present.is_empty()
    }

    /// The document's value, or `None` if it has none or there is no such document.
    #[inline(always)]
    pub fn get(&self, doc: usize) -> Option<u64>
        ensures { result ≡ slice_index_or self.now doc None }
    {
        let (least, _) = self.range?;
        if self.present.contains(doc) {
            Some(least + self.lanes.at(doc))
        } else {
            None
        }
    }

    /// The least and greatest value of up to 128 documents from `128 * block`, or `None` if none of them has a value or
    /// there is no such block. No value is read.
    #[inline]
    pub fn block_range(&self, block: usize) -> Option<(u64, u64)>
        ensures { IsRangeOf (block_of block self.now) result }
    {
        let (least, _) = self.range?;
        let (first, last) = self.blocks.at(block);
        if first <= last {
            Some((least + first, least + last))
        } else {
            None
        }
    }

    /// A mask of the 64 documents from `from`, a multiple of 64, whose value is in `low..=high`; the first is the
    /// lowest bit. The bit of a document that has no value, or that does not exist, is 0.
    #[inline]
    pub fn marks_within(&self, from: usize, low: u64, high: u64) -> u64
        requires { from % 64 ≡ 0 }
        ensures { (k : ℕ) → k < 64 →
            (bit_at result k == 1) ≡ is_within low high (slice_index_or self.now (from + k) None) }
    {
        let (least, _) = self.range.unwrap_or((0, 0));
        if from >= self.present.len() {
            return 0;
        }
        if high < least {
            return 0;
        }
        let above = low.saturating_sub(least);
        let marks = self.lanes.mask_within(from, above, high - least);
        marks & self.present.word(from / 64)
    }

    /// Adds one to `counts[value - least]` for each of the documents that has a value, modulo 2^64. A document that has
    /// no value, or that does not exist, isn't counted.
    pub fn count_values(&self, docs: &[u32], least: u64, counts: &mut [u64])
        requires { AreWithin self.now least (length counts.old) }
        ensures counted { (place : ℕ) → place < length counts.old → slice_index counts.new place
            ≡ (slice_index counts.old place + having self.now docs.now (least + place)) % 2 ^ 64 }
        ensures long { length counts.new ≡ length counts.old }
    {
        if let Some((first, _)) = self.range {
            let places = &mut counts[(first - least) as usize..];
            self.lanes.count(&self.present, docs, places);
        }
    }

    /// The index of the last of the documents whose value is in `low..=high`. A document that has no value, or that
    /// does not exist, is skipped.
    pub fn last_within(&self, docs: &[u32], low: u64, high: u64) -> Option<usize>
        ensures some { IfSome result (λ place. (place < length docs.now)
            × (is_within low high (slice_index_or self.now (slice_index docs.now place) None) ≡ true)) }
        ensures behind { IfSome result (λ place.
            All (λ doc. is_within low high (slice_index_or self.now doc None) ≡ false) (drop (place + 1) docs.now)) }
        ensures none { result ≡ None →
            All (λ doc. is_within low high (slice_index_or self.now doc None) ≡ false) docs.now }
    {
        let (least, _) = self.range?;
        if high < least {
            return None;
        }
        let above = low.saturating_sub(least);
        self.lanes
            .last_within(&self.present, docs, above, high - least)
    }

    /// The least and greatest value, or `None` if no document has a value. Groups and top lists call it.
    pub fn range(&self) -> Option<(u64, u64)>
        ensures { IsRangeOf self.now result }
    {
        self.range
    }

    /// The bits of the documents that have a value.
    pub fn present(&self) -> &Bits
        ensures { result.now ≡ map is_some self.now }
    {
        &self.present
    }

    /// The offsets from the least value as they are stated to be packed: the number of bits that the greatest needs, and
    /// words with as many bits of each in turn. A missing value has the offset 0.
    pub fn packed(&self, alloc: Global) -> Result<(u32, Vec<u64>), Refusal>
        ensures width { IfOk result (λ p. (range : Option (ℕ × ℕ)) → IsRangeOf self.now range
            → IsWidthOf (spread_of range ∷ []) p.0) }
        ensures words { IfOk result (λ p. (range : Option (ℕ × ℕ)) → IsRangeOf self.now range
            → p.1.items ≡ words_of 64 p.0 (offsets (least_of range) self.now)) }
        ensures memory { IsOkUnless result Refusal.Memory }
    {
        let (least, greatest) = self.range.unwrap_or((0, 0));
        let width = widths::bit_length(greatest - least);
        match packed_offsets(alloc, width, &self.lanes, self.len()) {
            Ok(words) => Ok((width, words)),
            Err(AllocError) => Err(Refusal::Memory),
        }
    }
}

/// The least and greatest value, or `None` if there is none.
pub(crate) fn range_of(values: &[Option<u64>]) -> Option<(u64, u64)>
    ensures range { IsRangeOf values.now result }
    ensures fits { IfSome result (λ r. r.1 < 2 ^ 64) }
{
    let mut range = None;
    for value in values {
        if let Some(value) = *value {
            range = Some(widened(range, value));
        }
    }
    range
}

/// The least range that includes a range and a value.
fn widened(range: Option<(u64, u64)>, value: u64) -> (u64, u64)
    ensures { result ≡ range_with range value }
{
    match range {
        None => (value, value),
        Some((least, greatest)) => (least.min(value), greatest.max(value)),
    }
}

/// A bit per document, set if it has a value.
fn presence(alloc: Global, values: &[Option<u64>]) -> Result<Bits, AllocError>
    ensures { IfOk result (λ bits. bits ≡ map is_some values.now) }
{
    let mut present = Bits::zeroed(alloc, values.len())?;
    for (doc, value) in values.iter().enumerate() {
        if value.is_some() {
            present.set(doc);
        }
    }
    Ok(present)
}

/// The first offsets of an array, this many, packed in words.
fn packed_offsets(
    alloc: Global,
    width: u32,
    lanes: &OffsetArray,
    count: usize,
) -> Result<Vec<u64>, AllocError>
    requires narrow { width ≤ 64 }
    requires few { count ≤ 2 ^ 32 }
    requires enough { count ≤ length (in_lanes lanes.now) }
    requires fits { All (λ x. x < 2 ^ width) (take count (in_lanes lanes.now)) }
    ensures { IfOk result (λ words. words.items ≡ words_of 64 width (take count (in_lanes lanes.now))) }
{
    let mut words = Vec::with_capacity(alloc, widths::word_count_64(count * width as usize))?;
    let mut pending = 0u128;
    let mut filled = 0u32;
    for doc in 0..count {
        pending |= u128::from(lanes.at(doc)) << filled;
        filled += width;
        if filled >= 64 {
            words.push((pending & u128::from(u64::MAX)) as u64)?;
            pending >>= 64;
            filled -= 64;
        }
    }
    if filled > 0 {
        words.push(pending as u64)?;
    }
    Ok(words)
}

/// The offset of a value from `least`, or 0 for a missing value.
pub(crate) fn offset(least: u64, value: Option<u64>) -> u64
    requires { IfSome value (λ x. least ≤ x) }
    ensures { result ≡ option_map_or (λ x. x - least) value 0 }
{
    match value {
        None => 0,
        Some(value) => value - least,
    }
}
