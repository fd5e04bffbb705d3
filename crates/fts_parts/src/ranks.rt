// The first hits of a segment, picked by their numbers in a column.
ghost use Rattle.std.specs.Prelude.{◌≡◌, ◌+◌, ◌<◌, ◌/◌, ◌++◌, ◌∷◌, [], true, All, IfOk, IfSome, None, OnErr, OnOk};
ghost use Rattle.std.specs.Prelude.{drop, length, map, slice_index};
ghost use Rattle.fts_model.specs.Queries.{is_number_field};
ghost use Rattle.fts_segment.specs.Segments.{column};
ghost use Rattle.fts_parts.specs.Ranks.{AreOfBlock, IsBeyond, Offers, OffersLast, best_rank, hit_of, rank_in};

use crate::tally::number_at;
use crate::top_k::{Key, TopK};
use fts_model::{Hit, Kind, Order};
use fts_pack::column::Column;
use fts_segment::Segment;
use std::alloc::{AllocError, Global};

/// A column has the range of the values of each block of this many documents.
const BLOCK: u32 = 128;

// Blocks are skipped only if the column's numbers span at least this much: eight times as many numbers as a block has
// documents.
const FEW_NUMBERS: u64 = 1024;

/// The column of a number field.
pub fn numbers_of(segment: &Segment, field: usize) -> &Column
    requires { is_number_field segment.now.schema field ≡ true }
    ensures { result.now ≡ column segment.now field }
{
    segment.column(field)
}

/// The rank of a 64-bit number in an order, and also the number of a rank.
fn rank_in(order: Order, number: u64) -> u64
    ensures { result ≡ rank_in order number }
{
    match order {
        Order::Rising => number,
        Order::Falling => u64::MAX - number,
    }
}

/// The best rank of the numbers in a range.
fn best_rank(order: Order, range: (u64, u64)) -> u64
    ensures { result ≡ best_rank order range }
{
    match order {
        Order::Rising => rank_in(order, range.0),
        Order::Falling => rank_in(order, range.1),
    }
}

/// The index of the first hit that is in the last hit's block.
fn block_start(docs: &[u32]) -> usize
    requires { 0 < length docs.now }
    ensures start { result < length docs.now }
    ensures block { AreOfBlock (slice_index docs.now result / 128) (drop result docs.now) }
{
    let mut start = docs.len() - 1;
    let block = docs[start] / BLOCK;
    while start > 0 && docs[start - 1] / BLOCK == block {
        start -= 1;
    }
    start
}

/// Hits of a segment, ranked by their numbers in a column.
#[derive(Clone, Copy)]
pub struct Ranking<'a> {
    pub segment: &'a Segment,
    pub column: &'a Column,
    pub order: Order,
}

impl Ranking<'_> {
    /// Offers the hits that have a number in the column.
    pub(crate) fn offer(&self, docs: &[u32], top_k: &mut TopK) -> Result<(), AllocError>
        requires { All (λ doc. doc < length self.now.segment.now.documents) docs.now }
        ensures ok { OnOk result (Offers self.now docs.now top_k.old top_k.new) }
        ensures err { OnErr result (OffersLast self.now docs.now top_k.old top_k.new) }
    {
        if self.has_spread() {
            self.offer_by_blocks(docs, top_k)
        } else {
            self.offer_each(docs, top_k)
        }
    }

    /// Whether it may well be possible to pass over blocks. If a column has few different numbers, most blocks have one
    /// of the first.
    fn has_spread(&self) -> bool {
        match self.column.range() {
            None => false,
            Some((least, greatest)) => greatest.saturating_sub(least) >= FEW_NUMBERS,
        }
    }

    /// Offers the hits that have a number in the column, block by block, the last first.
    fn offer_by_blocks(&self, docs: &[u32], top_k: &mut TopK) -> Result<(), AllocError>
        requires { All (λ doc. doc < length self.now.segment.now.documents) docs.now }
        ensures ok { OnOk result (Offers self.now docs.now top_k.old top_k.new) }
        ensures err { OnErr result (OffersLast self.now docs.now top_k.old top_k.new) }
    {
        let mut left = docs.len();
        while left > 0 {
            let hits = &docs[..left];
            let start = block_start(hits);
            self.offer_block(&hits[start..], top_k)?;
            left = start;
        }
        Ok(())
    }

    /// Offers hits of one block, if any of its values may rank among the first. Otherwise the column is not read.
    fn offer_block(&self, docs: &[u32], top_k: &mut TopK) -> Result<(), AllocError>
        requires within { All (λ doc. doc < length self.now.segment.now.documents) docs.now }
        requires some { 0 < length docs.now }
        requires block { AreOfBlock (slice_index docs.now 0 / 128) docs.now }
        ensures ok { OnOk result (Offers self.now docs.now top_k.old top_k.new) }
        ensures err { OnErr result (OffersLast self.now docs.now top_k.old top_k.new) }
    {
        if self.is_block_beyond(docs[0] / BLOCK, top_k) {
            return Ok(());
        }
        self.offer_each(docs, top_k)
    }

    /// Whether no hit of a block of documents is one of the first, by the best rank of a value of the block.
    fn is_block_beyond(&self, block: u32, top_k: &TopK) -> bool
        ensures { result ≡ true → IsBeyond self.now block top_k.now }
    {
        match self.column.block_range(block as usize) {
            None => true,
            Some(range) => top_k.is_beyond(best_rank(self.order, range)),
        }
    }

    /// Offers the hits that have a number in the column, the last first. If ranks fall from document to document, then
    /// in their own order each hit would be better than those before it; from the last on, one compare rejects most. An
    /// error says that memory was refused at one of the hits.
    pub fn offer_each(&self, docs: &[u32], top_k: &mut TopK) -> Result<(), AllocError>
        requires { All (λ doc. doc < length self.now.segment.now.documents) docs.now }
        ensures ok { OnOk result (Offers self.now docs.now top_k.old top_k.new) }
        ensures err { OnErr result (OffersLast self.now docs.now top_k.old top_k.new) }
    {
        let mut left = docs.len();
        while let Some(place) = self.last_promising(&docs[..left], top_k) {
            self.offer_hit(docs[place], top_k)?;
            left = place;
        }
        Ok(())
    }

    /// The place of the last document whose hit may be one of the first. Those that a bound keeps out are passed over.
    fn last_promising(&self, docs: &[u32], top_k: &TopK) -> Option<usize>
        ensures within { IfSome result (λ place. place < length docs.now) }
        ensures behind { IfSome result
            (λ place. Offers self.now (drop (place + 1) docs.now) top_k.now top_k.now) }
        ensures none { result ≡ None → Offers self.now docs.now top_k.now top_k.now }
    {
        let Some(most) = top_k.bound_rank() else {
            return docs.len().checked_sub(1);
        };
        let (least, greatest) = self.column.range()?;
        match self.order {
            Order::Rising => self.column.last_within(docs, least, most),
            Order::Falling => self.column.last_within(docs, u64::MAX - most, greatest),
        }
    }

    /// Offers a hit, if it has a number in the column.
    fn offer_hit(&self, doc: u32, top_k: &mut TopK) -> Result<(), AllocError>
        requires { doc < length self.now.segment.now.documents }
        ensures ok { OnOk result (Offers self.now (doc ∷ []) top_k.old top_k.new) }
        ensures err { OnErr result (top_k.new ≡ top_k.old) }
    {
        let Some(number) = self.column.get(doc as usize) else {
            return Ok(());
        };
        let rank = rank_in(self.order, number);
        let stamp = self.segment.stamp(doc as usize);
        top_k.offer(Key { rank, stamp, doc })
    }
}

/// Puts the hit of a key after others. The document is a copy, which shares it.
fn push_hit(
    segment: &Segment,
    kind: Kind,
    order: Order,
    key: Key,
    hits: &mut Vec<Hit>,
) -> Result<(), AllocError>
    requires { key.doc < length segment.now.documents }
    ensures { OnOk result (hits.new.items
        ≡ hits.old.items ++ hit_of kind order segment.now.documents key ∷ []) }
{
    let document = segment.document(key.doc as usize).clone()?;
    hits.push(Hit {
        stamp: key.stamp,
        value: number_at(kind, rank_in(order, key.rank)),
        document,
    })?;
    Ok(())
}

/// The hits of keys.
pub(crate) fn hits_of(
    alloc: Global,
    segment: &Segment,
    kind: Kind,
    order: Order,
    keys: &[Key],
) -> Result<Vec<Hit>, AllocError>
    requires { All (λ key. key.doc < length segment.now.documents) keys.now }
    ensures { IfOk result (λ hits. hits.items
        ≡ map (hit_of kind order segment.now.documents) keys.now) }
{
    let mut hits = Vec::with_capacity(alloc, keys.len())?;
    for key in keys {
        push_hit(segment, kind, order, *key, &mut hits)?;
    }
    Ok(hits)
}
