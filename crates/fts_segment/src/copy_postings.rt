// Copies the postings of a term under new document numbers.
ghost use Rattle.std.specs.Prelude.{◌≡◌, ◌+◌, ◌-◌, ◌<◌, ◌≤◌, ◌^◌, ◌++◌, [], All, OnOk, drop, length, map};
ghost use Rattle.std.specs.Prelude.{slice_get, slice_index_or};
ghost use Rattle.fts_pack.specs.ListRef.{listed};
ghost use Rattle.fts_segment.specs.Parts.{moved, placed};
ghost use Rattle.fts_positions.specs.PositionListLogs.{IsPositionListLog};
ghost use Rattle.fts_segment.specs.Postings.{posting_at, postings_of};
ghost use Rattle.fts_segment.specs.Puts.{Puts};
ghost use Rattle.fts_positions.specs.PositionCopiers.{lists_in};

use crate::doc_map::DocMap;
use fts_pack::{BLOCK, Blocks, ListRef};
use fts_positions::{PositionCopier, PositionListLog};
use std::alloc::AllocError;

/// Appends documents, each with a number added.
fn push_shifted(docs: &mut Vec<u32>, first: u32, block: &[u32]) -> Result<(), AllocError>
    requires { All (λ doc. first + doc < 2 ^ 32) block.now }
    ensures { OnOk result (docs.new.items ≡ docs.old.items ++ map (λ doc. first + doc) block.now) }
{
    for doc in block {
        docs.push(first + *doc)?;
    }
    Ok(())
}

/// Appends the documents of a list, each with a number added. `room` is a scratch buffer for a block.
fn copy_shifted(
    list: ListRef<'_>,
    first: u32,
    room: &mut [u32; BLOCK],
    docs: &mut Vec<u32>,
) -> Result<(), AllocError>
    requires { All (λ doc. first + doc < 2 ^ 32) (listed list) }
    ensures { OnOk result (docs.new.items ≡ docs.old.items ++ map (λ doc. first + doc) (listed list.entry)) }
{
    let mut source = list.source();
    for block in 0..source.blocks() {
        let count = source.open(block, room);
        push_shifted(docs, first, &room[..count])?;
    }
    Ok(())
}

/// Copies a posting, whose positions are the list of this number, if its document has a new number.
fn copy_posting(
    doc: u32,
    list: usize,
    numbers: &DocMap,
    lists: &mut PositionCopier<'_>,
    docs: &mut Vec<u32>,
    log: &mut PositionListLog,
) -> Result<(), AllocError>
    requires is { IsPositionListLog log.old }
    requires within { list < length (lists_in lists.old) }
    ensures same { lists_in lists.new ≡ lists_in lists.old }
    ensures puts { let posting = posting_at doc (slice_index_or (lists_in lists.old) list []) in OnOk result
        (Puts (placed (slice_get numbers.now doc) posting) docs.old.items log.old docs.new.items log.new) }
{
    match numbers.get(doc) {
        Some(number) => {
            docs.push(number)?;
            lists.move_lists(list, list + 1, log)?;
            Ok(())
        }
        None => Ok(()),
    }
}

/// Copies the postings of one block. Their position lists begin at list `start`.
fn copy_block(
    block: &[u32],
    start: usize,
    numbers: &DocMap,
    lists: &mut PositionCopier<'_>,
    docs: &mut Vec<u32>,
    log: &mut PositionListLog,
) -> Result<(), AllocError>
    requires is { IsPositionListLog log.old }
    requires within { length block.now ≤ length (lists_in lists.old) - start }
    ensures same { lists_in lists.new ≡ lists_in lists.old }
    ensures puts { OnOk result (Puts (moved numbers.now (postings_of block.now (drop start (lists_in lists.old))))
        docs.old.items log.old docs.new.items log.new) }
{
    for (index, doc) in block.iter().enumerate() {
        copy_posting(*doc, start + index, numbers, lists, docs, log)?;
    }
    Ok(())
}

/// Appends the postings of a term under new document numbers: their documents to `docs` and their positions to a log.
/// `start` is the index of its first list of positions, and `room` a scratch buffer for a block of documents. If every
/// document is live, the positions are copied as a whole.
pub(crate) fn copy_postings(
    list: ListRef<'_>,
    start: usize,
    numbers: &DocMap,
    lists: &mut PositionCopier<'_>,
    room: &mut [u32; BLOCK],
    docs: &mut Vec<u32>,
    log: &mut PositionListLog,
) -> Result<(), AllocError>
    requires is { IsPositionListLog log.old }
    requires paired { start + length (listed list) ≤ length (lists_in lists.old) }
    requires numbered { All (λ doc. doc < length numbers.now) (listed list) }
    ensures same { lists_in lists.new ≡ lists_in lists.old }
    ensures puts { OnOk result
        (Puts (moved numbers.now (postings_of (listed list.entry) (drop start (lists_in lists.old))))
        docs.old.items log.old docs.new.items log.new) }
{
    if let Some(first) = numbers.first() {
        copy_shifted(list, first, room, docs)?;
        lists.move_lists(start, start + list.len(), log)?;
        return Ok(());
    }
    let mut source = list.source();
    for block in 0..source.blocks() {
        let count = source.open(block, room);
        let first = start + block * BLOCK;
        copy_block(&room[..count], first, numbers, lists, docs, log)?;
    }
    Ok(())
}
