// Packed lists of positions: the number of positions of each list, and its gaps.
ghost use Rattle.std.specs.Prelude.{◌≡◌, ◌+◌, ◌*◌, ◌<◌, ◌≤◌, ◌++◌, ◌∷◌, ◌^◌, [], ℕ, IfOk, OnOk, Some};
ghost use Rattle.std.specs.Prelude.{length, slice_index, slice_index_or, sum, take};
ghost use Rattle.fts_pack.specs.Documents.{block_count};
ghost use Rattle.fts_positions.specs.PositionLists.{IsPositionList};
ghost use Rattle.fts_positions.specs.PositionListBounds.{AreBounds};
ghost use Rattle.fts_positions.specs.PositionListLogs.{IsPositionListLog, logged_position_lists};
ghost use Rattle.fts_positions.specs.PositionsLeft.{positions_left};
ghost use Rattle.fts_positions.specs.PositionCopiers.{lists_in};

use crate::position_copier::PositionCopier;
use crate::positions::Positions;
use fts_base::release;
use fts_pack::{BLOCK, PackedNumbers, push_gaps};
use std::alloc::{AllocError, Global};
use std::marker::Model;

/// The positions of postings, one list for each posting. Contracts see the list of these lists.
///
/// A list is found by the counts of the 128 lists of its block. They are summed once while lists of the same block are
/// read ([`BlockBounds`]). No position of another list is unpacked.
pub struct PositionLists {
    /// The number of positions of each list.
    counts: PackedNumbers,
    /// For each block of 128 lists, the index of its first position.
    starts: Vec<usize>,
    /// The gaps of every list, concatenated: each list's first position, then differences less 1.
    gaps: PackedNumbers,
}

impl Model for PositionLists {
    ghost use Rattle.std.specs.Prelude.{List, ℕ};
    ghost use Rattle.fts_positions.specs.PositionLists.{position_lists_at, ArePacked};

    ghost Value = { List (List ℕ) };

    ghost view = { λ l. position_lists_at l.counts l.gaps };

    ghost invariant = { λ l. ArePacked l.counts l.starts.items l.gaps };
}

impl Drop for PositionLists {
    fn drop(self) {
        let PositionLists {
            counts: _,
            starts,
            gaps: _,
        } = self;
        release(starts);
    }
}

impl PositionLists {
    /// Packs the lists of a log.
    pub fn build(alloc: Global, log: PositionListLog) -> Result<PositionLists, AllocError>
        requires { IsPositionListLog log }
        ensures { IfOk result (λ lists. lists ≡ logged_position_lists log) }
    {
        let PositionListLog { counts, gaps } = log;
        let starts = starts_of(alloc, &counts)?;
        let counts = packed(alloc, counts)?;
        let gaps = packed(alloc, gaps)?;
        Ok(PositionLists {
            counts,
            starts,
            gaps,
        })
    }

    /// The number of positions.
    pub fn positions(&self) -> usize {
        self.gaps.len()
    }

    /// A reader that copies whole stretches of lists to a log.
    pub fn unpacked(&self) -> PositionCopier<'_>
        ensures { lists_in result ≡ self.now }
    {
        PositionCopier::new(&self.counts, &self.gaps)
    }

    /// The list of this number, or no positions if there is none.
    #[inline(always)]
    pub(crate) fn get(&self, number: usize, bounds: &mut BlockBounds) -> Positions<'_>
        requires bounds { AreBounds self.now bounds.old }
        ensures bounds { AreBounds self.now bounds.new }
        ensures positions { positions_left result ≡ slice_index_or self.now number [] }
    {
        if number >= self.counts.len() {
            return Positions::none();
        }
        self.enter(number / BLOCK, bounds);
        let index = number % BLOCK;
        Positions::between(&self.gaps, bounds.at[index], bounds.at[index + 1], 0)
    }

    /// Computes the bounds of a block's lists, unless they are those of the last block.
    fn enter(&self, block: usize, bounds: &mut BlockBounds)
        requires within { block < block_count (length self.now) }
        requires bounds { AreBounds self.now bounds.old }
        ensures block { bounds.new.block ≡ Some block }
        ensures bounds { AreBounds self.now bounds.new }
    {
        if bounds.block == Some(block) {
            return;
        }
        let mut counts = [0; BLOCK];
        let many = self.counts.open(block, &mut counts);
        add_up(self.starts[block], &counts[..many], &mut bounds.at);
        bounds.block = Some(block);
    }
}

/// Packs numbers, and frees their buffer.
fn packed(alloc: Global, numbers: Vec<u32>) -> Result<PackedNumbers, AllocError>
    ensures { IfOk result (λ packed. packed ≡ numbers.items) }
{
    let Ok(packed) = PackedNumbers::build(alloc, &numbers) else {
        return Err(AllocError);
    };
    release(numbers);
    Ok(packed)
}

/// Writes `start`, and then its sums with the first count, with the first two, and so on.
fn add_up(start: usize, counts: &[u32], out: &mut [usize; 129])
    requires few { length counts.now ≤ 128 }
    requires fits { start + sum counts.now < 2 ^ 64 }
    ensures { (index : ℕ) → index ≤ length counts.now
        → slice_index out.new index ≡ start + sum (take index counts.now) }
{
    let mut end = start;
    out[0] = end;
    for (index, count) in counts.iter().enumerate() {
        end += *count as usize;
        out[index + 1] = end;
    }
}

/// The bounds of a block's lists among the gaps, if a block was looked up.
#[derive(Drop)]
pub(crate) struct BlockBounds {
    /// The number of the block.
    pub(crate) block: Option<usize>,
    /// The index at which each list of the block begins, and after these the index at which the last one ends.
    pub(crate) at: [usize; 129],
}

impl BlockBounds {
    ghost use Rattle.std.specs.Prelude.{List, ℕ};
    ghost use Rattle.fts_positions.specs.PositionListBounds.{AreBounds};

    /// No block has been looked up yet.
    pub(crate) fn new() -> BlockBounds
        ensures { (lists : List (List ℕ)) → AreBounds lists result }
    {
        BlockBounds {
            block: None,
            at: [0; 129],
        }
    }
}

/// The sum of the counts.
pub(crate) fn total(counts: &[u32]) -> usize
    requires { sum counts.now < 2 ^ 64 }
    ensures { result ≡ sum counts.now }
{
    let mut total = 0;
    for count in counts {
        total += *count as usize;
    }
    total
}

/// For each block of 128 lists, the index of its first position.
fn starts_of(alloc: Global, counts: &[u32]) -> Result<Vec<usize>, AllocError>
    requires { sum counts.now < 2 ^ 64 }
    ensures many { IfOk result (λ starts. length starts.items ≡ block_count (length counts.now)) }
    ensures starts { IfOk result (λ starts. (block : ℕ) → block < length starts.items
        → slice_index starts.items block ≡ sum (take (block * 128) counts.now)) }
{
    let blocks = counts.len().div_ceil(BLOCK);
    let mut starts = Vec::with_capacity(alloc, blocks)?;
    let mut start = 0;
    for block in 0..blocks {
        starts.push(start)?;
        let from = block * BLOCK;
        let end = counts.len().min(from + BLOCK);
        start += total(&counts[from..end]);
    }
    Ok(starts)
}

/// Lists of positions that are collected before they are packed.
#[derive(Drop)]
pub struct PositionListLog {
    pub(crate) counts: Vec<u32>,
    pub(crate) gaps: Vec<u32>,
}

impl PositionListLog {
    ghost use Rattle.std.specs.Prelude.{◌≡◌, ◌++◌, ◌∷◌, [], IfOk, OnOk};
    ghost use Rattle.fts_positions.specs.PositionLists.{IsPositionList};
    ghost use Rattle.fts_positions.specs.PositionListLogs.{IsPositionListLog, logged_position_lists};

    /// An empty log with capacity for this many positions.
    pub fn with_capacity(alloc: Global, positions: usize) -> Result<PositionListLog, AllocError>
        ensures is { IfOk result IsPositionListLog }
        ensures none { IfOk result (λ log. logged_position_lists log ≡ []) }
    {
        Ok(PositionListLog {
            counts: Vec::with_capacity(alloc, positions)?,
            gaps: Vec::with_capacity(alloc, positions)?,
        })
    }

    /// Appends a list.
    pub fn push(&mut self, list: &[u32]) -> Result<(), AllocError>
        requires is { IsPositionListLog self.old }
        requires list { IsPositionList list.now }
        ensures is { OnOk result (IsPositionListLog self.new) }
        ensures pushed { OnOk result (logged_position_lists self.new
            ≡ logged_position_lists self.old ++ list.now ∷ []) }
    {
        push_gaps(&mut self.gaps, 0, list)?;
        self.counts.push(list.len() as u32)?;
        Ok(())
    }
}
