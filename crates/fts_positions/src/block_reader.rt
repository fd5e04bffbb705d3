// Reads and copies packed numbers, one unpacked block at a time.
ghost use Rattle.std.specs.Prelude.{◌≡◌, ◌+◌, ◌^◌, ◌<◌, ◌≤◌, ◌++◌, ℕ, IfOk, OnOk, length, slice_index, slice_range};

use fts_pack::{BLOCK, PackedNumbers};
use std::alloc::AllocError;

/// A reader of packed numbers that holds one block unpacked.
#[derive(Drop)]
pub(crate) struct BlockReader<'a> {
    pub(crate) numbers: &'a PackedNumbers,
    /// The index of the first number of the block.
    start: usize,
    /// The number of numbers in the block.
    count: usize,
    block: [u32; BLOCK],
    ghost few: { length numbers.now < 2 ^ 64 },
    ghost near: { count ≤ 128 },
    ghost within: { start + count ≤ length numbers.now },
    ghost are: { (i : ℕ) → i < count → slice_index block i ≡ slice_index numbers.now (start + i) },
}

/// Appends numbers. Usually there is only one, and a push costs less than copying a slice.
#[inline(always)]
fn push_all(out: &mut Vec<u32>, numbers: &[u32]) -> Result<(), AllocError>
    ensures { OnOk result (out.new.items ≡ out.old.items ++ numbers.now) }
{
    match numbers {
        [number] => out.push(*number)?,
        _ => out.extend_from_slice(numbers)?,
    }
    Ok(())
}

impl<'a> BlockReader<'a> {
    /// A reader that has not unpacked a block yet.
    pub(crate) fn new(numbers: &'a PackedNumbers) -> BlockReader<'a>
        ensures { result.numbers.now ≡ numbers.now }
    {
        // Reveals to the proof that indexes fit.
        let _ = numbers.len();
        BlockReader {
            numbers,
            start: 0,
            count: 0,
            block: [0; BLOCK],
        }
    }

    /// Unpacks the block of a number, unless it is the current one.
    fn enter(&mut self, index: usize)
        requires { index < length self.old.numbers.now }
        ensures same { self.new.numbers.now ≡ self.old.numbers.now }
        ensures from { self.new.start ≤ index }
        ensures to { index < self.new.start + self.new.count }
    {
        if self.start <= index && index - self.start < self.count {
            return;
        }
        let block = index / BLOCK;
        self.count = self.numbers.open(block, &mut self.block);
        self.start = block * BLOCK;
    }

    /// The number at an index.
    pub(crate) fn get(&mut self, index: usize) -> u32
        requires { index < length self.old.numbers.now }
        ensures same { self.new.numbers.now ≡ self.old.numbers.now }
        ensures number { result ≡ slice_index self.old.numbers.now index }
    {
        self.enter(index);
        self.block[index - self.start]
    }

    /// Appends the numbers from `start` to `end` that are in one block, and returns the index after the last of them.
    fn copy_some(
        &mut self,
        start: usize,
        end: usize,
        out: &mut Vec<u32>,
    ) -> Result<usize, AllocError>
        requires some { start < end }
        requires within { end ≤ length self.old.numbers.now }
        ensures same { self.new.numbers.now ≡ self.old.numbers.now }
        ensures on { IfOk result (λ next. start < next) }
        ensures within { IfOk result (λ next. next ≤ end) }
        ensures copied { IfOk result
            (λ next. out.new.items ≡ out.old.items ++ slice_range self.old.numbers.now start next) }
    {
        self.enter(start);
        let from = start - self.start;
        let count = (end - start).min(self.count - from);
        push_all(out, &self.block[from..from + count])?;
        Ok(start + count)
    }

    /// Appends the numbers from `start` to `end`.
    pub(crate) fn copy(
        &mut self,
        start: usize,
        end: usize,
        out: &mut Vec<u32>,
    ) -> Result<(), AllocError>
        requires { end ≤ length self.old.numbers.now }
        ensures same { self.new.numbers.now ≡ self.old.numbers.now }
        ensures copied { OnOk result
            (out.new.items ≡ out.old.items ++ slice_range self.old.numbers.now start end) }
    {
        let mut at = start;
        while at < end {
            at = self.copy_some(at, end, out)?;
        }
        Ok(())
    }
}
