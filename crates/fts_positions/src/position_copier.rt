// Copies packed lists of positions to a log, several lists at a time.
ghost use Rattle.std.specs.Prelude.{◌≡◌, ◌^◌, ◌<◌, ◌≤◌, All, length, sum, take};
ghost use Rattle.fts_positions.specs.PositionLists.{position_lists_at};

use crate::block_reader::BlockReader;
use crate::position_lists::{PositionListLog, total};
use fts_pack::PackedNumbers;
use std::alloc::AllocError;

/// A reader of packed position lists that holds one block of counts and one of gaps unpacked.
#[derive(Drop)]
pub struct PositionCopier<'a> {
    pub(crate) counts: BlockReader<'a>,
    pub(crate) gaps: BlockReader<'a>,
    /// The index of the current list. Copying is fast if the next list is at or after it.
    list: usize,
    /// The index of the list's first position.
    start: usize,
    ghost whole: { sum counts.numbers.now ≡ length gaps.numbers.now },
    ghost fit: { All (λ list. All (λ p. p < 2 ^ 32) list) (position_lists_at counts.numbers.now gaps.numbers.now) },
    ghost within: { list ≤ length counts.numbers.now },
    ghost begins: { start ≡ sum (take list counts.numbers.now) },
}

impl<'a> PositionCopier<'a> {
    ghost use Rattle.std.specs.Prelude.{◌≡◌, ◌≤◌, ◌++◌, OnOk, length, slice_range};
    ghost use Rattle.fts_positions.specs.PositionListLogs.{IsPositionListLog, logged_position_lists};
    ghost use Rattle.fts_positions.specs.PositionCopiers.{lists_in};

    /// A reader of the lists with these counts of positions and these gaps.
    pub(crate) fn new(counts: &'a PackedNumbers, gaps: &'a PackedNumbers) -> PositionCopier<'a>
        requires whole { sum counts.now ≡ length gaps.now }
        requires fit { All (λ list. All (λ p. p < 2 ^ 32) list) (position_lists_at counts.now gaps.now) }
        ensures { lists_in result ≡ position_lists_at counts.now gaps.now }
    {
        PositionCopier {
            counts: BlockReader::new(counts),
            gaps: BlockReader::new(gaps),
            list: 0,
            start: 0,
        }
    }

    /// Goes back to the first list, if `list` is before the current one.
    fn go_back(&mut self, list: usize)
        ensures counts { self.new.counts.numbers.now ≡ self.old.counts.numbers.now }
        ensures gaps { self.new.gaps.numbers.now ≡ self.old.gaps.numbers.now }
        ensures before { self.new.list ≤ list }
    {
        if list < self.list {
            self.list = 0;
            self.start = 0;
        }
    }

    /// Goes to a list.
    fn seek(&mut self, list: usize)
        requires { list ≤ length self.old.counts.numbers.now }
        ensures counts { self.new.counts.numbers.now ≡ self.old.counts.numbers.now }
        ensures gaps { self.new.gaps.numbers.now ≡ self.old.gaps.numbers.now }
        ensures there { self.new.list ≡ list }
    {
        self.go_back(list);
        while self.list < list {
            self.start += self.counts.get(self.list) as usize;
            self.list += 1;
        }
    }

    /// Appends the lists from `start` to `end`, or to the last, to a log.
    pub fn move_lists(
        &mut self,
        start: usize,
        end: usize,
        log: &mut PositionListLog,
    ) -> Result<(), AllocError>
        requires { IsPositionListLog log.old }
        ensures same { lists_in self.new ≡ lists_in self.old }
        ensures is { OnOk result (IsPositionListLog log.new) }
        ensures moved { OnOk result (logged_position_lists log.new
            ≡ logged_position_lists log.old ++ slice_range (lists_in self.old) start end) }
    {
        let end = end.min(self.counts.numbers.len());
        if start >= end {
            return Ok(());
        }
        self.seek(start);
        let first = log.counts.len();
        self.counts.copy(start, end, &mut log.counts)?;
        let positions = total(&log.counts[first..]);
        self.gaps
            .copy(self.start, self.start + positions, &mut log.gaps)?;
        self.list = end;
        self.start += positions;
        Ok(())
    }
}
