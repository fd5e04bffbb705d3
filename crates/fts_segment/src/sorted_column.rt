// The sorted numbers of a field: a column, and the documents of each distinct number. The numbers of a keyword field
// are the ordinals of its keywords.
ghost use Rattle.std.specs.Prelude.{◌≡◌, ◌+◌};
ghost use Rattle.fts_pack.specs.ListRange.{lists_in_range};
ghost use Rattle.fts_segment.specs.Between.{AreBetween, IsCut, NumberColumn, count_between};
ghost use Rattle.fts_segment.specs.SortedColumns.{IsOrdered, numbers_in};

use crate::binary_search::{lower_bound, upper_bound};
use fts_pack::column::Column;
use fts_pack::{ListRange, Lists};

/// A view of a number or keyword index: its column and, in order, its distinct numbers with their lists.
#[derive(Clone, Copy)]
pub(crate) struct SortedColumn<'a> {
    pub(crate) column: &'a Column,
    /// The distinct numbers, rising; none for ordinals, where each number is its list's index.
    pub(crate) numbers: Option<&'a [u64]>,
    /// The documents of each number.
    pub(crate) lists: &'a Lists,
}

impl<'a> SortedColumn<'a> {
    /// The number of distinct numbers below `low`, and the number of those that are at most `high`.
    fn cuts(self, low: u64, high: u64) -> (usize, usize)
        requires { (column : NumberColumn) × IsOrdered column self }
        ensures low { IsCut (numbers_in self.entry) low result.0 }
        ensures high { IsCut (numbers_in self.entry) (high + 1) result.1 }
    {
        match self.numbers {
            Some(numbers) => (lower_bound(numbers, low), upper_bound(numbers, high)),
            None => {
                let count = self.lists.len() as u64;
                (
                    low.min(count) as usize,
                    high.saturating_add(1).min(count) as usize,
                )
            }
        }
    }

    /// The lists of the numbers in `low..=high`.
    pub(crate) fn lists_between(self, low: u64, high: u64) -> ListRange<'a>
        requires { (column : NumberColumn) × IsOrdered column self }
        ensures { (column : NumberColumn) → IsOrdered column self.entry
            → AreBetween column low high (lists_in_range result) }
    {
        let (start, end) = self.cuts(low, high);
        self.lists.range(start.min(end), end)
    }

    /// The number of documents with a number in `low..=high`.
    pub(crate) fn documents_between(self, low: u64, high: u64) -> usize
        requires { (column : NumberColumn) × IsOrdered column self }
        ensures { (column : NumberColumn) → IsOrdered column self.entry
            → result ≡ count_between low high column }
    {
        let (start, end) = self.cuts(low, high);
        self.lists.start(end) - self.lists.start(start.min(end))
    }
}
