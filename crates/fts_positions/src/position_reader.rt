// Reads the positions of a term in the documents of its postings.
ghost use Rattle.std.specs.Prelude.{◌≡◌, [], slice_index_or, slice_range};
ghost use Rattle.fts_positions.specs.PositionLists.{lists_behind};
ghost use Rattle.fts_positions.specs.PositionListBounds.{AreBounds};
ghost use Rattle.fts_positions.specs.PositionsLeft.{has, positions_left};

use crate::position_lists::{BlockBounds, PositionLists};
use crate::positions::Positions;
use std::marker::Model;

/// The positions of a term, one list for each of its postings. Contracts see the list of these.
///
/// The bounds of the last block of 128 lists are cached, so reading postings in rising order is fastest. Positions
/// below the last one that was asked for are passed, so rising ones of a posting are found in one pass.
#[derive(Drop)]
pub struct PositionReader<'a> {
    /// The lists of several terms, of which this term's are those from `start` to `end`.
    lists: Option<&'a PositionLists>,
    start: usize,
    end: usize,
    bounds: BlockBounds,
    /// The posting and the position that were asked for last.
    posting: usize,
    from: u64,
    /// The positions of the posting that were not passed: all from `from` on.
    left: Positions<'a>,
}

impl<'a> Model for PositionReader<'a> {
    ghost use Rattle.std.specs.Prelude.{List, ℕ};

    ghost Value = { List (List ℕ) };

    ghost use Rattle.std.specs.Prelude.{[], slice_index_or, slice_range};
    ghost use Rattle.fts_positions.specs.PositionLists.{lists_behind};
    ghost use Rattle.fts_positions.specs.PositionListBounds.{AreBounds};
    ghost use Rattle.fts_positions.specs.PositionsLeft.{AreSameFrom, positions_left};

    ghost view = { λ r. slice_range (lists_behind r.lists) r.start r.end };

    ghost invariant = { λ r. AreBounds (lists_behind r.lists) r.bounds × AreSameFrom r.from (positions_left r.left)
        (slice_index_or (slice_range (lists_behind r.lists) r.start r.end) r.posting []) };
}

/// The positions of a posting, whose lists are those from `start` to `end`, or none if there is no such posting.
#[inline(always)]
fn positions_of<'a>(
    lists: Option<&'a PositionLists>,
    start: usize,
    end: usize,
    posting: usize,
    bounds: &mut BlockBounds,
) -> Positions<'a>
    requires { AreBounds (lists_behind lists) bounds.old }
    ensures bounds { AreBounds (lists_behind lists.entry) bounds.new }
    ensures positions { positions_left result
        ≡ slice_index_or (slice_range (lists_behind lists.entry) start end) posting [] }
{
    let Some(lists) = lists else {
        return Positions::none();
    };
    if posting >= end.saturating_sub(start) {
        return Positions::none();
    }
    lists.get(start + posting, bounds)
}

impl<'a> PositionReader<'a> {
    /// Reads the positions of a term, which are the lists from `start` to `end`, or those of a number, which has none.
    pub fn new(lists: Option<&'a PositionLists>, start: usize, end: usize) -> PositionReader<'a>
        ensures { result ≡ slice_range (lists_behind lists.entry) start end }
    {
        PositionReader {
            lists,
            start,
            end,
            bounds: BlockBounds::new(),
            // A term has fewer postings, so this one has no position.
            posting: usize::MAX,
            from: 0,
            left: Positions::none(),
        }
    }

    /// The positions in the document of a posting, or none if there is no such posting.
    #[inline(always)]
    pub fn get(&mut self, posting: usize) -> Positions<'a>
        ensures positions { positions_left result ≡ slice_index_or self.old posting [] }
        ensures same { self.new ≡ self.old }
    {
        positions_of(self.lists, self.start, self.end, posting, &mut self.bounds)
    }

    /// Whether a position is one of those of a posting.
    #[inline(always)]
    pub fn has(&mut self, posting: usize, position: u64) -> bool
        ensures has { result ≡ has (slice_index_or self.old posting []) position }
        ensures same { self.new ≡ self.old }
    {
        if posting != self.posting || position < self.from {
            self.left = positions_of(self.lists, self.start, self.end, posting, &mut self.bounds);
            self.posting = posting;
        }
        self.from = position;
        self.left.seek(position)
    }
}
