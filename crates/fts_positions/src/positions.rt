// Iterates over the positions of a term in a document, decoding their gaps.
ghost use Rattle.std.specs.Prelude.{◌≤◌, ◌<◌, ◌^◌, All, length};
ghost use Rattle.std.specs.Option.{ForSome};
ghost use Rattle.fts_positions.specs.PositionLists.{positions_from};

use fts_pack::PackedNumbers;

/// The positions of a term in a document, rising.
#[derive(Drop)]
pub struct Positions<'a> {
    /// The next position and the gaps of all, or none if no position is left.
    first: Option<(u32, &'a PackedNumbers)>,
    /// The gaps of the positions after it begin at this index.
    at: usize,
    end: usize,
    ghost within: { ForSome first (λ f. end ≤ length f.1.now) },
    ghost fit: { All (λ p. p < 2 ^ 32) (positions_from first at end) },
}

impl<'a> Positions<'a> {
    ghost use Rattle.std.specs.Prelude.{◌≡◌, ◌<◌, ◌≤◌, ◌^◌, [], All, length, slice_range};
    ghost use Rattle.fts_pack.specs.Documents.{documents_at};
    ghost use Rattle.fts_positions.specs.PositionsLeft.{AreSameFrom, has, positions_left};

    /// An iterator without a position.
    pub(crate) fn none() -> Positions<'a>
        ensures { positions_left result ≡ [] }
    {
        Positions {
            first: None,
            at: 0,
            end: 0,
        }
    }

    /// Iterates over the positions encoded by `gaps[at..end]`, of which the first is at least `next`.
    #[inline(always)]
    pub(crate) fn between(
        gaps: &'a PackedNumbers,
        at: usize,
        end: usize,
        next: u64,
    ) -> Positions<'a>
        requires within { end ≤ length gaps.now }
        requires fit { All (λ p. p < 2 ^ 32) (documents_at next (slice_range gaps.now at end)) }
        ensures { positions_left result ≡ documents_at next (slice_range gaps.now at end) }
    {
        if at >= end {
            return Positions::none();
        }
        let first = next + u64::from(gaps.get(at));
        Positions {
            first: Some((first as u32, gaps)),
            at: at + 1,
            end,
        }
    }

    /// Passes the positions before one, and tells whether that is the next.
    #[inline(always)]
    pub(crate) fn seek(&mut self, position: u64) -> bool
        ensures has { result ≡ has (positions_left self.old) position }
        ensures left { AreSameFrom position (positions_left self.new) (positions_left self.old) }
    {
        while let Some((first, _gaps)) = self.first {
            let first = u64::from(first);
            if position <= first {
                return first == position;
            }
            let _ = self.next();
        }
        false
    }
}

impl Iterator for Positions<'_> {
    type Item = u32;

    ghost use Rattle.std.specs.Iterator.{YieldsFirst, item_count};
    ghost use Rattle.fts_positions.specs.PositionsLeft.{positions_left};

    ghost next_gives = { YieldsFirst positions_left };

    ghost remaining = { item_count positions_left };

    #[inline(always)]
    fn next(&mut self) -> Option<u32> {
        let (first, gaps) = self.first?;
        *self = Positions::between(gaps, self.at, self.end, u64::from(first) + 1);
        Some(first)
    }
}
