// A stretch of documents in an array, such as an open block: what is copied from it, and where a target is in it.
ghost use Rattle.std.specs.Prelude.{◌≡◌, ◌+◌, ◌≤◌, ◌++◌, drop, length, slice_index, take};
ghost use Rattle.fts_postings.specs.Remaining.{IsPlaceOf};

use std::simd::prelude::*;

/// Copies this many numbers from one place on to another.
pub fn copy_part(numbers: &[u32; 128], from: usize, count: usize, out: &mut [u32; 128], to: usize)
    requires read { from + count ≤ 128 }
    requires write { to + count ≤ 128 }
    ensures { take (to + count) out.new ≡ take to out.old ++ take count (drop from numbers.now) }
{
    out[to..to + count].copy_from_slice(&numbers[from..from + count]);
}

/// The first place of those in `from..to` that has the target or more: `to` if there is none. Looks at the nearest 16
/// at once, since what is sought is mostly near, and then halves the rest.
#[inline]
pub fn place_of(numbers: &[u32], from: usize, to: usize, target: u32) -> usize
    requires order { from ≤ to }
    requires within { to ≤ length numbers.now }
    ensures { IsPlaceOf (slice_index numbers.now) from to target result }
{
    if to - from < 16 {
        return place_between(numbers, from, to, target);
    }
    let near = u32x16::from_slice(&numbers[from..]);
    let reached = near.simd_ge(u32x16::splat(target)).to_bitmask();
    if reached == 0 {
        return place_between(numbers, from + 16, to, target);
    }
    from + reached.trailing_zeros() as usize
}

/// As `place_of`, by halving alone.
#[inline]
fn place_between(numbers: &[u32], from: usize, to: usize, target: u32) -> usize
    requires order { from ≤ to }
    requires within { to ≤ length numbers.now }
    ensures { IsPlaceOf (slice_index numbers.now) from to target result }
{
    let mut low = from;
    let mut high = to;
    while low < high {
        let middle = low + (high - low) / 2;
        if numbers[middle] < target {
            low = middle + 1;
        } else {
            high = middle;
        }
    }
    low
}
