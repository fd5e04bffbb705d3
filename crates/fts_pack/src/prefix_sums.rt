// Turns gaps into documents, four at a time.
ghost use Rattle.std.specs.Prelude.{◌≡◌, ℕ, ◌+◌, ◌*◌, ◌%◌, ◌^◌, ◌<◌, ◌≤◌, length, map, slice_index, sum, take};
ghost use Rattle.fts_pack.specs.Documents.{documents_at};

use crate::four_lanes::load;
use std::simd::u32x4;

/// The prefix sums of the four lanes.
#[inline(always)]
fn sums_of(gaps: u32x4) -> u32x4
    ensures { (lane : ℕ) → lane < 4
        → slice_index result lane ≡ sum (take (lane + 1) gaps) % 2 ^ 32 }
{
    let zero = u32x4::splat(0);
    let pairs = gaps + zero.shuffle(gaps, [0, 4, 5, 6]);
    pairs + zero.shuffle(pairs, [0, 0, 4, 5])
}

/// The documents of four gaps that follow the document `last`.
#[inline(always)]
fn documents(last: u32x4, sums: u32x4) -> u32x4
    ensures { (lane : ℕ) → lane < 4
        → slice_index result lane
        ≡ (slice_index last lane + slice_index sums lane + (lane + 1)) % 2 ^ 32 }
{
    last + (sums + u32x4::from_array([1, 2, 3, 4]))
}

/// The last of four documents, in each lane.
#[inline(always)]
fn last_of(documents: u32x4) -> u32x4
    ensures { (lane : ℕ) → lane < 4 → slice_index result lane ≡ slice_index documents 3 }
{
    documents.shuffle(documents, [3, 3, 3, 3])
}

#[inline(always)]
fn write(four: u32x4, row: usize, out: &mut [u32; 128])
    requires { row < 32 }
    ensures before { (i : ℕ) → i < 4 * row → slice_index out.new i ≡ slice_index out.old i }
    ensures there { (lane : ℕ) → lane < 4
        → slice_index out.new (4 * row + lane) ≡ slice_index four lane }
    ensures behind { (i : ℕ) → 4 * row + 4 ≤ i → i < 128
        → slice_index out.new i ≡ slice_index out.old i }
{
    four.copy_to_slice(&mut out[4 * row..]);
}

/// Turns gaps into documents in place, by a prefix sum. The first document is `next` plus the first gap.
pub(crate) fn add_up(next: u32, out: &mut [u32; 128])
    ensures { out.new ≡ map (λ document. document % 2 ^ 32) (documents_at next out.old) }
{
    // The document before `next`; for 0 it wraps.
    let mut last = u32x4::splat(next.wrapping_add(u32::MAX));
    for row in 0..32 {
        let four = documents(last, sums_of(load(out, row)));
        write(four, row, out);
        last = last_of(four);
    }
}
