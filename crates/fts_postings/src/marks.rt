// 64 documents as the bits of a word, the first of them the lowest.
ghost use Rattle.std.specs.Prelude.{◌≡◌, ℕ, ◌+◌, ◌<◌, ◌≤◌, ◌^◌, ◌++◌, length, take};
ghost use Rattle.std.specs.Int.{bit_at};
ghost use Rattle.fts_postings.specs.Windows.{marked};

/// Writes the documents from `from` on that are marked after the first `count` of `out`, and gives how many are there
/// then.
#[inline]
pub fn write(marks: u64, from: usize, out: &mut [u32; 128], count: usize) -> usize
    requires room { count + length (marked from (from + 63) marks) ≤ 128 }
    requires few { (k : ℕ) → bit_at marks k ≡ 1 → from + k < 2 ^ 32 }
    ensures count { result ≡ count + length (marked from (from + 63) marks) }
    ensures written { take result out.new
        ≡ take count out.old ++ marked from (from + 63) marks }
{
    let mut marks = marks;
    let mut count = count;
    while marks > 0 {
        out[count] = (from + marks.trailing_zeros() as usize) as u32;
        count += 1;
        marks &= marks - 1;
    }
    count
}
