// Counts documents by their offsets. The array's width is checked once for many documents, so each costs a load, a bit
// if some have no value, and an addition.
ghost use Rattle.std.specs.Prelude.{◌≡◌, ℕ, ◌+◌, ◌%◌, ◌^◌, ◌<◌, ◌≤◌, length, map, slice_get, slice_index};
ghost use Rattle.std.specs.Prelude.{slice_set};
ghost use Rattle.fts_pack.specs.column.Counts.{AreCounted};
ghost use Rattle.fts_pack.specs.column.OffsetArray.{number_at};

use crate::bits::Bits;
use crate::column::offset_int::OffsetInt;

/// Adds one to `counts[offset]` for each document that has a value.
pub(crate) fn count_offsets<L: OffsetInt>(
    lanes: &[L],
    present: &Bits,
    docs: &[u32],
    counts: &mut [u64],
)
    requires enough { length present.now ≤ length lanes.now }
    requires within { (doc : ℕ) → doc < length present.now
        → slice_index (map L.value lanes.now) doc < length counts.old }
    ensures { AreCounted (number_at present.now (map L.value lanes.now)) docs.now counts.old counts.new }
{
    if present.is_all_set() {
        count_all(&lanes[..present.len()], docs, counts);
    } else {
        count_present(lanes, present, docs, counts);
    }
}

/// As `count_offsets`, if every document has a value.
fn count_all<L: OffsetInt>(lanes: &[L], docs: &[u32], counts: &mut [u64])
    requires { (doc : ℕ) → doc < length lanes.now → slice_index (map L.value lanes.now) doc < length counts.old }
    ensures { AreCounted (slice_get (map L.value lanes.now)) docs.now counts.old counts.new }
{
    for doc in docs {
        if let Some(lane) = lanes.get(*doc as usize) {
            count_one(counts, lane.number() as usize);
        }
    }
}

/// As `count_offsets`, if some documents may have no value.
fn count_present<L: OffsetInt>(lanes: &[L], present: &Bits, docs: &[u32], counts: &mut [u64])
    requires enough { length present.now ≤ length lanes.now }
    requires within { (doc : ℕ) → doc < length present.now
        → slice_index (map L.value lanes.now) doc < length counts.old }
    ensures { AreCounted (number_at present.now (map L.value lanes.now)) docs.now counts.old counts.new }
{
    for doc in docs {
        let doc = *doc as usize;
        if present.contains(doc) {
            count_one(counts, lanes[doc].number() as usize);
        }
    }
}

/// Adds one to the count at an index. No count comes near 2^64, so overflow isn't checked.
#[inline]
fn count_one(counts: &mut [u64], place: usize)
    requires { place < length counts.old }
    ensures { counts.new ≡ slice_set counts.old place ((slice_index counts.old place + 1) % 2 ^ 64) }
{
    counts[place] = counts[place].wrapping_add(1);
}
