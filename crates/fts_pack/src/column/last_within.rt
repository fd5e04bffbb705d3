// Searches documents from the last to the first for one whose offset is in a range. The array's width is checked once
// for many documents, so each costs a load, a bit if some have no value, and two comparisons.
ghost use Rattle.std.specs.Prelude.{◌≡◌, ◌≤◌, Some, length, map, slice_get};
ghost use Rattle.fts_pack.specs.column.Column.{is_within};
ghost use Rattle.fts_pack.specs.column.Interval.{IsLastWithin};
ghost use Rattle.fts_pack.specs.column.OffsetArray.{number_at};

use crate::bits::Bits;
use crate::column::offset_int::OffsetInt;

/// The index of the last document in `docs` whose offset lies in `low..=high`.
pub(crate) fn last_offset_within<L: OffsetInt>(
    lanes: &[L],
    present: &Bits,
    docs: &[u32],
    low: u64,
    high: u64,
) -> Option<usize>
    requires { length present.now ≤ length lanes.now }
    ensures { IsLastWithin (number_at present.now (map L.value lanes.now)) low high docs.now result }
{
    if present.is_all_set() {
        last_of_all(&lanes[..present.len()], docs, low, high)
    } else {
        last_present(lanes, present, docs, low, high)
    }
}

/// As `last_offset_within`, if every document has a value.
fn last_of_all<L: OffsetInt>(lanes: &[L], docs: &[u32], low: u64, high: u64) -> Option<usize>
    ensures { IsLastWithin (slice_get (map L.value lanes.now)) low high docs.now result }
{
    let mut place = docs.len();
    while place > 0 {
        place -= 1;
        if let Some(lane) = lanes.get(docs[place] as usize) {
            if is_between(lane.number(), low, high) {
                return Some(place);
            }
        }
    }
    None
}

/// As `last_offset_within`, if some documents may have no value.
fn last_present<L: OffsetInt>(
    lanes: &[L],
    present: &Bits,
    docs: &[u32],
    low: u64,
    high: u64,
) -> Option<usize>
    requires { length present.now ≤ length lanes.now }
    ensures { IsLastWithin (number_at present.now (map L.value lanes.now)) low high docs.now result }
{
    let mut place = docs.len();
    while place > 0 {
        place -= 1;
        let doc = docs[place] as usize;
        if present.contains(doc) && is_between(lanes[doc].number(), low, high) {
            return Some(place);
        }
    }
    None
}

/// Whether a number is in `low..=high`.
#[inline]
fn is_between(number: u64, low: u64, high: u64) -> bool
    ensures { result ≡ is_within low high (Some number) }
{
    low <= number && number <= high
}
