// The order of hits in a top list.
ghost use Rattle.std.specs.Prelude.{◌≡◌};
ghost use Rattle.fts_parts.specs.Internals.Joins.{rank};

use fts_model::{Hit, Order};
use std::cmp::Ordering;

/// Compares two hits in a top list: by their values, and equal values by their stamps.
pub(crate) fn rank(order: Order, a: &Hit, b: &Hit) -> Ordering
    ensures { result ≡ rank order a.now b.now }
{
    order.compare(a.value, b.value).then(a.stamp.cmp(&b.stamp))
}
