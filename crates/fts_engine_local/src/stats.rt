// The size of an index.
ghost use Rattle.std.specs.Prelude.{◌≡◌, ◌+◌};
ghost use Rattle.fts_engine_local.specs.Stats.{capped, stats_of};

use fts_snapshots::EntryList;

/// The size of an index at a commit. A number over the greatest `u64` is that one.
#[derive(Clone, Copy, Debug, PartialEq, Eq)]
#[repr(C)]
pub struct Stats {
    /// How many segments there are.
    pub segments: u64,
    /// How many documents the segments have, deleted ones that are still in them included.
    pub documents: u64,
    /// How many of them are live.
    pub live: u64,
}

/// A sum, or the greatest number if it is above.
fn capped_sum(a: u64, b: u64) -> u64
    ensures { result ≡ capped (a + b) }
{
    a.saturating_add(b)
}

/// The sizes of segments, added up.
pub(crate) fn stats_of(entries: &EntryList) -> Stats
    ensures { result ≡ stats_of entries.now }
{
    let mut documents = 0;
    let mut live = 0;
    for entry in entries.iter() {
        documents = capped_sum(documents, entry.segment().docs() as u64);
        live = capped_sum(live, entry.live_count() as u64);
    }
    Stats {
        segments: entries.len() as u64,
        documents,
        live,
    }
}
