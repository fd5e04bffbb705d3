// A segment of a snapshot.
ghost use Rattle.std.specs.Prelude.{◌≡◌};

use fts_merge::SegmentSize;
use fts_pack::bits::Bits;
use fts_segment::Segment;
use std::alloc::{AllocError, Global};
use std::marker::Model;
use std::sync::Arc;

/// A segment with its number and a live bit for each of its documents. A copy shares the data.
#[derive(Drop)]
pub struct Entry {
    shared: Arc<EntryData>,
}

/// The data that copies of an entry share.
#[derive(Drop)]
struct EntryData {
    id: u64,
    segment: Segment,
    live: Bits,
}

impl Model for Entry {
    ghost use Rattle.std.specs.Arc.{arc_value};
    ghost use Rattle.fts_snapshots.specs.Entries.{EntryValue, IsEntry};

    ghost Value = { EntryValue };

    ghost view = { λ e. record {
      id = (arc_value e.shared).id;
      segment = (arc_value e.shared).segment;
      live = (arc_value e.shared).live;
    } };

    ghost invariant = { λ e. IsEntry (record {
      id = (arc_value e.shared).id;
      segment = (arc_value e.shared).segment;
      live = (arc_value e.shared).live;
    }) };
}

/// The size of a segment of a snapshot.
#[derive(Clone, Copy, Debug, PartialEq, Eq)]
pub struct SegmentInfo {
    /// The number of the segment.
    pub id: u64,
    /// The number of documents.
    pub docs: usize,
    /// The number of live documents.
    pub live: usize,
}

impl Entry {
    ghost use Rattle.std.specs.Prelude.{◌≡◌, ◌≤◌, IfOk};
    ghost use Rattle.fts_snapshots.specs.Entries.{IsEntry, live_count, has_live};
    ghost use Rattle.fts_model.specs.Limits.{most_merged};
    ghost use Rattle.fts_snapshots.specs.Infos.{info_of, size_of};
    ghost use Rattle.fts_snapshots.specs.Successors.{is_set};

    /// Makes an entry of a segment, its number and its live bits.
    pub(crate) fn new(
        alloc: Global,
        id: u64,
        segment: Segment,
        live: Bits,
    ) -> Result<Entry, AllocError>
        requires { IsEntry (record { id = id; segment = segment; live = live }) }
        ensures { IfOk result (λ entry. entry ≡ record { id = id; segment = segment; live = live }) }
    {
        let shared = Arc::new(alloc, EntryData { id, segment, live })?;
        Ok(Entry { shared })
    }

    /// The number of the segment.
    pub fn id(&self) -> u64
        ensures { result ≡ self.now.id }
    {
        self.shared.id
    }

    /// The segment.
    pub fn segment(&self) -> &Segment
        ensures segment { result.now ≡ self.now.segment }
        ensures bits { IsEntry self.now }
    {
        &self.shared.segment
    }

    /// The live bits of the documents.
    pub fn live(&self) -> &Bits
        ensures live { result.now ≡ self.now.live }
        ensures bits { IsEntry self.now }
    {
        &self.shared.live
    }

    /// The number of live documents.
    pub fn live_count(&self) -> usize
        ensures count { result ≡ live_count self.now }
        ensures few { result ≤ most_merged }
    {
        self.live().count_ones()
    }

    /// Whether the segment has a live document.
    pub fn has_live(&self) -> bool
        ensures { result ≡ has_live self.now }
    {
        let bits = self.live();
        bits.count_ones() > 0
    }

    /// Whether the document of this number is live.
    pub fn is_live(&self, document: usize) -> bool
        ensures { result ≡ is_set self.now.live document }
    {
        self.live().contains(document)
    }

    /// The size of the segment.
    pub fn info(&self) -> SegmentInfo
        ensures { result ≡ info_of self.now }
    {
        SegmentInfo {
            id: self.id(),
            docs: self.segment().docs(),
            live: self.live_count(),
        }
    }

    /// The size of the segment, for a merge policy.
    pub(crate) fn size(&self) -> SegmentSize
        ensures { result ≡ size_of self.now }
    {
        SegmentSize {
            docs: self.segment().docs() as u32,
            live: self.live_count() as u32,
        }
    }
}

impl Clone for Entry {
    ghost is_clone = { λ entry copy. copy ≡ entry };

    fn clone(&self) -> Result<Self, AllocError> {
        Ok(Entry {
            shared: Arc::try_clone(&self.shared)?,
        })
    }
}
