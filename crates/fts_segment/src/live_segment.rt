// A segment with its live bits, as a source of a merge.
ghost use Rattle.std.specs.Prelude.{◌≡◌, length};
ghost use Rattle.fts_segment.specs.Sources.{HasBits};

use crate::segment::Segment;
use fts_pack::bits::Bits;
use std::marker::Model;

/// A segment with a live bit for each of its documents.
#[derive(Drop)]
pub struct LiveSegment<'a> {
    segment: &'a Segment,
    live: &'a Bits,
}

impl<'a> Model for LiveSegment<'a> {
    ghost use Rattle.std.specs.Prelude.{◌≡◌, length};
    ghost use Rattle.fts_segment.specs.Sources.{SourceValue};

    ghost Value = { SourceValue };

    ghost view = { λ s. record { segment = s.segment.now; live = s.live.now } };

    ghost invariant = { λ s. length s.live.now ≡ length s.segment.now.documents };
}

impl<'a> LiveSegment<'a> {
    /// The segment with these live bits, one per document.
    pub fn new(segment: &'a Segment, live: &'a Bits) -> LiveSegment<'a>
        requires { length live.now ≡ length segment.now.documents }
        ensures { result ≡ record { segment = segment.now; live = live.now } }
    {
        LiveSegment { segment, live }
    }

    /// The segment.
    pub fn segment(&self) -> &'a Segment
        ensures segment { result.now ≡ self.now.segment }
        ensures bits { HasBits self.now }
    {
        self.segment
    }

    /// The live bits of the documents.
    pub fn live(&self) -> &'a Bits
        ensures live { result.now ≡ self.now.live }
        ensures bits { HasBits self.now }
    {
        self.live
    }
}
