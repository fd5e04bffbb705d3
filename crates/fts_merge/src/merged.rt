// A merged segment with the origins of its documents.
ghost use Rattle.std.specs.Prelude.{◌≡◌, ◌≢◌, ◌<◌, All, AllPairs, length};
ghost use Rattle.fts_merge.specs.Merges.{IsMerged, made_of};

use crate::origin::Origin;
use fts_base::release;
use fts_segment::Segment;
use std::marker::Model;

/// A segment of the live documents of its sources, with the origin of each document: its source and its number there.
/// No two documents have the same origin.
pub struct Merged {
    segment: Segment,
    origins: Vec<Origin>,
    sources: usize,
}

impl Model for Merged {
    ghost use Rattle.fts_merge.specs.Merges.{MergedValue, IsMerged, made_of};

    ghost Value = { MergedValue };

    ghost view = { λ m. made_of m.segment m.origins.items m.sources };

    ghost invariant = { λ m. IsMerged (made_of m.segment m.origins.items m.sources) };
}

impl Drop for Merged {
    fn drop(self) {
        let Merged {
            segment: _,
            origins,
            sources: _,
        } = self;
        release(origins);
    }
}

impl Merged {
    /// Wraps a segment with the origins of its documents.
    pub(crate) fn new(segment: Segment, origins: Vec<Origin>, sources: usize) -> Merged
        requires { IsMerged (made_of segment origins.items sources) }
        ensures { result ≡ made_of segment origins.items sources }
    {
        Merged {
            segment,
            origins,
            sources,
        }
    }

    /// The merged segment.
    pub fn segment(&self) -> &Segment
        ensures { result.now ≡ self.now.segment }
    {
        &self.segment
    }

    /// The origin of each document of the segment, in their order.
    pub fn origins(&self) -> &[Origin]
        ensures origins { result.now ≡ self.now.origins }
        ensures paired { length result.now ≡ length self.now.segment.documents }
        ensures once { AllPairs (λ a b. a ≢ b) result.now }
        ensures named { All (λ origin. origin.source < self.now.sources) result.now }
    {
        &self.origins
    }

    /// The number of sources.
    pub fn sources(&self) -> usize
        ensures { result ≡ self.now.sources }
    {
        self.sources
    }
}
