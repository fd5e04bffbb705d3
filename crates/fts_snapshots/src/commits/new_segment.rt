// A segment before it is built.
ghost use Rattle.std.specs.Prelude.{◌≤◌, length};
ghost use Rattle.fts_model.specs.Limits.{most_built};

use fts_segment::Builder;

/// A segment before it is built: its number, and the builder of its documents, which are at most 65,536.
#[derive(Drop)]
pub(crate) struct NewSegment<'a> {
    pub(crate) id: u64,
    pub(crate) builder: &'a Builder,
    ghost few: { length builder.now.segment.documents ≤ most_built },
}
