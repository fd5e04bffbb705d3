// Engines whose last operations can be taken back.
ghost use Rattle.std.specs.Prelude.{◌≡◌, ◌≤◌, length};

use crate::engine::Engine;

/// An engine whose last uncommitted operations can be taken back.
pub trait TakeBack: Engine {
    ghost use Rattle.fts_engine.specs.TakeBack.{keep_first};

    /// How many operations are uncommitted.
    fn uncommitted(&self) -> usize
        ensures { result ≡ length (Self.index self.now).uncommitted };

    /// Takes back the uncommitted operations but this many, the first ones.
    fn keep_first(&mut self, count: usize)
        ensures index { Self.index self.new ≡ keep_first count (Self.index self.old) }
        ensures changes { Self.changes self.new ≤ Self.changes self.old };
}
