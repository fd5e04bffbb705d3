// Engines that can be forked.
ghost use Rattle.std.specs.Prelude.{◌≡◌, ◌≤◌, IfOk};

use crate::engine::Engine;
use std::alloc::AllocError;

/// An engine that can be forked, since its commits are shared.
pub trait Fork: Engine {
    ghost use Rattle.fts_engine.specs.Indexes.{indexes};

    /// Another engine at the last commit, without the operations since. Each of the two goes on by itself.
    fn fork(&self) -> Result<Self, AllocError>
        ensures index { IfOk result (λ fork. Self.index fork ≡ indexes.rolled_back (Self.index self.now)) }
        ensures changes { IfOk result (λ fork. Self.changes fork ≤ Self.changes self.now) };
}
