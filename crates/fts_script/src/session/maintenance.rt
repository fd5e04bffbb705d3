// Maintenance of an engine, which no reply shows.
ghost use Rattle.std.specs.Prelude.{◌≡◌, ◌+◌, ◌^◌, ◌≤◌};

use fts_engine::Engine;

/// Maintenance of an engine. It doesn't change the index as the definitions have it, nor, once 2^61 changes were
/// counted, any count.
pub trait Maintenance<E: Engine> {
    /// What the work returns.
    type Done;

    /// What the work does to an engine, and what it returns then.
    ghost did: { Self → E → E → Self.Done → Type 0 };

    /// Does the work.
    fn done(self, engine: &mut E) -> Self::Done
        ensures index { E.index engine.new ≡ E.index engine.old }
        ensures changes { E.changes engine.new ≤ E.changes engine.old + 1 }
        ensures counted { 2 ^ 61 ≤ E.changes engine.old → E.changes engine.new ≡ E.changes engine.old }
        ensures did { did self engine.old engine.new result };
}
