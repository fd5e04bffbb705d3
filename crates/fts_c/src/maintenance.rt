// Limits, beginnings and ends of merges, as maintenance that a session hands on to its engine.
ghost use Rattle.std.specs.Prelude.{◌≡◌, ◌+◌, ◌^◌, ◌≤◌};
ghost use Rattle.fts_engine_local.specs.EndedMerges.{Begins, EndsMerge};

use fts_engine_local::{BegunMerge, LocalEngine};
use fts_model::Refusal;
use fts_script::session::Maintenance;

/// Sets the limit of what commits merge.
#[derive(Drop)]
pub(crate) struct LimitMerges {
    pub(crate) limit: Option<u32>,
}

impl Maintenance<LocalEngine> for LimitMerges {
    type Done = ();

    ghost did = { λ work old new _. new ≡ record old { limit = work.limit } };

    fn done(self, engine: &mut LocalEngine)
        ensures index { engine.new.index ≡ engine.old.index }
        ensures changes { engine.new.calls ≤ engine.old.calls + 1 }
        ensures counted { 2 ^ 61 ≤ engine.old.calls → engine.new.calls ≡ engine.old.calls }
        ensures did { engine.new ≡ record engine.old { limit = self.limit } }
    {
        engine.limit_merges(self.limit);
    }
}

/// Starts a merge.
#[derive(Drop)]
pub(crate) struct BeginMerge;

impl Maintenance<LocalEngine> for BeginMerge {
    type Done = Result<Option<BegunMerge>, Refusal>;

    ghost did = { λ _ old new begun. Begins old new begun };

    fn done(self, engine: &mut LocalEngine) -> Result<Option<BegunMerge>, Refusal>
        ensures index { engine.new.index ≡ engine.old.index }
        ensures changes { engine.new.calls ≤ engine.old.calls + 1 }
        ensures counted { 2 ^ 61 ≤ engine.old.calls → engine.new.calls ≡ engine.old.calls }
        ensures did { Begins engine.old engine.new result }
    {
        engine.begin_merge()
    }
}

/// Ends the merge that was started last.
#[derive(Drop)]
pub(crate) struct EndMerge;

impl Maintenance<LocalEngine> for EndMerge {
    type Done = Result<bool, Refusal>;

    ghost did = { λ _ old new ended. EndsMerge old new ended };

    fn done(self, engine: &mut LocalEngine) -> Result<bool, Refusal>
        ensures index { engine.new.index ≡ engine.old.index }
        ensures changes { engine.new.calls ≤ engine.old.calls + 1 }
        ensures counted { 2 ^ 61 ≤ engine.old.calls → engine.new.calls ≡ engine.old.calls }
        ensures did { EndsMerge engine.old engine.new result }
    {
        engine.end_merge()
    }
}
