// An index over segments that needs nothing but memory: no other thread, and nothing to wait for.
ghost use Rattle.std.specs.Prelude.{◌≡◌, ◌+◌, ◌^◌, [], OnOk};

use crate::begun_merge::{BegunMerge, MergeSlot, begun, ended, is_memory};
use crate::local_policy::policy_after;
use crate::next_commit::next_commit;
use crate::stats::{Stats, stats_of};
use fts_collect::search_alone;
use fts_engine::{Engine, EngineOver, Fork, MOST_UNCOMMITTED, Merge, Options, TakeBack};
use fts_model::{Answer, Cut, Op, Query, Refusal, Request, Schema, Stamp, Stamped};
use fts_snapshots::{CommitPoint, Snapshot, merge_all, merge_planned};
use std::alloc::{AllocError, Global};
use std::marker::Model;
use std::sync::Arc;

/// After a commit or rollback the buffer of operations is shrunk to this capacity.
const MOST_KEPT: usize = 1_024;

/// Once this many calls changed the engine, no merge is ended.
const MOST_CALLS: u64 = 1 << 61;

/// Clears the operations, and shrinks their buffer to `MOST_KEPT`.
fn let_go(ops: &mut Vec<Stamped<Op>>)
    ensures { ops.new.items ≡ [] }
{
    ops.clear();
    ops.shrink_to(MOST_KEPT);
}

/// The last commit, which forks share, and the operations since.
///
/// All work is done by the calling thread, so only the options on cuts and merges have an effect.
#[derive(Drop)]
pub struct LocalEngine {
    alloc: Global,
    cut: Cut,
    merge: Merge,
    commit: Arc<CommitPoint>,
    uncommitted: Vec<Stamped<Op>>,
    /// How many calls changed something.
    calls: u64,
    /// Whether all that was due after the last commit was merged: memory may have run out for some.
    is_merged: bool,
    /// A commit merges no segment of more live documents than this, if there is a limit.
    limit: Option<u32>,
    /// The slot of the merge that was started last.
    begun: Option<Arc<MergeSlot>>,
}

impl Model for LocalEngine {
    ghost use Rattle.std.specs.Arc.{arc_value};
    ghost use Rattle.std.specs.Option.{option_map};
    ghost use Rattle.fts_engine_local.specs.declared.begun_merge.MergeSlot.{MergeSlot};
    ghost use Rattle.fts_engine_local.specs.LocalIndexes.{IsLocalEngine, LocalValue, index_at};
    ghost use Rattle.fts_engine_local.specs.Stats.{stats_of};

    ghost Value = { LocalValue };

    ghost view = { λ e. record {
      index = index_at (arc_value e.commit).stamp (arc_value e.commit).snapshot e.uncommitted.items;
      calls = e.calls;
      stats = stats_of (arc_value e.commit).snapshot.entries;
      snapshot = (arc_value e.commit).snapshot;
      merge = e.merge;
      is_merged = e.is_merged;
      begun = option_map (λ place. (arc_value {X = MergeSlot} place).made) e.begun;
      limit = e.limit;
    } };

    ghost invariant = { λ e. IsLocalEngine (arc_value e.commit) e.uncommitted.items e.cut e.calls
        (option_map (λ place. (arc_value {X = MergeSlot} place).made) e.begun) };
}

impl LocalEngine {
    ghost use Rattle.std.specs.Prelude.{◌≡◌, ◌<◌, ◌≤◌, ◌^◌, length};
    ghost use Rattle.fts_engine_local.specs.EndedMerges.{Begins, EndsMerge};

    /// How large the index is at its last commit. Each segment has a live document.
    pub fn stats(&self) -> Stats
        ensures stats { result ≡ self.now.stats }
        ensures live { result.live ≡ length self.now.index.documents }
        ensures segments { result.segments ≤ result.live }
        ensures documents { result.live ≤ result.documents }
    {
        stats_of(self.commit.snapshot.entries())
    }

    /// Whether all that was due after the last commit was merged. If memory ran out for some merge, its segments are
    /// left to the next commit. No reply shows it.
    pub fn is_merged(&self) -> bool
        ensures { result ≡ self.now.is_merged }
    {
        self.is_merged
    }

    /// From now on, commits merge no segment of more live documents than this, and none by itself. Without a limit,
    /// they merge whatever the policy names.
    pub fn limit_merges(&mut self, limit: Option<u32>)
        ensures { self.new ≡ record self.old { limit = limit } }
    {
        self.limit = limit;
    }

    /// Starts a merge of the first candidate of the policy that can be merged, if there is one. It may be run in any
    /// thread, while the engine goes on. The engine forgets a merge that was started before.
    pub fn begin_merge(&mut self) -> Result<Option<BegunMerge>, Refusal>
        ensures { Begins self.old self.new result }
    {
        match begun(self.alloc, &self.commit.snapshot) {
            Ok(Some((merge, place))) => {
                self.begun = Some(place);
                Ok(Some(merge))
            }
            Ok(None) => Ok(None),
            Err(refusal) => Err(refusal),
        }
    }

    /// Ends the merge that was started last, if there is one and it was run, and returns whether it did: the segment
    /// takes the place of its sources, with the live bits that these have by then. Nothing is found differently
    /// afterwards.
    ///
    /// `SourceGone` if a source is gone, and the merge is given up then; `Memory` also after 2^61 calls.
    pub fn end_merge(&mut self) -> Result<bool, Refusal>
        ensures { EndsMerge self.old self.new result }
    {
        if self.calls >= MOST_CALLS {
            return Err(Refusal::Memory);
        }
        self.calls += 1;
        let Some(place) = &self.begun else {
            return Ok(false);
        };
        match ended(self.alloc, place, &self.commit) {
            Ok(Some(commit)) => {
                self.commit = commit;
                self.begun = None;
                Ok(true)
            }
            Ok(None) => Ok(false),
            Err(refusal) => {
                if is_memory(refusal) {
                    return Err(Refusal::Memory);
                }
                self.begun = None;
                Err(refusal)
            }
        }
    }
}

impl Fork for LocalEngine {
    fn fork(&self) -> Result<Self, AllocError> {
        let commit = Arc::try_clone(&self.commit)?;
        Ok(LocalEngine {
            alloc: self.alloc,
            cut: self.cut,
            merge: self.merge,
            commit,
            uncommitted: Vec::new(self.alloc),
            calls: self.calls,
            is_merged: self.is_merged,
            limit: self.limit,
            begun: None,
        })
    }
}

impl Engine for LocalEngine {
    ghost index = { λ e. e.index };

    ghost changes = { λ e. e.calls };

    ghost segments = { λ e. e.stats.segments };

    fn schema(&self) -> &Schema {
        self.commit.snapshot.schema()
    }

    fn commit_stamp(&self) -> Stamp {
        self.commit.stamp
    }

    fn next_stamp(&self) -> Stamp {
        self.commit.stamp + self.uncommitted.len() as u64 + 1
    }

    fn submit(&mut self, op: Op) -> Result<Stamp, Refusal> {
        self.calls += 1;
        if self.uncommitted.len() >= MOST_UNCOMMITTED {
            return Err(Refusal::LaneFull);
        }
        let stamp = self.commit.stamp + self.uncommitted.len() as u64 + 1;
        self.uncommitted.push(Stamped { stamp, value: op })?;
        Ok(stamp)
    }
}

impl TakeBack for LocalEngine {
    fn uncommitted(&self) -> usize {
        self.uncommitted.len()
    }

    fn keep_first(&mut self, count: usize) {
        self.uncommitted.truncate(count);
    }
}

impl<R: AllocGlobal + Sync> EngineOver<R> for LocalEngine {
    ghost use Rattle.std.specs.Prelude.{◌≤◌};
    ghost use Rattle.std.specs.Thread.{IsSync};
    ghost use Rattle.fts_engine.specs.Indexes.{indexes};
    ghost use Rattle.fts_engine.specs.Steps.{commit, Steps};
    ghost use Rattle.fts_engine.specs.DefaultOptions.{if_policy};
    ghost use Rattle.fts_snapshots.specs.CountedSnapshots.{CommitsAndMerges};
    ghost use Rattle.fts_engine_local.specs.LocalPolicies.{local_policy};

    fn open(rt: &R, options: Options, schema: Schema) -> Result<Self, Refusal> {
        let alloc = rt.alloc();
        let snapshot = Snapshot::new(alloc, schema);
        let commit = Arc::new(alloc, CommitPoint { stamp: 0, snapshot })?;
        Ok(LocalEngine {
            alloc,
            cut: options.cut,
            merge: options.merge,
            commit,
            uncommitted: Vec::new(alloc),
            calls: 0,
            is_merged: true,
            limit: None,
            begun: None,
        })
    }

    /// Commits, and then merges what is due.
    fn commit(&mut self, rt: &R) -> Result<Stamp, Refusal>
        requires changes { self.old.calls ≤ 2 ^ 61 }
        requires sync { IsSync R.row }
        ensures step { Steps (commit indexes self.old.index) self.old.index self.new.index result }
        ensures changes { self.new.calls ≤ self.old.calls + 1 }
        ensures merged { OnOk result (CommitsAndMerges (if_policy self.old.merge (local_policy self.old.limit))
            self.old.index.uncommitted self.old.snapshot self.new.snapshot self.new.is_merged) }
    {
        self.calls += 1;
        let mut commit = next_commit(self.alloc, &self.commit, &self.uncommitted, self.cut)?;
        let policy = policy_after(self.merge, self.limit);
        let merged = merge_planned(rt, self.alloc, &mut commit, policy);
        self.is_merged = merged.is_ok();
        self.commit = commit;
        let_go(&mut self.uncommitted);
        Ok(self.commit.stamp)
    }

    fn rollback(&mut self, _rt: &R) -> Result<Stamp, Refusal> {
        self.calls += 1;
        let_go(&mut self.uncommitted);
        Ok(self.commit.stamp)
    }

    fn merge(&mut self, rt: &R) -> Result<u64, Refusal> {
        self.calls += 1;
        let mut commit = Arc::try_clone(&self.commit)?;
        let live = merge_all(rt, self.alloc, &mut commit)?;
        self.commit = commit;
        Ok(live)
    }

    fn search(&mut self, rt: &R, query: &Query, request: &Request) -> Result<Answer, Refusal> {
        search_alone(rt.alloc(), &self.commit.snapshot, query, request)
    }

    fn close(self, _rt: &R) {}
}
