// What a script needs of an index, whatever form the index has.
ghost use Rattle.std.specs.Prelude.{◌≡◌, ◌+◌, ◌^◌, ◌≤◌, ℕ, true, Ok, IfOk, OnOk};
ghost use Rattle.std.specs.Thread.{IsSync};
ghost use Rattle.fts_base.specs.Results.{Gives};
ghost use Rattle.fts_model.specs.QueryValues.{query_value};
ghost use Rattle.fts_model.specs.Operations.{op_fits};
ghost use Rattle.fts_model.specs.Queries.{query_fits, request_fits};

use crate::options::Options;
use fts_model::{Answer, Op, Query, Refusal, Request, Schema, Stamp};

/// The most operations that are uncommitted.
pub const MOST_UNCOMMITTED: usize = 1_000_000;

/// What a script asks of an index without giving it any resources. [`EngineOver`] has the rest.
pub trait Engine {
    ghost use Rattle.fts_engine.specs.Indexes.{Index, indexes};
    ghost use Rattle.fts_engine.specs.Steps.{next_stamp, submit, Steps};

    /// The index, as the definitions have it.
    ghost index: { Self → Index };

    /// A bound on what an engine counts: it rises by at most one in each call that may change the index.
    ghost changes: { Self → ℕ };

    /// How many segments hold the last commit; 0 if it isn't in segments.
    ghost segments: { Self → ℕ };

    /// The schema of all documents.
    fn schema(&self) -> &Schema
        ensures { result.now ≡ (index self.now).schema };

    /// The stamp of the last commit.
    fn commit_stamp(&self) -> Stamp
        ensures { result ≡ (index self.now).commit_stamp };

    /// The stamp of the next operation or commit.
    fn next_stamp(&self) -> Stamp
        requires { changes self.now ≤ 2 ^ 61 }
        ensures { result ≡ next_stamp indexes (index self.now) };

    /// Takes an operation, and returns its stamp. It is refused as `LaneFull` if 1,000,000 are uncommitted.
    fn submit(&mut self, op: Op) -> Result<Stamp, Refusal>
        requires changes { changes self.old ≤ 2 ^ 61 }
        requires fits { op_fits (index self.old).schema op ≡ true }
        ensures step { Steps (submit indexes op (index self.old)) (index self.old)
            (index self.new) result }
        ensures changes { changes self.new ≤ changes self.old + 1 };
}

/// An index under a script that is given an `R` to work with: an allocator, and whatever else the engine asks for, such
/// as threads. Each method is a step of a script, and a refused one leaves the index as it was.
///
/// An engine isn't dropped but closed, since it may have threads and readers to end.
pub trait EngineOver<R: AllocGlobal + Sync>: Engine {
    ghost use Rattle.fts_engine.specs.Indexes.{indexes};
    ghost use Rattle.fts_engine.specs.Steps.{commit, rollback, merge, search_commit, Steps};

    /// A new index. The options decide how it works, never what it answers.
    fn open(rt: &R, options: Options, schema: Schema) -> Result<Self, Refusal>
        ensures index { Gives (λ engine. Self.index engine) result (Ok (indexes.opened schema)) }
        ensures changes { IfOk result (λ engine. Self.changes engine ≡ 0) };

    /// Commits the operations since the last commit, and returns the commit's stamp.
    fn commit(&mut self, rt: &R) -> Result<Stamp, Refusal>
        requires changes { Self.changes self.old ≤ 2 ^ 61 }
        requires sync { IsSync R.row }
        ensures step { Steps (commit indexes (Self.index self.old)) (Self.index self.old)
            (Self.index self.new) result }
        ensures changes { Self.changes self.new ≤ Self.changes self.old + 1 };

    /// Gives up the operations since the last commit, and returns that commit's stamp.
    fn rollback(&mut self, rt: &R) -> Result<Stamp, Refusal>
        requires { Self.changes self.old ≤ 2 ^ 61 }
        ensures step { Steps (rollback indexes (Self.index self.old)) (Self.index self.old)
            (Self.index self.new) result }
        ensures changes { Self.changes self.new ≤ Self.changes self.old + 1 };

    /// Merges the segments of the last commit, and returns how many documents there are. It is refused as `TooLarge` if
    /// there are over 1,048,576. Uncommitted operations stay uncommitted.
    fn merge(&mut self, rt: &R) -> Result<u64, Refusal>
        requires changes { Self.changes self.old ≤ 2 ^ 61 }
        requires sync { IsSync R.row }
        ensures step { Steps (merge indexes (Self.index self.old)) (Self.index self.old)
            (Self.index self.new) result }
        ensures one { OnOk result (Self.segments self.new ≤ 1) }
        ensures changes { Self.changes self.new ≤ Self.changes self.old + 1 };

    /// The answer over the documents of the last commit. The only refusal is `Memory`.
    fn search(&mut self, rt: &R, query: &Query, request: &Request) -> Result<Answer, Refusal>
        requires query { query_fits (Self.index self.old).schema (query_value query.now) ≡ true }
        requires sync { IsSync R.row }
        requires request { request_fits (Self.index self.old).schema request.now ≡ true }
        ensures step { Steps
            (search_commit indexes (query_value query.now) request.now (Self.index self.old))
            (Self.index self.old) (Self.index self.new) result }
        ensures changes { Self.changes self.new ≤ Self.changes self.old };

    /// Ends the index.
    fn close(self, rt: &R);
}
