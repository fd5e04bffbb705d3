// What publishers and readers hand out: a snapshot to search, and what a commit published.
ghost use Rattle.std.specs.Prelude.{◌≡◌, ◌≤◌, ◌↔◌, true, List, IsTrue, IfOk, IsOkUnless};
ghost use Rattle.std.specs.List.{AllZip};
ghost use mathlib.Core.List.{IsPrefix};
ghost use Rattle.fts_model.specs.Queries.{query_fits, request_fits};
ghost use Rattle.fts_model.specs.QueryValues.{query_value};
ghost use Rattle.fts_model.specs.Answers.{answer};
ghost use Rattle.fts_snapshots.specs.Snapshots.{content_of};
ghost use Rattle.fts_collect.specs.Searches.{AreOfParts, IsPartOf, OpensInAll};
ghost use Rattle.fts_index.specs.declared.publications.publication.Publication.{Publication};
ghost use Rattle.fts_index.specs.Publications.{IsFront, IsOneCommit};

use crate::publications::front::Front;
use crate::searches::{
    Found, SearchPool, openings_of, search_cost, segment_parts, segment_parts_by,
};
use fts_collect::Part;
use fts_model::{Query, Refusal, Request, Stamp};
use fts_pool::Gate;
use fts_snapshots::Snapshot;
use std::alloc::Global;
use std::marker::Model;
use std::sync::Wait;
use std::thread::Threads;

/// A snapshot to search, which it keeps whatever is published afterwards. Contracts see it with its commit stamp and
/// with the publications known when it was taken.
#[derive(Drop)]
pub struct Searcher {
    pub(crate) front: Front,
}

impl Model for Searcher {
    ghost use Rattle.fts_index.specs.Publications.{FrontValue};

    ghost Value = { FrontValue };

    ghost view = { λ s. s.front };
}

impl Searcher {
    /// The stamp of the commit that is searched.
    pub fn commit_stamp(&self) -> Stamp
        ensures stamp { result ≡ self.now.stamp }
        ensures front { IsFront self.now }
    {
        self.front.stamp()
    }

    /// The snapshot that is searched. Its content and the commit stamp are those of the last known publication.
    pub fn snapshot(&self) -> &Snapshot
        ensures snapshot { result.now ≡ self.now.snapshot }
        ensures front { IsFront self.now }
    {
        self.front.snapshot()
    }

    /// Whether another searcher, made by the same writer or a reader of it, searches the same commit. Whatever readers
    /// made them, both know beginnings of the one list that the writer published.
    pub fn is_of_commit(&self, other: &Searcher) -> bool
        requires { other.now.seen.of ≡ self.now.seen.of }
        ensures commit { IsTrue result ↔ IsOneCommit self.now other.now }
        ensures one_list { (all : List Publication) × IsPrefix self.now.seen.list all
            × IsPrefix other.now.seen.list all }
    {
        self.front.is_of_commit(&other.front)
    }

    /// About how many nanoseconds one thread takes for a search: an estimate, by the query's terms in the segment with
    /// the most documents. It says how many threads a search is worth, and any number is right.
    pub fn cost(&self, query: &Query, request: &Request) -> u64 {
        search_cost(self.snapshot().entries(), query, request)
    }

    /// What a search found by the parts of all segments, which are those of this query and request. The only refusal is
    /// `Memory`.
    fn found(
        &self,
        alloc: Global,
        parts: Vec<Part>,
        _query: &Query,
        request: &Request,
    ) -> Result<Found, Refusal>
        requires { AllZip (IsPartOf (query_value _query.now) request.now)
            self.now.snapshot.entries parts.items }
        ensures answer { IfOk result (λ found. found.answer ≡ answer self.now.snapshot.schema
            (query_value _query.now) request.now (content_of self.now.snapshot)) }
        ensures openings { IfOk result (λ found.
            OpensInAll self.now.snapshot (query_value _query.now) found.openings) }
        ensures parts { IfOk result (λ found.
            AreOfParts (query_value _query.now) request.now self.now.snapshot found.openings) }
        ensures memory { IsOkUnless result Refusal.Memory }
    {
        // This says that the segments have the snapshot's schema, and that their stamps rise.
        let _entries = self.snapshot().entries();
        let openings = openings_of(&parts);
        match Part::join(alloc, parts, request) {
            Ok(answer) => Ok(Found { answer, openings }),
            Err((_, refusal)) => Err(refusal),
        }
    }

    /// What a query finds among all documents of the commit. The segments are searched by up to this many threads, 1 to
    /// 64, the calling one among them: one job for each segment, in their order. The gate is called around each. With
    /// one thread, no segment is searched after one for which memory was refused.
    ///
    /// The result also has the number of blocks of lists that were opened: the sum over the parts, of which there is
    /// one for each segment. For a query of one term that is each block of its lists, once; for several terms that all
    /// must match, at most the bound of a conjunction; and for every query at most what is said of it. The only refusal
    /// is `Memory`.
    pub fn search<R: Threads + Wait + Sync, G: Gate>(
        &self,
        rt: &R,
        alloc: Global,
        query: &Query,
        request: &Request,
        workers: usize,
        gate: &G,
    ) -> Result<Found, Refusal>
        requires query { query_fits self.now.snapshot.schema (query_value query.now) ≡ true }
        requires request { request_fits self.now.snapshot.schema request.now ≡ true }
        requires workers { (1 ≤ workers) × (workers ≤ 64) }
        ensures answer { IfOk result (λ found. found.answer ≡ answer self.now.snapshot.schema
            (query_value query.now) request.now (content_of self.now.snapshot)) }
        ensures openings { IfOk result (λ found.
            OpensInAll self.now.snapshot (query_value query.now) found.openings) }
        ensures parts { IfOk result (λ found.
            AreOfParts (query_value query.now) request.now self.now.snapshot found.openings) }
        ensures memory { IsOkUnless result Refusal.Memory }
    {
        let entries = self.snapshot().entries();
        let parts = segment_parts(rt, alloc, entries, query, request, workers, gate)?;
        self.found(alloc, parts, query, request)
    }

    /// What a query finds among all documents of the commit, as by [`Searcher::search`]. The segments are searched by
    /// up to this many threads, 1 to 64: the calling one, and those of a pool, which stay. The only refusal is
    /// `Memory`.
    pub fn search_by<R: Threads + Wait + Copy + Send + 'static>(
        &self,
        rt: &R,
        alloc: Global,
        pool: &mut SearchPool,
        query: &Query,
        request: &Request,
        workers: usize,
    ) -> Result<Found, Refusal>
        requires query { query_fits self.now.snapshot.schema (query_value query.now) ≡ true }
        requires request { request_fits self.now.snapshot.schema request.now ≡ true }
        requires workers { (1 ≤ workers) × (workers ≤ 64) }
        ensures answer { IfOk result (λ found. found.answer ≡ answer self.now.snapshot.schema
            (query_value query.now) request.now (content_of self.now.snapshot)) }
        ensures openings { IfOk result (λ found.
            OpensInAll self.now.snapshot (query_value query.now) found.openings) }
        ensures parts { IfOk result (λ found.
            AreOfParts (query_value query.now) request.now self.now.snapshot found.openings) }
        ensures memory { IsOkUnless result Refusal.Memory }
    {
        let entries = self.snapshot().entries();
        let parts = segment_parts_by(rt, alloc, pool, entries, query, request, workers)?;
        self.found(alloc, parts, query, request)
    }
}

/// What a writer had published when a call returned. It can be handed to readers in any thread. Contracts see it as the
/// writer and the list of its publications.
#[derive(Drop)]
pub struct CommitSeen {
    pub(crate) front: Front,
}

impl Model for CommitSeen {
    ghost use Rattle.fts_index.specs.Publications.{Known};

    ghost Value = { Known };

    ghost view = { λ s. s.front.seen };
}
