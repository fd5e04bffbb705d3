// An index over a writer of segments.
ghost use Rattle.std.specs.Prelude.{◌≡◌, ◌≤◌, true, IfOk, IfSome, IsOkUnless};
ghost use Rattle.fts_engine.specs.DefaultOptions.{if_policy};
ghost use Rattle.fts_index.specs.Publications.{IsOneCommit};
ghost use Rattle.fts_merge.specs.Levels.{usual};
ghost use Rattle.fts_model.specs.Answers.{answer};
ghost use Rattle.fts_model.specs.Limits.{most_merged};
ghost use Rattle.fts_model.specs.Queries.{query_fits, request_fits};
ghost use Rattle.fts_model.specs.QueryValues.{query_value};
ghost use Rattle.fts_snapshots.specs.Snapshots.{content_of};
ghost use Rattle.fts_engine_index.specs.WriterIndexes.{IsReaderOf};

use crate::lasting::Lasting;
use crate::threads::threads_for;
use crate::uncommitted;
use crate::uncommitted::Uncommitted;
use fts_engine::{Engine, EngineOver, Merge, Options};
use fts_index::{CommitSeen, Reader, SearchPool, Searcher, SegmentInfo, Writer};
use fts_model::{Answer, Op, Query, Refusal, Request, Schema, Stamp};
use fts_pool::{Open, Pool};
use fts_snapshots::MergePolicy;
use std::alloc::Global;
use std::marker::Model;
use std::sync::Wait;
use std::thread::Threads;

/// A reader of a writer. There is none if the writer has no memory for it.
fn reader_of(writer: &mut Writer) -> Option<Reader>
    ensures same { writer.new ≡ writer.old }
    ensures reader { IsReaderOf writer.new.front.seen result }
{
    match writer.reader() {
        Ok(reader) => Some(reader),
        Err(_) => None,
    }
}

/// Reports a commit to a reader, if there is one. If memory is refused for that, the reader finds the commit when it
/// looks.
fn tell(reader: &mut Option<Reader>, seen: &CommitSeen)
    requires { IsReaderOf seen.now reader.old }
    ensures { IsReaderOf seen.now reader.new }
{
    if let Some(reader) = reader {
        let _ = reader.told(seen);
    }
}

/// The last commit, to be searched: as a reader finds it, or, without one, as the writer has it.
fn last_commit(writer: &Writer, reader: &mut Option<Reader>) -> Result<Searcher, Refusal>
    requires { IsReaderOf writer.now.front.seen reader.old }
    ensures reader { IsReaderOf writer.now.front.seen reader.new }
    ensures last { IfOk result (λ searcher. IsOneCommit searcher writer.now.front) }
    ensures memory { IsOkUnless result Refusal.Memory }
{
    if let Some(reader) = reader {
        let searcher = reader.searcher()?;
        if writer.is_last(&searcher) {
            return Ok(searcher);
        }
    }
    writer.searcher()
}

/// The answer over the documents of a commit, by this many threads: the calling one, and those of a pool. The only
/// refusal is `Memory`.
fn search_by<R: Threads + Wait + Sync + 'static>(
    rt: &'static R,
    alloc: Global,
    pool: &mut SearchPool,
    searcher: &Searcher,
    query: &Query,
    request: &Request,
    workers: usize,
) -> Result<Answer, Refusal>
    requires query { query_fits searcher.now.snapshot.schema (query_value query.now) ≡ true }
    requires request { request_fits searcher.now.snapshot.schema request.now ≡ true }
    requires workers { (1 ≤ workers) × (workers ≤ 64) }
    ensures answer { IfOk result (λ found. found ≡ answer searcher.now.snapshot.schema
        (query_value query.now) request.now (content_of searcher.now.snapshot)) }
    ensures memory { IsOkUnless result Refusal.Memory }
{
    let found = searcher.search_by(&rt, alloc, pool, query, request, workers)?;
    Ok(found.answer)
}

/// Lets a reader, if there is one, look at what is shown, so that it holds no segment from before a merge.
fn look(writer: &Writer, reader: &mut Option<Reader>)
    requires { IsReaderOf writer.now.front.seen reader.old }
    ensures { IsReaderOf writer.now.front.seen reader.new }
{
    let _ = last_commit(writer, reader);
}

/// The policy by which a commit merges, if the option says that it does.
fn policy_after(merge: Merge) -> Option<MergePolicy>
    ensures policy { result ≡ if_policy merge usual }
    ensures floor { IfSome result (λ p. p.floor ≤ most_merged) }
    ensures most { IfSome result (λ p. p.most ≤ most_merged) }
{
    match merge {
        Merge::Off => None,
        Merge::Policy => Some(MergePolicy::usual()),
    }
}

/// A writer of segments, the operations since its last commit, and a reader to which each commit is reported.
pub struct IndexEngine {
    alloc: Global,
    options: Options,
    writer: Writer,
    /// Finds the commit that is searched.
    reader: Option<Reader>,
    uncommitted: Uncommitted,
    /// How many operations are uncommitted.
    count: u64,
    /// How many calls changed something.
    calls: u64,
    /// Whether all that was due after the last commit was merged: memory may have run out for some.
    is_merged: bool,
    /// The threads that take part in searches.
    pool: SearchPool,
}

impl Model for IndexEngine {
    ghost use Rattle.std.specs.Prelude.{is_some, map};
    ghost use Rattle.fts_snapshots.specs.Infos.{info_of};
    ghost use Rattle.fts_engine_index.specs.WriterIndexes.{EngineValue, IsIndexEngine, index_of};

    ghost Value = { EngineValue };

    ghost view = { λ e. record {
      index = index_of e.writer e.uncommitted;
      calls = e.calls;
      segments = map info_of e.writer.front.snapshot.entries;
      has_reader = is_some e.reader;
      snapshot = e.writer.front.snapshot;
      merge = e.options.merge;
      is_merged = e.is_merged;
    } };

    ghost invariant = { λ e. IsIndexEngine e.writer e.reader e.uncommitted e.count e.calls };
}

impl IndexEngine {
    /// The sizes of the segments of the last commit, by rising numbers. No reply shows them.
    pub fn segments(&self, alloc: Global) -> Result<Vec<SegmentInfo>, Refusal>
        ensures segments { IfOk result (λ infos. infos.items ≡ self.now.segments) }
        ensures memory { IsOkUnless result Refusal.Memory }
    {
        self.writer.segments(alloc)
    }

    /// Whether the last commit is searched through a reader. There is none if the writer had no memory for it.
    pub fn has_reader(&self) -> bool
        ensures { result ≡ self.now.has_reader }
    {
        self.reader.is_some()
    }

    /// Whether all that was due after the last commit was merged. If memory ran out for some merge, its segments are
    /// left to the next commit. No reply shows it.
    pub fn is_merged(&self) -> bool
        ensures { result ≡ self.now.is_merged }
    {
        self.is_merged
    }
}

impl Engine for IndexEngine {
    ghost use Rattle.std.specs.Prelude.{length};

    ghost index = { λ e. e.index };

    ghost changes = { λ e. e.calls };

    ghost segments = { λ e. length e.segments };

    fn schema(&self) -> &Schema {
        self.writer.schema()
    }

    fn commit_stamp(&self) -> Stamp {
        self.writer.commit_stamp()
    }

    fn next_stamp(&self) -> Stamp {
        self.writer.commit_stamp() + self.count + 1
    }

    fn submit(&mut self, op: Op) -> Result<Stamp, Refusal> {
        self.calls += 1;
        let stamp = uncommitted::submit(self.alloc, &mut self.writer, &mut self.uncommitted, op)?;
        self.count += 1;
        Ok(stamp)
    }
}

impl<R: AllocGlobal + Threads + Wait + Sync + Lasting> EngineOver<R> for IndexEngine {
    ghost use Rattle.std.specs.Prelude.{◌+◌, ◌^◌, ◌≤◌, OnOk};
    ghost use Rattle.std.specs.Thread.{IsSync};
    ghost use Rattle.fts_merge.specs.Levels.{usual};
    ghost use Rattle.fts_engine.specs.DefaultOptions.{if_policy};
    ghost use Rattle.fts_engine.specs.Indexes.{indexes};
    ghost use Rattle.fts_engine.specs.Steps.{commit, Steps};
    ghost use Rattle.fts_snapshots.specs.CountedSnapshots.{CommitsAndMerges};

    fn open(rt: &R, options: Options, schema: Schema) -> Result<Self, Refusal> {
        let alloc = rt.alloc();
        let pool = Pool::new(alloc)?;
        let mut writer = Writer::new(rt, alloc, &schema)?;
        let reader = reader_of(&mut writer);
        Ok(IndexEngine {
            alloc,
            options,
            writer,
            reader,
            uncommitted: Uncommitted::Nothing,
            count: 0,
            calls: 0,
            is_merged: true,
            pool,
        })
    }

    /// Commits, and then merges what is due.
    fn commit(&mut self, rt: &R) -> Result<Stamp, Refusal>
        requires changes { self.old.calls ≤ 2 ^ 61 }
        requires sync { IsSync R.row }
        ensures step { Steps (commit indexes self.old.index) self.old.index self.new.index result }
        ensures changes { self.new.calls ≤ self.old.calls + 1 }
        ensures merged { OnOk result (CommitsAndMerges (if_policy self.old.merge usual) self.old.index.uncommitted
            self.old.snapshot self.new.snapshot self.new.is_merged) }
    {
        self.calls += 1;
        let alloc = self.alloc;
        let options = self.options;
        let committed = uncommitted::commit(
            rt,
            alloc,
            &mut self.writer,
            &mut self.uncommitted,
            options,
        )?;
        self.count = 0;
        let policy = policy_after(options.merge);
        let merged = self
            .writer
            .merge_planned(rt, alloc, policy, options.workers, &Open);
        self.is_merged = merged.is_ok();
        tell(&mut self.reader, &committed.seen);
        look(&self.writer, &mut self.reader);
        Ok(committed.stamp)
    }

    fn rollback(&mut self, _rt: &R) -> Result<Stamp, Refusal> {
        self.calls += 1;
        self.uncommitted = Uncommitted::Nothing;
        self.count = 0;
        Ok(self.writer.abandon())
    }

    fn merge(&mut self, rt: &R) -> Result<u64, Refusal> {
        self.calls += 1;
        let (alloc, workers) = (self.alloc, self.options.workers);
        let live = self.writer.merge_all(rt, alloc, workers, &Open)?;
        look(&self.writer, &mut self.reader);
        Ok(live)
    }

    fn search(&mut self, rt: &R, query: &Query, request: &Request) -> Result<Answer, Refusal> {
        let searcher = last_commit(&self.writer, &mut self.reader)?;
        let workers = threads_for(self.options, &searcher, query, request);
        if workers == 1 {
            let found = searcher.search(rt, self.alloc, query, request, 1, &Open)?;
            return Ok(found.answer);
        }
        let Ok(rt) = rt.lasting() else {
            return Err(Refusal::Memory);
        };
        let (alloc, pool) = (self.alloc, &mut self.pool);
        search_by(rt, alloc, pool, &searcher, query, request, workers)
    }

    fn close(self, rt: &R) {
        let IndexEngine {
            alloc: _,
            options: _,
            writer,
            reader,
            uncommitted: _,
            count: _,
            calls: _,
            is_merged: _,
            pool,
        } = self;
        pool.close(rt);
        drop(reader);
        writer.close(rt);
    }
}
