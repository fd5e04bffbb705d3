// What no reply shows: the segments after a commit and after a merge, and whether there is a reader.
ghost use Rattle.std.specs.Prelude.{◌≡◌, ◌+◌, ◌≤◌};
ghost use Rattle.std.specs.Thread.{IsSync};

use dilforec::script::{Engine, EngineOver, IndexEngine, LocalEngine, Merge, Options};
use dilforec::{Cut, Document, Field, Kind, Op, Refusal, Schema, Text};
use serde_json::{Map, Value};
use std::alloc::Global;
use std::process::Abort;
use std::sync::Wait;
use std::thread::Threads;

/// The schema of documents with a price.
fn schema(alloc: Global) -> Result<Schema, Refusal> {
    let price = Field {
        name: Text::new(String::from_str(alloc, "price")?),
        kind: Kind::U64,
        default: false,
    };
    Schema::new(alloc, vec![in alloc; price]?).map_err(|e| e.1)
}

/// An engine over documents with a price, whose segments have one document each until they are merged.
fn opened<R: AllocGlobal + Abort + Sync, E: EngineOver<R>>(rt: &R, merge: Merge) -> E
    ensures { E.changes result ≡ 0 }
{
    let schema = schema(rt.alloc()).expect(rt, "a schema");
    let options = Options::new(1, Cut::Runs(1), merge).expect(rt, "options");
    E::open(rt, options, schema).expect(rt, "an index")
}

/// Adds a document without a value.
fn add<E: Engine>(rt: &impl Abort, alloc: Global, engine: &mut E)
    requires { E.changes engine.old ≤ 100 }
    ensures { E.changes engine.new ≤ E.changes engine.old + 1 }
{
    let nothing = Value::Object(Map::new(alloc));
    let document = Document::from_json(alloc, engine.schema(), &nothing).expect(rt, "a document");
    engine.submit(Op::Add(document)).expect(rt, "a stamp");
}

/// Commits eight adds.
fn commit_eight<R: AllocGlobal + Abort + Sync, E: EngineOver<R>>(rt: &R, engine: &mut E)
    requires none { E.changes engine.old ≡ 0 }
    requires sync { IsSync R.row }
    ensures { E.changes engine.new ≤ 9 }
{
    for _ in 0..8usize {
        add(rt, rt.alloc(), engine);
    }
    engine.commit(rt).expect(rt, "a commit");
}

/// How many live documents each segment has.
fn live_in(alloc: Global, engine: &IndexEngine) -> Result<Vec<usize>, Refusal> {
    let mut live = Vec::new(alloc);
    for segment in engine.segments(alloc)? {
        live.push(segment.live)?;
    }
    Ok(live)
}

#[test]
fn policy_merges_eight_segments(rt: HostRuntime) {
    for (merge, wanted) in [(Merge::Off, [1; 8].as_slice()), (Merge::Policy, &[8])] {
        let mut engine: IndexEngine = opened(&rt, merge);
        commit_eight(&rt, &mut engine);
        let live = live_in(rt.alloc(), &engine).expect(&rt, "a list");
        engine.close(&rt);
        assert_eq!(rt; live.as_slice(), wanted, "{merge:?}");
    }
}

#[test]
fn the_command_leaves_one_segment(rt: HostRuntime) {
    let mut engine: IndexEngine = opened(&rt, Merge::Off);
    commit_eight(&rt, &mut engine);
    let merged = engine.merge(&rt).expect(&rt, "a merge");
    let live = live_in(rt.alloc(), &engine).expect(&rt, "a list");
    engine.close(&rt);
    assert_eq!(rt; (merged, live.as_slice()), (8, [8].as_slice()));
}

#[test]
fn one_thread_merges_by_the_policy_and_by_the_command(rt: HostRuntime) {
    for (merge, wanted) in [(Merge::Off, 8), (Merge::Policy, 1)] {
        let mut engine: LocalEngine = opened(&rt, merge);
        commit_eight(&rt, &mut engine);
        let after_commit = engine.stats();
        let merged = engine.merge(&rt).expect(&rt, "a merge");
        let after_merge = engine.stats();
        let segments = (after_commit.segments, after_merge.segments);
        assert_eq!(rt; (segments, merged), ((wanted, 1), 8), "{merge:?}");
    }
}

#[test]
fn one_thread_ends_a_merge_that_it_began(rt: HostRuntime) {
    let mut engine: LocalEngine = opened(&rt, Merge::Policy);
    engine.limit_merges(Some(0));
    commit_eight(&rt, &mut engine);
    let begun = engine.begin_merge().expect(&rt, "a merge");
    let before = engine.end_merge().expect(&rt, "nothing to end");
    let mut has_begun = false;
    if let Some(mut merge) = begun {
        has_begun = true;
        merge.run(rt.alloc()).expect(&rt, "a merged segment");
    }
    let left = engine.stats().segments;
    let ended = engine.end_merge().expect(&rt, "an end");
    let again = engine.end_merge().expect(&rt, "nothing to end");
    let stats = engine.stats();
    assert_eq!(rt; (has_begun, before, left), (true, false, 8));
    assert_eq!(rt; (ended, again), (true, false));
    assert_eq!(rt; (stats.segments, stats.live), (1, 8));
}

#[test]
fn an_index_has_a_reader(rt: HostRuntime) {
    let engine: IndexEngine = opened(&rt, Merge::Off);
    let has_reader = engine.has_reader();
    engine.close(&rt);
    assert!(rt; has_reader);
}
