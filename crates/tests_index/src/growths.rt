// If any growth is refused to a commit, a reader, a query or a search, all is as before, and the second try succeeds.
// If it is refused to an estimate, that is another number.
// The messages for the second try end with "again".
ghost use Rattle.std.specs.Prelude.{◌≡◌, true};
ghost use Rattle.dilforec.specs.Queries.{query_fits};
ghost use Rattle.dilforec.specs.QueryValues.{query_value};

use dilforec::pool::Pool;
use dilforec::{
    Batch, CommitSeen, Cut, Open, Reader, Refusal, Request, Schema, SearchPool, Searcher, Stamp,
    Writer, parse,
};
use fts_model::Query;
use std::alloc::Global;
use std::process::Abort;
use std::sync::Wait;
use std::thread::Threads;
use testing_writers::{batch, seen, writer};

/// The query of a text.
fn parsed(rt: &impl Abort, alloc: Global, schema: &Schema, text: &str) -> Query
    ensures { query_fits schema.now (query_value result) ≡ true }
{
    match parse(alloc, schema, text) {
        Ok(query) => query,
        Err(refusal) => {
            assert_eq!(rt; refusal, Refusal::Memory);
            parse(alloc, schema, text).expect(rt, "a query again")
        }
    }
}

/// How many documents have a tag of the first commit, or none.
fn count<R: Threads + Wait + Sync + Abort>(rt: &R, alloc: Global, searcher: &Searcher) -> u64 {
    let schema = searcher.snapshot().schema();
    let query = parsed(rt, alloc, schema, "p OR q OR (* -tag:[* TO *])");
    let request = Request::new(schema, None, None).expect(rt, "a request");
    match searcher.search(rt, alloc, &query, &request, 1, &Open) {
        Ok(found) => found.answer.count,
        Err(refusal) => {
            assert_eq!(rt; refusal, Refusal::Memory);
            let found = searcher.search(rt, alloc, &query, &request, 1, &Open);
            found.expect(rt, "an answer again").answer.count
        }
    }
}

/// Asserts that a writer holds this, and that this many documents are found.
fn shows<R: Threads + Wait + Sync + Abort>(
    rt: &R,
    alloc: Global,
    writer: &Writer,
    wanted: (&str, u64),
) {
    let searcher = writer.searcher().expect(rt, "a searcher");
    let found = count(rt, alloc, &searcher);
    let seen = seen(alloc, writer).expect(rt, "a list");
    assert_eq!(rt; (seen.as_str(), found), wanted);
}

/// Commits a batch in segments of one add, after a commit of two documents.
fn commit_again<R: Threads + Wait + Sync + Abort>(
    rt: &R,
    alloc: Global,
    writer: &mut Writer,
    batch: &Batch,
) -> CommitSeen
    ensures { result.of ≡ writer.old.front.seen.of }
{
    match writer.commit(rt, alloc, batch, Cut::Runs(1), 1, &Open) {
        Ok(committed) => committed.seen,
        Err(refusal) => {
            assert_eq!(rt; refusal, Refusal::Memory);
            shows(rt, alloc, writer, ("3: (0,1,1) (1,1,1) 1p 2q", 2));
            let committed = writer.commit(rt, alloc, batch, Cut::Runs(1), 1, &Open);
            committed.expect(rt, "a commit again").seen
        }
    }
}

/// A reader of a writer.
fn reader(rt: &impl Abort, writer: &mut Writer) -> Reader
    ensures same { writer.new ≡ writer.old }
    ensures reader { result.of ≡ writer.old.front.seen.of }
{
    match writer.reader() {
        Ok(reader) => reader,
        Err(refusal) => {
            assert_eq!(rt; refusal, Refusal::Memory);
            writer.reader().expect(rt, "a reader again")
        }
    }
}

/// The stamp that a reader finds.
fn stamp_found(rt: &impl Abort, reader: &mut Reader) -> Stamp
    ensures { reader.new.of ≡ reader.old.of }
{
    match reader.searcher() {
        Ok(searcher) => searcher.commit_stamp(),
        Err(refusal) => {
            assert_eq!(rt; refusal, Refusal::Memory);
            let searcher = reader.searcher();
            searcher.expect(rt, "a searcher again").commit_stamp()
        }
    }
}

/// Asserts that a reader finds this stamp.
fn finds(rt: &impl Abort, reader: &mut Reader, stamp: Stamp)
    ensures { reader.new.of ≡ reader.old.of }
{
    assert_eq!(rt; stamp_found(rt, reader), stamp);
}

/// Reports a commit to a reader. If that is refused, the reader finds the commit before it, and the second try
/// succeeds.
fn tell(rt: &impl Abort, reader: &mut Reader, seen: &CommitSeen, before: Stamp)
    requires { seen.now.of ≡ reader.old.of }
{
    if let Err(refusal) = reader.told(seen) {
        assert_eq!(rt; refusal, Refusal::Memory);
        finds(rt, reader, before);
        reader.told(seen).expect(rt, "told again");
    }
}

/// Commits two documents.
fn commit_two<R: Threads + Wait + Sync + Abort>(rt: &R, alloc: Global, writer: &mut Writer) {
    let batch = batch(alloc, writer, &["+p", "+q"]).expect(rt, "a batch");
    let committed = writer.commit(rt, alloc, &batch, Cut::Runs(1), 1, &Open);
    committed.expect(rt, "a commit");
}

/// Commits two documents, and then a delete and two documents without values. A reader to which neither commit is
/// reported finds each. The reader that is returned knows the first.
fn committed<R: Threads + Wait + Sync + Abort>(
    rt: &R,
    alloc: Global,
    writer: &mut Writer,
) -> (Reader, CommitSeen)
    ensures { result.1.of ≡ result.0.of }
{
    let mut untold = reader(rt, writer);
    commit_two(rt, alloc, writer);
    finds(rt, &mut untold, 3);
    let reader = reader(rt, writer);
    let batch = batch(alloc, writer, &["-p", "+", "+"]).expect(rt, "a batch");
    let seen = commit_again(rt, alloc, writer, &batch);
    finds(rt, &mut untold, 7);
    (reader, seen)
}

#[test]
fn a_refused_growth_of_a_commit_can_be_tried_again(rt: HostRuntime) {
    let alloc = rt.alloc();
    let mut writer = writer(&rt, alloc).expect(&rt, "a writer");
    let (mut reader, seen) = committed(&rt, alloc, &mut writer);
    shows(
        &rt,
        alloc,
        &writer,
        ("7: (1,1,1) (2,1,1) (3,1,1) 2q 5 6", 3),
    );
    writer.close(&rt);
    finds(&rt, &mut reader, 3);
    tell(&rt, &mut reader, &seen, 3);
    finds(&rt, &mut reader, 7);
}

#[test]
fn a_cost_is_estimated_also_without_memory(rt: HostRuntime) {
    let alloc = rt.alloc();
    let mut writer = writer(&rt, alloc).expect(&rt, "a writer");
    commit_two(&rt, alloc, &mut writer);
    let searcher = writer.searcher().expect(&rt, "a searcher");
    writer.close(&rt);
    let schema = searcher.snapshot().schema();
    let text = "(+* -q) tag:[p TO q} title:\"p q\" (+price:>1 +temp:[-1 TO 1])";
    let query = parsed(&rt, alloc, schema, text);
    let plain = Request::new(schema, None, None).expect(&rt, "a request");
    let groups = Request::new(schema, Some("tag"), None).expect(&rt, "groups");
    let nothing = searcher.cost(&Query::None, &plain);
    let counted = searcher.cost(&query, &plain);
    let grouped = searcher.cost(&query, &groups);
    assert!(rt; nothing <= counted && counted <= grouped);
}

/// How many documents a query finds, by two threads of which one stays.
fn count_by<R: Threads + Wait + Copy + Send + Abort + 'static>(
    rt: &R,
    alloc: Global,
    pool: &mut SearchPool,
    searcher: &Searcher,
    query: &Query,
) -> u64
    requires { query_fits searcher.now.snapshot.schema (query_value query.now) ≡ true }
{
    let schema = searcher.snapshot().schema();
    let request = Request::new(schema, Some("tag"), None).expect(rt, "a request");
    match searcher.search_by(rt, alloc, pool, query, &request, 2) {
        Ok(found) => found.answer.count,
        Err(refusal) => {
            assert_eq!(rt; refusal, Refusal::Memory);
            let found = searcher.search_by(rt, alloc, pool, query, &request, 2);
            found.expect(rt, "an answer again").answer.count
        }
    }
}

#[test]
fn a_search_by_threads_that_stay_can_be_tried_again(rt: HostRuntime) {
    let alloc = rt.alloc();
    let mut writer = writer(&rt, alloc).expect(&rt, "a writer");
    commit_two(&rt, alloc, &mut writer);
    let searcher = writer.searcher().expect(&rt, "a searcher");
    writer.close(&rt);
    let schema = searcher.snapshot().schema();
    let text = "tag:p (+* -tag:[q TO *] -title:\"p q\" -price:>1 -temp:<0)";
    let query = parsed(&rt, alloc, schema, text);
    let mut pool = Pool::new(alloc).expect(&rt, "a pool");
    for _ in 0..3usize {
        let found = count_by(&rt, alloc, &mut pool, &searcher, &query);
        assert_eq!(rt; found, 1);
    }
    pool.close(&rt);
}
