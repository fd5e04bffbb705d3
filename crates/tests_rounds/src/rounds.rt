// The lanes of a round draw each stamp once, a full lane hands the operation back, and a batch is in the order of its
// stamps.
ghost use Rattle.std.specs.Prelude.{◌≡◌, ◌≤◌, ℕ, ◌<◌, length, map, slice_index_or, All};
ghost use Rattle.std.specs.List.{range_with_len};
ghost use Rattle.fts_base.specs.Totals.{times};
ghost use Rattle.fts_rounds.specs.Rounds.{IsLaneOf, SameLane, fresh, lanes_of};

mod abandonment;

use fts_index::{Batch, Cut, Lane, LaneEnd, Round, Writer};
use fts_model::{FieldValue, Number, Op, Refusal, Schema, Stamp, Stamped, Term};
use fts_pool::Open;
use fts_rounds::open_round;
use std::alloc::{AllocError, Global};
use std::fmt::Write;
use std::process::Abort;
use std::sync::Wait;
use std::thread::{Threads, map_vec};
use testing_writers::{add, count, delete, document, schema, seen, tag_of, text_of, writer};

/// A delete of the documents with this price.
fn delete_price(price: u64) -> Op {
    Op::Delete(Term {
        field: 2,
        value: FieldValue::Number(Number::U64(price)),
    })
}

/// The price that a delete of `delete_price` has.
fn deleted_price(op: &Op) -> Option<u64> {
    let Op::Delete(term) = op else {
        return None;
    };
    match &term.value {
        FieldValue::Number(Number::U64(price)) => Some(*price),
        _ => None,
    }
}

/// Submits an operation, and again if a growth was refused. No stamp if that is refused too.
fn submit(lane: &mut Lane, op: Op) -> Option<Stamp>
    ensures { SameLane lane.old lane.new }
{
    match lane.submit(op) {
        Ok(stamp) => Some(stamp),
        Err((op, _)) => lane.submit(op).ok(),
    }
}

/// A document with this price.
fn add_price(alloc: Global, schema: &Schema, price: u64) -> Result<Op, Refusal> {
    let json = format!(in alloc; "{{\"price\":{price}}}")?;
    Ok(Op::Add(document(alloc, schema, json.as_str())?))
}

fn price_of(op: &Op) -> Option<u64> {
    let Op::Add(document) = op else {
        return None;
    };
    match document.value(2) {
        Some(FieldValue::Number(Number::U64(price))) => Some(*price),
        _ => None,
    }
}

/// Submits this many documents and ends the lane. The price of each is the stamp of the lane's operation before it.
fn filled(alloc: Global, schema: &Schema, lane: Lane, count: usize) -> LaneEnd
    ensures { SameLane lane result }
{
    let mut lane = lane;
    let mut last = 0;
    for _ in 0..count {
        let Ok(op) = add_price(alloc, schema, last) else {
            return lane.end();
        };
        if let Some(stamp) = submit(&mut lane, op) {
            last = stamp;
        }
    }
    lane.end()
}

/// Fills each lane in a thread of its own.
fn all_filled<R: Threads + Sync + Abort>(
    rt: &R,
    alloc: Global,
    schema: &Schema,
    lanes: Vec<Lane>,
    count: usize,
) -> Vec<LaneEnd>
    ensures len { length result.items ≡ length lanes.items }
    ensures same { (i : ℕ) (d : _) → i < length lanes.items →
        SameLane (slice_index_or lanes.items i d) (slice_index_or result.items i d) }
{
    map_vec(
        rt,
        lanes,
        &|lane: Lane| -> LaneEnd
            ensures { SameLane lane result }
        { filled(alloc, schema, lane, count) },
    )
    .expect(rt, "memory")
}

/// Gathers the ends, again if a growth was refused.
fn gather(rt: &impl Abort, alloc: Global, round: Round, ends: Vec<LaneEnd>) -> Batch
    requires lanes { All (IsLaneOf round) ends.items }
    requires each_once { (n : ℕ) → times n (lanes_of ends.items) ≤ 1 }
{
    match round.gather(alloc, ends) {
        Ok(batch) => batch,
        Err((round, ends, _)) => match round.gather(alloc, ends) {
            Ok(batch) => batch,
            Err((_, _, refusal)) => panic!(rt; "a batch again: {refusal:?}"),
        },
    }
}

/// Fills the lanes of a round in threads, and gathers their ends.
fn gathered<R: Threads + Sync + Abort>(
    rt: &R,
    alloc: Global,
    schema: &Schema,
    round: Round,
    lanes: Vec<Lane>,
    count: usize,
) -> Batch
    requires { lanes.items ≡ map (fresh round) (range_with_len 0 round.limits.lanes) }
{
    let ends = all_filled(rt, alloc, schema, lanes, count);
    gather(rt, alloc, round, ends)
}

/// The stamp of a commit that is reported to a reader, the stamp that the reader's searcher has, and how many documents
/// it finds.
fn told<R: Threads + Wait + Sync + Abort>(
    rt: &R,
    alloc: Global,
    writer: &mut Writer,
    batch: &Batch,
) -> (Stamp, Stamp, u64) {
    let mut reader = writer.reader().expect(rt, "a reader");
    let committed = writer
        .commit(rt, alloc, batch, Cut::Deal(1), 2, &Open)
        .expect(rt, "a commit");
    reader
        .told(&committed.seen)
        .expect(rt, "a commit that is told");
    let searcher = reader.searcher().expect(rt, "a searcher");
    let found = count(rt, alloc, &searcher, "*").expect(rt, "a count");
    (committed.stamp, searcher.commit_stamp(), found)
}

/// A commit of two lanes with 1,000 documents each, and what is found then.
fn two_lanes<R: Threads + Wait + Sync + Abort>(
    rt: &R,
    alloc: Global,
    writer: &mut Writer,
) -> (Batch, (Stamp, Stamp, u64)) {
    let (round, lanes) = writer.open_round(alloc, 2, 1000).expect(rt, "a round");
    let batch = gathered(rt, alloc, writer.schema(), round, lanes, 1000);
    let told = told(rt, alloc, writer, &batch);
    (batch, told)
}

/// Asserts that the stamps rise by one from 1 on, that each price is the stamp of an earlier operation, and that two
/// documents have none before them.
fn each_drawn_once(rt: &impl Abort, ops: &[Stamped<Op>]) {
    let mut next = 1;
    let mut begun = 0u64;
    for op in ops {
        assert_eq!(rt; op.stamp, next);
        next = op.stamp.wrapping_add(1);
        let last = price_of(&op.value).unwrap_or(u64::MAX);
        assert!(rt; last < op.stamp);
        if last == 0 {
            begun = begun.wrapping_add(1);
        }
    }
    assert_eq!(rt; begun, 2);
}

#[test]
fn two_threads_draw_each_stamp_once(rt: HostRuntime) {
    let mut writer = writer(&rt, rt.alloc()).expect(&rt, "a writer");
    let (batch, told) = two_lanes(&rt, rt.alloc(), &mut writer);
    writer.close(&rt);
    let ops = batch.ops();
    assert_eq!(rt; (batch.first(), ops.len(), batch.end()), (1, 2000, 2001));
    assert_eq!(rt; told, (2001, 2001, 2000));
    each_drawn_once(&rt, ops);
}

#[test]
fn sixty_four_full_lanes_draw_nothing(rt: HostRuntime) {
    let schema = schema(rt.alloc()).expect(&rt, "a schema");
    let (round, lanes) = open_round(rt.alloc(), 7, 1, 64, 10).expect(&rt, "a round");
    let batch = gathered(&rt, rt.alloc(), &schema, round, lanes, 20);
    assert_eq!(rt; (batch.round(), batch.ops().len()), (7, 640));
}

/// Fills a lane that takes one operation, and hands back the next.
fn fill(rt: &impl Abort, lane: &mut Lane, op: Op, stamp: Stamp)
    ensures { SameLane lane.old lane.new }
{
    assert_eq!(rt; submit(lane, op), Some(stamp));
    let (op, refusal) = lane.submit(delete_price(9)).expect_err(rt, "full");
    assert_eq!(rt; (deleted_price(&op), refusal), (Some(9), Refusal::LaneFull));
}

#[test]
fn a_full_lane_hands_the_operation_back(rt: HostRuntime) {
    let (_round, mut lanes) = open_round(rt.alloc(), 0, 5, 1, 1).expect(&rt, "a round");
    let mut lane = lanes.pop().expect(&rt, "a lane");
    fill(&rt, &mut lane, Op::DeleteAll, 5);
}

/// Gathers the first lane's end of two alone, which is refused, then both.
fn one_of_two(rt: &impl Abort, alloc: Global) -> (Refusal, Batch) {
    let (round, mut lanes) = open_round(alloc, 0, 1, 2, 10).expect(rt, "a round");
    let mut second = lanes.pop().expect(rt, "a lane");
    let first = lanes.pop().expect(rt, "a lane");
    let _stamp = submit(&mut second, delete_price(3));
    let ends = vec![in alloc; first.end()].expect(rt, "ends");
    let Err((round, mut ends, refusal)) = round.gather(alloc, ends) else {
        panic!(rt; "a batch of one lane of two");
    };
    ends.push(second.end()).expect(rt, "ends");
    (refusal, gather(rt, alloc, round, ends))
}

#[test]
fn a_lane_is_missing(rt: HostRuntime) {
    let (refusal, batch) = one_of_two(&rt, rt.alloc());
    assert_eq!(rt; (refusal, batch.ops().len()), (Refusal::LaneMissing(1), 1));
}

/// Submits a document with this tag.
fn submit_add(rt: &impl Abort, alloc: Global, lane: &mut Lane, schema: &Schema, tag: &str)
    ensures { SameLane lane.old lane.new }
{
    let _stamp = submit(lane, add(alloc, schema, tag).expect(rt, "a document"));
}

/// On one thread lane 3 adds a, lane 1 adds b, lane 3 deletes a and lane 0 adds c. The ends come in the order 2, 0,
/// 3, 1.
fn four_lanes(rt: &impl Abort, alloc: Global, writer: &mut Writer) -> Batch {
    let (round, mut lanes) = writer.open_round(alloc, 4, 10).expect(rt, "a round");
    let mut lane_3 = lanes.pop().expect(rt, "a lane");
    let lane_2 = lanes.pop().expect(rt, "a lane");
    let mut lane_1 = lanes.pop().expect(rt, "a lane");
    let mut lane_0 = lanes.pop().expect(rt, "a lane");
    submit_add(rt, alloc, &mut lane_3, writer.schema(), "a");
    submit_add(rt, alloc, &mut lane_1, writer.schema(), "b");
    let _stamp = submit(&mut lane_3, delete(alloc, "a").expect(rt, "a delete"));
    submit_add(rt, alloc, &mut lane_0, writer.schema(), "c");
    let ends = vec![in alloc; lane_2.end(), lane_0.end(), lane_3.end(), lane_1.end()];
    gather(rt, alloc, round, ends.expect(rt, "ends"))
}

/// An operation as it is printed: its stamp, and the tag after `+` or `-`.
fn list_op(list: &mut String, op: &Stamped<Op>) -> Result<(), AllocError> {
    match &op.value {
        Op::Add(document) => write!(list, " {}+{}", op.stamp, tag_of(document)),
        Op::Delete(term) => write!(list, " {}-{}", op.stamp, text_of(&term.value)),
        Op::DeleteAll => Ok(()),
    }
}

/// The operations of a batch.
fn listed(rt: &impl Abort, alloc: Global, batch: &Batch) -> String {
    let mut list = String::new(alloc);
    for op in batch.ops() {
        list_op(&mut list, op).expect(rt, "a list");
    }
    list
}

/// How many documents have the tags a, b and c.
fn tags_found<R: Threads + Wait + Sync + Abort>(
    rt: &R,
    alloc: Global,
    writer: &Writer,
) -> [u64; 3] {
    let searcher = writer.searcher().expect(rt, "a searcher");
    let a = count(rt, alloc, &searcher, "tag:a").expect(rt, "a count");
    let b = count(rt, alloc, &searcher, "tag:b").expect(rt, "a count");
    let c = count(rt, alloc, &searcher, "tag:c").expect(rt, "a count");
    [a, b, c]
}

/// The batch of these lanes, which is committed.
fn four_lanes_committed<R: Threads + Wait + Sync + Abort>(
    rt: &R,
    alloc: Global,
    writer: &mut Writer,
) -> Batch {
    let batch = four_lanes(rt, alloc, writer);
    let committed = writer.commit(rt, alloc, &batch, Cut::Runs(10), 1, &Open);
    committed.expect(rt, "a commit");
    batch
}

/// Asserts that a writer holds this.
fn shows(rt: &impl Abort, alloc: Global, writer: &Writer, wanted: &str) {
    assert_eq!(rt; seen(alloc, writer).expect(rt, "a list").as_str(), wanted);
}

#[test]
fn a_batch_is_in_the_order_of_its_stamps(rt: HostRuntime) {
    let alloc = rt.alloc();
    let mut writer = writer(&rt, alloc).expect(&rt, "a writer");
    let batch = four_lanes_committed(&rt, alloc, &mut writer);
    assert_eq!(rt; listed(&rt, alloc, &batch).as_str(), " 1+a 2+b 3-a 4+c");
    assert_eq!(rt; tags_found(&rt, alloc, &writer), [0, 1, 1]);
    shows(&rt, alloc, &writer, "5: (0,3,2) 2b 4c");
    writer.close(&rt);
}
