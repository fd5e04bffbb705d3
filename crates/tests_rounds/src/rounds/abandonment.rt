// A round that is given up leaves nothing, and its batch is stale; the next round begins at the same stamp, and a
// commit of it without an operation has that stamp.
use super::{add_price, fill, gather, shows};
use fts_index::{Batch, Cut, Writer};
use fts_model::{Refusal, Stamp};
use fts_pool::Open;
use std::alloc::Global;
use std::process::Abort;
use std::sync::Wait;
use std::thread::Threads;
use testing_writers::writer;

/// A round of one full lane, beside which no other round is opened.
fn full_round(rt: &impl Abort, alloc: Global, writer: &mut Writer) -> Batch {
    let (round, mut lanes) = writer.open_round(alloc, 1, 1).expect(rt, "a round");
    let mut lane = lanes.pop().expect(rt, "a lane");
    let op = add_price(alloc, writer.schema(), 7).expect(rt, "a document");
    fill(rt, &mut lane, op, 1);
    let refused = writer.open_round(alloc, 1, 1).err();
    assert_eq!(rt; refused, Some(Refusal::RoundOpen));
    let ends = vec![in alloc; lane.end()].expect(rt, "ends");
    gather(rt, alloc, round, ends)
}

/// A round of two lanes without an operation. The end of one is missing at first.
fn empty_round(rt: &impl Abort, alloc: Global, writer: &mut Writer) -> Batch {
    let (round, mut lanes) = writer.open_round(alloc, 2, 1).expect(rt, "a round");
    let second = lanes.pop().expect(rt, "a lane");
    let first = lanes.pop().expect(rt, "a lane");
    let ends = vec![in alloc; first.end()].expect(rt, "ends");
    let Err((round, mut ends, refusal)) = round.gather(alloc, ends) else {
        panic!(rt; "a batch of one lane of two");
    };
    assert_eq!(rt; refusal, Refusal::LaneMissing(1));
    ends.push(second.end()).expect(rt, "ends");
    gather(rt, alloc, round, ends)
}

/// The stamp of the commit of a batch.
fn committed<R: Threads + Wait + Sync>(
    rt: &R,
    alloc: Global,
    writer: &mut Writer,
    batch: &Batch,
) -> Result<Stamp, Refusal> {
    let committed = writer.commit(rt, alloc, batch, Cut::Runs(1), 1, &Open)?;
    Ok(committed.stamp)
}

/// Commits a batch, which gets this stamp, and can't be committed again.
fn committed_once<R: Threads + Wait + Sync + Abort>(
    rt: &R,
    alloc: Global,
    writer: &mut Writer,
    batch: &Batch,
    stamp: Stamp,
) {
    assert_eq!(rt; committed(rt, alloc, writer, batch), Ok(stamp));
    assert_eq!(rt;
        committed(rt, alloc, writer, batch),
        Err(Refusal::StaleBatch)
    );
}

fn given_up<R: Threads + Wait + Sync + Abort>(rt: &R, alloc: Global, writer: &mut Writer) {
    let first = full_round(rt, alloc, writer);
    assert_eq!(rt; writer.abandon(), 0);
    let second = empty_round(rt, alloc, writer);
    assert_eq!(rt;
        committed(rt, alloc, writer, &first),
        Err(Refusal::StaleBatch)
    );
    committed_once(rt, alloc, writer, &second, 1);
}

#[test]
fn a_round_is_given_up(rt: HostRuntime) {
    let mut writer = writer(&rt, rt.alloc()).expect(&rt, "a writer");
    given_up(&rt, rt.alloc(), &mut writer);
    shows(&rt, rt.alloc(), &writer, "1:");
    writer.close(&rt);
}
