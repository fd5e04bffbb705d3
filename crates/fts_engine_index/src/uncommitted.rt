// The uncommitted operations: those of a round of one lane, which is opened when the first one is submitted.
ghost use Rattle.std.specs.Prelude.{◌≡◌, ◌≢◌, ◌+◌, ◌*◌, ◌^◌, ◌<◌, ◌≤◌, ◌⊎◌, ◌++◌, [], ◌∷◌, None};
ghost use Rattle.std.specs.Prelude.{Some, length, IfOk, IfErr, OnOk, OnErr, IsOkUnless};
ghost use Rattle.fts_rounds.specs.Rounds.{fresh};
ghost use Rattle.fts_snapshots.specs.Changes.{Commits};
ghost use Rattle.fts_snapshots.specs.Commits.{misfit};
ghost use Rattle.fts_engine_index.specs.UncommittedOperations.{HasOneLane, IsBatchOf, IsItsBatch, IsItsEnd};
ghost use Rattle.fts_engine_index.specs.UncommittedOperations.{IsItsLane, IsOpen, IsUncommittedIn, StayUncommitted};
ghost use Rattle.fts_engine_index.specs.UncommittedOperations.{Submits};
ghost use Rattle.fts_engine_index.specs.UncommittedOperations.{first_ops, ops_of};

use fts_engine::{MOST_UNCOMMITTED, Options};
use fts_index::{Batch, Committed, Lane, LaneEnd, Round, Writer};
use fts_model::{Op, Refusal, Stamp};
use std::alloc::Global;
use std::mem;
use std::sync::Wait;
use std::thread::Threads;

/// The uncommitted operations, however far a commit has come with them.
///
/// A refused commit leaves them, and neither the end of a lane nor a batch can be undone, so each stage is a variant.
#[derive(Drop)]
pub enum Uncommitted {
    /// There are none, and no round is open.
    Nothing,
    /// They were submitted to the lane of the open round.
    Open(Round, Lane),
    /// The lane was ended, and then a growth was refused.
    Ended(Round, Vec<LaneEnd>),
    /// They were gathered, and then a growth was refused.
    Gathered(Batch),
}

/// Opens a round of one lane.
fn open(alloc: Global, writer: &mut Writer) -> Result<(Round, Lane), Refusal>
    requires none { writer.old.round ≡ None }
    requires stamps { writer.old.front.stamp ≤ 2 ^ 61 }
    requires rounds { writer.old.rounds ≤ 2 ^ 61 }
    ensures open { IfOk result (λ r. IsOpen writer.new r.0) }
    ensures lane { IfOk result (λ r. r.1 ≡ fresh r.0 0) }
    ensures front { writer.new.front ≡ writer.old.front }
    ensures counted { writer.new.rounds ≤ writer.old.rounds + 1 }
    ensures same { OnErr result (writer.new ≡ writer.old) }
    ensures memory { IsOkUnless result Refusal.Memory }
{
    let (round, mut lanes) = writer.open_round(alloc, 1, MOST_UNCOMMITTED)?;
    let Some(lane) = lanes.pop() else {
        unreachable!()
    };
    Ok((round, lane))
}

/// Opens a round unless one is open.
fn make_open(
    alloc: Global,
    writer: &mut Writer,
    uncommitted: &mut Uncommitted,
) -> Result<(), Refusal>
    requires uncommitted { IsUncommittedIn writer.old uncommitted.old }
    requires stamps { writer.old.front.stamp ≤ 2 ^ 61 }
    requires rounds { writer.old.rounds ≤ 2 ^ 61 }
    ensures uncommitted { IsUncommittedIn writer.new uncommitted.new }
    ensures same { ops_of uncommitted.new ≡ ops_of uncommitted.old }
    ensures front { writer.new.front ≡ writer.old.front }
    ensures counted { writer.new.rounds ≤ writer.old.rounds + 1 }
    ensures memory { IsOkUnless result Refusal.Memory }
{
    if let Uncommitted::Nothing = uncommitted {
        let (round, lane) = open(alloc, writer)?;
        *uncommitted = Uncommitted::Open(round, lane);
    }
    Ok(())
}

/// Submits an operation to a lane.
fn draw(round: &Round, lane: &mut Lane, op: Op) -> Result<Stamp, Refusal>
    requires one_lane { HasOneLane round.now }
    requires lane { IsItsLane round.now lane.old }
    ensures lane { IsItsLane round.now lane.new }
    ensures submits { Submits round.now.limits.first op lane.old.ops lane.new.ops result }
{
    match lane.submit(op) {
        Ok(stamp) => Ok(stamp),
        Err((_, refusal)) => Err(refusal),
    }
}

/// Submits an operation. It is refused as `LaneFull` if 1,000,000 are uncommitted.
pub fn submit(
    alloc: Global,
    writer: &mut Writer,
    uncommitted: &mut Uncommitted,
    op: Op,
) -> Result<Stamp, Refusal>
    requires uncommitted { IsUncommittedIn writer.old uncommitted.old }
    requires stamps { writer.old.front.stamp ≤ 2 ^ 61 }
    requires rounds { writer.old.rounds ≤ 2 ^ 61 }
    ensures uncommitted { IsUncommittedIn writer.new uncommitted.new }
    ensures submits { Submits (writer.old.front.stamp + 1) op (ops_of uncommitted.old)
        (ops_of uncommitted.new) result }
    ensures front { writer.new.front ≡ writer.old.front }
    ensures counted { writer.new.rounds ≤ writer.old.rounds + 1 }
{
    make_open(alloc, writer, uncommitted)?;
    match uncommitted {
        Uncommitted::Open(round, lane) => draw(round, lane, op),
        // A commit was refused because memory ran out. It can be tried again or given up.
        _ => Err(Refusal::Memory),
    }
}

/// Gathers the end of the one lane of a round.
fn gather_end(
    alloc: Global,
    round: Round,
    ends: Vec<LaneEnd>,
) -> Result<Batch, (Uncommitted, Refusal)>
    requires one_lane { HasOneLane round }
    requires end { IsItsEnd round ends.items }
    ensures batch { IfOk result (IsBatchOf round (first_ops ends.items)) }
    ensures kept { IfErr result (λ e. StayUncommitted round (first_ops ends.items) e.0) }
    ensures memory { IfErr result (λ e. e.1 ≡ Refusal.Memory) }
{
    match round.gather(alloc, ends) {
        Ok(batch) => Ok(batch),
        Err((round, ends, refusal)) => Err((Uncommitted::Ended(round, ends), refusal)),
    }
}

/// Ends the one lane of a round, and gathers it.
fn gather_lane(alloc: Global, round: Round, lane: Lane) -> Result<Batch, (Uncommitted, Refusal)>
    requires one_lane { HasOneLane round }
    requires lane { IsItsLane round lane }
    ensures batch { IfOk result (IsBatchOf round lane.ops) }
    ensures kept { IfErr result (λ e. StayUncommitted round lane.ops e.0) }
    ensures memory { IfErr result (λ e. e.1 ≡ Refusal.Memory) }
{
    let Ok(mut ends) = Vec::with_capacity(alloc, 1) else {
        return Err((Uncommitted::Open(round, lane), Refusal::Memory));
    };
    ends.push_reserved(lane.end());
    gather_end(alloc, round, ends)
}

/// Gathers the uncommitted operations. If there are none, the batch of a round without operations.
fn gather(
    alloc: Global,
    writer: &mut Writer,
    uncommitted: Uncommitted,
) -> Result<Batch, (Uncommitted, Refusal)>
    requires uncommitted { IsUncommittedIn writer.old uncommitted }
    requires stamps { writer.old.front.stamp ≤ 2 ^ 61 }
    requires rounds { writer.old.rounds ≤ 2 ^ 61 }
    ensures batch { IfOk result (IsItsBatch writer.new) }
    ensures ops { IfOk result (λ batch. batch.ops ≡ ops_of uncommitted) }
    ensures kept { IfErr result (λ e. ops_of e.0 ≡ ops_of uncommitted) }
    ensures uncommitted { IfErr result (λ e. IsUncommittedIn writer.new e.0) }
    ensures memory { IfErr result (λ e. e.1 ≡ Refusal.Memory) }
    ensures front { writer.new.front ≡ writer.old.front }
    ensures counted { writer.new.rounds ≤ writer.old.rounds + 1 }
{
    match uncommitted {
        Uncommitted::Nothing => match open(alloc, writer) {
            Ok((round, lane)) => gather_lane(alloc, round, lane),
            Err(refusal) => Err((Uncommitted::Nothing, refusal)),
        },
        Uncommitted::Open(round, lane) => gather_lane(alloc, round, lane),
        Uncommitted::Ended(round, ends) => gather_end(alloc, round, ends),
        Uncommitted::Gathered(batch) => Ok(batch),
    }
}

/// Commits the operations. At a refusal they stay uncommitted.
pub fn commit<R: Threads + Wait + Sync>(
    rt: &R,
    alloc: Global,
    writer: &mut Writer,
    uncommitted: &mut Uncommitted,
    options: Options,
) -> Result<Committed, Refusal>
    requires uncommitted { IsUncommittedIn writer.old uncommitted.old }
    requires stamps { writer.old.front.stamp ≤ 2 ^ 61 }
    requires rounds { writer.old.rounds ≤ 2 ^ 61 }
    requires numbers { writer.old.front.snapshot.next_id + length (ops_of uncommitted.old) ≤ 2 ^ 62 }
    requires fit { misfit writer.old.front.snapshot.schema (ops_of uncommitted.old) ≡ None }
    ensures commits { OnOk result (Commits (ops_of uncommitted.old)
        writer.old.front.snapshot writer.new.front.snapshot) }
    ensures stamp { IfOk result (λ c. c.stamp ≡ writer.new.front.stamp) }
    ensures later { OnOk result (writer.new.front.stamp
        ≡ writer.old.front.stamp + length (ops_of uncommitted.old) + 1) }
    ensures of { OnOk result (writer.new.front.seen.of ≡ writer.old.front.seen.of) }
    ensures seen { IfOk result (λ c. c.seen.of ≡ writer.new.front.seen.of) }
    ensures done { OnOk result (uncommitted.new ≡ Uncommitted.Nothing) }
    ensures front { OnErr result (writer.new.front ≡ writer.old.front) }
    ensures kept { OnErr result (ops_of uncommitted.new ≡ ops_of uncommitted.old) }
    ensures uncommitted { IsUncommittedIn writer.new uncommitted.new }
    ensures counted { writer.new.rounds ≤ writer.old.rounds + 1 }
    ensures memory { IsOkUnless result Refusal.Memory }
{
    let batch = match gather(
        alloc,
        writer,
        mem::replace(uncommitted, Uncommitted::Nothing),
    ) {
        Ok(batch) => batch,
        Err((kept, refusal)) => {
            *uncommitted = kept;
            return Err(refusal);
        }
    };
    match writer.commit(
        rt,
        alloc,
        &batch,
        options.cut,
        options.workers,
        &fts_pool::Open,
    ) {
        Ok(committed) => {
            batch.release();
            Ok(committed)
        }
        Err(refusal) => {
            *uncommitted = Uncommitted::Gathered(batch);
            Err(refusal)
        }
    }
}
