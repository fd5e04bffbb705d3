// Steps that change what is found or what is uncommitted: `commit`, `gather`, `commit_batch`, `open_round`, `abandon`
// and `merge`.
ghost use Rattle.std.specs.Prelude.{◌≡◌};
ghost use Rattle.dilforec.specs.Cuts.{IsCut};
ghost use Rattle.dilforec.specs.Successors.{Follows};

use crate::walk::Made;
use dilforec::{Batch, Cut, MOST_BUILT, Op, Open, Schema, Writer};
use serde_json::Value;
use std::sync::Wait;
use std::thread::Threads;
use testing_cases::{Trial, Trouble, has, ids, list, only, op_of, schema_of, size};
use testing_writers::batch_of;

/// The cut of an object `{"runs":N}` or `{"deal":N}`.
fn cut_of(trial: &mut Trial, cut: &Value) -> Cut
    ensures { IsCut result }
{
    if has(cut, "deal") {
        only(trial, cut, &["deal"]);
        match size(trial, cut, "deal") {
            builders @ 1..=64 => return Cut::Deal(builders),
            _ => trial.fail(Trouble::Impossible("a number of builders that isn't one of 1 to 64")),
        }
        return Cut::Runs(1);
    }
    only(trial, cut, &["runs"]);
    match size(trial, cut, "runs") {
        adds @ 1..=MOST_BUILT => return Cut::Runs(adds),
        _ => trial.fail(Trouble::Impossible("a number of adds that isn't one of 1 to 65,536")),
    }
    Cut::Runs(1)
}

/// The cut of a step, and without one, segments of one add each.
fn step_cut(trial: &mut Trial, step: &Value) -> Cut
    ensures { IsCut result }
{
    match step.get("cut") {
        Some(cut) => cut_of(trial, cut),
        None => Cut::Runs(1),
    }
}

/// The operations of a step, whose documents are of a schema.
fn ops_of(trial: &mut Trial, schema: &Schema, step: &Value) -> Vec<Op> {
    let mut ops = Vec::new(trial.alloc());
    for json in list(trial, step, "ops") {
        if let Some(op) = op_of(trial, schema, json) {
            trial.push(&mut ops, op);
        }
    }
    ops
}

/// The schema of a step, or else a copy of the writer's.
fn step_schema(trial: &mut Trial, writer: &Writer, step: &Value) -> Option<Schema> {
    if has(step, "schema") {
        return schema_of(trial, step);
    }
    let copy: Result<_, _> = writer.schema().clone();
    trial.kept(copy)
}

/// A round with the operations of a step, whose documents are of its schema, or else of the writer's.
fn gathered(trial: &mut Trial, writer: &mut Writer, step: &Value) -> Option<Batch>
    ensures { writer.new.front ≡ writer.old.front }
{
    let schema = step_schema(trial, writer, step)?;
    let ops = ops_of(trial, &schema, step);
    if trial.has_failed() {
        return None;
    }
    let batch = batch_of(trial.alloc(), writer, ops);
    trial.kept(batch)
}

/// Gathers the operations of a step, and gives how many there are.
fn gather(trial: &mut Trial, writer: &mut Writer, made: &mut Made, step: &Value)
    ensures { Follows writer.old.front.snapshot writer.new.front.snapshot }
{
    only(trial, step, &["do", "ops", "schema"]);
    if let Some(batch) = gathered(trial, writer, step) {
        trial.give_number(batch.ops().len() as u64);
        trial.push(&mut made.batches, batch);
    }
}

/// Commits a batch by two threads, and gives the commit's stamp.
fn committed<R: Threads + Wait + Sync>(
    rt: &R,
    trial: &mut Trial,
    writer: &mut Writer,
    batch: &Batch,
    cut: Cut,
)
    requires { IsCut cut }
    ensures { Follows writer.old.front.snapshot writer.new.front.snapshot }
{
    match writer.commit(rt, trial.alloc(), batch, cut, 2, &Open) {
        Ok(committed) => trial.give_number(committed.stamp),
        Err(refusal) => trial.fail(Trouble::from(refusal)),
    }
}

/// Commits the operations of a step.
fn commit<R: Threads + Wait + Sync>(rt: &R, trial: &mut Trial, writer: &mut Writer, step: &Value)
    ensures { Follows writer.old.front.snapshot writer.new.front.snapshot }
{
    only(trial, step, &["do", "ops", "cut"]);
    let cut = step_cut(trial, step);
    if let Some(batch) = gathered(trial, writer, step) {
        committed(rt, trial, writer, &batch, cut);
    }
}

/// Commits a batch that was gathered earlier.
fn commit_batch<R: Threads + Wait + Sync>(
    rt: &R,
    trial: &mut Trial,
    writer: &mut Writer,
    made: &Made,
    step: &Value,
)
    ensures { Follows writer.old.front.snapshot writer.new.front.snapshot }
{
    only(trial, step, &["do", "batch", "cut"]);
    let cut = step_cut(trial, step);
    match made.batches.get(size(trial, step, "batch")) {
        Some(batch) => committed(rt, trial, writer, batch, cut),
        None => trial.fail(Trouble::Impossible("no such batch")),
    }
}

/// Opens a round and leaves it open.
fn open_round(trial: &mut Trial, writer: &mut Writer, step: &Value)
    ensures { Follows writer.old.front.snapshot writer.new.front.snapshot }
{
    only(trial, step, &["do"]);
    match writer.open_round(trial.alloc(), 1, 1) {
        Ok(_) => trial.give_flag(true),
        Err(refusal) => trial.fail(Trouble::from(refusal)),
    }
}

/// Gives up the open round, and gives the last commit's stamp.
fn abandon(trial: &mut Trial, writer: &mut Writer, step: &Value)
    ensures { Follows writer.old.front.snapshot writer.new.front.snapshot }
{
    only(trial, step, &["do"]);
    trial.give_number(writer.abandon());
}

/// Merges segments.
fn merge<R: Wait>(rt: &R, trial: &mut Trial, writer: &mut Writer, step: &Value)
    ensures { Follows writer.old.front.snapshot writer.new.front.snapshot }
{
    only(trial, step, &["do", "ids"]);
    let ids = ids(trial, step, "ids");
    match writer.merge(rt, trial.alloc(), &ids) {
        Ok(()) => trial.give_null(),
        Err(refusal) => trial.fail(Trouble::from(refusal)),
    }
}

/// Tries a case of one of these words, and returns whether its word is one of them.
pub(crate) fn changed<R: Threads + Wait + Sync>(
    rt: &R,
    trial: &mut Trial,
    writer: &mut Writer,
    made: &mut Made,
    word: &str,
    step: &Value,
) -> bool
    ensures { Follows writer.old.front.snapshot writer.new.front.snapshot }
{
    match word {
        "commit" => commit(rt, trial, writer, step),
        "gather" => gather(trial, writer, made, step),
        "commit_batch" => commit_batch(rt, trial, writer, made, step),
        "open_round" => open_round(trial, writer, step),
        "abandon" => abandon(trial, writer, step),
        "merge" => merge(rt, trial, writer, step),
        _ => return false,
    }
    true
}
