// Steps of merges that end later: `merge_later` and `end`.
ghost use Rattle.std.specs.Prelude.{◌≡◌, IfOk};
ghost use Rattle.dilforec.specs.Successors.{Fits};
ghost use Rattle.cases_index.specs.Late.{AllFit};

use dilforec::{MergedSegment, Refusal, Writer};
use serde_json::Value;
use std::alloc::Global;
use std::sync::Wait;
use testing_cases::{Trial, Trouble, ids, only, size};

/// Merges segments of a writer, which stays as it is.
fn merged(alloc: Global, writer: &Writer, ids: &[u64]) -> Result<MergedSegment, Refusal>
    ensures { IfOk result (λ merged. Fits merged writer.now.front.snapshot) }
{
    let job = writer.begin_merge(alloc, ids)?;
    match job.run(alloc) {
        Ok(merged) => Ok(merged),
        Err((_, refusal)) => Err(refusal),
    }
}

/// Starts and runs a merge, to be ended later.
fn merge_later(trial: &mut Trial, writer: &Writer, late: &mut Vec<MergedSegment>, step: &Value)
    requires { AllFit writer.now.front.snapshot late.old.items }
    ensures { AllFit writer.now.front.snapshot late.new.items }
{
    only(trial, step, &["do", "ids"]);
    let ids = ids(trial, step, "ids");
    trial.give_null();
    match merged(trial.alloc(), writer, &ids) {
        Ok(merged) => keep(trial, writer, late, merged),
        Err(refusal) => trial.fail(Trouble::from(refusal)),
    }
}

/// Stores a merge that fits after the others.
fn keep(trial: &mut Trial, writer: &Writer, late: &mut Vec<MergedSegment>, merged: MergedSegment)
    requires all { AllFit writer.now.front.snapshot late.old.items }
    requires fits { Fits merged writer.now.front.snapshot }
    ensures { AllFit writer.now.front.snapshot late.new.items }
{
    match late.push(merged) {
        Ok(()) => {}
        Err(refused) => trial.fail(Trouble::from(refused)),
    }
}

/// Ends a merge. If that is refused, the merge is stored again after the others.
fn end<R: Wait>(
    rt: &R,
    trial: &mut Trial,
    writer: &mut Writer,
    late: &mut Vec<MergedSegment>,
    step: &Value,
)
    requires { AllFit writer.old.front.snapshot late.old.items }
    ensures { AllFit writer.new.front.snapshot late.new.items }
{
    only(trial, step, &["do", "merge"]);
    let which = size(trial, step, "merge");
    if which >= late.len() {
        return trial.fail(Trouble::Impossible("no such merge"));
    }
    let merged = late.remove(which);
    match writer.end_merge(rt, trial.alloc(), merged) {
        Ok(_) => trial.give_null(),
        Err((merged, refusal)) => {
            keep(trial, writer, late, merged);
            trial.fail(Trouble::from(refusal));
        }
    }
}

/// Tries a case of one of these words, and returns whether its word is one of them.
pub(crate) fn ended<R: Wait>(
    rt: &R,
    trial: &mut Trial,
    writer: &mut Writer,
    late: &mut Vec<MergedSegment>,
    word: &str,
    step: &Value,
) -> bool
    requires { AllFit writer.old.front.snapshot late.old.items }
    ensures { AllFit writer.new.front.snapshot late.new.items }
{
    match word {
        "merge_later" => merge_later(trial, writer, late, step),
        "end" => end(rt, trial, writer, late, step),
        _ => return false,
    }
    true
}
