// A walk: a new writer, and steps over it, each of which gives a value or a refusal.
ghost use Rattle.cases_index.specs.Late.{AllFit};

use crate::changes::changed;
use crate::late_merges::ended;
use crate::searches::asked;
use crate::views::shown;
use dilforec::{Batch, MergedSegment, Searcher, Writer};
use serde_json::Value;
use std::sync::Wait;
use std::thread::Threads;
use testing_cases::{Trial, Trouble, nonempty, only, schema_of, text};

/// What the steps of a walk made beside the writer.
#[derive(Drop)]
pub(crate) struct Made {
    /// Batches that may be committed, or refused, later.
    pub(crate) batches: Vec<Batch>,
    /// Searchers of earlier commits.
    pub(crate) searchers: Vec<Searcher>,
}

/// Gives what a step gives.
fn stepped<R: Threads + Wait + Sync>(
    rt: &R,
    trial: &mut Trial,
    writer: &mut Writer,
    late: &mut Vec<MergedSegment>,
    made: &mut Made,
    step: &Value,
)
    requires { AllFit writer.old.front.snapshot late.old.items }
    ensures { AllFit writer.new.front.snapshot late.new.items }
{
    let word = text(trial, step, "do");
    if ended(rt, trial, writer, late, word, step) {
        return;
    }
    if changed(rt, trial, writer, made, word, step) {
        return;
    }
    if !asked(rt, trial, writer, made, word, step) && !shown(trial, writer, word, step) {
        trial.fail(Trouble::UnknownWord);
    }
}

/// Gives what each step gives, which may be a refusal.
fn walked<R: Threads + Wait + Sync>(
    rt: &R,
    trial: &mut Trial,
    writer: &mut Writer,
    steps: &[Value],
) {
    let mut late = Vec::new(trial.alloc());
    let mut made = Made {
        batches: Vec::new(trial.alloc()),
        searchers: Vec::new(trial.alloc()),
    };
    trial.open();
    for step in steps {
        let mark = trial.mark();
        stepped(rt, trial, writer, &mut late, &mut made, step);
        trial.settle(mark);
    }
    trial.close();
}

/// Gives what each step of a case gives, over a new writer.
pub(crate) fn walk<R: Threads + Wait + Sync>(rt: &R, trial: &mut Trial, case: &Value) {
    only(trial, case, &["case", "do", "gives", "schema", "steps"]);
    let steps = nonempty(trial, case, "steps");
    let Some(schema) = schema_of(trial, case) else {
        return;
    };
    match Writer::new(rt, trial.alloc(), &schema) {
        Ok(mut writer) => {
            walked(rt, trial, &mut writer, steps);
            writer.close(rt);
        }
        Err(refusal) => trial.fail(Trouble::from(refusal)),
    }
}
