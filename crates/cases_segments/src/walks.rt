// Cases of walks of a cursor over the first segment that was made: `walk`.
use crate::bench::Bench;
use crate::matches::{cursor_over, push_steps};
use crate::texts::text_of;
use fts_cursor::{Cursor, DocSet};
use serde_json::Value;
use testing_cases::{Trial, Trouble, has, nonempty, number, only};

/// Counts the documents that remain one after the other, up to this many.
fn counted(cursor: &mut Cursor, most: u64) -> u64 {
    let mut count = 0u64;
    for _ in 0..most {
        if cursor.doc().is_some() {
            count = count.saturating_add(1);
        }
        cursor.advance();
    }
    count
}

/// Gives the next 128 documents of a cursor, or all if fewer remain: those that it takes at once, which may be any
/// number of them but none, and then the others by steps.
fn take(trial: &mut Trial, cursor: &mut Cursor) {
    let remains = cursor.doc().is_some();
    let mut out = [0; 128];
    let count = cursor.take(&mut out);
    if remains && count == 0 {
        trial.fail(Trouble::Impossible("a cursor takes nothing of what remains"));
    }
    let mut found = Vec::new(trial.alloc());
    let kept = found.extend_from_slice(out.get(..count).unwrap_or(&[]));
    trial.kept(kept);
    push_steps(trial, &mut found, cursor, 128usize.saturating_sub(count));
    trial.give_documents(&found);
}

/// Gives what a step of one word gives, if it gives something.
fn step(trial: &mut Trial, cursor: &mut Cursor, word: &str) {
    match word {
        "advance" => cursor.advance(),
        "doc" => trial.give_some_number(cursor.doc().map(u64::from)),
        "openings" => trial.give_number(cursor.openings()),
        "take" => take(trial, cursor),
        _ => trial.fail(Trouble::UnknownWord),
    }
}

/// Moves to the target of a step `{"seek":TARGET}`.
fn seek(trial: &mut Trial, cursor: &mut Cursor, step: &Value) {
    only(trial, step, &["seek"]);
    match u32::try_from(number(trial, step, "seek")) {
        Ok(target) => cursor.seek(target),
        Err(_) => trial.fail(Trouble::WrongKind("seek")),
    }
}

/// Gives how many documents remain, up to the bound of a step `{"count":MOST}`.
fn count(trial: &mut Trial, cursor: &mut Cursor, step: &Value) {
    only(trial, step, &["count"]);
    let most = number(trial, step, "count");
    trial.give_number(counted(cursor, most));
}

/// Gives what the steps of a walk give, except for steps that give nothing.
fn walk(trial: &mut Trial, cursor: &mut Cursor, steps: &[Value]) {
    trial.open();
    for json in steps {
        if let Some(word) = json.as_str() {
            step(trial, cursor, word);
        } else if has(json, "seek") {
            seek(trial, cursor, json);
        } else {
            count(trial, cursor, json);
        }
    }
    trial.close();
}

/// What the walk of a case gives.
fn walked(trial: &mut Trial, case: &Value, bench: &Bench) {
    let text = text_of(trial, case, "query");
    let steps = nonempty(trial, case, "steps");
    if let Some(mut cursor) = cursor_over(trial, bench, text.as_str()) {
        walk(trial, &mut cursor, steps);
    }
}

/// Tries a case of one of these words, and returns whether its word is one of them.
pub(crate) fn given(trial: &mut Trial, word: &str, case: &Value, bench: &Bench) -> bool {
    match word {
        "walk" => walked(trial, case, bench),
        _ => return false,
    }
    true
}
