// Steps that look at the writer: `stamp`, `segments`, `stamps` and `plan`.
use dilforec::{Entry, Writer};
use serde_json::Value;
use testing_cases::{Trial, only};

/// The number, the documents and the live documents of each segment.
fn segments(trial: &mut Trial, writer: &Writer) {
    let infos = writer.segments(trial.alloc());
    let Some(infos) = trial.kept(infos) else {
        return;
    };
    trial.open();
    for info in &infos {
        trial.give_stamps(&[info.id, info.docs as u64, info.live as u64]);
    }
    trial.close();
}

/// The stamps of the live documents of a segment, in the order of their numbers.
fn give_live(trial: &mut Trial, entry: &Entry) {
    let segment = entry.segment();
    let live = entry.live();
    trial.open();
    for number in 0..segment.docs() {
        if live.contains(number) {
            trial.give_number(segment.stamp(number));
        }
    }
    trial.close();
}

/// The stamps of the live documents of each segment.
fn stamps(trial: &mut Trial, writer: &Writer) {
    let searcher = writer.searcher();
    let Some(searcher) = trial.kept(searcher) else {
        return;
    };
    trial.open();
    for entry in searcher.snapshot().entries().iter() {
        give_live(trial, entry);
    }
    trial.close();
}

/// The numbers of the segments of each merge that is worth it.
fn plan(trial: &mut Trial, writer: &Writer) {
    let plan = writer.plan(trial.alloc());
    let Some(plan) = trial.kept(plan) else {
        return;
    };
    trial.open();
    for ids in &plan {
        trial.give_stamps(ids);
    }
    trial.close();
}

/// Tries a case of one of these words, and returns whether its word is one of them.
pub(crate) fn shown(trial: &mut Trial, writer: &Writer, word: &str, step: &Value) -> bool {
    match word {
        "stamp" => trial.give_number(writer.commit_stamp()),
        "segments" => segments(trial, writer),
        "stamps" => stamps(trial, writer),
        "plan" => plan(trial, writer),
        _ => return false,
    }
    only(trial, step, &["do"]);
    true
}
