// Steps that search: `keep`, `ask` and `openings`.
ghost use Rattle.std.specs.Prelude.{◌≤◌};

use crate::walk::Made;
use dilforec::{Found, Open, Searcher, Writer, parse};
use fts_model::Query;
use serde_json::Value;
use std::sync::Wait;
use std::thread::Threads;
use testing_cases::{Trial, Trouble, give_answer, has, only, request_of, size, text};

/// What a searcher finds for a query, by this many threads.
fn found_for<R: Threads + Wait + Sync>(
    rt: &R,
    trial: &mut Trial,
    searcher: &Searcher,
    step: &Value,
    query: &Query,
    workers: usize,
) -> Option<Found>
    requires { (1 ≤ workers) × (workers ≤ 64) }
{
    let schema = searcher.snapshot().schema();
    let request = request_of(trial, schema, step)?;
    if !query.fits(schema) || !request.fits(schema) {
        trial.fail(Trouble::Impossible("a request of another schema"));
        return None;
    }
    let found = searcher.search(rt, trial.alloc(), query, &request, workers, &Open);
    trial.kept(found)
}

/// What a searcher finds for the query of a step, by this many threads.
fn found<R: Threads + Wait + Sync>(
    rt: &R,
    trial: &mut Trial,
    searcher: &Searcher,
    step: &Value,
    workers: usize,
) -> Option<Found>
    requires { (1 ≤ workers) × (workers ≤ 64) }
{
    let text = text(trial, step, "query");
    let query = parse(trial.alloc(), searcher.snapshot().schema(), text);
    match trial.kept(query) {
        Some(query) => found_for(rt, trial, searcher, step, &query, workers),
        None => None,
    }
}

/// Gives what a searcher answers, by this many threads.
fn give_found<R: Threads + Wait + Sync>(
    rt: &R,
    trial: &mut Trial,
    searcher: &Searcher,
    step: &Value,
    workers: usize,
)
    requires { (1 ≤ workers) × (workers ≤ 64) }
{
    if let Some(found) = found(rt, trial, searcher, step, workers) {
        give_answer(trial, &found.answer);
    }
}

/// What a searcher answers, which one and three threads must answer alike.
fn answered<R: Threads + Wait + Sync>(
    rt: &R,
    trial: &mut Trial,
    searcher: &Searcher,
    step: &Value,
) {
    only(trial, step, &["do", "searcher", "query", "groups", "top"]);
    let mark = trial.mark();
    give_found(rt, trial, searcher, step, 1);
    let mut three = Trial::new(trial.alloc());
    give_found(rt, &mut three, searcher, step, 3);
    if trial.since(mark).trim_start_matches(',') != three.since(0) {
        trial.fail(Trouble::Impossible("one and three threads answer otherwise"));
    }
}

/// How many blocks a search opens.
fn openings<R: Threads + Wait + Sync>(
    rt: &R,
    trial: &mut Trial,
    searcher: &Searcher,
    step: &Value,
) {
    only(trial, step, &["do", "searcher", "query"]);
    if let Some(found) = found(rt, trial, searcher, step, 1) {
        trial.give_number(found.openings);
    }
}

/// Gives what a word gives of a searcher.
fn searched<R: Threads + Wait + Sync>(
    rt: &R,
    trial: &mut Trial,
    searcher: &Searcher,
    word: &str,
    step: &Value,
) {
    match word {
        "ask" => answered(rt, trial, searcher, step),
        _ => openings(rt, trial, searcher, step),
    }
}

/// Stores a searcher of the last commit, and gives its stamp.
fn keep(trial: &mut Trial, writer: &Writer, made: &mut Made, step: &Value) {
    only(trial, step, &["do"]);
    let searcher = writer.searcher();
    if let Some(searcher) = trial.kept(searcher) {
        trial.give_number(searcher.commit_stamp());
        trial.push(&mut made.searchers, searcher);
    }
}

/// Gives what a word gives of the last commit.
fn of_last<R: Threads + Wait + Sync>(
    rt: &R,
    trial: &mut Trial,
    writer: &Writer,
    word: &str,
    step: &Value,
) {
    let searcher = writer.searcher();
    if let Some(searcher) = trial.kept(searcher) {
        searched(rt, trial, &searcher, word, step);
    }
}

/// Tries a step of one of these words, and returns whether its word is one of them. A search is one of the last commit,
/// or of a stored searcher.
pub(crate) fn asked<R: Threads + Wait + Sync>(
    rt: &R,
    trial: &mut Trial,
    writer: &Writer,
    made: &mut Made,
    word: &str,
    step: &Value,
) -> bool {
    if word == "keep" {
        keep(trial, writer, made, step);
        return true;
    }
    if word != "ask" && word != "openings" {
        return false;
    }
    if !has(step, "searcher") {
        of_last(rt, trial, writer, word, step);
        return true;
    }
    match made.searchers.get(size(trial, step, "searcher")) {
        Some(searcher) => searched(rt, trial, searcher, word, step),
        None => trial.fail(Trouble::Impossible("no such searcher")),
    }
    true
}
