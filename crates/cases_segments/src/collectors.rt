// Cases of the joined parts of all segments that were made: `answer` and `answer_openings`.
use crate::bench::Bench;
use crate::queries::query_of;
use crate::texts::text_of;
use fts_collect::{Part, collect};
use fts_model::{Query, Request};
use serde_json::Value;
use testing_cases::{Trial, Trouble, give_answer, request_of};

/// Appends the part of one segment for a query.
fn push_told(
    trial: &mut Trial,
    parts: &mut Vec<Part>,
    bench: &Bench,
    query: &Query,
    request: &Request,
) {
    let schema = bench.segment.schema();
    if bench.live.len() != bench.segment.docs() || !query.fits(schema) || !request.fits(schema) {
        return trial.fail(Trouble::Impossible("the segment can't be asked"));
    }
    let part = collect(trial.alloc(), &bench.segment, &bench.live, query, request);
    if let Some(part) = trial.kept(part) {
        trial.push(parts, part);
    }
}

/// Appends the part of one segment for a text.
fn push_part(
    trial: &mut Trial,
    parts: &mut Vec<Part>,
    bench: &Bench,
    text: &str,
    request: &Request,
) {
    if let Some(query) = query_of(trial, bench.segment.schema(), text) {
        push_told(trial, parts, bench, &query, request);
    }
}

/// The part of each segment.
fn parts_of(trial: &mut Trial, made: &[Bench], text: &str, request: &Request) -> Vec<Part> {
    let mut parts = Vec::new(trial.alloc());
    for bench in made {
        push_part(trial, &mut parts, bench, text, request);
    }
    parts
}

/// What is asked for beside the count, under the schema of the first segment.
fn asked(trial: &mut Trial, case: &Value, made: &[Bench]) -> Option<Request> {
    match made.first() {
        Some(bench) => request_of(trial, bench.segment.schema(), case),
        None => {
            trial.fail(Trouble::Impossible("no documents were made"));
            None
        }
    }
}

/// Gives the answer of joined parts.
fn give_joined(trial: &mut Trial, parts: Vec<Part>, request: &Request) {
    match Part::join(trial.alloc(), parts, request) {
        Ok(answer) => give_answer(trial, &answer),
        Err((_, refusal)) => trial.fail(Trouble::from(refusal)),
    }
}

/// How many blocks were opened for parts.
fn openings_of(parts: &[Part]) -> u64 {
    let mut openings = 0u64;
    for part in parts {
        openings = openings.saturating_add(part.openings());
    }
    openings
}

/// Gives the answer of all segments, or how many blocks are opened for it.
fn answer(trial: &mut Trial, case: &Value, made: &[Bench], counts: bool) {
    let text = text_of(trial, case, "query");
    let Some(request) = asked(trial, case, made) else {
        return;
    };
    let parts = parts_of(trial, made, text.as_str(), &request);
    if counts {
        trial.give_number(openings_of(&parts));
    } else {
        give_joined(trial, parts, &request);
    }
}

/// Tries a case of one of these words, and returns whether its word is one of them.
pub(crate) fn given(trial: &mut Trial, word: &str, case: &Value, made: &[Bench]) -> bool {
    match word {
        "answer" => answer(trial, case, made, false),
        "answer_openings" => answer(trial, case, made, true),
        _ => return false,
    }
    true
}
