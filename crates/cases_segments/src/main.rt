// Tries cases of the public calls of the crates up to one segment: each case of the files that `args` names is compared
// with what it says.
#![tactic(auto)]

mod bench;
mod collectors;
mod columns;
mod content;
mod joins;
mod lists;
mod lookups;
mod matches;
mod merges;
mod numbers;
mod queries;
mod schemas;
mod texts;
mod walks;

use bench::{Bench, cleared, made};
use serde_json::Value;
use std::io;
use std::process::ExitCode;
use testing_cases::{Driver, Trial, Trouble, only_in_case, run, text};

/// What a case of each word may have beside its sentence, its word and what it gives.
const MEMBERS: [(&str, &[&str]); 51] = [
    ("tokens", &["text"]),
    ("places", &["text"]),
    ("fold", &["text", "behind"]),
    ("schema", &["fields"]),
    ("field", &["schema", "name"]),
    ("document", &["schema", "document"]),
    ("long_document", &["schema", "field", "times"]),
    ("fits", &["document", "fields"]),
    ("term", &["schema", "term"]),
    ("has", &["schema", "document", "term"]),
    ("alive", &["schema", "ops"]),
    ("parse", &["schema", "query"]),
    ("syntax_byte", &["schema", "query"]),
    ("scan", &["schema", "documents", "query", "groups", "top"]),
    ("pattern", &["schema", "documents", "pattern"]),
    ("request", &["schema", "groups", "top"]),
    ("block", &["numbers"]),
    ("block_words", &["numbers"]),
    ("numbers", &["numbers"]),
    ("column_of", &["values"]),
    ("column_words", &["values"]),
    ("column_within", &["values", "low", "high", "docs"]),
    ("bits", &["len", "all", "set", "clear"]),
    ("signed", &["number"]),
    ("gaps", &["documents"]),
    ("list", &["documents"]),
    ("list_blocks", &["documents"]),
    ("lists", &["lists"]),
    (
        "make",
        &["schema", "merging", "documents", "stamps", "repeated"],
    ),
    (
        "and_make",
        &["schema", "merging", "documents", "stamps", "repeated"],
    ),
    ("clear", &["docs"]),
    ("answer", &["query", "groups", "top"]),
    ("answer_openings", &["query"]),
    ("plan", &["sizes"]),
    (
        "plan_by",
        &["docs", "live", "floor", "members", "most", "dead"],
    ),
    ("postings", &["term"]),
    ("positions", &["term", "posting"]),
    ("all_positions", &["term"]),
    ("column", &["field"]),
    ("keyword", &["field", "ordinal"]),
    ("equal_range", &["field", "text"]),
    ("stored", &["doc"]),
    ("stamps", &[]),
    ("found", &["query"]),
    ("count", &["query"]),
    ("walk", &["query", "steps"]),
    ("strike", &["ops"]),
    ("merge", &["first", "second"]),
    ("merged_postings", &["first", "second", "term"]),
    ("merged_column", &["first", "second", "field"]),
    ("join", &[]),
];

/// Refuses a word that isn't there, and a member that its cases don't have.
fn check_members(trial: &mut Trial, word: &str, case: &Value) {
    for (name, members) in &MEMBERS {
        if *name == word {
            return only_in_case(trial, case, members);
        }
    }
    trial.fail(Trouble::UnknownWord);
}

/// The segments that earlier cases of the file made.
#[derive(Drop)]
struct Segments {
    made: Vec<Bench>,
}

impl Segments {
    /// Makes a segment, and gives how many documents it has.
    fn make(&mut self, trial: &mut Trial, word: &str, case: &Value) {
        let Some(bench) = made(trial, case) else {
            return;
        };
        if trial.has_failed() {
            return;
        }
        trial.give_number(bench.segment.docs() as u64);
        if word == "make" {
            self.made.clear();
        }
        trial.push(&mut self.made, bench);
    }

    /// Clears bits of the last segment.
    fn clear(&mut self, trial: &mut Trial, case: &Value) {
        match self.made.last_mut() {
            Some(bench) => cleared(trial, &mut bench.live, case),
            None => trial.fail(Trouble::Impossible("no documents were made")),
        }
    }
}

/// Tries a case that looks at no segment, and returns whether its word is that of one.
fn without_segments(trial: &mut Trial, word: &str, case: &Value) -> bool {
    texts::given(trial, word, case)
        || schemas::given(trial, word, case)
        || content::given(trial, word, case)
        || queries::given(trial, word, case)
        || numbers::given(trial, word, case)
        || columns::given(trial, word, case)
        || lists::given(trial, word, case)
}

/// Tries a case of the first segment, and returns whether its word is that of one.
fn in_segment(trial: &mut Trial, word: &str, case: &Value, bench: &Bench) -> bool {
    lookups::given(trial, word, case, &bench.segment)
        || matches::given(trial, word, case, bench)
        || walks::given(trial, word, case, bench)
        || merges::given(trial, word, case, bench)
}

/// Tries a case over the segments that were made.
fn in_segments(trial: &mut Trial, word: &str, case: &Value, made: &[Bench]) {
    if collectors::given(trial, word, case, made) {
        return;
    }
    if word == "plan" {
        return merges::planned(trial, case);
    }
    if word == "plan_by" {
        return merges::planned_by(trial, case);
    }
    let is_known = match made.first() {
        Some(bench) => in_segment(trial, word, case, bench),
        None => false,
    };
    if !is_known {
        trial.fail(Trouble::UnknownWord);
    }
}

impl Driver for Segments {
    fn begin(&mut self) {
        self.made.clear();
    }

    fn give(&mut self, case: &Value, trial: &mut Trial) {
        let word = text(trial, case, "do");
        check_members(trial, word, case);
        if trial.has_failed() {
            return;
        }
        if word == "make" || word == "and_make" {
            return self.make(trial, word, case);
        }
        if word == "clear" {
            return self.clear(trial, case);
        }
        if word == "join" {
            return joins::join(trial, &mut self.made);
        }
        if !without_segments(trial, word, case) {
            in_segments(trial, word, case, &self.made);
        }
    }
}

fn main(rt: HostRuntime) -> io::Result<ExitCode> {
    let made = Vec::new(rt.alloc());
    run(&rt, &mut Segments { made })
}
