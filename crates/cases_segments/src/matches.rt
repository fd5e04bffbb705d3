// Cases of what a query finds in the first segment that was made: `found` and `count`.
use crate::bench::Bench;
use crate::queries::query_of;
use crate::texts::text_of;
use fts_cursor::{Cursor, DocSet, cursor_of};
use fts_model::Query;
use serde_json::Value;
use testing_cases::{Trial, Trouble};

/// The cursor of a query.
fn cursor<'a>(trial: &mut Trial, bench: &'a Bench, query: &Query) -> Option<Cursor<'a>> {
    let (segment, live) = (&bench.segment, &bench.live);
    if live.len() != segment.docs() || !query.fits(segment.schema()) {
        trial.fail(Trouble::Impossible("the segment can't be asked"));
        return None;
    }
    let cursor = cursor_of(trial.alloc(), segment, live, query);
    trial.kept(cursor)
}

/// The cursor of a query's text.
pub(crate) fn cursor_over<'a>(
    trial: &mut Trial,
    bench: &'a Bench,
    text: &str,
) -> Option<Cursor<'a>> {
    match query_of(trial, bench.segment.schema(), text) {
        Some(query) => cursor(trial, bench, &query),
        None => None,
    }
}

/// Whether a document is live and matches.
fn is_found(trial: &mut Trial, bench: &Bench, query: &Query, doc: usize) -> bool {
    let segment = &bench.segment;
    if doc >= segment.docs() || !bench.live.contains(doc) {
        return false;
    }
    let matches = fts_scan::matches(
        trial.alloc(),
        segment.schema(),
        query,
        segment.document(doc),
    );
    trial.kept(matches) == Some(true)
}

/// The live documents that match, each of them tested.
fn scanned(trial: &mut Trial, bench: &Bench, query: &Query) -> Vec<u32> {
    let mut found = Vec::new(trial.alloc());
    for doc in 0..bench.segment.docs() {
        if is_found(trial, bench, query, doc) {
            trial.push(&mut found, u32::try_from(doc).unwrap_or(u32::MAX));
        }
    }
    found
}

/// Puts the documents that a cursor goes over one by one into a list, up to this many.
pub(crate) fn push_steps(
    trial: &mut Trial,
    found: &mut Vec<u32>,
    cursor: &mut Cursor,
    most: usize,
) {
    for _ in 0..most {
        match cursor.doc() {
            Some(doc) => trial.push(found, doc),
            None => return,
        }
        cursor.advance();
    }
}

/// The documents that a cursor's steps find.
fn stepped(trial: &mut Trial, bench: &Bench, query: &Query) -> Vec<u32> {
    let mut found = Vec::new(trial.alloc());
    let most = bench.segment.docs().saturating_add(1);
    if let Some(mut cursor) = cursor(trial, bench, query) {
        push_steps(trial, &mut found, &mut cursor, most);
    }
    found
}

/// Puts the documents that a cursor takes some at a time into a list.
fn push_taken(trial: &mut Trial, found: &mut Vec<u32>, cursor: &mut Cursor, most: usize) {
    for _ in 0..most {
        let mut out = [0; 128];
        let count = cursor.take(&mut out);
        if count == 0 {
            return;
        }
        let pushed = found.extend_from_slice(out.get(..count).unwrap_or(&[]));
        trial.kept(pushed);
    }
}

/// The documents that a cursor takes some at a time.
fn taken(trial: &mut Trial, bench: &Bench, query: &Query) -> Vec<u32> {
    let mut found = Vec::new(trial.alloc());
    let most = bench.segment.docs().saturating_add(1);
    if let Some(mut cursor) = cursor(trial, bench, query) {
        push_taken(trial, &mut found, &mut cursor, most);
    }
    found
}

/// Gives documents that should be the same, and aren't.
fn give_three(trial: &mut Trial, scan: &[u32], steps: &[u32], takes: &[u32]) {
    trial.open_object();
    trial.name("scan");
    trial.give_documents(scan);
    trial.name("steps");
    trial.give_documents(steps);
    trial.name("takes");
    trial.give_documents(takes);
    trial.close_object();
}

/// Gives the documents that a query finds, or, if `counts` says so, how many they are. If a scan, a cursor's steps and
/// what it takes some at a time find different ones, gives all three lists.
fn give_found(trial: &mut Trial, bench: &Bench, query: &Query, counts: bool) {
    let scan = scanned(trial, bench, query);
    let steps = stepped(trial, bench, query);
    let takes = taken(trial, bench, query);
    if scan != steps || scan != takes {
        give_three(trial, &scan, &steps, &takes);
    } else if counts {
        trial.give_number(scan.len() as u64);
    } else {
        trial.give_documents(&scan);
    }
}

/// The documents that the query of a case finds, or how many they are.
fn found(trial: &mut Trial, case: &Value, bench: &Bench, counts: bool) {
    let text = text_of(trial, case, "query");
    if let Some(query) = query_of(trial, bench.segment.schema(), text.as_str()) {
        give_found(trial, bench, &query, counts);
    }
}

/// Tries a case of one of these words, and returns whether its word is one of them.
pub(crate) fn given(trial: &mut Trial, word: &str, case: &Value, bench: &Bench) -> bool {
    match word {
        "found" => found(trial, case, bench, false),
        "count" => found(trial, case, bench, true),
        _ => return false,
    }
    true
}
