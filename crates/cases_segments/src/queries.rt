// Cases of queries and requests without a segment: `parse`, `syntax_byte`, `scan`, `pattern` and `request`.
use crate::texts::text_of;
use fts_model::{Document, Query, Refusal, Schema, Stamped, Text};
use fts_query::parse;
use fts_scan::answer;
use serde_json::Value;
use testing_cases::{Trial, Trouble, give_answer, nonempty, request_of, schema_of};

/// The query of a text.
pub(crate) fn query_of(trial: &mut Trial, schema: &Schema, text: &str) -> Option<Query> {
    let query = parse(trial.alloc(), schema, text);
    trial.kept(query)
}

/// Gives the byte up to which a text is the beginning of a query.
fn give_byte(trial: &mut Trial, schema: &Schema, text: &str) {
    match parse(trial.alloc(), schema, text) {
        Err(Refusal::Syntax(byte)) => trial.give_number(byte as u64),
        Err(refusal) => trial.fail(Trouble::from(refusal)),
        Ok(_) => trial.give_null(),
    }
}

/// The byte up to which a text is the beginning of a query.
fn syntax_byte(trial: &mut Trial, case: &Value) {
    let text = text_of(trial, case, "query");
    if let Some(schema) = schema_of(trial, case) {
        give_byte(trial, &schema, text.as_str());
    }
}

/// Documents at the stamps 1, 2, 3 and so on.
fn stamped(trial: &mut Trial, schema: &Schema, items: &[Value]) -> Vec<Stamped<Document>> {
    let mut documents = Vec::new(trial.alloc());
    for json in items {
        let stamp = (documents.len() as u64).saturating_add(1);
        let value = Document::from_json(trial.alloc(), schema, json);
        if let Some(value) = trial.kept(value) {
            trial.push(&mut documents, Stamped { stamp, value });
        }
    }
    documents
}

/// The documents of a case.
fn documents_of(trial: &mut Trial, schema: &Schema, case: &Value) -> Vec<Stamped<Document>> {
    let items = nonempty(trial, case, "documents");
    stamped(trial, schema, items)
}

/// Gives what a look at each document of a case answers to a query.
fn give_scanned(trial: &mut Trial, schema: &Schema, case: &Value, query: &Query) {
    let Some(request) = request_of(trial, schema, case) else {
        return;
    };
    let documents = documents_of(trial, schema, case);
    let answer = answer(trial.alloc(), schema, query, &request, &documents);
    if let Some(answer) = trial.kept(answer) {
        give_answer(trial, &answer);
    }
}

/// Gives whether a text is a query, or what a look at each document of a case answers to it.
fn give_parsed(trial: &mut Trial, schema: &Schema, word: &str, case: &Value, text: &str) {
    if let Some(query) = query_of(trial, schema, text) {
        match word {
            "parse" => trial.give_flag(query.fits(schema)),
            _ => give_scanned(trial, schema, case, &query),
        }
    }
}

/// Whether a text is a query, or what a look at each document answers to it.
fn parsed(trial: &mut Trial, word: &str, case: &Value) {
    let text = text_of(trial, case, "query");
    if let Some(schema) = schema_of(trial, case) {
        give_parsed(trial, &schema, word, case, text.as_str());
    }
}

/// Appends the offset and the token of a pair.
fn push_member(trial: &mut Trial, pattern: &mut Vec<(u32, Text)>, pair: &Value) {
    let offset = pair.get(0usize).and_then(Value::as_u64);
    let token = pair.get(1usize).and_then(Value::as_str);
    match (offset.and_then(|offset| u32::try_from(offset).ok()), token) {
        (Some(offset), Some(token)) => push_token(trial, pattern, offset, token),
        _ => trial.fail(Trouble::WrongKind("pattern")),
    }
}

fn push_token(trial: &mut Trial, pattern: &mut Vec<(u32, Text)>, offset: u32, token: &str) {
    let token = String::from_str(trial.alloc(), token);
    if let Some(token) = trial.kept(token) {
        trial.push(pattern, (offset, Text::new(token)));
    }
}

/// The phrase of a list of pairs, each an offset and a token, in the first field.
fn phrase_of(trial: &mut Trial, items: &[Value]) -> Query {
    let mut pattern = Vec::new(trial.alloc());
    for item in items {
        push_member(trial, &mut pattern, item);
    }
    Query::Phrase { field: 0, pattern }
}

/// Gives how many documents of a case a query finds.
fn give_count(trial: &mut Trial, schema: &Schema, case: &Value, query: &Query) {
    if !query.fits(schema) {
        return trial.fail(Trouble::Impossible("a phrase of another schema"));
    }
    let Some(request) = request_of(trial, schema, case) else {
        return;
    };
    let documents = documents_of(trial, schema, case);
    let answer = answer(trial.alloc(), schema, query, &request, &documents);
    if let Some(answer) = trial.kept(answer) {
        trial.give_number(answer.count);
    }
}

/// Gives how many documents of a case have tokens at offsets from some position of their first field.
fn give_pattern(trial: &mut Trial, schema: &Schema, case: &Value) {
    let items = nonempty(trial, case, "pattern");
    let query = phrase_of(trial, items);
    give_count(trial, schema, case, &query);
}

/// How many documents have tokens at offsets from some position of their first field.
fn with_pattern(trial: &mut Trial, case: &Value) {
    if let Some(schema) = schema_of(trial, case) {
        give_pattern(trial, &schema, case);
    }
}

/// Whether what is asked by values fits the schema.
fn request(trial: &mut Trial, case: &Value) {
    let Some(schema) = schema_of(trial, case) else {
        return;
    };
    if let Some(request) = request_of(trial, &schema, case) {
        trial.give_flag(request.fits(&schema));
    }
}

/// Tries a case of one of these words, and returns whether its word is one of them.
pub(crate) fn given(trial: &mut Trial, word: &str, case: &Value) -> bool {
    match word {
        "parse" | "scan" => parsed(trial, word, case),
        "syntax_byte" => syntax_byte(trial, case),
        "pattern" => with_pattern(trial, case),
        "request" => request(trial, case),
        _ => return false,
    }
    true
}
