// The script of a case, and the replies that it should have.
use serde_json::Value;
use std::fs;
use std::rt::Files;
use testing_cases::{Trial, Trouble, nonempty, only, text};

/// A script and its replies, each line of both ended by an LF.
#[derive(Drop)]
pub(crate) struct Script {
    /// Whether it runs over segments too. Some scripts are about their lines only, which no engine sees.
    pub(crate) over_segments: bool,
    pub(crate) input: String,
    pub(crate) wanted: String,
}

/// The fields `title` (text, default), `tag` (keyword, default), `price` (`u64`) and `temp` (`i64`).
const SCHEMA: &str = "{\"schema\":[\
    {\"name\":\"title\",\"kind\":\"text\",\"default\":true},\
    {\"name\":\"tag\",\"kind\":\"keyword\",\"default\":true},\
    {\"name\":\"price\",\"kind\":\"u64\"},\
    {\"name\":\"temp\",\"kind\":\"i64\"}]}\n";

/// The most that a line or a piece of it is repeated.
const MOST: u64 = 10_000_000;

/// How many times a piece is in a stretch.
const STRETCH: u64 = 4096;

/// How many times a line or a piece is repeated.
fn times_of(trial: &mut Trial, json: &Value) -> u64 {
    match json.as_u64() {
        Some(times) if times <= MOST => times,
        _ => {
            trial.fail(Trouble::Impossible("a number of times that isn't one up to 10,000,000"));
            0
        }
    }
}

/// Appends a text, this many times.
fn push_times(trial: &mut Trial, line: &mut String, text: &str, times: u64) {
    for _ in 0..times {
        let pushed = line.push_str(text);
        trial.kept(pushed);
    }
}

/// Appends a text this many times: many of them by stretches.
fn push_repeated(trial: &mut Trial, line: &mut String, text: &str, times: u64) {
    let mut stretch = String::new(trial.alloc());
    push_times(trial, &mut stretch, text, STRETCH);
    push_times(trial, line, stretch.as_str(), times / STRETCH);
    push_times(trial, line, text, times % STRETCH);
}

/// Appends a piece of a line: a text, or `[times, text]`.
fn push_piece(trial: &mut Trial, line: &mut String, piece: &Value) {
    if let Some(text) = piece.as_str() {
        return push_times(trial, line, text, 1);
    }
    match (piece.get(0usize), piece.get(1usize).and_then(Value::as_str)) {
        (Some(times), Some(text)) => {
            let times = times_of(trial, times);
            push_repeated(trial, line, text, times);
        }
        _ => trial.fail(Trouble::Impossible("a piece that is neither a text nor [times, text]")),
    }
}

/// Appends the pieces of a line.
fn push_pieces(trial: &mut Trial, line: &mut String, pieces: &[Value]) {
    for piece in pieces {
        push_piece(trial, line, piece);
    }
}

/// Appends a value in compact form.
fn push_compact(trial: &mut Trial, line: &mut String, json: &Value) {
    let text = json.to_string(trial.alloc());
    if let Some(text) = trial.kept(text) {
        push_times(trial, line, text.as_str(), 1);
    }
}

/// A line or a reply and its end: a text as it is, an object in compact form, or a list of pieces.
fn line_of(trial: &mut Trial, json: &Value) -> String {
    let mut line = String::new(trial.alloc());
    match json {
        Value::String(text) => push_times(trial, &mut line, text.as_str(), 1),
        Value::Object(_) => push_compact(trial, &mut line, json),
        Value::Array(pieces) => push_pieces(trial, &mut line, pieces),
        _ => trial.fail(Trouble::Impossible(
            "a line that is neither a text, an object nor a list of pieces",
        )),
    }
    push_times(trial, &mut line, "\n", 1);
    line
}

/// The reply to the i-th repetition of a line, counted from 0: its stamp rises by one each time.
fn reply_of(trial: &mut Trial, json: &Value, i: u64) -> String {
    if json.is_null() {
        return String::new(trial.alloc());
    }
    let Some(first) = json.get("stamp").and_then(Value::as_u64) else {
        return line_of(trial, json);
    };
    let reply = format!(in trial.alloc(); "{{\"stamp\":{}}}\n", first.saturating_add(i));
    match trial.kept(reply) {
        Some(reply) => reply,
        None => String::new(trial.alloc()),
    }
}

impl Script {
    /// How many replies it should have.
    pub(crate) fn replies(&self) -> u64 {
        self.wanted.as_str().lines().count() as u64
    }

    /// Appends a line this many times, and its reply as often, if it should have one.
    fn push(&mut self, trial: &mut Trial, line: &Value, reply: &Value, times: u64) {
        let line = line_of(trial, line);
        for i in 0..times {
            push_times(trial, &mut self.input, line.as_str(), 1);
            let reply = reply_of(trial, reply, i);
            push_times(trial, &mut self.wanted, reply.as_str(), 1);
        }
    }

    /// Appends `[line, reply]` or `[line, reply, times]`.
    fn push_pair(&mut self, trial: &mut Trial, pair: &Value) {
        let times = match pair.get(2usize) {
            Some(times) => times_of(trial, times),
            None => 1,
        };
        match (pair.get(0usize), pair.get(1usize)) {
            (Some(line), Some(reply)) => self.push(trial, line, reply, times),
            _ => trial.fail(Trouble::Impossible("a line without its reply")),
        }
    }
}

/// The text of a file.
fn file_of<R: Files + AllocGlobal>(rt: &R, trial: &mut Trial, name: &str) -> String {
    match fs::read_to_string(rt, name) {
        Ok(text) => text,
        Err(_) => {
            trial.fail(Trouble::Impossible("a file that can't be read"));
            String::new(trial.alloc())
        }
    }
}

/// The script of a file, and the replies of another.
fn of_files<R: AllocGlobal + Files>(rt: &R, trial: &mut Trial, case: &Value) -> Script {
    only(trial, case, &["case", "do", "script", "replies", "gives"]);
    let input = text(trial, case, "script");
    let wanted = text(trial, case, "replies");
    Script {
        over_segments: true,
        input: file_of(rt, trial, input),
        wanted: file_of(rt, trial, wanted),
    }
}

/// The script of lines that have their replies beside them, after other lines and their replies.
fn of_lines(
    trial: &mut Trial,
    case: &Value,
    before: &str,
    replies: &str,
    over_segments: bool,
) -> Script {
    only(trial, case, &["case", "do", "lines", "gives"]);
    let mut script = Script {
        over_segments,
        input: String::new(trial.alloc()),
        wanted: String::new(trial.alloc()),
    };
    push_times(trial, &mut script.input, before, 1);
    push_times(trial, &mut script.wanted, replies, 1);
    for pair in nonempty(trial, case, "lines") {
        script.push_pair(trial, pair);
    }
    script
}

/// The script of a case.
pub(crate) fn script_of<R: AllocGlobal + Files>(rt: &R, trial: &mut Trial, case: &Value) -> Script {
    match text(trial, case, "do") {
        "files" => of_files(rt, trial, case),
        "lines" => of_lines(trial, case, "", "", true),
        "lines under a schema" => of_lines(trial, case, SCHEMA, "{\"fields\":4}\n", true),
        "lines without an index" => of_lines(trial, case, "", "", false),
        _ => {
            trial.fail(Trouble::UnknownWord);
            of_lines(trial, case, "", "", false)
        }
    }
}
