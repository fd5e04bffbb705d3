// Cases of tokens: `tokens`, `places` and `fold`.
use fts_text::{Tokens, fold_into};
use serde_json::Value;
use testing_cases::{Trial, nonempty, number, only, text};

/// Appends a text, this many times.
pub(crate) fn push_times(trial: &mut Trial, out: &mut String, text: &str, times: u64) {
    for _ in 0..times {
        let pushed = out.push_str(text);
        trial.kept(pushed);
    }
}

/// Appends a piece of a text: a text, or one that is repeated this many times.
fn push_piece(trial: &mut Trial, out: &mut String, piece: &Value) {
    if let Some(piece) = piece.as_str() {
        return push_times(trial, out, piece, 1);
    }
    only(trial, piece, &["times", "of"]);
    let times = number(trial, piece, "times");
    let of = text(trial, piece, "of");
    push_times(trial, out, of, times);
}

/// The text of a case under a name: one that is there, or a list of pieces.
pub(crate) fn text_of(trial: &mut Trial, case: &Value, name: &'static str) -> String {
    let mut out = String::new(trial.alloc());
    if let Some(text) = case.get(name).and_then(Value::as_str) {
        push_times(trial, &mut out, text, 1);
        return out;
    }
    for piece in nonempty(trial, case, name) {
        push_piece(trial, &mut out, piece);
    }
    out
}

/// Gives the position of a span and its folded text.
fn give_folded(trial: &mut Trial, position: usize, span: &str) {
    let mut folded = String::new(trial.alloc());
    let pushed = fold_into(span, &mut folded);
    trial.kept(pushed);
    trial.open();
    trial.give_number(position as u64);
    trial.give_text(folded.as_str());
    trial.close();
}

/// Each token of a text as its position and its folded text.
fn listed(trial: &mut Trial, text: &str) {
    trial.open();
    for token in Tokens::new(text) {
        give_folded(trial, token.position, token.span(text));
    }
    trial.close();
}

/// The tokens of the text of a case.
fn tokens(trial: &mut Trial, case: &Value) {
    let text = text_of(trial, case, "text");
    listed(trial, text.as_str());
}

/// Each token of a text as its position and the bytes at which its span begins and ends.
fn placed(trial: &mut Trial, text: &str) {
    trial.open();
    for token in Tokens::new(text) {
        let place = [token.position as u64, token.start as u64, token.end as u64];
        trial.give_stamps(&place);
    }
    trial.close();
}

/// The places of the tokens of the text of a case.
fn places(trial: &mut Trial, case: &Value) {
    let text = text_of(trial, case, "text");
    placed(trial, text.as_str());
}

/// A text folded after another.
fn folded(trial: &mut Trial, case: &Value) {
    let mut out = text_of(trial, case, "behind");
    let pushed = fold_into(text(trial, case, "text"), &mut out);
    trial.kept(pushed);
    trial.give_text(out.as_str());
}

/// Tries a case of one of these words, and returns whether its word is one of them.
pub(crate) fn given(trial: &mut Trial, word: &str, case: &Value) -> bool {
    match word {
        "tokens" => tokens(trial, case),
        "places" => places(trial, case),
        "fold" => folded(trial, case),
        _ => return false,
    }
    true
}
