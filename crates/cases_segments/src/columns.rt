// Cases of columns: `column_of`, `column_words` and `column_within`.
use crate::numbers::name_words;
use fts_model::MOST_MERGED;
use fts_pack::column::Column;
use serde_json::Value;
use testing_cases::{Trial, Trouble, list, number, numbers};

/// The values of a list, `null` for one that is missing.
fn values_of(trial: &mut Trial, items: &[Value]) -> Vec<Option<u64>> {
    let mut values = Vec::new(trial.alloc());
    for item in items {
        if item.as_u64().is_none() && !item.is_null() {
            trial.fail(Trouble::WrongKind("values"));
        }
        trial.push(&mut values, item.as_u64());
    }
    values
}

/// The column of the values of a case.
fn built(trial: &mut Trial, case: &Value) -> Option<Column> {
    let items = list(trial, case, "values");
    let values = values_of(trial, items);
    if values.len() > MOST_MERGED {
        trial.fail(Trouble::Impossible("more than a segment's values"));
        return None;
    }
    let column = Column::build(trial.alloc(), &values);
    trial.kept(column)
}

/// The width of a column, and the words that hold its values.
fn column_words(trial: &mut Trial, case: &Value) {
    if let Some(column) = built(trial, case) {
        let packed = column.packed(trial.alloc());
        if let Some((width, words)) = trial.kept(packed) {
            trial.open_object();
            name_words(trial, width);
            trial.give_stamps(&words);
            trial.close_object();
        }
    }
}

/// Gives each value of a column, and one after its last.
fn give_values(trial: &mut Trial, column: &Column) {
    trial.open();
    for doc in 0..column.len().saturating_add(1) {
        trial.give_some_number(column.get(doc));
    }
    trial.close();
}

/// Gives a range, or `null`.
fn give_range(trial: &mut Trial, range: Option<(u64, u64)>) {
    match range {
        Some((least, greatest)) => trial.give_stamps(&[least, greatest]),
        None => trial.give_null(),
    }
}

/// The least and the greatest value of a column, its values and one after the last, and the bits of the first 64.
fn column(trial: &mut Trial, case: &Value) {
    if let Some(column) = built(trial, case) {
        trial.open_object();
        trial.name("range");
        give_range(trial, column.range());
        trial.name("values");
        give_values(trial, &column);
        trial.name("present");
        trial.give_number(column.present().word(0));
        trial.close_object();
    }
}

/// Gives the range of each 128 values of a column, and one after the last.
fn give_ranges(trial: &mut Trial, column: &Column) {
    trial.open();
    for block in 0..column.len().div_ceil(128).saturating_add(1) {
        give_range(trial, column.block_range(block));
    }
    trial.close();
}

/// Gives a bit for each document, set if its value is between two, in words of 64, and one after the last.
fn give_marks(trial: &mut Trial, column: &Column, low: u64, high: u64) {
    trial.open();
    for word in 0..column.len().div_ceil(64).saturating_add(1) {
        let from = word.saturating_mul(64);
        if from % 64 == 0 {
            trial.give_number(column.marks_within(from, low, high));
        }
    }
    trial.close();
}

/// The ranges of a column's blocks, the documents whose value is between two, and the last of some with such a value.
fn within(trial: &mut Trial, case: &Value) {
    let (low, high) = (number(trial, case, "low"), number(trial, case, "high"));
    let docs = numbers(trial, case, "docs");
    if let Some(column) = built(trial, case) {
        trial.open_object();
        trial.name("ranges");
        give_ranges(trial, &column);
        trial.name("marks");
        give_marks(trial, &column, low, high);
        trial.name("last");
        let last = column.last_within(&docs, low, high);
        trial.give_some_number(last.map(|place| place as u64));
        trial.close_object();
    }
}

/// Tries a case of one of these words, and returns whether its word is one of them.
pub(crate) fn given(trial: &mut Trial, word: &str, case: &Value) -> bool {
    match word {
        "column_of" => column(trial, case),
        "column_words" => column_words(trial, case),
        "column_within" => within(trial, case),
        _ => return false,
    }
    true
}
