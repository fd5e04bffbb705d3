// Cases of what a segment holds: `postings`, `positions`, `all_positions`, `column`, `keyword`, `equal_range`, `stored`
// and `stamps`.
ghost use Rattle.std.specs.Prelude.{◌≡◌, Some, true};
ghost use Rattle.fts_model.specs.declared.schema.Kind.TheVariants as kinds;
ghost use Rattle.fts_model.specs.Operations.{kind_at};

use fts_model::{FieldValue, Kind, Number, Term, Text};
use fts_pack::{Blocks, ListRef};
use fts_segment::{ListId, Segment};
use serde_json::Value;
use testing_cases::{Trial, Trouble, has, member, number, only, size, text};

/// The value of an object `{"text":..}`, `{"u64":..}` or `{"i64":..}`.
fn value_of(trial: &mut Trial, json: &Value) -> Option<FieldValue> {
    if has(json, "text") {
        let text = String::from_str(trial.alloc(), text(trial, json, "text"));
        return trial
            .kept(text)
            .map(|text| FieldValue::Text(Text::new(text)));
    }
    if has(json, "u64") {
        return Some(FieldValue::Number(Number::U64(number(trial, json, "u64"))));
    }
    match json.get("i64").and_then(Value::as_i64) {
        Some(number) => Some(FieldValue::Number(Number::I64(number))),
        None => {
            trial.fail(Trouble::WrongKind("term"));
            None
        }
    }
}

/// The term of an object that has the number of a field beside a value, whether it fits the schema or not.
fn term_of(trial: &mut Trial, case: &Value) -> Option<Term> {
    let json = member(trial, case, "term")?;
    only(trial, json, &["field", "text", "u64", "i64"]);
    let field = size(trial, json, "field");
    let value = value_of(trial, json)?;
    Some(Term { field, value })
}

/// The list of the term of a case, if there is one.
fn list_of<'a>(trial: &mut Trial, case: &Value, segment: &'a Segment) -> Option<ListId<'a>> {
    let term = term_of(trial, case)?;
    segment.find(&term)
}

/// Gives the documents of all blocks of a list.
fn give_listed(trial: &mut Trial, list: ListRef<'_>) {
    let mut source = list.source();
    trial.open();
    for block in 0..source.blocks() {
        if block < source.blocks() {
            let mut out = [0; 128];
            let count = source.open(block, &mut out);
            trial.give_each(out.get(..count).unwrap_or(&[]));
        }
    }
    trial.close();
}

/// The documents that have a term, and none if there is no list.
pub(crate) fn postings(trial: &mut Trial, case: &Value, segment: &Segment) {
    match list_of(trial, case, segment) {
        None => trial.give_documents(&[]),
        Some(list) => give_listed(trial, segment.postings(list)),
    }
}

/// Gives the positions of the term of a list in the document of a posting.
fn give_places(trial: &mut Trial, segment: &Segment, list: ListId, posting: usize) {
    trial.open();
    for position in segment.positions(list).get(posting) {
        trial.give_number(u64::from(position));
    }
    trial.close();
}

/// The positions of a term in the document of each posting, or `null` if there is no list.
fn all_positions(trial: &mut Trial, case: &Value, segment: &Segment) {
    let Some(list) = list_of(trial, case, segment) else {
        return trial.give_null();
    };
    trial.open();
    for posting in 0..segment.postings(list).len() {
        give_places(trial, segment, list, posting);
    }
    trial.close();
}

/// The positions of a term in the document of a posting, or `null` if there is no list.
fn positions(trial: &mut Trial, case: &Value, segment: &Segment) {
    let posting = size(trial, case, "posting");
    match list_of(trial, case, segment) {
        None => trial.give_null(),
        Some(list) => give_places(trial, segment, list, posting),
    }
}

/// The kind of a field, if it is there.
fn kind_of(segment: &Segment, field: usize) -> Option<Kind>
    ensures { result ≡ kind_at segment.now.schema field }
{
    Some(segment.schema().fields().get(field)?.kind)
}

/// The numbers of a field, as they are stored, or the ordinals of its keywords, or `null` if it is neither a number
/// field nor a keyword field.
pub(crate) fn column(trial: &mut Trial, case: &Value, segment: &Segment) {
    let field = size(trial, case, "field");
    match kind_of(segment, field) {
        Some(kind) if kind.is_ordered() => {}
        _ => return trial.give_null(),
    }
    let column = segment.column(field);
    trial.open();
    for doc in 0..segment.docs() {
        trial.give_some_number(column.get(doc));
    }
    trial.close();
}

/// Whether a field of this number is a keyword field.
fn holds_keywords(segment: &Segment, field: usize) -> bool
    ensures { result ≡ true → kind_at segment.now.schema field ≡ Some kinds.Keyword }
{
    match kind_of(segment, field) {
        Some(Kind::Keyword) => true,
        _ => false,
    }
}

/// The keyword of an ordinal in a field, or `null` if there is none.
fn keyword(trial: &mut Trial, case: &Value, segment: &Segment) {
    let field = size(trial, case, "field");
    let ordinal = number(trial, case, "ordinal");
    if !holds_keywords(segment, field) {
        return trial.give_null();
    }
    match segment.keyword(field, ordinal) {
        Some(keyword) => trial.give_text(keyword),
        None => trial.give_null(),
    }
}

/// How many different keywords of a field are before a text, and how many aren't after it, or `null` if the field has
/// no keywords.
fn equal_range(trial: &mut Trial, case: &Value, segment: &Segment) {
    let field = size(trial, case, "field");
    let text = text(trial, case, "text");
    if !holds_keywords(segment, field) {
        return trial.give_null();
    }
    let (before, up_to) = segment.equal_range(field, text);
    trial.give_stamps(&[before, up_to]);
}

/// A document and its stamp.
fn stored(trial: &mut Trial, case: &Value, segment: &Segment) {
    let doc = size(trial, case, "doc");
    if doc >= segment.docs() {
        return trial.fail(Trouble::Impossible("no such document"));
    }
    trial.open_object();
    trial.name("stamp");
    trial.give_number(segment.stamp(doc));
    trial.name("document");
    let json = segment.document(doc).to_json(trial.alloc());
    if let Some(json) = trial.kept(json) {
        trial.give_value(&json);
    }
    trial.close_object();
}

/// Gives the stamps of all documents.
fn give_stamps_of(trial: &mut Trial, segment: &Segment) {
    trial.open();
    for doc in 0..segment.docs() {
        trial.give_number(segment.stamp(doc));
    }
    trial.close();
}

/// The stamps of all documents of a copy.
fn copied(trial: &mut Trial, segment: &Segment) {
    let copy: Result<_, _> = segment.clone();
    if let Some(copy) = trial.kept(copy) {
        give_stamps_of(trial, &copy);
    }
}

/// Tries a case of one of these words, and returns whether its word is one of them.
pub(crate) fn given(trial: &mut Trial, word: &str, case: &Value, segment: &Segment) -> bool {
    match word {
        "postings" => postings(trial, case, segment),
        "positions" => positions(trial, case, segment),
        "all_positions" => all_positions(trial, case, segment),
        "column" => column(trial, case, segment),
        "keyword" => keyword(trial, case, segment),
        "equal_range" => equal_range(trial, case, segment),
        "stored" => stored(trial, case, segment),
        "stamps" => copied(trial, segment),
        _ => return false,
    }
    true
}
