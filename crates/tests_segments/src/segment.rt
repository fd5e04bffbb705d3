// What a segment holds whose documents were added, or whose indexes were built, again after a refused growth.
ghost use Rattle.std.specs.Prelude.{◌≡◌};
ghost use Rattle.fts_model.specs.Operations.{kind_at};

use crate::fixtures::example;
use fts_model::{FieldValue, Kind, Number, Term, Text};
use fts_pack::Blocks;
use fts_positions::Positions;
use fts_segment::{ListId, Segment};
use std::alloc::{AllocError, Global};
use std::fmt::Write;
use std::process::Abort;

/// The terms of texts in fields, each with the documents that have it and its positions there.
static LISTS: [(usize, &str, &str); 4] = [
    (0, "a", " 0: 0 2"),
    (0, "b", " 0: 1 1: 0"),
    (0, "c", ""),
    (1, "a", " 2: 0"),
];

/// Appends positions.
fn put_positions(list: &mut String, positions: Positions<'_>) -> Result<(), AllocError> {
    for position in positions {
        write!(list, " {position}")?;
    }
    Ok(())
}

/// Appends the documents of the first block of a list, each with its positions.
fn put_postings(list: &mut String, segment: &Segment, found: ListId<'_>) -> Result<(), AllocError> {
    let mut source = segment.postings(found).source();
    if source.blocks() == 0 {
        return Ok(());
    }
    let mut documents = [0; 128];
    let count = source.open(0, &mut documents);
    let mut positions = segment.positions(found);
    for (posting, document) in documents.iter().take(count).enumerate() {
        write!(list, " {document}:")?;
        put_positions(list, positions.get(posting))?;
    }
    Ok(())
}

/// Lists the documents that have a term, each with the term's positions in it.
fn listed(alloc: Global, segment: &Segment, term: &Term) -> Result<String, AllocError> {
    let mut list = String::new(alloc);
    if let Some(found) = segment.find(term) {
        put_postings(&mut list, segment, found)?;
    }
    Ok(list)
}

/// Asserts that a segment holds this list of a term.
fn lists(rt: &impl Abort, alloc: Global, segment: &Segment, term: &Term, wanted: &str) {
    let list = listed(alloc, segment, term).expect(rt, "a list");
    assert_eq!(rt; list.as_str(), wanted);
}

/// The term of a text.
fn term_of(alloc: Global, field: usize, text: &str) -> Result<Term, AllocError> {
    let value = FieldValue::Text(Text::new(String::from_str(alloc, text)?));
    Ok(Term { field, value })
}

/// The kind of a field, if it is there.
fn kind_of(segment: &Segment, field: usize) -> Option<Kind>
    ensures { result ≡ kind_at segment.now.schema field }
{
    Some(segment.schema().fields().get(field)?.kind)
}

/// Appends what the column of a field has of each document, if the field has a column.
fn put_column(list: &mut String, segment: &Segment, field: usize) -> Result<(), AllocError> {
    match kind_of(segment, field) {
        Some(kind) if kind.is_ordered() => {}
        _ => return Ok(()),
    }
    let column = segment.column(field);
    write!(list, " {field}:")?;
    for document in 0..segment.docs() {
        write!(list, " {:?}", column.get(document))?;
    }
    Ok(())
}

/// Lists the stamp of each document, and then what each column has of it.
fn stamps_and_columns(alloc: Global, segment: &Segment) -> Result<String, AllocError> {
    let mut list = String::new(alloc);
    for document in 0..segment.docs() {
        write!(list, " {}", segment.stamp(document))?;
    }
    for field in 0..segment.schema().fields().len() {
        put_column(&mut list, segment, field)?;
    }
    Ok(list)
}

#[test]
fn a_refused_growth_of_a_segment_can_be_tried_again(rt: HostRuntime) {
    let segment = example(&rt, rt.alloc());
    for (field, text, wanted) in &LISTS {
        let term = term_of(rt.alloc(), *field, text).expect(&rt, "a term");
        lists(&rt, rt.alloc(), &segment, &term, wanted);
    }
    let value = FieldValue::Number(Number::U64(4));
    lists(&rt, rt.alloc(), &segment, &Term { field: 2, value }, " 0:");
    let rest = stamps_and_columns(rt.alloc(), &segment).expect(&rt, "a list");
    assert_eq!(rt;
        rest.as_str(),
        " 3 5 9 1: None None Some(0) 2: Some(4) None None 3: None None None"
    );
}
