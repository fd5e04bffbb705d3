// What a writer holds, as text.
use fts_index::{Entry, Searcher, Writer};
use fts_model::{Document, FieldValue, Refusal};
use std::alloc::{AllocError, Global};
use std::fmt::Write;

/// The text of a value, and an empty text if it is a list or a number.
pub fn text_of(value: &FieldValue) -> &str {
    match value {
        FieldValue::Text(text) => text.as_str(),
        FieldValue::Texts(_) | FieldValue::Number(_) => "",
    }
}

/// The text of a document's second field, and an empty text if it has none.
pub fn tag_of(document: &Document) -> &str {
    match document.value(1) {
        Some(tag) => text_of(tag),
        None => "",
    }
}

/// Lists the live documents of a segment, each with its stamp and its tag.
fn list_live(list: &mut String, entry: &Entry) -> Result<(), AllocError> {
    let segment = entry.segment();
    let live = entry.live();
    for number in 0..segment.docs() {
        if live.contains(number) {
            let tag = tag_of(segment.document(number));
            write!(list, " {}{tag}", segment.stamp(number))?;
        }
    }
    Ok(())
}

/// Lists what a searcher finds, segment by segment.
fn list_found(list: &mut String, searcher: &Searcher) -> Result<(), AllocError> {
    for entry in searcher.snapshot().entries().iter() {
        list_live(list, entry)?;
    }
    Ok(())
}

/// What a writer holds, as `3: (0,1,1) (1,1,1) 1p 2q`: its stamp; the number, the documents and the live documents of
/// each segment; and then the stamp and the tag of each live document.
pub fn seen(alloc: Global, writer: &Writer) -> Result<String, Refusal> {
    let mut list = format!(in alloc; "{}:", writer.commit_stamp())?;
    for info in writer.segments(alloc)? {
        write!(list, " ({},{},{})", info.id, info.docs, info.live)?;
    }
    list_found(&mut list, &writer.searcher()?)?;
    Ok(list)
}
