// What is published by one call, as contracts list it.
use fts_model::{Document, Schema, Stamp, Stamped};

/// A commit's stamp, its schema and its content. No value of it is made: a clause reads an array as a list, of any
/// length.
pub struct Publication {
    pub stamp: Stamp,
    pub schema: Schema,
    pub content: [Stamped<Document>; 0],
}
