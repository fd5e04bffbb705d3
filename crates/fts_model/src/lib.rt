//! The types of the index with their meaning: schemas, documents, operations, queries and answers.
//!
//! Every other crate uses these types, and every theorem is about the definitions here:
//!
//! - the types. A [`Schema`] and a [`Document`] never change once made, and a copy shares the data, since each document
//!   of an index has the same schema and each answer hands documents out. Input is checked as it is read, and `fits`
//!   says whether a value belongs under a schema, so that nothing further in has to check again;
//! - the definitions: `specs/` says which documents are alive after operations, which of them a query matches, and what
//!   the answer is. They name no segment, posting or thread. `fts_scan` has the laws that tie them to each other, and
//!   the search that scans every document.
//!
//! ```text
//! let json = Value::from_str(alloc, "{\"title\":\"Rust book\",\"price\":30}")?;
//! let document = Document::from_json(alloc, &schema, &json)?;
//! let op = Op::Add(document);
//! // op.fits(&schema) is true.
//! ```
#![tactic(auto)]

mod answer;
mod cut;
mod document;
mod field_values;
mod limits;
mod operation;
mod query;
mod schema;
mod text;
mod texts;
mod value;

pub use answer::{Answer, Hit};
pub use cut::Cut;
pub use document::Document;
pub use fts_base::Refusal;
pub use limits::{MOST_BUILT, MOST_MERGED};
pub use operation::{Op, Stamp, Stamped, Term};
pub use query::{Order, Query, Request, Top};
pub use schema::{Field, Kind, Schema};
pub use text::Text;
pub use texts::Texts;
pub use value::{FieldValue, GroupValue, Number};
