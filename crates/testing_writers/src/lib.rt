//! What the tests and cases of an index of many segments share: a schema of four fields, rounds of one lane, and a
//! listing of what a writer holds.
#![tactic(auto)]

mod batches;
mod fixtures;
mod searches;
mod views;

pub use batches::{add, batch, batch_of, delete};
pub use fixtures::{document, schema, writer};
pub use searches::count;
pub use views::{seen, tag_of, text_of};
