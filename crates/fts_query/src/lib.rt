//! The query language: [`parse`] reads a text under a schema as a query, or says why it is none.
//!
//! A text is what a user types: words and quoted texts, fields, ranges, `AND`, `OR`, `NOT`, `+`, `-` and parentheses,
//! much as Lucene's and Tantivy's parsers read them. docs/QUERIES.md has the whole language.
//!
//! # Example
//!
//! ```text
//! match parse(alloc, &schema, "+rust price:[10 TO 20} -tag:\"out of print\"") {
//!     Ok(query) => search(&query), // `query` fits the schema
//!     Err(Refusal::Syntax(byte)) => point_at(byte),
//!     Err(refusal) => tell(refusal.name()),
//! }
//! ```
//!
//! # Why it is built so
//!
//! - The grammar is a relation between a text and its meaning, with one constructor per production
//!   (`specs/Grammar.antt`), so that it can be read beside docs/QUERIES.md; no parser occurs in it. `parse` is proved
//!   against it in both directions, and [`laws`] say that each text has an outcome, and only one.
//! - The clauses of a node are collected as they are read, and there is no syntax tree beside the query. An error in
//!   the meaning of a part is held back until the text is known to be in the grammar, since a syntax error comes first.
//! - The conjunctions, disjunctions and lists of the grammar are one sequence at three levels (`reader.rt`).
//! - Length and nesting are checked before anything is read, so the depth of the recursion is bounded. A text that is
//!   too long, too deep or blank has its outcome even if no memory is left.
#![tactic(auto)]

mod clauses;
mod depth;
mod error;
mod input;
pub mod laws;
mod meaning;
mod number;
mod parser;
mod reader;
mod syntax;
mod value;

pub use parser::parse;
pub use syntax::syntax_at;
