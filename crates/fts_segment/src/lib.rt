//! A segment: stored documents with their stamps, and their indexes. It never changes once made.
//!
//! A [`Builder`] collects documents and makes a [`Segment`] of them. The segment numbers its documents from 0, and
//! finds the list of a term ([`Segment::find`]): the documents that have it ([`Segment::postings`]), and its positions
//! in each ([`Segment::positions`]). A number field has a column ([`Segment::column`]), and the documents with a number
//! within bounds are counted without reading them ([`Segment::documents_between`]). A copy of a segment shares its
//! data, so commits, merges and searches hand segments on at the cost of one reference count.
//! [`join`] makes one segment of the live documents of several, each a [`LiveSegment`].
//!
//! ```text
//! let mut builder = Builder::new(alloc, &schema)?;
//! builder.add(stamp, &document)?;
//! let segment = builder.finish(alloc).map_err(|(_, refusal)| refusal)?;
//! if let Some(list) = segment.find(&term) {
//!     let mut source = segment.postings(list).source();
//! }
//! ```
#![tactic(auto)]

mod binary_search;
mod builder;
mod copy_postings;
mod dictionary;
mod dictionary_merge;
mod doc_map;
mod field_index;
mod id_cache;
mod joining;
mod keyword_index;
pub mod laws;
mod live_segment;
mod names;
mod number_index;
mod postings_writer;
mod segment;
mod segment_join;
mod sorted_column;
mod sorted_names;
mod term_groups;
mod term_ids;
mod term_log;
mod term_merge;
mod term_stream;
mod token_log;

pub use builder::Builder;
pub use joining::{IndexedField, Joining};
pub use live_segment::LiveSegment;
pub use segment::{ListId, Segment};
pub use segment_join::join;
