//! Cursors over the documents of a segment that a query finds.

pub use fts_cursor::{Cursor, DocSet, PostingCursor, cursor_of};
