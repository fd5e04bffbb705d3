// The entry of a list of documents that is packed in blocks.
use crate::bits::Bits;

/// Where the blocks of a list begin, and its bits.
#[derive(Drop)]
pub(crate) struct LongEntry {
    /// The index of the first block.
    pub(crate) first: usize,
    /// A bit for each document up to the last, if the list is dense.
    pub(crate) bits: Option<Bits>,
}
