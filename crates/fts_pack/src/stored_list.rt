// A list of documents as it is stored among others.
use crate::bits::Bits;
use crate::packed_list::PackedList;

/// The greatest number of documents that are stored as plain numbers. A block always has space for 128 gaps, so up to
/// about 70 documents take more space in a block.
pub(crate) const MOST_PLAIN: usize = 64;

/// A list of documents, borrowed from where it is stored.
#[derive(Clone, Copy)]
pub(crate) enum StoredList<'a> {
    /// Up to 64 documents as plain numbers.
    Plain(&'a [u32]),
    /// More documents in blocks, and a bit for each document up to the last if they are dense.
    Packed(PackedList<'a>, Option<&'a Bits>),
}
