// A block of a list of documents as it is packed.

/// A block of up to 128 gaps of documents: each gap is a document less its predecessor, less 1, and the first gap of a
/// list's first block is its first document.
#[derive(Clone, Copy)]
pub struct PackedBlock<'a> {
    /// The number of bits of each gap: as few as the greatest needs.
    pub width: u32,
    /// The gaps, packed in `4 * width` words as those of a `Block` are.
    pub words: &'a [u32],
    /// The last document.
    pub last: u32,
}
