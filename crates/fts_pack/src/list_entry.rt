// The entry of a list of documents among others.

/// Where a list ends and where its documents are.
#[derive(Clone, Copy)]
pub(crate) struct ListEntry {
    /// The number of documents in the lists up to this one, itself included.
    pub(crate) end: usize,
    /// For a list of up to 64 documents, the index of its first plain document. For a longer one, the index of its
    /// `LongEntry`.
    pub(crate) place: usize,
}
