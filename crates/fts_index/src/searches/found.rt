// What a search returns.
use fts_model::Answer;

/// What a search found.
#[derive(Drop)]
pub struct Found {
    /// The answer over all documents of the commit.
    pub answer: Answer,
    /// How many blocks of lists of documents were opened for it. A sum past the greatest `u64` stays at it.
    pub openings: u64,
}
