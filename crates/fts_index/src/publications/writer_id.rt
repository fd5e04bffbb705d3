// Identifies a writer's list of publications in the rule over what is shown.

/// The identity of a book. No value of it is made.
pub struct WriterId {
    pub number: u64,
    pub log_name: u64,
    pub cells_name: u64,
}
