// The two ways to divide the adds of a commit among segments.

/// The rule by which the adds of a commit are divided among new segments.
#[derive(Clone, Copy, Debug, PartialEq, Eq)]
pub enum Cut {
    /// A segment takes the next 1 to 65,536 adds, as given here, then the next segment begins.
    Runs(usize),
    /// The adds are dealt in turn to 1 to 64 builders, as given here. A builder that holds 65,536 documents begins
    /// another segment.
    Deal(usize),
}
