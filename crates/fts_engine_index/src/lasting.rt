// Runtimes that last as long as the program.
use std::alloc::AllocError;

/// A runtime that threads may borrow which outlive a call, as those that stay between searches do. A search is lent its
/// runtime for that search alone.
pub trait Lasting: 'static {
    /// This runtime, for as long as the program runs.
    fn lasting(&self) -> Result<&'static Self, AllocError>;
}

impl Lasting for HostRuntime {
    /// It has no bytes, so none are leaked.
    fn lasting(&self) -> Result<&'static Self, AllocError> {
        Ok(Box::leak(Box::new(self.alloc(), *self)?))
    }
}
