// Why a run stopped before the end of its input.
ghost use Rattle.std.specs.Prelude.{◌≡◌};
ghost use Rattle.fts_script.specs.declared.fault.Fault.TheVariants.{Memory};

use std::alloc::AllocError;
use thiserror::Error;

/// Why a run stopped before the end of its input.
#[derive(Clone, Copy, Debug, Drop, PartialEq, Eq, Error)]
pub enum Fault {
    /// A growth was refused.
    #[error("out of memory")]
    Memory,
    /// A read failed.
    #[error("the input couldn't be read")]
    Read,
    /// A write or a flush failed, or a write took no byte.
    #[error("the output couldn't be written")]
    Write,
    /// Over 2^61 bytes were read.
    #[error("the stamps are used up: the input has over 2^61 bytes")]
    StampsUsedUp,
}

impl From<AllocError> for Fault {
    ghost from_gives = { λ _ fault. fault ≡ Memory };

    fn from(_: AllocError) -> Self {
        Fault::Memory
    }
}
