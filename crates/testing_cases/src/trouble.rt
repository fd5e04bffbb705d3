// Why a case gave no value that could be compared.
use fts_model::Refusal;
use std::alloc::{AllocError, AllocFailed};

/// Why a case gave no value.
#[derive(Clone, Copy)]
pub enum Trouble {
    /// The line is no JSON object.
    NoObject,
    /// A member that the case needs isn't there.
    Missing(&'static str),
    /// A member isn't of the kind that the case needs.
    WrongKind(&'static str),
    /// A list is empty that may not be.
    Empty(&'static str),
    /// A member that no case of this word has.
    UnknownMember,
    /// A word that the driver doesn't know.
    UnknownWord,
    /// The case can't be tried: what it wants breaks a condition of a call.
    Impossible(&'static str),
    /// A call refused. What it refused with is the value of the case.
    Refused(Refusal),
    /// The allocator refused a growth.
    Memory,
}

impl Trouble {
    /// The text before the name of a member, that name, and the text after it. Without a name all is in the first.
    pub(crate) fn words(self) -> (&'static str, &'static str, &'static str) {
        match self {
            Trouble::NoObject => ("no JSON object", "", ""),
            Trouble::Missing(name) => ("no member \"", name, "\""),
            Trouble::WrongKind(name) => ("the member \"", name, "\" is of another kind"),
            Trouble::Empty(name) => ("the list \"", name, "\" is empty"),
            Trouble::UnknownMember => ("a member that nothing reads", "", ""),
            Trouble::UnknownWord => ("an unknown word", "", ""),
            Trouble::Impossible(why) => (why, "", ""),
            Trouble::Refused(refusal) => (refusal.name(), "", ""),
            Trouble::Memory => ("out of memory", "", ""),
        }
    }
}

impl From<Refusal> for Trouble {
    fn from(refusal: Refusal) -> Trouble {
        match refusal {
            Refusal::Memory => Trouble::Memory,
            refusal => Trouble::Refused(refusal),
        }
    }
}

impl From<AllocError> for Trouble {
    fn from(_refused: AllocError) -> Trouble {
        Trouble::Memory
    }
}

impl<T: Drop> From<AllocFailed<T>> for Trouble {
    fn from(_refused: AllocFailed<T>) -> Trouble {
        Trouble::Memory
    }
}
