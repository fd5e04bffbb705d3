// What readers are shown: the newest front, in two copies, so that readers read one while the publisher changes the
// other. The rule says whose front it is, and that each reader knows the writer.
ghost use Rattle.std.specs.Prelude.{◌≡◌};

use crate::publications::front::Front;
use crate::publications::writer_id::WriterId;
use atomic_table::{Join, Split};
use crossbeam_utils::rule::{Outcome, Protocol};
use left_right::Absorb;
use std::alloc::AllocError;

/// The rule of what readers are shown. The view of a seat is the writer that it knows, or none.
pub struct OneWriter;

impl Protocol<Front, Option<WriterId>> for OneWriter {
    ghost use Rattle.std.specs.Prelude.{None};
    ghost use Rattle.fts_index.specs.PublicationsShown.{IsOfOne};

    ghost holds = { IsOfOne };

    ghost first = { None };
}

/// What publishing and looking reveal: which writer the shown front belongs to.
pub struct TellsWriter;

impl Outcome<Front, Option<WriterId>> for TellsWriter {
    ghost use Rattle.fts_index.specs.PublicationsShown.{Looks};

    ghost then = { Looks };
}

/// A new reader knows the writer that the publisher knows.
pub struct SameWriter;

impl Split<Option<WriterId>> for SameWriter {
    ghost left = { λ v. v };

    ghost right = { λ v. v };
}

impl Join<Option<WriterId>> for SameWriter {
    ghost use Rattle.std.specs.Prelude.{None};

    ghost both = { λ v w. w };

    ghost spent = { None };
}

/// Each operation replaces the front by its own.
impl Absorb<Front> for Front {
    type State = Front;

    ghost state = { λ f. f };

    ghost applied = { λ f o. o };

    fn absorb_first(&mut self, operation: &Front, _other: &Front) -> Result<(), AllocError> {
        *self = operation.again()?;
        Ok(())
    }

    fn absorb_second(&mut self, operation: Front, _other: &Front) -> Result<(), Front> {
        *self = operation;
        Ok(())
    }
}

/// The publisher's side, which shows fronts.
pub type FrontWriter = left_right::writer::Writer<Front, Front, Option<WriterId>, OneWriter>;

/// A reader's side, which finds the front that is shown.
pub type FrontReader = left_right::reader::Reader<Front, Option<WriterId>, OneWriter>;
