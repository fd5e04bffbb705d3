// A reader of publications, which waits for nobody.
ghost use Rattle.std.specs.Prelude.{◌≡◌, ◌⊎◌, Some, IfOk, OnOk, OnErr, IsOkUnless};
ghost use mathlib.Core.List.{IsPrefix};
ghost use Rattle.fts_index.specs.Publications.{schema_of, IsFront};
ghost use Rattle.fts_index.specs.PublicationsShown.{name_of, told_name, Finds};

use crate::publications::front::Front;
use crate::publications::left_right_rule::{FrontReader, TellsWriter};
use crate::publications::searcher::{CommitSeen, Searcher};
use core::mem::replace_with;
use fts_model::Refusal;
use std::alloc::AllocError;
use std::marker::Model;

/// Takes the newest snapshots of one writer, in a thread of its own. Contracts see it as the writer and the
/// publications that it knows.
#[derive(Drop)]
pub struct Reader {
    handle: FrontReader,
    front: Front,
}

impl Model for Reader {
    ghost use Rattle.std.specs.Prelude.{◌≡◌, Some};
    ghost use Rattle.fts_index.specs.Publications.{Known};
    ghost use Rattle.fts_index.specs.PublicationsShown.{name_of, told_name};

    ghost Value = { Known };

    ghost view = { λ r. r.front.seen };

    ghost invariant = { λ r. told_name r.handle.place ≡ Some (name_of r.front.seen.of) };
}

impl Reader {
    /// A reader that knows the publications that the front knows.
    pub(crate) fn at(handle: FrontReader, front: Front) -> Reader
        requires { told_name handle.place ≡ Some (name_of front.seen.of) }
        ensures { result ≡ front.seen }
    {
        Reader { handle, front }
    }

    /// The newest snapshot that is shown, or the newest that this reader knows, if that is newer or if none is shown
    /// any more. No searcher is older than the one before it, or than a commit that was reported to the reader. The
    /// only refusal is `Memory`; the reader still knows what it has found by then.
    pub fn searcher(&mut self) -> Result<Searcher, Refusal>
        ensures of { self.new.of ≡ self.old.of }
        ensures grows { IsPrefix self.old.list self.new.list }
        ensures seen { IfOk result (λ s. s.seen ≡ self.new) }
        ensures schema { IfOk result (λ s. s.snapshot.schema ≡ schema_of self.old) }
        ensures schema_kept { schema_of self.new ≡ schema_of self.old }
        ensures newest { IfOk result IsFront }
        ensures memory { IsOkUnless result Refusal.Memory }
    {
        refresh(&mut self.handle, &mut self.front)?;
        let front = self.front.again()?;
        Ok(Searcher { front })
    }

    /// From now on this reader knows all publications that `seen` knows. Both are of one writer.
    pub fn told(&mut self, seen: &CommitSeen) -> Result<(), Refusal>
        requires { seen.now.of ≡ self.old.of }
        ensures of { self.new.of ≡ self.old.of }
        ensures kept { OnOk result (IsPrefix self.old.list self.new.list) }
        ensures told { OnOk result (IsPrefix seen.now.list self.new.list) }
        ensures longer { OnOk result ((self.new ≡ self.old) ⊎ (self.new ≡ seen.now)) }
        ensures schema { schema_of self.new ≡ schema_of self.old }
        ensures same { OnErr result (self.new ≡ self.old) }
        ensures memory { IsOkUnless result Refusal.Memory }
    {
        let front = seen.front.again()?;
        self.front.keep_newer(front);
        Ok(())
    }
}

/// Takes the front that is shown, if one is and it is newer.
fn refresh(handle: &mut FrontReader, front: &mut Front) -> Result<(), AllocError>
    requires { told_name handle.old.place ≡ Some (name_of front.old.seen.of) }
    ensures seat { told_name handle.new.place ≡ Some (name_of front.new.seen.of) }
    ensures of { front.new.seen.of ≡ front.old.seen.of }
    ensures schema { schema_of front.new.seen ≡ schema_of front.old.seen }
    ensures grows { IsPrefix front.old.seen.list front.new.seen.list }
{
    if let Some(found) = look(handle, front)? {
        front.keep_newer(found);
    }
    Ok(())
}

/// The front that is shown, if one is and it is newer than what is known.
fn look(handle: &mut FrontReader, known: &Front) -> Result<Option<Front>, AllocError>
    ensures { Finds (told_name handle.old.place) (told_name handle.new.place) result }
{
    replace_with(handle, known, |handle, known| enter(handle, known))
}

/// Looks once at what is shown. No front is shown once the writer was closed.
fn enter(handle: FrontReader, known: &Front) -> (FrontReader, Result<Option<Front>, AllocError>)
    ensures { Finds (told_name handle.place) (told_name result.0.place) result.1 }
{
    match handle.enter_as::<TellsWriter>() {
        Ok(reading) => {
            let found = reading.get().if_newer(known);
            (reading.leave(), found)
        }
        Err(handle) => (handle, Ok(None)),
    }
}
