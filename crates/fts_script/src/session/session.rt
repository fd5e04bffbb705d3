// A script, line by line: its state, and its replies.
ghost use Rattle.std.specs.Prelude.{◌≡◌, ◌+◌, ◌^◌, ◌<◌, ◌≤◌, false, ◌++◌, None, length, IfOk, OnOk, OnErr, is_none};
ghost use Rattle.std.specs.Prelude.{option_map, string_bytes, if◌then◌else◌};
ghost use Rattle.std.specs.Option.{option_copied};
ghost use Rattle.fts_script.specs.session.Text.{is_blank};
ghost use Rattle.fts_script.specs.session.Searches.{at_commit, reply_to_search};
ghost use Rattle.fts_script.specs.session.Outputs.{start, after_line, reply_to};
ghost use Rattle.fts_script.specs.command.Commands.{longest};
ghost use Rattle.fts_script.specs.session.Replaces.{after_replace, reply_to_replace};
ghost use Rattle.fts_script.specs.session.GroupSearches.{reply_to_group_search};
ghost use Rattle.fts_script.specs.session.KeptLines.{TooLong, after_kept, reply_to_kept};
ghost use Rattle.fts_script.specs.session.Replies.{text_of};
ghost use Rattle.fts_script.specs.session.Transactions.{is_taken, operate, rolled_back_to, savepoint_of};
ghost use Rattle.fts_engine.specs.Indexes.{indexes};
ghost use Rattle.fts_script.specs.session.Sessions.{Appends, ChangesAtMost, IsAnswerable, Maintains};

use crate::session::blank::is_blank;
use crate::session::commands::answer_whole;
use crate::session::group_search::answer_find_frequent;
use crate::session::maintenance::Maintenance;
use crate::session::print::refusal_line;
use crate::session::replace::answer_replace;
use crate::session::savepoint::{Savepoint, answer_operation, uncommitted_in};
use crate::session::search::answer_search;
use fts_engine::{Engine, EngineOver, Fork, Options, TakeBack};
use fts_model::Refusal;
use std::alloc::{AllocError, Global};
use std::marker::Model;

/// How many lines there may be. A line that isn't blank counts each time it is tried.
pub const MOST_LINES: u64 = 1 << 61;

/// The state that is carried from line to line. `close` ends it; it may be dropped if its engine may be.
#[derive(Drop)]
pub struct Session<E: Engine> {
    options: Options,
    /// How many lines there were.
    number: u64,
    /// The number of non-blank lines tried, refused ones included. It bounds what engines count.
    tries: u64,
    /// The index, once a schema was taken.
    index: Option<E>,
}

impl<E: Engine> Model for Session<E> {
    ghost use Rattle.std.specs.Prelude.{option_map};
    ghost use Rattle.fts_script.specs.session.Sessions.{ChangesAtMost, SessionState};

    ghost Value = { SessionState E };

    ghost view = { λ s. record {
      script = record { number = s.number; index = option_map E.index s.index };
      engine = s.index;
    } };

    ghost invariant = { λ s. ChangesAtMost E.changes s.tries s.index };
}

impl<E: Engine> Session<E> {
    /// A session before its first line, without a schema.
    pub fn new(options: Options) -> Self
        ensures { result ≡ record { script = start; engine = None } }
    {
        Session {
            options,
            number: 0,
            tries: 0,
            index: None,
        }
    }

    /// Replies to a line. At an `Err` the replies and the script are as they were, so that the line may come again.
    /// There is an `Err` if memory runs out or 2^61 lines were tried.
    #[tactic(auto, unfolding(crate::specs::session::Replies::reply_on, crate::specs::session::Replies::carried_over))]
    pub fn answer<R: AllocGlobal + Sync>(
        &mut self,
        rt: &R,
        line: &[u8],
        out: &mut String,
    ) -> Result<(), AllocError>
    where
        E: EngineOver<R>,
        requires { IsAnswerable self.old.script line.now }
        ensures reply { Appends result (string_bytes out.old) (string_bytes out.new)
            (reply_to self.old.script line.now) }
        ensures script { OnOk result (self.new.script ≡ after_line self.old.script line.now) }
        ensures kept { OnErr result (self.new.script ≡ self.old.script) }
        ensures not_blank { OnErr result (is_blank line.now ≡ false) }
        ensures lines_counted { self.new.script.number ≤ self.old.script.number + 1 }
    {
        let number = self.number + 1;
        if !is_blank(line) {
            if self.tries >= MOST_LINES {
                return Err(AllocError);
            }
            self.tries += 1;
            answer_whole(rt, self.options, &mut self.index, number, line, out)?;
        }
        self.number = number;
        Ok(())
    }

    /// Replies to a line that is longer than a line may be, if it is known whether it is blank.
    pub fn answer_too_long(
        &mut self,
        alloc: Global,
        blank: bool,
        out: &mut String,
    ) -> Result<(), AllocError>
        requires line_number_fits { self.old.script.number ≤ 2 ^ 61 }
        ensures reply { Appends result (string_bytes out.old) (string_bytes out.new)
            (reply_to_kept self.old.script (TooLong blank)) }
        ensures script { OnOk result (self.new.script ≡ after_kept self.old.script (TooLong blank)) }
        ensures kept { OnErr result (self.new.script ≡ self.old.script) }
        ensures not_blank { OnErr result (blank ≡ false) }
        ensures lines_counted { self.new.script.number ≤ self.old.script.number + 1 }
    {
        let number = self.number + 1;
        if !blank {
            let line = refusal_line(alloc, Refusal::LineTooLong, number)?;
            out.push_str(line.as_str())?;
        }
        self.number = number;
        Ok(())
    }

    /// Replies to a search, and goes on as if it hadn't come. If there is another line, the documents of its hits are
    /// cut to the fields that it lists; an unknown name is refused as `UnknownField`. Another command is refused as
    /// `BadCommand`.
    pub fn search<R: AllocGlobal + Sync>(
        &mut self,
        rt: &R,
        line: &[u8],
        names: Option<&[u8]>,
        out: &mut String,
    ) -> Result<(), AllocError>
    where
        E: EngineOver<R>,
        requires { IsAnswerable self.old.script line.now }
        ensures same { self.new.script ≡ self.old.script }
        ensures reply { Appends result (string_bytes out.old) (string_bytes out.new)
            (reply_to_search self.old.script line.now (option_copied names.entry)) }
    {
        answer_search(rt, &mut self.index, self.number + 1, line, names, out)
    }

    /// Replies to a line that deletes and a line that adds, as one: both are done, or neither. At a refusal, and at an
    /// `Err`, the script is as it was. There is an `Err` if memory runs out or 2^61 lines were tried.
    pub fn replace<R: AllocGlobal + Sync>(
        &mut self,
        rt: &R,
        delete: &[u8],
        add: &[u8],
        out: &mut String,
    ) -> Result<(), AllocError>
    where
        E: EngineOver<R> + TakeBack,
        requires line_number_fits { self.old.script.number < 2 ^ 61 }
        requires fits_delete { length delete.now ≤ longest }
        requires fits_add { length add.now ≤ longest }
        ensures reply { Appends result (string_bytes out.old) (string_bytes out.new)
            (reply_to_replace self.old.script delete.now add.now) }
        ensures script { OnOk result (self.new.script ≡ after_replace self.old.script delete.now add.now) }
        ensures kept { OnErr result (self.new.script ≡ self.old.script) }
        ensures lines_counted { self.new.script.number ≤ self.old.script.number + 2 }
    {
        if self.tries >= MOST_LINES - 1 {
            return Err(AllocError);
        }
        self.tries += 2;
        let number = self.number + 1;
        let done = answer_replace(rt, &mut self.index, number, delete, add, out)?;
        self.number += done;
        Ok(())
    }

    /// Where the script is, to go back to if a transaction isn't done.
    pub fn savepoint(&self) -> Savepoint
    where
        E: TakeBack,
        ensures { result ≡ savepoint_of self.now.script }
    {
        Savepoint {
            number: self.number,
            uncommitted: uncommitted_in(&self.index),
        }
    }

    /// Replies to an operation in a transaction that began at a savepoint, and returns whether it was taken. A refusal
    /// is the only reply then, in the line after the savepoint, and the script is as it was; any command other than an
    /// operation is refused as `BadCommand`. There is an `Err` if memory runs out or 2^61 lines were tried.
    pub fn operate<R: AllocGlobal + Sync>(
        &mut self,
        rt: &R,
        begun: Savepoint,
        line: &[u8],
        out: &mut String,
    ) -> Result<bool, AllocError>
    where
        E: EngineOver<R>,
        requires answerable { IsAnswerable self.old.script line.now }
        requires later { begun.number ≤ self.old.script.number }
        ensures taken { IfOk result (λ taken. taken ≡ is_taken self.old.script line.now) }
        ensures reply { IfOk result (λ taken. string_bytes out.new
            ≡ (if taken then string_bytes out.old ++ reply_to self.old.script line.now
            else text_of (begun.number + 1) (operate indexes self.old.script.index line.now))) }
        ensures script { IfOk result (λ taken. self.new.script
            ≡ (if taken then after_line self.old.script line.now else self.old.script)) }
        ensures err { OnErr result (string_bytes out.new ≡ string_bytes out.old) }
        ensures kept { OnErr result (self.new.script ≡ self.old.script) }
        ensures lines_counted { self.new.script.number ≤ self.old.script.number + 1 }
    {
        if self.tries >= MOST_LINES {
            return Err(AllocError);
        }
        self.tries += 1;
        let number = begun.number + 1;
        let taken = answer_operation(rt, self.options, &mut self.index, number, line, out)?;
        if !taken {
            return Ok(false);
        }
        self.number += 1;
        Ok(true)
    }

    /// Takes back the operations since a savepoint.
    pub fn roll_back_to(&mut self, begun: Savepoint)
    where
        E: TakeBack,
        ensures { self.new.script ≡ rolled_back_to begun self.old.script }
    {
        self.number = begun.number;
        if let Some(engine) = &mut self.index {
            engine.keep_first(begun.uncommitted);
        }
    }

    /// Replies to a search as `search` does, with the most frequent groups alone, at most this many: those of the
    /// greatest counts first, those of equal counts by their values.
    pub fn find_frequent<R: AllocGlobal + Sync>(
        &mut self,
        rt: &R,
        line: &[u8],
        limit: usize,
        out: &mut String,
    ) -> Result<(), AllocError>
    where
        E: EngineOver<R>,
        requires { IsAnswerable self.old.script line.now }
        ensures same { self.new.script ≡ self.old.script }
        ensures reply { Appends result (string_bytes out.old) (string_bytes out.new)
            (reply_to_group_search self.old.script line.now limit) }
    {
        answer_find_frequent(rt, &mut self.index, self.number + 1, line, limit, out)
    }

    /// A session before its first line, over a fork of the index at its last commit.
    pub fn fork(&self) -> Result<Session<E>, AllocError>
    where
        E: Fork,
        ensures { IfOk result (λ fork. fork.script ≡ at_commit self.now.script) }
    {
        let index = match &self.index {
            Some(engine) => Some(engine.fork()?),
            None => None,
        };
        Ok(Session {
            options: self.options,
            number: 0,
            tries: self.tries,
            index,
        })
    }

    /// Runs maintenance work on the index, if there is one. It changes no reply.
    pub fn maintain<W: Maintenance<E> + Drop>(&mut self, work: W) -> Option<W::Done>
        ensures same { self.new.script ≡ self.old.script }
        ensures done { is_none result ≡ is_none self.old.script.index }
        ensures did { Maintains (W.did work) self.old.engine self.new.engine result }
    {
        if self.tries < MOST_LINES {
            self.tries += 1;
        }
        match &mut self.index {
            Some(engine) => Some(work.done(engine)),
            None => None,
        }
    }

    /// How many lines there were.
    pub fn lines(&self) -> u64
        ensures { result ≡ self.now.script.number }
    {
        self.number
    }

    /// The index, if there is one.
    pub fn index(&self) -> Option<&E>
        ensures index { option_map (λ engine. E.index engine.now) result ≡ self.now.script.index }
        ensures engine { option_map (λ engine. engine.now) result ≡ self.now.engine }
    {
        match &self.index {
            Some(engine) => Some(engine),
            None => None,
        }
    }

    /// Ends the index, if there is one.
    pub fn close<R: AllocGlobal + Sync>(self, rt: &R)
    where
        E: EngineOver<R>,
    {
        let Session {
            options: _,
            number: _,
            tries: _,
            index,
        } = self;
        if let Some(index) = index {
            index.close(rt);
        }
    }
}
