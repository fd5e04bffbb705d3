// A session and its last reply, or a merge.
ghost use Rattle.std.specs.Prelude.{◌≡◌, ◌≢◌, ◌+◌, ◌≤◌, [], None, MatchResult, string_bytes};
ghost use Rattle.std.specs.Option.{option_copied};
ghost use Rattle.fts_base.specs.Results.{value_if_ok};
ghost use Rattle.fts_script.specs.session.Sessions.{Maintains};
ghost use Rattle.fts_c.specs.Blocks.{ExecutesLines, ExecutesNext};
ghost use Rattle.fts_c.specs.Answers.{Answers};
ghost use Rattle.fts_c.specs.Calls.{Executes, Searches, SearchesGroups};
ghost use Rattle.fts_c.specs.Codes.{IsFault, IsTried};
ghost use Rattle.fts_c.specs.Merges.{ChangesEngine, EndsMerge, HasBegun, IsCodeOfEnd, IsNotBegun, LimitsMerges};
ghost use Rattle.fts_c.specs.Merges.{RunsMerge};
ghost use Rattle.fts_c.specs.Pairs.{AreTried, IsFaultOfTwo, Replaces};
ghost use Rattle.fts_c.specs.StatsOf.{AreStatsOf};
ghost use Rattle.fts_c.specs.Transactions.{Operates, Transacts};

use crate::codes::{GONE, LINE_TOO_LONG, MEMORY, NOTHING, OK, USED_UP};
use crate::maintenance::{BeginMerge, EndMerge, LimitMerges};
use fts_engine_local::{BegunMerge, LocalEngine, Stats};
use fts_model::Refusal;
use fts_script::LONGEST;
use fts_script::session::{MOST_LINES, Maintenance, Savepoint, Session, first_line, is_blank};
use std::alloc::{AllocError, Global};

/// The size of an index that has no schema.
const EMPTY: Stats = Stats {
    segments: 0,
    documents: 0,
    live: 0,
};

/// A session over segments, and its last reply; or a merge, next to a session that takes no line.
#[derive(Drop)]
pub struct State {
    pub session: Session<LocalEngine>,
    pub reply: String,
    pub merge: Option<BegunMerge>,
}

/// What a call asks of a session, or of a merge.
#[derive(Clone, Copy)]
pub(crate) enum Call<'a> {
    /// Executes a line.
    Execute(&'a [u8]),
    /// Executes a deletion and an addition as one.
    Replace(&'a [u8], &'a [u8]),
    /// Answers a search, cut to the fields that another line lists, if there is one.
    Search(&'a [u8], Option<&'a [u8]>),
    /// Answers a search with at most this many groups, the most frequent ones.
    SearchGroups(&'a [u8], usize),
    /// Limits what commits merge.
    LimitMerges(Option<u32>),
    /// Runs the merge that is here.
    RunMerge,
    /// Ends the merge that was begun last.
    EndMerge,
}

/// The code of a line that was tried.
fn code_of(tried: Result<(), AllocError>) -> i32
    ensures { MatchResult tried (λ _. result ≡ OK) (λ _. result ≡ MEMORY) }
{
    match tried {
        Ok(()) => OK,
        Err(AllocError) => MEMORY,
    }
}

/// The code of the end of a merge.
fn code_of_end(ended: Result<bool, Refusal>) -> i32
    ensures { IsCodeOfEnd ended result }
{
    match ended {
        Ok(true) => OK,
        Ok(false) => NOTHING,
        Err(Refusal::Memory) => MEMORY,
        Err(_) => GONE,
    }
}

impl State {
    /// Whether a line is tried; if it isn't, the code that says why.
    fn check(&self, line: &[u8]) -> Result<(), i32>
        ensures { MatchResult result
            (λ _. IsTried self.now.session.script line.now)
            (λ code. IsFault self.now.session.script line.now code) }
    {
        if line.len() > LONGEST {
            return Err(LINE_TOO_LONG);
        }
        if self.session.lines() >= MOST_LINES {
            return Err(USED_UP);
        }
        Ok(())
    }

    /// Clears the last reply.
    fn forget(&mut self)
        ensures same { self.new.session ≡ self.old.session }
        ensures none { string_bytes self.new.reply ≡ [] }
    {
        self.reply.clear();
    }

    /// Executes a line, and appends its reply to the last.
    fn execute_next(&mut self, alloc: Global, line: &[u8]) -> i32
        ensures { ExecutesNext self.old line.now self.new result }
    {
        if let Err(code) = self.check(line) {
            return code;
        }
        let answered = self.session.answer(&((), alloc), line, &mut self.reply);
        code_of(answered)
    }

    /// Executes a line.
    pub(crate) fn execute(&mut self, alloc: Global, line: &[u8]) -> i32
        ensures { Executes self.old line.now self.new result }
    {
        self.forget();
        self.execute_next(alloc, line)
    }

    /// Executes the lines of a block up to the first that isn't done. Returns that line's code, or 0, and how many were
    /// done.
    pub(crate) fn execute_lines(&mut self, alloc: Global, block: &[u8]) -> (i32, usize)
        ensures { ExecutesLines self.old block.now self.new result.0 result.1 }
    {
        self.forget();
        let mut rest = block;
        let mut done = 0;
        while !rest.is_empty() {
            let (line, after) = first_line(rest);
            let code = self.execute_next(alloc, line);
            if code != OK {
                return (code, done);
            }
            done += 1;
            rest = after;
        }
        (OK, done)
    }

    /// Executes the next line of a transaction that began at a savepoint, and returns whether it was taken.
    fn operate_next(&mut self, alloc: Global, begun: Savepoint, line: &[u8]) -> Result<bool, i32>
        requires { begun.number ≤ self.old.session.script.number }
        ensures { Operates self.old (begun.number + 1) line.now self.new result }
    {
        if let Err(code) = self.check(line) {
            return Err(code);
        }
        match self
            .session
            .operate(&((), alloc), begun, line, &mut self.reply)
        {
            Ok(taken) => Ok(taken),
            Err(AllocError) => Err(MEMORY),
        }
    }

    /// Executes the lines of a block, all or none. Returns 0, or the code of the first line that has another one, and
    /// how many lines are before it, or before the first that was refused.
    pub(crate) fn transaction(&mut self, alloc: Global, block: &[u8]) -> (i32, usize)
        ensures { Transacts self.old block.now self.new result.0 result.1 }
    {
        self.forget();
        let begun = self.session.savepoint();
        let mut rest = block;
        let mut done = 0;
        while !rest.is_empty() {
            let (line, after) = first_line(rest);
            match self.operate_next(alloc, begun, line) {
                Ok(true) => {}
                Ok(false) => {
                    self.session.roll_back_to(begun);
                    return (OK, done);
                }
                Err(fault) => {
                    self.forget();
                    self.session.roll_back_to(begun);
                    return (fault, done);
                }
            }
            done += 1;
            rest = after;
        }
        (OK, done)
    }

    /// Whether two lines are tried; if they aren't, the code that says why.
    fn check_two(&self, delete: &[u8], add: &[u8]) -> Result<(), i32>
        ensures { MatchResult result
            (λ _. AreTried self.now.session.script delete.now add.now)
            (λ code. IsFaultOfTwo self.now.session.script delete.now add.now code) }
    {
        if delete.len() > LONGEST || add.len() > LONGEST {
            return Err(LINE_TOO_LONG);
        }
        if self.session.lines() >= MOST_LINES - 1 {
            return Err(USED_UP);
        }
        Ok(())
    }

    /// Executes a deletion and an addition as one.
    pub(crate) fn replace(&mut self, alloc: Global, delete: &[u8], add: &[u8]) -> i32
        ensures { Replaces self.old delete.now add.now self.new result }
    {
        self.forget();
        if let Err(code) = self.check_two(delete, add) {
            return code;
        }
        let replaced = self
            .session
            .replace(&((), alloc), delete, add, &mut self.reply);
        code_of(replaced)
    }

    /// Answers a search, cut to the fields that another line lists, if there is one.
    pub(crate) fn search(&mut self, alloc: Global, line: &[u8], names: Option<&[u8]>) -> i32
        ensures { Searches self.old line.now (option_copied names.entry) self.new result }
    {
        self.forget();
        if let Err(code) = self.check(line) {
            return code;
        }
        if is_blank(line) {
            return OK;
        }
        let found = self
            .session
            .search(&((), alloc), line, names, &mut self.reply);
        code_of(found)
    }

    /// Answers a search with the most frequent groups alone.
    pub(crate) fn search_groups(&mut self, alloc: Global, line: &[u8], limit: usize) -> i32
        ensures { SearchesGroups self.old line.now limit self.new result }
    {
        self.forget();
        if let Err(code) = self.check(line) {
            return code;
        }
        if is_blank(line) {
            return OK;
        }
        let found = self
            .session
            .find_frequent(&((), alloc), line, limit, &mut self.reply);
        code_of(found)
    }

    /// The size of the index.
    pub(crate) fn stats(&self) -> Stats
        ensures { AreStatsOf self.now.session.engine self.now.session.script.index result }
    {
        match self.session.index() {
            Some(engine) => engine.stats(),
            None => EMPTY,
        }
    }

    /// Runs maintenance work on the index, if there is one.
    fn maintain<W: Maintenance<LocalEngine> + Drop>(&mut self, work: W) -> Result<W::Done, i32>
        ensures same { ChangesEngine self.old self.new }
        ensures done { MatchResult result (λ _. self.old.session.script.index ≢ None)
            (λ code. (self.old.session.script.index ≡ None) × (code ≡ NOTHING)) }
        ensures did { Maintains (W.did work) self.old.session.engine self.new.session.engine (value_if_ok result) }
    {
        match self.session.maintain(work) {
            Some(done) => Ok(done),
            None => Err(NOTHING),
        }
    }

    /// Sets the limit of what commits merge.
    pub(crate) fn limit_merges(&mut self, limit: Option<u32>) -> i32
        ensures { LimitsMerges limit self.old self.new result }
    {
        match self.maintain(LimitMerges { limit }) {
            Ok(()) => OK,
            Err(code) => code,
        }
    }

    /// Starts a merge, in a state of its own with this session, or returns the code that says why not. The memory of
    /// the state is taken before, so that the index doesn't forget another merge if memory is refused.
    pub(crate) fn begin_merge(
        &mut self,
        alloc: Global,
        session: Session<LocalEngine>,
    ) -> Result<Box<State, Global>, i32>
        ensures same { ChangesEngine self.old self.new }
        ensures begun { MatchResult result
            (λ begun. HasBegun self.old.session.engine self.new.session.engine begun.value.merge)
            (λ code. IsNotBegun self.old self.new code) }
    {
        if self.session.index().is_none() {
            return Err(NOTHING);
        }
        let begun = State {
            session,
            reply: String::new(alloc),
            merge: None,
        };
        let Ok(mut begun) = Box::new(alloc, begun) else {
            return Err(MEMORY);
        };
        match self.maintain(BeginMerge)? {
            Ok(Some(merge)) => {
                begun.merge = Some(merge);
                Ok(begun)
            }
            Ok(None) => Err(NOTHING),
            Err(_) => Err(MEMORY),
        }
    }

    /// Runs the merge that the state holds.
    pub(crate) fn run_merge(&mut self, alloc: Global) -> i32
        ensures { RunsMerge self.old self.new result }
    {
        match &mut self.merge {
            Some(merge) => match merge.run(alloc) {
                Ok(()) => OK,
                Err(_) => MEMORY,
            },
            None => NOTHING,
        }
    }

    /// Ends the merge that was started last.
    pub(crate) fn end_merge(&mut self) -> i32
        ensures { EndsMerge self.old self.new result }
    {
        match self.maintain(EndMerge) {
            Ok(ended) => code_of_end(ended),
            Err(code) => code,
        }
    }

    /// Does what a call asks for, and returns its code.
    pub(crate) fn answer(&mut self, call: Call<'_>, alloc: Global) -> i32
        ensures { Answers call.entry self.old self.new result }
    {
        match call {
            Call::Execute(line) => self.execute(alloc, line),
            Call::Replace(delete, add) => self.replace(alloc, delete, add),
            Call::Search(line, names) => self.search(alloc, line, names),
            Call::SearchGroups(line, limit) => self.search_groups(alloc, line, limit),
            Call::LimitMerges(limit) => self.limit_merges(limit),
            Call::RunMerge => self.run_merge(alloc),
            Call::EndMerge => self.end_merge(),
        }
    }
}

fn needs_send<T: Send>() {}

/// What a handle points to may go to another thread.
pub fn a_handle_may_be_sent() {
    needs_send::<State>()
}
