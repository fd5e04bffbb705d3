//! An index inside a C program, or in any that calls C: a static library over the session of scripts.
//!
//! A handle is a place for a pointer, which one call at a time may use; it is closed while it is null. A line of a
//! script goes in, and its reply comes out, to the byte that the script's definition says. A searcher is a handle too:
//! a session of its own over the last commit of another, which another thread may have, and which takes only searches.
//! So is a merge, which another thread runs while its index goes on.
//! A caller owes a handle that was opened or is null, and true lengths. What each call leaves, and which code it
//! returns, is a definition of `specs/Calls.antt`, `Blocks`, `Transactions`, `Pairs` or `Merges`, for a place that is
//! open, and of `specs/Open.antt` or `StatsOf` for one that may be closed. One call needs no handle: it returns the
//! byte at which a query can't be read any further (`specs/Syntaxes.antt`).
#![tactic(auto)]

ghost use Rattle.std.specs.Prelude.{◌≡◌, Option, Some, None, IfOk, MatchOption, MatchResult};
ghost use Rattle.std.specs.Box.Ownership.{box_owns};
ghost use Rattle.std.specs.contracts.impls.GlobalAllocator.TheImpl.{ghosts};
ghost use Rattle.fts_c.specs.declared.state.State.{State};
ghost use Rattle.fts_c.specs.contracts.state.State.{the_row};
ghost use Rattle.fts_c.specs.Answers.{Answers};
ghost use Rattle.fts_c.specs.Blocks.{ExecutesLines};
ghost use Rattle.fts_c.specs.Pairs.{Replaces};
ghost use Rattle.fts_c.specs.Calls.{copied, Executes, Opens, Searches, SearchesGroups};
ghost use Rattle.fts_c.specs.Held.{held};
ghost use Rattle.fts_c.specs.Merges.{BeginsMerge, EndsMerge, LimitsMerges, RunsMerge, limit_of};
ghost use Rattle.fts_c.specs.Open.{Closes, IfOpen, TellsIfOpen};
ghost use Rattle.fts_c.specs.StatsOf.{TellsStats};
ghost use Rattle.fts_c.specs.Syntaxes.{IsSyntaxAt, TellsSyntaxAt};
ghost use Rattle.fts_c.specs.Transactions.{Transacts};
ghost use Rattle.fts_script.specs.session.Outputs.{start};

mod codes;
pub mod laws;
mod maintenance;
mod raw_box;
mod searchers;
mod state;

use crate::raw_box::RawBox;
use codes::{CLOSED, MEMORY, NO_BYTE, NO_LIMIT, NO_REPLY, OK};
use core::mem::replace_with;
use core::ptr::null_mut;
use fts_engine::{Merge, Options};
use fts_engine_local::{LocalEngine, Stats};
use fts_query::syntax_at;
use fts_script::session::Session;
use state::{Call, State};
use std::alloc::{AllocError, Global};
use std::marker::Model;

/// A session at its pointer.
#[repr(C)]
pub struct Handle {
    at: *mut u8,
    alloc: Global,
    ghost state: { State },
}

impl Model for Handle {
    ghost also_owns = { λ h. box_owns (ghosts.dealloc_token h.alloc) the_row h.at h.state };
}

/// A place for a handle, which is null while it is closed. C sees it as a pointer in a struct.
#[repr(C)]
#[derive(Drop)]
pub struct Slot {
    at: *mut u8,
    alloc: Global,
    ghost state: { Option State },
}

impl Model for Slot {
    ghost also_owns = { λ h. held (ghosts.dealloc_token h.alloc) the_row h.at h.state };
}

impl Slot {
    fn full(handle: Handle) -> Slot
        ensures { result.state ≡ Some handle.state }
    {
        let Handle { at, alloc } = handle;
        Slot { at, alloc }
    }

    fn closed(alloc: Global) -> Slot
        ensures { result.state ≡ None }
    {
        Slot {
            at: null_mut(),
            alloc,
        }
    }

    /// The handle that is there, or the place itself if it is null.
    fn handle(self) -> Result<Handle, Slot>
        ensures { MatchResult result
            (λ handle. self.state ≡ Some handle.state)
            (λ slot. (self.state ≡ None) × (slot.state ≡ None)) }
    {
        let Slot { at, alloc } = self;
        if at.is_null() {
            Err(Slot { at, alloc })
        } else {
            Ok(Handle { at, alloc })
        }
    }
}

impl Handle {
    fn of(state: RawBox<State, Global>) -> Handle
        ensures { result.state ≡ state.value }
    {
        let RawBox { at, alloc } = state;
        Handle {
            at: at as *mut u8,
            alloc,
        }
    }

    fn into_raw(self) -> RawBox<State, Global>
        ensures { result.value ≡ self.state }
    {
        let Handle { at, alloc } = self;
        RawBox {
            at: at as *mut State,
            alloc,
        }
    }
}

fn wrap(state: Box<State, Global>) -> Handle
    ensures { result.state ≡ state.value }
{
    Handle::of(RawBox::of(state))
}

fn unwrap(handle: Handle) -> Box<State, Global>
    ensures { result.value ≡ handle.state }
{
    handle.into_raw().into_box()
}

/// The options of a session: those that hold if none are given, but merges after commits, so that many small commits
/// leave few segments.
fn options() -> Options {
    let mut options = Options::default();
    options.merge = Merge::Policy;
    options
}

/// Puts a session into a place, or returns that memory was refused.
fn open(slot: &mut Slot, alloc: Global, session: Session<LocalEngine>) -> i32
    ensures { Opens session.script slot.new.state slot.old slot.new result }
{
    let reply = String::new(alloc);
    let merge = None;
    match Box::new(
        alloc,
        State {
            session,
            reply,
            merge,
        },
    ) {
        Ok(state) => {
            *slot = Slot::full(wrap(state));
            OK
        }
        Err(_) => MEMORY,
    }
}

fn emptied(slot: Slot, alloc: Global) -> (Slot, Option<Handle>)
    ensures closed { result.0.state ≡ None }
    ensures was { MatchOption result.1 (slot.state ≡ None) (λ handle. slot.state ≡ Some handle.state) }
{
    match slot.handle() {
        Ok(handle) => (Slot::closed(alloc), Some(handle)),
        Err(slot) => (slot, None),
    }
}

/// Takes what is open in a place, and leaves it closed.
fn take(slot: &mut Slot, alloc: Global) -> Option<Handle>
    ensures closed { slot.new.state ≡ None }
    ensures was { MatchOption result (slot.old.state ≡ None) (λ handle. slot.old.state ≡ Some handle.state) }
{
    replace_with(slot, alloc, |slot, alloc| emptied(slot, alloc))
}

/// Opens a session before the first line of a script: 0, or 1 if memory was refused. What was open there is lost.
#[unsafe(no_mangle)]
pub extern "C" fn dilforec_open(slot: &mut Slot, alloc: Global) -> i32
    ensures { Opens start slot.new.state slot.old slot.new result }
{
    open(slot, alloc, Session::new(options()))
}

/// Does what a call asks for with what is open in a place.
fn answer(slot: &mut Slot, alloc: Global, call: Call<'_>) -> i32
    ensures { IfOpen slot.old.state slot.new.state result (λ old new. Answers call.entry old new result) }
{
    match take(slot, alloc) {
        Some(handle) => {
            let mut state = unwrap(handle);
            let code = state.answer(call, alloc);
            *slot = Slot::full(wrap(state));
            code
        }
        None => CLOSED,
    }
}

/// Executes a line, without its LF. At 0 the reply is that of the definition, and the session goes on as it says. At
/// another code there is no reply, and the session is as it was: 1 if memory was refused, 2 if the line is over
/// 4,194,304 bytes, 3 if there were 2^61 lines, 4 if the place is closed.
#[unsafe(no_mangle)]
pub extern "C" fn dilforec_execute(slot: &mut Slot, alloc: Global, line: &[u8]) -> i32
    ensures { IfOpen slot.old.state slot.new.state result (λ old new. Executes old line.now new result) }
{
    answer(slot, alloc, Call::Execute(line))
}

/// Executes the lines of a block, each ended by its LF or by the block's end, up to the first for which
/// `dilforec_execute` has another code than 0, and returns that code. The reply is their replies, one after the other,
/// and `done` is set to the number of lines that were done.
#[unsafe(no_mangle)]
pub extern "C" fn dilforec_execute_lines(
    slot: &mut Slot,
    alloc: Global,
    block: &[u8],
    done: &mut usize,
) -> i32
    ensures lines { IfOpen slot.old.state slot.new.state result
        (λ old new. ExecutesLines old block.now new result done.new) }
    ensures none { slot.old.state ≡ None → done.new ≡ 0 }
{
    match take(slot, alloc) {
        Some(handle) => {
            let mut state = unwrap(handle);
            let told = state.execute_lines(alloc, block);
            *slot = Slot::full(wrap(state));
            *done = told.1;
            told.0
        }
        None => {
            *done = 0;
            CLOSED
        }
    }
}

/// Executes the lines of a block, each an addition or a deletion, as one: all are done, or none. At 0 the reply is
/// their replies, one after the other, or the refusal of the first line that is refused; at another code, which is that
/// of the first line that has one, there is no reply. `done` is set to the number of lines before that one, and to the
/// number of all lines if they were done.
#[unsafe(no_mangle)]
pub extern "C" fn dilforec_transaction(
    slot: &mut Slot,
    alloc: Global,
    block: &[u8],
    done: &mut usize,
) -> i32
    ensures lines { IfOpen slot.old.state slot.new.state result
        (λ old new. Transacts old block.now new result done.new) }
    ensures none { slot.old.state ≡ None → done.new ≡ 0 }
{
    match take(slot, alloc) {
        Some(handle) => {
            let mut state = unwrap(handle);
            let told = state.transaction(alloc, block);
            *slot = Slot::full(wrap(state));
            *done = told.1;
            told.0
        }
        None => {
            *done = 0;
            CLOSED
        }
    }
}

/// Executes a deletion and an addition as one: both are done, or neither. The codes are those of `dilforec_execute`; a
/// refusal of either line is a reply, and leaves the session as it was.
#[unsafe(no_mangle)]
pub extern "C" fn dilforec_replace(slot: &mut Slot, alloc: Global, delete: &[u8], add: &[u8]) -> i32
    ensures { IfOpen slot.old.state slot.new.state result
        (λ old new. Replaces old delete.now add.now new result) }
{
    answer(slot, alloc, Call::Replace(delete, add))
}

/// Answers a search of the last commit, with the documents of its hits cut to the fields that `names` lists: a JSON
/// array of strings. An unknown name is refused as `UnknownField`, and another command as `BadCommand`. The line isn't
/// counted. The codes are those of `dilforec_execute`.
#[unsafe(no_mangle)]
pub extern "C" fn dilforec_execute_fields(
    slot: &mut Slot,
    alloc: Global,
    line: &[u8],
    names: &[u8],
) -> i32
    ensures { IfOpen slot.old.state slot.new.state result
        (λ old new. Searches old line.now (Some names.now) new result) }
{
    answer(slot, alloc, Call::Search(line, Some(names)))
}

/// Answers a search of the last commit, with the most frequent groups alone, at most `limit`: those of the greatest
/// counts first, those of equal counts by their values. Another command is refused as `BadCommand`. The line isn't
/// counted. The codes are those of `dilforec_execute`.
#[unsafe(no_mangle)]
pub extern "C" fn dilforec_execute_groups(
    slot: &mut Slot,
    alloc: Global,
    line: &[u8],
    limit: usize,
) -> i32
    ensures { IfOpen slot.old.state slot.new.state result
        (λ old new. SearchesGroups old line.now limit new result) }
{
    answer(slot, alloc, Call::SearchGroups(line, limit))
}

/// Copies bytes if they fit.
fn copy(bytes: &[u8], out: &mut [u8])
    ensures { out.new ≡ copied bytes.now out.old }
{
    let n = bytes.len();
    if n <= out.len() {
        out[..n].copy_from_slice(bytes);
    }
}

/// Returns the size of the last reply, and copies it if it fits.
fn reply(slot: &mut Slot, alloc: Global, out: &mut [u8]) -> usize
    ensures { TellsIfOpen slot.old.state slot.new.state out.old out.new result }
{
    match take(slot, alloc) {
        Some(handle) => {
            let state = unwrap(handle);
            let size = state.reply.len();
            copy(state.reply.as_bytes(), out);
            *slot = Slot::full(wrap(state));
            size
        }
        None => NO_REPLY,
    }
}

/// The size of the last reply, or the greatest `usize` if the place is closed. The reply is copied if it fits.
#[unsafe(no_mangle)]
pub extern "C" fn dilforec_reply(slot: &mut Slot, alloc: Global, out: &mut [u8]) -> usize
    ensures { TellsIfOpen slot.old.state slot.new.state out.old out.new result }
{
    reply(slot, alloc, out)
}

/// Returns the size of the index.
fn tell_stats(slot: &mut Slot, alloc: Global, out: &mut Stats) -> i32
    ensures { TellsStats slot.old.state slot.new.state out.old out.new result }
{
    match take(slot, alloc) {
        Some(handle) => {
            let state = unwrap(handle);
            *out = state.stats();
            *slot = Slot::full(wrap(state));
            OK
        }
        None => CLOSED,
    }
}

/// Returns the size of the index at its last commit: 0, or 4 if the place is closed.
#[unsafe(no_mangle)]
pub extern "C" fn dilforec_stats(slot: &mut Slot, alloc: Global, out: &mut Stats) -> i32
    ensures { TellsStats slot.old.state slot.new.state out.old out.new result }
{
    tell_stats(slot, alloc, out)
}

/// The byte of a query's `Syntax`, or the greatest `usize` if it has none.
fn syntax_of(alloc: Global, query: &[u8]) -> Result<usize, AllocError>
    ensures { IfOk result (IsSyntaxAt query.now) }
{
    match str::from_utf8(query) {
        Ok(text) => match syntax_at(alloc, text)? {
            Some(byte) => Ok(byte),
            None => Ok(NO_BYTE),
        },
        Err(_) => Ok(NO_BYTE),
    }
}

/// Returns the byte at which a query can't be read any further, if it is refused as `Syntax`, and otherwise the
/// greatest `usize`: 0, or 1 if memory was refused. The schema doesn't matter.
#[unsafe(no_mangle)]
pub extern "C" fn dilforec_syntax_at(alloc: Global, query: &[u8], at: &mut usize) -> i32
    ensures { TellsSyntaxAt query.now at.old at.new result }
{
    match syntax_of(alloc, query) {
        Ok(byte) => {
            *at = byte;
            OK
        }
        Err(AllocError) => MEMORY,
    }
}

/// From now on, commits merge no segment of more live documents than a limit, and none by itself; without one, they
/// merge whatever is due. The rest waits for merges that are started beside commits. 0, 4 if the place is closed, or 5
/// if there is no schema yet.
#[unsafe(no_mangle)]
pub extern "C" fn dilforec_limit_merges(slot: &mut Slot, alloc: Global, limit: u32) -> i32
    ensures { IfOpen slot.old.state slot.new.state result
        (λ old new. LimitsMerges (limit_of limit) old new result) }
{
    let limit = if limit == NO_LIMIT { None } else { Some(limit) };
    answer(slot, alloc, Call::LimitMerges(limit))
}

/// Starts a merge of what is due next, in a place of its own, and forgets the one that was started before: 0, 1 if
/// memory was refused, 4 if the index is closed, or 5 if nothing is due, as without a schema.
#[unsafe(no_mangle)]
pub extern "C" fn dilforec_merge_begin(index: &mut Slot, slot: &mut Slot, alloc: Global) -> i32
    ensures { BeginsMerge index.old.state index.new.state slot.new.state slot.old slot.new result }
{
    match take(index, alloc) {
        Some(handle) => {
            let mut state = unwrap(handle);
            let begun = state.begin_merge(alloc, Session::new(options()));
            *index = Slot::full(wrap(state));
            match begun {
                Ok(merge) => {
                    *slot = Slot::full(wrap(merge));
                    OK
                }
                Err(code) => code,
            }
        }
        None => CLOSED,
    }
}

/// Runs a merge, in any thread, while its index goes on: 0, 1 if memory was refused, or 4 if the place is closed. If it
/// was run before, it does nothing.
#[unsafe(no_mangle)]
pub extern "C" fn dilforec_merge_run(merge: &mut Slot, alloc: Global) -> i32
    ensures { IfOpen merge.old.state merge.new.state result
        (λ old new. RunsMerge old new result) }
{
    answer(merge, alloc, Call::RunMerge)
}

/// Ends the merge of an index that was started last: what it made takes the place of what it joined, without the
/// documents deleted meanwhile. 0, 1 if memory was refused, so that it may be ended again, 4 if the index is closed, 5
/// if there is none or it wasn't run, or 6 if what it joined was merged meanwhile: then it is given up.
#[unsafe(no_mangle)]
pub extern "C" fn dilforec_merge_end(index: &mut Slot, alloc: Global) -> i32
    ensures { IfOpen index.old.state index.new.state result
        (λ old new. EndsMerge old new result) }
{
    answer(index, alloc, Call::EndMerge)
}

/// Drops a merge, and leaves its place closed: 0, or 4 if it was closed before. What it made can still be ended.
#[unsafe(no_mangle)]
pub extern "C" fn dilforec_merge_close(merge: &mut Slot, alloc: Global) -> i32
    ensures { Closes merge.old.state merge.new.state result }
{
    close(merge, alloc)
}

/// Ends what is open in a place.
fn close(slot: &mut Slot, alloc: Global) -> i32
    ensures { Closes slot.old.state slot.new.state result }
{
    match take(slot, alloc) {
        Some(handle) => {
            drop(unwrap(handle));
            OK
        }
        None => CLOSED,
    }
}

/// Ends a session, and leaves its place closed: 0, or 4 if it was closed before.
#[unsafe(no_mangle)]
pub extern "C" fn dilforec_close(slot: &mut Slot, alloc: Global) -> i32
    ensures { Closes slot.old.state slot.new.state result }
{
    close(slot, alloc)
}
