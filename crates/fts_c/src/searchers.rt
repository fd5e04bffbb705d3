// A searcher is a session over the last commit of another, which takes only searches.
ghost use Rattle.std.specs.Prelude.{Some, None};
ghost use Rattle.fts_c.specs.Calls.{Searches, SearchesGroups};
ghost use Rattle.fts_c.specs.Open.{Closes, IfOpen, OpensSearcher, TellsIfOpen};
ghost use Rattle.fts_c.specs.StatsOf.{TellsStats};

use crate::codes::{CLOSED, MEMORY};
use crate::state::Call;
use crate::{Slot, answer, close, open, reply, take, tell_stats, unwrap, wrap};
use fts_engine_local::Stats;
use std::alloc::{AllocError, Global};

/// Opens, in a place, a searcher of the last commit of what another holds.
fn open_searcher(of: &mut Slot, slot: &mut Slot, alloc: Global) -> i32
    ensures { OpensSearcher of.old.state of.new.state slot.new.state slot.old slot.new result }
{
    match take(of, alloc) {
        Some(handle) => {
            let state = unwrap(handle);
            let fork = state.session.fork();
            *of = Slot::full(wrap(state));
            match fork {
                Ok(session) => open(slot, alloc, session),
                Err(AllocError) => MEMORY,
            }
        }
        None => CLOSED,
    }
}

/// Opens a searcher of the last commit, which it searches for ever: 0, 1 if memory was refused, or 4 if the index is
/// closed.
#[unsafe(no_mangle)]
pub extern "C" fn dilforec_searcher(index: &mut Slot, slot: &mut Slot, alloc: Global) -> i32
    ensures { OpensSearcher index.old.state index.new.state slot.new.state slot.old slot.new result }
{
    open_searcher(index, slot, alloc)
}

/// Opens another searcher of a searcher's commit, for another thread, with the codes of `dilforec_searcher`.
#[unsafe(no_mangle)]
pub extern "C" fn dilforec_searcher_again(
    searcher: &mut Slot,
    slot: &mut Slot,
    alloc: Global,
) -> i32
    ensures { OpensSearcher searcher.old.state searcher.new.state slot.new.state slot.old slot.new result }
{
    open_searcher(searcher, slot, alloc)
}

/// Answers a search, as a line of a script: the reply is that of the definition, over the searcher's commit, and
/// nothing changes. Another command is answered as `BadCommand`. The codes are those of `dilforec_execute`.
#[unsafe(no_mangle)]
pub extern "C" fn dilforec_search(searcher: &mut Slot, alloc: Global, line: &[u8]) -> i32
    ensures { IfOpen searcher.old.state searcher.new.state result (λ old new. Searches old line.now None new result) }
{
    answer(searcher, alloc, Call::Search(line, None))
}

/// Answers a search cut to some fields, as `dilforec_execute_fields` does, over the searcher's commit.
#[unsafe(no_mangle)]
pub extern "C" fn dilforec_search_fields(
    searcher: &mut Slot,
    alloc: Global,
    line: &[u8],
    names: &[u8],
) -> i32
    ensures { IfOpen searcher.old.state searcher.new.state result
        (λ old new. Searches old line.now (Some names.now) new result) }
{
    answer(searcher, alloc, Call::Search(line, Some(names)))
}

/// Answers a search with the most frequent groups alone, as `dilforec_execute_groups` does, over the searcher's commit.
#[unsafe(no_mangle)]
pub extern "C" fn dilforec_search_groups(
    searcher: &mut Slot,
    alloc: Global,
    line: &[u8],
    limit: usize,
) -> i32
    ensures { IfOpen searcher.old.state searcher.new.state result
        (λ old new. SearchesGroups old line.now limit new result) }
{
    answer(searcher, alloc, Call::SearchGroups(line, limit))
}

/// The reply to the last search, as by `dilforec_reply`.
#[unsafe(no_mangle)]
pub extern "C" fn dilforec_searcher_reply(
    searcher: &mut Slot,
    alloc: Global,
    out: &mut [u8],
) -> usize
    ensures { TellsIfOpen searcher.old.state searcher.new.state out.old out.new result }
{
    reply(searcher, alloc, out)
}

/// Returns the size of the searcher's commit, as `dilforec_stats` does.
#[unsafe(no_mangle)]
pub extern "C" fn dilforec_searcher_stats(
    searcher: &mut Slot,
    alloc: Global,
    out: &mut Stats,
) -> i32
    ensures { TellsStats searcher.old.state searcher.new.state out.old out.new result }
{
    tell_stats(searcher, alloc, out)
}

/// Ends a searcher, and leaves its place closed: 0, or 4 if it was closed before.
#[unsafe(no_mangle)]
pub extern "C" fn dilforec_searcher_close(searcher: &mut Slot, alloc: Global) -> i32
    ensures { Closes searcher.old.state searcher.new.state result }
{
    close(searcher, alloc)
}
