// Searches whose replies show the most frequent groups alone.
ghost use Rattle.std.specs.Prelude.{◌≡◌, ◌+◌, ◌≤◌, ◌++◌, ℕ, Option, Some, None, Ok, Err};
ghost use Rattle.std.specs.Prelude.{OnErr, OnOk, length, string_bytes, option_map};
ghost use Rattle.fts_script.specs.command.Commands.{longest};
ghost use Rattle.fts_script.specs.command.CommandViews.{command_value, search_value};
ghost use Rattle.fts_script.specs.command.MostFrequent.{frequency_cmp, most_frequent, with_most_frequent};
ghost use Rattle.fts_engine.specs.Indexes.{indexes};
ghost use Rattle.fts_script.specs.session.GroupSearches.{answer_frequent, find_frequent, find_frequent_line};
ghost use Rattle.fts_script.specs.session.Replies.{text_of};
ghost use Rattle.fts_script.specs.session.Sessions.{Does, ChangesAtMost};

use crate::command::{Command, Search, command_of};
use crate::session::commands::json_of;
use crate::session::print::{LONGEST_NUMBER_LINE, print};
use crate::session::reply::Reply;
use crate::session::search::{query_of, request_of};
use fts_engine::EngineOver;
use fts_model::{Answer, GroupValue, Refusal};
use std::alloc::AllocError;
use std::cmp::Ordering;

/// The order of groups by their counts, the greatest first, and of those of equal counts by their values.
fn compare(a: &(GroupValue, u64), b: &(GroupValue, u64)) -> Ordering
    ensures { result ≡ frequency_cmp a.now b.now }
{
    b.1.cmp(&a.1).then(a.0.compare(&b.0))
}

/// The most frequent groups, at most this many.
fn most_frequent(mut groups: Vec<(GroupValue, u64)>, limit: usize) -> Vec<(GroupValue, u64)>
    ensures { result.items ≡ most_frequent limit groups.items }
{
    groups.sort_unstable_by(|a, b| compare(a, b));
    groups.truncate(limit);
    groups
}

/// An answer with its most frequent groups alone.
fn with_most_frequent(answer: Answer, limit: usize) -> Answer
    ensures { result ≡ with_most_frequent limit answer }
{
    let Answer { count, groups, top } = answer;
    let groups = match groups {
        Some(groups) => Some(most_frequent(groups, limit)),
        None => None,
    };
    Answer { count, groups, top }
}

/// Answers a search with the most frequent groups alone.
fn search_frequent<R: AllocGlobal + Sync, E: EngineOver<R>>(
    rt: &R,
    engine: &mut E,
    asked: Search<'_>,
    limit: usize,
) -> Result<Reply, Refusal>
    ensures does { Does
        (answer_frequent indexes (search_value asked.entry) limit (E.index engine.old))
        (Some (E.index engine.old)) (Some (E.index engine.new)) result }
    ensures same { E.index engine.new ≡ E.index engine.old }
    ensures changes { E.changes engine.new ≤ E.changes engine.old }
{
    let query = query_of(rt.alloc(), engine.schema(), asked.query)?;
    let request = request_of(engine.schema(), asked.groups, asked.top)?;
    let found = engine.search(rt, &query, &request)?;
    Ok(Reply::Answer(with_most_frequent(found, limit), None))
}

/// Executes a search with the most frequent groups alone. Another command is refused as `BadCommand`.
fn find_frequent<R: AllocGlobal + Sync, E: EngineOver<R>>(
    rt: &R,
    index: &mut Option<E>,
    command: Command<'_>,
    limit: usize,
) -> Result<Reply, Refusal>
    ensures does { Does
        (find_frequent indexes (option_map E.index index.old) limit (command_value command.entry))
        (option_map E.index index.old) (option_map E.index index.new) result }
    ensures same { option_map E.index index.new ≡ option_map E.index index.old }
    ensures changes { (n : ℕ) → ChangesAtMost E.changes n index.old → ChangesAtMost E.changes n index.new }
{
    match command {
        Command::Search(asked) => match index {
            Some(engine) => search_frequent(rt, engine, asked, limit),
            None => Err(Refusal::NoSchema),
        },
        _ => Err(Refusal::BadCommand),
    }
}

/// The outcome of a search in a line that isn't too long, with the most frequent groups alone.
fn find_frequent_whole<R: AllocGlobal + Sync, E: EngineOver<R>>(
    rt: &R,
    index: &mut Option<E>,
    line: &[u8],
    limit: usize,
) -> Result<Reply, Refusal>
    requires fits_line { length line.now ≤ longest }
    ensures does { Does (find_frequent_line indexes (option_map E.index index.old) line.now limit)
        (option_map E.index index.old) (option_map E.index index.new) result }
    ensures same { option_map E.index index.new ≡ option_map E.index index.old }
    ensures changes { (n : ℕ) → ChangesAtMost E.changes n index.old → ChangesAtMost E.changes n index.new }
{
    let json = json_of(rt.alloc(), line)?;
    match command_of(rt.alloc(), &json)? {
        Some(command) => find_frequent(rt, index, command, limit),
        None => Err(Refusal::BadCommand),
    }
}

/// Replies to a search in the line of this number, with the most frequent groups alone, at most this many.
pub(crate) fn answer_find_frequent<R: AllocGlobal + Sync, E: EngineOver<R>>(
    rt: &R,
    index: &mut Option<E>,
    number: u64,
    line: &[u8],
    limit: usize,
    out: &mut String,
) -> Result<(), AllocError>
    requires fits_line { length line.now ≤ longest }
    ensures reply { OnOk result (string_bytes out.new ≡ string_bytes out.old
        ++ text_of number (find_frequent_line indexes (option_map E.index index.old) line.now limit)) }
    ensures same { option_map E.index index.new ≡ option_map E.index index.old }
    ensures err { OnErr result (string_bytes out.new ≡ string_bytes out.old) }
    ensures changes { (n : ℕ) → ChangesAtMost E.changes n index.old → ChangesAtMost E.changes n index.new }
{
    out.reserve(LONGEST_NUMBER_LINE)?;
    let found = find_frequent_whole(rt, index, line, limit);
    print(rt.alloc(), number, found, out)?;
    Ok(())
}
