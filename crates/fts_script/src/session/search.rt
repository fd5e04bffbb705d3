// Searches alone, whose replies may show only some fields of the documents.
ghost use Rattle.std.specs.Prelude.{◌≡◌, ◌+◌, ◌≤◌, ◌++◌, ℕ, Option, Some, None, Ok, Err, is_some, true};
ghost use Rattle.std.specs.Prelude.{IfOk, OnOk, OnErr, length, string_bytes, option_map};
ghost use Rattle.std.specs.List.{list_all};
ghost use Rattle.fts_base.specs.Results.{Gives};
ghost use Rattle.std.specs.Option.{option_copied};
ghost use Rattle.fts_model.specs.Queries.{query_fits, request_of, request_fits};
ghost use Rattle.fts_model.specs.QueryValues.{query_value};
ghost use Rattle.fts_model.specs.Schemas.{field_named};
ghost use Rattle.fts_query.specs.Outcomes.{refusal_without_byte};
ghost use Rattle.fts_query.specs.Answers.{answer};
ghost use Rattle.fts_script.specs.command.Commands.{longest};
ghost use Rattle.fts_script.specs.command.CommandViews.{command_value, search_value};
ghost use Rattle.fts_engine.specs.Indexes.{indexes};
ghost use Rattle.fts_script.specs.session.Searches.{answer_cut, if_fields, listed_in, search_line, search_only};
ghost use Rattle.fts_script.specs.session.Replies.{text_of};
ghost use Rattle.fts_script.specs.session.Sessions.{Does, ChangesAtMost};

use crate::command::{Command, Search, command_of, field_names_of};
use crate::session::commands::json_of;
use crate::session::print::{LONGEST_NUMBER_LINE, print};
use crate::session::reply::Reply;
use crate::session::usual_count::usual_count;
use fts_engine::EngineOver;
use fts_model::{Order, Query, Refusal, Request, Schema, Text};
use fts_query::parse;
use std::alloc::{AllocError, Global};

/// The refusal without its byte, if it is one of syntax: no reply shows the byte.
fn without_byte(refusal: Refusal) -> Refusal
    ensures { result ≡ refusal_without_byte refusal }
{
    match refusal {
        Refusal::Syntax(_) => Refusal::Syntax(0),
        refusal => refusal,
    }
}

/// The query that a text is.
pub(crate) fn query_of(alloc: Global, schema: &Schema, text: &str) -> Result<Query, Refusal>
    ensures query { Gives query_value result (answer schema.now text.now) }
    ensures fits { IfOk result (λ query. query_fits schema.now (query_value query) ≡ true) }
{
    match parse(alloc, schema, text) {
        Ok(query) => Ok(query),
        Err(refusal) => Err(without_byte(refusal)),
    }
}

/// The request for these groups and this top list.
pub(crate) fn request_of(
    schema: &Schema,
    groups: Option<&str>,
    top: Option<(&str, u64, Order)>,
) -> Result<Request, Refusal>
    ensures request { result ≡ request_of schema.now (option_copied groups.entry)
        (option_map (λ t. (t.0.now, t.1, t.2)) top.entry) }
    ensures fits { IfOk result (λ request. request_fits schema.now request ≡ true) }
{
    Request::new(schema, groups, top)
}

/// The names that a line lists, if there is a line.
fn listed_in(alloc: Global, line: Option<&[u8]>) -> Result<Option<Vec<Text>>, Refusal>
    ensures { Gives (λ names. option_map (λ listed. listed.items) names) result
        (listed_in (option_copied line.entry)) }
{
    let Some(line) = line else {
        return Ok(None);
    };
    let json = json_of(alloc, line)?;
    match field_names_of(alloc, &json)? {
        Some(names) => Ok(Some(names)),
        None => Err(Refusal::BadCommand),
    }
}

/// Whether there is a field of each name.
fn are_fields(schema: &Schema, names: &[Text]) -> bool
    ensures { result ≡ list_all (λ name. is_some (field_named name schema.now)) names.now }
{
    names
        .iter()
        .all(|name| schema.field(name.as_str()).is_some())
}

/// The request for these groups and this top list, if there is a field of each name.
fn cut_request_of(
    schema: &Schema,
    groups: Option<&str>,
    top: Option<(&str, u64, Order)>,
    names: Option<&[Text]>,
) -> Result<Request, Refusal>
    ensures request { result ≡ if_fields schema.now (option_copied names.entry)
        (request_of schema.now (option_copied groups.entry)
        (option_map (λ t. (t.0.now, t.1, t.2)) top.entry)) }
    ensures fits { IfOk result (λ request. request_fits schema.now request ≡ true) }
{
    let request = request_of(schema, groups, top)?;
    match names {
        Some(names) if !are_fields(schema, names) => Err(Refusal::UnknownField),
        _ => Ok(request),
    }
}

/// Answers a search. If there are names, the documents of its hits show only the fields of these names.
pub(crate) fn search<R: AllocGlobal + Sync, E: EngineOver<R>>(
    rt: &R,
    engine: &mut E,
    asked: Search<'_>,
    names: Option<Vec<Text>>,
) -> Result<Reply, Refusal>
    ensures does { Does
        (answer_cut indexes (search_value asked.entry) (option_map (λ listed. listed.items) names)
        (E.index engine.old))
        (Some (E.index engine.old)) (Some (E.index engine.new)) result }
    ensures same { E.index engine.new ≡ E.index engine.old }
    ensures changes { E.changes engine.new ≤ E.changes engine.old }
{
    let query = query_of(rt.alloc(), engine.schema(), asked.query)?;
    let request = cut_request_of(engine.schema(), asked.groups, asked.top, names.as_deref())?;
    Ok(Reply::Answer(engine.search(rt, &query, &request)?, names))
}

/// Executes a search. Another command is refused as `BadCommand`.
fn search_only<R: AllocGlobal + Sync, E: EngineOver<R>>(
    rt: &R,
    index: &mut Option<E>,
    command: Command<'_>,
    names: Option<Vec<Text>>,
) -> Result<Reply, Refusal>
    ensures does { Does
        (search_only indexes (option_map E.index index.old) (option_map (λ listed. listed.items) names)
        (command_value command.entry))
        (option_map E.index index.old) (option_map E.index index.new) result }
    ensures same { option_map E.index index.new ≡ option_map E.index index.old }
    ensures changes { (n : ℕ) → ChangesAtMost E.changes n index.old → ChangesAtMost E.changes n index.new }
{
    match command {
        Command::Search(asked) => match index {
            Some(engine) => search(rt, engine, asked, names),
            None => Err(Refusal::NoSchema),
        },
        _ => Err(Refusal::BadCommand),
    }
}

/// The outcome of a search in a line that isn't too long, cut to the fields that another line lists, if there is one.
fn search_whole<R: AllocGlobal + Sync, E: EngineOver<R>>(
    rt: &R,
    index: &mut Option<E>,
    line: &[u8],
    names: Option<&[u8]>,
) -> Result<Reply, Refusal>
    requires fits_line { length line.now ≤ longest }
    ensures does { Does (search_line indexes (option_map E.index index.old) line.now (option_copied names.entry))
        (option_map E.index index.old) (option_map E.index index.new) result }
    ensures same { option_map E.index index.new ≡ option_map E.index index.old }
    ensures changes { (n : ℕ) → ChangesAtMost E.changes n index.old → ChangesAtMost E.changes n index.new }
{
    if let Some(asked) = usual_count(line) {
        let names = listed_in(rt.alloc(), names)?;
        return search_only(rt, index, Command::Search(asked), names);
    }
    let json = json_of(rt.alloc(), line)?;
    match command_of(rt.alloc(), &json)? {
        Some(command) => {
            let names = listed_in(rt.alloc(), names)?;
            search_only(rt, index, command, names)
        }
        None => Err(Refusal::BadCommand),
    }
}

/// Replies to a search in the line of this number, cut to the fields that another line lists, if there is one.
pub(crate) fn answer_search<R: AllocGlobal + Sync, E: EngineOver<R>>(
    rt: &R,
    index: &mut Option<E>,
    number: u64,
    line: &[u8],
    names: Option<&[u8]>,
    out: &mut String,
) -> Result<(), AllocError>
    requires fits_line { length line.now ≤ longest }
    ensures reply { OnOk result (string_bytes out.new ≡ string_bytes out.old ++ text_of number
        (search_line indexes (option_map E.index index.old) line.now (option_copied names.entry))) }
    ensures same { option_map E.index index.new ≡ option_map E.index index.old }
    ensures err { OnErr result (string_bytes out.new ≡ string_bytes out.old) }
    ensures changes { (n : ℕ) → ChangesAtMost E.changes n index.old → ChangesAtMost E.changes n index.new }
{
    out.reserve(LONGEST_NUMBER_LINE)?;
    let found = search_whole(rt, index, line, names);
    print(rt.alloc(), number, found, out)?;
    Ok(())
}
