// Executes commands over an engine, and then prints their replies.
ghost use Rattle.std.specs.Prelude.{◌≡◌, ◌+◌, ◌^◌, ◌<◌, ◌≤◌, ◌++◌, Option, Some, None, Ok, Err, true};
ghost use Rattle.std.specs.Prelude.{IfOk, OnOk, OnErr, Result, codes, length, string_bytes, option_map};
ghost use Rattle.serde_json.specs.View.{view};
ghost use Rattle.std.specs.Option.{ok_or};
ghost use Rattle.fts_base.specs.Results.{Gives};
ghost use Rattle.fts_model.specs.Documents.{document_of, fits};
ghost use Rattle.fts_model.specs.Operations.{op_fits, term_fits, term_of};
ghost use Rattle.fts_script.specs.command.Commands.{longest, Add, Delete, Commit, Rollback, Merge, json_in};
ghost use Rattle.fts_script.specs.command.CommandViews.{command_value};
ghost use Rattle.fts_engine.specs.Indexes.{indexes};
ghost use Rattle.fts_engine.specs.Steps.{submit};
ghost use Rattle.fts_script.specs.session.Replies.{replied, execute, execute_line, number_reply};
ghost use Rattle.fts_script.specs.session.Replies.{text_of, index_after};
ghost use Rattle.fts_script.specs.session.Sessions.{Does, ChangesAtMost, ChangesOnce};

use crate::command::{Command, command_of};
use crate::session::print::{LONGEST_NUMBER_LINE, print};
use crate::session::reply::{NumberName, Reply};
use crate::session::search::search;
use crate::session::usual_count::usual_count;
use fts_engine::{Engine, EngineOver, Options};
use fts_model::{Document, Field, Op, Refusal, Schema, Term};
use serde_json::Value;
use std::alloc::{AllocError, Global};

/// Takes a schema: makes a new index.
fn open<R: AllocGlobal + Sync, E: EngineOver<R>>(
    rt: &R,
    options: Options,
    index: &mut Option<E>,
    fields: Vec<Field>,
) -> Result<Reply, Refusal>
    requires { option_map E.index index.old ≡ None }
    ensures does { Does (execute indexes None (command_value (Command.Schema fields))) None
        (option_map E.index index.new) result }
    ensures changes { ChangesAtMost E.changes 0 index.new }
{
    let count = fields.len() as u64;
    let schema = match Schema::new(rt.alloc(), fields) {
        Ok(schema) => schema,
        Err((_, refusal)) => return Err(refusal),
    };
    let engine = E::open(rt, options, schema)?;
    if let Some(before) = index.replace(engine) {
        before.close(rt);
    }
    Ok(Reply::Number(NumberName::Fields, count))
}

/// Takes an operation.
fn submit<E: Engine>(engine: &mut E, op: Op) -> Result<Reply, Refusal>
    requires changes { E.changes engine.old ≤ 2 ^ 61 }
    requires fits { op_fits (E.index engine.old).schema op ≡ true }
    ensures does { Does
        (replied (number_reply (codes "stamp")) (submit indexes op (E.index engine.old)))
        (Some (E.index engine.old)) (Some (E.index engine.new)) result }
    ensures changes { E.changes engine.new ≤ E.changes engine.old + 1 }
{
    Ok(Reply::Number(NumberName::Stamp, engine.submit(op)?))
}

/// The document that a value is.
fn document_in<E: Engine>(alloc: Global, engine: &E, json: &Value) -> Result<Document, Refusal>
    ensures document { Gives (λ document. document) result
        (document_of (E.index engine.now).schema (view json.now)) }
    ensures fits { IfOk result (λ document. fits (E.index engine.now).schema document ≡ true) }
{
    Document::from_json(alloc, engine.schema(), json)
}

/// Adds a document.
pub(crate) fn add<E: Engine>(alloc: Global, engine: &mut E, json: &Value) -> Result<Reply, Refusal>
    requires { E.changes engine.old ≤ 2 ^ 61 }
    ensures does { Does (execute indexes (Some (E.index engine.old)) (Add (view json.now)))
        (Some (E.index engine.old)) (Some (E.index engine.new)) result }
    ensures changes { E.changes engine.new ≤ E.changes engine.old + 1 }
{
    let document = document_in(alloc, engine, json)?;
    submit(engine, Op::Add(document))
}

/// The term that a value is in the field of a name.
fn term_in<E: Engine>(alloc: Global, engine: &E, name: &str, json: &Value) -> Result<Term, Refusal>
    ensures term { Gives (λ term. term) result
        (term_of (E.index engine.now).schema name.now (view json.now)) }
    ensures fits { IfOk result (λ term. term_fits (E.index engine.now).schema term ≡ true) }
{
    Term::new(alloc, engine.schema(), name, json)
}

/// Deletes the documents with a term.
pub(crate) fn delete<E: Engine>(
    alloc: Global,
    engine: &mut E,
    name: &str,
    json: &Value,
) -> Result<Reply, Refusal>
    requires { E.changes engine.old ≤ 2 ^ 61 }
    ensures does { Does
        (execute indexes (Some (E.index engine.old)) (Delete name.now (view json.now)))
        (Some (E.index engine.old)) (Some (E.index engine.new)) result }
    ensures changes { E.changes engine.new ≤ E.changes engine.old + 1 }
{
    let term = term_in(alloc, engine, name, json)?;
    submit(engine, Op::Delete(term))
}

/// Executes any command but the schema, once there is an index.
fn execute_open<R: AllocGlobal + Sync, E: EngineOver<R>>(
    rt: &R,
    engine: &mut E,
    command: Command<'_>,
) -> Result<Reply, Refusal>
    requires { E.changes engine.old ≤ 2 ^ 61 }
    ensures does { Does
        (execute indexes (Some (E.index engine.old)) (command_value command.entry))
        (Some (E.index engine.old)) (Some (E.index engine.new)) result }
    ensures changes { E.changes engine.new ≤ E.changes engine.old + 1 }
{
    let alloc = rt.alloc();
    match command {
        Command::Schema(_) => Err(Refusal::SchemaTwice),
        Command::Add(json) => add(alloc, engine, json),
        Command::Delete(name, json) => delete(alloc, engine, name, json),
        Command::DeleteAll => submit(engine, Op::DeleteAll),
        Command::Commit => Ok(Reply::Number(NumberName::Commit, engine.commit(rt)?)),
        Command::Rollback => Ok(Reply::Number(NumberName::Rollback, engine.rollback(rt)?)),
        Command::Merge => Ok(Reply::Number(NumberName::Merged, engine.merge(rt)?)),
        Command::Search(asked) => search(rt, engine, asked, None),
    }
}

/// Executes a command.
pub(crate) fn execute<R: AllocGlobal + Sync, E: EngineOver<R>>(
    rt: &R,
    options: Options,
    index: &mut Option<E>,
    command: Command<'_>,
) -> Result<Reply, Refusal>
    requires { ChangesAtMost E.changes (2 ^ 61) index.old }
    ensures does { Does
        (execute indexes (option_map E.index index.old) (command_value command.entry))
        (option_map E.index index.old) (option_map E.index index.new) result }
    ensures changes { ChangesOnce E.changes index.old index.new }
{
    if let Some(engine) = index {
        return execute_open(rt, engine, command);
    }
    match command {
        Command::Schema(fields) => open(rt, options, index, fields),
        _ => Err(Refusal::NoSchema),
    }
}

/// The JSON value that a line is: `BadJson` if it isn't one.
pub(crate) fn json_of(alloc: Global, line: &[u8]) -> Result<Value, Refusal>
    ensures { Gives (λ value. view value) result (ok_or (json_in line.now) Refusal.BadJson) }
{
    match Value::from_slice(alloc, line) {
        Ok(value) => Ok(value),
        Err(error) => {
            if error.is_memory() {
                Err(Refusal::Memory)
            } else {
                Err(Refusal::BadJson)
            }
        }
    }
}

/// The outcome of a line that isn't blank and isn't too long.
fn execute_whole<R: AllocGlobal + Sync, E: EngineOver<R>>(
    rt: &R,
    options: Options,
    index: &mut Option<E>,
    line: &[u8],
) -> Result<Reply, Refusal>
    requires changes { ChangesAtMost E.changes (2 ^ 61) index.old }
    requires fits_line { length line.now ≤ longest }
    ensures does { Does (execute_line indexes (option_map E.index index.old) line.now)
        (option_map E.index index.old) (option_map E.index index.new) result }
    ensures changes { ChangesOnce E.changes index.old index.new }
{
    if let Some(search) = usual_count(line) {
        return execute(rt, options, index, Command::Search(search));
    }
    let json = json_of(rt.alloc(), line)?;
    match command_of(rt.alloc(), &json)? {
        Some(command) => execute(rt, options, index, command),
        None => Err(Refusal::BadCommand),
    }
}

/// Replies to a line that isn't blank and isn't too long.
pub(crate) fn answer_whole<R: AllocGlobal + Sync, E: EngineOver<R>>(
    rt: &R,
    options: Options,
    index: &mut Option<E>,
    number: u64,
    line: &[u8],
    out: &mut String,
) -> Result<(), AllocError>
    requires changes { ChangesAtMost E.changes (2 ^ 61) index.old }
    requires fits_line { length line.now ≤ longest }
    ensures reply { OnOk result (string_bytes out.new
        ≡ string_bytes out.old ++ text_of number (execute_line indexes (option_map E.index index.old) line.now)) }
    ensures index { OnOk result (option_map E.index index.new
        ≡ index_after (option_map E.index index.old) (execute_line indexes (option_map E.index index.old) line.now)) }
    ensures err { OnErr result (string_bytes out.new ≡ string_bytes out.old) }
    ensures kept { OnErr result (option_map E.index index.new ≡ option_map E.index index.old) }
    ensures changes { ChangesOnce E.changes index.old index.new }
{
    out.reserve(LONGEST_NUMBER_LINE)?;
    let done = execute_whole(rt, options, index, line);
    print(rt.alloc(), number, done, out)?;
    Ok(())
}
