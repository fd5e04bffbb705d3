// A deletion and the addition after it, both or neither.
ghost use Rattle.std.specs.Prelude.{◌≡◌, ◌+◌, ◌-◌, ◌^◌, ◌<◌, ◌≤◌, ◌++◌, ℕ, Option, Some, None, Ok, Err};
ghost use Rattle.std.specs.Prelude.{IfOk, OnOk, OnErr, length, string_bytes, option_map};
ghost use Rattle.std.specs.Prelude.{if◌then◌else◌};
ghost use Rattle.serde_json.specs.View.{view};
ghost use Rattle.std.specs.Option.{ok_or};
ghost use Rattle.fts_base.specs.Results.{Gives, result_and_then};
ghost use Rattle.fts_script.specs.command.Commands.{longest, Add, Delete, command_in};
ghost use Rattle.fts_engine.specs.Indexes.{indexes};
ghost use Rattle.fts_script.specs.session.Replaces.{addition, deletion, execute_two, lines_done, replace};
ghost use Rattle.fts_script.specs.session.Replies.{text_of, index_after};
ghost use Rattle.fts_script.specs.session.Sessions.{Does, ChangesAtMost};

use crate::command::{Command, command_of};
use crate::session::commands::{add, delete, json_of};
use crate::session::print::{LONGEST_NUMBER_LINE, print};
use crate::session::reply::Reply;
use fts_engine::{EngineOver, TakeBack};
use fts_model::Refusal;
use serde_json::Value;
use std::alloc::{AllocError, Global};

/// The field's name and the value of a deletion.
fn deletion_in(alloc: Global, json: &Value) -> Result<(&str, &Value), Refusal>
    ensures { Gives (λ d. Delete d.0.now (view d.1.now)) result
        (result_and_then deletion (ok_or (command_in (view json.entry.now)) Refusal.BadCommand)) }
{
    match command_of(alloc, json)? {
        Some(Command::Delete(name, value)) => Ok((name, value)),
        _ => Err(Refusal::BadCommand),
    }
}

/// The document of an addition.
fn addition_in(alloc: Global, json: &Value) -> Result<&Value, Refusal>
    ensures { Gives (λ document. Add (view document.now)) result
        (result_and_then addition (ok_or (command_in (view json.entry.now)) Refusal.BadCommand)) }
{
    match command_of(alloc, json)? {
        Some(Command::Add(document)) => Ok(document),
        _ => Err(Refusal::BadCommand),
    }
}

/// Deletes the documents with a term, and adds one. If it can't be added, the deletion is taken back.
fn replace<E: TakeBack>(
    alloc: Global,
    engine: &mut E,
    name: &str,
    json: &Value,
    document: &Value,
) -> Result<Reply, Refusal>
    requires { E.changes engine.old < 2 ^ 61 }
    ensures does { Does
        (execute_two indexes (Some (E.index engine.old)) (Delete name.now (view json.now)) (Add (view document.now)))
        (Some (E.index engine.old)) (Some (E.index engine.new)) result }
    ensures changes { E.changes engine.new ≤ E.changes engine.old + 2 }
{
    let before = engine.uncommitted();
    delete(alloc, engine, name, json)?;
    match add(alloc, engine, document) {
        Ok(reply) => Ok(reply),
        Err(refusal) => {
            engine.keep_first(before);
            Err(refusal)
        }
    }
}

/// The outcome of a line that deletes and a line that adds.
fn replace_whole<E: TakeBack>(
    alloc: Global,
    index: &mut Option<E>,
    delete: &[u8],
    add: &[u8],
) -> Result<Reply, Refusal>
    requires changes { ChangesAtMost E.changes (2 ^ 61 - 1) index.old }
    requires fits_delete { length delete.now ≤ longest }
    requires fits_add { length add.now ≤ longest }
    ensures does { Does (replace indexes (option_map E.index index.old) delete.now add.now)
        (option_map E.index index.old) (option_map E.index index.new) result }
    ensures changes { (n : ℕ) → ChangesAtMost E.changes n index.old → ChangesAtMost E.changes (n + 2) index.new }
{
    let first = json_of(alloc, delete)?;
    let (name, value) = deletion_in(alloc, &first)?;
    let second = json_of(alloc, add)?;
    let document = addition_in(alloc, &second)?;
    match index {
        Some(engine) => replace(alloc, engine, name, value, document),
        None => Err(Refusal::NoSchema),
    }
}

/// How many lines count as done: two, or none.
fn lines_of(done: bool) -> u64
    ensures { result ≡ (if done then 2 else 0) }
{
    if done { 2 } else { 0 }
}

/// Replies to a line that deletes and a line that adds, as one, and returns how many lines were done: 2 or 0.
pub(crate) fn answer_replace<R: AllocGlobal + Sync, E: EngineOver<R> + TakeBack>(
    rt: &R,
    index: &mut Option<E>,
    number: u64,
    delete: &[u8],
    add: &[u8],
    out: &mut String,
) -> Result<u64, AllocError>
    requires changes { ChangesAtMost E.changes (2 ^ 61 - 1) index.old }
    requires fits_delete { length delete.now ≤ longest }
    requires fits_add { length add.now ≤ longest }
    ensures done { IfOk result (λ done. done
        ≡ lines_done (replace indexes (option_map E.index index.old) delete.now add.now)) }
    ensures few { IfOk result (λ done. done ≤ 2) }
    ensures reply { OnOk result (string_bytes out.new
        ≡ string_bytes out.old ++ text_of number (replace indexes (option_map E.index index.old) delete.now add.now)) }
    ensures index { OnOk result (option_map E.index index.new ≡ index_after (option_map E.index index.old)
        (replace indexes (option_map E.index index.old) delete.now add.now)) }
    ensures err { OnErr result (string_bytes out.new ≡ string_bytes out.old) }
    ensures kept { OnErr result (option_map E.index index.new ≡ option_map E.index index.old) }
    ensures changes { (n : ℕ) → ChangesAtMost E.changes n index.old → ChangesAtMost E.changes (n + 2) index.new }
{
    out.reserve(LONGEST_NUMBER_LINE)?;
    let replaced = replace_whole(rt.alloc(), index, delete, add);
    let done = print(rt.alloc(), number, replaced, out)?;
    Ok(lines_of(done))
}
