// What a script goes back to, and lines of a transaction: each is executed, and all are taken back at the first
// refusal.
ghost use Rattle.std.specs.Prelude.{◌≡◌, ◌+◌, ◌^◌, ◌≤◌, ◌++◌, [], IfOk, OnOk, OnErr, length, string_bytes};
ghost use Rattle.std.specs.Prelude.{is_ok, option_map, if◌then◌else◌};
ghost use Rattle.fts_script.specs.command.Commands.{longest};
ghost use Rattle.fts_script.specs.command.CommandViews.{command_value};
ghost use Rattle.fts_engine.specs.Indexes.{indexes};
ghost use Rattle.fts_script.specs.session.Replies.{text_of, index_after};
ghost use Rattle.fts_script.specs.session.Transactions.{count_uncommitted, is_operation, operate};
ghost use Rattle.fts_script.specs.session.Sessions.{Does, ChangesAtMost, ChangesOnce};

use crate::command::{Command, command_of};
use crate::session::commands::{execute, json_of};
use crate::session::print::{LONGEST_NUMBER_LINE, push_reply, refusal_line};
use crate::session::reply::Reply;
use fts_engine::{EngineOver, Options, TakeBack};
use fts_model::Refusal;
use std::alloc::AllocError;

/// What a script goes back to if a transaction isn't done.
#[derive(Clone, Copy)]
pub struct Savepoint {
    /// How many lines there were.
    pub number: u64,
    /// How many operations were uncommitted.
    pub uncommitted: usize,
}

/// Whether a command is an operation.
fn is_operation(command: &Command<'_>) -> bool
    ensures { result ≡ is_operation (command_value command.now) }
{
    match command {
        Command::Add(_) | Command::Delete(_, _) | Command::DeleteAll => true,
        _ => false,
    }
}

/// How many operations are uncommitted, if there is an index.
pub(crate) fn uncommitted_in<E: TakeBack>(index: &Option<E>) -> usize
    ensures { result ≡ count_uncommitted (option_map E.index index.now) }
{
    match index {
        Some(engine) => engine.uncommitted(),
        None => 0,
    }
}

/// The outcome of a line in a transaction.
fn operate_whole<R: AllocGlobal + Sync, E: EngineOver<R>>(
    rt: &R,
    options: Options,
    index: &mut Option<E>,
    line: &[u8],
) -> Result<Reply, Refusal>
    requires changes { ChangesAtMost E.changes (2 ^ 61) index.old }
    requires fits_line { length line.now ≤ longest }
    ensures does { Does (operate indexes (option_map E.index index.old) line.now)
        (option_map E.index index.old) (option_map E.index index.new) result }
    ensures changes { ChangesOnce E.changes index.old index.new }
{
    let json = json_of(rt.alloc(), line)?;
    let Some(command) = command_of(rt.alloc(), &json)? else {
        return Err(Refusal::BadCommand);
    };
    if !is_operation(&command) {
        return Err(Refusal::BadCommand);
    }
    execute(rt, options, index, command)
}

/// Replies to a line in a transaction, and returns whether it was taken. A refusal, in the line of this number, is the
/// only reply.
pub(crate) fn answer_operation<R: AllocGlobal + Sync, E: EngineOver<R>>(
    rt: &R,
    options: Options,
    index: &mut Option<E>,
    number: u64,
    line: &[u8],
    out: &mut String,
) -> Result<bool, AllocError>
    requires changes { ChangesAtMost E.changes (2 ^ 61) index.old }
    requires fits_line { length line.now ≤ longest }
    ensures taken { IfOk result (λ taken. taken ≡ is_ok (operate indexes (option_map E.index index.old) line.now)) }
    ensures reply { IfOk result (λ taken. string_bytes out.new ≡ (if taken then string_bytes out.old else [])
        ++ text_of number (operate indexes (option_map E.index index.old) line.now)) }
    ensures index { OnOk result (option_map E.index index.new ≡ index_after (option_map E.index index.old)
        (operate indexes (option_map E.index index.old) line.now)) }
    ensures err { OnErr result (string_bytes out.new ≡ string_bytes out.old) }
    ensures kept { OnErr result (option_map E.index index.new ≡ option_map E.index index.old) }
    ensures changes { ChangesOnce E.changes index.old index.new }
{
    out.reserve(LONGEST_NUMBER_LINE)?;
    match operate_whole(rt, options, index, line) {
        Ok(reply) => {
            push_reply(rt.alloc(), reply, out)?;
            Ok(true)
        }
        Err(refusal) => {
            *out = refusal_line(rt.alloc(), refusal, number)?;
            Ok(false)
        }
    }
}
