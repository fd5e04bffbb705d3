// Replies, printed after what they tell of was done.
ghost use Rattle.std.specs.Prelude.{◌≡◌, ◌≢◌, ◌+◌, ◌≤◌, ◌++◌, false, Option, Result, is_ok, length, string_bytes};
ghost use Rattle.std.specs.Prelude.{IfOk, OnErr, OnOk, string_capacity, string_len};
ghost use Rattle.std.specs.Option.{option_copied};
ghost use Rattle.serde_json.specs.View.{view};
ghost use Rattle.serde_json.specs.Written.{has_float};
ghost use Rattle.fts_base.specs.declared.refusal.Refusal.{Refusal};
ghost use Rattle.fts_base.specs.declared.refusal.Refusal.TheVariants.{Memory};
ghost use Rattle.fts_engine.specs.Indexes.{Index};
ghost use Rattle.fts_script.specs.command.AnswerData.{answer_data};
ghost use Rattle.fts_script.specs.command.Cuts.{cut_answer};
ghost use Rattle.fts_script.specs.session.Replies.{Outcome, index_after, line_of, number_reply, refusal_reply, text_of};
ghost use Rattle.fts_script.specs.session.Sessions.{Does, KeepsAtAnswer, name_text, reply_data};

use crate::command::answer_text;
use crate::session::reply::{NumberName, Reply};
use fts_model::{Answer, Refusal, Text};
use itoa::Buffer;
use serde_json::{Value, json};
use std::alloc::{AllocError, Global};

/// The most bytes of the line of a reply that is one number. They are reserved before a step, so that its reply can't
/// be refused after it.
pub const LONGEST_NUMBER_LINE: usize = 34;

/// Appends a text for which there is room.
fn push_within(text: &str, out: &mut String)
    requires { string_len out.old + length text.now ≤ string_capacity out.old }
    ensures bytes { string_bytes out.new ≡ string_bytes out.old ++ text.now }
    ensures len { string_len out.new ≡ string_len out.old + length text.now }
    ensures capacity { string_capacity out.old ≤ string_capacity out.new }
{
    let Ok(()) = out.push_str(text) else {
        unreachable!()
    };
}

/// Appends the line of an object of one number, for which there is room.
fn push_number(name: NumberName, n: u64, out: &mut String)
    requires { string_len out.old + LONGEST_NUMBER_LINE ≤ string_capacity out.old }
    ensures { string_bytes out.new ≡ string_bytes out.old ++ line_of (number_reply (name_text name) n) }
{
    let mut digits = Buffer::new();
    push_within("{\"", out);
    push_within(name.text(), out);
    push_within("\":", out);
    push_within(digits.format(n), out);
    push_within("}\n", out);
}

/// Returns the line of a value.
fn line_of(alloc: Global, value: &Value) -> Result<String, AllocError>
    requires { has_float (view value.now) ≡ false }
    ensures { IfOk result (λ line. string_bytes line ≡ line_of (view value.now)) }
{
    let mut line = value.to_string(alloc)?;
    line.push('\n')?;
    Ok(line)
}

/// Returns the line of an answer. If there are names, the documents of its hits show only the fields of these names.
fn answer_line(alloc: Global, answer: &Answer, names: Option<&[Text]>) -> Result<String, AllocError>
    ensures { IfOk result (λ line. string_bytes line
        ≡ line_of (answer_data (cut_answer (option_copied names.entry) answer.now))) }
{
    let mut line = answer_text(alloc, answer, names)?;
    line.push('\n')?;
    Ok(line)
}

/// The JSON value that reports a refusal in the line of this number.
fn refusal_value(alloc: Global, refusal: Refusal, number: u64) -> Result<Value, AllocError>
    ensures value { IfOk result (λ value. view value ≡ refusal_reply refusal number) }
{
    json!(in alloc; {"error": refusal.name(), "line": number})
}

/// Returns the line that reports a refusal in the line of this number. It is an `Err` if memory ran out, which no reply
/// reports.
pub fn refusal_line(alloc: Global, refusal: Refusal, number: u64) -> Result<String, AllocError>
    ensures line { IfOk result (λ line. string_bytes line ≡ line_of (refusal_reply refusal number)) }
    ensures not_memory { OnOk result (refusal ≢ Memory) }
{
    if let Refusal::Memory = refusal {
        return Err(AllocError);
    }
    let value = refusal_value(alloc, refusal, number)?;
    line_of(alloc, &value)
}

/// Appends the line of a reply. There is room for a number, so that only an answer, which changed nothing, is refused.
pub fn push_reply(alloc: Global, reply: Reply, out: &mut String) -> Result<(), AllocError>
    requires { string_len out.old + LONGEST_NUMBER_LINE ≤ string_capacity out.old }
    ensures line { OnOk result (string_bytes out.new ≡ string_bytes out.old ++ line_of (reply_data reply)) }
    ensures kept { OnErr result ((old new : Option Index) → KeepsAtAnswer reply old new → new ≡ old) }
    ensures err { OnErr result (string_bytes out.new ≡ string_bytes out.old) }
{
    match reply {
        Reply::Number(name, n) => {
            push_number(name, n, out);
            Ok(())
        }
        Reply::Answer(answer, names) => {
            let line = answer_line(alloc, &answer, names.as_deref())?;
            out.push_str(line.as_str())
        }
    }
}

/// Appends what is replied to the line of this number, and returns whether the line was done. A refusal is a reply too,
/// unless memory ran out.
pub fn print(
    alloc: Global,
    number: u64,
    done: Result<Reply, Refusal>,
    out: &mut String,
) -> Result<bool, AllocError>
    requires { string_len out.old + LONGEST_NUMBER_LINE ≤ string_capacity out.old }
    ensures text { OnOk result ((wanted : Result (Outcome Index) Refusal) (old new : Option Index) →
        Does wanted old new done → string_bytes out.new ≡ string_bytes out.old ++ text_of number wanted) }
    ensures done { IfOk result (λ d. (wanted : Result (Outcome Index) Refusal) (old new : Option Index) →
        Does wanted old new done → d ≡ is_ok wanted) }
    ensures index { OnOk result ((wanted : Result (Outcome Index) Refusal) (old new : Option Index) →
        Does wanted old new done → new ≡ index_after old wanted) }
    ensures kept { OnErr result ((wanted : Result (Outcome Index) Refusal) (old new : Option Index) →
        Does wanted old new done → new ≡ old) }
    ensures err { OnErr result (string_bytes out.new ≡ string_bytes out.old) }
{
    match done {
        Ok(reply) => {
            push_reply(alloc, reply, out)?;
            Ok(true)
        }
        Err(refusal) => {
            let line = refusal_line(alloc, refusal, number)?;
            out.push_str(line.as_str())?;
            Ok(false)
        }
    }
}
