// Runs a script of an index over standard input and standard output.
#![tactic(auto)]

ghost use Rattle.std.specs.Prelude.{◌≡◌, ◌≢◌, ◌⊎◌};
ghost use Rattle.std.specs.Io.KnownBytes.{IsAtEnd};
ghost use Rattle.std.specs.Process.{exit_status};
ghost use Rattle.fts_script.specs.Runs.{FailsNever, FailsRead, FailsWrite, Flushes, FlushesAll, GainsWritten};
ghost use Rattle.fts_script.specs.Runs.{LosesRead, ReadsTooMuch};
ghost use Rattle.fts_script.specs.Runs.{StopsInLastRead, TellsEnd, WritesBeginning, WritesEnded, WritesOutput};
ghost use Rattle.fts_cli.specs.Arguments.{arg_status_of, run_status_of, status_of};

use fts_cli::args::{ArgFault, Asked, args};
use fts_cli::status::{arg_status, run_status, status};
use fts_engine_index::IndexEngine;
use fts_script::{EngineOver, Fault, Options, Plain, ScriptIn, ScriptOut, run_script};
use std::env::Env;
use std::io::{Eprint, IsTerminal, Print};
use std::process::ExitCode;
use std::{env, io};

/// The message on a terminal before the program reads.
const WAITS: &str =
    "fts: waiting for the lines of a script; Ctrl-D ends it, and 'fts run --help' shows one";

/// What the process's own command line asks for.
fn asked(rt: &(impl Env + AllocGlobal)) -> Result<Asked, ArgFault> {
    match env::args(rt) {
        Ok(words) => args(rt.alloc(), words.collect(rt.alloc())?),
        Err(error) if error.kind() == io::ErrorKind::OutOfMemory => Err(ArgFault::Memory),
        Err(_) => Err(ArgFault::Usage(String::from_str(
            rt.alloc(),
            "error: an argument isn't UTF-8\n",
        )?)),
    }
}

/// Runs the script over the standard streams, which buffer nothing: the run reads and writes in blocks.
///
/// Returns the exit status, and the outcome that it reports.
fn run_standard<R: AllocGlobal + Sync + Eprint, E: EngineOver<R>, I: ScriptIn, O: ScriptOut>(
    rt: &R,
    reader: &mut I,
    writer: &mut O,
    options: Options,
) -> (ExitCode, Result<(), Fault>)
    // 0 if the run came to its end, 3 if memory ran out, 4 if a stream failed, 5 if the stamps are used up
    ensures status { exit_status result.0 ≡ run_status_of result.1 }

    ensures ok { exit_status result.0 ≡ 0 → WritesOutput
        (I.calls reader.old, O.calls writer.old) (I.calls reader.new, O.calls writer.new) }
    ensures end { exit_status result.0 ≡ 0 → TellsEnd (I.calls reader.old) (I.calls reader.new) }
    ensures flushed { exit_status result.0 ≡ 0 → Flushes (O.calls writer.old) (O.calls writer.new) }
    ensures flushed_all { exit_status result.0 ≡ 0 → FlushesAll (O.calls writer.new) }
    ensures none_failed { exit_status result.0 ≡ 0 → FailsNever
        (I.calls reader.old, O.calls writer.old) (I.calls reader.new, O.calls writer.new) }

    // If the bytes that the reader has left and those that the writer holds are known, they are what was read and
    // written.
    ensures left { LosesRead (I.calls reader.old) (I.calls reader.new) }
    ensures held { GainsWritten (O.calls writer.old) (O.calls writer.new) }
    ensures nothing_left { TellsEnd (I.calls reader.old) (I.calls reader.new) → IsAtEnd (I.calls reader.new).remaining }

    ensures stopped { exit_status result.0 ≢ 0 → WritesBeginning
        (I.calls reader.old, O.calls writer.old) (I.calls reader.new, O.calls writer.new) }
    ensures memory { exit_status result.0 ≡ 3 → StopsInLastRead
        (I.calls reader.old, O.calls writer.old) (I.calls reader.new, O.calls writer.new) }
    ensures memory_alone { exit_status result.0 ≡ 3 → FailsNever
        (I.calls reader.old, O.calls writer.old) (I.calls reader.new, O.calls writer.new) }
    ensures failed { exit_status result.0 ≡ 4 → FailsWrite
        (I.calls reader.old, O.calls writer.old) (I.calls reader.new, O.calls writer.new)
        ⊎ (FailsRead (I.calls reader.old, O.calls writer.old) (I.calls reader.new, O.calls writer.new)
        × WritesEnded (I.calls reader.old, O.calls writer.old) (I.calls reader.new, O.calls writer.new)) }
    ensures used_up { exit_status result.0 ≡ 5 → ReadsTooMuch
        (I.calls reader.old, O.calls writer.old) (I.calls reader.new, O.calls writer.new) }
    ensures used_up_alone { exit_status result.0 ≡ 5 → FailsNever
        (I.calls reader.old, O.calls writer.old) (I.calls reader.new, O.calls writer.new) }
{
    let outcome = run_script::<_, E, _, _>(rt, reader, writer, options);
    if let Err(fault) = &outcome {
        let _ = rt.eprintln(format_args!("fts: {fault}"));
    }
    let status = run_status(&outcome);
    (ExitCode::from(status), outcome)
}

/// Prints a help that was asked for. The exit status is 0, or 4 if the text couldn't be written.
fn show_help(rt: &impl Print, text: String) -> ExitCode
    ensures { (exit_status result ≡ 0) ⊎ (exit_status result ≡ status_of Fault.Write) }
{
    ExitCode::from(match rt.print(text) {
        Ok(()) => 0,
        Err(_) => status(&Fault::Write),
    })
}

/// Says what is wrong with the arguments. The exit status is 2, or 3 if there was no memory to read them.
fn refuse(rt: &impl Eprint, fault: &ArgFault) -> ExitCode
    ensures { exit_status result ≡ arg_status_of fault.now }
{
    let _ = rt.eprint(fault);
    ExitCode::from(arg_status(fault))
}

fn main(rt: HostRuntime) -> ExitCode {
    match asked(&rt) {
        Ok(Asked::Run(options)) => {
            if rt.stdin().is_terminal() {
                let _ = rt.eprintln(WAITS);
            }
            let mut reader = Plain::new(rt.stdin());
            let mut writer = Plain::new(rt.stdout());
            run_standard::<_, IndexEngine, _, _>(&rt, &mut reader, &mut writer, options).0
        }
        Ok(Asked::Help(text)) => show_help(&rt, text),
        Err(fault) => refuse(&rt, &fault),
    }
}
