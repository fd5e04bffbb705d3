// A script whose reader and writer are its caller's own, by the crate dilforec alone.
#![tactic(auto)]

ghost use Rattle.std.specs.Prelude.{◌≡◌, IfOk};
ghost use Rattle.dilforec.specs.script.Outputs.{output};

mod memory;

use dilforec::script::{EngineOver, Fault, ListEngine, Options, run_script};
use memory::{Lines, Replies};
use std::process::ExitCode;

/// Runs a script that is a text, and returns its replies.
fn replies_to<R: AllocGlobal + Sync, E: EngineOver<R>>(rt: &R, text: &str) -> Result<Vec<u8>, Fault>
    ensures { IfOk result (λ replies. replies.items ≡ output text.now) }
{
    let mut lines = Lines::over(text.as_bytes());
    let mut replies = Replies::new(rt.alloc());
    run_script::<_, E, _, _>(rt, &mut lines, &mut replies, Options::default())?;
    Ok(replies.into_bytes())
}

const SCRIPT: &str = "{\"schema\":[{\"name\":\"title\",\"kind\":\"text\",\"default\":true}]}\n\
    {\"add\":{\"title\":\"Programming Pearls\"}}\n\
    {\"commit\":true}\n\
    {\"search\":{\"query\":\"pearls\"}}\n";

fn main(rt: HostRuntime) -> ExitCode {
    match replies_to::<_, ListEngine>(&rt, SCRIPT) {
        Ok(bytes) => match std::str::from_utf8(&bytes) {
            Ok(text) => match print!(rt; "{text}") {
                Ok(()) => ExitCode::SUCCESS,
                Err(_) => ExitCode::FAILURE,
            },
            Err(_) => ExitCode::FAILURE,
        },
        Err(_) => ExitCode::FAILURE,
    }
}
