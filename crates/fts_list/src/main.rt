// Runs a script over standard input and output with a plain list of documents, with which the index is compared.
#![tactic(auto)]

use fts_script::{ListEngine, Options, Plain, run_script};
use std::process::ExitCode;

fn main(rt: HostRuntime) -> ExitCode {
    let mut reader = Plain::new(rt.stdin());
    let mut writer = Plain::new(rt.stdout());
    match run_script::<_, ListEngine, _, _>(&rt, &mut reader, &mut writer, Options::default()) {
        Ok(()) => ExitCode::SUCCESS,
        Err(_) => ExitCode::FAILURE,
    }
}
