// Tries cases of an index of many segments: scripts, each over a list of documents and over segments under 24 sets of
// options, and walks, which are steps over a new writer.
#![tactic(auto)]

mod changes;
mod late_merges;
mod script;
mod searches;
mod views;
mod walk;
mod ways;

use dilforec::script::{EngineOver, IndexEngine, ListEngine, LocalEngine};
use script::script_of;
use serde_json::Value;
use std::process::ExitCode;
use std::rt::{Env, Files};
use std::sync::Wait;
use std::thread::Threads;
use std::{env, fs, io};
use testing_cases::{CaseCounts, Trial, Wanted, case_on, judged, text};
use ways::give_replies;

/// Gives what the steps of a walk give. For a script, gives how many replies it has, or else the wrong reply of the
/// first way of running it that has one.
fn give<
    R: AllocGlobal + Files + Threads + Wait + Sync,
    L: EngineOver<R>,
    S: EngineOver<R>,
    O: EngineOver<R>,
>(rt: &R, trial: &mut Trial, case: &Value) {
    if text(trial, case, "do") == "walk" {
        return walk::walk(rt, trial, case);
    }
    let script = script_of(rt, trial, case);
    if !trial.has_failed() {
        give_replies::<_, L, S, O>(rt, trial, &script);
    }
}

/// Tries the case of a line, and returns whether it gives what it says.
fn holds<
    R: AllocGlobal + Files + Print + Threads + Wait + Sync,
    L: EngineOver<R>,
    S: EngineOver<R>,
    O: EngineOver<R>,
>(rt: &R, name: &str, line: &str) -> io::Result<bool> {
    let Some(case) = case_on(rt, name, line)? else {
        return Ok(false);
    };
    let mut trial = Trial::new(rt.alloc());
    give::<_, L, S, O>(rt, &mut trial, &case);
    judged(rt, name, &case, &mut trial)
}

/// Tries the cases of a file.
fn tried<
    R: AllocGlobal + Files + Print + Threads + Wait + Sync,
    L: EngineOver<R>,
    S: EngineOver<R>,
    O: EngineOver<R>,
>(rt: &R, name: &str, wanted: Wanted) -> io::Result<CaseCounts> {
    let lines = fs::read_to_string(rt, name)?;
    let mut tally = CaseCounts::new();
    for line in lines.as_str().lines() {
        tally.count(holds::<_, L, S, O>(rt, name, line)? == (wanted == Wanted::Fit));
    }
    Ok(tally)
}

/// Tries the cases of each file that the process's words name.
fn all<
    R: AllocGlobal + Env + Files + Print + Threads + Wait + Sync,
    L: EngineOver<R>,
    S: EngineOver<R>,
    O: EngineOver<R>,
>(rt: &R) -> io::Result<ExitCode> {
    let (mut wanted, mut all) = (Wanted::Fit, CaseCounts::new());
    for name in env::args(rt)?.skip(1) {
        if name.as_str() == "--wrong" {
            wanted = Wanted::Differ;
        } else {
            let tally = tried::<_, L, S, O>(rt, name.as_str(), wanted)?;
            all.count_file(rt, name.as_str(), wanted, tally)?;
        }
    }
    all.end(rt)
}

fn main(rt: HostRuntime) -> io::Result<ExitCode> {
    all::<_, ListEngine, IndexEngine, LocalEngine>(&rt)
}
