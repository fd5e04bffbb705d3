// Tries the cases of the files that the process's words name.
use crate::judge::fits;
use crate::trial::Trial;
use crate::trouble::Trouble;
use serde_json::Value;
use std::alloc::{AllocError, Global};
use std::env::{self, Env};
use std::process::ExitCode;
use std::rt::Files;
use std::{fs, io};

/// A program that tries cases: it knows which calls each word of its cases means.
pub trait Driver {
    /// Forgets what the cases of an earlier file made.
    fn begin(&mut self);

    /// Makes the public calls of a case, and gives what they return.
    fn give(&mut self, case: &Value, trial: &mut Trial);
}

/// What is expected of the cases of a file.
#[derive(Clone, Copy, PartialEq)]
pub enum Wanted {
    /// Each gives what it says.
    Fit,
    /// No case gives what it says.
    Differ,
}

/// How many cases were tried, and how many of them failed.
#[derive(Clone, Copy)]
pub struct CaseCounts {
    cases: u64,
    failed: u64,
}

impl CaseCounts {
    /// The tally before the first case.
    pub fn new() -> CaseCounts {
        CaseCounts {
            cases: 0,
            failed: 0,
        }
    }

    /// Counts a case.
    pub fn count(&mut self, is_as_wanted: bool) {
        self.cases = self.cases.saturating_add(1);
        if !is_as_wanted {
            self.failed = self.failed.saturating_add(1);
        }
    }

    /// Counts the cases of a file, and prints how many it has. One that has none counts as one that failed.
    pub fn count_file<R: Print>(
        &mut self,
        rt: &R,
        name: &str,
        wanted: Wanted,
        file: CaseCounts,
    ) -> io::Result<()> {
        let CaseCounts { cases, failed } = file;
        match wanted {
            Wanted::Fit => println!(rt; "{name}: {cases} cases")?,
            Wanted::Differ => println!(rt; "{name}: {cases} cases that differ")?,
        }
        if failed > 0 {
            println!(rt; "{name}: {failed} of them failed")?;
        }
        let failed = if cases == 0 { 1 } else { failed };
        self.cases = self.cases.saturating_add(cases);
        self.failed = self.failed.saturating_add(failed);
        Ok(())
    }

    /// Prints how many cases were tried. The exit status is 1 if one failed, and if there was none.
    pub fn end<R: Print>(self, rt: &R) -> io::Result<ExitCode> {
        println!(rt; "{} cases", self.cases)?;
        Ok(if self.cases > 0 && self.failed == 0 {
            ExitCode::SUCCESS
        } else {
            ExitCode::FAILURE
        })
    }
}

/// The sentence of a case.
fn sentence_of(case: &Value) -> Option<&str> {
    case.get("case")?.as_str()
}

/// The case of a line, or what the line lacks.
fn case_of(alloc: Global, line: &str) -> Result<Value, &'static str> {
    match Value::from_str(alloc, line) {
        Ok(case) if sentence_of(&case).is_some() => Ok(case),
        Ok(_) => Err("no sentence"),
        Err(_) => Err("no JSON"),
    }
}

/// The case of a line. If it has none, that is printed.
pub fn case_on<R: Print + AllocGlobal>(
    rt: &R,
    name: &str,
    line: &str,
) -> io::Result<Option<Value>> {
    match case_of(rt.alloc(), line) {
        Ok(case) => Ok(Some(case)),
        Err(lack) => {
            println!(rt; "DIFFERS: {name}: {lack}: {line}")?;
            Ok(None)
        }
    }
}

/// What a case gave, as text, if it isn't what the case says.
fn other(alloc: Global, case: &Value, given: &Value) -> Result<Option<String>, AllocError> {
    match case.get("gives") {
        Some(says) if fits(says, given) => Ok(None),
        Some(_) => Ok(Some(given.to_string(alloc)?)),
        None => Ok(Some(told(alloc, Trouble::Missing("gives"))?)),
    }
}

/// What went wrong, as text.
fn told(alloc: Global, trouble: Trouble) -> Result<String, AllocError> {
    let (before, name, behind) = trouble.words();
    format!(in alloc; "{before}{name}{behind}")
}

/// `None` if a case gave what it says, otherwise what it gave or why it gave nothing.
fn difference(
    alloc: Global,
    case: &Value,
    trial: &mut Trial,
) -> Result<Option<String>, AllocError> {
    match trial.ended() {
        Ok(given) => other(alloc, case, &given),
        Err(trouble) => Ok(Some(told(alloc, trouble)?)),
    }
}

/// Whether a case gave what it says. If it didn't, what it gave is printed.
pub fn judged<R: Print + AllocGlobal>(
    rt: &R,
    name: &str,
    case: &Value,
    trial: &mut Trial,
) -> io::Result<bool> {
    match difference(rt.alloc(), case, trial)? {
        None => Ok(true),
        Some(given) => {
            let sentence = sentence_of(case).unwrap_or("");
            println!(rt; "DIFFERS: {name}: {sentence}: {given}")?;
            Ok(false)
        }
    }
}

/// Tries the case of a line, and returns whether it gives what it says.
fn holds<R: Print + AllocGlobal, D: Driver>(
    rt: &R,
    driver: &mut D,
    name: &str,
    line: &str,
) -> io::Result<bool> {
    let Some(case) = case_on(rt, name, line)? else {
        return Ok(false);
    };
    let mut trial = Trial::new(rt.alloc());
    driver.give(&case, &mut trial);
    judged(rt, name, &case, &mut trial)
}

/// Tries the cases of a file.
fn file<R: Print + AllocGlobal + Files, D: Driver>(
    rt: &R,
    driver: &mut D,
    name: &str,
    wanted: Wanted,
) -> io::Result<CaseCounts> {
    let all = fs::read_to_string(rt, name)?;
    let mut tally = CaseCounts::new();
    driver.begin();
    for line in all.as_str().lines() {
        tally.count(holds(rt, driver, name, line)? == (wanted == Wanted::Fit));
    }
    Ok(tally)
}

/// Tries the cases of all files that the process's words name: those after `--wrong` must differ. The exit status is 1
/// if a case failed, if a file has none, or if no file is named.
pub fn run<R: Print + AllocGlobal + Files + Env, D: Driver>(
    rt: &R,
    driver: &mut D,
) -> io::Result<ExitCode> {
    let mut wanted = Wanted::Fit;
    let mut all = CaseCounts::new();
    for word in env::args(rt)?.skip(1) {
        if word.as_str() == "--wrong" {
            wanted = Wanted::Differ;
            continue;
        }
        let tally = file(rt, driver, word.as_str(), wanted)?;
        all.count_file(rt, word.as_str(), wanted, tally)?;
    }
    all.end(rt)
}
