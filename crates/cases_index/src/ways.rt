// The ways of running a script: over a plain list of documents, and over segments under each kind of options, with
// each cut crossed with each kind of merges and with one worker and three. The engines are chosen by `main`.
use crate::script::Script;
use dilforec::Cut;
use dilforec::script::{EngineOver, Merge, Options, Plain, run_script};
use std::alloc::{AllocError, Global};
use std::sync::Wait;
use std::thread::Threads;
use testing_cases::{Trial, Trouble};

/// How segments are cut.
static CUTS: [Cut; 6] = [
    Cut::Runs(1),
    Cut::Runs(3),
    Cut::Runs(65_536),
    Cut::Deal(1),
    Cut::Deal(2),
    Cut::Deal(7),
];

/// How many workers there are, and when segments are merged.
static WORK: [(usize, Merge); 4] = [
    (1, Merge::Off),
    (3, Merge::Off),
    (1, Merge::Policy),
    (3, Merge::Policy),
];

/// The first line that one text has and the other lacks at its place.
fn first_other<'a>(given: &'a str, wanted: &str) -> &'a str {
    let mut wanted = wanted.lines();
    for line in given.lines() {
        if wanted.next() != Some(line) {
            return line;
        }
    }
    "too few replies"
}

/// What was given over an engine, if it isn't what was expected.
fn other(
    alloc: Global,
    over: &str,
    given: Vec<u8>,
    wanted: &str,
    options: Options,
) -> Result<Option<String>, AllocError> {
    if given.as_slice() == wanted.as_bytes() {
        return Ok(None);
    }
    let given = String::from_utf8(given).unwrap_or(String::new(alloc));
    let other = first_other(given.as_str(), wanted);
    Ok(Some(format!(in alloc; "over {over} gave {other} at {options:?}")?))
}

/// The wrong reply of a run over an engine, if it has one.
fn run<R: AllocGlobal + Threads + Wait + Sync, E: EngineOver<R>>(
    rt: &R,
    over: &str,
    input: &str,
    wanted: &str,
    options: Options,
) -> Result<Option<String>, AllocError> {
    let alloc = rt.alloc();
    let mut reader = Plain::new(input.as_bytes());
    let mut writer = Plain::new(Vec::new(alloc));
    let outcome = run_script::<_, E, _, _>(rt, &mut reader, &mut writer, options);
    if outcome.is_err() {
        return Ok(Some(format!(in alloc; "over {over} ended by {outcome:?} at {options:?}")?));
    }
    other(alloc, over, writer.into_inner(), wanted, options)
}

/// The wrong reply of a script under these options, if it has one: over `S`, and over `O` in one thread, which has no
/// use for more workers.
fn difference_by<R: AllocGlobal + Threads + Wait + Sync, S: EngineOver<R>, O: EngineOver<R>>(
    rt: &R,
    input: &str,
    wanted: &str,
    options: Options,
) -> Result<Option<String>, AllocError> {
    let other = run::<_, S>(rt, "segments", input, wanted, options)?;
    if other.is_some() || options.workers > 1 {
        return Ok(other);
    }
    run::<_, O>(rt, "segments in one thread", input, wanted, options)
}

/// The wrong reply of the first way of running a script over segments that are cut like this, if one has it. A script
/// whose segments are merged by the policy lacks its last LF.
fn difference_by_cut<R: AllocGlobal + Threads + Wait + Sync, S: EngineOver<R>, O: EngineOver<R>>(
    rt: &R,
    input: &str,
    wanted: &str,
    cut: Cut,
) -> Result<Option<String>, AllocError> {
    let unended = input.strip_suffix('\n').unwrap_or(input);
    for (workers, merge) in &WORK {
        let Some(mut options) = Options::new(*workers, cut, *merge) else {
            return Ok(Some(String::from_str(rt.alloc(), "options beyond their limits")?));
        };
        // However small a script is, its searches take a thread for each segment, up to the number of workers.
        options.worth_a_thread = 1;
        let input = if *merge == Merge::Off { input } else { unended };
        let other = difference_by::<_, S, O>(rt, input, wanted, options)?;
        if other.is_some() {
            return Ok(other);
        }
    }
    Ok(None)
}

/// The wrong reply of the first way of running a script over segments that has one.
fn difference_over_segments<
    R: AllocGlobal + Threads + Wait + Sync,
    S: EngineOver<R>,
    O: EngineOver<R>,
>(rt: &R, input: &str, wanted: &str) -> Result<Option<String>, AllocError> {
    for cut in &CUTS {
        let other = difference_by_cut::<_, S, O>(rt, input, wanted, *cut)?;
        if other.is_some() {
            return Ok(other);
        }
    }
    Ok(None)
}

/// The wrong reply of the first way of running a script that has one.
fn difference<
    R: AllocGlobal + Threads + Wait + Sync,
    L: EngineOver<R>,
    S: EngineOver<R>,
    O: EngineOver<R>,
>(rt: &R, script: &Script) -> Result<Option<String>, AllocError> {
    let input = script.input.as_str();
    let wanted = script.wanted.as_str();
    let other = run::<_, L>(rt, "a list", input, wanted, Options::default())?;
    if other.is_some() || !script.over_segments {
        return Ok(other);
    }
    difference_over_segments::<_, S, O>(rt, input, wanted)
}

/// Gives how many replies a script has, or else the wrong reply of the first way of running it that has one: over a
/// list `L`, over segments `S`, and over segments in one thread `O`.
pub(crate) fn give_replies<
    R: AllocGlobal + Threads + Wait + Sync,
    L: EngineOver<R>,
    S: EngineOver<R>,
    O: EngineOver<R>,
>(rt: &R, trial: &mut Trial, script: &Script) {
    match difference::<_, L, S, O>(rt, script) {
        Ok(None) => trial.give_number(script.replies()),
        Ok(Some(other)) => trial.give_text(other.as_str()),
        Err(AllocError) => trial.fail(Trouble::Memory),
    }
}
