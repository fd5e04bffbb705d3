// Command lines, each a text whose words are one space apart, with what the program makes of them.
use dilforec::Cut;
use dilforec::script::{ArgFault, Asked, Fault, Merge, arg_status, args, status};
use std::alloc::Global;
use std::test::Fail;

/// Runs, with their workers, cuts and merges.
static RUNS: [(&str, usize, Cut, Merge); 9] = [
    ("fts run", 1, Cut::Runs(65_536), Merge::Off),
    ("fts run --workers 1", 1, Cut::Runs(65_536), Merge::Off),
    ("fts run --workers=64", 64, Cut::Runs(65_536), Merge::Off),
    ("fts run --runs 1", 1, Cut::Runs(1), Merge::Off),
    ("fts run --runs 65536", 1, Cut::Runs(65_536), Merge::Off),
    ("fts run --deal 1", 1, Cut::Deal(1), Merge::Off),
    ("fts run --deal=64", 1, Cut::Deal(64), Merge::Off),
    ("fts run --merge off", 1, Cut::Runs(65_536), Merge::Off),
    (
        "fts run --merge policy --deal 3 --workers 2",
        2,
        Cut::Deal(3),
        Merge::Policy,
    ),
];

/// Requests for help, with what it says.
static HELP: [(&str, &[&str]); 4] = [
    ("fts help", OF_FTS),
    ("fts --help", OF_FTS),
    ("fts -h", OF_FTS),
    (
        "fts run --help",
        &[
            "Usage: fts run [OPTIONS]",
            "--workers <N>",
            "--runs <N>",
            "--deal <M>",
            "--merge <WHEN>",
            "[possible values: off, policy]",
            "fts run <<'END'\n",
            "docs/SCRIPT.md",
        ],
    ),
];

/// What the help of the program says.
const OF_FTS: &[&str] = &["Usage: fts <COMMAND>", "Runs the script on standard input"];

/// Command lines that are wrong, with what the program says of them.
static WRONG: [(&str, &str); 14] = [
    ("fts", "requires a subcommand"),
    ("fts", "'fts run --help' shows one"),
    ("fts walk", "unrecognized subcommand 'walk'"),
    ("fts run --fast", "unexpected argument '--fast'"),
    ("fts run now", "unexpected argument 'now'"),
    (
        "fts run --workers 0",
        "invalid value '0' for '--workers <N>': 0 is not in 1..=64",
    ),
    (
        "fts run --workers 65",
        "invalid value '65' for '--workers <N>': 65 is not in 1..=64",
    ),
    (
        "fts run --runs 0",
        "invalid value '0' for '--runs <N>': 0 is not in 1..=65536",
    ),
    (
        "fts run --runs 65537",
        "invalid value '65537' for '--runs <N>': 65537 is not in 1..=65536",
    ),
    (
        "fts run --deal 0",
        "invalid value '0' for '--deal <M>': 0 is not in 1..=64",
    ),
    (
        "fts run --deal 65",
        "invalid value '65' for '--deal <M>': 65 is not in 1..=64",
    ),
    (
        "fts run --merge sometimes",
        "invalid value 'sometimes' for '--merge <WHEN>'",
    ),
    (
        "fts run --runs 3 --deal 2",
        "error: the argument '--runs <N>' cannot be used with '--deal <M>'\n\nUsage: fts run",
    ),
    // A fault that clap finds is reported first.
    (
        "fts run --runs 3 --deal 2 --fast",
        "unexpected argument '--fast'",
    ),
];

/// What a line asks for.
fn asked(alloc: Global, line: &str) -> Result<Result<Asked, ArgFault>, Fail> {
    let mut words = Vec::new(alloc);
    for word in line.split(' ') {
        words.push(String::from_str(alloc, word)?)?;
    }
    Ok(args(alloc, words))
}

/// Whether a line asks for a run with this many workers, this cut and these merges.
fn runs_with(alloc: Global, line: &str, wanted: (usize, Cut, Merge)) -> Result<bool, Fail> {
    match asked(alloc, line)? {
        Ok(Asked::Run(options)) => Ok((options.workers, options.cut, options.merge) == wanted),
        _ => Ok(false),
    }
}

#[test]
fn runs(rt: HostRuntime) -> Result<(), Fail> {
    for (line, workers, cut, merge) in &RUNS {
        if !runs_with(rt.alloc(), line, (*workers, *cut, *merge))? {
            return Err(Fail::from(*line));
        }
    }
    Ok(())
}

/// The text that a line asks for.
fn told(alloc: Global, line: &str) -> Result<String, Fail> {
    match asked(alloc, line)? {
        Ok(Asked::Help(text)) => Ok(text),
        _ => Err(Fail::from("no text")),
    }
}

/// Whether a line asks for a text with all of these parts.
fn tells(alloc: Global, line: &str, parts: &[&str]) -> Result<bool, Fail> {
    let text = told(alloc, line)?;
    for part in parts {
        if !text.as_str().contains(*part) {
            return Ok(false);
        }
    }
    Ok(true)
}

#[test]
fn help(rt: HostRuntime) -> Result<(), Fail> {
    for (line, parts) in &HELP {
        if !tells(rt.alloc(), line, parts)? {
            return Err(Fail::from(*line));
        }
    }
    Ok(())
}

#[test]
fn version(rt: HostRuntime) -> Result<(), Fail> {
    for line in ["fts --version", "fts -V"] {
        if told(rt.alloc(), line)?.as_str() != "fts 0.2.0\n" {
            return Err(Fail::from(line));
        }
    }
    Ok(())
}

/// Whether a line is refused with the exit status 2, by a text that says this and how to get help.
fn complains(alloc: Global, line: &str, wrong: &str) -> Result<bool, Fail> {
    let Err(fault) = asked(alloc, line)? else {
        return Ok(false);
    };
    let text = fault.to_string(alloc)?;
    let text = text.as_str();
    Ok(arg_status(&fault) == 2 && text.contains(wrong) && text.contains("try '--help'"))
}

#[test]
fn usage(rt: HostRuntime) -> Result<(), Fail> {
    for (line, wrong) in &WRONG {
        if !complains(rt.alloc(), line, wrong)? {
            return Err(Fail::from(*line));
        }
    }
    Ok(())
}

#[test]
fn statuses(rt: HostRuntime) {
    assert_eq!(rt; arg_status(&ArgFault::Memory), 3);
    for (fault, wanted) in [
        (Fault::Memory, 3),
        (Fault::Read, 4),
        (Fault::Write, 4),
        (Fault::StampsUsedUp, 5),
    ] {
        assert_eq!(rt; status(&fault), wanted);
    }
}
