// The command line, as clap reads it.
ghost use Rattle.std.specs.Prelude.{◌≡◌, IfOk, false, map, string_bytes};
ghost use Rattle.clap.specs.Simple.{app_of};
ghost use Rattle.clap.specs.Walk.{rule_of};
ghost use Rattle.clap.specs.declared.builder.command.Command.TheViews.{out-Command};
ghost use Rattle.fts_cli.specs.Arguments.{Parses};
ghost use Rattle.fts_cli.specs.RunOptions.{Places, option_rule, run_command};

use clap::builder::ValueParser;
use clap::{Arg, ArgMatches, Command, Error};
use fts_model::MOST_BUILT;
use std::alloc::{AllocError, Global};

/// The version. The file VERSION has it too: a test compares them.
const VERSION: &str = "0.2.0";

/// The values of `--merge`.
static MERGES: [&str; 2] = ["off", "policy"];

/// The end of the help of `run`.
const EXAMPLE: &str = r#"A script of four lines, and a reply for each:

  fts run <<'END'
  {"schema":[{"name":"title","kind":"text","default":true},{"name":"year","kind":"u64"}]}
  {"add":{"title":"Programming Pearls","year":1986}}
  {"commit":true}
  {"search":{"query":"pearls OR year:>=2000"}}
  END

docs/SCRIPT.md has every command, reply and limit, docs/QUERIES.md the query language;
after 'make install' they are in share/doc/dilforec, and 'man fts' names them."#;

/// An option that takes one value. `help` says what its value is called and what it does.
fn option<'a>(
    alloc: Global,
    name: &'a str,
    value: &'a str,
    parser: ValueParser<'a>,
    help: &'a str,
) -> Arg<'a>
    ensures rule { rule_of result ≡ option_rule name.entry.now parser.entry }
    ensures local { result.global ≡ false }
{
    Arg::new(alloc, name)
        .long(name)
        .value_name(value)
        .value_parser(parser)
        .help(help)
}

/// The subcommand `run`.
fn run<'a>(alloc: Global) -> Result<Command<'a>, AllocError>
    ensures { IfOk result (λ run. (places : Places) × (app_of run ≡ run_command places)
        × ((out-Command run).has_globals ≡ false)) }
{
    let workers = option(
        alloc,
        "workers",
        "N",
        ValueParser::Unsigned(1, 64),
        "How many threads commit, merge and search, 1 to 64 [default: 1]",
    );
    let runs = option(
        alloc,
        "runs",
        "N",
        ValueParser::Unsigned(1, MOST_BUILT as u64),
        // The words of help are literals, so they name the limit once more.
        "A segment takes N adds in a row, 1 to 65536 [default: 65536]",
    );
    let deal = option(
        alloc,
        "deal",
        "M",
        ValueParser::Unsigned(1, 64),
        "M segments take the adds in turn, 1 to 64; not together with --runs",
    );
    let merge = option(
        alloc,
        "merge",
        "WHEN",
        ValueParser::Names(MERGES.as_slice()),
        "When segments are merged: never, or as the merge policy says [default: off]",
    );
    let about = "Runs the script on standard input, a command a line, and writes a reply for each";
    let run = Command::new(alloc, "run").about(about).after_help(EXAMPLE);
    run.arg(workers)?.arg(runs)?.arg(deal)?.arg(merge)
}

/// What clap makes of the words.
pub fn parse<'a>(alloc: Global, words: &'a [String]) -> Result<ArgMatches<'a>, Error>
    ensures { Parses (map string_bytes words.entry.now) result }
{
    let fts = Command::new(alloc, "fts")
        .about("A full-text index over JSON documents")
        .version(VERSION)
        .subcommand_required(true)
        .subcommand(run(alloc)?)?;
    fts.try_get_matches_from(words)
}
