// The options that `run` is given.
ghost use Rattle.std.specs.Prelude.{◌≡◌, IfSome, IsNone, None, option_map};
ghost use Rattle.clap.specs.Matches.{found_of};
ghost use Rattle.clap.specs.Walk.{first_of, one_of, rows_of};
ghost use Rattle.fts_cli.specs.RunOptions.{AreGiven, AreInRange, IsNumber, cut_asked, cut_given, given_in};
ghost use Rattle.fts_cli.specs.RunOptions.{merge_asked, number_given};

use clap::ArgMatches;
use fts_engine::{Cut, Merge, Options};
use fts_model::MOST_BUILT;

/// The number after an option, if it is given.
fn number(run: &ArgMatches, name: &str) -> Option<usize>
    requires { IfSome (one_of name.now (rows_of (found_of run.now))) IsNumber }
    ensures { result ≡ number_given name.now (rows_of (found_of run.now)) }
{
    run.get_one::<usize>(name)
}

/// The cut that `--runs` and `--deal` ask for, unless both are given.
fn cut(runs: Option<usize>, deal: Option<usize>) -> Option<Cut>
    ensures { result ≡ cut_asked runs deal }
{
    match (runs, deal) {
        (Some(_), Some(_)) => None,
        (Some(documents), None) => Some(Cut::Runs(documents)),
        (None, Some(segments)) => Some(Cut::Deal(segments)),
        (None, None) => Some(Cut::Runs(MOST_BUILT)),
    }
}

/// What `--merge` asks for.
fn merge(asked: Option<&str>) -> Merge
    ensures { result ≡ merge_asked (option_map (λ text. text.now) asked.entry) }
{
    match asked {
        Some("policy") => Merge::Policy,
        _ => Merge::Off,
    }
}

/// The options that `run` is given, and the default of each that isn't: none if both `--runs` and `--deal` are given.
fn options_of(run: &ArgMatches) -> Option<Options>
    requires { AreInRange (rows_of (found_of run.now)) }
    ensures some { IfSome result (AreGiven (rows_of (found_of run.now))) }
    ensures none { IsNone result → cut_given (rows_of (found_of run.now)) ≡ None }
{
    let workers = number(run, "workers");
    let runs = number(run, "runs");
    let deal = number(run, "deal");
    let cut = cut(runs, deal)?;
    Options::new(workers.unwrap_or(1), cut, merge(run.get_str("merge")))
}

/// The options that the words give, by clap's matches.
pub fn options(matches: &ArgMatches) -> Option<Options>
    requires { AreInRange (given_in matches.now) }
    ensures some { IfSome result (AreGiven (given_in matches.now)) }
    ensures none { IsNone result → cut_given (given_in matches.now) ≡ None }
{
    match matches.subcommand() {
        Some((_, run)) => options_of(run),
        None => Some(Options::default()),
    }
}
