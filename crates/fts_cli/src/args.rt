// The command line.
ghost use Rattle.std.specs.Prelude.{◌≡◌, IfOk, IfErr, map, string_bytes};
ghost use Rattle.fts_cli.specs.Arguments.{Asks, Refuses};
ghost use Rattle.fts_cli.specs.declared.args.ArgFault.TheVariants.{Memory};

use crate::options::options;
use crate::parser::parse;
use clap::error::ErrorKind;
use fts_engine::Options;
use std::alloc::{AllocError, Global};
use thiserror::Error;

/// The message for `--runs` and `--deal` together, in clap's words for options that exclude each other.
const TWO_CUTS: &str = "error: the argument '--runs <N>' cannot be used with '--deal <M>'\n\n\
    Usage: fts run [OPTIONS]\n\nFor more information, try '--help'.\n";

/// What the command line asks for.
#[derive(Debug, Drop)]
pub enum Asked {
    /// A run of the script on standard input.
    Run(Options),
    /// This text is printed: help, or the version.
    Help(String),
}

/// Why the command line asks for nothing.
#[derive(Debug, Drop, Error)]
pub enum ArgFault {
    /// A growth was refused.
    #[error("out of memory\n")]
    Memory,
    /// The words are no command, or give both `--runs` and `--deal`; the text says what is wrong, and how to get help.
    #[error("{0}")]
    Usage(String),
}

impl From<AllocError> for ArgFault {
    ghost from_gives = { λ _ fault. fault ≡ Memory };

    fn from(_: AllocError) -> Self {
        ArgFault::Memory
    }
}

/// What is wrong, as clap says it, and how a script is run if no subcommand is given.
fn complaint(alloc: Global, error: &clap::Error) -> Result<String, AllocError> {
    let mut text = error.to_string(alloc)?;
    if matches!(error.kind(), ErrorKind::MissingSubcommand) {
        text.push_str("\n'fts run' runs a script; 'fts run --help' shows one.\n")?;
    }
    Ok(text)
}

/// Reads the words of a command line. The first is the program's name.
pub fn args(alloc: Global, words: Vec<String>) -> Result<Asked, ArgFault>
    ensures ok { IfOk result (Asks (map string_bytes words.items)) }
    ensures err { IfErr result (Refuses (map string_bytes words.items)) }
{
    match parse(alloc, words.as_slice()) {
        Ok(matches) => match options(&matches) {
            Some(options) => Ok(Asked::Run(options)),
            None => Err(ArgFault::Usage(String::from_str(alloc, TWO_CUTS)?)),
        },
        Err(error) => match error.kind() {
            ErrorKind::OutOfMemory => Err(ArgFault::Memory),
            ErrorKind::DisplayHelp | ErrorKind::DisplayVersion => {
                Ok(Asked::Help(error.to_string(alloc)?))
            }
            _ => Err(ArgFault::Usage(complaint(alloc, &error)?)),
        },
    }
}
