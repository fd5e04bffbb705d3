// The exit status of the program.
ghost use Rattle.std.specs.Prelude.{◌≡◌};
ghost use Rattle.fts_cli.specs.Arguments.{arg_status_of, run_status_of, status_of};

use crate::args::ArgFault;
use fts_script::Fault;

/// The exit status of a run that stopped.
pub fn status(fault: &Fault) -> u8
    ensures { result ≡ status_of fault.now }
{
    match fault {
        Fault::Memory => 3,
        Fault::Read | Fault::Write => 4,
        Fault::StampsUsedUp => 5,
    }
}

/// The exit status of a run.
pub fn run_status(outcome: &Result<(), Fault>) -> u8
    ensures { result ≡ run_status_of outcome.now }
{
    match outcome {
        Ok(()) => 0,
        Err(fault) => status(fault),
    }
}

/// The exit status of arguments that were refused.
pub fn arg_status(fault: &ArgFault) -> u8
    ensures { result ≡ arg_status_of fault.now }
{
    match fault {
        ArgFault::Usage(_) => 2,
        ArgFault::Memory => 3,
    }
}
