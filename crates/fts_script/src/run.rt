// A run of a script: blocks of the input, until it ends.
ghost use Rattle.std.specs.Prelude.{◌≡◌, vec_len, IfOk, OnOk, OnErr, IsErrOf};
ghost use Rattle.std.specs.Io.KnownBytes.{IsAtEnd};
ghost use Rattle.fts_script.specs.Runs.{FailsNever, FailsRead, FailsWrite, Flushes, FlushesAll, GainsWritten};
ghost use Rattle.fts_script.specs.Runs.{LosesRead};
ghost use Rattle.fts_script.specs.Runs.{ReadsTooMuch, StopsInLastRead, TellsEnd, WritesBeginning, WritesEnded};
ghost use Rattle.fts_script.specs.Runs.{WritesOutput};

use crate::fault::Fault;
use crate::responder::Responder;
use crate::session::MOST_LINES;
use crate::streams::{ScriptIn, ScriptOut};
use fts_engine::{EngineOver, Options};
use std::alloc::{AllocError, Global};

/// How many bytes are read at a time.
const BLOCK: usize = 65_536;

/// The most bytes that a run reads: as many as there may be lines.
const MOST_BYTES: u64 = MOST_LINES;

/// A block of zeros. Its length is a parameter, since the proof would write out a list of 65,536.
fn zeros(alloc: Global, count: usize) -> Result<Vec<u8>, AllocError>
    ensures { IfOk result (λ block. vec_len block ≡ count) }
{
    vec![in alloc; 0; count]
}

/// Reads a script to its end, and writes its replies, whatever the options and the engine are.
pub fn run_script<G: AllocGlobal + Sync, E: EngineOver<G>, R: ScriptIn, W: ScriptOut>(
    rt: &G,
    reader: &mut R,
    writer: &mut W,
    options: Options,
) -> Result<(), Fault>
    ensures ok { OnOk result (WritesOutput
        (R.calls reader.old, W.calls writer.old) (R.calls reader.new, W.calls writer.new)) }
    ensures end { OnOk result (TellsEnd (R.calls reader.old) (R.calls reader.new)) }
    ensures flushed { OnOk result (Flushes (W.calls writer.old) (W.calls writer.new)) }
    ensures flushed_all { OnOk result (FlushesAll (W.calls writer.new)) }

    // If the bytes that the reader has left and those that the writer holds are known, they are what was read and
    // written.
    ensures left { LosesRead (R.calls reader.old) (R.calls reader.new) }
    ensures held { GainsWritten (W.calls writer.old) (W.calls writer.new) }
    ensures nothing_left { TellsEnd (R.calls reader.old) (R.calls reader.new) → IsAtEnd (R.calls reader.new).remaining }

    ensures err { OnErr result (WritesBeginning
        (R.calls reader.old, W.calls writer.old) (R.calls reader.new, W.calls writer.new)) }
    ensures memory { IsErrOf result Fault.Memory → StopsInLastRead
        (R.calls reader.old, W.calls writer.old) (R.calls reader.new, W.calls writer.new) }
    ensures read { IsErrOf result Fault.Read → WritesEnded
        (R.calls reader.old, W.calls writer.old) (R.calls reader.new, W.calls writer.new) }

    // At most one call fails, and the run's fault names it.
    ensures none_failed { OnOk result (FailsNever
        (R.calls reader.old, W.calls writer.old) (R.calls reader.new, W.calls writer.new)) }
    ensures memory_alone { IsErrOf result Fault.Memory → FailsNever
        (R.calls reader.old, W.calls writer.old) (R.calls reader.new, W.calls writer.new) }
    ensures used_up_alone { IsErrOf result Fault.StampsUsedUp → FailsNever
        (R.calls reader.old, W.calls writer.old) (R.calls reader.new, W.calls writer.new) }
    ensures read_failed { IsErrOf result Fault.Read → FailsRead
        (R.calls reader.old, W.calls writer.old) (R.calls reader.new, W.calls writer.new) }
    ensures write_failed { IsErrOf result Fault.Write → FailsWrite
        (R.calls reader.old, W.calls writer.old) (R.calls reader.new, W.calls writer.new) }
    ensures used_up { IsErrOf result Fault.StampsUsedUp → ReadsTooMuch
        (R.calls reader.old, W.calls writer.old) (R.calls reader.new, W.calls writer.new) }
{
    let alloc = rt.alloc();
    let mut block = zeros(alloc, BLOCK)?;
    let block = block.as_mut_slice();
    let mut responder = Responder::<E>::new(alloc, options);
    let mut count = 0;
    'reads: loop {
        match reader.read(block) {
            Ok(0) => return responder.end(rt, writer),
            Ok(n) => {
                if n as u64 > MOST_BYTES - count {
                    responder.close(rt);
                    return Err(Fault::StampsUsedUp);
                }
                count += n as u64;
                match responder.feed(rt, &block[..n], writer) {
                    Ok(()) => {}
                    Err(fault) => {
                        responder.close(rt);
                        return Err(fault);
                    }
                }
            }
            Err(_) => {
                responder.close(rt);
                return Err(Fault::Read);
            }
        }
    }
}
