// What a script reads from and writes to.
ghost use Rattle.std.specs.Prelude.{◌≡◌, ◌+◌, ◌≤◌, ◌++◌, length, IfOk, is_ok, is_err, if◌then◌else◌};
ghost use Rattle.std.specs.Io.KnownBytes.{ReadConsumes, WriteAppends, Keeps};
ghost use Rattle.fts_script.specs.Streams.{ReadsValue, WritesValue, bytes_moved, takes_none, tells_end};

/// A call of a stream failed; an interrupted call has failed like any other.
#[derive(Clone, Copy, Debug, Drop, PartialEq, Eq)]
pub struct StreamError;

/// What a script reads from, in the manner of `std::io::Read`.
pub trait ScriptIn {
    /// What calls gave so far.
    ghost calls: { Self → ReadsValue };

    /// Reads some bytes to the front of `buffer`, and says how many.
    fn read(&mut self, buffer: &mut [u8]) -> Result<usize, StreamError>
        ensures bound { IfOk result (λ n. n ≤ length buffer.new) }
        ensures given { (calls self.new).given ≡ (calls self.old).given ++ bytes_moved result buffer.new }
        ensures latest { (calls self.new).latest ≡ bytes_moved result buffer.new }
        ensures left { ReadConsumes ((calls self.old).remaining) ((calls self.new).remaining) result buffer.new }
        ensures end { (calls self.new).ends
            ≡ (if tells_end result (length buffer.new) then (calls self.old).ends + 1 else (calls self.old).ends) }
        ensures fails { (calls self.new).failed
            ≡ (if is_err result then (calls self.old).failed + 1 else (calls self.old).failed) };
}

/// What a script writes to, in the manner of `std::io::Write`.
pub trait ScriptOut {
    /// What calls took so far.
    ghost calls: { Self → WritesValue };

    /// Writes some bytes from the front of `bytes`, and says how many.
    fn write(&mut self, bytes: &[u8]) -> Result<usize, StreamError>
        ensures bound { IfOk result (λ n. n ≤ length bytes.now) }
        ensures taken { (calls self.new).taken ≡ (calls self.old).taken ++ bytes_moved result bytes.now }
        ensures held { WriteAppends ((calls self.old).held) ((calls self.new).held) result bytes.now }
        ensures fails { (calls self.new).failed
            ≡ (if takes_none result (length bytes.now) then (calls self.old).failed + 1 else (calls self.old).failed) }
        ensures flushes { (calls self.new).flushes ≡ (calls self.old).flushes }
        ensures flushed { (calls self.new).flushed ≡ (calls self.old).flushed };

    /// Hands on what was written, and waits until that is done.
    fn flush(&mut self) -> Result<(), StreamError>
        ensures taken { (calls self.new).taken ≡ (calls self.old).taken }
        ensures held { Keeps ((calls self.old).held) ((calls self.new).held) }
        ensures fails { (calls self.new).failed
            ≡ (if is_err result then (calls self.old).failed + 1 else (calls self.old).failed) }
        ensures flushes { (calls self.new).flushes
            ≡ (if is_ok result then (calls self.old).flushes + 1 else (calls self.old).flushes) }
        ensures flushed { (calls self.new).flushed
            ≡ (if is_ok result then (calls self.old).taken else (calls self.old).flushed) };
}
