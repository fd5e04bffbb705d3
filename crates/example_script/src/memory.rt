// Streams in memory: a text is read, and what is written is collected.
ghost use Rattle.std.specs.Prelude.{◌≡◌, [], Some};

use dilforec::script::{GhostBytes, GhostCount, ScriptIn, ScriptOut, StreamError};
use std::alloc::Global;

/// A text that is read.
#[derive(Drop)]
pub struct Lines<'a> {
    rest: &'a [u8],
    given: GhostBytes,
    latest: GhostBytes,
    ends: GhostCount,
}

impl<'a> Lines<'a> {
    /// A reader of a text, before its first byte.
    pub fn over(text: &'a [u8]) -> Lines<'a>
        ensures rest { result.rest.now ≡ text.now }
        ensures given { result.given.bytes ≡ [] }
        ensures ends { result.ends ≡ 0 }
    {
        Lines {
            rest: text,
            given: GhostBytes::none(),
            latest: GhostBytes::none(),
            ends: GhostCount::zero(),
        }
    }
}

impl<'a> ScriptIn for Lines<'a> {
    ghost calls = { λ l. record {
      given = l.given.bytes;
      latest = l.latest.bytes;
      remaining = Some l.rest.now;
      ends = l.ends;
      failed = 0;
    } };

    fn read(&mut self, buffer: &mut [u8]) -> Result<usize, StreamError> {
        let n = self.rest.len().min(buffer.len());
        let (front, rest) = self.rest.split_at(n);
        buffer[..n].copy_from_slice(front);
        self.rest = rest;
        self.latest = GhostBytes::none().and(front);
        self.given = self.given.and(front);
        if n == 0 && !buffer.is_empty() {
            self.ends = self.ends.and_one();
        }
        Ok(n)
    }
}

/// What was written.
#[derive(Drop)]
pub struct Replies {
    bytes: Vec<u8>,
    failed: GhostCount,
    flushes: GhostCount,
    flushed: GhostBytes,
}

impl Replies {
    /// A writer that has taken no byte yet.
    pub fn new(alloc: Global) -> Replies
        ensures bytes { result.bytes.items ≡ [] }
        ensures failed { result.failed ≡ 0 }
    {
        Replies {
            bytes: Vec::new(alloc),
            failed: GhostCount::zero(),
            flushes: GhostCount::zero(),
            flushed: GhostBytes::none(),
        }
    }

    /// The bytes that were written.
    pub fn into_bytes(self) -> Vec<u8>
        ensures { result ≡ self.bytes }
    {
        self.bytes
    }
}

impl ScriptOut for Replies {
    ghost calls = { λ r. record {
      taken = r.bytes.items;
      held = Some r.bytes.items;
      failed = r.failed;
      flushes = r.flushes;
      flushed = r.flushed.bytes;
    } };

    fn write(&mut self, bytes: &[u8]) -> Result<usize, StreamError> {
        match self.bytes.extend_from_slice(bytes) {
            Ok(()) => Ok(bytes.len()),
            Err(_) => {
                self.failed = self.failed.and_one();
                Err(StreamError)
            }
        }
    }

    fn flush(&mut self) -> Result<(), StreamError> {
        self.flushes = self.flushes.and_one();
        self.flushed = GhostBytes::none().and(&self.bytes);
        Ok(())
    }
}
