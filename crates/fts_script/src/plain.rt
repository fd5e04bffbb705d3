// Readers and writers of std as streams of a script.
ghost use Rattle.std.specs.Prelude.{◌≡◌, []};

use crate::streams::{ScriptIn, ScriptOut, StreamError};
use fts_base::{GhostBytes, GhostCount};
use std::io::{Read, Write};

/// A reader or writer of std. Contracts see the bytes and the counts of its calls.
#[derive(Drop)]
pub struct Plain<T> {
    inner: T,
    moved: GhostBytes,
    latest: GhostBytes,
    ends: GhostCount,
    failed: GhostCount,
    flushes: GhostCount,
    flushed: GhostBytes,
}

impl<T> Plain<T> {
    /// A stream before its first call.
    pub fn new(inner: T) -> Self
        ensures inner { result.inner ≡ inner }
        ensures moved { result.moved.bytes ≡ [] }
        ensures ends { result.ends ≡ 0 }
        ensures failed { result.failed ≡ 0 }
        ensures flushes { result.flushes ≡ 0 }
        ensures flushed { result.flushed.bytes ≡ [] }
    {
        Plain {
            inner,
            moved: GhostBytes::none(),
            latest: GhostBytes::none(),
            ends: GhostCount::zero(),
            failed: GhostCount::zero(),
            flushes: GhostCount::zero(),
            flushed: GhostBytes::none(),
        }
    }

    /// The reader or writer itself.
    pub fn into_inner(self) -> T
        ensures { result ≡ self.inner }
    {
        self.inner
    }
}

impl<T: Read> ScriptIn for Plain<T> {
    ghost calls = { λ p. record {
      given = p.moved.bytes;
      latest = p.latest.bytes;
      remaining = T.remaining p.inner;
      ends = p.ends;
      failed = p.failed;
    } };

    fn read(&mut self, buffer: &mut [u8]) -> Result<usize, StreamError> {
        self.latest = GhostBytes::none();
        match self.inner.read(buffer) {
            Ok(n) => {
                self.latest = self.latest.and(&buffer[..n]);
                self.moved = self.moved.and(&buffer[..n]);
                if n == 0 && !buffer.is_empty() {
                    self.ends = self.ends.and_one();
                }
                Ok(n)
            }
            Err(_) => {
                self.failed = self.failed.and_one();
                Err(StreamError)
            }
        }
    }
}

impl<T: Write> ScriptOut for Plain<T> {
    ghost calls = { λ p. record {
      taken = p.moved.bytes;
      held = T.contents p.inner;
      failed = p.failed;
      flushes = p.flushes;
      flushed = p.flushed.bytes;
    } };

    fn write(&mut self, bytes: &[u8]) -> Result<usize, StreamError> {
        match self.inner.write(bytes) {
            Ok(n) => {
                self.moved = self.moved.and(&bytes[..n]);
                if n == 0 && !bytes.is_empty() {
                    self.failed = self.failed.and_one();
                }
                Ok(n)
            }
            Err(_) => {
                self.failed = self.failed.and_one();
                Err(StreamError)
            }
        }
    }

    fn flush(&mut self) -> Result<(), StreamError> {
        match self.inner.flush() {
            Ok(()) => {
                self.flushes = self.flushes.and_one();
                self.flushed = self.moved.and(&[]);
                Ok(())
            }
            Err(_) => {
                self.failed = self.failed.and_one();
                Err(StreamError)
            }
        }
    }
}
