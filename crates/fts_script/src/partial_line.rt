// The current line, if a block of the input ends within it.
ghost use Rattle.std.specs.Prelude.{◌≡◌, ◌≤◌, ◌&&◌, ◌↔◌, false, None, [], length, IsTrue, OnOk, OnErr};
ghost use Rattle.std.specs.List.{prefix_len};
ghost use Rattle.fts_script.specs.session.Text.{is_white, is_blank};
ghost use Rattle.fts_script.specs.command.Commands.{longest};
ghost use Rattle.fts_script.specs.session.KeptLines.{bytes_in, grown, is_blank_kept, kept_line, too_long_in};

use crate::session::{is_blank, is_white};
use std::alloc::{AllocError, Global};
use std::marker::Model;

/// The most bytes of a line, before its LF.
pub const LONGEST: usize = 4_194_304;

/// How many spaces, tabs and CRs a line begins with.
fn count_white(line: &[u8]) -> usize
    ensures value { result ≡ prefix_len is_white line.now }
    ensures within { result ≤ length line.now }
{
    line.iter().take_while(|byte| is_white(**byte)).count()
}

/// Whether a line that was blank so far is still blank with this piece after it.
fn stays_blank(blank: bool, piece: &[u8]) -> bool
    ensures { result ≡ (blank && is_blank piece.now) }
{
    blank && is_blank(piece)
}

/// An unfinished line, without its LF. One buffer is reused for all lines.
#[derive(Drop)]
pub struct PartialLine {
    /// How many spaces, tabs and CRs it begins with. They have no effect on the reply, and aren't stored.
    white: usize,
    /// What follows the white space, unless the line is too long.
    bytes: Vec<u8>,
    /// Whether the line is blank so far, once it is longer than a line may be.
    too_long: Option<bool>,
}

impl Model for PartialLine {
    ghost use Rattle.std.specs.Prelude.{◌≡◌, ◌+◌, ◌≤◌, vec_len};
    ghost use Rattle.std.specs.List.{prefix_len};
    ghost use Rattle.fts_script.specs.session.Text.{is_white};
    ghost use Rattle.fts_script.specs.command.Commands.{longest};
    ghost use Rattle.fts_script.specs.session.KeptLines.{KeptLine, kept_in};

    ghost Value = { KeptLine };

    ghost view = { λ p. kept_in p.too_long p.white p.bytes.items };

    ghost invariant = { λ p. (p.white + vec_len p.bytes ≤ longest) × (prefix_len is_white p.bytes.items ≡ 0) };
}

impl PartialLine {
    /// An unfinished line without a byte.
    pub fn new(alloc: Global) -> PartialLine
        ensures { result ≡ kept_line [] }
    {
        PartialLine {
            white: 0,
            bytes: Vec::new(alloc),
            too_long: None,
        }
    }

    /// Whether no byte of the line came yet.
    pub fn is_empty(&self) -> bool
        ensures { IsTrue result ↔ (self.now ≡ kept_line []) }
    {
        self.too_long.is_none() && self.white == 0 && self.bytes.is_empty()
    }

    /// Appends a piece of the line.
    pub fn grow(&mut self, piece: &[u8]) -> Result<(), AllocError>
        ensures ok { OnOk result (self.new ≡ grown self.old piece.now) }
        ensures not_blank { OnErr result (is_blank_kept (grown self.old piece.now) ≡ false) }
    {
        match self.too_long {
            Some(blank) => self.too_long = Some(stays_blank(blank, piece)),
            None => {
                if self.white + self.bytes.len() + piece.len() <= LONGEST {
                    if self.bytes.is_empty() {
                        let white = count_white(piece);
                        self.bytes.extend_from_slice(&piece[white..])?;
                        self.white += white;
                    } else {
                        self.bytes.extend_from_slice(piece)?;
                    }
                } else {
                    self.too_long = Some(stays_blank(is_blank(&self.bytes), piece));
                    self.bytes.clear();
                }
            }
        }
        Ok(())
    }

    /// Whether the line is blank, once it is longer than a line may be.
    pub fn too_long(&self) -> Option<bool>
        ensures { result ≡ too_long_in self.now }
    {
        self.too_long
    }

    /// The bytes after the white space that the line begins with.
    pub fn bytes(&self) -> &[u8]
        requires { too_long_in self.now ≡ None }
        ensures value { result.now ≡ bytes_in self.now }
        ensures fits_line { length result.now ≤ longest }
    {
        self.bytes.as_slice()
    }

    /// Empties it for the next line.
    pub fn clear(&mut self)
        ensures { self.new ≡ kept_line [] }
    {
        self.white = 0;
        self.bytes.clear();
        self.too_long = None;
    }
}
