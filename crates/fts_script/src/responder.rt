// A script that is under way: the current line, the commands so far, and the replies that wait.
ghost use Rattle.std.specs.Prelude.{ℕ, ◌≡◌, ◌+◌, ◌^◌, ◌<◌, ◌≤◌, ◌++◌, false, List, [], length, take, string_bytes};
ghost use Rattle.std.specs.Prelude.{IfOk, OnOk, OnErr, IsErrOf};
ghost use Rattle.fts_script.specs.Streams.{GainsTaken, Wrote};
ghost use Rattle.fts_script.specs.session.Text.{lines_of, HasNoEnd};
ghost use Rattle.fts_script.specs.command.Commands.{longest};
ghost use Rattle.fts_script.specs.session.KeptLines.{after_kept, grown, is_blank_kept, kept_line, reply_to_kept};
ghost use Rattle.fts_script.specs.session.Outputs.{start, output};
ghost use Rattle.fts_script.specs.Stops.{BeginsOutput, BeginsWith, IsWritten, StopsAfter, StopsFirst};
ghost use Rattle.fts_script.specs.Responders.{Finishes, Advances, AdvancesToStop, RunState};

use crate::fault::Fault;
use crate::partial_line::PartialLine;
use crate::session::Session;
use crate::streams::ScriptOut;
use fts_engine::{Engine, EngineOver, Options};
use memchr::memchr;
use std::alloc::{AllocError, Global};

/// A line is answered only while fewer bytes of replies than this wait to be written.
const MOST_UNSENT: usize = 65_536;

/// Writes the replies that wait, and empties them.
fn send<W: ScriptOut>(writer: &mut W, replies: &mut String) -> Result<(), Fault>
    ensures ok { OnOk result
        ((W.calls writer.new).taken ≡ (W.calls writer.old).taken ++ string_bytes replies.old) }
    ensures none_wait { OnOk result (string_bytes replies.new ≡ []) }
    ensures err { OnErr result ((n : ℕ)
        × ((W.calls writer.new).taken ≡ (W.calls writer.old).taken ++ take n (string_bytes replies.old))) }
    ensures held { GainsTaken ((W.calls writer.old).taken) ((W.calls writer.new).taken) ((W.calls writer.old).held)
        ((W.calls writer.new).held) }
    ensures write { OnErr result (result ≡ Err Fault.Write) }
    ensures fails { OnErr result ((W.calls writer.new).failed ≡ (W.calls writer.old).failed + 1) }
    ensures none_fails { OnOk result ((W.calls writer.new).failed ≡ (W.calls writer.old).failed) }
    ensures flushes { (W.calls writer.new).flushes ≡ (W.calls writer.old).flushes }
{
    let bytes = replies.as_bytes();
    let mut at = 0;
    while at < bytes.len() {
        match writer.write(&bytes[at..]) {
            Ok(0) => return Err(Fault::Write),
            Ok(n) => at += n,
            Err(_) => return Err(Fault::Write),
        }
    }
    replies.clear();
    Ok(())
}

/// Writes the last replies, and flushes all.
fn send_last<W: ScriptOut>(writer: &mut W, replies: &mut String) -> Result<(), Fault>
    ensures flushed_all { OnOk result ((W.calls writer.new).flushed ≡ (W.calls writer.new).taken) }
    ensures flushed { OnOk result ((W.calls writer.old).flushes < (W.calls writer.new).flushes) }
    ensures ok { OnOk result
        ((W.calls writer.new).taken ≡ (W.calls writer.old).taken ++ string_bytes replies.old) }
    ensures err { OnErr result ((n : ℕ)
        × ((W.calls writer.new).taken ≡ (W.calls writer.old).taken ++ take n (string_bytes replies.old))) }
    ensures held { GainsTaken ((W.calls writer.old).taken) ((W.calls writer.new).taken) ((W.calls writer.old).held)
        ((W.calls writer.new).held) }
    ensures write { OnErr result (result ≡ Err Fault.Write) }
    ensures fails { OnErr result ((W.calls writer.new).failed ≡ (W.calls writer.old).failed + 1) }
    ensures none_fails { OnOk result ((W.calls writer.new).failed ≡ (W.calls writer.old).failed) }
{
    send(writer, replies)?;
    match writer.flush() {
        Ok(()) => Ok(()),
        Err(_) => Err(Fault::Write),
    }
}

/// Answers a script that comes in pieces. It is ended by `end`, `close` or a fault.
pub struct Responder<E: Engine> {
    session: Session<E>,
    /// The current line.
    line: PartialLine,
    /// The replies that wait to be written.
    replies: String,
}

impl<E: Engine> Responder<E> {
    /// A responder before the first piece.
    pub fn new(alloc: Global, options: Options) -> Responder<E>
        ensures session { result.session.script ≡ start }
        ensures line { result.line ≡ kept_line [] }
        ensures none_wait { string_bytes result.replies ≡ [] }
    {
        Responder {
            session: Session::new(options),
            line: PartialLine::new(alloc),
            replies: String::new(alloc),
        }
    }

    /// Replies to the current line, which is complete now, and begins the next.
    fn answer<R: AllocGlobal + Sync>(&mut self, rt: &R) -> Result<(), AllocError>
    where
        E: EngineOver<R>,
        requires line_number_fits { self.old.session.script.number ≤ 2 ^ 61 }
        ensures reply { OnOk result (string_bytes self.new.replies
            ≡ string_bytes self.old.replies ++ reply_to_kept self.old.session.script self.old.line) }
        ensures script { OnOk result (self.new.session.script
            ≡ after_kept self.old.session.script self.old.line) }
        ensures next { OnOk result (self.new.line ≡ kept_line []) }
        ensures err { OnErr result (string_bytes self.new.replies ≡ string_bytes self.old.replies) }
        ensures kept { OnErr result (self.new.session.script ≡ self.old.session.script) }
        ensures not_blank { OnErr result (is_blank_kept self.old.line ≡ false) }
        ensures lines_counted { self.new.session.script.number ≤ self.old.session.script.number + 1 }
    {
        match self.line.too_long() {
            Some(blank) => {
                self.session
                    .answer_too_long(rt.alloc(), blank, &mut self.replies)?;
            }
            None => self
                .session
                .answer(rt, self.line.bytes(), &mut self.replies)?,
        }
        self.line.clear();
        Ok(())
    }

    /// Replies to the line that ends with `piece`.
    fn end_line<R: AllocGlobal + Sync>(&mut self, rt: &R, piece: &[u8]) -> Result<(), AllocError>
    where
        E: EngineOver<R>,
        requires line_number_fits { self.old.session.script.number ≤ 2 ^ 61 }
        requires fits_line { length piece.now ≤ longest }
        ensures reply { OnOk result (string_bytes self.new.replies ≡ string_bytes self.old.replies
            ++ reply_to_kept self.old.session.script (grown self.old.line piece.now)) }
        ensures script { OnOk result (self.new.session.script
            ≡ after_kept self.old.session.script (grown self.old.line piece.now)) }
        ensures next { OnOk result (self.new.line ≡ kept_line []) }
        ensures err { OnErr result (string_bytes self.new.replies ≡ string_bytes self.old.replies) }
        ensures kept { OnErr result (self.new.session.script ≡ self.old.session.script) }
        ensures not_blank { OnErr result (is_blank_kept (grown self.old.line piece.now) ≡ false) }
        ensures lines_counted { self.new.session.script.number ≤ self.old.session.script.number + 1 }
    {
        if self.line.is_empty() {
            // The line is complete in its block, and is read there.
            return self.session.answer(rt, piece, &mut self.replies);
        }
        self.line.grow(piece)?;
        self.answer(rt)
    }

    /// Takes the bytes up to the end of a line, or all if none ends, and returns how many.
    fn take_line<R: AllocGlobal + Sync>(
        &mut self,
        rt: &R,
        bytes: &[u8],
    ) -> Result<usize, AllocError>
    where
        E: EngineOver<R>,
        requires line_number_fits { self.old.session.script.number ≤ 2 ^ 61 }
        requires some { 0 < length bytes.now }
        requires fits_line { length bytes.now ≤ longest }
        ensures some { IfOk result (λ n. 0 < n) }
        ensures bound { IfOk result (λ n. n ≤ length bytes.now) }
        ensures ok { IfOk result (λ n.
            Advances self.old.session.script self.new.session.script self.old.line self.new.line
            (take n bytes.now) (string_bytes self.old.replies) (string_bytes self.new.replies)) }
        ensures err { OnErr result (string_bytes self.new.replies ≡ string_bytes self.old.replies) }
        ensures kept { OnErr result (self.new.session.script ≡ self.old.session.script) }
        ensures not_blank { OnErr result ((start : List ℕ) → self.old.line ≡ kept_line start →
            HasNoEnd start → IsWritten (lines_of (start ++ bytes.now))) }
        ensures lines_counted { self.new.session.script.number ≤ self.old.session.script.number + 1 }
    {
        match memchr(b'\n', bytes) {
            Some(end) => {
                self.end_line(rt, &bytes[..end])?;
                Ok(end + 1)
            }
            None => {
                self.line.grow(bytes)?;
                Ok(bytes.len())
            }
        }
    }

    /// Takes lines until the bytes are used up or many replies wait, and returns how many bytes it took.
    fn take_lines<R: AllocGlobal + Sync>(
        &mut self,
        rt: &R,
        bytes: &[u8],
    ) -> Result<usize, AllocError>
    where
        E: EngineOver<R>,
        requires line_number_fits { self.old.session.script.number + length bytes.now ≤ 2 ^ 61 }
        requires some { 0 < length bytes.now }
        requires fits_line { length bytes.now ≤ longest }
        requires none_wait { string_bytes self.old.replies ≡ [] }
        ensures some { IfOk result (λ n. 0 < n) }
        ensures bound { IfOk result (λ n. n ≤ length bytes.now) }
        ensures ok { IfOk result (λ n.
            Advances self.old.session.script self.new.session.script self.old.line self.new.line
            (take n bytes.now) [] (string_bytes self.new.replies)) }
        ensures err { OnErr result (AdvancesToStop self.old.session.script self.new.session.script self.old.line
            bytes.now [] (string_bytes self.new.replies)) }
        ensures lines_counted { IfOk result
            (λ n. self.new.session.script.number ≤ self.old.session.script.number + n) }
    {
        let mut at = 0;
        while at < bytes.len() && self.replies.len() < MOST_UNSENT {
            at += self.take_line(rt, &bytes[at..])?;
        }
        Ok(at)
    }

    /// Replies to the lines of a piece. After a fault the responder is to be closed. If memory ran out, the replies to
    /// all lines that the session has answered were written.
    pub fn feed<R: AllocGlobal + Sync, W: ScriptOut>(
        &mut self,
        rt: &R,
        piece: &[u8],
        writer: &mut W,
    ) -> Result<(), Fault>
    where
        E: EngineOver<R>,
        requires line_number_fits { self.old.session.script.number + length piece.now ≤ 2 ^ 61 }
        requires fits_line { length piece.now ≤ longest }
        requires none_wait { string_bytes self.old.replies ≡ [] }
        ensures ok { OnOk result ((before input : List ℕ) →
            RunState before ((W.calls writer.old).taken) self.old.session.script self.old.line input →
            RunState before ((W.calls writer.new).taken) self.new.session.script self.new.line (input ++ piece.now)) }
        ensures none_wait { OnOk result (string_bytes self.new.replies ≡ []) }
        ensures memory { IsErrOf result Fault.Memory → ((before input : List ℕ) →
            RunState before ((W.calls writer.old).taken) self.old.session.script self.old.line input →
            Wrote before ((W.calls writer.new).taken)
            (StopsAfter self.new.session.script (length piece.now) (input ++ piece.now))) }
        ensures err { OnErr result ((before input : List ℕ) →
            RunState before ((W.calls writer.old).taken) self.old.session.script self.old.line input →
            Wrote before ((W.calls writer.new).taken) (BeginsOutput (input ++ piece.now))) }
        ensures held { GainsTaken ((W.calls writer.old).taken) ((W.calls writer.new).taken) ((W.calls writer.old).held)
            ((W.calls writer.new).held) }
        ensures no_read { IsErrOf result Fault.Read → ⊥ }
        ensures not_used_up { IsErrOf result Fault.StampsUsedUp → ⊥ }
        ensures fails { IsErrOf result Fault.Write → (W.calls writer.new).failed ≡ (W.calls writer.old).failed + 1 }
        ensures none_fails { OnOk result ((W.calls writer.new).failed ≡ (W.calls writer.old).failed) }
        ensures memory_alone { IsErrOf result Fault.Memory → (W.calls writer.new).failed ≡ (W.calls writer.old).failed }
        ensures flushes { (W.calls writer.new).flushes ≡ (W.calls writer.old).flushes }
        ensures lines_counted { OnOk result
            (self.new.session.script.number ≤ self.old.session.script.number + length piece.now) }
    {
        let mut at = 0;
        while at < piece.len() {
            let taken = self.take_lines(rt, &piece[at..]);
            // The replies are written before more is read, and also if memory ran out.
            match send(writer, &mut self.replies) {
                Ok(()) => {}
                Err(fault) => return Err(fault),
            }
            match taken {
                Ok(n) => at += n,
                Err(AllocError) => return Err(Fault::Memory),
            }
        }
        Ok(())
    }

    /// Replies to the last line, if the end of the input ends one.
    fn end_input<R: AllocGlobal + Sync>(&mut self, rt: &R) -> Result<(), AllocError>
    where
        E: EngineOver<R>,
        requires line_number_fits { self.old.session.script.number ≤ 2 ^ 61 }
        requires none_wait { string_bytes self.old.replies ≡ [] }
        ensures ok { OnOk result
            (Finishes self.old.session.script self.old.line (string_bytes self.new.replies)) }
        ensures not_blank { OnErr result (is_blank_kept self.old.line ≡ false) }
    {
        if self.line.is_empty() {
            return Ok(());
        }
        self.answer(rt)
    }

    /// Replies to the last line, closes, and writes and flushes all.
    pub fn end<R: AllocGlobal + Sync, W: ScriptOut>(
        mut self,
        rt: &R,
        writer: &mut W,
    ) -> Result<(), Fault>
    where
        E: EngineOver<R>,
        requires line_number_fits { self.session.script.number ≤ 2 ^ 61 }
        requires none_wait { string_bytes self.replies ≡ [] }
        ensures ok { OnOk result ((before input : List ℕ) →
            RunState before ((W.calls writer.old).taken) self.session.script self.line input →
            Wrote before ((W.calls writer.new).taken) (λ out. out ≡ output input)) }
        ensures memory { IsErrOf result Fault.Memory → ((before input : List ℕ) →
            RunState before ((W.calls writer.old).taken) self.session.script self.line input →
            Wrote before ((W.calls writer.new).taken) (StopsFirst 0 input)) }
        ensures err { OnErr result ((before input : List ℕ) →
            RunState before ((W.calls writer.old).taken) self.session.script self.line input →
            Wrote before ((W.calls writer.new).taken) (BeginsWith (output input))) }
        ensures held { GainsTaken ((W.calls writer.old).taken) ((W.calls writer.new).taken) ((W.calls writer.old).held)
            ((W.calls writer.new).held) }
        ensures no_read { IsErrOf result Fault.Read → ⊥ }
        ensures not_used_up { IsErrOf result Fault.StampsUsedUp → ⊥ }
        ensures fails { IsErrOf result Fault.Write → (W.calls writer.new).failed ≡ (W.calls writer.old).failed + 1 }
        ensures none_fails { OnOk result ((W.calls writer.new).failed ≡ (W.calls writer.old).failed) }
        ensures memory_alone { IsErrOf result Fault.Memory → (W.calls writer.new).failed ≡ (W.calls writer.old).failed }
        ensures flushed { OnOk result ((W.calls writer.old).flushes < (W.calls writer.new).flushes) }
        ensures flushed_all { OnOk result ((W.calls writer.new).flushed ≡ (W.calls writer.new).taken) }
    {
        let ended = self.end_input(rt);
        let Responder {
            session,
            line: _,
            mut replies,
        } = self;
        session.close(rt);
        ended?;
        send_last(writer, &mut replies)?;
        Ok(())
    }

    /// Ends the index. Replies that wait are dropped.
    pub fn close<R: AllocGlobal + Sync>(self, rt: &R)
    where
        E: EngineOver<R>,
    {
        let Responder {
            session,
            line: _,
            replies: _,
        } = self;
        session.close(rt);
    }
}
