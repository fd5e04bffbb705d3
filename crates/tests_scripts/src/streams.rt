// Scripts over memory, by readers and writers that are slow or fail.
use dilforec::script::{
    EngineOver, Fault, IndexEngine, ListEngine, LocalEngine, Options, Plain, run_script,
};
use std::alloc::AllocError;
use std::cell::Cell;
use std::io;
use std::io::{Read, Write};
use std::process::Abort;

/// The lines of a script, each with its reply; the last line lacks its LF.
static SCRIPT: [(&str, &str); 10] = [
    (SCHEMA, "{\"fields\":4}\n"),
    ("", ""),
    (" \t \r", ""),
    ("{\"add\":{\"title\":\"Rust book\"}}", "{\"stamp\":1}\n"),
    ("x", "{\"error\":\"BadJson\",\"line\":5}\n"),
    (
        "{\"add\":{\"nope\":1}}",
        "{\"error\":\"UnknownField\",\"line\":6}\n",
    ),
    ("{\"commit\":true}", "{\"commit\":2}\n"),
    ("{\"search\":{\"query\":\"rust\"}}", "{\"count\":1}\n"),
    ("\u{e9}\u{e9}", "{\"error\":\"BadJson\",\"line\":9}\n"),
    ("{\"search\":{\"query\":\"go\"}}", "{\"count\":0}\n"),
];

/// The fields `title` (text, default), `tag` (keyword, default), `price` (`u64`) and `temp` (`i64`).
const SCHEMA: &str = concat!(
    r#"{"schema":[{"name":"title","kind":"text","default":true},{"name":"tag","kind":"keyword","default":true},"#,
    r#"{"name":"price","kind":"u64"},{"name":"temp","kind":"i64"}]}"#,
);

/// Appends a line, with `begin` before it.
fn push_line(bytes: &mut Vec<u8>, begin: &str, line: &str) -> Result<(), AllocError> {
    bytes.extend_from_slice(begin.as_bytes())?;
    bytes.extend_from_slice(line.as_bytes())?;
    bytes.extend_from_slice(b"\n")
}

/// The lines of the script, each with `begin` before it and an LF after it.
fn lines_with(rt: &(impl AllocGlobal + Abort), begin: &str) -> Vec<u8> {
    let mut bytes = Vec::new(rt.alloc());
    for (line, _) in &SCRIPT {
        push_line(&mut bytes, begin, line).expect(rt, "lines");
    }
    bytes
}

/// The input of the script.
fn input(rt: &(impl AllocGlobal + Abort)) -> Vec<u8> {
    let mut bytes = lines_with(rt, "");
    bytes.pop();
    bytes
}

/// The replies to the lines that end within the first `count` bytes; at the end of the input the last line has ended
/// too.
fn replies(rt: &(impl AllocGlobal + Abort), count: usize, ended: bool) -> Vec<u8> {
    let mut bytes = Vec::new(rt.alloc());
    let mut left = count;
    for (line, reply) in &SCRIPT {
        if left <= line.len() && !ended {
            break;
        }
        left = left.saturating_sub(line.len()).saturating_sub(1);
        bytes
            .extend_from_slice(reply.as_bytes())
            .expect(rt, "replies");
    }
    bytes
}

/// Runs a script, and hands the reader and the writer back.
fn run_over<G: AllocGlobal + Sync, E: EngineOver<G>, R: Read, W: Write>(
    rt: &G,
    reader: R,
    writer: W,
    options: Options,
) -> (Result<(), Fault>, R, W) {
    let mut reader = Plain::new(reader);
    let mut writer = Plain::new(writer);
    let outcome = run_script::<_, E, _, _>(rt, &mut reader, &mut writer, options);
    (outcome, reader.into_inner(), writer.into_inner())
}

/// A reader that gives at most `step` bytes per call, and fails once, at the call numbered `fails`.
#[derive(Drop)]
struct SlowReader<'a> {
    bytes: &'a [u8],
    step: usize,
    fails: usize,
    kind: io::ErrorKind,
    calls: usize,
}

impl Read for SlowReader<'_> {
    fn read(&mut self, buffer: &mut [u8]) -> io::Result<usize> {
        self.calls = self.calls.wrapping_add(1);
        if self.calls == self.fails {
            return Err(io::Error::from(self.kind));
        }
        let n = self.step.min(buffer.len()).min(self.bytes.len());
        let (given, left) = self.bytes.split_at(n);
        buffer[..n].copy_from_slice(given);
        self.bytes = left;
        Ok(n)
    }
}

/// A writer that takes at most `step` bytes per call. Once, at the call numbered `fails`, it fails, or takes none if no
/// kind of error is given.
#[derive(Drop)]
struct Sink {
    bytes: Vec<u8>,
    step: usize,
    fails: usize,
    kind: Option<io::ErrorKind>,
    calls: usize,
    flushes: usize,
}

impl Sink {
    fn called(&mut self) -> io::Result<bool> {
        self.calls = self.calls.wrapping_add(1);
        if self.calls != self.fails {
            return Ok(true);
        }
        match self.kind {
            Some(kind) => Err(io::Error::from(kind)),
            None => Ok(false),
        }
    }
}

impl Write for Sink {
    fn write(&mut self, bytes: &[u8]) -> io::Result<usize> {
        if !self.called()? {
            return Ok(0);
        }
        let n = self.step.min(bytes.len());
        self.bytes.extend_from_slice(&bytes[..n])?;
        Ok(n)
    }

    fn flush(&mut self) -> io::Result<()> {
        self.called()?;
        self.flushes = self.flushes.wrapping_add(1);
        Ok(())
    }
}

fn reader_of(bytes: &[u8], step: usize, fails: usize, kind: io::ErrorKind) -> SlowReader<'_> {
    SlowReader {
        bytes,
        step,
        fails,
        kind,
        calls: 0,
    }
}

fn writer_of(
    rt: &impl AllocGlobal,
    step: usize,
    fails: usize,
    kind: Option<io::ErrorKind>,
) -> Sink {
    Sink {
        bytes: Vec::new(rt.alloc()),
        step,
        fails,
        kind,
        calls: 0,
        flushes: 0,
    }
}

/// Whether a script has these replies, whatever the size of its reads.
fn replies_to<G: AllocGlobal + Abort + Sync, E: EngineOver<G>>(
    rt: &G,
    script: &[u8],
    wanted: &[u8],
) {
    for step in [1, 2, 7, 1000] {
        let reader = reader_of(script, step, 0, io::ErrorKind::Other);
        let writer = writer_of(rt, step, 0, None);
        let (outcome, _, written) = run_over::<_, E, _, _>(rt, reader, writer, Options::default());
        assert_eq!(rt; (outcome, written.flushes), (Ok(()), 1));
        assert_eq!(rt; written.bytes.as_slice(), wanted);
    }
}

#[test]
fn whole_script(rt: HostRuntime) {
    let script = input(&rt);
    replies_to::<_, ListEngine>(&rt, &script, &replies(&rt, script.len(), true));
}

/// White space at the beginning of a line has no effect on replies, wherever a read cuts it.
#[test]
fn lines_behind_white_space(rt: HostRuntime) {
    let script = lines_with(&rt, "  \t\r ");
    replies_to::<_, ListEngine>(&rt, &script, &replies(&rt, script.len(), true));
}

/// Whether a script fails at this read, with the replies to the lines before it.
fn read_fails<G: AllocGlobal + Abort + Sync, E: EngineOver<G>>(
    rt: &G,
    script: &[u8],
    fails: usize,
    kind: io::ErrorKind,
) {
    let reader = reader_of(script, 1, fails, kind);
    let writer = writer_of(rt, 5, 0, None);
    let (outcome, _, written) = run_over::<_, E, _, _>(rt, reader, writer, Options::default());
    assert_eq!(rt; outcome, Err(Fault::Read), "call {fails}");
    let wanted = replies(rt, fails.saturating_sub(1), false);
    assert_eq!(rt; written.bytes, wanted, "call {fails}");
}

/// Asserts that the script fails at each read, over an engine.
fn each_read_fails_over<G: AllocGlobal + Abort + Sync, E: EngineOver<G>>(rt: &G) {
    let script = input(rt);
    for kind in [io::ErrorKind::BrokenPipe, io::ErrorKind::Interrupted] {
        for fails in 1..script.len() + 2 {
            read_fails::<_, E>(rt, &script, fails, kind);
        }
    }
}

#[test]
fn each_read_fails(rt: HostRuntime) {
    each_read_fails_over::<_, ListEngine>(&rt);
}

#[test]
fn each_read_fails_over_segments(rt: HostRuntime) {
    each_read_fails_over::<_, LocalEngine>(&rt);
    each_read_fails_over::<_, IndexEngine>(&rt);
}

/// Runs the script with a writer that fails at this call, and returns the outcome and the writer.
fn written_until<G: AllocGlobal + Abort + Sync, E: EngineOver<G>>(
    rt: &G,
    step: usize,
    fails: usize,
    kind: Option<io::ErrorKind>,
) -> (Result<(), Fault>, Sink) {
    let script = input(rt);
    let reader = reader_of(&script, step, 0, io::ErrorKind::Other);
    let writer = writer_of(rt, step, fails, kind);
    let (outcome, _, written) = run_over::<_, E, _, _>(rt, reader, writer, Options::default());
    (outcome, written)
}

/// Asserts that the script fails at this call of the writer and makes no other, with a beginning of the replies.
fn write_fails<G: AllocGlobal + Abort + Sync, E: EngineOver<G>>(
    rt: &G,
    step: usize,
    fails: usize,
    kind: Option<io::ErrorKind>,
) {
    let (outcome, written) = written_until::<_, E>(rt, step, fails, kind);
    assert_eq!(rt; (outcome, written.calls), (Err(Fault::Write), fails));
    let whole = replies(rt, 0, true);
    assert!(rt;
        whole.as_slice().starts_with(&written.bytes),
        "call {fails}"
    );
}

/// Asserts that the script fails at each write and at the flush, which comes last. If no kind of error is given, the
/// flush doesn't fail, since it takes no bytes. The replies have 154 bytes.
fn each_write_fails_by<G: AllocGlobal + Abort + Sync, E: EngineOver<G>>(
    rt: &G,
    step: usize,
    kind: Option<io::ErrorKind>,
) {
    let (outcome, written) = written_until::<_, E>(rt, step, 0, kind);
    assert_eq!(rt; (outcome, written.flushes), (Ok(()), 1));
    assert!(rt; step > 1 || written.calls == 155);
    let last = if kind.is_none() {
        written.calls.saturating_sub(1)
    } else {
        written.calls
    };
    for fails in 1..=last {
        write_fails::<_, E>(rt, step, fails, kind);
    }
}

/// Asserts that the script fails at each call of its writer, over an engine.
fn each_write_fails_over<G: AllocGlobal + Abort + Sync, E: EngineOver<G>>(rt: &G) {
    for kind in [
        Some(io::ErrorKind::BrokenPipe),
        Some(io::ErrorKind::Interrupted),
        None,
    ] {
        each_write_fails_by::<_, E>(rt, 1, kind);
        each_write_fails_by::<_, E>(rt, 4, kind);
    }
}

#[test]
fn each_write_fails(rt: HostRuntime) {
    each_write_fails_over::<_, ListEngine>(&rt);
}

#[test]
fn each_write_fails_over_segments(rt: HostRuntime) {
    each_write_fails_over::<_, LocalEngine>(&rt);
    each_write_fails_over::<_, IndexEngine>(&rt);
}

/// A reader that gives one line per call, and fails if the replies to the lines before aren't written by then.
#[derive(Drop)]
struct Patient<'a> {
    line: usize,
    wanted: usize,
    written: &'a Cell<usize>,
}

impl Read for Patient<'_> {
    fn read(&mut self, buffer: &mut [u8]) -> io::Result<usize> {
        if self.written.get() != self.wanted {
            return Err(io::Error::from(io::ErrorKind::WouldBlock));
        }
        if self.line >= SCRIPT.len() {
            return Ok(0);
        }
        let (line, reply) = SCRIPT[self.line];
        if buffer.len() <= line.len() {
            return Ok(0);
        }
        buffer[..line.len()].copy_from_slice(line.as_bytes());
        buffer[line.len()] = b'\n';
        self.line += 1;
        self.wanted = self.wanted.wrapping_add(reply.len());
        Ok(line.len() + 1)
    }
}

/// A writer that counts the bytes that it takes.
#[derive(Drop)]
struct Counter<'a> {
    written: &'a Cell<usize>,
}

impl Write for Counter<'_> {
    fn write(&mut self, bytes: &[u8]) -> io::Result<usize> {
        self.written
            .set(self.written.get().wrapping_add(bytes.len()));
        Ok(bytes.len())
    }

    fn flush(&mut self) -> io::Result<()> {
        Ok(())
    }
}

#[test]
fn answers_come_before_the_next_read(rt: HostRuntime) {
    let written = Cell::new(0);
    let reader = Patient {
        line: 0,
        wanted: 0,
        written: &written,
    };
    let (outcome, reader, _) = run_over::<_, ListEngine, _, _>(
        &rt,
        reader,
        Counter { written: &written },
        Options::default(),
    );
    assert_eq!(rt; outcome, Ok(()));
    assert_eq!(rt; reader.line, SCRIPT.len());
    assert_eq!(rt; written.get(), reader.wanted);
}

#[test]
fn many_replies_in_a_block(rt: HostRuntime) {
    let mut script = Vec::new(rt.alloc());
    for _ in 0..40_000 {
        script.extend_from_slice(b"x\n").expect(&rt, "lines");
    }
    let writer = Vec::new(rt.alloc());
    let (outcome, _, written) = run_over::<_, ListEngine, _, _>(
        &rt,
        script.as_slice(),
        writer,
        Options::default(),
    );
    // 28 bytes around each number, and 188,894 digits.
    assert_eq!(rt; (outcome, written.len()), (Ok(()), 1_308_894));
}
