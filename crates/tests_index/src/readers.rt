// Readers in threads beside a writer, and how many there may be. The c-th commit adds one document, in a segment of its
// own, and has stamp 2c.
ghost use Rattle.std.specs.Prelude.{◌≡◌};

use dilforec::{CommitSeen, Cut, Gate, Open, Reader, Refusal, Stamp, Writer};
use std::alloc::Global;
use std::process::Abort;
use std::sync::Wait;
use std::sync::atomic::{AtomicU64, Ordering};
use std::thread::{Threads, for_each_mut, join, yield_now};
use testing_writers::{batch, count, writer};

fn commit<R: Threads + Wait + Sync + Abort, G: Gate>(
    rt: &R,
    alloc: Global,
    writer: &mut Writer,
    gate: &G,
) -> CommitSeen
    ensures of { writer.new.front.seen.of ≡ writer.old.front.seen.of }
    ensures seen { result.of ≡ writer.old.front.seen.of }
{
    let batch = batch(alloc, writer, &["+x"]).expect(rt, "a batch");
    let committed = writer.commit(rt, alloc, &batch, Cut::Runs(1), 2, gate);
    committed.expect(rt, "a commit").seen
}

/// The stamp of a searcher, if it is that of a commit with this many documents.
fn stamp_found<R: Threads + Wait + Sync + Abort>(
    rt: &R,
    alloc: Global,
    reader: &mut Reader,
) -> Option<Stamp>
    ensures { reader.new.of ≡ reader.old.of }
{
    let searcher = reader.searcher().expect(rt, "a searcher");
    let stamp = searcher.commit_stamp();
    let found = count(rt, alloc, &searcher, "*").expect(rt, "a count");
    (stamp % 2 == 0 && stamp / 2 == found).then_some(stamp)
}

/// Asserts that a reader finds this stamp.
fn finds<R: Threads + Wait + Sync + Abort>(rt: &R, alloc: Global, reader: &mut Reader, stamp: Stamp)
    ensures { reader.new.of ≡ reader.old.of }
{
    assert_eq!(rt; stamp_found(rt, alloc, reader), Some(stamp));
}

/// Holds the first job of a commit until a reader found something.
#[derive(Drop)]
struct UntilFound {
    began: AtomicU64,
    found: AtomicU64,
    released: AtomicU64,
}

/// True once the number isn't 0, within this many turns.
fn becomes_set(number: &AtomicU64) -> bool {
    for _ in 0..1_000_000_000u64 {
        if number.load(Ordering::SeqCst) > 0 {
            return true;
        }
        yield_now();
    }
    false
}

impl Gate for UntilFound {
    fn before(&self, job: usize) {
        if job == 0 {
            self.began.store(1, Ordering::SeqCst);
            if becomes_set(&self.found) {
                self.released.store(1, Ordering::SeqCst);
            }
        }
    }

    fn after(&self, _job: usize) {}
}

/// What a reader finds while a commit is held.
fn find_beside<R: Threads + Wait + Sync + Abort>(
    rt: &R,
    alloc: Global,
    gate: &UntilFound,
    reader: &mut Reader,
) -> Option<Stamp> {
    let began = becomes_set(&gate.began);
    let stamp = stamp_found(rt, alloc, reader);
    gate.found.store(1, Ordering::SeqCst);
    if began { stamp } else { None }
}

/// Commits in one thread, and finds in another.
fn commit_and_find<R: Threads + Wait + Sync + Abort>(
    rt: &R,
    alloc: Global,
    writer: &mut Writer,
    gate: &UntilFound,
    reader: &mut Reader,
) -> Option<Stamp> {
    let (_, stamp) = join(
        rt,
        || drop(commit(rt, alloc, writer, gate)),
        || find_beside(rt, alloc, gate, reader),
    );
    stamp
}

/// A reader finds the commit before while a commit is held, and this one once it is done.
fn held_commit<R: Threads + Wait + Sync + Abort>(
    rt: &R,
    alloc: Global,
    writer: &mut Writer,
    gate: &UntilFound,
) {
    let mut reader = writer.reader().expect(rt, "a reader");
    drop(commit(rt, alloc, writer, &Open));
    let beside = commit_and_find(rt, alloc, writer, gate, &mut reader);
    assert_eq!(rt; beside, Some(2));
    finds(rt, alloc, &mut reader, 4);
}

#[test]
fn a_reader_finds_the_commit_before_while_one_is_made(rt: HostRuntime) {
    let gate = UntilFound {
        began: AtomicU64::new(0),
        found: AtomicU64::new(0),
        released: AtomicU64::new(0),
    };
    let mut writer = writer(&rt, rt.alloc()).expect(&rt, "a writer");
    held_commit(&rt, rt.alloc(), &mut writer, &gate);
    writer.close(&rt);
    assert_eq!(rt; gate.released.load(Ordering::SeqCst), 1);
}

/// Asserts that a reader finds this stamp once a commit is reported to it.
fn finds_told<R: Threads + Wait + Sync + Abort>(
    rt: &R,
    alloc: Global,
    reader: &mut Reader,
    seen: &CommitSeen,
    stamp: Stamp,
)
    requires { seen.now.of ≡ reader.old.of }
    ensures { reader.new.of ≡ reader.old.of }
{
    reader.told(seen).expect(rt, "a commit that is told");
    finds(rt, alloc, reader, stamp);
}

/// A commit that is reported to one reader before a merge of all segments, and to another one after the merge. The
/// other reader finds it even before that.
fn first_told<R: Threads + Wait + Sync + Abort>(
    rt: &R,
    alloc: Global,
    writer: &mut Writer,
    reader: &mut Reader,
    other: &mut Reader,
) -> CommitSeen
    requires reader { reader.old.of ≡ writer.old.front.seen.of }
    requires other { other.old.of ≡ writer.old.front.seen.of }
    ensures writer { writer.new.front.seen.of ≡ writer.old.front.seen.of }
    ensures reader { reader.new.of ≡ reader.old.of }
    ensures other { other.new.of ≡ other.old.of }
    ensures seen { result.of ≡ writer.old.front.seen.of }
{
    finds(rt, alloc, reader, 0);
    let first = commit(rt, alloc, writer, &Open);
    finds_told(rt, alloc, reader, &first, 2);
    writer.merge(rt, alloc, &[0]).expect(rt, "a merge");
    finds(rt, alloc, reader, 2);
    finds(rt, alloc, other, 2);
    finds_told(rt, alloc, other, &first, 2);
    first
}

/// A second commit. A reader to which it is reported, and then the first one, finds the second.
fn second_told<R: Threads + Wait + Sync + Abort>(
    rt: &R,
    alloc: Global,
    writer: &mut Writer,
    reader: &mut Reader,
    first: &CommitSeen,
) -> CommitSeen
    requires reader { reader.old.of ≡ writer.old.front.seen.of }
    requires first { first.now.of ≡ writer.old.front.seen.of }
    ensures { result.of ≡ writer.old.front.seen.of }
{
    let second = commit(rt, alloc, writer, &Open);
    finds_told(rt, alloc, reader, &second, 4);
    finds_told(rt, alloc, reader, first, 4);
    second
}

/// A reader to which both commits were reported, each time after they were to the other reader.
fn told<R: Threads + Wait + Sync + Abort>(rt: &R, alloc: Global, writer: &mut Writer) -> Reader {
    let mut reader = writer.reader().expect(rt, "a reader");
    let mut other = writer.reader().expect(rt, "a reader");
    let first = first_told(rt, alloc, writer, &mut reader, &mut other);
    let second = second_told(rt, alloc, writer, &mut reader, &first);
    other.told(&second).expect(rt, "a commit that is told");
    other
}

/// A reader keeps what was reported to it, also once the writer was closed.
#[test]
fn what_was_told_stays_known(rt: HostRuntime) {
    let mut writer = writer(&rt, rt.alloc()).expect(&rt, "a writer");
    let mut reader = told(&rt, rt.alloc(), &mut writer);
    writer.close(&rt);
    finds(&rt, rt.alloc(), &mut reader, 4);
}

/// Takes a thousand searchers of a reader, each with the documents of its commit. None is older than the one before.
fn search_on<R: Threads + Wait + Sync + Abort>(rt: &R, alloc: Global, reader: &mut Reader) {
    let mut last = 0;
    for _ in 0..1_000 {
        let stamp = stamp_found(rt, alloc, reader).expect(rt, "the documents of a commit");
        assert!(rt; last <= stamp);
        last = stamp;
    }
}

/// Searches by each reader in a thread of its own.
fn search_all<R: Threads + Wait + Sync + Abort>(rt: &R, alloc: Global, readers: &mut [Reader]) {
    for_each_mut(
        rt,
        readers,
        2,
        &|_, reader: &mut Reader| { search_on(rt, alloc, reader) },
    );
}

/// Commits a hundred times.
fn commit_on<R: Threads + Wait + Sync + Abort>(rt: &R, alloc: Global, writer: &mut Writer) {
    for _ in 0..100 {
        drop(commit(rt, alloc, writer, &Open));
    }
}

/// Two readers of a writer.
fn two(rt: &impl Abort, alloc: Global, writer: &mut Writer) -> Vec<Reader> {
    let mut readers = Vec::new(alloc);
    for _ in 0..2 {
        let reader = writer.reader().expect(rt, "a reader");
        readers.push(reader).expect(rt, "readers");
    }
    readers
}

/// Once the writer's thread was joined, readers to which no commit was reported find the last one.
fn side_by_side<R: Threads + Wait + Sync + Abort>(rt: &R, alloc: Global, writer: &mut Writer) {
    let mut readers = two(rt, alloc, writer);
    join(
        rt,
        || commit_on(rt, alloc, writer),
        || search_all(rt, alloc, readers.as_mut_slice()),
    );
    for reader in readers.iter_mut() {
        finds(rt, alloc, reader, 200);
    }
}

#[test]
fn two_readers_beside_a_hundred_commits(rt: HostRuntime) {
    let mut writer = writer(&rt, rt.alloc()).expect(&rt, "a writer");
    side_by_side(&rt, rt.alloc(), &mut writer);
    writer.close(&rt);
}

/// How many readers there are at the first refusal, and that refusal.
fn crowd(writer: &mut Writer, readers: &mut Vec<Reader>) -> (usize, Option<Refusal>) {
    for _ in 0..100 {
        match writer.reader() {
            Ok(reader) => {
                if readers.push(reader).is_err() {
                    return (readers.len(), Some(Refusal::Memory));
                }
            }
            Err(refusal) => return (readers.len(), Some(refusal)),
        }
    }
    (readers.len(), None)
}

/// Asserts that each reader finds this stamp, in a thread of its own.
fn all_find<R: Threads + Wait + Sync + Abort>(
    rt: &R,
    alloc: Global,
    readers: &mut [Reader],
    stamp: Stamp,
) {
    for_each_mut(
        rt,
        readers,
        64,
        &|_, reader: &mut Reader| { finds(rt, alloc, reader, stamp) },
    );
}

/// Once a reader is dropped, there can be another.
#[test]
fn there_are_64_places(rt: HostRuntime) {
    let mut writer = writer(&rt, rt.alloc()).expect(&rt, "a writer");
    let mut readers = Vec::new(rt.alloc());
    let all = crowd(&mut writer, &mut readers);
    drop(readers.pop());
    let again = crowd(&mut writer, &mut readers);
    drop(commit(&rt, rt.alloc(), &mut writer, &Open));
    all_find(&rt, rt.alloc(), readers.as_mut_slice(), 2);
    writer.close(&rt);
    let full = (64, Some(Refusal::NoReader));
    assert_eq!(rt; (all, again), (full, full));
}
