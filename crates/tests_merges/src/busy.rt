// Three readers beside a thousand commits. A merge of all earlier segments runs beside each hundred of them. The commit
// of the nth document has stamp 2n, and no merge changes what is found.
use crate::background::merge_beside;
use crate::steps::commit;
use dilforec::{Reader, Writer};
use std::alloc::Global;
use std::process::Abort;
use std::sync::Wait;
use std::thread::{Threads, for_each_mut, join};
use testing_writers::{count, writer};

/// How many documents there are in the end.
const LAST: u64 = 1_001;

/// The numbers of a writer's segments.
fn ids(rt: &impl Abort, alloc: Global, writer: &Writer) -> Vec<u64> {
    let mut ids = Vec::new(alloc);
    for info in writer.segments(alloc).expect(rt, "segments") {
        ids.push(info.id).expect(rt, "numbers");
    }
    ids
}

/// Commits a thousand times one document.
fn log_on<R: Threads + Wait + Sync + Abort>(rt: &R, alloc: Global, writer: &mut Writer) {
    for _ in 0..10 {
        let ids = ids(rt, alloc, writer);
        merge_beside(rt, alloc, writer, &ids, &["+x"; 100]);
    }
}

/// How many documents a reader's searcher finds. Asserts that they are those of its commit.
fn found<R: Threads + Wait + Sync + Abort>(rt: &R, alloc: Global, reader: &mut Reader) -> u64 {
    let searcher = reader.searcher().expect(rt, "a searcher");
    let found = count(rt, alloc, &searcher, "*").expect(rt, "a count");
    assert_eq!(rt; searcher.commit_stamp(), found.wrapping_mul(2));
    found
}

/// Searches until the last commit is found, and never finds less than before.
fn search_on<R: Threads + Wait + Sync + Abort>(rt: &R, alloc: Global, reader: &mut Reader) {
    let mut most = 0;
    for _ in 0..1_000_000 {
        let found = found(rt, alloc, reader);
        assert!(rt; most <= found);
        if found == LAST {
            return;
        }
        most = found;
    }
    panic!(rt; "the last commit isn't found");
}

/// Searches by each reader in a thread of its own.
fn search_all<R: Threads + Wait + Sync + Abort>(rt: &R, alloc: Global, readers: &mut [Reader]) {
    for_each_mut(
        rt,
        readers,
        3,
        &|_, reader: &mut Reader| { search_on(rt, alloc, reader) },
    );
}

/// Three readers of a writer.
fn three(rt: &impl Abort, alloc: Global, writer: &mut Writer) -> Vec<Reader> {
    let mut readers = Vec::new(alloc);
    for _ in 0..3 {
        let reader = writer.reader().expect(rt, "a reader");
        readers.push(reader).expect(rt, "readers");
    }
    readers
}

/// Once the writer's thread was joined, readers to which no commit was reported find the last one.
fn side_by_side<R: Threads + Wait + Sync + Abort>(rt: &R, alloc: Global, writer: &mut Writer) {
    commit(rt, alloc, writer, &["+x"]).expect(rt, "a commit");
    let mut readers = three(rt, alloc, writer);
    join(
        rt,
        || log_on(rt, alloc, writer),
        || search_all(rt, alloc, readers.as_mut_slice()),
    );
    for reader in readers.iter_mut() {
        assert_eq!(rt; found(rt, alloc, reader), LAST);
    }
}

#[test]
fn three_readers_beside_a_thousand_commits(rt: HostRuntime) {
    let mut writer = writer(&rt, rt.alloc()).expect(&rt, "a writer");
    side_by_side(&rt, rt.alloc(), &mut writer);
    writer.close(&rt);
}
