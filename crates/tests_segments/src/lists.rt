// fts_pack: lists of documents are read as they were built, alone and side by side, and a growth that is refused leaves
// them as they were.
ghost use Rattle.std.specs.Prelude.{◌≡◌, ◌+◌, ◌<◌, IsTrue, length};
ghost use Rattle.std.specs.List.Sorted.{IsStrictlyIncreasing};

use fts_model::Refusal;
use fts_pack::{Blocks, List, ListRef, Lists, push_gaps};
use std::alloc::{AllocError, Global};
use std::process::Abort;

/// Opens the first block of any blocks; exactly one opening is counted.
fn open_first<B: Blocks>(source: &mut B, out: &mut [u32; 128]) -> usize
    requires { 0 < length (B.contents source.old) }
    ensures { B.openings source.new ≡ B.openings source.old + 1 }
{
    source.open(0, out)
}

/// Hands a value on that may go to another thread.
fn carried<T: Send>(value: T) -> T
    ensures { result ≡ value }
{
    value
}

#[test]
fn three_documents(rt: HostRuntime) {
    let list = List::build(rt.alloc(), &[5, 6, 133]).expect(&rt, "a list");
    let mut out = [0; 128];
    let mut source = carried(list.source());
    assert_eq!(rt; (list.len(), source.blocks(), source.last(0)), (3, 1, 133));
    assert_eq!(rt; open_first(&mut source, &mut out), 3);
    assert_eq!(rt; &out[..3], [5, 6, 133].as_slice());
}

#[test]
fn no_document(rt: HostRuntime) {
    let empty = List::build(rt.alloc(), &[]).expect(&rt, "a list");
    assert!(rt; empty.is_empty());
    assert_eq!(rt; empty.source().blocks(), 0);
}

/// Whether each document is above the one before it.
fn rises(documents: &[u32]) -> bool
    ensures { IsTrue result → IsStrictlyIncreasing documents.now }
{
    for index in 1..documents.len() {
        if documents[index - 1] >= documents[index] {
            return false;
        }
    }
    true
}

/// 130 documents, each this far above the one before it.
fn spaced(rt: &impl Abort, step: u32) -> [u32; 130]
    ensures { IsStrictlyIncreasing result }
{
    let mut documents = [0u32; 130];
    for index in 1..130usize {
        documents[index] = documents[index - 1].saturating_add(step);
    }
    if !rises(&documents) {
        panic!(rt; "documents that don't rise");
    }
    documents
}

/// A list of these documents. If a growth was refused, the second try succeeds.
fn built(rt: &impl Abort, alloc: Global, documents: &[u32]) -> List
    requires { IsStrictlyIncreasing documents.now }
{
    match List::build(alloc, documents) {
        Ok(list) => list,
        Err(refusal) => {
            assert_eq!(rt; refusal, Refusal::Memory);
            List::build(alloc, documents).expect(rt, "a list again")
        }
    }
}

/// Checks how many documents a list has, whether it has bits, and the last document of each block.
fn check_list(rt: &impl Abort, list: &List, has_bits: bool, documents: &[u32]) {
    assert_eq!(rt;
        (list.len(), list.bits().is_some()),
        (documents.len(), has_bits)
    );
    let source = list.source();
    for (block, documents) in documents.chunks(128).enumerate() {
        if block < source.blocks() {
            assert_eq!(rt; Some(source.last(block)), documents.last().copied());
        }
    }
}

#[test]
fn refused_lists_can_be_built_again(rt: HostRuntime) {
    let (close, far) = (spaced(&rt, 1), spaced(&rt, 1_000));
    let few = built(&rt, rt.alloc(), &[2, 3, 70000, 4294967295]);
    check_list(&rt, &few, false, &[2, 3, 70000, 4294967295]);
    let plain = built(&rt, rt.alloc(), &[1, 2, 3, 4, 5, 6]);
    check_list(&rt, &plain, false, &[1, 2, 3, 4, 5, 6]);
    let long = built(&rt, rt.alloc(), &far);
    check_list(&rt, &long, false, &far);
    let dense = built(&rt, rt.alloc(), &close);
    check_list(&rt, &dense, true, &close);
}

/// Appends a list. If a growth was refused, the lists are as before, and the second try succeeds.
fn push(rt: &impl Abort, alloc: Global, lists: &mut Lists, documents: &[u32])
    requires { IsStrictlyIncreasing documents.now }
{
    let count = lists.len();
    if lists.push(alloc, documents).is_err() {
        assert_eq!(rt; lists.len(), count);
        lists.push(alloc, documents).expect(rt, "a list again");
    }
}

/// Checks how many documents a list among others has, whether it has bits, and the width and the last document of its
/// second block if it is packed.
fn check_one(
    rt: &impl Abort,
    list: ListRef<'_>,
    len: usize,
    has_bits: bool,
    second: Option<(u32, u32)>,
) {
    assert_eq!(rt; (list.len(), list.bits().is_some()), (len, has_bits));
    assert_eq!(rt; list.is_empty(), len == 0);
    if list.len() > 128 {
        let packed = list.packed(1).map(|block| (block.width, block.last));
        assert_eq!(rt; packed, second);
    }
}

/// What is wanted of each of four lists: the number of documents before it, and what `check_one` looks at.
const WANTED: [(usize, usize, bool, Option<(u32, u32)>); 4] = [
    (0, 3, false, None),
    (3, 130, false, Some((10, 129_000))),
    (133, 0, false, None),
    (133, 130, true, Some((0, 129))),
];

#[test]
fn refused_lists_can_be_pushed_again(rt: HostRuntime) {
    let mut lists = Lists::new(rt.alloc());
    assert!(rt; lists.is_empty());
    push(&rt, rt.alloc(), &mut lists, &[5, 6, 133]);
    push(&rt, rt.alloc(), &mut lists, &spaced(&rt, 1_000));
    push(&rt, rt.alloc(), &mut lists, &[]);
    push(&rt, rt.alloc(), &mut lists, &spaced(&rt, 1));
    lists.shrink_to_fit();
    assert_eq!(rt; lists.len(), 4);
    for (number, (start, len, has_bits, second)) in WANTED.iter().enumerate() {
        if number < lists.len() {
            assert_eq!(rt; lists.start(number), *start);
            check_one(&rt, lists.get(number), *len, *has_bits, *second);
        }
    }
}

/// The gaps of three documents after a number. If the growth was refused, the number is alone, and the second try
/// succeeds.
#[test]
fn refused_gaps_can_be_pushed_again(rt: HostRuntime) {
    let mut numbers = vec![in rt.alloc(); 9u32].expect(&rt, "a number");
    if push_gaps(&mut numbers, 0, &[5, 6, 133]).is_err() {
        assert_eq!(rt; numbers.as_slice(), [9].as_slice());
        push_gaps(&mut numbers, 0, &[5, 6, 133]).expect(&rt, "gaps again");
    }
    assert_eq!(rt; numbers.as_slice(), [9, 5, 0, 126].as_slice());
}
