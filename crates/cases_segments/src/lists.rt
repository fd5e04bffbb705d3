// Cases of lists of documents: `gaps`, `list`, `list_blocks` and `lists`.
ghost use Rattle.std.specs.Prelude.{IfSome, IsTrue};
ghost use Rattle.std.specs.List.Sorted.{IsStrictlyIncreasing};

use crate::numbers::{name_words, pack};
use fts_pack::bits::Bits;
use fts_pack::{BLOCK, Blocks, List, ListRef, ListSource, Lists, PackedBlock, push_gaps};
use serde_json::Value;
use testing_cases::{Trial, Trouble, list, numbers, only};

/// Whether each document is above the one before it.
fn rises(documents: &[u32]) -> bool
    ensures { IsTrue result → IsStrictlyIncreasing documents.now }
{
    for index in 1..documents.len() {
        if documents[index - 1] >= documents[index] {
            return false;
        }
    }
    true
}

/// The documents of a case or of a list in one, which rise.
fn documents(trial: &mut Trial, case: &Value) -> Option<Vec<u32>>
    ensures { IfSome result (λ documents. IsStrictlyIncreasing documents.items) }
{
    let documents = numbers(trial, case, "documents");
    if rises(&documents) {
        Some(documents)
    } else {
        trial.fail(Trouble::Impossible("documents that don't rise"));
        None
    }
}

/// The gaps of documents, and how a block of them is packed.
fn gaps(trial: &mut Trial, case: &Value) {
    let Some(documents) = documents(trial, case) else {
        return;
    };
    let mut gaps = Vec::new(trial.alloc());
    let pushed = push_gaps(&mut gaps, 0, &documents);
    trial.kept(pushed);
    if let Some(block) = pack(trial, &gaps) {
        trial.open_object();
        trial.name("numbers");
        trial.give_documents(&gaps);
        name_words(trial, block.width());
        trial.give_documents(block.words());
        trial.close_object();
    }
}

/// Gives the words of bits, or `null`.
fn give_bits(trial: &mut Trial, bits: Option<&Bits>) {
    match bits {
        Some(bits) => trial.give_stamps(bits.words()),
        None => trial.give_null(),
    }
}

/// Opens a block, and gives its last document and its documents.
fn give_opened(trial: &mut Trial, source: &mut ListSource<'_>, block: usize) {
    if block >= source.blocks() {
        return trial.fail(Trouble::Impossible("no such block"));
    }
    let mut out = [7; BLOCK];
    trial.open_object();
    trial.name("last");
    trial.give_number(u64::from(source.last(block)));
    let count = source.open(block, &mut out);
    trial.name("documents");
    trial.give_documents(out.get(..count).unwrap_or(&[]));
    trial.close_object();
}

/// Gives how many documents a list has, its bits, and what is read of each block.
fn give_list(trial: &mut Trial, list: &List) {
    let mut source = list.source();
    trial.open_object();
    trial.name("len");
    trial.give_number(list.len() as u64);
    trial.name("bits");
    give_bits(trial, list.bits());
    trial.name("blocks");
    trial.open();
    for block in 0..source.blocks() {
        give_opened(trial, &mut source, block);
    }
    trial.close();
    trial.close_object();
}

/// What comes back of a list.
fn read_list(trial: &mut Trial, case: &Value) {
    if let Some(documents) = documents(trial, case) {
        let list = List::build(trial.alloc(), &documents);
        if let Some(list) = trial.kept(list) {
            give_list(trial, &list);
        }
    }
}

/// Gives the last document of a block, and how its gaps are packed.
fn give_packed(trial: &mut Trial, block: PackedBlock<'_>) {
    trial.open_object();
    trial.name("last");
    trial.give_number(u64::from(block.last));
    name_words(trial, block.width);
    trial.give_documents(block.words);
    trial.close_object();
}

/// Gives how each block of a list is packed, and `null` for one of plain numbers.
fn give_blocks(trial: &mut Trial, list: ListRef<'_>) {
    trial.open();
    for block in 0..list.len().div_ceil(BLOCK) {
        match list.packed(block) {
            Some(block) => give_packed(trial, block),
            None => trial.give_null(),
        }
    }
    trial.close();
}

/// Appends the list of a case or of an item.
fn push(trial: &mut Trial, lists: &mut Lists, case: &Value) {
    if let Some(documents) = documents(trial, case) {
        let pushed = lists.push(trial.alloc(), &documents);
        trial.kept(pushed);
    }
}

/// How the blocks of a list are packed.
fn list_blocks(trial: &mut Trial, case: &Value) {
    let mut lists = Lists::new(trial.alloc());
    push(trial, &mut lists, case);
    if !lists.is_empty() {
        give_blocks(trial, lists.get(0));
    }
}

/// Gives how many documents are in the lists before one, how many it has itself, its bits and its blocks.
fn give_one(trial: &mut Trial, start: usize, list: ListRef<'_>) {
    trial.open_object();
    trial.name("start");
    trial.give_number(start as u64);
    trial.name("len");
    trial.give_number(list.len() as u64);
    trial.name("bits");
    give_bits(trial, list.bits());
    trial.name("blocks");
    give_blocks(trial, list);
    trial.close_object();
}

/// Lists side by side, without the space that none of them needs.
fn side_by_side(trial: &mut Trial, case: &Value) {
    let mut lists = Lists::new(trial.alloc());
    for item in list(trial, case, "lists") {
        only(trial, item, &["documents"]);
        push(trial, &mut lists, item);
    }
    lists.shrink_to_fit();
    trial.open();
    for number in 0..lists.len() {
        give_one(trial, lists.start(number), lists.get(number));
    }
    trial.close();
}

/// Tries a case of one of these words, and returns whether its word is one of them.
pub(crate) fn given(trial: &mut Trial, word: &str, case: &Value) -> bool {
    match word {
        "gaps" => gaps(trial, case),
        "list" => read_list(trial, case),
        "list_blocks" => list_blocks(trial, case),
        "lists" => side_by_side(trial, case),
        _ => return false,
    }
    true
}
