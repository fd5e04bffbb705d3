// Cases of packed numbers: `block`, `block_words`, `numbers`, `bits` and `signed`.
use fts_pack::bits::{Bits, i64_to_u64, u64_to_i64};
use fts_pack::{Block, PackedNumbers};
use serde_json::Value;
use testing_cases::{Trial, Trouble, flag, member, numbers, size};

/// A block of up to 128 numbers.
pub(crate) fn pack(trial: &mut Trial, numbers: &[u32]) -> Option<Block> {
    if numbers.len() > 128 {
        trial.fail(Trouble::Impossible("more than a block"));
        return None;
    }
    let block = Block::pack(trial.alloc(), numbers);
    trial.kept(block)
}

/// The block of a case.
fn packed(trial: &mut Trial, case: &Value) -> Option<Block> {
    let numbers = numbers(trial, case, "numbers");
    pack(trial, &numbers)
}

/// What comes back of a block.
fn block(trial: &mut Trial, case: &Value) {
    let mut out = [7; 128];
    if let Some(block) = packed(trial, case) {
        let count = block.unpack(&mut out);
        trial.give_documents(out.get(..count).unwrap_or(&[]));
    }
}

/// Gives the width of packed numbers within an object, and names the words that hold them.
pub(crate) fn name_words(trial: &mut Trial, width: u32) {
    trial.name("width");
    trial.give_number(u64::from(width));
    trial.name("words");
}

/// The width of a block, and the words that hold its numbers.
fn block_words(trial: &mut Trial, case: &Value) {
    if let Some(block) = packed(trial, case) {
        trial.open_object();
        name_words(trial, block.width());
        trial.give_documents(block.words());
        trial.close_object();
    }
}

/// Gives packed numbers, each asked by itself.
fn give_each(trial: &mut Trial, packed: &PackedNumbers) {
    trial.open();
    for index in 0..packed.len() {
        trial.give_number(u64::from(packed.get(index)));
    }
    trial.close();
}

/// What comes back of any number of numbers, each asked by itself.
fn each_number(trial: &mut Trial, case: &Value) {
    let numbers = numbers(trial, case, "numbers");
    let packed = PackedNumbers::build(trial.alloc(), &numbers);
    if let Some(packed) = trial.kept(packed) {
        give_each(trial, &packed);
    }
}

/// Bits, all set or all clear.
pub(crate) fn all_bits(trial: &mut Trial, len: usize, all: bool) -> Option<Bits> {
    let bits = if all {
        Bits::all_set(trial.alloc(), len)
    } else {
        Bits::all_clear(trial.alloc(), len)
    };
    trial.kept(bits)
}

/// Sets or clears bits. `lack` is the message for one that isn't there.
pub(crate) fn turn(
    trial: &mut Trial,
    bits: &mut Bits,
    places: &[u32],
    on: bool,
    lack: &'static str,
) {
    for place in places {
        let bit = *place as usize;
        if bit >= bits.len() {
            trial.fail(Trouble::Impossible(lack));
        } else if on {
            bits.set(bit);
        } else {
            bits.clear(bit);
        }
    }
}

/// The words of this many bits, all set or all clear, some of which are then set and some cleared.
fn bits(trial: &mut Trial, case: &Value) {
    let len = size(trial, case, "len");
    let all = flag(trial, case, "all");
    if let Some(mut bits) = all_bits(trial, len, all) {
        let set = numbers(trial, case, "set");
        turn(trial, &mut bits, &set, true, "no such bit");
        let clear = numbers(trial, case, "clear");
        turn(trial, &mut bits, &clear, false, "no such bit");
        give_bits(trial, &bits);
    }
}

/// Gives how many bits are set, their words, and each word by itself with one after the last.
fn give_bits(trial: &mut Trial, bits: &Bits) {
    trial.open_object();
    trial.name("ones");
    trial.give_number(bits.count_ones() as u64);
    trial.name("words");
    trial.give_stamps(bits.words());
    trial.name("each");
    trial.open();
    for word in 0..bits.len().div_ceil(64).saturating_add(1) {
        trial.give_number(bits.word(word));
    }
    trial.close();
    trial.close_object();
}

/// The place of a signed number in the order of 64-bit numbers, and the number at that place.
fn signed(trial: &mut Trial, case: &Value) {
    match member(trial, case, "number").and_then(Value::as_i64) {
        Some(number) => {
            let place = i64_to_u64(number);
            trial.open();
            trial.give_number(place);
            trial.give_signed(u64_to_i64(place));
            trial.close();
        }
        None => trial.fail(Trouble::WrongKind("number")),
    }
}

/// Tries a case of one of these words, and returns whether its word is one of them.
pub(crate) fn given(trial: &mut Trial, word: &str, case: &Value) -> bool {
    match word {
        "block" => block(trial, case),
        "block_words" => block_words(trial, case),
        "numbers" => each_number(trial, case),
        "bits" => bits(trial, case),
        "signed" => signed(trial, case),
        _ => return false,
    }
    true
}
