// fts_pack: numbers are read as they were packed, at every width and in every count, and what ran out of memory can be
// tried again.
ghost use Rattle.std.specs.Prelude.{◌≡◌, ◌^◌, ◌≤◌, length};

use fts_model::Refusal;
use fts_pack::bits::Bits;
use fts_pack::column::Column;
use fts_pack::{BLOCK, Block, PackedNumbers};
use std::alloc::{AllocError, Global};
use std::process::Abort;

/// Numbers of at most this many bits, the greatest of them first.
fn numbers_of(width: u32) -> [u32; 128] {
    let greatest = u32::MAX
        .checked_shr(32u32.saturating_sub(width))
        .unwrap_or(0);
    let mut numbers = [greatest; BLOCK];
    for index in 1..BLOCK {
        numbers[index] = (index as u32).wrapping_mul(2654435761) & greatest;
    }
    numbers
}

#[test]
fn every_width_and_count_comes_back(rt: HostRuntime) {
    for width in 0..33u32 {
        let numbers = numbers_of(width);
        for count in 0..BLOCK + 1 {
            let block = Block::pack(rt.alloc(), &numbers[..count]).expect(&rt, "a block");
            let mut out = [7; BLOCK];
            assert_eq!(rt; block.unpack(&mut out), count);
            assert_eq!(rt; &out[..count], &numbers[..count]);
        }
    }
}

/// `unpack` asks for no memory, so that it works even if no growth is granted.
#[test]
fn a_refused_block_can_be_packed_again(rt: HostRuntime) {
    let numbers = [3, 1, 2];
    let block = match Block::pack(rt.alloc(), &numbers) {
        Ok(block) => block,
        Err(refusal) => {
            assert_eq!(rt; refusal, Refusal::Memory);
            Block::pack(rt.alloc(), &numbers).expect(&rt, "a block again")
        }
    };
    let mut out = [0; BLOCK];
    assert_eq!(rt; block.unpack(&mut out), 3);
    assert_eq!(rt; &out[..3], numbers.as_slice());
}

/// Checks each number by itself, and the blocks of them.
fn check_numbers(rt: &impl Abort, packed: &PackedNumbers, numbers: &[u32]) {
    assert_eq!(rt; packed.len(), numbers.len());
    for index in 0..packed.len() {
        assert_eq!(rt; numbers.get(index).copied(), Some(packed.get(index)));
    }
    let mut out = [7; BLOCK];
    for (block, wanted) in numbers.chunks(BLOCK).enumerate() {
        if block < packed.len().div_ceil(BLOCK) {
            let count = packed.open(block, &mut out).min(BLOCK);
            assert_eq!(rt; &out[..count], wanted);
        }
    }
}

/// A block of this width, one of zeros, another of this width, and one of three numbers.
fn blocks_of(alloc: Global, width: u32) -> Result<Vec<u32>, AllocError> {
    let block = numbers_of(width);
    let mut numbers = Vec::new(alloc);
    for block in [&block[..], &[0; BLOCK], &block, &block[..3]] {
        numbers.extend_from_slice(block)?;
    }
    Ok(numbers)
}

#[test]
fn numbers_of_every_width_come_back(rt: HostRuntime) {
    for width in 0..33u32 {
        let numbers = blocks_of(rt.alloc(), width).expect(&rt, "numbers");
        let packed = PackedNumbers::build(rt.alloc(), &numbers).expect(&rt, "packed numbers");
        check_numbers(&rt, &packed, &numbers);
    }
}

/// Packed numbers. If a growth was refused, the second try succeeds.
fn packed(rt: &impl Abort, alloc: Global, numbers: &[u32]) -> PackedNumbers {
    match PackedNumbers::build(alloc, numbers) {
        Ok(packed) => packed,
        Err(refusal) => {
            assert_eq!(rt; refusal, Refusal::Memory);
            PackedNumbers::build(alloc, numbers).expect(rt, "packed numbers again")
        }
    }
}

#[test]
fn refused_numbers_can_be_packed_again(rt: HostRuntime) {
    let numbers = blocks_of(rt.alloc(), 7).expect(&rt, "numbers");
    check_numbers(&rt, &packed(&rt, rt.alloc(), &numbers), &numbers);
}

/// 131 values of at most this many bits, each fifth of which is missing.
fn values_of(width: u32) -> [Option<u64>; 131] {
    let greatest = u64::MAX
        .checked_shr(64u32.saturating_sub(width))
        .unwrap_or(0);
    let mut values = [Some(greatest); 131];
    values[1] = Some(0);
    for index in 2..131usize {
        let mixed = (index as u64).wrapping_mul(11400714819323198485) & greatest;
        values[index] = if index % 5 == 0 { None } else { Some(mixed) };
    }
    values
}

/// Checks each value by itself, and the blocks of them.
fn check_values(rt: &impl Abort, column: &Column, values: &[Option<u64>; 131])
    requires { length column.now ≡ 131 }
{
    for index in 0..131usize {
        assert_eq!(rt; column.get(index), values[index]);
        assert_eq!(rt; column.present().contains(index), values[index].is_some());
    }
}

#[test]
fn every_width_of_values_comes_back(rt: HostRuntime) {
    for width in 0..65u32 {
        let values = values_of(width);
        let column = Column::build(rt.alloc(), &values).expect(&rt, "a column");
        check_values(&rt, &column, &values);
    }
}

/// A column of these values. If a growth was refused, the second try succeeds.
fn built(rt: &impl Abort, alloc: Global, values: &[Option<u64>]) -> Column
    requires { length values.now ≤ 2 ^ 32 }
{
    match Column::build(alloc, values) {
        Ok(column) => column,
        Err(refusal) => {
            assert_eq!(rt; refusal, Refusal::Memory);
            Column::build(alloc, values).expect(rt, "a column again")
        }
    }
}

/// Offsets take 8, 32 or 64 bits.
#[test]
fn refused_columns_can_be_built_again(rt: HostRuntime) {
    for greatest in [5, 70_000, u64::MAX] {
        let values = [Some(greatest), None, Some(0)];
        let column = built(&rt, rt.alloc(), &values);
        assert!(rt; !column.is_empty());
        assert_eq!(rt; [column.get(0), column.get(1), column.get(2)], values);
    }
}

/// The words of a column, with the number of bits of each value. If a growth was refused, the second try succeeds.
fn words_of(rt: &impl Abort, alloc: Global, column: &Column) -> (u32, Vec<u64>) {
    match column.packed(alloc) {
        Ok(packed) => packed,
        Err(refusal) => {
            assert_eq!(rt; refusal, Refusal::Memory);
            column.packed(alloc).expect(rt, "words again")
        }
    }
}

/// The offsets 0, 0 for a missing value, and 2 take two bits each.
#[test]
fn refused_words_of_a_column_can_be_packed_again(rt: HostRuntime) {
    let column = built(&rt, rt.alloc(), &[Some(7), None, Some(9)]);
    let (width, words) = words_of(&rt, rt.alloc(), &column);
    assert_eq!(rt; width, 2);
    assert_eq!(rt; words.as_slice(), [32].as_slice());
}

/// Bits, all of them set.
fn all_set(rt: &impl Abort, alloc: Global, len: usize) -> Bits {
    Bits::all_set(alloc, len).expect(rt, "bits")
}

#[test]
fn a_copy_is_equal_and_apart(rt: HostRuntime) {
    let bits = all_set(&rt, rt.alloc(), 3);
    let mut copy = bits.copied(rt.alloc()).expect(&rt, "bits");
    assert!(rt; bits == copy && copy.len() == 3);
    copy.clear(1);
    assert!(rt; bits != copy && bits.get(1));
    assert!(rt; bits != all_set(&rt, rt.alloc(), 4));
    assert!(rt; all_set(&rt, rt.alloc(), 0).is_empty());
}

/// A copy of bits. If a growth was refused, the second try succeeds.
fn copied(rt: &impl Abort, alloc: Global, bits: &Bits) -> Bits {
    match bits.copied(alloc) {
        Ok(copy) => copy,
        Err(refusal) => {
            assert_eq!(rt; refusal, Refusal::Memory);
            bits.copied(alloc).expect(rt, "bits again")
        }
    }
}

#[test]
fn refused_bits_can_be_made_again(rt: HostRuntime) {
    let bits = match Bits::all_set(rt.alloc(), 65) {
        Ok(bits) => bits,
        Err(_) => Bits::all_set(rt.alloc(), 65).expect(&rt, "bits again"),
    };
    let clear = match Bits::all_clear(rt.alloc(), 65) {
        Ok(clear) => clear,
        Err(_) => Bits::all_clear(rt.alloc(), 65).expect(&rt, "bits again"),
    };
    assert!(rt; bits.len() == 65 && bits != clear);
    assert!(rt; bits == copied(&rt, rt.alloc(), &bits));
}

/// The bits of two documents of 65. If the growth was refused, the second try succeeds.
#[test]
fn refused_bits_of_documents_can_be_made_again(rt: HostRuntime) {
    let bits = match Bits::of_documents(rt.alloc(), 65, &[1, 64]) {
        Ok(bits) => bits,
        Err(AllocError) => {
            Bits::of_documents(rt.alloc(), 65, &[1, 64]).expect(&rt, "bits again")
        }
    };
    assert_eq!(rt; bits.words(), [2, 1].as_slice());
    assert!(rt; !bits.is_all_set());
}
