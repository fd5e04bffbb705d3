//! The number of bits that numbers take, and numbers of a few bits packed end to end in words, the low bits first.
ghost use Rattle.std.specs.Prelude.{◌≡◌, ℕ, ◌^◌, ◌<◌, ◌≤◌};
ghost use Rattle.fts_pack.specs.bits.Digits.{IsWidthOf, word_count};

/// The least number of bits that holds the number.
pub fn bit_length(number: u64) -> u32
    ensures holds { number < 2 ^ result }
    ensures least { (width : ℕ) → number < 2 ^ width → result ≤ width }
    ensures within { result ≤ 64 }
{
    u64::BITS - number.leading_zeros()
}

/// The least number of bits that holds each of the numbers.
pub fn width_of(numbers: &[u32]) -> u32
    ensures width { IsWidthOf numbers.now result }
    ensures within { result ≤ 32 }
{
    let mut bits = 0;
    for number in numbers {
        bits |= *number;
    }
    bit_length(u64::from(bits))
}

/// The number of 64-bit words that hold `bits` bits.
pub fn word_count_64(bits: usize) -> usize
    ensures { result ≡ word_count 64 bits }
{
    bits / 64 + usize::from(bits % 64 > 0)
}
