// Decimal numbers.
ghost use Rattle.std.specs.Prelude.{◌≡◌, ◌+◌, ◌^◌, ◌<◌, ◌≤◌, option_map, pos, neg_ℤ, drop, IfSome};
ghost use Rattle.fts_query.specs.Meanings.{number_below, number_in, is_digit};

use fts_model::{Kind, Number};

fn is_digit(byte: u8) -> bool
    ensures { result ≡ is_digit byte }
{
    byte >= b'0' && byte <= b'9'
}

/// The number of one or more digits, if it fits a `u64`.
#[tactic(auto, using(crate::proofs::MeaningsLemmas::overflows), unfolding(crate::specs::Meanings::number_below))]
fn unsigned(text: &[u8]) -> Option<u64>
    ensures { result ≡ number_below (2 ^ 64) text.now }
{
    if text.is_empty() {
        return None;
    }
    let mut value: u64 = 0;
    let mut rest = text;
    while let [byte, tail @ ..] = rest {
        rest = tail;
        if !is_digit(*byte) {
            return None;
        }
        value = value.checked_mul(10)?.checked_add((*byte - b'0') as u64)?;
    }
    Some(value)
}

/// The number of one or more digits, if it is below a limit.
fn below(limit: u64, digits: &[u8]) -> Option<u64>
    ensures value { result ≡ number_below limit digits.now }
    ensures small { IfSome result (λ n. n < limit) }
{
    match unsigned(digits) {
        None => None,
        Some(value) => {
            if value >= limit {
                return None;
            }
            Some(value)
        }
    }
}

/// The negation of a number.
fn negated(value: u64) -> i64
    requires { value ≤ 2 ^ 63 }
    ensures { result ≡ neg_ℤ (pos value) }
{
    if value == 0 {
        0
    } else {
        -((value - 1) as i64) - 1
    }
}

/// The negated number of the digits after a `-`, if it fits an `i64`.
fn negative(digits: &[u8]) -> Option<i64>
    ensures { result ≡ option_map (λ n. neg_ℤ (pos n)) (number_below (2 ^ 63 + 1) digits.now) }
{
    let value = below(i64::MAX as u64 + 2, digits)?;
    Some(negated(value))
}

/// The number of digits, if it fits an `i64`.
fn positive(digits: &[u8]) -> Option<i64>
    ensures { result ≡ option_map (λ n. pos n) (number_below (2 ^ 63) digits.now) }
{
    let value = below(i64::MAX as u64 + 1, digits)?;
    Some(value as i64)
}

/// The number of a text in a field of this kind: digits, also after a `-` in an `i64` field.
pub(crate) fn number_in(kind: Kind, text: &str) -> Option<Number>
    ensures { result ≡ number_in kind text.now }
{
    match kind {
        Kind::Text | Kind::Keyword => None,
        Kind::U64 => Some(Number::U64(unsigned(text.as_bytes())?)),
        Kind::I64 => Some(Number::I64(signed(text.as_bytes())?)),
    }
}

/// The number of a text in an `i64` field.
fn signed(text: &[u8]) -> Option<i64>
    ensures { option_map (λ z. Number.I64 z) result ≡ number_in Kind.I64 text.now }
{
    match text {
        [b'-', digits @ ..] => negative(digits),
        _ => positive(text),
    }
}
