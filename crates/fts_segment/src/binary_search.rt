// Binary searches for a name among sorted names, and for a number among rising numbers.
ghost use Rattle.std.specs.Prelude.{◌≡◌, ◌<◌, ◌+◌, ◌^◌, slice_get, MatchOption, IfOk};
ghost use Rattle.std.specs.Prelude.{IfErr, Some, ℕ};
ghost use Rattle.fts_segment.specs.Keywords.{before, up_to};
ghost use Rattle.std.specs.List.Sorted.{IsStrictlyIncreasing};
ghost use Rattle.fts_segment.specs.Sorted.{Ascends};
ghost use Rattle.fts_segment.specs.Between.{IsCut};

use crate::names::{Name, Names};
use std::cmp::Ordering;

/// The index of a name, or on `Err` the number of names before it.
fn search_name(names: &Names, name: &[u8]) -> Result<usize, usize>
    requires { Ascends names.now }
    ensures found { IfOk result (λ i. slice_get names.now i ≡ Some name.now) }
    ensures room { IfOk result (λ i. i + 1 < 2 ^ 64) }
    ensures absent { IfErr result (λ i. (k : ℕ) → slice_get names.now k ≡ Some name.now → ⊥) }
    ensures before { IfErr result (λ i. i ≡ before names.now name.now) }
    ensures up_to { IfErr result (λ i. i ≡ up_to names.now name.now) }
{
    let wanted = Name::new(name);
    let mut low = 0;
    let mut high = names.len();
    while low < high {
        let middle = low + (high - low) / 2;
        match names.compare(middle, &wanted) {
            Ordering::Less => low = middle + 1,
            Ordering::Greater => high = middle,
            Ordering::Equal => return Ok(middle),
        }
    }
    Err(low)
}

/// The index of a name, if it is one of the names.
pub(crate) fn find_name(names: &Names, name: &[u8]) -> Option<usize>
    requires { Ascends names.now }
    ensures { MatchOption result ((i : ℕ) → slice_get names.now i ≡ Some name.now → ⊥)
        (λ i. slice_get names.now i ≡ Some name.now) }
{
    match search_name(names, name) {
        Ok(place) => Some(place),
        Err(_) => None,
    }
}

/// The number of names before a text, and the number of those not after it.
pub(crate) fn equal_range(names: &Names, text: &[u8]) -> (usize, usize)
    requires { Ascends names.now }
    ensures before { result.0 ≡ before names.now text.now }
    ensures up_to { result.1 ≡ up_to names.now text.now }
{
    match search_name(names, text) {
        Ok(place) => (place, place + 1),
        Err(place) => (place, place),
    }
}

/// The index of a number, if it is one of the numbers.
pub(crate) fn find_number(numbers: &[u64], number: u64) -> Option<usize>
    requires { IsStrictlyIncreasing numbers.now }
    ensures { MatchOption result ((i : ℕ) → slice_get numbers.now i ≡ Some number → ⊥)
        (λ i. slice_get numbers.now i ≡ Some number) }
{
    match numbers.binary_search(&number) {
        Ok(index) => Some(index),
        Err(_) => None,
    }
}

/// The number of numbers below a number.
pub(crate) fn lower_bound(numbers: &[u64], number: u64) -> usize
    requires { IsStrictlyIncreasing numbers.now }
    ensures { IsCut numbers.now number result }
{
    match numbers.binary_search(&number) {
        Ok(place) => place,
        Err(place) => place,
    }
}

/// The number of numbers that are at most a number.
pub(crate) fn upper_bound(numbers: &[u64], number: u64) -> usize
    requires { IsStrictlyIncreasing numbers.now }
    ensures { IsCut numbers.now (number + 1) result }
{
    match number.checked_add(1) {
        Some(above) => lower_bound(numbers, above),
        None => numbers.len(),
    }
}
