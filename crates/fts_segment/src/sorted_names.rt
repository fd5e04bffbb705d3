// Sorts names by their bytes, and removes duplicates.
ghost use Rattle.std.specs.Prelude.{◌≡◌, ◌<◌, ℕ, IfOk, OnOk, length, map, slice_get, slice_index};
ghost use Rattle.std.specs.List.{enumerate_from};
ghost use Rattle.std.specs.List.Sorted.{IsPermutation};
ghost use Rattle.fts_segment.specs.Sorted.{Ascends, IsInOrder, ends_with, with_name};

use crate::names::Names;
use fts_base::release;
use std::alloc::{AllocError, Global};

/// The distinct names in order, and for each id the rank of its name.
#[derive(Drop)]
pub(crate) struct SortedNames<'a> {
    pub(crate) names: Vec<&'a [u8]>,
    /// For each id, the index of its name.
    pub(crate) ordinals: Vec<u32>,
}

/// Sorts names by their bytes, and removes duplicates.
pub(crate) fn sort_names<'a>(alloc: Global, names: &'a Names) -> Result<SortedNames<'a>, AllocError>
    ensures ascends { IfOk result (λ sorted. Ascends (map (λ n. n.now) sorted.names.items)) }
    ensures count { IfOk result (λ sorted. length sorted.ordinals.items ≡ length names.now) }
    ensures ordinals { IfOk result (λ sorted. (n : ℕ) → n < length names.now
        → slice_get (map (λ n. n.now) sorted.names.items) (slice_index sorted.ordinals.items n)
        ≡ slice_get names.now n) }
{
    let order = numbered(alloc, names)?;
    let mut different = Vec::new(alloc);
    let mut ordinals = vec![in alloc; 0u32; names.len()]?;
    for (name, number) in &order {
        push_different(&mut different, name)?;
        // It fits, since the ids of a log have 32 bits.
        let Ok(ordinal) = u32::try_from(different.len() - 1) else {
            return Err(AllocError);
        };
        ordinals[*number] = ordinal;
    }
    release(order);
    Ok(SortedNames {
        names: different,
        ordinals,
    })
}

/// The names with their ids, sorted by bytes.
fn numbered<'a>(alloc: Global, names: &'a Names) -> Result<Vec<(&'a [u8], usize)>, AllocError>
    ensures in_order { IfOk result (λ v. IsInOrder (map (λ e. e.0.now) v.items)) }
    ensures all { IfOk result
        (λ v. IsPermutation (enumerate_from 0 names.now) (map (λ e. (e.1, e.0.now)) v.items)) }
{
    let mut order = Vec::with_capacity(alloc, names.len())?;
    for number in 0..names.len() {
        order.push((names.get(number), number))?;
    }
    order.sort_unstable();
    Ok(order)
}

/// Appends a name, unless it is the last one.
fn push_different<'a>(names: &mut Vec<&'a [u8]>, name: &'a [u8]) -> Result<(), AllocError>
    ensures { OnOk result (map (λ n. n.now) names.new.items
        ≡ with_name (map (λ n. n.now) names.old.items) name.now) }
{
    if is_last(names, name) {
        return Ok(());
    }
    names.push(name)?;
    Ok(())
}

/// Whether a name is the last of these.
fn is_last(names: &[&[u8]], name: &[u8]) -> bool
    ensures { result ≡ ends_with (map (λ n. n.now) names.now) name.now }
{
    match names.last() {
        Some(last) => *last == name,
        None => false,
    }
}
