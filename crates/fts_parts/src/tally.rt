// Hits counted by their numbers in a column.
ghost use Rattle.std.specs.Prelude.{◌≡◌, ◌<◌, ◌≤◌, ◌+◌, ◌++◌, ◌^◌, IfOk, OnErr, OnOk, length, None};
ghost use Rattle.std.specs.Prelude.{nat_eq, option_to_list, slice_index_or, vec_capacity, vec_len};
ghost use Rattle.fts_scan.specs.Scans.{counts_of_sorted};
ghost use Rattle.fts_parts.specs.Tallies.{counts_from, number_at, present_at};

use fts_model::{Kind, Number};
use fts_pack::bits::u64_to_i64;
use fts_pack::column::Column;
use itertools::Itertools;
use std::alloc::{AllocError, Global};

/// The number that a column of this kind keeps as this one.
pub(crate) fn number_at(kind: Kind, number: u64) -> Number
    ensures { result ≡ number_at kind number }
{
    match kind {
        Kind::I64 => Number::I64(u64_to_i64(number)),
        Kind::Text | Kind::Keyword | Kind::U64 => Number::U64(number),
    }
}

/// The counts of numbers that are in order: equal numbers are counted together.
fn counts_of_sorted(alloc: Global, numbers: &[u64]) -> Result<Vec<(u64, u64)>, AllocError>
    ensures { IfOk result (λ list. list.items ≡ counts_of_sorted nat_eq numbers.now) }
{
    numbers
        .iter()
        .copied()
        .dedup_with_count()
        .map(|(count, number)| (number, count as u64))
        .collect(alloc)
}

/// The numbers that were counted, with their counts. `counts` has one for each number from `least` on.
fn counts_from(alloc: Global, least: u64, counts: &[u64]) -> Result<Vec<(u64, u64)>, AllocError>
    requires { least + length counts.now ≤ 2 ^ 64 }
    ensures { IfOk result (λ list. list.items ≡ counts_from least counts.now) }
{
    let mut list = Vec::new(alloc);
    for (i, count) in counts.iter().enumerate() {
        if *count > 0 {
            list.push((least + i as u64, *count))?;
        }
    }
    Ok(list)
}

/// Puts the number of a document in a column after others, if it has one. There is room for one more.
fn push_doc(column: &Column, doc: u32, numbers: &mut Vec<u64>)
    requires { vec_len numbers.old < vec_capacity numbers.old }
    ensures items { numbers.new.items
        ≡ numbers.old.items ++ option_to_list (slice_index_or column.now doc None) }
    ensures len { vec_len numbers.new ≤ vec_len numbers.old + 1 }
    ensures capacity { vec_capacity numbers.new ≡ vec_capacity numbers.old }
{
    if let Some(number) = column.get(doc as usize) {
        numbers.push_reserved(number);
    }
}

/// Puts the numbers of documents in a column after others. On `Err` nothing was put there.
fn push_docs(column: &Column, docs: &[u32], numbers: &mut Vec<u64>) -> Result<(), AllocError>
    ensures ok { OnOk result (numbers.new.items
        ≡ numbers.old.items ++ present_at column.now docs.now) }
    ensures err { OnErr result (numbers.new.items ≡ numbers.old.items) }
{
    numbers.reserve(docs.len())?;
    for doc in docs {
        push_doc(column, *doc, numbers);
    }
    Ok(())
}

/// The numbers of hits in a column.
#[derive(Drop)]
pub enum Tally {
    /// How often each number came, from the least of the column on.
    Counts { least: u64, counts: Vec<u64> },
    /// The numbers as they came.
    Numbers(Vec<u64>),
}

/// The most numbers that are counted each at a place of its own.
const MOST_COUNTS: u64 = 65_536;

/// This many places are cleared and read in the time in which a number is sorted among others.
const COUNTS_PER_DOC: u64 = 8;

/// How many places there may be for a column of this many documents: with more, its numbers are sorted sooner.
fn most_counts(docs: usize) -> u64
    ensures { result ≤ MOST_COUNTS }
{
    (docs as u64)
        .saturating_mul(COUNTS_PER_DOC)
        .min(MOST_COUNTS)
}

impl Tally {
    ghost use Rattle.std.specs.Prelude.{◌≡◌, ◌<◌, ◌++◌, ◌^◌, ℕ, List, [], IfOk, OnErr, OnOk, length};
    ghost use Rattle.fts_parts.specs.Tallies.{IsTally, IsTallyFor, counts_of, present_at};

    /// The tally of no hits. It has a place for each number, if the column's numbers are close together for this many
    /// documents.
    pub(crate) fn new(alloc: Global, column: &Column) -> Result<Tally, AllocError>
        ensures none { IfOk result (IsTally []) }
        ensures for_column { IfOk result (IsTallyFor column.now) }
    {
        let most = most_counts(column.len());
        match column.range() {
            Some((least, greatest)) if greatest - least < most => {
                let counts = vec![in alloc; 0u64; (greatest - least) as usize + 1]?;
                Ok(Tally::Counts { least, counts })
            }
            _ => Ok(Tally::Numbers(Vec::new(alloc))),
        }
    }

    /// Takes the numbers of more hits. On `Err` none was taken.
    pub(crate) fn take(&mut self, column: &Column, docs: &[u32]) -> Result<(), AllocError>
        requires { IsTallyFor column.now self.old }
        ensures taken { OnOk result ((numbers : List ℕ) → IsTally numbers self.old →
            IsTally (numbers ++ present_at column.now docs.now) self.new) }
        ensures kept { OnErr result ((numbers : List ℕ) → IsTally numbers self.old → IsTally numbers self.new) }
        ensures for_column { IsTallyFor column.now self.new }
    {
        match self {
            Tally::Counts { least, counts } => {
                column.count_values(docs, *least, counts);
                Ok(())
            }
            Tally::Numbers(numbers) => push_docs(column, docs, numbers),
        }
    }

    /// The numbers, rising, each with how often it came.
    pub(crate) fn into_counts(self, alloc: Global) -> Result<Vec<(u64, u64)>, AllocError>
        requires { IsTallyFor [] self }
        ensures { (numbers : List ℕ) → IsTally numbers self → length numbers < 2 ^ 64 →
            IfOk result (λ list. list.items ≡ counts_of numbers) }
    {
        match self {
            Tally::Counts { least, counts } => counts_from(alloc, least, &counts),
            Tally::Numbers(mut numbers) => {
                numbers.sort_unstable();
                counts_of_sorted(alloc, &numbers)
            }
        }
    }
}
