// The groups of several parts as one.
ghost use Rattle.std.specs.Prelude.{◌≡◌, ◌<◌, ◌^◌, ℕ, List, [], IfOk, OnOk, ◌++◌, drop, fold, length, unwrap_or};
ghost use Rattle.fts_model.specs.declared.operation.Stamped.{Stamped};
ghost use Rattle.fts_model.specs.Documents.{DocumentValue};
ghost use Rattle.fts_model.specs.Answers.{groups};
ghost use Rattle.fts_parts.specs.Parts.{joined};
ghost use Rattle.fts_parts.specs.Internals.Joins.{AreGroupsOf, GroupsRise, add_group};

use crate::lent::Lent;
use crate::part::Part;
use fts_model::GroupValue;
use std::alloc::{AllocError, Global};
use std::cmp::Ordering;

/// Appends these groups, from `from` on, to others.
fn lend_rest<'a>(
    list: &mut Vec<Lent<'a>>,
    groups: &[Lent<'a>],
    from: usize,
) -> Result<(), AllocError>
    ensures { OnOk result (list.new.items ≡ list.old.items ++ drop from groups.now) }
{
    let mut i = from;
    while i < groups.len() {
        let group = &groups[i];
        list.push(Lent::new(group.value(), group.count()))?;
        i += 1;
    }
    Ok(())
}

/// Merges two lists of groups into one: a value that both have has the hits of both.
fn merged<'a>(
    alloc: Global,
    front: &[Lent<'a>],
    back: &[Lent<'a>],
) -> Result<Vec<Lent<'a>>, AllocError>
    ensures { GroupsRise back.now →
        IfOk result (λ list. list.items ≡ fold add_group front.now back.now) }
{
    let mut list = Vec::with_capacity(alloc, front.len().saturating_add(back.len()))?;
    let mut i = 0;
    let mut j = 0;
    while i < front.len() && j < back.len() {
        let a = &front[i];
        let b = &back[j];
        match b.value().compare(a.value()) {
            Ordering::Less => {
                list.push(Lent::new(b.value(), b.count()))?;
                j += 1;
            }
            Ordering::Equal => {
                list.push(Lent::new(a.value(), a.count().saturating_add(b.count())))?;
                i += 1;
                j += 1;
            }
            Ordering::Greater => {
                list.push(Lent::new(a.value(), a.count()))?;
                i += 1;
            }
        }
    }
    lend_rest(&mut list, front, i)?;
    lend_rest(&mut list, back, j)?;
    Ok(list)
}

/// The groups of a part, borrowed from it.
fn groups_of(alloc: Global, part: &Part) -> Result<Vec<Lent<'_>>, AllocError>
    ensures { IfOk result (λ list. list.items ≡ unwrap_or part.now.answer.groups []) }
{
    match &part.groups {
        None => Ok(Vec::new(alloc)),
        Some(groups) => groups.lend(alloc),
    }
}

/// The groups of all parts: the groups of each half, merged. Their keywords stay in the segments.
fn merged_groups(alloc: Global, parts: &[Part]) -> Result<Vec<Lent<'_>>, AllocError>
    ensures { (field : ℕ) (lists : List (List (Stamped DocumentValue))) →
        AreGroupsOf field lists parts.now → length (joined lists) < 2 ^ 64 →
        IfOk result (λ list. list.items ≡ groups field (joined lists)) }
{
    match parts {
        [] => Ok(Vec::new(alloc)),
        [part] => groups_of(alloc, part),
        _ => {
            let (front, back) = parts.split_at(parts.len() / 2);
            let front = merged_groups(alloc, front)?;
            let back = merged_groups(alloc, back)?;
            merged(alloc, &front, &back)
        }
    }
}

/// Groups with values of their own.
fn copied(alloc: Global, groups: &[Lent<'_>]) -> Result<Vec<(GroupValue, u64)>, AllocError>
    ensures { IfOk result (λ list. list.items ≡ groups.now) }
{
    let mut list = Vec::with_capacity(alloc, groups.len())?;
    for group in groups {
        list.push((group.value().copied(alloc)?, group.count()))?;
    }
    Ok(list)
}

/// The groups of all parts. Each keyword is copied here, once.
pub(crate) fn joined_groups(
    alloc: Global,
    parts: &[Part],
) -> Result<Vec<(GroupValue, u64)>, AllocError>
    ensures { (field : ℕ) (lists : List (List (Stamped DocumentValue))) →
        AreGroupsOf field lists parts.now → length (joined lists) < 2 ^ 64 →
        IfOk result (λ list. list.items ≡ groups field (joined lists)) }
{
    let groups = merged_groups(alloc, parts)?;
    copied(alloc, &groups)
}
