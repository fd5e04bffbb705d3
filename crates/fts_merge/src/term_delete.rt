// Deletes of terms that documents of a segment have.
ghost use Rattle.std.specs.Prelude.{◌≡◌, ◌+◌, ◌<◌, ◌++◌, ◌∷◌, [], List, take, true, false, length};
ghost use Rattle.std.specs.Prelude.{All, IfNone, IfOk, IfSome, OnOk};
ghost use Rattle.fts_model.specs.declared.schema.Field.{Field};
ghost use Rattle.fts_model.specs.declared.operation.Op.{Op};
ghost use Rattle.fts_model.specs.declared.operation.Stamped.{Stamped};
ghost use Rattle.fts_model.specs.Documents.{DocumentValue};
ghost use Rattle.fts_merge.specs.Internals.Deletes.{IsFound, StrikeAlike, strikes_by_term, strikes_found};
ghost use Rattle.fts_merge.specs.Internals.Deletes.{survives_found};

use fts_model::{FieldValue, Number, Op, Stamp, Stamped, Term, Text};
use fts_pack::{Blocks, ListRef};
use fts_segment::Segment;
use std::alloc::{AllocError, Global};
use std::cmp::Ordering;

/// A delete of a term, with the documents that have it.
#[derive(Clone, Copy)]
pub(crate) struct TermDelete<'a> {
    pub(crate) stamp: Stamp,
    pub(crate) term: &'a Term,
    pub(crate) documents: ListRef<'a>,
    /// A cheap key (length, last document of the first block) that rarely collides between terms; used for sorting.
    pub(crate) shape: (usize, u32),
}

/// The number of documents, and the last one of the first block.
fn shape_of(documents: ListRef<'_>) -> (usize, u32) {
    if documents.is_empty() {
        return (0, 0);
    }
    (documents.len(), documents.source().last(0))
}

/// The delete of an operation, if it deletes a term that a document has.
fn term_delete_of<'a>(segment: &'a Segment, op: &'a Stamped<Op>) -> Option<TermDelete<'a>>
    ensures none { IfNone result (All (λ d. strikes_by_term segment.now.schema op.now.stamp op.now.value d ≡ false)
        segment.now.documents) }
    ensures some { IfSome result (IsFound segment.now) }
    ensures strikes { IfSome result (λ delete. (d : Stamped DocumentValue) → strikes_found segment.now.schema delete d
        ≡ strikes_by_term segment.now.schema op.now.stamp op.now.value d) }
{
    match &op.value {
        Op::Delete(term) => {
            let list = segment.find(term)?;
            let documents = segment.postings(list);
            Some(TermDelete {
                stamp: op.stamp,
                term,
                documents,
                shape: shape_of(documents),
            })
        }
        Op::Add(_) => None,
        Op::DeleteAll => None,
    }
}

/// Appends the delete of an operation, if it deletes a term that a document has.
fn push_found<'a>(
    deletes: &mut Vec<TermDelete<'a>>,
    segment: &'a Segment,
    op: &'a Stamped<Op>,
) -> Result<(), AllocError>
    requires { All (IsFound segment.now) deletes.old.items }
    ensures are { OnOk result (All (IsFound segment.now) deletes.new.items) }
    ensures alike { OnOk result ((ops : List (Stamped Op))
        → StrikeAlike segment.now.schema deletes.old.items ops segment.now.documents
        → StrikeAlike segment.now.schema deletes.new.items (ops ++ op.now ∷ []) segment.now.documents) }
{
    match term_delete_of(segment, op) {
        Some(delete) => {
            deletes.push(delete)?;
            Ok(())
        }
        None => Ok(()),
    }
}

/// The deletes of terms that documents have.
pub(crate) fn term_deletes<'a>(
    alloc: Global,
    segment: &'a Segment,
    ops: &'a [Stamped<Op>],
) -> Result<Vec<TermDelete<'a>>, AllocError>
    ensures are { IfOk result (λ deletes. All (IsFound segment.now) deletes.items) }
    ensures alike { IfOk result
        (λ deletes. StrikeAlike segment.now.schema deletes.items ops.now segment.now.documents) }
{
    let mut deletes = Vec::new(alloc);
    for op in ops {
        push_found(&mut deletes, segment, op)?;
    }
    Ok(deletes)
}

/// An order in which deletes of one term are adjacent, the latest first.
pub(crate) fn compare_deletes(delete: &TermDelete<'_>, other: &TermDelete<'_>) -> Ordering {
    delete
        .shape
        .cmp(&other.shape)
        .then_with(|| order_of_terms(delete.term, other.term))
        .then_with(|| other.stamp.cmp(&delete.stamp))
}

/// An order in which equal terms are adjacent.
fn order_of_terms(term: &Term, other: &Term) -> Ordering {
    term.field.cmp(&other.field).then_with(|| match (&term.value, &other.value) {
        (FieldValue::Text(text), FieldValue::Text(other)) => text.as_str().cmp(other.as_str()),
        (FieldValue::Number(number), FieldValue::Number(other)) => number.compare(*other),
        (_, _) => Ordering::Equal,
    })
}

/// Whether two terms are equal.
fn is_same(term: &Term, other: &Term) -> bool
    ensures { result ≡ true → term.now ≡ other.now }
{
    term == other
}

/// Whether a delete applies to each document that another one applies to: it has the same term, and isn't earlier.
fn covers(delete: &TermDelete<'_>, other: &TermDelete<'_>) -> bool
    ensures { result ≡ true → (schema : List Field) (d : Stamped DocumentValue)
        → strikes_found schema other.now d ≡ true → strikes_found schema delete.now d ≡ true }
{
    if delete.stamp < other.stamp {
        return false;
    }
    is_same(delete.term, other.term)
}

/// Whether the previous delete already covers this one. In this order, that is every delete but the latest of each
/// term.
pub(crate) fn is_covered(deletes: &[TermDelete<'_>], number: usize) -> bool
    requires { number < length deletes.now }
    ensures { result ≡ true → (schema : List Field) (d : Stamped DocumentValue)
        → survives_found schema (take number deletes.now) d ≡ survives_found schema (take (number + 1) deletes.now) d }
{
    if number == 0 {
        return false;
    }
    covers(&deletes[number - 1], &deletes[number])
}
