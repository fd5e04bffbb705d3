// Clears the live bits of documents that operations of a later stamp delete.
ghost use Rattle.std.specs.Prelude.{◌≡◌, ◌+◌, ◌<◌, not, take, nat_lt, All, IfOk, IsOkUnless, List, Bool, fold, length};
ghost use Rattle.fts_pack.specs.ListRef.{listed};
ghost use Rattle.fts_merge.specs.Strikes.{bits_where, bits_after};
ghost use Rattle.fts_merge.specs.Internals.Deletes.{bound_by, bound_of, IsFound, strikes_found, survives_found};
ghost use Rattle.fts_merge.specs.Internals.Deletes.{cleared};

use crate::term_delete::{TermDelete, compare_deletes, is_covered, term_deletes};
use fts_model::{Op, Refusal, Stamp, Stamped};
use fts_pack::bits::Bits;
use fts_pack::{Blocks, ListRef};
use fts_segment::Segment;
use std::alloc::Global;

/// The stamp below which an operation deletes all documents: that of a delete of all, and otherwise 0.
fn bound_by(op: &Stamped<Op>) -> Stamp
    ensures { result ≡ bound_by op.now.stamp op.now.value }
{
    match op.value {
        Op::DeleteAll => op.stamp,
        Op::Add(_) | Op::Delete(_) => 0,
    }
}

/// The stamp below which operations delete all documents.
fn bound(ops: &[Stamped<Op>]) -> Stamp
    ensures { result ≡ bound_of ops.now }
{
    let mut bound = 0;
    for op in ops {
        bound = bound_by(op).max(bound);
    }
    bound
}

/// Clears the bits of the documents of smaller stamp.
fn strike_all(live: &mut Bits, segment: &Segment, stamp: Stamp)
    requires { length live.old ≡ length segment.now.documents }
    ensures { live.new
        ≡ bits_where (λ d. not (nat_lt d.stamp stamp)) segment.now.documents live.old }
{
    if stamp > 0 {
        for document in 0..segment.docs() {
            strike_document(live, segment, document, stamp);
        }
    }
}

/// Clears the bit of a document if its stamp is smaller.
fn strike_document(live: &mut Bits, segment: &Segment, document: usize, stamp: Stamp)
    requires bits { length live.old ≡ length segment.now.documents }
    requires within { document < length segment.now.documents }
    ensures { live.new ≡ cleared segment.now.documents stamp live.old document }
{
    if segment.stamp(document) < stamp {
        live.clear(document);
    }
}

/// Clears the bits of those of these documents whose stamps are smaller.
fn strike_documents(live: &mut Bits, segment: &Segment, documents: &[u32], stamp: Stamp)
    requires bits { length live.old ≡ length segment.now.documents }
    requires within { All (λ document. document < length segment.now.documents) documents.now }
    ensures { live.new ≡ fold (cleared segment.now.documents stamp) live.old documents.now }
{
    for document in documents {
        strike_document(live, segment, *document as usize, stamp);
    }
}

/// Clears the bits of those documents of a list whose stamps are smaller.
fn strike_list(live: &mut Bits, segment: &Segment, list: ListRef<'_>, stamp: Stamp)
    requires bits { length live.old ≡ length segment.now.documents }
    requires within { All (λ document. document < length segment.now.documents) (listed list) }
    ensures { live.new ≡ fold (cleared segment.now.documents stamp) live.old (listed list.entry) }
{
    let mut source = list.source();
    let mut documents = [0; 128];
    for block in 0..source.blocks() {
        let count = source.open(block, &mut documents);
        strike_documents(live, segment, &documents[..count], stamp);
    }
}

/// Clears the bits of the documents that a delete of a term applies to.
fn strike_by(live: &mut Bits, segment: &Segment, delete: &TermDelete<'_>)
    requires bits { length live.old ≡ length segment.now.documents }
    requires is { IsFound segment.now delete.now }
    ensures { live.new ≡ bits_where (λ d. not (strikes_found segment.now.schema delete.now d))
        segment.now.documents live.old }
{
    strike_list(live, segment, delete.documents, delete.stamp);
}

/// Clears the bits for one of the deletes, unless the one before it covers it.
fn strike_next(live: &mut Bits, segment: &Segment, deletes: &[TermDelete<'_>], number: usize)
    requires bits { length live.old ≡ length segment.now.documents }
    requires are { All (IsFound segment.now) deletes.now }
    requires within { number < length deletes.now }
    ensures bits { length live.new ≡ length segment.now.documents }
    ensures struck { (before : List Bool)
        → live.old ≡ bits_where (survives_found segment.now.schema (take number deletes.now))
        segment.now.documents before
        → live.new ≡ bits_where (survives_found segment.now.schema (take (number + 1) deletes.now))
        segment.now.documents before }
{
    if is_covered(deletes, number) {
        return;
    }
    strike_by(live, segment, &deletes[number]);
}

/// Clears the bits of the documents that deletes of terms apply to.
fn strike_found(live: &mut Bits, segment: &Segment, deletes: &[TermDelete<'_>])
    requires bits { length live.old ≡ length segment.now.documents }
    requires are { All (IsFound segment.now) deletes.now }
    ensures { live.new ≡ bits_where (survives_found segment.now.schema deletes.now)
        segment.now.documents live.old }
{
    for number in 0..deletes.len() {
        strike_next(live, segment, deletes, number);
    }
}

/// The live bits of a segment after operations: a document is live if it was and no operation of a later stamp deletes
/// it.
///
/// Each delete of a term is looked up, and only the latest of each term visits the documents that have it. All deletes
/// of all documents together take one pass over the stamps. Adds delete nothing. The operations may be in any order,
/// and so may the documents.
pub fn strike(
    alloc: Global,
    segment: &Segment,
    live: &Bits,
    ops: &[Stamped<Op>],
) -> Result<Bits, Refusal>
    requires { length live.now ≡ length segment.now.documents }
    ensures ok { IfOk result (λ left.
        left ≡ bits_after segment.now.schema ops.now segment.now.documents live.now) }
    ensures memory { IsOkUnless result Refusal.Memory }
{
    let mut left = live.copied(alloc)?;
    let mut deletes = term_deletes(alloc, segment, ops)?;
    deletes.sort_unstable_by(compare_deletes);
    strike_all(&mut left, segment, bound(ops));
    strike_found(&mut left, segment, &deletes);
    Ok(left)
}
