// The bits of a dense list of documents.
ghost use Rattle.std.specs.Prelude.{◌≡◌, ◌<◌, IfOk, IfSome, length, true};
ghost use Rattle.std.specs.List.Sorted.{IsStrictlyIncreasing};
ghost use Rattle.fts_pack.specs.ListBits.{AreBitsOf};

use crate::bits::Bits;
use std::alloc::{AllocError, Global};

/// Whether the list has at least one in 64 of the documents up to its last.
fn is_dense(documents: &[u32]) -> bool
    ensures { result ≡ true → 0 < length documents.now }
{
    match documents.last() {
        None => false,
        Some(last) => *last as usize / 64 < documents.len(),
    }
}

/// A bit for each document up to the last, if the list is dense.
pub(crate) fn list_bits(alloc: Global, documents: &[u32]) -> Result<Option<Bits>, AllocError>
    requires { IsStrictlyIncreasing documents.now }
    ensures { IfOk result (λ bits. IfSome bits (AreBitsOf documents.now)) }
{
    if !is_dense(documents) {
        return Ok(None);
    }
    let last = documents[documents.len() - 1];
    let bits = Bits::of_documents(alloc, last as usize + 1, documents)?;
    Ok(Some(bits))
}
