// The documents alive after operations, which are applied one after the other.
ghost use Rattle.std.specs.Prelude.{◌≡◌, ◌++◌, ◌∷◌, [], IfOk, Ok, not, filter};
ghost use Rattle.fts_base.specs.Results.{Gives};
ghost use Rattle.fts_model.specs.Operations.{has, strikes, alive};

use crate::terms::document_has;
use fts_model::{Document, Op, Refusal, Schema, Stamped, Term};
use std::alloc::{AllocError, Global};

/// The documents that do not have a term.
fn strike(
    alloc: Global,
    schema: &Schema,
    term: &Term,
    documents: Vec<Stamped<Document>>,
    scratch: &mut String,
) -> Result<Vec<Stamped<Document>>, AllocError>
    ensures { IfOk result
        (λ left. left.items ≡ filter (λ d. not (has schema.now d.value term.now)) documents.items) }
{
    let mut left = Vec::new(alloc);
    for document in documents {
        if !document_has(schema, &document.value, term, scratch)? {
            left.push(document)?;
        }
    }
    Ok(left)
}

/// The documents alive after one more operation.
fn after(
    alloc: Global,
    schema: &Schema,
    op: &Stamped<Op>,
    mut documents: Vec<Stamped<Document>>,
    scratch: &mut String,
) -> Result<Vec<Stamped<Document>>, AllocError>
    ensures { IfOk result
        (λ left. left.items
        ≡ filter (λ d. not (strikes schema.now op.now.value d.value)) documents.items
        ++ alive schema.now (op.now ∷ [])) }
{
    match &op.value {
        Op::Add(document) => {
            let value = document.clone()?;
            let stamp = op.stamp;
            documents.push(Stamped { stamp, value })?;
            Ok(documents)
        }
        Op::Delete(term) => strike(alloc, schema, term, documents, scratch),
        Op::DeleteAll => Ok(Vec::new(alloc)),
    }
}

/// The documents alive after operations in the order of their stamps, each with its own stamp.
///
/// The cost of an add doesn't depend on the other operations; a delete looks at each document that is alive before it.
/// The only refusal is `Memory`.
pub fn alive(
    alloc: Global,
    schema: &Schema,
    ops: &[Stamped<Op>],
) -> Result<Vec<Stamped<Document>>, Refusal>
    ensures { Gives (λ documents. documents.items) result (Ok (alive schema.now ops.now)) }
{
    let mut scratch = String::new(alloc);
    let mut documents = Vec::new(alloc);
    for op in ops {
        documents = after(alloc, schema, op, documents, &mut scratch)?;
    }
    Ok(documents)
}
