// A copy of a query, for jobs that outlive a caller's own.
ghost use Rattle.std.specs.Prelude.{◌≡◌, IfOk, map};
ghost use Rattle.std.specs.Arc.{arc_value};
ghost use Rattle.fts_model.specs.QueryValues.{query_value};

use fts_model::{FieldValue, Query, Text};
use std::alloc::{AllocError, Global};
use std::ops::Bound;
use std::sync::Arc;

/// A copy of a phrase's tokens with their offsets.
fn copy_of_pattern(alloc: Global, pattern: &[(u32, Text)]) -> Result<Vec<(u32, Text)>, AllocError>
    ensures { IfOk result (λ copy. copy.items ≡ pattern.now) }
{
    let mut copy = Vec::with_capacity(alloc, pattern.len())?;
    for (offset, token) in pattern {
        copy.push((*offset, token.clone()?))?;
    }
    Ok(copy)
}

/// A copy of a bound of a range.
fn copy_of_bound(bound: &Bound<FieldValue>) -> Result<Bound<FieldValue>, AllocError>
    ensures { IfOk result (λ copy. copy ≡ bound.now) }
{
    match bound {
        Bound::Included(value) => Ok(Bound::Included(value.clone()?)),
        Bound::Excluded(value) => Ok(Bound::Excluded(value.clone()?)),
        Bound::Unbounded => Ok(Bound::Unbounded),
    }
}

/// A copy of a query.
#[cycle(copies)]
fn copy_of(alloc: Global, query: &Query) -> Result<Query, AllocError>
    ensures { IfOk result (λ copy. query_value copy ≡ query_value query.now) }
{
    match query {
        Query::All => Ok(Query::All),
        Query::None => Ok(Query::None),
        Query::Term(term) => Ok(Query::Term(term.clone()?)),
        Query::Phrase { field, pattern } => Ok(Query::Phrase {
            field: *field,
            pattern: copy_of_pattern(alloc, pattern)?,
        }),
        Query::Range {
            field,
            lower,
            upper,
        } => Ok(Query::Range {
            field: *field,
            lower: copy_of_bound(lower)?,
            upper: copy_of_bound(upper)?,
        }),
        Query::Bool {
            must,
            must_not,
            should,
        } => Ok(Query::Bool {
            must: copy_of_all(alloc, must)?,
            must_not: copy_of_all(alloc, must_not)?,
            should: copy_of_all(alloc, should)?,
        }),
    }
}

/// A copy of each query.
#[cycle(copies)]
fn copy_of_all(alloc: Global, queries: &[Query]) -> Result<Vec<Query>, AllocError>
    ensures { IfOk result (λ copies. map query_value copies.items ≡ map query_value queries.now) }
{
    let mut copies = Vec::with_capacity(alloc, queries.len())?;
    for query in queries {
        copies.push(copy_of(alloc, query)?)?;
    }
    Ok(copies)
}

/// A copy of a query that several jobs may share.
pub(crate) fn shared_query_copy(alloc: Global, query: &Query) -> Result<Arc<Query>, AllocError>
    ensures { IfOk result (λ copy. query_value (arc_value copy) ≡ query_value query.now) }
{
    let copy = copy_of(alloc, query)?;
    Ok(Arc::new(alloc, copy)?)
}
