// The answer over live documents: the hits are counted, their values in the field of the groups are sorted so that
// equal ones are adjacent, and the hits are inserted into the top list one by one.
ghost use Rattle.std.specs.Prelude.{◌≡◌, ◌++◌, ◌∷◌, [], IfOk, OnOk, Ok, option_map, option_to_list};
ghost use Rattle.std.specs.Prelude.{fold, take};
ghost use Rattle.fts_base.specs.Results.{Gives};
ghost use Rattle.fts_model.specs.QueryValues.{query_value};
ghost use Rattle.fts_model.specs.Queries.{hits};
ghost use Rattle.fts_model.specs.Answers.{answer, number_in_field, group_in, groups_in, groups, comes_before, hit_in};
ghost use Rattle.fts_model.specs.Answers.{put_hit, top};
ghost use Rattle.fts_scan.specs.Scans.{counts_of_sorted, is_one_group, hit_place};

use crate::matcher::query_matches;
use fts_model::{
    Answer, Document, FieldValue, GroupValue, Hit, Number, Order, Query, Refusal, Request, Schema,
    Stamped, Top,
};
use itertools::Itertools;
use std::alloc::{AllocError, Global};
use std::cmp::Ordering;

/// Appends a copy of a document; the copy shares its data.
fn push_copy(
    documents: &mut Vec<Stamped<Document>>,
    document: &Stamped<Document>,
) -> Result<(), AllocError>
    ensures { OnOk result (documents.new.items ≡ documents.old.items ++ document.now ∷ []) }
{
    let value = document.value.clone()?;
    let stamp = document.stamp;
    documents.push(Stamped { stamp, value })?;
    Ok(())
}

/// Appends a copy of a document if a query matches it.
fn push_if_hit(
    schema: &Schema,
    query: &Query,
    found: &mut Vec<Stamped<Document>>,
    document: &Stamped<Document>,
    scratch: &mut String,
) -> Result<(), AllocError>
    ensures { OnOk result (found.new.items ≡ found.old.items
        ++ hits schema.now (query_value query.now) (document.now ∷ [])) }
{
    if !query_matches(schema, query, &document.value, scratch)? {
        return Ok(());
    }
    push_copy(found, document)
}

/// The documents that a query matches.
fn hits(
    alloc: Global,
    schema: &Schema,
    query: &Query,
    documents: &[Stamped<Document>],
) -> Result<Vec<Stamped<Document>>, AllocError>
    ensures { IfOk result
        (λ found. found.items ≡ hits schema.now (query_value query.now) documents.now) }
{
    let mut scratch = String::new(alloc);
    let mut hits = Vec::new(alloc);
    for document in documents {
        push_if_hit(schema, query, &mut hits, document, &mut scratch)?;
    }
    Ok(hits)
}

/// The number of a document in a field, if it has one.
fn number_in_field(document: &Document, field: usize) -> Option<Number>
    ensures { result ≡ number_in_field document.now field }
{
    match document.value(field)? {
        FieldValue::Number(number) => Some(*number),
        FieldValue::Text(_) | FieldValue::Texts(_) => None,
    }
}

/// Appends the value of a hit in a field, if it has one.
fn push_value(
    values: &mut Vec<GroupValue>,
    field: usize,
    hit: &Stamped<Document>,
) -> Result<(), AllocError>
    ensures { OnOk result (values.new.items
        ≡ values.old.items ++ option_to_list (group_in hit.now.value field)) }
{
    let Some(value) = hit.value.value(field) else {
        return Ok(());
    };
    match GroupValue::of(value)? {
        None => Ok(()),
        Some(value) => {
            values.push(value)?;
            Ok(())
        }
    }
}

/// The values of the hits in a field.
fn values_in(
    alloc: Global,
    field: usize,
    hits: &[Stamped<Document>],
) -> Result<Vec<GroupValue>, AllocError>
    ensures { IfOk result (λ values. values.items ≡ groups_in field hits.now) }
{
    let mut values = Vec::new(alloc);
    for hit in hits {
        push_value(&mut values, field, hit)?;
    }
    Ok(values)
}

/// Counts runs of equal values in a sorted list.
fn counts_of_sorted(
    alloc: Global,
    values: Vec<GroupValue>,
) -> Result<Vec<(GroupValue, u64)>, AllocError>
    ensures { IfOk result (λ counts. counts.items ≡ counts_of_sorted is_one_group values.items) }
{
    values
        .into_iter()
        .dedup_by_with_count(|a, b| a.compare(b) == Ordering::Equal)
        .map(|(count, value)| (value, count as u64))
        .collect(alloc)
}

/// Each value of the hits in a field, rising, with the number of hits that have it.
fn groups(
    alloc: Global,
    field: usize,
    hits: &[Stamped<Document>],
) -> Result<Vec<(GroupValue, u64)>, AllocError>
    ensures { IfOk result (λ found. found.items ≡ groups field hits.now) }
{
    let mut values = values_in(alloc, field, hits)?;
    values.sort_unstable_by(|a, b| a.compare(b));
    counts_of_sorted(alloc, values)
}

/// Whether one hit comes before another in a top list.
fn comes_before(order: Order, a: &Hit, b: &Hit) -> bool
    ensures { result ≡ comes_before order a.now b.now }
{
    match order.compare(a.value, b.value) {
        Ordering::Less => true,
        Ordering::Equal => a.stamp < b.stamp,
        Ordering::Greater => false,
    }
}

/// The number of hits in an ordered list before the first that `hit` comes before.
fn hit_place(order: Order, hits: &[Hit], hit: &Hit) -> usize
    ensures { result ≡ hit_place order hits.now hit.now }
{
    for (i, other) in hits.iter().enumerate() {
        if comes_before(order, hit, other) {
            return i;
        }
    }
    hits.len()
}

/// Inserts a hit into an ordered list of at most `k`, and drops the last if the list becomes longer.
fn put_hit(order: Order, k: u64, hits: &mut Vec<Hit>, hit: Hit) -> Result<(), AllocError>
    ensures { OnOk result (hits.new.items ≡ take k (put_hit order hits.old.items hit)) }
{
    let place = hit_place(order, hits, &hit);
    hits.insert(place, hit)?;
    hits.truncate(k as usize);
    Ok(())
}

/// The document as a hit of a top list by a field, if it has a number in the field.
fn hit_in(field: usize, hit: &Stamped<Document>) -> Result<Option<Hit>, AllocError>
    ensures { IfOk result (λ found. found ≡ hit_in field hit.now) }
{
    let Some(value) = number_in_field(&hit.value, field) else {
        return Ok(None);
    };
    let document = hit.value.clone()?;
    let stamp = hit.stamp;
    Ok(Some(Hit {
        stamp,
        value,
        document,
    }))
}

/// Inserts a document into a top list, if it has a number in its field.
fn take_hit(top: Top, list: &mut Vec<Hit>, hit: &Stamped<Document>) -> Result<(), AllocError>
    ensures { OnOk result (list.new.items
        ≡ fold (λ hits h. take top.k (put_hit top.order hits h)) list.old.items
        (option_to_list (hit_in top.by hit.now))) }
{
    match hit_in(top.by, hit)? {
        None => Ok(()),
        Some(hit) => put_hit(top.order, top.k, list, hit),
    }
}

/// The first hits that have a number in the top list's field.
fn top(alloc: Global, wanted: Top, hits: &[Stamped<Document>]) -> Result<Vec<Hit>, AllocError>
    ensures { IfOk result (λ list. list.items ≡ top wanted.k wanted.order wanted.by hits.now) }
{
    let mut list = Vec::new(alloc);
    for hit in hits {
        take_hit(wanted, &mut list, hit)?;
    }
    Ok(list)
}

/// The groups, if the request asks for them.
fn asked_groups(
    alloc: Global,
    request: &Request,
    hits: &[Stamped<Document>],
) -> Result<Option<Vec<(GroupValue, u64)>>, AllocError>
    ensures { IfOk result
        (λ found. option_map (λ g. g.items) found
        ≡ option_map (λ field. groups field hits.now) request.now.groups) }
{
    match request.groups {
        None => Ok(None),
        Some(field) => Ok(Some(groups(alloc, field, hits)?)),
    }
}

/// The top list, if the request asks for one.
fn asked_top(
    alloc: Global,
    request: &Request,
    hits: &[Stamped<Document>],
) -> Result<Option<Vec<Hit>>, AllocError>
    ensures { IfOk result
        (λ list. option_map (λ l. l.items) list
        ≡ option_map (λ t. top t.k t.order t.by hits.now) request.now.top) }
{
    match request.top {
        None => Ok(None),
        Some(wanted) => Ok(Some(top(alloc, wanted, hits)?)),
    }
}

/// The answer to a query and a request over documents in the order of their stamps. The only refusal is `Memory`.
pub fn answer(
    alloc: Global,
    schema: &Schema,
    query: &Query,
    request: &Request,
    documents: &[Stamped<Document>],
) -> Result<Answer, Refusal>
    ensures { Gives (λ found. found) result
        (Ok (answer schema.now (query_value query.now) request.now documents.now)) }
{
    let hits = hits(alloc, schema, query, documents)?;
    let count = hits.len() as u64;
    let groups = asked_groups(alloc, request, &hits)?;
    let top = asked_top(alloc, request, &hits)?;
    Ok(Answer { count, groups, top })
}
