// The trees of Boolean queries whose hits are told by their number.
ghost use Rattle.std.specs.Prelude.{◌≡◌, ℕ, ◌&&◌, true, not, nat_lt, IfOk, IfSome, length, map};
ghost use Rattle.std.specs.List.{list_all};
ghost use Rattle.fts_model.specs.Queries.{query_fits};
ghost use Rattle.fts_model.specs.QueryValues.{query_list, query_value};
ghost use Rattle.fts_cursor.specs.Hits.{segment_hits};
ghost use Rattle.fts_cursor.specs.Most.{Opens, are_mixed, is_free};
ghost use Rattle.fts_cursor.specs.Tests.{hits_of_each};
ghost use Rattle.fts_postings.specs.Sets.{has, in_some};

use crate::hit_sets::{keep_hits, push_queries};
use crate::range::fewest_scanned;
use crate::terms::are_terms;
use crate::tree::Tree;
use fts_model::Query;
use fts_segment::Segment;
use fts_sets::{DocIdSet, SetCursor};
use std::alloc::{AllocError, Global};

/// The tree of the hits of a Boolean query that needn't open a block, if bits and columns tell them as in `hit_set`. A
/// range that few documents are in is better listed, and so is what lists without bits have.
#[inline(never)]
pub(crate) fn told<'a>(
    alloc: Global,
    segment: &'a Segment,
    query: &Query,
) -> Result<Option<Tree<'a>>, AllocError>
    requires fits { query_fits segment.now.schema (query_value query.now) ≡ true }
    ensures remaining { IfOk result (λ found. IfSome found
        (λ t. t.remaining ≡ segment_hits segment.now (query_value query.now))) }
    ensures opens { IfOk result (λ found. IfSome found
        (λ t. Opens segment.now (query_value query.now) t.standing)) }
{
    if !is_free(query) {
        return Ok(None);
    }
    let docs = segment.docs();
    let mut hits = DocIdSet::every(alloc, docs);
    if !keep_hits(alloc, segment, query, fewest_scanned(docs), &mut hits)? {
        return Ok(None);
    }
    let tree = Tree::scan(alloc, SetCursor::new(hits, None))?;
    Ok(Some(tree))
}

/// Whether nothing says of a query that it opens blocks: it is Boolean, and has must-nots, or musts that aren't all
/// terms, or no must and several shoulds that aren't all terms.
fn is_free(query: &Query) -> bool
    ensures { result ≡ is_free (query_value query.now) }
{
    match query {
        Query::Bool {
            must,
            must_not,
            should,
        } => {
            if !must_not.is_empty() {
                return true;
            }
            if !must.is_empty() {
                return !are_terms(must);
            }
            are_mixed(should)
        }
        Query::All | Query::None | Query::Term(_) | Query::Phrase { .. } | Query::Range { .. } =>
            false,
    }
}

/// Whether these are several queries that aren't all terms.
fn are_mixed(queries: &[Query]) -> bool
    ensures { result ≡ are_mixed (query_list (map query_value queries.now)) }
{
    if queries.len() < 2 {
        return false;
    }
    !are_terms(queries)
}

/// The documents that match none of some queries, if bits and columns tell them.
pub(crate) fn set_without<'a>(
    alloc: Global,
    segment: &'a Segment,
    queries: &[Query],
) -> Result<Option<DocIdSet<'a>>, AllocError>
    requires { list_all (λ q. query_fits segment.now.schema (query_value q)) queries.now ≡ true }
    ensures { IfOk result (λ found. IfSome found (λ set. (d : ℕ) → has set d
        ≡ (nat_lt d (length segment.now.documents) && not (in_some (hits_of_each segment.now queries.now) d)))) }
{
    let mut leaves = Vec::new(alloc);
    if !push_queries(segment, queries, 0, &mut leaves)? {
        return Ok(None);
    }
    let mut set = DocIdSet::every(alloc, segment.docs());
    set.without_each(&leaves)?;
    Ok(Some(set))
}
