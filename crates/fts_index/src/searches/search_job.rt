// The job of a search: it owns what it asks of one segment, so that threads may have it that stay.
ghost use Rattle.std.specs.Prelude.{◌≡◌, true, IfOk};
ghost use Rattle.std.specs.Arc.{arc_value};
ghost use Rattle.fts_model.specs.Queries.{query_fits, request_fits};
ghost use Rattle.fts_model.specs.QueryValues.{query_value};

use fts_collect::{Part, search_segment};
use fts_model::{Query, Refusal, Request};
use fts_pool::Job;
use fts_snapshots::Entry;
use std::alloc::{AllocError, Global};
use std::sync::Arc;

/// A query and a request, for the live documents of one segment. It shares the segment and the query with others.
#[derive(Drop)]
pub struct SearchJob {
    alloc: Global,
    entry: Entry,
    query: Arc<Query>,
    request: Request,
    ghost query_fits: { query_fits entry.segment.schema (query_value (arc_value query)) ≡ true },
    ghost request_fits: { request_fits entry.segment.schema request ≡ true },
}

impl SearchJob {
    pub(crate) fn new(
        alloc: Global,
        entry: &Entry,
        query: &Arc<Query>,
        request: &Request,
    ) -> Result<SearchJob, AllocError>
        requires query { query_fits entry.now.segment.schema (query_value (arc_value query.now)) ≡ true }
        requires request { request_fits entry.now.segment.schema request.now ≡ true }
        ensures entry { IfOk result (λ job. job.entry ≡ entry.now) }
        ensures query { IfOk result (λ job.
            query_value (arc_value job.query) ≡ query_value (arc_value query.now)) }
        ensures request { IfOk result (λ job. job.request ≡ request.now) }
    {
        let entry = entry.clone()?;
        let query = Arc::try_clone(query)?;
        Ok(SearchJob {
            alloc,
            entry,
            query,
            request: *request,
        })
    }
}

impl Job for SearchJob {
    ghost use Rattle.fts_index.specs.SearchJobs.{AnswersSearch};

    type Out = Result<Part, Refusal>;

    ghost gives = { AnswersSearch };

    /// The number of documents: as for `search_cost`, the segments are taken to be alike. To look each of them up would
    /// take as long as some searches.
    fn cost(&self) -> u64 {
        self.entry.segment().docs() as u64
    }

    fn run(&self) -> Result<Part, Refusal> {
        search_segment(self.alloc, &self.entry, &self.query, &self.request)
    }
}
