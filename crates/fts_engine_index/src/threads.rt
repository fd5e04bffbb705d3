// How many threads search the segments.
ghost use Rattle.std.specs.Prelude.{◌≤◌};

use fts_engine::Options;
use fts_index::Searcher;
use fts_model::{Query, Request};

/// How many of the workers search the segments: as many as the estimated work is worth, and at least one. The answer is
/// the same with any number.
pub(crate) fn threads_for(
    options: Options,
    searcher: &Searcher,
    query: &Query,
    request: &Request,
) -> usize
    ensures some { 1 ≤ result }
    ensures most { result ≤ options.workers }
{
    let wanted = options.workers;
    if wanted == 1 {
        return 1;
    }
    let worth = searcher.cost(query, request) / options.worth_a_thread.max(1);
    wanted.min(worth.max(1) as usize)
}
