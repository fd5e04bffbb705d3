// The field of a merge as a job of a pool.
ghost use Rattle.std.specs.Prelude.{◌<◌, length};

use fts_pool::Job;
use fts_segment::{IndexedField, Joining};
use std::alloc::{AllocError, Global};

/// The index of a field of a merge as a job.
#[derive(Drop)]
pub(crate) struct FieldJob<'j, 's, 'a> {
    pub(crate) alloc: Global,
    pub(crate) joining: &'j Joining<'s, 'a>,
    pub(crate) number: usize,
    ghost is_field: { number < length joining.now.schema },
}

impl Job for FieldJob<'_, '_, '_> {
    ghost use Rattle.fts_merge.specs.FieldJobs.{Indexes};

    type Out = Result<IndexedField, AllocError>;

    ghost gives = { Indexes };

    fn cost(&self) -> u64 {
        self.joining.cost(self.number)
    }

    fn run(&self) -> Result<IndexedField, AllocError> {
        self.joining.field(self.alloc, self.number)
    }
}
