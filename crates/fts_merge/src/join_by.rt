// Joins sources by several threads: each field is a job.
ghost use Rattle.std.specs.Prelude.{◌≡◌, ◌<◌, ◌≤◌, IfErr, IfOk, Ok, length, map};
ghost use Rattle.fts_base.specs.declared.refusal.Refusal.TheVariants.{Memory};
ghost use Rattle.fts_merge.specs.FieldJobs.{AreFieldJobs};
ghost use Rattle.fts_model.specs.Limits.{most_merged};
ghost use Rattle.fts_segment.specs.Sources.{AreOfOneSchema, joined_segment, live_count};

use crate::field_job::FieldJob;
use fts_model::Refusal;
use fts_pool::{Gate, run_all};
use fts_segment::{IndexedField, Joining, LiveSegment, Segment};
use std::alloc::{AllocError, Global};
use std::sync::Wait;
use std::thread::Threads;

/// A job for each field.
fn field_jobs<'j, 's, 'a>(
    alloc: Global,
    joining: &'j Joining<'s, 'a>,
) -> Result<Vec<FieldJob<'j, 's, 'a>>, AllocError>
    ensures { IfOk result (λ jobs. AreFieldJobs joining.entry.now (length joining.entry.now.schema) jobs.items) }
{
    let mut jobs = Vec::with_capacity(alloc, joining.fields())?;
    for number in 0..joining.fields() {
        jobs.push(FieldJob {
            alloc,
            joining,
            number,
        })?;
    }
    Ok(jobs)
}

/// The fields, unless memory was refused for one.
fn fields_of(
    alloc: Global,
    results: Vec<Result<IndexedField, AllocError>>,
) -> Result<Vec<IndexedField>, AllocError>
    ensures { IfOk result (λ fields. results.items ≡ map Ok fields.items) }
{
    let mut fields = Vec::with_capacity(alloc, results.len())?;
    for field in results {
        fields.push(field?)?;
    }
    Ok(fields)
}

/// Joins sources as [`join`](fts_segment::join) does, by up to this many threads, 1 to 64.
pub(crate) fn join_by<R: Threads + Wait + Sync, G: Gate>(
    rt: &R,
    alloc: Global,
    sources: &[LiveSegment<'_>],
    workers: usize,
    gate: &G,
) -> Result<Segment, Refusal>
    requires some { 0 < length sources.now }
    requires schemas { AreOfOneSchema sources.now }
    requires few { live_count sources.now ≤ most_merged }
    requires workers { (1 ≤ workers) × (workers ≤ 64) }
    ensures ok { IfOk result (λ segment. segment ≡ joined_segment sources.now) }
    ensures memory { IfErr result (λ e. e ≡ Memory) }
{
    let joining = Joining::new(alloc, sources)?;
    let jobs = field_jobs(alloc, &joining)?;
    let results = run_all(rt, alloc, &jobs, workers, gate)?;
    drop(jobs);
    let fields = fields_of(alloc, results)?;
    let segment = joining.finish(alloc, fields)?;
    Ok(segment)
}
