// Rounds of one lane.
ghost use Rattle.std.specs.Prelude.{◌≡◌, IfOk};
ghost use Rattle.fts_rounds.specs.Rounds.{SameLane};

use crate::fixtures::document;
use fts_index::{Batch, Lane, LaneEnd, Writer};
use fts_model::{FieldValue, Op, Refusal, Schema, Term, Text};
use std::alloc::Global;

/// The add of a document with this tag, or without a value if the tag is empty.
pub fn add(alloc: Global, schema: &Schema, tag: &str) -> Result<Op, Refusal> {
    if tag.is_empty() {
        return Ok(Op::Add(document(alloc, schema, "{}")?));
    }
    let json = format!(in alloc; "{{\"tag\":\"{tag}\"}}")?;
    Ok(Op::Add(document(alloc, schema, json.as_str())?))
}

/// A delete of the documents with this tag.
pub fn delete(alloc: Global, tag: &str) -> Result<Op, Refusal> {
    let value = FieldValue::Text(Text::new(String::from_str(alloc, tag)?));
    Ok(Op::Delete(Term { field: 1, value }))
}

/// Submits operations to a round's one lane.
fn submit_all(lane: Lane, ops: Vec<Op>) -> Result<LaneEnd, Refusal>
    ensures { IfOk result (λ end. SameLane lane end) }
{
    let mut lane = lane;
    for op in ops {
        lane.submit(op).map_err(|e| e.1)?;
    }
    Ok(lane.end())
}

/// A round of one lane with these operations.
pub fn batch_of(alloc: Global, writer: &mut Writer, ops: Vec<Op>) -> Result<Batch, Refusal>
    ensures { writer.new.front ≡ writer.old.front }
{
    let (round, mut lanes) = writer.open_round(alloc, 1, 1_000)?;
    let Some(lane) = lanes.pop() else {
        return Err(Refusal::RoundOpen);
    };
    let end = submit_all(lane, ops)?;
    let ends = vec![in alloc; end]?;
    round.gather(alloc, ends).map_err(|e| e.2)
}

/// The operation of a tag: one after `+` is added, one after `-` is deleted, and an empty one deletes all.
fn op_of(alloc: Global, schema: &Schema, tag: &str) -> Result<Op, Refusal> {
    match tag.split_at_checked(1) {
        Some(("+", tag)) => add(alloc, schema, tag),
        Some((_, tag)) => delete(alloc, tag),
        None => Ok(Op::DeleteAll),
    }
}

/// The operation of each tag.
fn ops_of(alloc: Global, schema: &Schema, tags: &[&str]) -> Result<Vec<Op>, Refusal> {
    let mut ops = Vec::new(alloc);
    for tag in tags {
        ops.push(op_of(alloc, schema, tag)?)?;
    }
    Ok(ops)
}

/// A round of one lane with the operations of these tags.
pub fn batch(alloc: Global, writer: &mut Writer, tags: &[&str]) -> Result<Batch, Refusal>
    ensures { writer.new.front ≡ writer.old.front }
{
    let schema = writer.schema().clone()?;
    let ops = ops_of(alloc, &schema, tags)?;
    batch_of(alloc, writer, ops)
}
