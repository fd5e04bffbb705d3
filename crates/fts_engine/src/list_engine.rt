// An index as a plain list of documents: the first engine of scripts, and the comparison for every later one.
ghost use Rattle.std.specs.Prelude.{◌≡◌, ◌++◌, ◌∷◌, [], Ok, IfOk, IfErr, OnOk, OnErr};
ghost use Rattle.std.specs.List.{list_all};
ghost use Rattle.fts_model.specs.Operations.{added, added_by, adds, alive};
ghost use Rattle.fts_base.specs.Results.{Gives};
ghost use Rattle.fts_engine.specs.Operations.{is_add};

use crate::engine::{Engine, EngineOver, MOST_UNCOMMITTED};
use crate::options::Options;
use fts_model::{
    Answer, Document, MOST_MERGED, Op, Query, Refusal, Request, Schema, Stamp, Stamped,
};
use std::alloc::{AllocError, Global};

/// The documents of the last commit and the operations since, both in the order of their stamps.
#[derive(Drop)]
pub struct ListEngine {
    schema: Schema,
    documents: Vec<Stamped<Document>>,
    commit_stamp: Stamp,
    uncommitted: Vec<Stamped<Op>>,
}

/// Whether all of the operations add documents.
fn all_add(ops: &[Stamped<Op>]) -> bool
    ensures { result ≡ list_all (λ op. is_add op.value) ops.now }
{
    ops.iter().all(|op| matches!(op.value, Op::Add(_)))
}

/// Appends the document that an operation adds.
fn push_added(documents: &mut Vec<Stamped<Document>>, op: &Stamped<Op>) -> Result<(), AllocError>
    ensures ok { OnOk result
        (documents.new.items ≡ documents.old.items ++ added_by op.now.stamp op.now.value) }
    ensures err { OnErr result (documents.new.items ≡ documents.old.items) }
{
    if let Op::Add(document) = &op.value {
        let value = document.clone()?;
        documents.push(Stamped {
            stamp: op.stamp,
            value,
        })?;
    }
    Ok(())
}

/// Appends the documents that operations add.
fn append(documents: &mut Vec<Stamped<Document>>, ops: &[Stamped<Op>]) -> Result<(), AllocError>
    ensures ok { OnOk result (documents.new.items ≡ documents.old.items ++ added ops.now) }
    ensures err { OnErr result (documents.new.items ≡ documents.old.items) }
{
    let len = documents.len();
    for op in ops {
        match push_added(documents, op) {
            Ok(()) => {}
            Err(error) => {
                documents.truncate(len);
                return Err(error);
            }
        }
    }
    Ok(())
}

/// Appends a copy of an operation.
fn push_copy(all: &mut Vec<Stamped<Op>>, op: &Stamped<Op>) -> Result<(), AllocError>
    ensures { OnOk result (all.new.items ≡ all.old.items ++ op.now ∷ []) }
{
    let value = op.value.clone()?;
    all.push(Stamped {
        stamp: op.stamp,
        value,
    })?;
    Ok(())
}

/// Appends the operation that adds a document.
fn push_add(all: &mut Vec<Stamped<Op>>, document: &Stamped<Document>) -> Result<(), AllocError>
    ensures { OnOk result (all.new.items
        ≡ all.old.items ++ record { stamp = document.now.stamp; value = Op.Add document.now.value } ∷ []) }
{
    let value = Op::Add(document.value.clone()?);
    all.push(Stamped {
        stamp: document.stamp,
        value,
    })?;
    Ok(())
}

/// The operations that add these documents, followed by more.
fn history(
    alloc: Global,
    documents: &[Stamped<Document>],
    ops: &[Stamped<Op>],
) -> Result<Vec<Stamped<Op>>, AllocError>
    ensures { IfOk result (λ all. all.items ≡ adds documents.now ++ ops.now) }
{
    let mut all = Vec::with_capacity(alloc, documents.len())?;
    for document in documents {
        push_add(&mut all, document)?;
    }
    for op in ops {
        push_copy(&mut all, op)?;
    }
    Ok(all)
}

/// The documents alive once operations are applied to those that are there.
fn survivors(
    alloc: Global,
    schema: &Schema,
    documents: &[Stamped<Document>],
    ops: &[Stamped<Op>],
) -> Result<Vec<Stamped<Document>>, Refusal>
    ensures { Gives (λ left. left.items) result
        (Ok (alive schema.now (adds documents.now ++ ops.now))) }
{
    let all = history(alloc, documents, ops)?;
    fts_scan::alive(alloc, schema, &all)
}

/// Replaces the documents by those alive once operations are applied to them.
fn commit(
    alloc: Global,
    schema: &Schema,
    documents: &mut Vec<Stamped<Document>>,
    ops: &[Stamped<Op>],
) -> Result<(), Refusal>
    ensures ok { OnOk result
        (documents.new.items ≡ alive schema.now (adds documents.old.items ++ ops.now)) }
    ensures err { OnErr result (documents.new.items ≡ documents.old.items) }
    ensures memory { IfErr result (λ refusal. refusal ≡ Refusal.Memory) }
{
    if all_add(ops) {
        // Adds alone are appended to what is there, so that a commit costs no more than its operations.
        append(documents, ops)?;
        return Ok(());
    }
    *documents = survivors(alloc, schema, documents, ops)?;
    Ok(())
}

impl Engine for ListEngine {
    ghost use Rattle.std.specs.Prelude.{◌+◌, length};
    ghost use Rattle.fts_engine.specs.ListIndexes.{index_of};

    ghost index = { index_of };

    ghost changes = { λ e. e.commit_stamp + length e.uncommitted.items };

    ghost segments = { λ e. 0 };

    fn schema(&self) -> &Schema {
        &self.schema
    }

    fn commit_stamp(&self) -> Stamp {
        self.commit_stamp
    }

    fn next_stamp(&self) -> Stamp {
        self.commit_stamp + self.uncommitted.len() as u64 + 1
    }

    fn submit(&mut self, op: Op) -> Result<Stamp, Refusal> {
        if self.uncommitted.len() >= MOST_UNCOMMITTED {
            return Err(Refusal::LaneFull);
        }
        let stamp = self.next_stamp();
        self.uncommitted.push(Stamped { stamp, value: op })?;
        Ok(stamp)
    }
}

impl<R: AllocGlobal + Sync> EngineOver<R> for ListEngine {
    fn open(rt: &R, options: Options, schema: Schema) -> Result<Self, Refusal> {
        let _ = options;
        let alloc = rt.alloc();
        Ok(ListEngine {
            schema,
            documents: Vec::new(alloc),
            commit_stamp: 0,
            uncommitted: Vec::new(alloc),
        })
    }

    fn commit(&mut self, rt: &R) -> Result<Stamp, Refusal> {
        let stamp = self.next_stamp();
        commit(
            rt.alloc(),
            &self.schema,
            &mut self.documents,
            &self.uncommitted,
        )?;
        self.uncommitted.clear();
        self.commit_stamp = stamp;
        Ok(stamp)
    }

    fn rollback(&mut self, _rt: &R) -> Result<Stamp, Refusal> {
        self.uncommitted.clear();
        Ok(self.commit_stamp)
    }

    fn merge(&mut self, _rt: &R) -> Result<u64, Refusal> {
        let count = self.documents.len();
        if count > MOST_MERGED {
            return Err(Refusal::TooLarge);
        }
        Ok(count as u64)
    }

    fn search(&mut self, rt: &R, query: &Query, request: &Request) -> Result<Answer, Refusal> {
        fts_scan::answer(rt.alloc(), &self.schema, query, request, &self.documents)
    }

    fn close(self, _rt: &R) {}
}
