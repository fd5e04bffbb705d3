// Collects documents and makes a segment of them.
ghost use Rattle.std.specs.Prelude.{◌≡◌, ◌↔◌, ◌≢◌, ◌<◌, ◌≤◌, true, false, Err, length, IfOk, IfErr, OnOk, OnErr};
ghost use Rattle.fts_model.specs.Limits.{most_built, most_merged};
ghost use Rattle.fts_model.specs.Documents.{fits};
ghost use Rattle.fts_base.specs.declared.refusal.Refusal.TheVariants.{Memory, SegmentFull};

use crate::joining::Joining;
use crate::segment::Segment;
use fts_base::release;
use fts_model::{Document, MOST_BUILT, Refusal, Schema, Stamp, Stamped};
use std::alloc::{AllocError, Global};
use std::marker::Model;

/// Collects a segment's documents. Only handles are stored; terms are extracted by `build`.
///
/// Contracts see the documents with their schema, and whether the builder is for merging.
pub struct Builder {
    schema: Schema,
    documents: Vec<Stamped<Document>>,
    merging: bool,
}

impl Model for Builder {
    ghost use Rattle.std.specs.Prelude.{◌≤◌, length};
    ghost use Rattle.fts_model.specs.Limits.{most_merged};
    ghost use Rattle.fts_segment.specs.Segments.{BuilderValue, AllFit, AreDocuments};

    ghost Value = { BuilderValue };

    ghost view = { λ b. record {
      segment = record { schema = b.schema; documents = b.documents.items };
      merging = b.merging;
    } };

    ghost invariant = { λ b. (length b.documents.items ≤ most_merged) × AllFit b.schema b.documents.items
        × AreDocuments b.documents.items };
}

impl Drop for Builder {
    fn drop(self) {
        let Builder {
            schema: _,
            documents,
            merging: _,
        } = self;
        release(documents);
    }
}

impl Builder {
    ghost use Rattle.fts_segment.specs.Segments.{with_document, no_documents};

    /// An empty builder that takes up to 65,536 documents.
    pub fn new(alloc: Global, schema: &Schema) -> Result<Builder, Refusal>
        ensures ok { IfOk result
            (λ builder. builder ≡ record { segment = no_documents schema.now; merging = false }) }
        ensures memory { IfErr result (λ e. e ≡ Memory) }
    {
        Self::with(alloc, schema, false)
    }

    /// A builder for merging: takes up to 1,048,576 documents, with stamps in any order.
    ///
    /// Only tests call it: a merge joins the indexes of its sources ([`join`](crate::join)), and the tests compare what
    /// that makes with what this builds from the documents.
    pub fn merging(alloc: Global, schema: &Schema) -> Result<Builder, Refusal>
        ensures ok { IfOk result
            (λ builder. builder ≡ record { segment = no_documents schema.now; merging = true }) }
        ensures memory { IfErr result (λ e. e ≡ Memory) }
    {
        Self::with(alloc, schema, true)
    }

    fn with(alloc: Global, schema: &Schema, merging: bool) -> Result<Builder, Refusal>
        ensures ok { IfOk result
            (λ builder. builder ≡ record { segment = no_documents schema.now; merging = merging }) }
        ensures memory { IfErr result (λ e. e ≡ Memory) }
    {
        match schema.clone() {
            Err(AllocError) => Err(Refusal::Memory),
            Ok(schema) => Ok(Builder {
                schema,
                documents: Vec::new(alloc),
                merging,
            }),
        }
    }

    /// The number of documents.
    pub fn docs(&self) -> usize
        ensures { result ≡ length self.now.segment.documents }
    {
        self.documents.len()
    }

    /// Adds a document that fits the schema (`Document::fits`), with its stamp. It is refused as `SegmentFull` if there
    /// are 65,536 documents and the builder isn't for merging.
    pub fn add(&mut self, stamp: Stamp, document: &Document) -> Result<(), Refusal>
        requires room { self.old.merging ≡ true → length self.old.segment.documents < most_merged }
        requires fits { fits self.old.segment.schema document.now ≡ true }
        ensures ok { OnOk result (self.new
            ≡ record self.old { segment = with_document self.old.segment stamp document.now }) }
        ensures full { (result ≡ Err SegmentFull) ↔ (self.old.merging ≡ false)
            × (most_built ≤ length self.old.segment.documents) }
        ensures other { IfErr result (λ e. e ≢ SegmentFull → e ≡ Memory) }
        ensures err { OnErr result (self.new ≡ self.old) }
    {
        if !self.merging && self.documents.len() >= MOST_BUILT {
            return Err(Refusal::SegmentFull);
        }
        // Reveals to the proof that the values are ones that the fields can have.
        let _ = document.schema();
        let value = document.clone()?;
        self.documents.push(Stamped { stamp, value })?;
        Ok(())
    }

    /// Makes a segment of the documents. The builder keeps them.
    pub fn build(&self, alloc: Global) -> Result<Segment, Refusal>
        ensures ok { IfOk result (λ segment. segment ≡ self.now.segment) }
        ensures memory { IfErr result (λ e. e ≡ Memory) }
    {
        let documents = copied(alloc, &self.documents)?;
        let segment = Joining::of(&self.schema, documents, &[]).finish_alone(alloc)?;
        Ok(segment)
    }

    /// Makes a segment of the documents. If the allocator refuses a growth, the builder is handed back.
    pub fn finish(self, alloc: Global) -> Result<Segment, (Builder, Refusal)>
        ensures ok { IfOk result (λ segment. segment ≡ self.segment) }
        ensures err { IfErr result (λ e. e.0 ≡ self) }
        ensures memory { IfErr result (λ e. e.1 ≡ Memory) }
    {
        match self.build(alloc) {
            Ok(segment) => Ok(segment),
            Err(refusal) => Err((self, refusal)),
        }
    }
}

/// Copies of documents with their stamps, which are handles.
fn copied(
    alloc: Global,
    documents: &[Stamped<Document>],
) -> Result<Vec<Stamped<Document>>, AllocError>
    ensures { IfOk result (λ copies. copies.items ≡ documents.now) }
{
    let mut copies = Vec::with_capacity(alloc, documents.len())?;
    for document in documents {
        let stamp = document.stamp;
        let value = document.value.clone()?;
        copies.push(Stamped { stamp, value })?;
    }
    Ok(copies)
}
