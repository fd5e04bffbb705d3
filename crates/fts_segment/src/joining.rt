// Makes a segment of documents: the index of each field by itself, by any threads.
ghost use Rattle.std.specs.Prelude.{◌≡◌, ◌<◌, ◌≤◌, IfOk, length};
ghost use Rattle.fts_model.specs.Limits.{most_merged};
ghost use Rattle.fts_segment.specs.FieldIndexes.{AreFieldsOf, IsFieldOf};
ghost use Rattle.fts_segment.specs.Joinings.{IsJoining};
ghost use Rattle.fts_segment.specs.Segments.{SegmentValue};
ghost use Rattle.fts_segment.specs.Sources.{AreOfOneSchema, joined_segment, live_count};

use crate::field_index::FieldIndex;
use crate::live_segment::LiveSegment;
use crate::segment::{Segment, SegmentData};
use crate::segment_join::documents_of;
use fts_model::{Document, Schema, Stamped};
use std::alloc::{AllocError, Global};
use std::marker::Model;
use std::sync::Arc;

/// The index of a field of a segment.
#[derive(Drop)]
pub struct IndexedField {
    pub(crate) index: FieldIndex,
}

/// The documents of a segment whose fields are being indexed. Contracts see that segment.
///
/// If they are the live ones of sources, each index is merged from theirs.
#[derive(Drop)]
pub struct Joining<'s, 'a> {
    schema: &'a Schema,
    documents: Vec<Stamped<Document>>,
    sources: &'s [LiveSegment<'a>],
}

impl<'s, 'a> Model for Joining<'s, 'a> {
    ghost use Rattle.fts_segment.specs.Joinings.{IsJoining};
    ghost use Rattle.fts_segment.specs.Segments.{SegmentValue};

    ghost Value = { SegmentValue };

    ghost view = { λ j. record { schema = j.schema.now; documents = j.documents.items } };

    ghost invariant = { λ j.
        IsJoining (record { schema = j.schema.now; documents = j.documents.items }) j.sources.now };
}

impl<'s, 'a> Joining<'s, 'a> {
    /// Takes the live documents of one or more sources that have the same schema. The documents are in the order of the
    /// sources, and those of a source in the order of their numbers. They are handles.
    pub fn new(alloc: Global, sources: &'s [LiveSegment<'a>]) -> Result<Joining<'s, 'a>, AllocError>
        requires some { 0 < length sources.now }
        requires schemas { AreOfOneSchema sources.now }
        requires few { live_count sources.now ≤ most_merged }
        ensures { IfOk result (λ joining. joining ≡ joined_segment sources.now) }
    {
        let documents = documents_of(alloc, sources)?;
        let schema = sources[0].segment().schema();
        Ok(Joining::of(schema, documents, sources))
    }

    /// Takes documents. If there are sources, they are the live ones of these.
    pub(crate) fn of(
        schema: &'a Schema,
        documents: Vec<Stamped<Document>>,
        sources: &'s [LiveSegment<'a>],
    ) -> Joining<'s, 'a>
        requires { IsJoining (record { schema = schema.now; documents = documents.items }) sources.now }
        ensures { result ≡ record { schema = schema.now; documents = documents.items } }
    {
        Joining {
            schema,
            documents,
            sources,
        }
    }

    /// The number of fields.
    pub fn fields(&self) -> usize
        ensures { result ≡ length self.now.schema }
    {
        self.schema.fields().len()
    }

    /// About how much work the index of a field is: the number of postings in the sources.
    pub fn cost(&self, number: usize) -> u64 {
        let mut postings: u64 = 0;
        for source in self.sources {
            let fields = &source.segment().stored.fields;
            if let Some(field) = fields.get(number) {
                postings = postings.saturating_add(field.index.postings() as u64);
            }
        }
        postings
    }

    /// Makes the index of the field of this number. Any thread may, beside others that make the other fields.
    pub fn field(&self, alloc: Global, number: usize) -> Result<IndexedField, AllocError>
        requires { number < length self.now.schema }
        ensures { IfOk result (IsFieldOf self.now number) }
    {
        let kind = self.schema.kind(number);
        let index = FieldIndex::new(alloc, self.sources, &self.documents, number, kind)?;
        Ok(IndexedField { index })
    }

    /// Makes the segment. Its fields are in the order of their numbers.
    pub fn finish(self, alloc: Global, fields: Vec<IndexedField>) -> Result<Segment, AllocError>
        requires { AreFieldsOf self fields.items }
        ensures { IfOk result (λ segment. segment ≡ self.entry) }
    {
        let schema = self.schema.clone()?;
        let stored = SegmentData {
            schema,
            documents: self.documents,
            fields,
        };
        match Arc::new(alloc, stored) {
            Ok(stored) => Ok(Segment { stored }),
            Err(_) => Err(AllocError),
        }
    }

    /// The indexes of the fields, made one after the other.
    fn fields_in_turn(&self, alloc: Global) -> Result<Vec<IndexedField>, AllocError>
        ensures { IfOk result (λ fields. AreFieldsOf self.now fields.items) }
    {
        let mut fields = Vec::new(alloc);
        for number in 0..self.fields() {
            fields.push(self.field(alloc, number)?)?;
        }
        Ok(fields)
    }

    /// Makes the segment, one field after the other.
    pub(crate) fn finish_alone(self, alloc: Global) -> Result<Segment, AllocError>
        ensures { IfOk result (λ segment. segment ≡ self.entry) }
    {
        let fields = self.fields_in_turn(alloc)?;
        self.finish(alloc, fields)
    }
}
