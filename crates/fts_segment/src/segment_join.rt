// Makes one segment of the live documents of several, by merging their indexes.
ghost use Rattle.std.specs.Prelude.{◌≡◌, ◌<◌, ◌≤◌, ◌++◌, ◌∷◌, [], Bool, Some, IfErr, IfOk};
ghost use Rattle.std.specs.Prelude.{OnOk, length, slice_get, if◌then◌else◌};
ghost use Rattle.fts_base.specs.declared.refusal.Refusal.TheVariants.{Memory};
ghost use Rattle.fts_model.specs.Documents.{DocumentValue};
ghost use Rattle.fts_model.specs.Limits.{most_merged};
ghost use Rattle.fts_model.specs.declared.operation.Stamped.{Stamped};
ghost use Rattle.fts_segment.specs.Contents.{content_of};
ghost use Rattle.fts_segment.specs.Segments.{AllFit, AreDocuments};
ghost use Rattle.fts_segment.specs.Sources.{AreOfOneSchema, contents, joined_segment, live_count, schema_of};

use crate::joining::Joining;
use crate::live_segment::LiveSegment;
use crate::segment::Segment;
use fts_model::{Document, Refusal, Stamped};
use fts_pack::bits::Bits;
use std::alloc::{AllocError, Global};

/// Appends a document if it is live.
fn take_document(
    documents: &mut Vec<Stamped<Document>>,
    segment: &Segment,
    live: &Bits,
    document: usize,
) -> Result<(), AllocError>
    requires within { document < length segment.now.documents }
    requires bits { length live.now ≡ length segment.now.documents }
    ensures { (d : Stamped DocumentValue) (bit : Bool) → slice_get segment.now.documents document ≡ Some d
        → slice_get live.now document ≡ Some bit
        → OnOk result (documents.new.items ≡ documents.old.items ++ (if bit then d ∷ [] else [])) }
{
    if live.get(document) {
        let value = segment.document(document).clone()?;
        documents.push(Stamped {
            stamp: segment.stamp(document),
            value,
        })?;
    }
    Ok(())
}

/// Appends the live documents of a source.
fn take_live(
    documents: &mut Vec<Stamped<Document>>,
    source: &LiveSegment<'_>,
) -> Result<(), AllocError>
    ensures documents { OnOk result (documents.new.items
        ≡ documents.old.items ++ content_of source.now.segment source.now.live) }
    ensures fit { AllFit source.now.segment.schema source.now.segment.documents }
    ensures are { AreDocuments source.now.segment.documents }
{
    let segment = source.segment();
    let live = source.live();
    for document in 0..segment.docs() {
        take_document(documents, segment, live, document)?;
    }
    Ok(())
}

/// The live documents of sources.
pub(crate) fn documents_of(
    alloc: Global,
    sources: &[LiveSegment<'_>],
) -> Result<Vec<Stamped<Document>>, AllocError>
    requires { AreOfOneSchema sources.now }
    ensures documents { IfOk result (λ documents. documents.items ≡ contents sources.now) }
    ensures fit { OnOk result (AllFit (schema_of sources.now) (contents sources.now)) }
    ensures are { OnOk result (AreDocuments (contents sources.now)) }
    ensures few { length (contents sources.now) ≤ live_count sources.now }
{
    let mut documents = Vec::new(alloc);
    for source in sources {
        take_live(&mut documents, source)?;
    }
    documents.shrink_to_fit();
    Ok(documents)
}

/// One segment of the live documents of one or more sources that have the same schema. The documents are in the order
/// of the sources, and those of a source in the order of their numbers. They are handles, and their terms are merged
/// from the sources' dictionaries: no text is read again.
pub fn join(alloc: Global, sources: &[LiveSegment<'_>]) -> Result<Segment, Refusal>
    requires some { 0 < length sources.now }
    requires schemas { AreOfOneSchema sources.now }
    requires few { live_count sources.now ≤ most_merged }
    ensures ok { IfOk result (λ segment. segment ≡ joined_segment sources.now) }
    ensures memory { IfErr result (λ e. e ≡ Memory) }
{
    let segment = Joining::new(alloc, sources)?.finish_alone(alloc)?;
    Ok(segment)
}
