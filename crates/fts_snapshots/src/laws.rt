//! Laws that tie the definitions to each other: each contract is a law, and the body is empty.
ghost use Rattle.std.specs.Prelude.{◌≡◌, ◌<◌, ◌≤◌, ◌++◌, ℕ, None, List, All, length, map, sum_by};
ghost use Rattle.fts_model.specs.declared.operation.Op.{Op};
ghost use Rattle.fts_model.specs.declared.operation.Stamped.{Stamped};
ghost use Rattle.fts_model.specs.Documents.{DocumentValue};
ghost use Rattle.fts_model.specs.Operations.{alive, adds, StampsRise};
ghost use Rattle.fts_snapshots.specs.Entries.{IsEntry, EntryValue, content, live_count};
ghost use Rattle.fts_snapshots.specs.Merges.{entries_at, names_fault};
ghost use Rattle.fts_model.specs.declared.cut.Cut.{Cut};
ghost use Rattle.fts_snapshots.specs.MergedSegments.{MergedSegmentValue, IsMergedSegment, merged_of};
ghost use Rattle.fts_snapshots.specs.Infos.{info_of, infos_after_merge};
ghost use Rattle.fts_snapshots.specs.Snapshots.{SnapshotValue, IsSnapshot, after_commit, merge_fault};
ghost use Rattle.fts_snapshots.specs.Successors.{Follows, Fits};
ghost use Rattle.fts_snapshots.specs.LateMerges.{after_end, after_merge};

/// If some operations left the content before a commit, then those operations followed by the batch leave the content
/// after it.
pub fn a_commit_continues_each_history()
    ensures { (s : SnapshotValue) (cut : Cut) (history batch : List (Stamped Op)) → IsSnapshot s →
        content s.entries ≡ alive s.schema history → StampsRise (adds (content s.entries) ++ batch) →
        content (after_commit cut batch s).entries ≡ alive s.schema (history ++ batch) }
{
    fts_scan::laws::alive_stands_for_history();
}

/// A merged segment has as many documents as its sources have live ones together.
pub fn a_merge_counts_live_documents()
    ensures { (entries : List EntryValue) → All IsEntry entries →
        length (merged_of entries).merged.segment.documents ≡ sum_by live_count entries }
{}

/// A merge replaces its sources by one segment under the next number. It has their live documents, all of them live.
pub fn a_merge_leaves_one_segment()
    ensures { (s : SnapshotValue) (ids : List ℕ) → IsSnapshot s → merge_fault ids s ≡ None →
        map info_of (after_merge ids s).entries ≡ infos_after_merge ids s }
{}

/// Following is reflexive and transitive.
pub fn following_is_transitive()
    ensures itself { (s : SnapshotValue) → Follows s s }
    ensures further { (a b c : SnapshotValue) → Follows a b → Follows b c → Follows a c }
{}

/// A snapshot is followed by the one after a commit, and by the one after the end of a merge.
pub fn commits_and_merges_are_followed()
    ensures commit { (s : SnapshotValue) (cut : Cut) (batch : List (Stamped Op)) →
        Follows s (after_commit cut batch s) }
    ensures end_merge { (s : SnapshotValue) (m : MergedSegmentValue) → Follows s (after_end m s) }
{}

/// A merged segment that fits a snapshot fits each one that follows it.
pub fn what_fits_goes_on_to_fit()
    ensures { (m : MergedSegmentValue) (a b : SnapshotValue) → Fits m a → Follows a b → Fits m b }
{}

/// The end of a merge leaves the content unchanged, if the merged segment fits.
pub fn the_end_of_a_merge_leaves_the_content()
    ensures { (m : MergedSegmentValue) (s : SnapshotValue) → IsMergedSegment m → IsSnapshot s → Fits m s →
        content (after_end m s).entries ≡ content s.entries }
{}

/// The segment that a job makes of segments of a snapshot fits that snapshot.
pub fn a_merge_fits_where_it_begins()
    ensures { (s : SnapshotValue) (ids : List ℕ) → IsSnapshot s → names_fault s.entries ids ≡ None →
        Fits (merged_of (entries_at s.entries ids)) s }
{}
