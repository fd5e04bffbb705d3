// A snapshot at its commit stamp, with the publications known so far: what publishers, readers and searchers each hold.
ghost use Rattle.std.specs.Prelude.{◌≡◌, ◌<◌, ◌≤◌, ◌⊎◌, ◌↔◌, [], ◌∷◌, List, IsTrue, IfOk, IfSome};
ghost use Rattle.std.specs.Prelude.{MatchOption, length};
ghost use Rattle.std.specs.Arc.{arc_value};
ghost use mathlib.Core.List.{IsPrefix};
ghost use Rattle.fts_snapshots.specs.Snapshots.{content_of};
ghost use Rattle.fts_snapshots.specs.Stamps.{IsStamped};
ghost use Rattle.fts_index.specs.declared.publications.publication.Publication.{Publication};
ghost use Rattle.fts_index.specs.Publications.{opening, publication, published, schema_of};
ghost use Rattle.fts_index.specs.Publications.{Follows, IsFront, IsOneCommit};
ghost use Rattle.fts_index.specs.PublicationsHistory.{head_of};

use crate::publications::publication::Publication;
use crate::publications::publication_log::{
    Append, NoTrade, Opened, PublicationCount, PublicationRule, SeenPublications,
};
use fts_model::{Schema, Stamp};
use fts_snapshots::{CommitPoint, Snapshot};
use logbook::{Offer, Seen, Start, Word};
use std::alloc::{AllocError, Global};
use std::marker::Model;
use std::sync::Arc;

/// A snapshot at its commit stamp, and what is known of the writer's publications. In memory the list of these is only
/// the number of publications after the opening.
#[derive(Drop)]
pub struct Front {
    commit: Arc<CommitPoint>,
    count: u64,
    seen: SeenPublications,
}

impl Model for Front {
    ghost use Rattle.std.specs.Prelude.{◌≡◌, ◌+◌, length};
    ghost use Rattle.std.specs.Arc.{arc_value};
    ghost use Rattle.fts_snapshots.specs.Stamps.{IsStamped};
    ghost use Rattle.fts_index.specs.Publications.{ArePublications, FrontValue, IsFront};
    ghost use Rattle.fts_index.specs.Publications.{newest, publication};

    ghost Value = { FrontValue };

    ghost view = { λ f. record {
      stamp = (arc_value f.commit).stamp;
      snapshot = (arc_value f.commit).snapshot;
      seen = record { of = f.seen.book; list = f.seen.log };
    } };

    ghost invariant = { λ f. (length f.seen.log ≡ f.count + 1)
        × (newest f.seen.log ≡ publication (arc_value f.commit).stamp (arc_value f.commit).snapshot)
        × ArePublications f.seen.log
        × IsStamped (arc_value f.commit).stamp (arc_value f.commit).snapshot };
}

impl Front {
    /// The front of a new writer, and the word that it alone changes.
    pub fn open(alloc: Global, snapshot: Snapshot) -> Result<(Front, PublicationCount), AllocError>
        requires { content_of snapshot ≡ [] }
        ensures front { IfOk result (λ r. (r.0.stamp ≡ 0) × (r.0.snapshot ≡ snapshot)) }
        ensures list { IfOk result (λ r. r.0.seen.list ≡ opening snapshot.schema ∷ []) }
        ensures head { IfOk result (λ r. r.1 ≡ head_of r.0.seen.of) }
    {
        let commit = Arc::new(alloc, CommitPoint { stamp: 0, snapshot })?;
        let schema = commit.snapshot.schema();
        let (seen, mut pens) = Seen::open_row::<Schema, Opened>(schema, Start::alone(), 1);
        let head = Word::tracked(0, &mut pens.take());
        let front = Front {
            commit,
            count: 0,
            seen,
        };
        Ok((front, head))
    }

    /// A copy; one growth is counted.
    pub fn again(&self) -> Result<Front, AllocError>
        ensures copy { IfOk result (λ f. f ≡ self.now) }
        ensures front { IfOk result IsFront }
    {
        let commit = Arc::try_clone(&self.commit)?;
        Ok(self.over(commit))
    }

    /// A copy, if this front knows more publications than the other one.
    pub fn if_newer(&self, other: &Front) -> Result<Option<Front>, AllocError>
        ensures newer { IfOk result (λ found. MatchOption found
            (length self.now.seen.list ≤ length other.now.seen.list)
            (λ f. (f ≡ self.now) × (length other.now.seen.list < length self.now.seen.list))) }
    {
        if self.count <= other.count {
            return Ok(None);
        }
        Ok(Some(self.again()?))
    }

    /// A copy of this front, with a given handle to its commit.
    pub fn over(&self, commit: Arc<CommitPoint>) -> Front
        requires stamp { (arc_value commit).stamp ≡ self.now.stamp }
        requires snapshot { (arc_value commit).snapshot ≡ self.now.snapshot }
        ensures { result ≡ self.now }
    {
        Front {
            commit,
            count: self.count,
            seen: self.seen.again(),
        }
    }

    /// The front with one publication more, by one step on the word. It takes no memory. `None` if more was published
    /// than this front knows, or 2^64 - 1 times; a publisher meets neither.
    pub fn with(&self, head: &PublicationCount, commit: Arc<CommitPoint>) -> Option<Front>
        requires head { head.now ≡ head_of self.now.seen.of }
        requires follows { Follows (publication self.now.stamp self.now.snapshot)
            (publication (arc_value commit).stamp (arc_value commit).snapshot) }
        requires stamped { IsStamped (arc_value commit).stamp (arc_value commit).snapshot }
        ensures { IfSome result (λ f.
            f ≡ published (arc_value commit).stamp (arc_value commit).snapshot self.now) }
    {
        let expected = self.count;
        if expected == u64::MAX {
            return None;
        }
        let longer = expected + 1;
        let mut seen = self.seen.again();
        let about: &CommitPoint = &commit;
        let mut offer: Offer<Publication, u64, PublicationRule, NoTrade> = seen.plain::<
            NoTrade,
            CommitPoint,
            Append,
        >(about);
        let mut pen = seen.no_pen();
        let found = head.compare_exchange::<Append, NoTrade>(
            expected, longer, &mut seen, &mut offer, &mut pen,
        );
        if found != expected {
            return None;
        }
        Some(Front {
            commit,
            count: longer,
            seen,
        })
    }

    /// Takes the other front if it knows more publications.
    pub fn keep_newer(&mut self, other: Front)
        requires { other.seen.of ≡ self.old.seen.of }
        ensures of { self.new.seen.of ≡ self.old.seen.of }
        ensures schema { schema_of self.new.seen ≡ schema_of self.old.seen }
        ensures mine { IsPrefix self.old.seen.list self.new.seen.list }
        ensures other { IsPrefix other.seen.list self.new.seen.list }
        ensures one { (self.new ≡ self.old) ⊎ (self.new ≡ other) }
    {
        let mut both = self.seen.again();
        both.learn(&other.seen);
        if self.count < other.count {
            *self = other;
        }
    }

    /// Whether both are of one commit. Both are of one writer, so their stamps decide it.
    pub fn is_of_commit(&self, other: &Front) -> bool
        requires { other.now.seen.of ≡ self.now.seen.of }
        ensures commit { IsTrue result ↔ IsOneCommit self.now other.now }
        ensures one_list { (all : List Publication) × IsPrefix self.now.seen.list all
            × IsPrefix other.now.seen.list all }
    {
        let mut both = self.seen.again();
        both.learn(&other.seen);
        self.stamp() == other.stamp()
    }

    /// The stamp of the commit.
    pub fn stamp(&self) -> Stamp
        ensures stamp { result ≡ self.now.stamp }
        ensures front { IsFront self.now }
    {
        self.commit.stamp
    }

    /// What the commit left.
    pub fn snapshot(&self) -> &Snapshot
        ensures snapshot { result.now ≡ self.now.snapshot }
        ensures front { IsFront self.now }
    {
        &self.commit.snapshot
    }
}
