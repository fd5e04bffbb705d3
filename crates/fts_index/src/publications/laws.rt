//! What the definitions of publications say of one another.
ghost use Rattle.std.specs.Prelude.{◌≡◌, List};
ghost use mathlib.Core.List.{IsPrefix};
ghost use Rattle.fts_model.specs.declared.query.Request.{Request};
ghost use Rattle.fts_model.specs.QueryValues.{QueryValue};
ghost use Rattle.fts_model.specs.Answers.{answer};
ghost use Rattle.fts_snapshots.specs.Snapshots.{content_of};
ghost use Rattle.fts_index.specs.declared.publications.publication.Publication.{Publication};
ghost use Rattle.fts_index.specs.Publications.{newest, ArePublications, Follows, FrontValue, IsFront, IsOneCommit};

/// If one knows at least the publications that another knows, its commit is no older, and at equal stamps finds the
/// same content.
pub fn newest_follows()
    ensures { (known more : List Publication) →
        IsPrefix known more → ArePublications known → ArePublications more →
        Follows (newest known) (newest more) }
{}

/// Whatever two threads know of one writer's publications, at equal stamps they are at one commit, of one schema and
/// one content.
pub fn equal_stamps_are_one_commit()
    ensures { (a b : FrontValue) (all : List Publication) →
        IsPrefix a.seen.list all → IsPrefix b.seen.list all → IsFront a → IsFront b →
        a.stamp ≡ b.stamp → IsOneCommit a b }
{}

/// One commit answers each search in one way, however it is in segments.
pub fn one_commit_answers_alike()
    ensures { (a b : FrontValue) (query : QueryValue) (request : Request) → IsOneCommit a b →
        answer a.snapshot.schema query request (content_of a.snapshot)
        ≡ answer b.snapshot.schema query request (content_of b.snapshot) }
{}
