// The part of a writer that publishes. It alone changes the list of publications.
ghost use Rattle.std.specs.Prelude.{◌≡◌, ◌<◌, ◌^◌, ◌⊎◌, ◌↔◌, [], ◌∷◌, ◌++◌, Some, IsTrue, IfOk};
ghost use Rattle.std.specs.Prelude.{IfErr, OnOk, OnErr, IsOkUnless, MatchResult, length};
ghost use Rattle.std.specs.Arc.{arc_value};
ghost use Rattle.fts_snapshots.specs.Snapshots.{content_of};
ghost use Rattle.fts_snapshots.specs.Stamps.{IsStamped};
ghost use Rattle.fts_index.specs.Publications.{opening, newest, publication, published, schema_of};
ghost use Rattle.fts_index.specs.Publications.{Follows, IsFront, IsOneCommit};
ghost use Rattle.fts_index.specs.PublicationsShown.{name_of, told_name};

use crate::publications::front::Front;
use crate::publications::left_right_rule::{FrontWriter, SameWriter, TellsWriter};
use crate::publications::publication_log::PublicationCount;
use crate::publications::reader::Reader;
use crate::publications::searcher::{CommitSeen, Searcher};
use core::mem::replace_with;
use fts_model::{Refusal, Stamp};
use fts_snapshots::{CommitPoint, Snapshot};
use std::alloc::{AllocError, Global};
use std::marker::Model;
use std::sync::{Arc, Wait};

/// How many readers there may be at once.
const MOST_READERS: usize = 64;

/// Publishes snapshots to readers. It isn't dropped but closed. Contracts see it as its newest snapshot at its commit
/// stamp, with the whole list of its publications. Readers are always shown that snapshot.
pub struct Publisher {
    desk: FrontWriter,
    head: PublicationCount,
    front: Front,
}

impl Model for Publisher {
    ghost use Rattle.std.specs.Prelude.{◌≡◌, Some};
    ghost use Rattle.fts_index.specs.Publications.{FrontValue};
    ghost use Rattle.fts_index.specs.PublicationsHistory.{head_of};
    ghost use Rattle.fts_index.specs.PublicationsShown.{name_of, told_name};

    ghost Value = { FrontValue };

    ghost view = { λ p. p.front };

    ghost invariant = { λ p. (p.head ≡ head_of p.front.seen.of)
        × (told_name p.desk.desk.place ≡ Some (name_of p.front.seen.of))
        × (p.desk.desk.shown.value ≡ p.front) };
}

impl Publisher {
    /// A publisher that has published the opening: stamp 0, and a snapshot without a document.
    pub fn new<R: Wait>(rt: &R, alloc: Global, snapshot: Snapshot) -> Result<Publisher, Refusal>
        requires { content_of snapshot ≡ [] }
        ensures snapshot { IfOk result (λ p. p.snapshot ≡ snapshot) }
        ensures stamp { IfOk result (λ p. p.stamp ≡ 0) }
        ensures list { IfOk result (λ p. p.seen.list ≡ opening snapshot.schema ∷ []) }
        ensures memory { IsOkUnless result Refusal.Memory }
    {
        let (front, head) = Front::open(alloc, snapshot)?;
        let desk = desk_of(rt, alloc, &front)?;
        Ok(Publisher { desk, head, front })
    }

    /// Publishes what a commit left, at a stamp above all before and above the stamps of its documents. A refusal
    /// publishes nothing, and the snapshot is dropped.
    pub fn publish<R: Wait>(
        &mut self,
        rt: &R,
        alloc: Global,
        snapshot: Snapshot,
        stamp: Stamp,
    ) -> Result<CommitSeen, Refusal>
        requires schema { self.old.snapshot.schema ≡ snapshot.schema }
        requires later { self.old.stamp < stamp }
        requires stamped { IsStamped stamp snapshot }
        ensures new { OnOk result (self.new ≡ published stamp snapshot self.old) }
        ensures seen { IfOk result (λ seen. seen ≡ self.new.seen) }
        ensures same { OnErr result (self.new ≡ self.old) }
        ensures memory { IsOkUnless result Refusal.Memory }
    {
        self.add(rt, alloc, snapshot, stamp)
    }

    /// Publishes what a merge left: another snapshot with the content of the one before, at the same stamp. A refusal
    /// publishes nothing, and the snapshot is dropped.
    pub fn publish_again<R: Wait>(
        &mut self,
        rt: &R,
        alloc: Global,
        snapshot: Snapshot,
    ) -> Result<CommitSeen, Refusal>
        requires schema { self.old.snapshot.schema ≡ snapshot.schema }
        requires content { content_of self.old.snapshot ≡ content_of snapshot }
        ensures new { OnOk result (self.new ≡ published self.old.stamp snapshot self.old) }
        ensures again { OnOk result
            (self.new.seen.list ≡ self.old.seen.list ++ newest self.old.seen.list ∷ []) }
        ensures seen { IfOk result (λ seen. seen ≡ self.new.seen) }
        ensures same { OnErr result (self.new ≡ self.old) }
        ensures memory { IsOkUnless result Refusal.Memory }
    {
        let stamp = self.commit_stamp();
        self.add(rt, alloc, snapshot, stamp)
    }

    /// The stamp of the newest commit.
    pub fn commit_stamp(&self) -> Stamp
        ensures stamp { result ≡ self.now.stamp }
        ensures front { IsFront self.now }
    {
        self.front.stamp()
    }

    /// What was published last.
    pub fn snapshot(&self) -> &Snapshot
        ensures snapshot { result.now ≡ self.now.snapshot }
        ensures front { IsFront self.now }
    {
        self.front.snapshot()
    }

    /// The newest snapshot, to search.
    pub fn searcher(&self) -> Result<Searcher, Refusal>
        ensures searcher { IfOk result (λ s. s ≡ self.now) }
        ensures memory { IsOkUnless result Refusal.Memory }
    {
        let front = self.front.again()?;
        Ok(Searcher { front })
    }

    /// Whether a searcher of this publisher's searches the newest commit.
    pub fn is_last(&self, searcher: &Searcher) -> bool
        requires { searcher.now.seen.of ≡ self.now.seen.of }
        ensures { IsTrue result ↔ IsOneCommit searcher.now self.now }
    {
        searcher.front.is_of_commit(&self.front)
    }

    /// A reader that knows all publications so far. `NoReader` if there are 64 already; once one is dropped, there can
    /// be another.
    pub fn reader(&mut self) -> Result<Reader, Refusal>
        ensures same { self.new ≡ self.old }
        ensures reader { IfOk result (λ r. r ≡ self.old.seen) }
        ensures schema { IfOk result (λ r. schema_of r ≡ self.old.snapshot.schema) }
        ensures refused { IfErr result (λ e. (e ≡ Refusal.Memory) ⊎ (e ≡ Refusal.NoReader)) }
    {
        let front = self.front.again()?;
        let Ok(mut handle) = self.desk.factory().reader() else {
            return Err(Refusal::NoReader);
        };
        handle.learn::<SameWriter>(self.desk.tell::<SameWriter>());
        Ok(Reader::at(handle, front))
    }

    /// Ends the publisher. Searchers keep their snapshots, and readers go on with the newest that they know.
    pub fn close<R: Wait>(self, rt: &R) {
        let Publisher {
            desk,
            head: _,
            front: _,
        } = self;
        drop(desk.take(rt));
    }

    /// Adds a commit to the list, and shows it. Each growth that could be refused comes before the step that adds it.
    fn add<R: Wait>(
        &mut self,
        rt: &R,
        alloc: Global,
        snapshot: Snapshot,
        stamp: Stamp,
    ) -> Result<CommitSeen, Refusal>
        requires follows { Follows (publication self.old.stamp self.old.snapshot)
            (publication stamp snapshot) }
        requires stamped { IsStamped stamp snapshot }
        ensures new { OnOk result (self.new ≡ published stamp snapshot self.old) }
        ensures seen { IfOk result (λ seen. seen ≡ self.new.seen) }
        ensures same { OnErr result (self.new ≡ self.old) }
        ensures memory { IsOkUnless result Refusal.Memory }
    {
        let commit = Arc::new(alloc, CommitPoint { stamp, snapshot })?;
        let for_seen = Arc::try_clone(&commit)?;
        let Some(front) = self.front.with(&self.head, commit) else {
            return Err(Refusal::Memory);
        };
        let seen = CommitSeen {
            front: front.over(for_seen),
        };
        show(rt, &mut self.desk, &front);
        self.front = front;
        Ok(seen)
    }
}

/// A writer of fronts that shows this front and has the memory that each publication needs.
fn desk_of<R: Wait>(rt: &R, alloc: Global, front: &Front) -> Result<FrontWriter, AllocError>
    ensures shown { IfOk result (λ d. d.desk.shown.value ≡ front.now) }
    ensures seat { IfOk result (λ d. told_name d.desk.place ≡ Some (name_of front.now.seen.of)) }
{
    let mut desk = FrontWriter::new(alloc, front.again()?, front.again()?, MOST_READERS)?;
    if show_twice(rt, &mut desk, front).is_err() {
        drop(desk.take(rt));
        return Err(AllocError);
    }
    Ok(desk)
}

/// Publishes twice: the first time records the writer in the seat, the second reserves the memory that later
/// publications need.
fn show_twice<R: Wait>(rt: &R, desk: &mut FrontWriter, front: &Front) -> Result<(), AllocError>
    requires { desk.old.desk.shown.value.seen.of ≡ front.now.seen.of }
    ensures shown { OnOk result (desk.new.desk.shown.value ≡ front.now) }
    ensures seat { OnOk result (told_name desk.new.desk.place ≡ Some (name_of front.now.seen.of)) }
{
    try_show(rt, desk, front)?;
    try_show(rt, desk, front)
}

/// Shows readers this front in place of the one before. The second time changes the copy that they left, so that only
/// searchers still hold what was published before.
fn show<R: Wait>(rt: &R, desk: &mut FrontWriter, front: &Front)
    requires { desk.old.desk.shown.value.seen.of ≡ front.now.seen.of }
    ensures shown { desk.new.desk.shown.value ≡ front.now }
    ensures seat { told_name desk.new.desk.place ≡ Some (name_of front.now.seen.of) }
{
    show_once(rt, desk, front);
    show_once(rt, desk, front);
}

/// Shows readers this front. The memory was reserved by `desk_of`, so only the first try is ever needed; no clause of
/// `left_right` says so, and the list of publications has grown already.
fn show_once<R: Wait>(rt: &R, desk: &mut FrontWriter, front: &Front)
    requires { desk.old.desk.shown.value.seen.of ≡ front.now.seen.of }
    ensures shown { desk.new.desk.shown.value ≡ front.now }
    ensures seat { told_name desk.new.desk.place ≡ Some (name_of front.now.seen.of) }
{
    for _ in rt.forever() {
        if try_show(rt, desk, front).is_ok() {
            return;
        }
    }
    unreachable!()
}

/// Shows readers this front, or, if memory is refused, leaves what they are shown as it is.
fn try_show<R: Wait>(rt: &R, desk: &mut FrontWriter, front: &Front) -> Result<(), AllocError>
    requires { desk.old.desk.shown.value.seen.of ≡ front.now.seen.of }
    ensures of { desk.new.desk.shown.value.seen.of ≡ front.now.seen.of }
    ensures shown { OnOk result (desk.new.desk.shown.value ≡ front.now) }
    ensures seat { MatchResult result
        (λ _. told_name desk.new.desk.place ≡ Some (name_of front.now.seen.of))
        (λ _. told_name desk.new.desk.place ≡ told_name desk.old.desk.place) }
{
    let next = front.again()?;
    replace_with(desk, (rt, next), |desk, (rt, next)| put(rt, desk, next))
}

fn put<R: Wait>(rt: &R, desk: FrontWriter, front: Front) -> (FrontWriter, Result<(), AllocError>)
    requires { desk.desk.shown.value.seen.of ≡ front.seen.of }
    ensures of { result.0.desk.shown.value.seen.of ≡ front.seen.of }
    ensures shown { OnOk result.1 (result.0.desk.shown.value ≡ front) }
    ensures seat { MatchResult result.1
        (λ _. told_name result.0.desk.place ≡ Some (name_of front.seen.of))
        (λ _. told_name result.0.desk.place ≡ told_name desk.desk.place) }
{
    let mut desk = desk;
    match desk.append(front) {
        Ok(()) => desk.publish_as::<TellsWriter, R>(rt),
        Err(_) => (desk, Err(AllocError)),
    }
}
