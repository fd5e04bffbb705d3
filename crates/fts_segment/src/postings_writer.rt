// Writes the postings of terms in their order: the documents of each term, and its positions in them.
ghost use Rattle.std.specs.Prelude.{◌≡◌, ◌≢◌, ◌==◌, ◌++◌, ◌∷◌, [], OnOk, IfOk, All, cond, flat_map, length, map};
ghost use Rattle.std.specs.List.Sorted.{IsStrictlyIncreasing};
ghost use Rattle.fts_segment.specs.Dictionaries.{docs_in, unless_none, names_listed, listed_by};
ghost use Rattle.fts_segment.specs.Positions.{position_lists_of};
ghost use Rattle.fts_positions.specs.PositionLists.{IsPositionList};
ghost use Rattle.fts_positions.specs.PositionListLogs.{IsPositionListLog, logged_position_lists};

use crate::dictionary::Dictionary;
use crate::names::{Name, Names};
use crate::term_groups::{DocPosition, TermGroups};
use fts_base::release;
use fts_pack::Lists;
use fts_positions::{PositionListLog, PositionLists};
use std::alloc::{AllocError, Global};

/// Terms with their lists, and their positions before they are packed.
#[derive(Drop)]
pub(crate) struct PostingsWriter {
    pub(crate) names: Names,
    pub(crate) lists: Lists,
    /// A list of positions for each document of the first term, then of the second, and so on.
    pub(crate) positions: PositionListLog,
}

impl PostingsWriter {
    ghost use Rattle.std.specs.Prelude.{◌≡◌, ◌++◌, ◌∷◌, [], IfOk, OnOk};
    ghost use Rattle.std.specs.List.Sorted.{IsStrictlyIncreasing};
    ghost use Rattle.fts_positions.specs.PositionListLogs.{IsPositionListLog, logged_position_lists};

    /// An empty writer with capacity for this many terms and positions.
    pub(crate) fn with_capacity(
        alloc: Global,
        terms: usize,
        positions: usize,
    ) -> Result<PostingsWriter, AllocError>
        ensures names { IfOk result (λ writer. writer.names ≡ []) }
        ensures lists { IfOk result (λ writer. writer.lists ≡ []) }
        ensures positions { IfOk result (λ writer. logged_position_lists writer.positions ≡ []) }
        ensures is { IfOk result (λ writer. IsPositionListLog writer.positions) }
    {
        Ok(PostingsWriter {
            names: Names::with_capacity(alloc, terms)?,
            lists: Lists::with_capacity(alloc, terms)?,
            positions: PositionListLog::with_capacity(alloc, positions)?,
        })
    }

    /// Appends a term with these documents. Its positions are appended to the log.
    pub(crate) fn push(
        &mut self,
        alloc: Global,
        name: &Name<'_>,
        docs: &[u32],
    ) -> Result<(), AllocError>
        requires { IsStrictlyIncreasing docs.now }
        ensures names { OnOk result (self.new.names ≡ self.old.names ++ name.now ∷ []) }
        ensures lists { OnOk result (self.new.lists ≡ self.old.lists ++ docs.now ∷ []) }
        ensures positions { self.new.positions ≡ self.old.positions }
    {
        self.names.push(name)?;
        self.lists.push(alloc, docs)?;
        Ok(())
    }

    /// The dictionary of the terms, with their positions packed.
    pub(crate) fn finish(self, alloc: Global) -> Result<Dictionary, AllocError>
        requires { IsPositionListLog self.positions }
        ensures names { IfOk result (λ dictionary. dictionary.names ≡ self.names) }
        ensures lists { IfOk result (λ dictionary. dictionary.lists ≡ self.lists) }
        ensures positions { IfOk result (λ dictionary. dictionary.positions ≡ logged_position_lists self.positions) }
    {
        let PostingsWriter {
            mut names,
            mut lists,
            positions,
        } = self;
        names.shrink_to_fit();
        lists.shrink_to_fit();
        let positions = PositionLists::build(alloc, positions)?;
        Ok(Dictionary {
            names,
            lists,
            positions,
        })
    }
}

/// Sets `docs` to the documents of places, without duplicates.
fn set_docs(docs: &mut Vec<u32>, places: &[DocPosition]) -> Result<(), AllocError>
    ensures { OnOk result (docs.new.items ≡ docs_in places.now) }
{
    docs.clear();
    for place in places {
        docs.push(place.doc)?;
    }
    docs.dedup();
    Ok(())
}

/// Appends the position of a place to `list`, the positions in document `doc`. If the place is in another document, the
/// list is first appended to the log.
fn push_place(
    lists: &mut PositionListLog,
    list: &mut Vec<u32>,
    doc: u32,
    place: DocPosition,
) -> Result<(), AllocError>
    requires is { IsPositionListLog lists.old }
    requires list { place.doc ≢ doc → IsPositionList list.old.items }
    ensures is { OnOk result (IsPositionListLog lists.new) }
    ensures positions { OnOk result (logged_position_lists lists.new
        ≡ logged_position_lists lists.old ++ cond (place.doc == doc) [] (list.old.items ∷ [])) }
    ensures list { OnOk result (list.new.items
        ≡ cond (place.doc == doc) list.old.items [] ++ place.position ∷ []) }
{
    if place.doc != doc {
        lists.push(list)?;
        list.clear();
    }
    list.push(place.position)?;
    Ok(())
}

/// Appends the positions of places to the log, one list for each document.
fn push_position_lists(
    lists: &mut PositionListLog,
    list: &mut Vec<u32>,
    places: &[DocPosition],
) -> Result<(), AllocError>
    requires is { IsPositionListLog lists.old }
    requires positions { All IsPositionList (position_lists_of places.now) }
    ensures is { OnOk result (IsPositionListLog lists.new) }
    ensures positions { OnOk result (logged_position_lists lists.new
        ≡ logged_position_lists lists.old ++ position_lists_of places.now) }
{
    let [first, rest @ ..] = places else {
        return Ok(());
    };
    let mut doc = first.doc;
    list.clear();
    list.push(first.position)?;
    for place in rest {
        push_place(lists, list, doc, *place)?;
        doc = place.doc;
    }
    lists.push(list)
}

/// Appends a term with its places, if it has one. `room` is a scratch buffer.
fn put(
    writer: &mut PostingsWriter,
    alloc: Global,
    room: &mut Vec<u32>,
    name: &[u8],
    places: &[DocPosition],
) -> Result<(), AllocError>
    requires rise { IsStrictlyIncreasing (docs_in places.now) }
    requires positions { All IsPositionList (position_lists_of places.now) }
    requires is { IsPositionListLog writer.old.positions }
    ensures names { OnOk result (writer.new.names
        ≡ writer.old.names ++ unless_none places.now name.now) }
    ensures lists { OnOk result (writer.new.lists
        ≡ writer.old.lists ++ unless_none places.now (docs_in places.now)) }
    ensures positions { OnOk result (logged_position_lists writer.new.positions
        ≡ logged_position_lists writer.old.positions ++ position_lists_of places.now) }
    ensures is { OnOk result (IsPositionListLog writer.new.positions) }
{
    let [_, ..] = places else {
        return Ok(());
    };
    set_docs(room, places)?;
    writer.push(alloc, &Name::new(name), room)?;
    push_position_lists(&mut writer.positions, room, places)?;
    Ok(())
}

/// Writes each name that has a place, with the places of its group.
pub(crate) fn write_terms(
    alloc: Global,
    names: &[&[u8]],
    groups: &TermGroups,
) -> Result<PostingsWriter, AllocError>
    requires count { length groups.now ≡ length names.now }
    requires rise { All (λ places. IsStrictlyIncreasing (docs_in places)) groups.now }
    requires positions { All (λ places. All IsPositionList (position_lists_of places)) groups.now }
    ensures names { IfOk result (λ all. all.names ≡ names_listed groups.now (map (λ n. n.now) names.now)) }
    ensures lists { IfOk result (λ all. all.lists ≡ listed_by docs_in groups.now) }
    ensures positions { IfOk result
        (λ all. logged_position_lists all.positions ≡ flat_map position_lists_of groups.now) }
    ensures is { IfOk result (λ all. IsPositionListLog all.positions) }
{
    let mut writer = PostingsWriter::with_capacity(alloc, names.len(), groups.places())?;
    let mut room = Vec::new(alloc);
    for (number, name) in names.iter().enumerate() {
        put(&mut writer, alloc, &mut room, *name, groups.get(number))?;
    }
    release(room);
    Ok(writer)
}
