//! Laws that tie the definitions to each other: each contract is a law, and the body is empty.
ghost use Rattle.serde_json.specs.Data.{Data};
ghost use Rattle.serde_json.specs.Read.{read};
ghost use Rattle.std.specs.Prelude.{◌≡◌, Some, ◌↔◌, ◌++◌, ◌<◌, ℕ, List, false, filter, All, Contains, IsTrue};
ghost use Rattle.fts_model.specs.declared.schema.Field.{Field};
ghost use Rattle.fts_model.specs.declared.operation.Op.{Op};
ghost use Rattle.fts_model.specs.declared.operation.Op.TheVariants.{Add};
ghost use Rattle.fts_model.specs.declared.operation.Stamped.{Stamped};
ghost use Rattle.fts_model.specs.Operations.{alive, adds, added, strikes, survives, HasEachStampOnce, StampsRise};
ghost use Rattle.fts_model.specs.Queries.{phrase_in, PhraseIn};
ghost use Rattle.fts_model.specs.Answers.{IsGroups, groups, IsTop, top};
ghost use Rattle.fts_model.specs.Documents.{DocumentValue};
ghost use Rattle.fts_scan.specs.Names.{NamesRiseWithin};
ghost use Rattle.fts_model.specs.declared.answer.Hit.{Hit};
ghost use Rattle.fts_model.specs.declared.query.Order.{Order};
ghost use Rattle.fts_model.specs.declared.value.GroupValue.{GroupValue};

/// When a text is read as JSON, the members of each object are in the order of their names. So the first fault of a
/// document, also of one within a command, is the first in that order.
pub fn members_stand_in_the_order_of_their_names()
    ensures { (text : List ℕ) (value : Data) → read text ≡ Some value → NamesRiseWithin value }
{}

/// The documents alive after some operations can replace these operations: after any more operations, those are alive
/// that would be alive if only these documents had been added before.
pub fn alive_stands_for_history()
    ensures { (schema : List Field) (before after : List (Stamped Op)) →
        alive schema (before ++ after) ≡ alive schema (adds (alive schema before) ++ after) }
{}

/// No stamp occurs twice among the documents alive if none does among the operations.
pub fn alive_has_each_stamp_once()
    ensures { (schema : List Field) (ops : List (Stamped Op)) → HasEachStampOnce ops →
        HasEachStampOnce (alive schema ops) }
{}

/// The stamps of the documents alive rise if those of the operations do.
pub fn alive_is_in_the_order_of_stamps()
    ensures { (schema : List Field) (ops : List (Stamped Op)) → StampsRise ops →
        StampsRise (alive schema ops) }
{}

/// If the stamps rise, those documents are alive that are added and not deleted by an operation of a later stamp.
pub fn alive_is_what_survives()
    ensures { (schema : List Field) (ops : List (Stamped Op)) → StampsRise ops →
        alive schema ops ≡ filter (survives schema ops) (added ops) }
{}

/// If the stamps rise, a document is alive exactly if an operation adds it and none of a later stamp deletes it.
pub fn each_document_alive_was_added_and_not_struck()
    ensures { (schema : List Field) (ops : List (Stamped Op)) (document : Stamped DocumentValue) →
        StampsRise ops →
        Contains (alive schema ops) document
        ↔ (Contains ops (record { stamp = document.stamp; value = Add document.value })
        × All (λ op. document.stamp < op.stamp → strikes schema op.value document.value ≡ false) ops) }
{}

/// A phrase occurs among tokens if each of its members is a token at its offset from one common position, which may be
/// before the first.
pub fn phrase_stands_at_its_offsets()
    ensures { (tokens : List (ℕ × List ℕ)) (pattern : List (ℕ × List ℕ)) →
        IsTrue (phrase_in tokens pattern) ↔ PhraseIn tokens pattern }
{}

/// The groups that are computed hit by hit satisfy the definition of groups.
pub fn groups_are_groups()
    ensures { (field : ℕ) (hits : List (Stamped DocumentValue)) →
        IsGroups field hits (groups field hits) }
{}

/// Only one list satisfies the definition of groups.
pub fn there_is_one_list_of_groups()
    ensures { (field : ℕ) (hits : List (Stamped DocumentValue)) (a b : List (GroupValue × ℕ)) →
        IsGroups field hits a → IsGroups field hits b → a ≡ b }
{}

/// The first hits that have a number in a field are the top list, if no stamp occurs twice among the hits.
pub fn top_is_a_top_list()
    ensures { (k : ℕ) (order : Order) (field : ℕ) (hits : List (Stamped DocumentValue)) →
        HasEachStampOnce hits → IsTop k order field hits (top k order field hits) }
{}

/// At most one list is the top list, if no stamp occurs twice among the hits.
pub fn there_is_one_top_list()
    ensures { (k : ℕ) (order : Order) (field : ℕ) (hits : List (Stamped DocumentValue))
        (a b : List Hit) → HasEachStampOnce hits →
        IsTop k order field hits a → IsTop k order field hits b → a ≡ b }
{}
