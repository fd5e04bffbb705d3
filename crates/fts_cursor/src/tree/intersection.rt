// What several cursors have in common: one of them leads, and the others are sought for its documents.
ghost use Rattle.std.specs.List.{AllZip};
ghost use Rattle.fts_postings.specs.Conjoined.{IsAhead};
ghost use Rattle.fts_postings.specs.Sets.{in_all};
ghost use Rattle.fts_cursor.specs.TreeValues.{Narrowed, TreeContinues, remains};
ghost use Rattle.fts_cursor.specs.Trees.{Met, meet, tree_value};

use crate::tree::{Node, Tree};

// What all have in common. One leads.
#[cycle(tree)]
#[derive(Drop)]
pub(crate) struct Intersection<'a> {
    pub(crate) lead: Box<Tree<'a>>,
    pub(crate) others: Vec<Tree<'a>>,
}

/// Seeks the document with each in turn, and returns the first that all may have: that one, if all are at it, or a
/// later one. `None` if one of them is at its end.
#[cycle(tree)]
fn bring(others: &mut [Tree], doc: u32) -> Option<u32>
    ensures each { AllZip (Narrowed doc) others.old others.new }
    ensures next { IsAhead doc (remains others.new) result }
{
    for other in others.iter_mut() {
        other.seek(doc);
        let next = other.doc()?;
        if next != doc {
            return Some(next);
        }
    }
    Some(doc)
}

/// Brings all to the first document that they have in common, and returns it.
#[cycle(tree)]
pub(crate) fn align(parts: &mut Intersection) -> Option<u32>
    ensures met { Met result (meet parts.old) (in_all (remains parts.new.others.items))
        parts.new.lead.value.remaining }
    ensures continues { TreeContinues (tree_value (Node.And parts.old))
        (tree_value (Node.And parts.new)) }
{
    while let Some(doc) = parts.lead.doc() {
        match bring(&mut parts.others, doc) {
            Some(next) if next == doc => return Some(doc),
            Some(next) => parts.lead.seek(next),
            None => return None,
        }
    }
    None
}
