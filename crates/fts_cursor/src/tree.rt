// Cursors of queries within one another. Each knows the first document that remains of it.
ghost use Rattle.std.specs.Prelude.{◌≡◌, ℕ, ◌+◌, ◌-◌, ◌^◌, ◌<◌, ◌≤◌, All, IfOk, [], MatchOption, true, false, drop};
ghost use Rattle.std.specs.Prelude.{Some, filter, length};
ghost use Rattle.std.specs.Prelude.{min, slice_get};
ghost use Rattle.std.specs.List.Sorted.{IsStrictlyIncreasing};
ghost use Rattle.fts_postings.specs.Bounds.{most_at};
ghost use Rattle.fts_postings.specs.Conjoined.{common_of};
ghost use Rattle.fts_postings.specs.Sets.{common, has, union, without};
ghost use Rattle.fts_postings.specs.Remaining.{at_least};
ghost use Rattle.fts_postings.specs.Takes.{Takes};
ghost use Rattle.fts_cursor.specs.Standing.{OpensAlong, OpensOnce, Walked, at_most, with_opened};
ghost use Rattle.fts_cursor.specs.Terms.{AreTied, of_terms};
ghost use Rattle.fts_cursor.specs.TreeValues.{LeavesList, TreeContinues, all_most, all_openings, remains};
ghost use Rattle.fts_cursor.specs.Trees.{IsNow, StandsAt, tree_value};
ghost use Rattle.fts_pack.specs.Documents.{block_count};
ghost use Rattle.fts_pack.specs.ListRef.{listed};

mod buffered_union;
mod exclusion;
mod filtered_tree;
mod intersection;

use crate::list_union::ListedCursor;
use crate::phrase::PhraseCursor;
use buffered_union::{BufferedUnion, count_gathered, gather, refill, take_gathered};
use exclusion::{Exclusion, settle, take_without};
use filtered_tree::{FilteredTree, count_kept, take_filtered};
use fts_pack::{ListRef, ListSource};
use fts_postings::{Conjunction, DocSet, PostingCursor, Window};
use fts_sets::{DocIdSet, SetCursor};
use intersection::{Intersection, align};
use std::alloc::{AllocError, Global};
use std::marker::Model;

/// The documents that match a query. A tree is moved often while it is made, so it is small: the node that finds them
/// is in a box.
#[cycle(tree)]
#[derive(Drop)]
pub(crate) struct Tree<'a> {
    doc: Option<u32>,
    source: Source<'a>,
}

/// If no document matches there is no node, and no memory is taken.
#[cycle(tree)]
#[derive(Drop)]
enum Source<'a> {
    Nothing,
    Cursor(Box<Node<'a>>),
}

#[cycle(tree)]
#[derive(Drop)]
enum Node<'a> {
    /// The count is the number of blocks that were opened of the lists whose documents it has.
    Scan(SetCursor<'a>, u64),
    /// The count is the number of blocks that were opened to list the documents.
    Listed(ListedCursor, u64),
    Postings(PostingCursor<ListSource<'a>>),
    /// The count is the number of blocks that were opened of the lists by whose bits the documents are filtered.
    Terms(Conjunction<ListSource<'a>>, u64),
    Phrase(PhraseCursor<'a>),
    And(Intersection<'a>),
    Or(BufferedUnion<'a>),
    Without(Exclusion<'a>),
    Filtered(FilteredTree<'a>),
}

impl<'a> Model for Tree<'a> {
    ghost use Rattle.fts_cursor.specs.TreeValues.{TreeValue};

    ghost Value = { TreeValue };

    ghost use Rattle.fts_cursor.specs.Trees.{value_of, IsTree};

    ghost view = { λ c. value_of c.source };

    ghost invariant = { λ c. IsTree c.doc c.source };

    ghost size = { λ t. t.height };

    ghost use Rattle.fts_cursor.specs.Falls.{source_falls};

    ghost size_decreases = { λ c h. source_falls c.source };
}

impl<'a> Tree<'a> {
    /// The tree without documents.
    pub(crate) fn nothing() -> Tree<'a>
        ensures remaining { result.remaining ≡ [] }
        ensures counts { (result.openings ≡ 0) × (result.bound ≡ at_most 0) × (result.whole ≡ true) }
        ensures list { result.list ≡ Some [] }
    {
        Tree {
            doc: None,
            source: Source::Nothing,
        }
    }

    /// The tree of a node that is at the document.
    fn of(alloc: Global, doc: Option<u32>, node: Node<'a>) -> Result<Tree<'a>, AllocError>
        requires { StandsAt doc node }
        ensures { IfOk result (λ t. t ≡ tree_value node.entry) }
    {
        let source = Source::Cursor(Box::new(alloc, node)?);
        Ok(Tree { doc, source })
    }

    /// The tree of documents that are tested by their number alone.
    #[inline(never)]
    pub(crate) fn scan(alloc: Global, scan: SetCursor<'a>) -> Result<Tree<'a>, AllocError>
        ensures remaining { IfOk result (λ t. t.remaining ≡ scan.entry) }
        ensures counts { IfOk result (λ t. (t.openings ≡ 0) × (t.bound ≡ at_most 0)) }
    {
        Tree::dense(alloc, scan, 0)
    }

    /// The tree of documents that are given by bits of lists. `opened` blocks of these lists were opened.
    pub(crate) fn dense(
        alloc: Global,
        scan: SetCursor<'a>,
        opened: u64,
    ) -> Result<Tree<'a>, AllocError>
        ensures remaining { IfOk result (λ t. t.remaining ≡ scan.entry) }
        ensures counts { IfOk result (λ t. (t.openings ≡ opened) × (t.bound ≡ at_most opened)) }
    {
        Tree::of(alloc, scan.doc(), Node::Scan(scan, opened))
    }

    /// The tree of documents that are in memory. `opened` blocks were opened to read them.
    pub(crate) fn listed(
        alloc: Global,
        listed: ListedCursor,
        opened: u64,
    ) -> Result<Tree<'a>, AllocError>
        ensures remaining { IfOk result (λ t. t.remaining ≡ listed) }
        ensures counts { IfOk result (λ t. (t.openings ≡ opened) × (t.bound ≡ at_most opened)) }
    {
        Tree::of(alloc, listed.doc(), Node::Listed(listed, opened))
    }

    /// The tree of a list.
    #[inline(never)]
    pub(crate) fn postings(alloc: Global, list: ListRef<'a>) -> Result<Tree<'a>, AllocError>
        ensures remaining { IfOk result (λ t. t.remaining ≡ listed list.entry) }
        ensures bound { IfOk result (λ t. t.bound ≡ at_most (block_count (length (listed list.entry)))) }
        ensures whole { IfOk result (λ t. t.whole ≡ true) }
        ensures list { IfOk result (λ t. t.list ≡ Some (listed list.entry)) }
    {
        let postings = PostingCursor::new(list.source());
        Tree::of(alloc, postings.doc(), Node::Postings(postings))
    }

    /// The tree of the documents that lists have in common. `opened` blocks were opened of lists by whose bits they will be
    /// filtered.
    pub(crate) fn terms(
        alloc: Global,
        terms: Conjunction<ListSource<'a>>,
        opened: u64,
    ) -> Result<Tree<'a>, AllocError>
        requires { AreTied terms }
        ensures { IfOk result (λ t. t.standing ≡ with_opened opened (of_terms terms.entry (common_of terms.entry))) }
    {
        Tree::of(alloc, terms.doc(), Node::Terms(terms, opened))
    }

    /// The tree of a phrase.
    pub(crate) fn phrase(alloc: Global, phrase: PhraseCursor<'a>) -> Result<Tree<'a>, AllocError>
        ensures remaining { IfOk result (λ t. t.remaining ≡ phrase.entry.remaining) }
        ensures bound { IfOk result (λ t. t.bound ≡ phrase.entry.bound) }
    {
        Tree::of(alloc, phrase.doc(), Node::Phrase(phrase))
    }

    /// The tree of the documents that all parts have in common. The one that leads is best the one with the fewest
    /// documents.
    pub(crate) fn and(
        alloc: Global,
        lead: Box<Tree<'a>>,
        others: Vec<Tree<'a>>,
    ) -> Result<Tree<'a>, AllocError>
        ensures remaining { IfOk result
            (λ t. t.remaining ≡ common lead.entry.value.remaining (remains others.entry.items)) }
        ensures most { IfOk result (λ t. most_at t.bound None
            ≡ most_at lead.entry.value.bound None + all_most others.entry.items) }
    {
        let mut parts = Intersection { lead, others };
        let doc = align(&mut parts);
        Tree::of(alloc, doc, Node::And(parts))
    }

    /// The tree of the documents that at least one part has.
    #[inline(never)]
    pub(crate) fn or(alloc: Global, parts: Vec<Tree<'a>>) -> Result<Tree<'a>, AllocError>
        ensures remaining { IfOk result (λ t. t.remaining ≡ union (remains parts.entry.items)) }
        ensures most { IfOk result (λ t. most_at t.bound None ≡ all_most parts.entry.items) }
    {
        let window = Window::new();
        let mut buffered = BufferedUnion { parts, window };
        let doc = refill(&mut buffered, 0);
        Tree::of(alloc, doc, Node::Or(buffered))
    }

    /// The tree of the documents that the first part has and the second doesn't.
    pub(crate) fn without(
        alloc: Global,
        kept: Tree<'a>,
        dropped: Tree<'a>,
    ) -> Result<Tree<'a>, AllocError>
        ensures remaining { IfOk result (λ t. t.remaining
            ≡ without kept.entry.remaining dropped.entry.remaining) }
        ensures most { IfOk result (λ t. most_at t.bound None
            ≡ most_at kept.entry.bound None + most_at dropped.entry.bound None) }
    {
        let kept = Box::new(alloc, kept)?;
        let dropped = Box::new(alloc, dropped)?;
        let mut parts = Exclusion { kept, dropped };
        let doc = settle(&mut parts);
        Tree::of(alloc, doc, Node::Without(parts))
    }

    /// The tree of the documents of another that are of a set. Sets that filter one tree are one set.
    pub(crate) fn filtered(
        alloc: Global,
        tree: Tree<'a>,
        set: DocIdSet<'a>,
    ) -> Result<Tree<'a>, AllocError>
        ensures remaining { IfOk result (λ t. t.remaining ≡ filter (has set.entry) tree.entry.remaining) }
        ensures rises { IfOk result (λ t. IsStrictlyIncreasing t.remaining) }
        ensures walked { IfOk result (λ t. Walked tree.entry.standing t.standing) }
    {
        let Tree { doc, source } = tree;
        let Source::Cursor(mut node) = source else {
            return Ok(Tree::nothing());
        };
        match &mut *node {
            Node::Scan(scan, _) => {
                scan.cut(set)?;
                let doc = scan.doc();
                Ok(Tree {
                    doc,
                    source: Source::Cursor(node),
                })
            }
            Node::Filtered(filtered) => {
                filtered.set.meet(set)?;
                let doc = filtered_tree::settle(&mut filtered.tree, &filtered.set);
                Ok(Tree {
                    doc,
                    source: Source::Cursor(node),
                })
            }
            _ => {
                let source = Source::Cursor(node);
                let mut tree = Box::new(alloc, Tree { doc, source })?;
                let doc = filtered_tree::settle(&mut tree, &set);
                Tree::of(alloc, doc, Node::Filtered(FilteredTree { tree, set }))
            }
        }
    }

    /// How many blocks were opened since the cursors were made, those of the making included, or the greatest `u64`. It
    /// is never more than the bound at the document where the tree is.
    #[cycle(openings)]
    pub(crate) fn openings(&self) -> u64
        ensures sum { result ≡ min (2 ^ 64 - 1) self.now.openings }
        ensures bound { self.now.openings
            ≤ most_at self.now.bound (slice_get self.now.remaining 0) }
        ensures end { self.now.whole ≡ true → self.now.remaining ≡ []
            → self.now.openings ≡ most_at self.now.bound None }
        ensures along { OpensAlong self.now.standing }
    {
        let Source::Cursor(node) = &self.source else {
            return 0;
        };
        match &**node {
            Node::Scan(_, opened) | Node::Listed(_, opened) => *opened,
            Node::Postings(postings) => postings.openings(),
            Node::Terms(terms, opened) => terms.openings().saturating_add(*opened),
            Node::Phrase(phrase) => phrase.openings(),
            Node::And(parts) => parts
                .lead
                .openings()
                .saturating_add(openings_in(&parts.others)),
            Node::Or(buffered) => openings_in(&buffered.parts),
            Node::Without(parts) => parts
                .kept
                .openings()
                .saturating_add(parts.dropped.openings()),
            Node::Filtered(filtered) => filtered.tree.openings(),
        }
    }

    /// How many documents remain at most, or the greatest `usize`.
    #[cycle(cost)]
    pub(crate) fn cost(&self) -> usize
        ensures bound { min (2 ^ 64 - 1) (length self.now.remaining) ≤ result }
        ensures rises { IsStrictlyIncreasing self.now.remaining }
    {
        let Source::Cursor(node) = &self.source else {
            return 0;
        };
        match &**node {
            Node::Scan(scan, _) => scan.cost(),
            Node::Listed(listed, _) => listed.cost(),
            Node::Postings(postings) => postings.cost(),
            Node::Terms(terms, _) => terms.cost(),
            Node::Phrase(phrase) => phrase.cost(),
            Node::And(parts) => parts.lead.cost(),
            Node::Or(buffered) => buffered
                .window
                .cost()
                .saturating_add(cost_in(&buffered.parts)),
            Node::Without(parts) => parts.kept.cost(),
            Node::Filtered(filtered) => filtered.tree.cost(),
        }
    }

    /// The first document that remains. Contracts learn here what remains of a list alone.
    #[inline]
    pub(crate) fn doc(&self) -> Option<u32>
        ensures first { result ≡ slice_get self.now.remaining 0 }
        ensures rises { IsStrictlyIncreasing self.now.remaining }
        ensures left { LeavesList self.now }
    {
        self.doc
    }

    /// Passes the first document.
    #[cycle(tree)]
    pub(crate) fn advance(&mut self)
        ensures remaining { self.new.remaining ≡ drop 1 self.old.remaining }
        ensures walked { Walked self.old.standing self.new.standing }
        ensures height { self.new.height ≡ self.old.height }
    {
        let Source::Cursor(node) = &mut self.source else {
            return;
        };
        if self.doc.is_some() {
            self.doc = step(&mut **node);
        }
    }

    /// Passes the documents below the target.
    #[cycle(tree)]
    pub(crate) fn seek(&mut self, target: u32)
        ensures remaining { self.new.remaining ≡ at_least target self.old.remaining }
        ensures continues { TreeContinues self.old self.new }
        ensures once { OpensOnce target self.old.standing self.new.standing }
    {
        let Source::Cursor(node) = &mut self.source else {
            return;
        };
        if let Some(doc) = self.doc {
            if doc < target {
                self.doc = skip(&mut **node, target);
            }
        }
    }

    /// The number of documents that remain, or the greatest `usize`, if they needn't be gone through one by one for
    /// that; it passes them then.
    pub(crate) fn count(&mut self) -> Option<usize>
        ensures counted { MatchOption result (self.new ≡ self.old)
            (λ count. (count ≡ min (2 ^ 64 - 1) (length self.old.remaining)) × (self.new.remaining ≡ [])) }
        ensures walked { Walked self.old.standing self.new.standing }
    {
        let Source::Cursor(node) = &mut self.source else {
            return Some(0);
        };
        let count = match &mut **node {
            Node::Scan(scan, _) => scan.count(),
            Node::Postings(postings) => postings.count(),
            Node::Or(buffered) => count_gathered(buffered, self.doc),
            Node::Filtered(filtered) => count_kept(&mut filtered.tree, &filtered.set),
            _ => return None,
        };
        self.doc = None;
        Some(count)
    }

    /// Takes some of the next documents, 1 to 128 if any remains: writes them to the front of `out`, and returns how
    /// many they are.
    #[cycle(take)]
    pub(crate) fn take(&mut self, out: &mut [u32; 128]) -> usize
        ensures taken { Takes self.old.remaining self.new.remaining out.new result }
        ensures rises { IsStrictlyIncreasing self.old.remaining }
        ensures walked { Walked self.old.standing self.new.standing }
    {
        let Source::Cursor(node) = &mut self.source else {
            return 0;
        };
        let (count, doc) = take_from(&mut **node, self.doc, out);
        self.doc = doc;
        count
    }
}

/// How many blocks all of them opened.
#[cycle(openings)]
fn openings_in(parts: &[Tree]) -> u64
    ensures sum { result ≡ min (2 ^ 64 - 1) (all_openings parts.now) }
    ensures bound { all_openings parts.now ≤ all_most parts.now }
{
    let mut sum = 0u64;
    for part in parts {
        sum = sum.saturating_add(part.openings());
    }
    sum
}

/// How many documents all of them have at most, or the greatest `usize`.
#[cycle(cost)]
fn cost_in(parts: &[Tree]) -> usize
    ensures { min (2 ^ 64 - 1) (length (union (remains parts.now))) ≤ result }
{
    let mut sum = 0usize;
    for part in parts {
        sum = sum.saturating_add(part.cost());
    }
    sum
}

/// Passes the node's first document, and gives the next.
#[cycle(tree)]
fn step(node: &mut Node) -> Option<u32>
    requires { (doc : ℕ) × StandsAt (Some doc) node.old }
    ensures now { IsNow result node.new (drop 1 (tree_value node.old).remaining) }
    ensures walked { Walked (tree_value node.old).standing (tree_value node.new).standing }
    ensures height { (tree_value node.new).height ≡ (tree_value node.old).height }
{
    match node {
        Node::Scan(scan, _) => {
            scan.advance();
            scan.doc()
        }
        Node::Listed(listed, _) => {
            listed.advance();
            listed.doc()
        }
        Node::Postings(postings) => {
            postings.advance();
            postings.doc()
        }
        Node::Terms(terms, _) => {
            terms.advance();
            terms.doc()
        }
        Node::Phrase(phrase) => {
            phrase.advance();
            phrase.doc()
        }
        Node::And(parts) => {
            parts.lead.advance();
            align(parts)
        }
        Node::Or(buffered) => {
            buffered.window.advance();
            gather(buffered, 0)
        }
        Node::Without(parts) => {
            parts.kept.advance();
            settle(parts)
        }
        Node::Filtered(filtered) => {
            filtered.tree.advance();
            filtered_tree::settle(&mut filtered.tree, &filtered.set)
        }
    }
}

/// Passes the documents below the target, and returns the first document from there on.
#[cycle(tree)]
fn skip(node: &mut Node, target: u32) -> Option<u32>
    requires { (doc : ℕ) × StandsAt (Some doc) node.old × (doc < target) }
    ensures now { IsNow result node.new (at_least target (tree_value node.old).remaining) }
    ensures continues { TreeContinues (tree_value node.old) (tree_value node.new) }
    ensures once { OpensOnce target (tree_value node.old).standing (tree_value node.new).standing }
{
    match node {
        Node::Scan(scan, _) => {
            scan.seek(target);
            scan.doc()
        }
        Node::Listed(listed, _) => {
            listed.seek(target);
            listed.doc()
        }
        Node::Postings(postings) => {
            postings.seek(target);
            postings.doc()
        }
        Node::Terms(terms, _) => {
            terms.seek(target);
            terms.doc()
        }
        Node::Phrase(phrase) => {
            phrase.seek(target);
            phrase.doc()
        }
        Node::And(parts) => {
            parts.lead.seek(target);
            align(parts)
        }
        Node::Or(buffered) => gather(buffered, target),
        Node::Without(parts) => {
            parts.kept.seek(target);
            settle(parts)
        }
        Node::Filtered(filtered) => {
            filtered.tree.seek(target);
            filtered_tree::settle(&mut filtered.tree, &filtered.set)
        }
    }
}

/// Takes some of the next documents of a node that is at `doc`. Returns how many they are, and the next document.
#[cycle(take)]
fn take_from(node: &mut Node, doc: Option<u32>, out: &mut [u32; 128]) -> (usize, Option<u32>)
    requires { StandsAt doc node.old }
    ensures taken { Takes (tree_value node.old).remaining (tree_value node.new).remaining out.new result.0 }
    ensures stands { StandsAt result.1 node.new }
    ensures walked { Walked (tree_value node.old).standing (tree_value node.new).standing }
{
    match node {
        Node::Scan(scan, _) => {
            let count = scan.take(out);
            (count, scan.doc())
        }
        Node::Listed(listed, _) => {
            let count = listed.take(out);
            (count, listed.doc())
        }
        Node::Postings(postings) => {
            let count = postings.take(out);
            (count, postings.doc())
        }
        Node::Terms(terms, _) => {
            let count = terms.take(out);
            (count, terms.doc())
        }
        Node::Phrase(phrase) => {
            let count = phrase.take(out);
            (count, phrase.doc())
        }
        Node::Or(buffered) => take_gathered(buffered, out),
        Node::Without(parts) => take_without(parts, out),
        Node::Filtered(filtered) => take_filtered(filtered, out),
        Node::And(_) => take_by_steps(node, doc, out),
    }
}

/// As `take_from`, a document at a time.
fn take_by_steps(node: &mut Node, doc: Option<u32>, out: &mut [u32; 128]) -> (usize, Option<u32>)
    requires { StandsAt doc node.old }
    ensures taken { Takes (tree_value node.old).remaining (tree_value node.new).remaining out.new result.0 }
    ensures stands { StandsAt result.1 node.new }
    ensures walked { Walked (tree_value node.old).standing (tree_value node.new).standing }
{
    let mut next = doc;
    for taken in 0..128 {
        let Some(first) = next else {
            return (taken, None);
        };
        out[taken] = first;
        next = step(node);
    }
    (128, next)
}
