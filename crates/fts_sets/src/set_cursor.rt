// A cursor over the documents of a set.
ghost use Rattle.std.specs.Prelude.{◌≡◌, ℕ, ◌+◌, ◌-◌, ◌^◌, ◌<◌, ◌≤◌, IfOk, IfErr, IfSome, [], true, filter, length, min, take};
ghost use Rattle.std.specs.List.{range_with_len};
ghost use Rattle.fts_postings.specs.Remaining.{at_least};
ghost use Rattle.fts_postings.specs.Sets.{has};
ghost use Rattle.fts_postings.specs.Windows.{is_set};
ghost use Rattle.fts_sets.specs.Rows.{AreMarked, Holds, IsFound};

use crate::doc_id_set::DocIdSet;
use fts_pack::bits::Bits;
use fts_postings::{DocSet, Window};
use std::alloc::AllocError;
use std::marker::Model;

/// A number above each document, since these have 32 bits.
const END: usize = 4_294_967_296;

/// How far a window reaches if few documents may be asked for: two words.
const NEAR: u32 = 127;

/// How far it reaches after steps.
const FAR: u32 = 4095;

/// A cursor over the documents of a set. The next of them are in a window.
#[derive(Drop)]
pub struct SetCursor<'a> {
    set: DocIdSet<'a>,
    // How many documents remain, if that is known.
    total: Option<usize>,
    // The first document that remains, or `END`.
    at: usize,
    // If it ends there or later, it has the documents of the set from there to its last.
    window: Window,
}

impl<'a> Model for SetCursor<'a> {
    ghost use Rattle.std.specs.Prelude.{ℕ, List};
    ghost use Rattle.fts_postings.specs.Remaining.{at_least};
    ghost use Rattle.fts_sets.specs.Rows.{IsSetCursor};

    ghost Value = { List ℕ };

    ghost view = { λ c. at_least c.at c.set };

    ghost invariant = { λ c. IsSetCursor c.set c.total c.at c.window };
}

impl<'a> SetCursor<'a> {
    /// A cursor over a set, and how many documents this has, if that is known.
    pub fn new(set: DocIdSet<'a>, total: Option<usize>) -> SetCursor<'a>
        requires { IfSome total (λ n. n ≡ length set) }
        ensures { result ≡ set.entry }
    {
        let mut window = first_window(&set);
        let at = find_at(&set, &mut window, 0);
        SetCursor {
            set,
            total,
            at,
            window,
        }
    }

    /// An upper bound on the documents that remain: their number, if it is known, otherwise the number of those not
    /// looked at.
    pub fn cost(&self) -> usize
        ensures { length self.now ≤ result }
    {
        match self.total {
            Some(total) => total,
            None => self.set.cost_from(self.at),
        }
    }

    /// How many documents remain. Passes them, without listing them; if their number is known, none is looked at.
    pub fn count(&mut self) -> usize
        ensures count { result ≡ length self.old }
        ensures none { self.new ≡ [] }
    {
        let count = self.remaining();
        self.total = None;
        self.at = END;
        count
    }

    /// How many documents remain.
    fn remaining(&self) -> usize
        ensures { result ≡ length self.now }
    {
        match self.total {
            Some(total) => total,
            None => self.set.count_from(self.at),
        }
    }

    /// Marks the documents that have a place in a window, and passes them.
    pub fn mark(&mut self, window: &mut Window)
        requires { self.old ≡ at_least window.old.from self.old }
        ensures marked { AreMarked (has self.old) window.old window.new }
        ensures passed { self.new ≡ at_least (window.old.last + 1) self.old }
        ensures place { (window.new.from ≡ window.old.from) × (window.new.last ≡ window.old.last) }
    {
        if self.at < END {
            self.set.mark(window, self.at as u32);
            self.pass(window.last as usize + 1);
        }
    }

    /// Passes the documents below the target.
    fn pass(&mut self, target: usize)
        ensures { self.new ≡ at_least target self.old }
    {
        if self.at < target {
            self.total = None;
            self.at = find_at(&self.set, &mut self.window, target);
        }
    }

    /// Leaves only those of the remaining documents that are of another set too, best one with most of them.
    pub fn cut(&mut self, other: DocIdSet<'a>) -> Result<(), AllocError>
        ensures { IfOk result (λ _. self.new ≡ filter (has other.entry) self.old) }
    {
        let total = self.count_common(&other);
        let met = self.set.meet(other);
        self.total = None;
        self.at = begin(&self.set, &mut self.window, self.at);
        met?;
        self.total = total;
        Ok(())
    }

    /// How many of the documents that remain are of another set, if it is known, since each document remains and bits tell
    /// the other.
    fn count_common(&self, other: &DocIdSet) -> Option<usize>
        ensures { IfSome result (λ n. n ≡ length (filter (has other.now) self.now)) }
    {
        let total = self.total?;
        let bits = other.bits()?;
        if total != self.set.docs() {
            return None;
        }
        self.set.count_set(bits)
    }
}

impl DocSet for SetCursor<'_> {
    ghost remaining = { λ c. c };

    #[inline]
    fn doc(&self) -> Option<u32> {
        if self.at < END {
            Some(self.at as u32)
        } else {
            None
        }
    }

    #[inline]
    fn advance(&mut self) {
        self.total = None;
        self.at = find(&self.set, &mut self.window, self.at + 1);
    }

    #[inline]
    fn seek(&mut self, target: u32) {
        self.pass(target as usize);
    }

    /// Takes what fits of the window, or of all numbers if there is no test.
    fn take(&mut self, out: &mut [u32; 128]) -> usize {
        if self.at >= END {
            return 0;
        }
        if let Some(end) = self.set.untested() {
            let count = write_numbers(self.at, end, out);
            self.total = None;
            self.at = find_at(&self.set, &mut self.window, self.at + count);
            return count;
        }
        cover(&self.set, &mut self.window, self.at as u32, FAR);
        self.window.seek(self.at as u32);
        let count = self.window.take(out);
        self.total = None;
        self.at = find(&self.set, &mut self.window, out[count - 1] as usize + 1);
        count
    }
}

/// Writes the numbers from one on, as many as fit of those below an end, and returns how many they are.
fn write_numbers(from: usize, end: usize, out: &mut [u32; 128]) -> usize
    requires order { from < end }
    requires few { end ≤ 2 ^ 32 }
    ensures count { result ≡ min 128 (end - from) }
    ensures written { take result out.new ≡ range_with_len from result }
{
    let count = (end - from).min(128);
    for place in 0..count {
        out[place] = (from + place) as u32;
    }
    count
}

/// The first document of a set from a number on, or `END`. The window is begun anew.
fn begin(set: &DocIdSet, window: &mut Window, from: usize) -> usize
    ensures { IsFound set.now from result window.new }
{
    *window = first_window(set);
    find_at(set, window, from)
}

/// A window with a place for the first document alone, marked if the set has it.
fn first_window(set: &DocIdSet) -> Window
    ensures { Holds set.now 0 result }
{
    let mut window = Window {
        base: 0,
        from: 0,
        last: 0,
        words: [0; 64],
    };
    if !set.has(0) {
        return window;
    }
    window.mark(0);
    window
}

/// The first document of a set from a number on, or `END`. If that number is above the window's last document and the
/// set has it, no window is filled.
fn find_at(set: &DocIdSet, window: &mut Window, from: usize) -> usize
    requires { Holds set.now from window.old }
    ensures { IsFound set.now from result window.new }
{
    if from < set.docs() && from > window.last as usize && set.has(from) {
        return from;
    }
    find(set, window, from)
}

/// As `find_at`, by windows.
fn find(set: &DocIdSet, window: &mut Window, from: usize) -> usize
    requires { Holds set.now from window.old }
    ensures { IsFound set.now from result window.new }
{
    let docs = set.docs();
    let mut at = from;
    let mut reach = first_reach(window.last, from);
    while at < docs {
        cover(set, window, at as u32, reach);
        window.seek(at as u32);
        if let Some(doc) = window.first() {
            return doc as usize;
        }
        at = window.last as usize + 1;
        reach = (2 * reach + 1).min(FAR);
    }
    END
}

/// Begins a window anew, if it has no place for a document.
#[inline]
fn cover(set: &DocIdSet, window: &mut Window, doc: u32, reach: u32)
    requires reach { reach ≤ 4095 }
    requires holds { Holds set.now doc window.old }
    ensures holds { Holds set.now doc window.new }
    ensures within { doc ≤ window.new.last }
{
    if window.covers(doc) {
        return;
    }
    let remaining = set.docs().saturating_sub(doc as usize);
    fill(set, window, doc, remaining.min(reach as usize) as u32);
}

/// Begins a window anew at a document, with those of the set from there on.
fn fill(set: &DocIdSet, window: &mut Window, from: u32, reach: u32)
    requires { reach ≤ 4095 }
    ensures holds { Holds set.now from window.new }
    ensures within { from ≤ window.new.last }
{
    window.begin(from, reach);
    set.mark(window, from);
}

/// How far the first window reaches that begins at a document, if the one before ends at another: near at the start and
/// after a far seek, since the next may go as far again.
#[inline]
fn first_reach(last: u32, from: usize) -> u32
    ensures { result ≤ 4095 }
{
    if last == 0 || from > last as usize + 128 {
        NEAR
    } else {
        FAR
    }
}
