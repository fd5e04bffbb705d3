// Consecutive lists of documents among others.
ghost use Rattle.std.specs.Prelude.{◌≤◌, length};

use crate::list_ref::ListRef;
use crate::lists::Lists;

/// Consecutive lists of documents. A copy of it costs nothing.
#[derive(Clone, Copy)]
pub struct ListRange<'a> {
    lists: &'a Lists,
    start: usize,
    end: usize,
    ghost within: { (start ≤ end) × (end ≤ length lists.now) },
}

impl<'a> ListRange<'a> {
    ghost use Rattle.std.specs.Prelude.{◌≡◌, ◌<◌, ◌≤◌, ◌==◌, [], length, slice_index_or, slice_range};
    ghost use Rattle.fts_pack.specs.ListRange.{lists_in_range};
    ghost use Rattle.fts_pack.specs.ListRef.{listed};

    pub(crate) fn new(lists: &'a Lists, start: usize, end: usize) -> ListRange<'a>
        requires order { start ≤ end }
        requires within { end ≤ length lists.now }
        ensures { lists_in_range result ≡ slice_range lists.now start end }
    {
        ListRange { lists, start, end }
    }

    /// The number of lists.
    pub fn len(self) -> usize
        ensures { result ≡ length (lists_in_range self.entry) }
    {
        self.end - self.start
    }

    /// Whether there is no list.
    pub fn is_empty(self) -> bool
        ensures { result ≡ (length (lists_in_range self.entry) == 0) }
    {
        self.len() == 0
    }

    /// One of the lists.
    pub fn get(self, index: usize) -> ListRef<'a>
        requires { index < length (lists_in_range self) }
        ensures { listed result ≡ slice_index_or (lists_in_range self.entry) index [] }
    {
        self.lists.get(self.start + index)
    }
}
