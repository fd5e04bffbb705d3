// Names, concatenated in one buffer of bytes.
ghost use Rattle.std.specs.Prelude.{◌≡◌, ◌<◌, ◌++◌, ◌∷◌, [], length, IfOk, OnOk, OnErr, slice_index_or};
ghost use Rattle.std.specs.Ordering.{nat_cmp};
ghost use Rattle.std.specs.Cmp.Lexicographic.{slice_cmp};
ghost use Rattle.std.specs.Str.{bytes_eq};
ghost use Rattle.fts_segment.specs.Heads.{IsHead};

use fts_base::{piece, release};
use std::alloc::{AllocError, Global};
use std::cmp::Ordering;
use std::marker::Model;

/// A list of byte strings. Contracts see the list of their bytes.
pub(crate) struct Names {
    bytes: Vec<u8>,
    /// The index after the last byte of each name.
    ends: Vec<usize>,
    /// The head of each name, so that a binary search reads one number per step.
    heads: Vec<u64>,
}

impl Model for Names {
    ghost use Rattle.std.specs.Prelude.{List, ℕ, length};
    ghost use Rattle.fts_base.specs.Pieces.{pieces, AreEnds};
    ghost use Rattle.fts_segment.specs.Heads.{AreHeads};

    ghost Value = { List (List ℕ) };

    ghost view = { λ n. pieces 0 n.bytes.items n.ends.items };

    ghost invariant = { λ n. AreEnds 0 n.ends.items (length n.bytes.items)
        × AreHeads n.heads.items (pieces 0 n.bytes.items n.ends.items) };
}

impl Drop for Names {
    fn drop(self) {
        let Names { bytes, ends, heads } = self;
        release(bytes);
        release(ends);
        release(heads);
    }
}

/// The first eight bytes of a name, big-endian and zero-padded. Distinct heads compare like their names.
fn head_of(name: &[u8]) -> u64
    ensures { IsHead result name.now }
{
    let mut head = 0;
    for place in 0..8 {
        let byte = name.get(place).copied().unwrap_or(0);
        head = head * 256 + u64::from(byte);
    }
    head
}

/// A name with its head, so that most comparisons look at one number each. Contracts see its bytes.
#[derive(Drop)]
pub(crate) struct Name<'a> {
    bytes: &'a [u8],
    head: u64,
}

impl<'a> Model for Name<'a> {
    ghost use Rattle.std.specs.Prelude.{List, ℕ};
    ghost use Rattle.fts_segment.specs.Heads.{IsHead, NameBytes};

    ghost Value = { NameBytes };

    ghost view = { λ n. n.bytes.now };

    ghost invariant = { λ n. IsHead n.head n.bytes.now };
}

impl<'a> Name<'a> {
    /// A name of these bytes.
    pub(crate) fn new(bytes: &'a [u8]) -> Name<'a>
        ensures { result ≡ bytes.now }
    {
        let head = head_of(bytes);
        Name { bytes, head }
    }

    /// A copy of this reference.
    pub(crate) fn again(&self) -> Name<'a>
        ensures { result ≡ self.now }
    {
        Name {
            bytes: self.bytes,
            head: self.head,
        }
    }

    /// The order of this name and another. The bytes are compared only if the heads are equal.
    pub(crate) fn compare(&self, other: &Name<'_>) -> Ordering
        ensures { result ≡ slice_cmp nat_cmp self.now other.now }
    {
        match self.head.cmp(&other.head) {
            Ordering::Equal => self.bytes.cmp(other.bytes),
            order => order,
        }
    }

    /// Whether another name is equal. The bytes are compared only if the heads are equal.
    pub(crate) fn is(&self, other: &Name<'_>) -> bool
        ensures { result ≡ bytes_eq self.now other.now }
    {
        self.head == other.head && self.bytes == other.bytes
    }
}

impl Names {
    /// An empty list.
    pub(crate) fn new(alloc: Global) -> Names
        ensures { result ≡ [] }
    {
        Names {
            bytes: Vec::new(alloc),
            ends: Vec::new(alloc),
            heads: Vec::new(alloc),
        }
    }

    /// An empty list with capacity for this many names.
    pub(crate) fn with_capacity(alloc: Global, names: usize) -> Result<Names, AllocError>
        ensures { IfOk result (λ names. names ≡ []) }
    {
        Ok(Names {
            bytes: Vec::new(alloc),
            ends: Vec::with_capacity(alloc, names)?,
            heads: Vec::with_capacity(alloc, names)?,
        })
    }

    /// The number of names.
    pub(crate) fn len(&self) -> usize
        ensures { result ≡ length self.now }
    {
        self.ends.len()
    }

    /// The name of this number, or no bytes if there is none.
    pub(crate) fn get(&self, number: usize) -> &[u8]
        ensures { result.now ≡ slice_index_or self.now number [] }
    {
        piece(&self.bytes, &self.ends, number)
    }

    /// The name of this number with its head.
    pub(crate) fn name(&self, number: usize) -> Name<'_>
        requires { number < length self.now }
        ensures { result ≡ slice_index_or self.now number [] }
    {
        Name {
            bytes: self.get(number),
            head: self.heads[number],
        }
    }

    /// The order of the name of this number and another. The bytes are read only if the heads are equal.
    pub(crate) fn compare(&self, number: usize, name: &Name<'_>) -> Ordering
        requires { number < length self.now }
        ensures { result ≡ slice_cmp nat_cmp (slice_index_or self.now number []) name.now }
    {
        match self.heads[number].cmp(&name.head) {
            Ordering::Equal => self.get(number).cmp(name.bytes),
            order => order,
        }
    }

    /// Appends a name.
    pub(crate) fn push(&mut self, name: &Name<'_>) -> Result<(), AllocError>
        ensures ok { OnOk result (self.new ≡ self.old ++ name.now ∷ []) }
        ensures err { OnErr result (self.new ≡ self.old) }
    {
        let len = self.bytes.len();
        let count = self.ends.len();
        self.bytes.extend_from_slice(name.bytes)?;
        if self.ends.push(self.bytes.len()).is_err() || self.heads.push(name.head).is_err() {
            self.bytes.truncate(len);
            self.ends.truncate(count);
            return Err(AllocError);
        }
        Ok(())
    }

    /// Frees unused capacity.
    pub(crate) fn shrink_to_fit(&mut self)
        ensures { self.new ≡ self.old }
    {
        self.bytes.shrink_to_fit();
        self.ends.shrink_to_fit();
        self.heads.shrink_to_fit();
    }
}
