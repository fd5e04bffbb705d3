// The texts of a list, concatenated in one allocation.
ghost use Rattle.std.specs.Prelude.{◌≡◌, [], length, slice_index_or};
ghost use Rattle.std.specs.Cmp.{partial_equiv_from_equiv};
ghost use Rattle.std.specs.Cmp.Lexicographic.{lists_equiv, nat_list_eq_equiv, pointwise};
ghost use Rattle.std.specs.Str.{bytes_eq};

use fts_base::start_of;
use std::alloc::{AllocError, Global};
use std::marker::Model;

// The concatenated texts.
#[derive(Debug, Drop)]
struct Joined {
    bytes: String,
    // The index after the last byte of each text.
    ends: Vec<usize>,
}

impl Model for Joined {
    ghost use Rattle.std.specs.Prelude.{List, ℕ, string_bytes};
    ghost use Rattle.fts_base.specs.Pieces.{pieces};
    ghost use Rattle.fts_model.specs.Internals.Joined.{AreTextEnds};

    ghost Value = { List (List ℕ) };

    ghost view = { λ t. pieces 0 (string_bytes t.bytes) t.ends.items };

    ghost invariant = { λ t. AreTextEnds (string_bytes t.bytes) t.ends.items };
}

impl Joined {
    ghost use Rattle.std.specs.Prelude.{◌≡◌, ◌++◌, ◌∷◌, [], IfOk, OnErr, OnOk, length, slice_index_or};

    fn with_capacity(alloc: Global, count: usize, bytes: usize) -> Result<Joined, AllocError>
        ensures { IfOk result (λ texts. texts ≡ []) }
    {
        let bytes = String::with_capacity(alloc, bytes)?;
        let ends = Vec::with_capacity(alloc, count)?;
        Ok(Joined { bytes, ends })
    }

    fn len(&self) -> usize
        ensures { result ≡ length self.now }
    {
        self.ends.len()
    }

    fn get(&self, number: usize) -> &str
        ensures { result.now ≡ slice_index_or self.now number [] }
    {
        if number >= self.ends.len() {
            return "";
        }
        let start = start_of(&self.ends, number);
        let end = self.ends[number];
        &self.bytes[start..end]
    }

    fn push(&mut self, text: &str) -> Result<(), AllocError>
        ensures ok { OnOk result (self.new ≡ self.old ++ text.now ∷ []) }
        ensures err { OnErr result (self.new ≡ self.old) }
    {
        let len = self.bytes.len();
        self.bytes.push_str(text)?;
        if self.ends.push(self.bytes.len()).is_err() {
            self.bytes.truncate(len);
            return Err(AllocError);
        }
        Ok(())
    }
}

impl Clone for Joined {
    ghost is_clone = { λ t u. u ≡ t };

    fn clone(&self) -> Result<Self, AllocError> {
        Ok(Joined {
            bytes: self.bytes.clone()?,
            ends: self.ends.clone()?,
        })
    }
}

/// A list of texts. Contracts see the list of their UTF-8 bytes.
#[derive(Debug, Drop)]
pub struct Texts {
    // Boxed, so that a field's value stays as small as one that is a single text.
    joined: Box<Joined>,
}

impl Model for Texts {
    ghost use Rattle.std.specs.Prelude.{List, ℕ};

    ghost Value = { List (List ℕ) };

    ghost view = { λ t. t.joined.value };
}

impl Texts {
    ghost use Rattle.std.specs.Prelude.{◌≡◌, ◌++◌, ◌∷◌, [], IfOk, OnErr, OnOk, length, nat_eq, slice_index_or};

    /// An empty list with capacity for `count` texts of `bytes` bytes together.
    pub fn with_capacity(alloc: Global, count: usize, bytes: usize) -> Result<Texts, AllocError>
        ensures { IfOk result (λ texts. texts ≡ []) }
    {
        let joined = Joined::with_capacity(alloc, count, bytes)?;
        let joined = Box::new(alloc, joined)?;
        Ok(Texts { joined })
    }

    /// The number of texts.
    pub fn len(&self) -> usize
        ensures { result ≡ length self.now }
    {
        self.joined.len()
    }

    /// Whether the list is empty.
    pub fn is_empty(&self) -> bool
        ensures { result ≡ nat_eq (length self.now) 0 }
    {
        self.len() == 0
    }

    /// The text of this number, or an empty text if there is none.
    pub fn get(&self, number: usize) -> &str
        ensures { result.now ≡ slice_index_or self.now number [] }
    {
        self.joined.get(number)
    }

    /// Appends a text.
    pub fn push(&mut self, text: &str) -> Result<(), AllocError>
        ensures ok { OnOk result (self.new ≡ self.old ++ text.now ∷ []) }
        ensures err { OnErr result (self.new ≡ self.old) }
    {
        self.joined.push(text)
    }
}

impl Clone for Texts {
    ghost is_clone = { λ t u. u ≡ t };

    fn clone(&self) -> Result<Self, AllocError> {
        Ok(Texts {
            joined: self.joined.clone()?,
        })
    }
}

impl PartialEq for Texts {
    ghost eq = { pointwise bytes_eq };

    ghost laws = { partial_equiv_from_equiv (lists_equiv nat_list_eq_equiv) };

    fn eq(&self, other: &Self) -> bool {
        if self.len() != other.len() {
            return false;
        }
        for number in 0..self.len() {
            if self.get(number) != other.get(number) {
                return false;
            }
        }
        true
    }
}

impl Eq for Texts {
    ghost laws = { lists_equiv nat_list_eq_equiv };
}
