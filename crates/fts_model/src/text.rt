// A text that contracts see as its bytes, wherever it is in memory.
ghost use Rattle.std.specs.Prelude.{◌≡◌, string_bytes};
ghost use Rattle.std.specs.Cmp.{partial_equiv_from_equiv};
ghost use Rattle.std.specs.Cmp.Lexicographic.{nat_list_eq_equiv};
ghost use Rattle.std.specs.Str.{bytes_eq};

use std::alloc::AllocError;
use std::marker::Model;

/// A text. Contracts see its UTF-8 bytes.
#[derive(Debug, Drop)]
pub struct Text {
    string: String,
}

impl Model for Text {
    ghost use Rattle.std.specs.Prelude.{List, ℕ, string_bytes};

    ghost Value = { List ℕ };

    ghost view = { λ t. string_bytes t.string };
}

impl Text {
    /// Makes a text of a string, which isn't copied.
    pub fn new(string: String) -> Self
        ensures { result ≡ string_bytes string }
    {
        Text { string }
    }

    /// A borrowed view of the text.
    pub fn as_str(&self) -> &str
        ensures { result.now ≡ self.now }
    {
        self.string.as_str()
    }
}

impl Clone for Text {
    ghost is_clone = { λ t u. u ≡ t };

    fn clone(&self) -> Result<Self, AllocError> {
        Ok(Text {
            string: self.string.clone()?,
        })
    }
}

impl PartialEq for Text {
    ghost eq = { bytes_eq };

    ghost laws = { partial_equiv_from_equiv nat_list_eq_equiv };

    fn eq(&self, other: &Self) -> bool {
        self.string.as_str() == other.string.as_str()
    }
}

impl Eq for Text {
    ghost laws = { nat_list_eq_equiv };
}
