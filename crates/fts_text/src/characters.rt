// Decides which characters belong to a span. ASCII takes a short way past the tables.
ghost use Rattle.std.specs.Prelude.{◌≡◌};
ghost use Rattle.fts_text.specs.Characters.{is_alphanumeric};

use unicode::properties::{GeneralCategory, GeneralCategoryGroup, is_alphabetic};

/// Whether a character is Alphabetic or a number (general category Nd, Nl or No).
#[inline]
pub fn is_alphanumeric(c: char) -> bool
    ensures { result ≡ is_alphanumeric c }
{
    if c.is_ascii() {
        return c.is_ascii_alphanumeric();
    }
    is_alphabetic(c) || GeneralCategoryGroup::Number.contains(GeneralCategory::for_char(c))
}
