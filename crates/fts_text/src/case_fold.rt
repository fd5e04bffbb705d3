// Simple case folding, character by character.
ghost use Rattle.std.specs.Prelude.{◌≡◌, ◌+◌, ◌<◌, ◌++◌, length, OnOk, OnErr};
ghost use Rattle.std.specs.String.{string_bytes, string_len, string_capacity};
ghost use Rattle.unicode.specs.CaseFolding.{simple_fold};
ghost use Rattle.fts_text.specs.Characters.{folded};

use std::alloc::AllocError;
use unicode::case::simple_fold;

/// The simple case folding of a character.
#[inline]
fn fold_char(c: char) -> char
    ensures { result ≡ simple_fold c }
{
    if c.is_ascii() {
        return c.to_ascii_lowercase();
    }
    simple_fold(c)
}

/// Appends the case folding of a span, which may be longer or shorter than the span. If the allocator refuses a growth,
/// `out` is unchanged.
pub fn fold_into(span: &str, out: &mut String) -> Result<(), AllocError>
    ensures ok { OnOk result (string_bytes out.new ≡ string_bytes out.old ++ folded span.now) }
    ensures err { OnErr result (string_bytes out.new ≡ string_bytes out.old) }
    ensures full { OnErr result
        (string_capacity out.old < string_len out.old + length (folded span.now)) }
{
    let len = out.len();
    for c in span.chars() {
        if let Err(error) = out.push(fold_char(c)) {
            out.truncate(len);
            return Err(error);
        }
    }
    Ok(())
}
