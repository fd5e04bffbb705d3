//! Laws that tie the definitions to each other: each contract is a law, and the body is empty.
ghost use Rattle.std.specs.Prelude.{◌≡◌, ◌≤◌, ◌+◌, All, length, map};
ghost use Rattle.fts_text.specs.Tokens.{following, tokens_from};
ghost use Rattle.fts_text.specs.Places.{places_from, token_at, IsPlaceFrom};

/// The tokens of a text whose spans are numbered from `first` are the foldings of the spans at its places. Each place
/// is in the text, and there are no more of them than bytes. The next text's first number is at most `first` plus the
/// number of bytes, plus 1.
pub fn places_have_tokens(text: &str, first: usize)
    ensures tokens { map (token_at text.now) (places_from first text.now) ≡ tokens_from first text.now }
    ensures within { All (IsPlaceFrom first text.now) (places_from first text.now) }
    ensures few { length (places_from first text.now) ≤ length text.now }
    ensures following { following first text.now ≤ first + length text.now + 1 }
{}
