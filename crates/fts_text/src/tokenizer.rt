// Finds the spans of a text in one pass.
ghost use Rattle.std.specs.Prelude.{◌≡◌, ◌+◌, ◌^◌, ◌<◌, length};
ghost use Rattle.std.specs.Str.{chars, IsUtf8};
ghost use Rattle.fts_text.specs.Characters.{front_len};

use crate::characters::is_alphanumeric;

/// A span of at least this many bytes is too long for a token.
const LIMIT: usize = 40;

/// The place of a token in a text.
#[derive(Clone, Copy, Debug, PartialEq, Eq)]
pub struct Token {
    /// The number of the span, from 0. A span that is too long still takes a number, so positions may have gaps.
    pub position: usize,
    /// The byte of the text at which the span begins.
    pub start: usize,
    /// The byte after the span.
    pub end: usize,
}

impl Token {
    ghost use Rattle.std.specs.Prelude.{◌≡◌, slice_range};
    ghost use Rattle.fts_text.specs.Places.{IsPlaceIn};

    /// The span at this place of the text, not folded.
    pub fn span<'a>(&self, text: &'a str) -> &'a str
        requires { IsPlaceIn text.now self.now }
        ensures { result.now ≡ slice_range text.now self.now.start self.now.end }
    {
        &text[self.start..self.end]
    }
}

/// An iterator over the tokens of a text, in order.
#[derive(Drop)]
pub struct Tokens<'a> {
    /// The text after the last span.
    rest: &'a str,
    /// The byte of the text at which `rest` begins.
    at: usize,
    /// The numbers of the first span and of the next one.
    first: usize,
    next_position: usize,
    ghost at_fits: { at + length rest.now < 2 ^ 64 },
    ghost position_fits: { next_position + length rest.now < 2 ^ 64 },
}

impl<'a> Tokens<'a> {
    ghost use Rattle.std.specs.Prelude.{◌≡◌, ◌+◌, ◌^◌, ◌<◌, ◌∷◌, [], MatchOption, length};
    ghost use Rattle.fts_text.specs.Tokens.{following};
    ghost use Rattle.fts_text.specs.Places.{following_left, places, places_from, places_left, YieldsSpan};

    /// Iterates over the tokens of a text, with spans numbered from 0.
    pub fn new(text: &'a str) -> Tokens<'a>
        ensures following { following_left result ≡ following 0 text.now }
        ensures tokens { places_left result ≡ places text.now }
    {
        Tokens::over(text, 0)
    }

    /// Iterates over the tokens of a text whose spans are numbered from `first`, for one of several texts of a field.
    /// Takes no memory.
    pub fn starting(text: &'a str, first: usize) -> Tokens<'a>
        requires { first + length text.now + 2 < 2 ^ 64 }
        ensures tokens { places_left result ≡ places_from first text.now }
        ensures following { following_left result ≡ following first text.now }
    {
        Tokens::over(text, first)
    }

    /// Iterates over the tokens of a text whose spans are numbered from `first`.
    fn over(text: &'a str, first: usize) -> Tokens<'a>
        requires { first + length text.now < 2 ^ 64 }
        ensures tokens { places_left result ≡ places_from first text.now }
        ensures following { following_left result ≡ following first text.now }
    {
        Tokens {
            rest: text,
            at: 0,
            first,
            next_position: first,
        }
    }

    /// The number of the first span of the next text: two above that of the last span, which may be too long for a
    /// token, or `first` if this text has no span. This reads the rest of the text and takes no memory.
    pub fn following(mut self) -> usize
        requires { following_left self < 2 ^ 64 }
        ensures { result ≡ following_left self.entry }
    {
        while let Some(_) = self.next_span() {}
        if self.next_position == self.first {
            self.first
        } else {
            self.next_position + 1
        }
    }

    /// The next token.
    pub fn next_token(&mut self) -> Option<Token>
        ensures steps { MatchOption result
            ((places_left self.old ≡ []) × (places_left self.new ≡ []))
            (λ token. places_left self.old ≡ token ∷ places_left self.new) }
        ensures following { following_left self.new ≡ following_left self.old }
    {
        while let Some(span) = self.next_span() {
            if span.end - span.start < LIMIT {
                return Some(span);
            }
        }
        None
    }

    /// The next span, of any length.
    fn next_span(&mut self) -> Option<Token>
        ensures { YieldsSpan self.old result self.new }
    {
        let gap = front_len(self.rest, false);
        let rest = &self.rest[gap..];
        let len = front_len(rest, true);
        let start = self.at + gap;
        self.rest = &rest[len..];
        self.at = start + len;
        if len == 0 {
            return None;
        }
        let position = self.next_position;
        self.next_position = position + 1;
        Some(Token {
            position,
            start,
            end: start + len,
        })
    }
}

impl Iterator for Tokens<'_> {
    type Item = Token;

    ghost use Rattle.std.specs.Iterator.{item_count};
    ghost use Rattle.fts_text.specs.Places.{places_left, YieldsPlace};

    ghost next_gives = { YieldsPlace };

    ghost remaining = { item_count places_left };

    fn next(&mut self) -> Option<Token> {
        self.next_token()
    }
}

/// The number of bytes of the longest prefix whose characters are all alphanumeric, or none if `alphanumeric` is false.
fn front_len(text: &str, alphanumeric: bool) -> usize
    ensures len { result ≡ front_len alphanumeric (chars text.now) }
    ensures utf8 { IsUtf8 text.now }
{
    let mut len = 0;
    for c in text.chars() {
        if is_alphanumeric(c) != alphanumeric {
            break;
        }
        len += c.len_utf8();
    }
    len
}
