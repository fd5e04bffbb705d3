// The rest of a text, with the white space, words and operators at its front.
ghost use Rattle.std.specs.Prelude.{◌≡◌, ◌≤◌, ◌∷◌, ◌++◌, [], length, MatchOption, IfOk, string_bytes, false};
ghost use Rattle.std.specs.Char.{encode_utf8};
ghost use Rattle.std.specs.Str.{chars};
ghost use Rattle.fts_model.specs.Schemas.{is_reserved};
ghost use Rattle.fts_query.specs.Grammar.{is_space, is_special, is_word_char};
ghost use Rattle.fts_query.specs.Reading.{word, quoted_of, skip_while, is_of};
ghost use Rattle.fts_query.specs.Steps.{Finds};

use crate::error::ParseError;
use std::alloc::Global;
use std::marker::Model;

/// The most bytes of a query.
pub(crate) const LONGEST: usize = 4096;

fn is_space(c: char) -> bool
    ensures { result ≡ is_space c }
{
    matches!(c, ' ' | '\t' | '\r' | '\n')
}

fn is_special(c: char) -> bool
    ensures { result ≡ is_special c }
{
    matches!(
        c,
        '(' | ')' | '"' | ':' | '[' | ']' | '{' | '}' | '<' | '>' | '^' | '~' | '*' | '\\'
    )
}

#[tactic(auto, unfolding(crate::specs::Grammar::is_word_char))]
pub(crate) fn is_word_char(c: char) -> bool
    ensures { result ≡ is_word_char c }
{
    !(is_space(c) || is_special(c))
}

/// Whether a word is `AND`, `OR` or `NOT`.
pub(crate) fn is_reserved(word: &str) -> bool
    ensures { result ≡ is_reserved word.now }
{
    word == "AND" || word == "OR" || word == "NOT"
}

/// The first character and the text after it.
pub(crate) fn split_first(text: &str) -> Option<(char, &str)>
    ensures chars { MatchOption result (chars text.now ≡ []) (λ x. chars text.now ≡ x.0 ∷ chars x.1.now) }
    ensures bytes { MatchOption result (length text.now ≡ 0) (λ x. text.now ≡ encode_utf8 x.0 ++ x.1.now) }
    ensures short { MatchOption result (length text.now ≡ 0) (λ x. length x.1.now ≤ length text.now) }
{
    let mut rest = text.chars();
    let first = rest.next()?;
    Some((first, rest.as_str()))
}

/// A class of characters.
#[derive(Clone, Copy, Debug, PartialEq, Eq)]
pub enum Class {
    /// White space.
    Space,
    /// A character of a word.
    Word,
}

/// Whether a character is of a class.
fn is_of(class: Class, c: char) -> bool
    ensures { result ≡ is_of class c }
{
    match class {
        Class::Space => is_space(c),
        Class::Word => is_word_char(c),
    }
}

/// The text after the longest prefix of characters of a class.
#[tactic(auto, using(crate::proofs::ReadingLemmas::skip_while_end, crate::proofs::ReadingLemmas::skip_while_more, crate::proofs::ReadingLemmas::skip_while_stop))]
fn skip_while(class: Class, text: &str) -> &str
    ensures chars { chars result.now ≡ skip_while (is_of class) (chars text.now) }
    ensures short { length result.now ≤ length text.now }
{
    let mut rest = text;
    while let Some((c, tail)) = split_first(rest) {
        if !is_of(class, c) {
            break;
        }
        rest = tail;
    }
    rest
}

/// The word at the front, which may be empty, and the text after it.
fn split_word(text: &str) -> (&str, &str)
    ensures word { result.0.now ≡ word (chars text.now) }
    ensures rest { chars result.1.now ≡ skip_while is_word_char (chars text.now) }
    ensures word_short { length result.0.now ≤ length text.now }
    ensures rest_short { length result.1.now ≤ length text.now }
{
    let rest = skip_while(Class::Word, text);
    text.split_at(text.len() - rest.len())
}

/// A quoted text with its escapes resolved, and the text after it; the opening quote was already read. It is refused at
/// the byte from which nothing closes it, or at a `\\` before a character other than `"` and `\\`.
#[tactic(auto, using(crate::proofs::ReadingLemmas::front_more), unfolding(crate::specs::Reading::unquoted, crate::specs::Reading::quoted_of))]
fn unquote(alloc: Global, text: &str) -> Result<(String, &str), ParseError>
    ensures unquoted { Finds (λ x. (string_bytes x.0, chars x.1.now)) result (quoted_of (chars text.now)) }
    ensures short { IfOk result (λ x. length (string_bytes x.0) ≤ length text.now) }
    ensures rest_short { IfOk result (λ x. length x.1.now ≤ length text.now) }
{
    let mut unquoted = String::new(alloc);
    let mut escaped = false;
    let mut rest = text;
    while let Some((c, tail)) = split_first(rest) {
        if escaped {
            if c != '"' && c != '\\' {
                return Err(ParseError::Syntax(rest.len()));
            }
            unquoted.push(c)?;
            escaped = false;
        } else if c == '"' {
            return Ok((unquoted, tail));
        } else if c == '\\' {
            escaped = true;
        } else {
            unquoted.push(c)?;
        }
        rest = tail;
    }
    Err(ParseError::Syntax(0))
}

/// The rest of a query. Contracts see its characters.
#[derive(Drop)]
pub(crate) struct Input<'a> {
    rest: &'a str,
}

impl<'a> Model for Input<'a> {
    ghost use Rattle.std.specs.Prelude.{List, ℕ, ◌≤◌, length};
    ghost use Rattle.std.specs.Str.{chars};

    ghost Value = { List ℕ };

    ghost view = { λ i. chars i.rest.now };

    ghost invariant = { λ i. length i.rest.now ≤ 4096 };
}

impl<'a> Input<'a> {
    ghost use Rattle.std.specs.Prelude.{◌≡◌, ◌≤◌, ◌∷◌, [], ℕ, List, length, option_map, MatchOption, IfOk};
    ghost use Rattle.std.specs.Prelude.{string_bytes};
    ghost use Rattle.std.specs.Str.{chars};
    ghost use Rattle.fts_query.specs.Grammar.{is_space, is_word_char};
    ghost use Rattle.fts_query.specs.Reading.{word, quoted_of, begins_space, closes, space_at, operator_at, skip_while};
    ghost use Rattle.fts_query.specs.Steps.{Finds};

    /// A whole text as input.
    pub(crate) fn new(text: &'a str) -> Input<'a>
        requires { length text.now ≤ 4096 }
        ensures { result ≡ chars text.entry.now }
    {
        Input { rest: text }
    }

    /// The number of bytes that are left.
    pub(crate) fn len(&self) -> usize {
        self.rest.len()
    }

    /// A copy of the input, to look ahead.
    pub(crate) fn fork(&self) -> Input<'a>
        ensures { result ≡ self.now }
    {
        Input { rest: self.rest }
    }

    /// The first character and the input after it.
    pub(crate) fn split_first(self) -> Option<(char, Input<'a>)>
        ensures { MatchOption result (self.entry ≡ []) (λ x. self.entry ≡ x.0 ∷ x.1) }
    {
        let (first, rest) = split_first(self.rest)?;
        Some((first, Input { rest }))
    }

    /// The first character.
    pub(crate) fn first(&self) -> Option<char>
        ensures { MatchOption result (self.now ≡ []) (λ c. (s : List ℕ) × (self.now ≡ c ∷ s)) }
    {
        let (first, _) = split_first(self.rest)?;
        Some(first)
    }

    /// The input after the white space at the front.
    pub(crate) fn after_space(self) -> Input<'a>
        ensures { result ≡ skip_while is_space self.entry }
    {
        Input {
            rest: skip_while(Class::Space, self.rest),
        }
    }

    /// The word at the front, which may be empty, and the input after it.
    pub(crate) fn split_word(self) -> (&'a str, Input<'a>)
        ensures word { result.0.now ≡ word self.entry }
        ensures short { length result.0.now ≤ 4096 }
        ensures rest { result.1 ≡ skip_while is_word_char self.entry }
    {
        let (word, rest) = split_word(self.rest);
        (word, Input { rest })
    }

    /// A quoted text with its escapes resolved, and the input after it; the opening quote was already read.
    pub(crate) fn unquote(self, alloc: Global) -> Result<(String, Input<'a>), ParseError>
        ensures unquoted { Finds (λ x. (string_bytes x.0, x.1)) result (quoted_of self.entry) }
        ensures short { IfOk result (λ x. length (string_bytes x.0) ≤ 4096) }
    {
        let (unquoted, rest) = unquote(alloc, self.rest)?;
        Ok((unquoted, Input { rest }))
    }

    /// Whether the input begins with white space.
    pub(crate) fn begins_space(&self) -> bool
        ensures { result ≡ begins_space self.now }
    {
        match self.first() {
            None => false,
            Some(c) => is_space(c),
        }
    }

    /// Whether a list ends here: at the end, or at a `)`.
    fn closes(&self) -> bool
        ensures { result ≡ closes self.now }
    {
        match self.first() {
            None => true,
            Some(c) => c == ')',
        }
    }

    /// The input after the white space at the front, if a list goes on after it.
    #[tactic(auto, unfolding(crate::specs::Reading::space_at))]
    pub(crate) fn after_gap(&self) -> Option<Input<'a>>
        ensures { option_map (λ x. x) result ≡ space_at self.now }
    {
        let rest = self.fork().after_space();
        if self.begins_space() && !rest.closes() {
            Some(rest)
        } else {
            None
        }
    }

    /// The input after the word `name` with white space on both sides, if that is at the front.
    #[tactic(auto, unfolding(crate::specs::Reading::operator_at))]
    pub(crate) fn after_operator(&self, name: &str) -> Option<Input<'a>>
        ensures { option_map (λ x. x) result ≡ operator_at name.now self.now }
    {
        let (word, rest) = self.fork().after_space().split_word();
        if self.begins_space() && word == name && rest.begins_space() {
            Some(rest.after_space())
        } else {
            None
        }
    }
}
