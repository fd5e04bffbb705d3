// Decides whether a query nests too deep to be read.
ghost use Rattle.std.specs.Prelude.{◌≡◌};
ghost use Rattle.std.specs.Str.{chars};
ghost use Rattle.fts_query.specs.declared.depth.Quoting.TheVariants.{Outside};
ghost use Rattle.fts_query.specs.Outcomes.{is_too_deep};

use crate::input::split_first;

/// The state of a scan with respect to quotes.
#[derive(Clone, Copy, Debug, PartialEq, Eq)]
pub enum Quoting {
    /// Outside quotes.
    Outside,
    /// Inside quotes.
    Quoted,
    /// Inside quotes, after a `\`.
    Escaped,
}

/// The greatest depth of nested parentheses.
const DEEPEST: u32 = 32;

/// Whether the parentheses outside quotes nest over 32 deep. A `)` without a `(` closes nothing.
#[tactic(auto, unfolding(crate::specs::Outcomes::is_too_deep))]
pub(crate) fn is_too_deep(text: &str) -> bool
    ensures { result ≡ is_too_deep Outside 0 (chars text.now) }
{
    let mut quoting = Quoting::Outside;
    let mut depth = 0;
    let mut rest = text;
    while let Some((c, tail)) = split_first(rest) {
        rest = tail;
        match quoting {
            Quoting::Outside => {
                if c == '"' {
                    quoting = Quoting::Quoted;
                } else if c == '(' {
                    if depth >= DEEPEST {
                        return true;
                    }
                    depth += 1;
                } else if c == ')' {
                    depth = depth.saturating_sub(1);
                }
            }
            Quoting::Quoted => {
                if c == '"' {
                    quoting = Quoting::Outside;
                } else if c == '\\' {
                    quoting = Quoting::Escaped;
                }
            }
            Quoting::Escaped => quoting = Quoting::Quoted,
        }
    }
    false
}
