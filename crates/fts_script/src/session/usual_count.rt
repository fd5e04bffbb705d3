// A search for a count alone, which is read without a tree of JSON if its line has the usual form.
ghost use Rattle.std.specs.Prelude.{◌≡◌, ◌≤◌, Ok, IfSome, length};
ghost use Rattle.std.specs.List.{list_all};
ghost use Rattle.json.specs.Run.{is_plain};
ghost use Rattle.fts_script.specs.command.Commands.{longest, command, Find};
ghost use Rattle.fts_script.specs.command.CommandViews.{search_value};

use crate::command::Search;

/// What is before the query, and what is after it.
const BEFORE: &[u8] = b"{\"search\":{\"query\":\"";

const AFTER: &[u8] = b"\"}}";

/// Whether a byte stands for itself in a string of JSON.
fn is_plain(byte: u8) -> bool
    ensures { result ≡ is_plain byte }
{
    byte >= b' ' && byte != b'"' && byte != b'\\'
}

/// Whether each byte of a text stands for itself in a string of JSON.
fn are_plain(text: &[u8]) -> bool
    ensures { result ≡ list_all is_plain text.now }
{
    text.iter().all(|byte| is_plain(*byte))
}

/// The search of a line that is `{"search":{"query":"QUERY"}}`, byte for byte, if nothing in QUERY is escaped.
pub(crate) fn usual_count(line: &[u8]) -> Option<Search<'_>>
    requires fits_line { length line.now ≤ longest }
    ensures { IfSome result (λ search. command line.entry.now ≡ Ok (Find (search_value search))) }
{
    let query = line.strip_prefix(BEFORE)?.strip_suffix(AFTER)?;
    if !are_plain(query) {
        return None;
    }
    match str::from_utf8(query) {
        Ok(query) => Some(Search {
            query,
            groups: None,
            top: None,
        }),
        Err(_) => None,
    }
}
