// The texts of a value of a text field.
ghost use Rattle.std.specs.Prelude.{◌≡◌, [], length, slice_index_or};
ghost use Rattle.fts_scan.specs.Scans.{strings};

use fts_model::{Text, Texts};

/// The texts of a value of a text field: its one text, or those of its list.
#[derive(Clone, Copy)]
pub(crate) enum Strings<'a> {
    One(&'a Text),
    Many(&'a Texts),
}

impl<'a> Strings<'a> {
    /// The number of texts.
    pub(crate) fn len(self) -> usize
        ensures { result ≡ length (strings self.entry) }
    {
        match self {
            Strings::One(_) => 1,
            Strings::Many(texts) => texts.len(),
        }
    }

    /// The text of this number, or an empty text if there is none.
    pub(crate) fn get(self, number: usize) -> &'a str
        ensures { result.now ≡ slice_index_or (strings self.entry) number [] }
    {
        match self {
            Strings::One(text) if number == 0 => text.as_str(),
            Strings::One(_) => "",
            Strings::Many(texts) => texts.get(number),
        }
    }
}
