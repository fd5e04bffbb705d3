// The book that holds the list of publications. It exists in proofs alone, except for one word, the number of
// publications after the opening, which only the publisher has.
ghost use Rattle.std.specs.Prelude.{◌≡◌};

use crate::publications::publication::Publication;
use fts_model::Schema;
use fts_snapshots::CommitPoint;
use logbook::{Gain, Opening, Plain, Play, Rule, Seen, Word};

/// The rule of the book: its one word is the number of publications after the opening.
pub struct PublicationRule;

impl Rule<Publication, u64> for PublicationRule {
    ghost use Rattle.std.specs.Prelude.{[], ◌∷◌};
    ghost use base.Fml.{ftrue};
    ghost use Rattle.fts_index.specs.Publications.{opening};
    ghost use Rattle.fts_index.specs.PublicationsHistory.{IsKept};

    ghost holds = { λ cells list. IsKept cells list };

    // No book is opened without a schema.
    ghost first = { opening [] ∷ [] };

    ghost hinted = { λ n list. Unit {0} };

    ghost shows = { λ list. [] };

    ghost keeps = { λ names list. ftrue };

    ghost moves = { λ ask before after answer. Unit {0} };
}

/// A book begins with the opening of a schema.
pub struct Opened;

impl Opening<Schema, Publication> for Opened {
    ghost use Rattle.std.specs.Prelude.{[], ◌∷◌};
    ghost use Rattle.fts_index.specs.Publications.{opening};

    ghost log = { λ count schema. opening schema ∷ [] };
}

/// The publisher gains nothing by a step but the publication that it adds.
pub struct NoTrade;

impl Gain<Publication, u64> for NoTrade {
    ghost use base.Fml.{ftrue};

    ghost after = { λ names about answer. ftrue };
}

/// The step that adds a publication.
pub struct Append;

impl Play<Publication, u64> for Append {
    ghost use Rattle.fts_index.specs.PublicationsHistory.{Appends};

    ghost then = { Appends };
}

impl Plain<CommitPoint, Publication, u64> for Append {
    ghost use Rattle.std.specs.Prelude.{None};
    ghost use Rattle.fts_index.specs.Publications.{publication};

    ghost ask = { λ commit. publication commit.stamp commit.snapshot };

    ghost state = { λ commit. None };
}

/// The book's one word: the number of publications after the opening.
pub type PublicationCount = Word<Publication, u64, PublicationRule>;

/// The publications known so far, a beginning of the list. It has no bytes.
pub type SeenPublications = Seen<Publication, u64, PublicationRule>;
