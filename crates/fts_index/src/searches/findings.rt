// What a query is thought to find in a segment, and what that takes: an estimate, of which no contract speaks.

/// How many picoseconds it takes to take a document along that is tested for another query. Up to 128 go together.
const STEP: u64 = 2_000;

/// How many picoseconds it takes to mark a document in the window of a union.
const MARK: u64 = 5_000;

/// What a query finds. A number past the greatest `u64` stays at it.
#[derive(Clone, Copy)]
pub(crate) struct Findings {
    /// How many documents match.
    pub(crate) hits: u64,
    /// How many picoseconds one thread takes to find them all.
    pub(crate) work: u64,
    /// How many picoseconds it takes to test whether a document is one of them.
    pub(crate) test: u64,
    /// How many picoseconds their bits take beside others, if they have bits.
    pub(crate) bits: Option<u64>,
}

/// The sum, if both are there.
fn both(a: Option<u64>, b: Option<u64>) -> Option<u64> {
    Some(a?.saturating_add(b?))
}

impl Findings {
    /// These beside others, of which as many match.
    fn beside(self, other: Findings, hits: u64, work: u64) -> Findings {
        let bits = both(self.bits, other.bits);
        Findings {
            hits,
            work: bits.unwrap_or(work),
            test: self.test.saturating_add(other.test),
            bits,
        }
    }

    /// These as a part of a union, which takes their bits or marks each.
    pub(crate) fn marked(self) -> Findings {
        let marks = self.hits.saturating_mul(MARK);
        let work = self.bits.unwrap_or(self.work.saturating_add(marks));
        Findings { work, ..self }
    }

    /// Those of two parts of a union together.
    pub(crate) fn or(self, other: Findings) -> Findings {
        let hits = self.hits.saturating_add(other.hits);
        self.beside(other, hits, self.work.saturating_add(other.work))
    }

    /// These, each of which is tested for another query; at worst all that it finds is found.
    pub(crate) fn tested_for(self, other: Findings) -> Findings {
        let steps = self.hits.saturating_mul(STEP);
        let tests = self.hits.saturating_mul(other.test).min(other.work);
        let work = self.work.saturating_add(steps).saturating_add(tests);
        self.beside(other, self.hits, work)
    }

    /// Those that two queries have in common. The one with fewer leads.
    pub(crate) fn and(self, other: Findings) -> Findings {
        if self.hits <= other.hits {
            self.tested_for(other)
        } else {
            other.tested_for(self)
        }
    }
}
