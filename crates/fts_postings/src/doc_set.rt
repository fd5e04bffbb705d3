// What every cursor does: it comes before the first of the documents that remain.
ghost use Rattle.std.specs.Prelude.{◌≡◌, ℕ, List, drop, slice_get};
ghost use Rattle.std.specs.List.Sorted.{IsStrictlyIncreasing};
ghost use Rattle.fts_postings.specs.Remaining.{at_least};
ghost use Rattle.fts_postings.specs.Takes.{Takes};

/// A strictly rising list of documents, from its first on. No call takes memory or can fail.
pub trait DocSet {
    /// The documents still to come.
    ghost remaining: { Self → List ℕ };

    /// The first document that remains.
    fn doc(&self) -> Option<u32>
        ensures first { result ≡ slice_get (remaining self.now) 0 }
        ensures rises { IsStrictlyIncreasing (remaining self.now) };

    /// Passes the first document.
    fn advance(&mut self)
        ensures remaining { remaining self.new ≡ drop 1 (remaining self.old) };

    /// Passes the documents below the target, whatever the target is.
    fn seek(&mut self, target: u32)
        ensures remaining { remaining self.new ≡ at_least target (remaining self.old) };

    /// Takes some of the next documents, 1 to 128 if any remains: writes them to the front of `out`, and returns how
    /// many they are. What is after them may be anything.
    fn take(&mut self, out: &mut [u32; 128]) -> usize
        ensures taken { Takes (remaining self.old) (remaining self.new) out.new result }
    {
        for taken in 0..128 {
            match self.doc() {
                Some(doc) => out[taken] = doc,
                None => return taken,
            }
            self.advance();
        }
        128
    }
}
