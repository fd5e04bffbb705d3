//! What follows from the definitions alone.
ghost use Rattle.std.specs.Prelude.{◌≡◌, ℕ, List, OnOk, OnErr};
ghost use Rattle.fts_engine.specs.Indexes.{indexes};
ghost use Rattle.fts_script.specs.session.Outputs.{SessionValue, output, output_by_commands};
ghost use Rattle.fts_script.specs.session.Replaces.{AreDone, after_replace, replace};

/// What is written depends on the accepted commands alone: a stamp is the place of a command among them, and a search
/// sees the documents that are alive after the operations before the last commit.
pub fn output_is_that_of_commands()
    ensures { (input : List ℕ) → output input ≡ output_by_commands input }
{}

/// A deletion and an addition that are done as one are done as two lines, one after the other; otherwise nothing is
/// done.
pub fn a_replacement_is_two_lines()
    ensures done { (s : SessionValue) → (delete : List ℕ) → (add : List ℕ) →
        OnOk (replace indexes s.index delete add) (AreDone s delete add) }
    ensures none { (s : SessionValue) → (delete : List ℕ) → (add : List ℕ) →
        OnErr (replace indexes s.index delete add) (after_replace s delete add ≡ s) }
{}
