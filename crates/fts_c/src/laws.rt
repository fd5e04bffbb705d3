//! What follows from the definitions alone.
ghost use Rattle.std.specs.Prelude.{List, ℕ};
ghost use Rattle.fts_script.specs.session.Outputs.{SessionValue};
ghost use Rattle.fts_c.specs.Pairs.{ArePair, IsTransaction};

/// A transaction is the general case of a replacement: a deletion and an addition that are done as one, or not, are a
/// transaction of the two.
pub fn a_replacement_is_a_transaction()
    ensures { (s : SessionValue) → (delete : List ℕ) → (add : List ℕ) → ArePair delete add → IsTransaction s delete add }
{}
