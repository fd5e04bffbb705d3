// Consequences of the definitions, as functions that do nothing.
ghost use Rattle.std.specs.Prelude.{◌≡◌, ℕ, [], ◌∷◌, Some, None, true, false};
ghost use Rattle.fts_pack.specs.bits.Bits.{number_of};
ghost use Rattle.fts_pack.specs.bits.Digits.{words_of};
ghost use Rattle.fts_pack.specs.column.Column.{offsets};

/// The contents of a column, by worked examples: a missing value is a zero with a clear presence bit; the widest values
/// take whole words.
pub fn columns_of_examples()
    ensures missing { words_of 64 2 (offsets 7 (Some 7 ∷ None ∷ Some 9 ∷ [])) ≡ 32 ∷ [] }
    ensures present { number_of (true ∷ false ∷ true ∷ []) ≡ 5 }
    ensures none { words_of 64 0 (offsets 0 (None ∷ None ∷ [])) ≡ [] }
    ensures widest { words_of 64 64 (0 ∷ 18446744073709551615 ∷ []) ≡ 0 ∷ 18446744073709551615 ∷ [] }
{}
