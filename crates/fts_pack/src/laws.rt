// Consequences of the definitions, as functions that do nothing.
ghost use Rattle.std.specs.Prelude.{◌≡◌, ℕ, [], ◌∷◌, length, take, map, slice_index};
ghost use Rattle.std.specs.List.{flat_map, range_with_len};
ghost use Rattle.fts_pack.specs.Documents.{blocks_of, gaps};
ghost use Rattle.fts_pack.specs.FourLanes.{words_in_lanes};

/// The blocks of documents, concatenated, are the documents.
pub fn blocks_join_to_the_documents(documents: &[u32])
    ensures { flat_map (λ block. block) (blocks_of documents.now) ≡ documents.now }
{}

/// The words of a block's numbers, by worked examples: 1, 2 and 3 in three lanes of two bits; zeros in no word; the
/// greatest number in whole words; of 0 to 127 word 0 has 0, 4, 8, 12 and the low bits of 16, and word 1 has 1, 5, 9,
/// 13 and those of 17; 128 times 7.
pub fn blocks_of_examples()
    ensures three { words_in_lanes 2 (1 ∷ 2 ∷ 3 ∷ []) ≡ 1 ∷ 2 ∷ 3 ∷ 0 ∷ 0 ∷ 0 ∷ 0 ∷ 0 ∷ [] }
    ensures zeros { words_in_lanes 0 (0 ∷ 0 ∷ 0 ∷ []) ≡ [] }
    ensures greatest { slice_index (words_in_lanes 32 (4294967295 ∷ [])) 0 ≡ 4294967295 }
    ensures whole { length (words_in_lanes 32 (4294967295 ∷ [])) ≡ 128 }
    ensures fourths { take 2 (words_in_lanes 7 (range_with_len 0 128)) ≡ 25297408 ∷ 295846529 ∷ [] }
    ensures sevens { words_in_lanes 3 (map (λ n. 7) (range_with_len 0 128))
        ≡ map (λ n. 4294967295) (range_with_len 0 12) }
{}

/// The gaps of documents, by worked examples: those of three documents, and those of 128 consecutive ones.
pub fn gaps_of_examples()
    ensures three { gaps 0 (5 ∷ 6 ∷ 133 ∷ []) ≡ 5 ∷ 0 ∷ 126 ∷ [] }
    ensures row { gaps 0 (range_with_len 0 128) ≡ map (λ n. 0) (range_with_len 0 128) }
{}
