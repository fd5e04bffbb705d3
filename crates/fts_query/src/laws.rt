//! Laws that tie the definitions to each other: each contract is a law, and the body is empty.
ghost use Rattle.std.specs.Prelude.{◌≡◌, ℕ, List, Result};
ghost use Rattle.fts_model.specs.declared.schema.Field.{Field};
ghost use Rattle.fts_base.specs.declared.refusal.Refusal.{Refusal};
ghost use Rattle.fts_model.specs.QueryValues.{QueryValue};
ghost use Rattle.fts_query.specs.Outcomes.{Reads, without_byte};
ghost use Rattle.fts_query.specs.Answers.{answer};

/// A text is read as only one query or refusal, except for the byte of a syntax error.
pub fn a_text_reads_as_one_thing()
    ensures { (schema : List Field) (text : List ℕ) (x y : Result QueryValue Refusal) →
        Reads schema text x → Reads schema text y → without_byte x ≡ without_byte y }
{}

/// Every text is read as a query or a refusal, and `answer` is that outcome.
pub fn each_text_has_an_outcome()
    ensures outcome { (schema : List Field) (text : List ℕ) → (x : Result QueryValue Refusal) × Reads schema text x }
    ensures answer { (schema : List Field) (text : List ℕ) → Reads schema text (answer schema text) }
{}
