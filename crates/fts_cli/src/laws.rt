// What follows from the definitions alone.
ghost use Rattle.std.specs.Prelude.{◌≡◌, ℕ, List, [], ◌∷◌, Some, codes};
ghost use Rattle.clap.specs.declared.error.kind.ErrorKind.TheVariants.{DisplayHelp, DisplayVersion};
ghost use Rattle.clap.specs.declared.error.kind.ErrorKind.TheVariants.{InvalidValue, MissingSubcommand};
ghost use Rattle.clap.specs.declared.error.kind.ErrorKind.TheVariants.{ValueValidation};
ghost use Rattle.fts_cli.specs.Arguments.{faults_of};
ghost use Rattle.fts_cli.specs.RunOptions.{Places, given_to_run, number_given};

/// After the program's name, `run` alone asks for a run, `--help` for help, `--version` for the version, and no word
/// for nothing. A number of workers is read, and refused if it is over 64; so is a value of `--merge` that there isn't.
pub fn command_line()
    ensures run { (places : Places) (name : List ℕ) →
        faults_of places (name ∷ codes "run" ∷ []) ≡ [] }
    ensures help { (places : Places) (name : List ℕ) → faults_of places (name ∷ codes "--help" ∷ [])
        ≡ DisplayHelp ∷ [] }
    ensures version { (places : Places) (name : List ℕ) →
        faults_of places (name ∷ codes "--version" ∷ []) ≡ DisplayVersion ∷ [] }
    ensures nothing { (places : Places) (name : List ℕ) → faults_of places (name ∷ [])
        ≡ MissingSubcommand ∷ [] }
    ensures workers { (places : Places) (name : List ℕ) → number_given (codes "workers")
        (given_to_run places (name ∷ codes "run" ∷ codes "--workers" ∷ codes "64" ∷ []))
        ≡ Some 64 }
    ensures beyond { (places : Places) (name : List ℕ) → faults_of places
        (name ∷ codes "run" ∷ codes "--workers" ∷ codes "65" ∷ []) ≡ ValueValidation ∷ [] }
    ensures merge { (places : Places) (name : List ℕ) → faults_of places
        (name ∷ codes "run" ∷ codes "--merge" ∷ codes "sometimes" ∷ []) ≡ InvalidValue ∷ [] }
{}
