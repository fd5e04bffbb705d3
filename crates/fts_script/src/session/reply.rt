// What a script replies to a command.
ghost use Rattle.std.specs.Prelude.{◌≡◌, ◌≤◌, ◌++◌, codes, length};
ghost use Rattle.json.specs.Print.{quoted};
ghost use Rattle.fts_script.specs.session.Sessions.{name_text};

use fts_model::{Answer, Text};

/// The name of a reply's number.
#[derive(Clone, Copy)]
pub enum NumberName {
    /// The number of fields of a new index.
    Fields,
    /// The stamp of an operation.
    Stamp,
    /// The stamp of a commit.
    Commit,
    /// The stamp of the commit that a rollback leads back to.
    Rollback,
    /// The number of documents that a merge leaves.
    Merged,
}

impl NumberName {
    /// Its text, which needs no escapes.
    #[tactic(auto, unfolding(serde_json::proofs::OnLiterals::serde_json_on_literals))]
    pub fn text(self) -> &'static str
        ensures text { result.now ≡ name_text self }
        ensures short { length result.now ≤ 8 }
        ensures plain { quoted result.now ≡ codes "\"" ++ result.now ++ codes "\"" }
    {
        match self {
            NumberName::Fields => "fields",
            NumberName::Stamp => "stamp",
            NumberName::Commit => "commit",
            NumberName::Rollback => "rollback",
            NumberName::Merged => "merged",
        }
    }
}

/// What a script replies to a command that was done. It is known after the step, and printed then.
#[derive(Drop)]
pub enum Reply {
    /// The number that a step gave, which may have changed the index.
    Number(NumberName, u64),
    /// The answer to a search. If there are names, the documents of its hits show only the fields of these names.
    Answer(Answer, Option<Vec<Text>>),
}
