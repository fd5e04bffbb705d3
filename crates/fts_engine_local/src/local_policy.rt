// When the segments of an engine of one thread are merged.
ghost use Rattle.std.specs.Prelude.{◌≡◌, ◌≤◌, IfSome};
ghost use Rattle.fts_engine.specs.DefaultOptions.{if_policy};
ghost use Rattle.fts_model.specs.Limits.{most_merged};
ghost use Rattle.fts_engine_local.specs.LocalPolicies.{local_policy};

use fts_engine::Merge;
use fts_snapshots::MergePolicy;

/// When the segments of an engine of one thread are merged.
///
/// A commit waits for the merges after it, so these are graded finely: the floor is near the size of small commits,
/// since each merge of a level copies all that is below it. Seven members are few enough to leave few segments to
/// search, and no segment has over a third of its documents dead for long, so that updates of the same documents over
/// and over leave about 120 documents for 100 live ones. By a model (`bench/updates.py policies`) commits of ten
/// updates of 100,000 documents move 52 documents each and leave 17 segments, while the levels of the stated policy
/// move 960 and leave 8.
///
/// Under a limit, this is what commits merge: no segment of more live documents, and none by itself. The rest waits for
/// a merge that is started beside commits, which follows the policy without a limit.
pub(crate) fn policy(limit: Option<u32>) -> MergePolicy
    ensures policy { result ≡ local_policy limit }
    ensures floor { result.floor ≤ most_merged }
    ensures most { result.most ≤ most_merged }
{
    match limit {
        Some(most) => MergePolicy {
            floor: 30,
            members: 7,
            most: most.min(1_000_000),
            dead: 100,
        },
        None => MergePolicy {
            floor: 30,
            members: 7,
            most: 1_000_000,
            dead: 33,
        },
    }
}

/// The policy by which a commit merges, if the option says that it does.
pub(crate) fn policy_after(merge: Merge, limit: Option<u32>) -> Option<MergePolicy>
    ensures policy { result ≡ if_policy merge (local_policy limit) }
    ensures floor { IfSome result (λ p. p.floor ≤ most_merged) }
    ensures most { IfSome result (λ p. p.most ≤ most_merged) }
{
    match merge {
        Merge::Off => None,
        Merge::Policy => Some(policy(limit)),
    }
}
