// How a run works; none of it changes what it writes.
ghost use Rattle.std.specs.Prelude.{◌≡◌, ◌≤◌, IsTrue, IsNone, IfSome};
ghost use Rattle.fts_engine.specs.Limits.{is_cut};

pub use fts_model::Cut;
use fts_model::MOST_BUILT;

/// How many nanoseconds of one thread's work make a further one worth waking.
const WORTH_A_THREAD: u64 = 100_000;

/// How many workers build segments, and when segments end and merge.
#[derive(Clone, Copy, Debug, Drop, PartialEq, Eq)]
pub struct Options {
    /// How many threads commit and search, 1 to 64.
    pub workers: usize,
    /// How the documents of a commit are cut into segments.
    pub cut: Cut,
    /// When segments are merged.
    pub merge: Merge,
    /// A search takes a thread for each time this many nanoseconds of its estimated work, and at least one. 0 counts as
    /// 1.
    pub worth_a_thread: u64,
    ghost a_worker: { 1 ≤ workers },
    ghost few_workers: { workers ≤ 64 },
    ghost cut_in_range: { IsTrue (is_cut cut) },
}

/// When segments are merged.
#[derive(Clone, Copy, Debug, Drop, PartialEq, Eq)]
pub enum Merge {
    /// Segments are never merged.
    Off,
    /// Segments are merged as the merge policy says.
    Policy,
}

impl Options {
    /// The options of these parts, if there are 1 to 64 workers, and a segment takes 1 to 65,536 documents in a row or
    /// 1 to 64 segments take documents in turn.
    pub fn new(workers: usize, cut: Cut, merge: Merge) -> Option<Options>
        ensures some { IfSome result (λ options.
            (options.workers ≡ workers) × (options.cut ≡ cut) × (options.merge ≡ merge)) }
        ensures worth { IfSome result (λ options. options.worth_a_thread ≡ 100000) }
        ensures none { IsNone result → IsTrue (is_cut cut) → 1 ≤ workers → workers ≤ 64 → ⊥ }
    {
        let cut_in_range = match cut {
            Cut::Runs(documents) => 1 <= documents && documents <= MOST_BUILT,
            Cut::Deal(segments) => 1 <= segments && segments <= 64,
        };
        if cut_in_range && 1 <= workers && workers <= 64 {
            Some(Options {
                workers,
                cut,
                merge,
                worth_a_thread: WORTH_A_THREAD,
            })
        } else {
            None
        }
    }
}

impl Default for Options {
    ghost use Rattle.fts_engine.specs.DefaultOptions.{AreDefault};

    ghost is_default = { AreDefault };

    /// The options that hold if none are given: one worker, segments of up to 65,536 documents, and no merges.
    fn default() -> Self {
        Options {
            workers: 1,
            cut: Cut::Runs(MOST_BUILT),
            merge: Merge::Off,
            worth_a_thread: WORTH_A_THREAD,
        }
    }
}
