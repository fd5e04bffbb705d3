// Holds one job back until the others have passed.
use fts_pool::Gate;
use std::sync::atomic::{AtomicU64, Ordering};
use std::thread::yield_now;

/// How often a held job looks whether the others have passed, before it goes on anyway.
const TURNS: u64 = 1_000_000_000;

/// Holds one of up to three jobs back until the others have passed, and counts its calls.
#[derive(Drop)]
pub struct Holder {
    jobs: usize,
    held: usize,
    before: [AtomicU64; 3],
    after: [AtomicU64; 3],
    released: AtomicU64,
}

fn zeros() -> [AtomicU64; 3] {
    [AtomicU64::new(0), AtomicU64::new(0), AtomicU64::new(0)]
}

fn count(counts: &[AtomicU64; 3], job: usize) {
    if let Some(count) = counts.get(job) {
        count.fetch_add(1, Ordering::SeqCst);
    }
}

impl Holder {
    /// A gate that holds this one of this many jobs.
    pub fn new(held: usize, jobs: usize) -> Holder {
        Holder {
            jobs,
            held,
            before: zeros(),
            after: zeros(),
            released: AtomicU64::new(0),
        }
    }

    /// How many jobs have passed.
    fn passed(&self) -> usize {
        self.after
            .iter()
            .filter(|count| count.load(Ordering::SeqCst) > 0)
            .count()
    }

    /// Whether the job went on because the others had passed, and each job began and ended once.
    pub fn was_held(&self) -> bool {
        for job in 0..3usize {
            let wanted = u64::from(job < self.jobs);
            let before = self.before[job].load(Ordering::SeqCst);
            if before != wanted || self.after[job].load(Ordering::SeqCst) != wanted {
                return false;
            }
        }
        self.released.load(Ordering::SeqCst) == 1
    }
}

impl Gate for Holder {
    fn before(&self, job: usize) {
        count(&self.before, job);
        if job != self.held {
            return;
        }
        for _ in 0..TURNS {
            if self.passed().saturating_add(1) == self.jobs {
                self.released.fetch_add(1, Ordering::SeqCst);
                return;
            }
            yield_now();
        }
    }

    fn after(&self, job: usize) {
        count(&self.after, job);
    }
}
