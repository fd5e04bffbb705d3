// fts_pool: each job is run once, between the gate's two calls, and its result is in its place, whatever the
// workers do.
use fts_pool::{Gate, Job, Open, Pool, run_all};
use std::alloc::{AllocError, Global};
use std::process::Abort;
use std::sync::atomic::{AtomicU64, Ordering};
use std::sync::{Arc, Wait};
use std::thread::Threads;
use testing_gates::Holder;

/// A number to be squared, and how often that was done.
#[derive(Drop)]
struct Square {
    side: u32,
    runs: AtomicU64,
}

fn square_of(side: u32) -> Square {
    Square {
        side,
        runs: AtomicU64::new(0),
    }
}

impl Job for Square {
    ghost use Rattle.std.specs.Prelude.{◌≡◌, ◌*◌};

    type Out = u64;

    ghost gives = { λ job out. out ≡ job.side * job.side };

    fn cost(&self) -> u64 {
        u64::from(self.side)
    }

    fn run(&self) -> u64 {
        self.runs.fetch_add(1, Ordering::SeqCst);
        u64::from(self.side) * u64::from(self.side)
    }
}

/// Asserts that each job was run this many times.
fn each_ran(rt: &impl Abort, jobs: &[Square], times: u64) {
    for job in jobs {
        assert_eq!(rt; job.runs.load(Ordering::SeqCst), times);
    }
}

#[test]
fn a_held_job_waits_while_another_worker_runs_the_others(rt: HostRuntime) {
    for held in 0..3usize {
        let jobs = [square_of(3), square_of(4), square_of(5)];
        let gate = Holder::new(held, 3);
        let squares = run_all(&rt, rt.alloc(), &jobs, 2, &gate).expect(&rt, "squares");
        assert_eq!(rt; squares.as_slice(), [9, 16, 25].as_slice());
        assert!(rt; gate.was_held());
        each_ran(&rt, &jobs, 1);
    }
}

/// Jobs for the numbers below a thousand.
fn thousand_jobs(rt: &(impl AllocGlobal + Abort)) -> Vec<Square> {
    let mut jobs = Vec::new(rt.alloc());
    for side in 0..1000u32 {
        jobs.push(square_of(side)).expect(rt, "jobs");
    }
    jobs
}

/// Asserts that these are the squares of the numbers below a thousand.
fn are_thousand_squares(rt: &impl Abort, squares: &[u64]) {
    assert_eq!(rt; squares.len(), 1000);
    let mut side = 0u64;
    for square in squares {
        assert_eq!(rt; *square, side.wrapping_mul(side));
        side = side.wrapping_add(1);
    }
}

#[test]
fn a_thousand_jobs(rt: HostRuntime) {
    for workers in [1, 2, 5, 64usize] {
        let jobs = thousand_jobs(&rt);
        let squares = run_all(&rt, rt.alloc(), &jobs, workers, &Open).expect(&rt, "squares");
        are_thousand_squares(&rt, &squares);
        each_ran(&rt, &jobs, 1);
    }
}

/// Looks how many jobs have ended when the one of this number begins.
#[derive(Drop)]
struct Last {
    number: usize,
    ended: AtomicU64,
    before: AtomicU64,
}

impl Gate for Last {
    fn before(&self, job: usize) {
        if job == self.number {
            let ended = self.ended.load(Ordering::SeqCst);
            self.before.store(ended, Ordering::SeqCst);
        }
    }

    fn after(&self, _job: usize) {
        self.ended.fetch_add(1, Ordering::SeqCst);
    }
}

/// Four jobs, of which the one of this number is the cheapest.
fn four_jobs(cheapest: usize) -> [Square; 4] {
    match cheapest {
        0 => [square_of(7), square_of(8), square_of(8), square_of(9)],
        1 => [square_of(9), square_of(7), square_of(8), square_of(9)],
        2 => [square_of(9), square_of(8), square_of(7), square_of(9)],
        _ => [square_of(9), square_of(8), square_of(8), square_of(7)],
    }
}

#[test]
fn the_cheapest_job_is_begun_last(rt: HostRuntime) {
    for number in 0..4usize {
        let jobs = four_jobs(number);
        let gate = Last {
            number,
            ended: AtomicU64::new(0),
            before: AtomicU64::new(0),
        };
        run_all(&rt, rt.alloc(), &jobs, 2, &gate).expect(&rt, "squares");
        // Two workers took the three others before, and one of them at most hasn't ended.
        assert!(rt; gate.before.load(Ordering::SeqCst) >= 2);
        each_ran(&rt, &jobs, 1);
    }
}

#[test]
fn no_job(rt: HostRuntime) {
    let none: [Square; 0] = [];
    let nothing = run_all(&rt, rt.alloc(), &none, 3, &Open).expect(&rt, "nothing");
    assert!(rt; nothing.is_empty());
}

/// The squares of jobs. If a growth was refused, that was before a job ran, and a second try returns them all.
fn squares<R: AllocGlobal + Threads + Wait + Sync + Abort>(rt: &R, jobs: &[Square]) -> Vec<u64> {
    match run_all(rt, rt.alloc(), jobs, 3, &Open) {
        Ok(squares) => squares,
        Err(_) => {
            each_ran(rt, jobs, 0);
            run_all(rt, rt.alloc(), jobs, 3, &Open).expect(rt, "squares again")
        }
    }
}

#[test]
fn a_refusal_comes_before_the_first_job(rt: HostRuntime) {
    let jobs = [
        square_of(1),
        square_of(2),
        square_of(3),
        square_of(4),
        square_of(5),
    ];
    let squares = squares(&rt, &jobs);
    assert_eq!(rt; squares.as_slice(), [1, 4, 9, 16, 25].as_slice());
    each_ran(&rt, &jobs, 1);
}

#[test]
fn threads_that_stay(rt: HostRuntime) {
    let mut pool = Pool::new(rt.alloc()).expect(&rt, "a pool");
    for workers in [1, 2, 3, 64, 2, 1usize] {
        let jobs = thousand_jobs(&rt);
        let squares = pool.run_all(&rt, jobs, workers).expect(&rt, "squares");
        are_thousand_squares(&rt, &squares);
    }
    let none = pool
        .run_all(&rt, Vec::new(rt.alloc()), 3)
        .expect(&rt, "nothing");
    assert!(rt; none.is_empty());
    pool.close(&rt);
}

/// A number to be squared. It counts how many such jobs were run.
#[derive(Drop)]
struct Noted {
    side: u32,
    runs: Arc<AtomicU64>,
}

impl Job for Noted {
    ghost use Rattle.std.specs.Prelude.{◌≡◌, ◌*◌};

    type Out = u64;

    ghost gives = { λ job out. out ≡ job.side * job.side };

    fn cost(&self) -> u64 {
        u64::from(self.side)
    }

    fn run(&self) -> u64 {
        self.runs.fetch_add(1, Ordering::SeqCst);
        u64::from(self.side) * u64::from(self.side)
    }
}

/// Jobs for the numbers from 1 to 5.
fn noted_jobs(alloc: Global, runs: &Arc<AtomicU64>) -> Result<Vec<Noted>, AllocError> {
    let mut jobs = Vec::new(alloc);
    for side in 1..6u32 {
        jobs.push(Noted {
            side,
            runs: Arc::try_clone(runs)?,
        })?;
    }
    Ok(jobs)
}

/// The squares of the numbers from 1 to 5, by a pool. If a growth was refused, that was before a job ran, and a second
/// try returns them all.
fn squares_by<R: AllocGlobal + Threads + Wait + Copy + Send + Abort + 'static>(
    rt: &R,
    pool: &mut Pool<Noted>,
    runs: &Arc<AtomicU64>,
) -> Vec<u64> {
    let jobs = noted_jobs(rt.alloc(), runs).expect(rt, "jobs");
    let before = runs.load(Ordering::SeqCst);
    match pool.run_all(rt, jobs, 3) {
        Ok(squares) => squares,
        Err(_) => {
            assert_eq!(rt; runs.load(Ordering::SeqCst), before);
            let jobs = noted_jobs(rt.alloc(), runs).expect(rt, "jobs again");
            pool.run_all(rt, jobs, 3).expect(rt, "squares again")
        }
    }
}

#[test]
fn a_refusal_by_a_pool_comes_before_the_first_job(rt: HostRuntime) {
    let runs = Arc::new(rt.alloc(), AtomicU64::new(0)).expect(&rt, "a count");
    let mut pool = Pool::new(rt.alloc()).expect(&rt, "a pool");
    for calls in 1..4u64 {
        let squares = squares_by(&rt, &mut pool, &runs);
        assert_eq!(rt; squares.as_slice(), [1, 4, 9, 16, 25].as_slice());
        assert_eq!(rt; runs.load(Ordering::SeqCst), calls.wrapping_mul(5));
    }
    pool.close(&rt);
}
