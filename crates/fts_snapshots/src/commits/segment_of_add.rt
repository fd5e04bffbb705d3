// Decides which new segment each add of a batch goes to, and so how many there are.
ghost use Rattle.std.specs.Prelude.{◌≡◌, length, not};
ghost use Rattle.fts_model.specs.Operations.{added};
ghost use Rattle.fts_snapshots.specs.Commits.{deletes, new_segments};
ghost use Rattle.fts_snapshots.specs.Cuts.{IsCut, builders, capacity, place_of};

use fts_model::{Cut, MOST_BUILT, Op, Stamped};

/// The number of builders that take the adds in turn.
fn builders(cut: Cut) -> usize
    ensures { result ≡ builders cut }
{
    match cut {
        Cut::Runs(_) => 1,
        Cut::Deal(builders) => builders,
    }
}

/// The number of adds that fill a segment.
fn capacity(cut: Cut) -> usize
    ensures { result ≡ capacity cut }
{
    match cut {
        Cut::Runs(capacity) => capacity,
        Cut::Deal(_) => MOST_BUILT,
    }
}

/// The number of the segment that the j-th add goes to, both from 0.
pub(crate) fn segment_of_add(cut: Cut, j: usize) -> usize
    requires { IsCut cut }
    ensures { result ≡ place_of cut j }
{
    let builders = builders(cut);
    j / (builders * capacity(cut)) * builders + j % builders
}

/// Whether an operation is an add.
fn is_add(op: &Op) -> bool
    ensures { result ≡ not (deletes op.now) }
{
    matches!(op, Op::Add(_))
}

/// The number of adds among operations.
fn adds_in(ops: &[Stamped<Op>]) -> usize
    ensures { result ≡ length (added ops.now) }
{
    let mut adds = 0;
    for op in ops {
        if is_add(&op.value) {
            adds += 1;
        }
    }
    adds
}

/// The number of new segments that operations make. It takes no memory.
pub(crate) fn new_segments(cut: Cut, ops: &[Stamped<Op>]) -> usize
    requires { IsCut cut }
    ensures { result ≡ new_segments cut ops.now }
{
    let mut segments = 0;
    for j in 0..adds_in(ops) {
        if segment_of_add(cut, j) >= segments {
            segments += 1;
        }
    }
    segments
}
