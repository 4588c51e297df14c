//! Places in lists of runs, between elements.
ghost use Rattle.std.specs.Prelude.{◌≡◌, ℕ, ◌+◌, ◌<◌, ◌≤◌, drop, length};
ghost use Rattle.cell_runs.specs.Runs.{AllSome};
ghost use Rattle.run_joins.specs.Joining.{rest, IsCursor, HasLeft};

use cell_runs::runs::Run;

/// A place in a list of runs: a run, and how many of its elements stand before.
#[derive(Clone, Copy, Drop)]
pub struct Cursor {
    pub(crate) index: usize,
    pub(crate) used: u64,
}

/// Goes on by `n` elements of the cursor's run.
pub(crate) fn advance<C>(runs: &[Run<C>], at: &mut Cursor, n: u64)
    requires inside { at.old.index < length runs.now }
    requires fits { HasLeft (drop at.old.index runs.now) (at.old.used + n) }
    requires some { AllSome runs.now }
    ensures rest { rest runs.now at.new ≡ drop n (rest runs.now at.old) }
    ensures cursor { IsCursor runs.now at.new }
{
    let run = &runs[at.index];
    if n == run.count - at.used {
        at.index += 1;
        at.used = 0;
    } else {
        at.used += n;
    }
}
