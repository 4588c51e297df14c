//! Parts of a run that come again and again.
ghost use Rattle.std.specs.Prelude.{◌≡◌, ℕ, ◌+◌, ◌<◌, ◌≤◌, ◌^◌};
ghost use Rattle.cell_laws.specs.Elements.{width};
ghost use Rattle.cell_runs.specs.Runs.{elements};
ghost use Rattle.run_places.specs.Chunks.{IsPeriod};
ghost use Rattle.run_places.specs.Spots.{AreRuns};
ghost use Rattle.run_slots.specs.Walks.{IsAt, bits_before};
ghost use Rattle.run_slots.specs.Weakens.{ComeAgain};
ghost use Rattle.run_slots.specs.Repeats.{turn as turn_of, stretch_in as in_rest, stretch_from};

use cell_runs::cells::Cells;
use cell_runs::runs::Run;
use run_places::spots::Spot;

/// Parts that come again: `repeats` times `size` of them.
#[derive(Clone, Copy, Drop)]
pub(crate) struct Stretch {
    pub(crate) size: u64,
    pub(crate) repeats: u64,
}

/// How many parts, each `wide` bits behind the one before, stand in elements of so many bits until one begins as the first did.
fn turn(bits: u64, wide: u64) -> u64
    requires { 0 < bits }
    ensures value { result ≡ turn_of bits wide }
    ensures period { IsPeriod bits wide result }
{
    if wide % bits == 0 {
        return 1;
    }
    bits
}

/// The parts in the last `rest` bits of a run with elements of so many bits.
fn stretch_in(bits: u64, rest: u64, wide: u64, reach: u64, left: u64) -> Stretch
    requires some { 0 < bits }
    requires few { bits ≤ 64 }
    requires wide { 0 < wide }
    requires far { wide ≤ reach }
    ensures { result ≡ in_rest bits rest wide reach left }
{
    let over = reach - wide;
    if rest < over {
        return Stretch {
            size: 1,
            repeats: 1,
        };
    }
    if rest / 64 < wide {
        return Stretch {
            size: 1,
            repeats: 1,
        };
    }
    let size = turn(bits, wide);
    let repeats = (left / size).min((rest - over) / (size * wide));
    if repeats == 0 {
        return Stretch {
            size: 1,
            repeats: 1,
        };
    }
    Stretch { size, repeats }
}

/// The parts of `reach` bits from a spot on, each `wide` bits behind the one before, at most `left`: as many as the spot's run has again and again,
/// or one.
pub(crate) fn stretch_at<C: Cells>(
    runs: &[Run<C>],
    spot: Spot,
    wide: u64,
    reach: u64,
    left: u64,
) -> Stretch
    requires runs { AreRuns C.fine runs.now }
    requires spot { IsAt runs.now (bits_before runs.now spot) spot }
    requires some { 0 < wide }
    requires far { wide ≤ reach }
    requires left { 0 < left }
    requires inside { bits_before runs.now spot < width (elements runs.now) }
    ensures value { result ≡ stretch_from runs.now (bits_before runs.now spot) wide reach left }
    ensures again { ComeAgain C.ops (elements runs.now) (bits_before runs.now spot) wide reach left result.size result.repeats }
{
    let run = &runs[spot.index];
    let rest = run.bits * run.count - spot.skip;
    stretch_in(run.bits, rest, wide, reach, left)
}
