//! Single bits of lists of runs.
ghost use Rattle.std.specs.Prelude.{◌≡◌, ℕ, ◌+◌, ◌-◌, ◌*◌, ◌<◌, ◌≤◌, drop, length};
ghost use Rattle.run_places.specs.Spots.{AreRuns, ahead, IsSpot, IsFront};

use cell_runs::cells::Cells;
use cell_runs::runs::Run;

/// A bit of a list of runs: the run, and how many of its bits stand before.
#[derive(Clone, Copy, Drop)]
pub struct Spot {
    pub index: usize,
    pub skip: u64,
}

/// A stretch of bits of one run, and the spot behind it.
#[derive(Clone, Copy, Drop)]
pub struct Front {
    pub count: u64,
    pub next: Spot,
}

/// The bits from the spot on that are of its run, at most so many.
pub fn step_along<C: Cells>(runs: &[Run<C>], spot: Spot, most: u64) -> Front
    requires runs { AreRuns C.fine runs.now }
    requires spot { IsSpot runs.now spot }
    requires inside { spot.index < length runs.now }
    ensures { IsFront runs.now spot most result }
{
    let run = &runs[spot.index];
    let bits = run.bits * run.count;
    let count = most.min(bits - spot.skip);
    let skip = spot.skip + count;
    if skip == bits {
        return Front {
            count,
            next: Spot {
                index: spot.index + 1,
                skip: 0,
            },
        };
    }
    Front {
        count,
        next: Spot {
            index: spot.index,
            skip,
        },
    }
}

/// The spot `bits` bits further on.
pub fn skip_bits<C: Cells>(runs: &[Run<C>], spot: Spot, bits: u64) -> Spot
    requires runs { AreRuns C.fine runs.now }
    requires spot { IsSpot runs.now spot }
    requires enough { bits ≤ length (ahead runs.now spot) }
    ensures ahead { ahead runs.now result ≡ drop bits (ahead runs.now spot) }
    ensures spot { IsSpot runs.now result }
{
    let mut at = spot;
    let mut left = bits;
    while left > 0 {
        let Front { count, next } = step_along(runs, at, left);
        left -= count;
        at = next;
    }
    at
}
