//! Steps of many bits along runs.
ghost use Rattle.std.specs.Prelude.{◌≡◌, ℕ, ◌+◌, ◌<◌, ◌≤◌, ◌^◌};
ghost use Rattle.cell_laws.specs.Elements.{width};
ghost use Rattle.cell_runs.specs.Runs.{elements, AllSome};
ghost use Rattle.run_slots.specs.Walks.{IsAt, bits_before};

use cell_runs::cells::Cells;
use cell_runs::runs::Run;
use run_places::spots::Spot;

/// The spot n bits behind another.
pub fn walk<C: Cells>(runs: &[Run<C>], spot: Spot, n: u64) -> Spot
    requires some { AllSome runs.now }
    requires small { width (elements runs.now) < 2 ^ 64 }
    requires spot { IsAt runs.now (bits_before runs.now spot) spot }
    requires enough { bits_before runs.now spot + n ≤ width (elements runs.now) }
    ensures { IsAt runs.now (bits_before runs.now spot + n) result }
{
    let mut index = spot.index;
    let mut left = spot.skip + n;
    while index < runs.len() {
        let run = &runs[index];
        let bits = run.bits * run.count;
        if left < bits {
            return Spot { index, skip: left };
        }
        left -= bits;
        index += 1;
    }
    Spot { index, skip: left }
}
