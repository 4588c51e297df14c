//! Elements that see the same places again and again.
ghost use Rattle.std.specs.Prelude.{◌≡◌, ℕ, ◌*◌, ◌<◌, ◌≤◌, ◌^◌, length};
ghost use Rattle.run_places.specs.Spots.{AreRuns, ahead, IsSpot};
ghost use Rattle.run_places.specs.Chunks.{IsPeriod, IsChunk};

use crate::spots::{Spot, skip_bits, step_along};
use cell_runs::cells::Cells;
use cell_runs::runs::Run;

/// How many elements of so many bits are together a multiple of `whole` bits: the least number of them.
pub fn period(whole: u64, bits: u64) -> u64
    requires some { 0 < whole }
    requires small { whole * bits < 2 ^ 64 }
    ensures { IsPeriod whole bits result }
{
    let mut n = 1;
    while n < whole {
        if n * bits % whole == 0 {
            return n;
        }
        n += 1;
    }
    n
}

/// Elements behind a spot: `repeats` times `size` of them, which see the same places each time, and the spot behind all.
#[derive(Clone, Copy, Drop)]
pub struct Chunk {
    pub size: u64,
    pub repeats: u64,
    pub next: Spot,
}

/// The next elements of so many bits, at most `left`: as many as the run of the spot has places for, or one.
pub fn chunk_at<C: Cells>(runs: &[Run<C>], spot: Spot, bits: u64, left: u64) -> Chunk
    requires runs { AreRuns C.fine runs.now }
    requires spot { IsSpot runs.now spot }
    requires some { 0 < bits }
    requires few { bits ≤ 64 }
    requires left { 0 < left }
    requires enough { left * bits ≤ length (ahead runs.now spot) }
    ensures { IsChunk runs.now spot bits left result }
{
    let run = &runs[spot.index];
    let rest = run.bits * run.count - spot.skip;
    let size = period(run.bits, bits);
    let wide = size * bits;
    let repeats = (left / size).min(rest / wide);
    if repeats == 0 {
        let next = skip_bits(runs, spot, bits);
        return Chunk {
            size: 1,
            repeats: 1,
            next,
        };
    }
    let next = step_along(runs, spot, repeats * wide).next;
    Chunk {
        size,
        repeats,
        next,
    }
}
