//! Inclusion of runs. The work is that of both lists' runs, whatever their counts.
ghost use Rattle.std.specs.Prelude.{◌≡◌, ℕ, ◌*◌, ◌<◌, ◌≤◌, length, take, replicate};
ghost use Rattle.cell_laws.specs.Elements.{Element, width};
ghost use Rattle.cell_laws.specs.Order.{is_under, included};
ghost use Rattle.cell_runs.specs.Runs.{element_of, elements};
ghost use Rattle.run_places.specs.Spots.{AreRuns, ahead, IsSpot};
ghost use Rattle.run_orders.specs.Inclusion.{OnAllowed};

use cell_runs::cells::Cells;
use cell_runs::runs::Run;
use run_places::chunks::chunk_at;
use run_places::places::is_in;
use run_places::spots::{Spot, skip_bits};

/// Whether `count` elements like those of the run allow what stands at the next places.
fn allow_few<C: Cells>(runs: &[Run<C>], spot: Spot, run: &Run<C>, count: u64) -> bool
    requires runs { AreRuns C.fine runs.now }
    requires spot { IsSpot runs.now spot }
    requires fine { C.fine run.now.bits run.now.cell }
    requires some { 0 < run.now.bits }
    requires few { run.now.bits ≤ 64 }
    requires enough { count * run.now.bits ≤ length (ahead runs.now spot) }
    ensures { result ≡ is_under C.ops (take (count * run.now.bits) (ahead runs.now spot))
        (replicate count (element_of run.now)) }
{
    let mut at = spot;
    let mut left = count;
    while left > 0 {
        if !is_in(&run.cell, run.bits, runs, at) {
            return false;
        }
        at = skip_bits(runs, at, run.bits);
        left -= 1;
    }
    true
}

/// Whether the elements of the run allow what stands at their places from the spot on: the spot behind these.
fn allow<C: Cells>(runs: &[Run<C>], spot: Spot, run: &Run<C>) -> Option<Spot>
    requires runs { AreRuns C.fine runs.now }
    requires spot { IsSpot runs.now spot }
    requires fine { C.fine run.now.bits run.now.cell }
    requires some { 0 < run.now.bits }
    requires few { run.now.bits ≤ 64 }
    requires enough { run.now.count * run.now.bits ≤ length (ahead runs.now spot) }
    ensures { OnAllowed C.ops runs.now (ahead runs.now spot)
        (replicate run.now.count (element_of run.now)) result }
{
    let mut at = spot;
    let mut left = run.count;
    while left > 0 {
        let next = chunk_at(runs, at, run.bits, left);
        if !allow_few(runs, at, run, next.size) {
            return None;
        }
        at = next.next;
        left -= next.size * next.repeats;
    }
    Some(at)
}

/// Whether the second runs include the first, which are as wide.
pub fn included<C: Cells>(first: &[Run<C>], second: &[Run<C>]) -> bool
    requires first { AreRuns C.fine first.now }
    requires second { AreRuns C.fine second.now }
    requires even { width (elements first.now) ≡ width (elements second.now) }
    ensures { result ≡ included C.ops (elements first.now) (elements second.now) }
{
    let mut spot = Spot { index: 0, skip: 0 };
    let mut i = 0;
    while i < second.len() {
        let run = &second[i];
        let Some(next) = allow(first, spot, run) else {
            return false;
        };
        spot = next;
        i += 1;
    }
    true
}
