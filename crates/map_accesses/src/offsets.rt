//! The numbers of sets as offsets of maps.
ghost use Rattle.std.specs.Prelude.{◌≡◌, ℕ, ◌+◌, ◌*◌, ◌<◌, ◌≤◌, ◌^◌, IfOk, map, unsigned_abs};
ghost use Rattle.std.specs.List.{AllByRecursion};
ghost use Rattle.ival_core.specs.Sets.{IsLongRun};
ghost use Rattle.map_accesses.specs.Accesses.{bit_at as bit_of, more_in};

use cell_runs::Mem;
use ival_core::Progression;
use run_slots::Steps;
use std::alloc::Global;

/// The bit that stands so many units behind the first.
pub fn bit_at(number: i128, unit: u64) -> u64
    requires number { unsigned_abs number < 2 ^ 64 }
    requires bit { bit_of unit number < 2 ^ 64 }
    ensures { result ≡ bit_of unit number }
{
    unit * number.unsigned_abs() as u64
}

/// The bits at the numbers of a list.
pub(crate) fn offsets_of(alloc: Global, numbers: &[i128], unit: u64) -> Mem<Vec<u64>>
    requires { AllByRecursion (λ z. (unsigned_abs z < 2 ^ 64) × (bit_of unit z < 2 ^ 64)) numbers.now }
    ensures { IfOk result (λ offsets. offsets.items ≡ map (bit_of unit) numbers.now) }
{
    let mut offsets = Vec::new(alloc);
    for number in numbers {
        offsets.push(bit_at(*number, unit))?;
    }
    Ok(offsets)
}

/// The bits at the numbers of a run.
pub(crate) fn steps_of(run: Progression, unit: u64) -> Steps
    requires long { IsLongRun run }
    requires low { unsigned_abs run.low < 2 ^ 64 }
    requires first { bit_of unit run.low < 2 ^ 64 }
    requires stride { run.stride < 2 ^ 64 }
    requires step { unit * run.stride < 2 ^ 64 }
    requires more { more_in run < 2 ^ 64 }
    ensures first { result.first ≡ bit_of unit run.low }
    ensures step { result.step ≡ unit * run.stride }
    ensures more { result.more ≡ more_in run }
{
    Steps {
        first: bit_at(run.low, unit),
        step: unit * run.stride as u64,
        more: (run.high.abs_diff(run.low) / run.stride) as u64,
    }
}
