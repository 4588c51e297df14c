//! Runs that allow one content alone.
ghost use Rattle.std.specs.Prelude.{◌≡◌, ℕ, Bool};
ghost use Rattle.cell_laws.specs.Elements.{AllFine};
ghost use Rattle.cell_runs.specs.Runs.{elements, AllSome};
ghost use Rattle.run_orders.specs.Singles.{all_single};

use cell_runs::cells::Cells;
use cell_runs::runs::Run;

/// A test of cells: whether an element of so many bits with the cell allows one content alone.
pub trait Singles<C: Cells> {
    ghost single: { Self → ℕ → C → Bool };

    fn is_single(&self, bits: u64, cell: &C) -> bool
        requires fine { C.fine bits cell.now }
        ensures { result ≡ single self.now bits cell.now };
}

/// Whether each element allows one content alone.
pub fn are_single<C: Cells, S: Singles<C>>(by: &S, runs: &[Run<C>]) -> bool
    requires some { AllSome runs.now }
    requires fine { AllFine C.fine (elements runs.now) }
    ensures { result ≡ all_single (S.single by.now) (elements runs.now) }
{
    let mut i = 0;
    while i < runs.len() {
        let run = &runs[i];
        if !by.is_single(run.bits, &run.cell) {
            return false;
        }
        i += 1;
    }
    true
}
