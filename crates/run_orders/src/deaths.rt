//! What is left of runs when an object has died.
ghost use Rattle.std.specs.Prelude.{◌≡◌, ℕ, ◌*◌, ◌<◌, ◌^◌, IfOk, OnOk, replicate};
ghost use Rattle.cell_laws.specs.Elements.{AllFine, width};
ghost use Rattle.cell_runs.specs.Runs.{element_of, elements, AllSome, Extends};
ghost use Rattle.run_orders.specs.Deaths.{left_all, LeftLaws};

use cell_runs::Mem;
use cell_runs::cells::Cells;
use cell_runs::runs::{Run, push};
use std::alloc::Global;

/// The death of objects: what is left of a cell whose bits may have been made from their addresses.
pub trait Death<C: Cells> {
    ghost left: { Self → C → C };

    fn leave(&self, alloc: Global, cell: &C) -> Mem<C>
        ensures { IfOk result (λ c. c ≡ left self.now cell.now) };

    ghost laws: { (d : Self) → LeftLaws C.ops C.fine (left d) };
}

/// Adds what is left of the run.
fn leave_run<C: Cells, D: Death<C>>(
    alloc: Global,
    death: &D,
    run: &Run<C>,
    out: &mut Vec<Run<C>>,
) -> Mem<()>
    requires bits { 0 < run.now.bits }
    requires count { 0 < run.now.count }
    requires small { run.now.bits * run.now.count < 2 ^ 64 }
    ensures { OnOk result (Extends out.old.items out.new.items
        (left_all C.ops (D.left death.now) (replicate run.now.count (element_of run.now)))) }
{
    let cell = death.leave(alloc, &run.cell)?;
    if cell.is_blank() {
        let count = run.bits * run.count;
        return push(
            out,
            Run {
                bits: 1,
                count,
                cell,
            },
        );
    }
    push(
        out,
        Run {
            bits: run.bits,
            count: run.count,
            cell,
        },
    )
}

/// Adds what is left of the runs.
pub fn leave_all<C: Cells, D: Death<C>>(
    alloc: Global,
    death: &D,
    runs: &[Run<C>],
    out: &mut Vec<Run<C>>,
) -> Mem<()>
    requires some { AllSome runs.now }
    requires small { width (elements runs.now) < 2 ^ 64 }
    ensures { OnOk result (Extends out.old.items out.new.items
        (left_all C.ops (D.left death.now) (elements runs.now))) }
{
    let mut i = 0;
    while i < runs.len() {
        let run = &runs[i];
        leave_run(alloc, death, run, out)?;
        i += 1;
    }
    Ok(())
}
