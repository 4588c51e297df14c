//! What loads and stores make of cells.
ghost use Rattle.std.specs.Prelude.{◌≡◌, ℕ, ◌+◌, ◌-◌, ◌*◌, ◌<◌, ◌≤◌, ◌^◌, IfOk, OnOk};
ghost use Rattle.cell_laws.specs.Elements.{width, AllFine};
ghost use Rattle.cell_laws.specs.Access.{repeated, glued, IsSize};
ghost use Rattle.cell_runs.specs.Runs.{element_of, elements, AllSome, Extends};
ghost use Rattle.offmap.specs.Maps.{piece_of, glued_on};

use cell_runs::Mem;
use cell_runs::cells::Cells;
use cell_runs::runs::{Run, push};
use std::alloc::Global;

/// Adds `count` times `size` bits that hold the cell.
pub(crate) fn push_filled<C: Cells>(
    alloc: Global,
    size: u64,
    count: u64,
    cell: &C,
    out: &mut Vec<Run<C>>,
) -> Mem<()>
    requires size { IsSize size }
    requires some { 0 < count }
    requires small { size * count < 2 ^ 64 }
    ensures { OnOk result (Extends out.old.items out.new.items
        (repeated C.ops size count cell.now)) }
{
    let cell = cell.fit(alloc, size)?;
    if cell.is_blank() {
        let count = size * count;
        return push(
            out,
            Run {
                bits: 1,
                count,
                cell,
            },
        );
    }
    push(
        out,
        Run {
            bits: size,
            count,
            cell,
        },
    )
}

/// Some bits, and the one cell of all of them.
#[derive(Drop)]
pub(crate) struct Piece<C> {
    bits: u64,
    cell: C,
}

/// The piece with `count` elements of the run in front.
fn glue_run<C: Cells>(alloc: Global, run: &Run<C>, count: u64, piece: Piece<C>) -> Mem<Piece<C>>
    requires small { count * run.now.bits + piece.bits ≤ 64 }
    ensures { IfOk result (λ p. piece_of p
        ≡ glued_on C.ops count (element_of run.now) (piece_of piece)) }
{
    let mut piece = piece;
    let mut left = count;
    while left > 0 {
        let cell = run.cell.glue(alloc, run.bits, &piece.cell, piece.bits)?;
        piece = Piece {
            bits: run.bits + piece.bits,
            cell,
        };
        left -= 1;
    }
    Ok(piece)
}

/// One cell of the bits of all runs.
pub(crate) fn glue_runs<C: Cells>(alloc: Global, runs: &[Run<C>]) -> Mem<C>
    requires some { AllSome runs.now }
    requires small { width (elements runs.now) ≤ 64 }
    ensures { IfOk result (λ c. c ≡ glued C.ops (elements runs.now)) }
{
    let mut i = runs.len();
    if i == 0 {
        return C::void(alloc);
    }
    i -= 1;
    let last = &runs[i];
    let cell = last.cell.copy(alloc)?;
    let bits = last.bits;
    let mut piece = glue_run(alloc, last, last.count - 1, Piece { bits, cell })?;
    while i > 0 {
        i -= 1;
        let run = &runs[i];
        piece = glue_run(alloc, run, run.count, piece)?;
    }
    Ok(piece.cell)
}
