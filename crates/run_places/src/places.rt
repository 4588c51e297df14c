//! What elements allow of the places of another list of runs.
ghost use Rattle.std.specs.Prelude.{◌≡◌, ℕ, ◌+◌, ◌-◌, ◌*◌, ◌<◌, ◌≤◌, Bool, IfOk, OnOk, length, take, [], true, false};
ghost use Rattle.std.specs.List.{list_all};
ghost use Rattle.arrayvec.specs.ArrayVec.{array_vec_len};
ghost use Rattle.cell_laws.specs.Order.{known, is_in, is_start, is_admitted, is_bare, is_known};
ghost use Rattle.cell_laws.specs.Join.{shaded, with_others};
ghost use Rattle.run_places.specs.Spots.{AreRuns, ahead, IsSpot, IsFront, OnBits, OnWhole};

use crate::spots::{Front, Spot, step_along};
use arrayvec::ArrayVec;
use cell_runs::Mem;
use cell_runs::cells::Cells;
use cell_runs::runs::Run;
use std::alloc::Global;

/// A test of cells.
trait Test<C> {
    ghost passes: { Self → C → Bool };

    fn test(&self, cell: &C) -> bool
        ensures { result ≡ passes self.now cell.now };
}

/// Its bits, whatever they are, are allowed in an element of so many bits by the cell.
#[derive(Drop)]
struct Admitted<'a, C> {
    bits: u64,
    cell: &'a C,
}

impl<'a, C: Cells> Test<C> for Admitted<'a, C> {
    ghost passes = { λ t c. C.ops.admits t.bits t.cell.now (C.ops.hue c) };

    fn test(&self, cell: &C) -> bool {
        self.cell.admits(self.bits, cell)
    }
}

/// It has no value, and its flags are among the cell's.
#[derive(Drop)]
struct Bare<'a, C> {
    cell: &'a C,
}

impl<'a, C: Cells> Test<C> for Bare<'a, C> {
    ghost use Rattle.std.specs.Prelude.{◌&&◌};

    ghost passes = { λ t c. C.ops.blank c && C.ops.within (C.ops.hue c) (C.ops.hue t.cell.now) };

    fn test(&self, cell: &C) -> bool {
        if !cell.is_blank() {
            return false;
        }
        cell.is_within(self.cell)
    }
}

/// It has no value.
#[derive(Drop)]
struct Blank;

impl<C: Cells> Test<C> for Blank {
    ghost passes = { λ t c. C.ops.blank c };

    fn test(&self, cell: &C) -> bool {
        cell.is_blank()
    }
}

/// Whether the cells of the next `bits` places all pass.
fn all_pass<C: Cells, T: Test<C>>(runs: &[Run<C>], spot: Spot, bits: u64, test: &T) -> bool
    requires runs { AreRuns C.fine runs.now }
    requires spot { IsSpot runs.now spot }
    requires enough { bits ≤ length (ahead runs.now spot) }
    ensures { result ≡ list_all (λ p. T.passes test.now p.cell) (take bits (ahead runs.now spot)) }
{
    let mut at = spot;
    let mut left = bits;
    while left > 0 {
        let run = &runs[at.index];
        if !test.test(&run.cell) {
            return false;
        }
        let Front { count, next } = step_along(runs, at, left);
        left -= count;
        at = next;
    }
    true
}

/// Whether an element of so many bits begins at the spot.
pub(crate) fn starts<C: Cells>(runs: &[Run<C>], spot: Spot, bits: u64) -> bool
    requires runs { AreRuns C.fine runs.now }
    requires spot { IsSpot runs.now spot }
    requires some { 0 < bits }
    requires enough { bits ≤ length (ahead runs.now spot) }
    ensures { OnWhole runs.now spot bits result }
{
    let run = &runs[spot.index];
    if run.bits != bits {
        return false;
    }
    spot.skip % bits == 0
}

/// Whether the next `bits` places are known bits, which are added.
fn known_bits<C: Cells>(
    runs: &[Run<C>],
    spot: Spot,
    bits: u64,
    out: &mut ArrayVec<bool, 64>,
) -> bool
    requires runs { AreRuns C.fine runs.now }
    requires spot { IsSpot runs.now spot }
    requires enough { bits ≤ length (ahead runs.now spot) }
    requires few { bits ≤ 64 }
    requires none { out.old.items ≡ [] }
    requires room { array_vec_len out.old ≡ 0 }
    ensures { OnBits (known C.ops (take bits (ahead runs.now spot))) result out.new.items }
{
    let mut at = spot;
    let mut left = bits;
    while left > 0 {
        let run = &runs[at.index];
        let Some(bit) = run.cell.known_bit(run.bits, at.skip % run.bits) else {
            return false;
        };
        out.push(bit);
        at = step_along(runs, at, 1).next;
        left -= 1;
    }
    true
}

/// Whether an element of the cell's size begins at the spot, whose cell the cell includes.
fn starts_in<C: Cells>(cell: &C, bits: u64, runs: &[Run<C>], spot: Spot) -> bool
    requires runs { AreRuns C.fine runs.now }
    requires spot { IsSpot runs.now spot }
    requires some { 0 < bits }
    requires enough { bits ≤ length (ahead runs.now spot) }
    ensures { result ≡ is_start C.ops bits cell.now (take bits (ahead runs.now spot)) }
{
    let run = &runs[spot.index];
    if run.bits != bits {
        return false;
    }
    if spot.skip % bits != 0 {
        return false;
    }
    run.cell.is_included(cell)
}

/// Whether the next places are the bits of a number that the cell has.
fn has_known<C: Cells>(cell: &C, bits: u64, runs: &[Run<C>], spot: Spot) -> bool
    requires runs { AreRuns C.fine runs.now }
    requires spot { IsSpot runs.now spot }
    requires fine { C.fine bits cell.now }
    requires few { bits ≤ 64 }
    requires enough { bits ≤ length (ahead runs.now spot) }
    ensures { result ≡ is_known C.ops bits cell.now (take bits (ahead runs.now spot)) }
{
    let mut known = ArrayVec::new();
    if !known_bits(runs, spot, bits, &mut known) {
        return false;
    }
    cell.has(&known)
}

/// Whether an element of so many bits with the cell allows what stands at the next places.
pub fn is_in<C: Cells>(cell: &C, bits: u64, runs: &[Run<C>], spot: Spot) -> bool
    requires runs { AreRuns C.fine runs.now }
    requires spot { IsSpot runs.now spot }
    requires fine { C.fine bits cell.now }
    requires some { 0 < bits }
    requires few { bits ≤ 64 }
    requires enough { bits ≤ length (ahead runs.now spot) }
    ensures { result ≡ is_in C.ops bits cell.now (take bits (ahead runs.now spot)) }
{
    if starts_in(cell, bits, runs, spot) {
        return true;
    }
    if all_pass(runs, spot, bits, &Admitted { bits, cell }) {
        return true;
    }
    if all_pass(runs, spot, bits, &Bare { cell }) {
        return true;
    }
    has_known(cell, bits, runs, spot)
}

/// The cell, of so many bits, with the flags of a run without values.
fn with_flags<C: Cells>(alloc: Global, cell: C, bits: u64, run: &Run<C>) -> Mem<C>
    requires fine { C.fine bits cell }
    requires run { C.fine run.now.bits run.now.cell }
    requires blank { C.ops.blank run.now.cell ≡ true }
    ensures { IfOk result (λ c. c ≡ C.ops.shade cell (C.ops.hue run.now.cell)) }
{
    if run.cell.is_within(&cell) {
        return Ok(cell);
    }
    cell.shade(alloc, &run.cell)
}

/// The cell with the flags of the next places, which have no values.
fn shade_all<C: Cells>(alloc: Global, cell: &C, bits: u64, runs: &[Run<C>], spot: Spot) -> Mem<C>
    requires runs { AreRuns C.fine runs.now }
    requires spot { IsSpot runs.now spot }
    requires fine { C.fine bits cell.now }
    requires value { C.ops.blank cell.now ≡ false }
    requires blank { list_all (λ p. C.ops.blank p.cell) (take bits (ahead runs.now spot)) ≡ true }
    requires enough { bits ≤ length (ahead runs.now spot) }
    ensures { IfOk result (λ c. c ≡ shaded C.ops cell.now (take bits (ahead runs.now spot))) }
{
    let mut shade = cell.copy(alloc)?;
    let mut at = spot;
    let mut left = bits;
    while left > 0 {
        let run = &runs[at.index];
        shade = with_flags(alloc, shade, bits, run)?;
        let Front { count, next } = step_along(runs, at, left);
        left -= count;
        at = next;
    }
    Ok(shade)
}

/// The cell with what stands at the next places where that isn't one element: flags, or the bits of a number.
pub(crate) fn with_others<C: Cells>(
    alloc: Global,
    cell: &C,
    bits: u64,
    runs: &[Run<C>],
    spot: Spot,
) -> Mem<Option<C>>
    requires runs { AreRuns C.fine runs.now }
    requires spot { IsSpot runs.now spot }
    requires fine { C.fine bits cell.now }
    requires few { bits ≤ 64 }
    requires enough { bits ≤ length (ahead runs.now spot) }
    ensures { IfOk result (λ c. c
        ≡ with_others C.ops bits cell.now (take bits (ahead runs.now spot))) }
{
    if cell.is_blank() {
        return Ok(None);
    }
    if all_pass(runs, spot, bits, &Blank) {
        let shade = shade_all(alloc, cell, bits, runs, spot)?;
        return Ok(Some(shade));
    }
    let mut known = ArrayVec::new();
    if !known_bits(runs, spot, bits, &mut known) {
        return Ok(None);
    }
    let with_bits = cell.with_bits(alloc, &known)?;
    Ok(Some(with_bits))
}
