//! Values, what memory holds bit by bit, and what is held while expressions are evaluated. A set of bases is kept as a list of them.

ghost use Rattle.std.specs.Prelude.{◌≡◌, ◌==◌, ◌≤◌, ◌*◌, ◌++◌, ◌<◌, ◌^◌, length, map, take, drop, cond, IfOk, OnOk};
ghost use Rattle.std.specs.List.{list_any};
ghost use Rattle.std.specs.Ordering.{nat_cmp};
ghost use Rattle.std.specs.FinSet as sets;
ghost use Rattle.c_base.specs.Integers as integers;
ghost use Rattle.c_memory.specs.Scalars as scalars;
ghost use Rattle.c_memory.specs.Values as values;
ghost use Rattle.c_machine.specs.Work as machine;
ghost use Rattle.stepper_values.specs.Views.{number_of, bases_of, value_of, cell_of, held_of, value_result_of};

use crate::number::{Number, pattern_of, pattern_of_wide, scalar_in, size_of_scalar};
use c_base::integer::Machine;
use c_base::kind::Kind;
use c_memory::scalar::Scalar;
use sqlite_items::Items;
use std::alloc::{AllocError, Global};

/// A number, and the bases from whose addresses it was made.
#[derive(Drop)]
pub struct Value {
    pub number: Number,
    pub bases: Items<u32>,
}

/// One bit of memory: not written, left from a pointer whose object has died, or a bit, with the bases from whose addresses it was
/// made and its index in the value that was stored.
#[derive(Drop)]
pub enum Cell {
    Uninit,
    Dead,
    Bit(bool, Items<u32>, u32),
}

/// What is held while expressions are evaluated.
#[derive(Drop)]
pub enum Held {
    Usable(Value),
    /// A returned value that no step may use: its use stops with this kind.
    Unusable(Kind),
    /// The cells of a struct or union.
    Cells(Items<Cell>),
    Absent,
    /// The cells from where a part of a value without a place begins.
    Part(Items<Cell>),
}

pub fn plain(alloc: Global, number: Number) -> Value
    ensures { value_of result ≡ values.plain (number_of number) }
{
    Value {
        number,
        bases: Items::new(alloc),
    }
}

/// The list names the base.
pub fn is_named(bases: &[u32], base: u32) -> bool
    ensures { result ≡ list_any (λ b. base == b) bases.now }
{
    bases.iter().any(|b| base == *b)
}

/// The set of the listed bases has the base.
pub fn contains(bases: &[u32], base: u32) -> bool
    ensures { result ≡ sets.contains (bases_of bases.now) base }
{
    bases.contains(&base)
}

/// The set of the listed bases has one of the dying ones.
pub fn is_touched(bases: &[u32], dying: &[u32]) -> bool
    ensures { result ≡ list_any (sets.contains (bases_of bases.now)) dying.now }
{
    dying.iter().any(|base| contains(bases, *base))
}

impl Cell {
    fn is_uninit(&self) -> bool
        ensures { result ≡ values.is_uninit (cell_of self.now) }
    {
        match self {
            Cell::Uninit => true,
            Cell::Dead => false,
            Cell::Bit(_, _, _) => false,
        }
    }

    fn is_dead(&self) -> bool
        ensures { result ≡ values.is_dead (cell_of self.now) }
    {
        match self {
            Cell::Uninit => false,
            Cell::Dead => true,
            Cell::Bit(_, _, _) => false,
        }
    }

    fn bit(&self) -> u128
        ensures value { result ≡ cond (values.bit_of (cell_of self.now)) 1 0 }
        ensures small { result ≤ 1 }
    {
        match self {
            Cell::Uninit => 0,
            Cell::Dead => 0,
            Cell::Bit(bit, _, _) => { if *bit { 1 } else { 0 } }
        }
    }

    pub fn bases(&self) -> &[u32]
        ensures { bases_of result.now ≡ values.provenance_of (cell_of self.now) }
    {
        match self {
            Cell::Uninit => &[],
            Cell::Dead => &[],
            Cell::Bit(_, bases, _) => bases.as_slice(),
        }
    }

    pub fn duplicate(&self, alloc: Global) -> Result<Cell, AllocError>
        ensures { IfOk result (λ cell. cell ≡ self.now) }
    {
        match self {
            Cell::Uninit => Ok(Cell::Uninit),
            Cell::Dead => Ok(Cell::Dead),
            Cell::Bit(bit, bases, piece) => Ok(Cell::Bit(
                *bit,
                Items::from_slice(alloc, bases.as_slice())?,
                *piece,
            )),
        }
    }

    fn wither(&self, alloc: Global, dying: &[u32]) -> Result<Cell, AllocError>
        ensures { IfOk result (λ cell. cell_of cell ≡ values.wither dying.now (cell_of self.now)) }
    {
        if is_touched(self.bases(), dying) && !self.is_uninit() {
            return Ok(Cell::Dead);
        }
        self.duplicate(alloc)
    }
}

/// Puts copies of the cells at the end.
pub fn add_cells(alloc: Global, out: &mut Items<Cell>, cells: &[Cell]) -> Result<(), AllocError>
    ensures { OnOk result (out.new ≡ out.old ++ cells.now) }
{
    for cell in cells {
        out.push(cell.duplicate(alloc)?)?;
    }
    Ok(())
}

pub fn withered(alloc: Global, dying: &[u32], cells: &[Cell]) -> Result<Items<Cell>, AllocError>
    ensures { IfOk result (λ made. map cell_of made ≡ map (values.wither dying.now) (map cell_of
        cells.now)) }
{
    let mut made = Items::new(alloc);
    for cell in cells {
        made.push(cell.wither(alloc, dying)?)?;
    }
    Ok(made)
}

fn is_any_uninit(cells: &[Cell]) -> bool
    ensures { result ≡ list_any values.is_uninit (map cell_of cells.now) }
{
    if cells.is_empty() {
        return false;
    }
    if cells[0].is_uninit() {
        return true;
    }
    is_any_uninit(&cells[1..])
}

fn is_any_dead(cells: &[Cell]) -> bool
    ensures { result ≡ list_any values.is_dead (map cell_of cells.now) }
{
    if cells.is_empty() {
        return false;
    }
    if cells[0].is_dead() {
        return true;
    }
    is_any_dead(&cells[1..])
}

/// The number that the bits of the cells spell, the least one first.
fn pattern_in(cells: &[Cell]) -> u128
    requires { length cells.now ≤ 64 }
    ensures value { result ≡ integers.number_of_bits (map values.bit_of (map cell_of cells.now)) }
    ensures small { result < 2 ^ length cells.now }
{
    if cells.is_empty() {
        return 0;
    }
    let more = pattern_in(&cells[1..]);
    let bit = cells[0].bit();
    bit + 2 * more
}

fn united(alloc: Global, cells: &[Cell]) -> Result<Items<u32>, AllocError>
    ensures { IfOk result (λ bases. bases_of bases ≡ values.united (map cell_of cells.now)) }
{
    if cells.is_empty() {
        return Ok(Items::new(alloc));
    }
    let mut bases = united(alloc, &cells[1..])?;
    bases.append(Items::from_slice(alloc, cells[0].bases())?)?;
    Ok(bases)
}

/// The same from the machine's first byte on.
fn pattern_of_cells(machine: Machine, cells: &[Cell]) -> u64
    requires { length cells.now ≤ 64 }
    ensures { result ≡ integers.number_of_bits (map values.bit_of (integers.in_byte_order machine (map
        cell_of cells.now))) }
{
    match machine {
        Machine::Lp64 => pattern_in(cells) as u64,
    }
}

/// What a load of the type makes of the cells.
#[tactic(auto, unfolding(c_memory::specs::Values::value_in))]
pub fn value_in(
    alloc: Global,
    machine: Machine,
    scalar: Scalar,
    cells: &[Cell],
) -> Result<Result<Value, Kind>, AllocError>
    requires { length cells.now ≤ 64 }
    ensures { IfOk result (λ value. value_result_of value ≡ values.value_in machine scalar (map cell_of
        cells.now)) }
{
    if is_any_uninit(cells) {
        return Ok(Err(Kind::Initialization));
    }
    if is_any_dead(cells) {
        return Ok(Err(Kind::DanglingPointer));
    }
    let number = scalar_in(scalar, machine, pattern_of_cells(machine, cells));
    let bases = united(alloc, cells)?;
    Ok(Ok(Value { number, bases }))
}

fn piece_of(bases: &[u32], index: u32) -> u32
    ensures { result ≡ values.piece_of (bases_of bases.now) index }
{
    if bases.is_empty() { 0 } else { index }
}

/// The bits of a pattern, the least one first, with the bases and their indexes.
fn cells_from(
    alloc: Global,
    pattern: u64,
    bits: u32,
    bases: &[u32],
) -> Result<Items<Cell>, AllocError>
    ensures { IfOk result (λ cells. map cell_of cells ≡ values.cells_from (bases_of bases.now) 0
        (integers.bits_from pattern bits)) }
{
    let mut rest = pattern;
    let mut cells = Items::new(alloc);
    for index in 0..bits {
        let own = Items::from_slice(alloc, bases)?;
        let piece = piece_of(bases, index);
        cells.push(Cell::Bit(rest % 2 == 1, own, piece))?;
        rest /= 2;
    }
    Ok(cells)
}

/// What a store of so many bits of the value writes.
pub fn cells_of_bits(
    alloc: Global,
    machine: Machine,
    bits: u32,
    value: &Value,
) -> Result<Items<Cell>, AllocError>
    requires { bits ≤ 64 }
    ensures { IfOk result (λ cells. map cell_of cells ≡ values.cells_of machine bits (value_of value.now)) }
{
    match machine {
        Machine::Lp64 => cells_from(
            alloc,
            pattern_of(bits, value.number),
            bits,
            value.bases.as_slice(),
        ),
    }
}

/// What a store of the value as the type writes.
pub fn cells_of(
    alloc: Global,
    machine: Machine,
    scalar: Scalar,
    value: &Value,
) -> Result<Items<Cell>, AllocError>
    ensures { IfOk result (λ cells. map cell_of cells ≡ values.cells_of machine (scalars.bits_of_scalar
        scalar machine) (value_of value.now)) }
{
    cells_of_bits(alloc, machine, 8 * size_of_scalar(scalar, machine), value)
}

/// The same of a number and bases that need not be those of a value.
pub fn cells_of_wide(
    alloc: Global,
    machine: Machine,
    bits: u32,
    number: i128,
    bases: &[u32],
) -> Result<Items<Cell>, AllocError>
    requires { bits ≤ 64 }
    ensures { IfOk result (λ cells. map cell_of cells ≡ values.cells_of machine bits record { number = number; provenance = bases_of bases.now }) }
{
    match machine {
        Machine::Lp64 => cells_from(alloc, pattern_of_wide(bits, number), bits, bases),
    }
}

/// The use of what is held: its value, or the kind with which the use stops.
pub fn used(held: Held) -> Result<Value, Kind>
    ensures { value_result_of result ≡ machine.used (held_of held) }
{
    match held {
        Held::Usable(value) => Ok(value),
        Held::Unusable(kind) => Err(kind),
        Held::Cells(_) => Err(Kind::Initialization),
        Held::Absent => Err(Kind::Initialization),
        Held::Part(_) => Err(Kind::Initialization),
    }
}

/// So many items from the first on, as far as there are any.
pub fn front<T>(cells: &[T], count: u128) -> &[T]
    ensures value { result.now ≡ take count cells.now }
    ensures short { length result.now ≤ count }
{
    if count < cells.len() as u128 {
        &cells[..count as usize]
    } else {
        cells
    }
}

/// The items behind so many.
pub fn back<T>(cells: &[T], count: u128) -> &[T]
    ensures { result.now ≡ drop count cells.now }
{
    if count < cells.len() as u128 {
        &cells[count as usize..]
    } else {
        &[]
    }
}

/// A scalar in the cells of a value without a place.
pub fn part_value(
    alloc: Global,
    machine: Machine,
    scalar: Scalar,
    cells: &[Cell],
) -> Result<Result<Value, Kind>, AllocError>
    ensures { IfOk result (λ value. value_result_of value ≡ values.value_in machine scalar (take (scalars.bits_of_scalar
        scalar machine) (map cell_of cells.now))) }
{
    let bits = 8 * size_of_scalar(scalar, machine) as u128;
    value_in(alloc, machine, scalar, front(cells, bits))
}
