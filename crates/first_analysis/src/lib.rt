//! What the variables of a program of the first language may hold at each statement, by bounds, and which operations may be undefined.
#![tactic(auto)]

ghost use Rattle.std.specs.Prelude.{◌≡◌, ◌<◌, ◌+◌, suc, length, IfOk, OnOk};
ghost use Rattle.first_program.specs.Source.{count_all};
ghost use Rattle.first_program.specs.SourceViews.{trees_of, program_of};
ghost use Rattle.first_analysis.specs.Tables.{IsTable, IsAnalysis};

use crate::marks::marks_of;
use crate::place::Place;
use crate::row::{Reached, unwritten};
use crate::statement::{count_list, statements};
use first_program::tree::{Program, Stmt};
use std::alloc::{AllocError, Global};

pub mod content;
pub mod evaluation;
pub mod marks;
pub mod place;
pub mod range;
pub mod row;
pub mod statement;

// Carries a row through a body to its closing brace.
fn fill(
    alloc: Global,
    body: &[Stmt],
    places: &mut [Place],
    start: Reached,
    marks: &[i64],
) -> Result<(), AllocError>
    requires long { length places.old ≡ suc (count_all (trees_of body.now)) }
    requires few { count_all (trees_of body.now) < 200000 }
    ensures { OnOk result (IsTable (trees_of body.now) start places.new) }
{
    let count = count_list(body);
    let (inner, last) = places.split_at_mut(count);
    let after = statements(alloc, body, inner, start, marks)?;
    last[0].arrive(alloc, &after, None)
}

/// What is kept at each numbered statement of a program in order, and at last at its closing brace.
///
/// The time is linear in the statements and in how often the rows of the heads of loops grow, which is at most 200 times each.
pub fn analyse(alloc: Global, program: &Program) -> Result<Vec<Place>, AllocError>
    requires { count_all (trees_of program.now.body) < 200000 }
    ensures { IfOk result (λ places. IsAnalysis (program_of program.now) places.items) }
{
    let body = program.body.as_slice();
    let mut places = Vec::new(alloc);
    for _ in 0..count_list(body) + 1 {
        places.push(Place::new())?;
    }
    let start = unwritten(alloc, program.variables.len())?;
    let marks = marks_of(alloc, body)?;
    fill(
        alloc,
        body,
        places.as_mut_slice(),
        Some(start),
        marks.as_slice(),
    )?;
    Ok(places)
}
