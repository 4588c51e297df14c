//! The numbers to which unstable bounds go.
ghost use Rattle.std.specs.Prelude.{◌≤ℤ◌, ◌≤◌, pos, length};

use crate::range::INT;
use first_program::tree::{Addend, Arm, Stmt, Sum, Test};
use std::alloc::{AllocError, Global};

// How many of the marks, which ascend, are below n.
fn marks_below(marks: &[i64], n: i64) -> usize
    ensures { result ≤ length marks.now }
{
    let mut start = 0;
    let mut end = marks.len();
    while start < end {
        let middle = start + (end - start) / 2;
        if marks[middle] < n {
            start = middle + 1;
        } else {
            end = middle;
        }
    }
    start
}

/// The least of the marks, which ascend, that is not below n; without one, the greatest number.
pub fn first_at_least(marks: &[i64], n: i64) -> i64
    ensures { n ≤ℤ result }
{
    let at = marks_below(marks, n);
    if at < marks.len() && marks[at] >= n {
        marks[at]
    } else {
        i64::MAX
    }
}

/// The greatest of the marks, which ascend, that is not above n; without one, the least number.
pub fn last_at_most(marks: &[i64], n: i64) -> i64
    ensures { result ≤ℤ n }
{
    if n == i64::MAX {
        return n;
    }
    let at = marks_below(marks, n + 1);
    if at > 0 && marks[at - 1] <= n {
        marks[at - 1]
    } else {
        i64::MIN
    }
}

fn add_number(marks: &mut Vec<i64>, n: i64) -> Result<(), AllocError>
    requires low { pos 0 ≤ℤ n }
    requires high { n ≤ℤ pos 4294967295 }
{
    marks.push(n - 1)?;
    marks.push(n)?;
    marks.push(n + 1)?;
    Ok(())
}

#[cycle(numbering)]
fn add_addends(marks: &mut Vec<i64>, addends: &[Addend]) -> Result<(), AllocError> {
    for addend in addends {
        add_sum(marks, &addend.operand)?;
    }
    Ok(())
}

#[cycle(numbering)]
fn add_sum(marks: &mut Vec<i64>, sum: &Sum) -> Result<(), AllocError> {
    match sum {
        Sum::Number(n) => add_number(marks, *n as i64),
        Sum::Variable(_) => Ok(()),
        Sum::Parenthesised(inner) => add_sum(marks, inner.get()),
        Sum::Run { first, more } => {
            add_sum(marks, first.get())?;
            add_addends(marks, more.as_slice())
        }
    }
}

#[cycle(comparing)]
fn add_test(marks: &mut Vec<i64>, test: &Test) -> Result<(), AllocError> {
    match test {
        Test::Compare {
            left,
            relation: _,
            right,
        } => {
            add_sum(marks, left)?;
            add_sum(marks, right)
        }
        Test::Parenthesised(inner) => add_test(marks, inner.get()),
    }
}

#[cycle(marking)]
fn add_arms(marks: &mut Vec<i64>, arms: &[Arm]) -> Result<(), AllocError> {
    for arm in arms {
        add_test(marks, &arm.test)?;
        add_stmt(marks, &arm.body)?;
    }
    Ok(())
}

#[cycle(marking)]
fn add_stmts(marks: &mut Vec<i64>, stmts: &[Stmt]) -> Result<(), AllocError> {
    for stmt in stmts {
        add_stmt(marks, stmt)?;
    }
    Ok(())
}

#[cycle(marking)]
fn add_stmt(marks: &mut Vec<i64>, stmt: &Stmt) -> Result<(), AllocError> {
    match stmt {
        Stmt::Assign { target: _, value } => add_sum(marks, value),
        Stmt::Return(value) => add_sum(marks, value),
        Stmt::If { arms, otherwise } => {
            add_arms(marks, arms.as_slice())?;
            match otherwise {
                None => Ok(()),
                Some(last) => add_stmt(marks, last.get()),
            }
        }
        Stmt::While { test, body } => {
            add_test(marks, test)?;
            add_stmt(marks, body.get())
        }
        Stmt::Block(stmts) => add_stmts(marks, stmts.as_slice()),
    }
}

/// The marks of a program, ascending: its numbers, each also minus 1 and plus 1, 0, and the ends of type `int`.
///
/// That they are these, and that they ascend, bears on how tight rows are, and on nothing else.
pub fn marks_of(alloc: Global, stmts: &[Stmt]) -> Result<Vec<i64>, AllocError> {
    let mut marks = Vec::new(alloc);
    marks.push(INT.low)?;
    marks.push(0)?;
    marks.push(INT.high)?;
    add_stmts(&mut marks, stmts)?;
    marks.sort_unstable();
    Ok(marks)
}
