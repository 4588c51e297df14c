//! What a `switch` selects (C11 6.8.4.2p5).

ghost use Rattle.std.specs.Prelude.{◌≡◌, List, Some, None, option_copied};
ghost use Rattle.c_machine.specs.Jumps as jumps;
ghost use Rattle.c_machine.specs.Machine as machine;
ghost use Rattle.stepper_shapes.specs.Views.{statement_of};
ghost use Rattle.stepper_jumps.specs.Found.{case_work, case_work_in, listed_from};

use crate::parts::{Part, part_of};
use c_program::program::Stmt;
use sqlite_items::{Boxed, Items};
use stepper_shapes::operand::Statement;

/// A `case` in a block: the number of the statement that has it, and what stands behind it.
#[derive(Clone, Copy, Drop)]
pub struct Found<'p> {
    pub n: usize,
    pub body: &'p Boxed<Stmt>,
}

fn is_same_number(a: i128, b: i128) -> bool
    ensures { result ≡ jumps.same_number a b }
{
    a <= b && b <= a
}

fn is_same_case(a: Option<i128>, b: Option<i128>) -> bool
    ensures { result ≡ jumps.same_case a b }
{
    match (a, b) {
        (Some(a), Some(b)) => is_same_number(a, b),
        (None, None) => true,
        (None, Some(_)) => false,
        (Some(_), None) => false,
    }
}

/// What stands behind the `case` of the value, or behind `default`, among the labels of the statement.
pub fn case_body<'p>(value: Option<i128>, s: Statement<'p>) -> Option<&'p Boxed<Stmt>>
    ensures { (rest : List machine.Work) → jumps.at_case value (statement_of s.entry) rest ≡ case_work (option_copied result) rest }
{
    let mut here = s;
    'search: loop {
        match part_of(here) {
            Part::Valued(v, body) => {
                if is_same_case(value, v) {
                    return Some(body);
                }
                here = Statement::Whole(body);
            }
            Part::Named(_, body) => here = Statement::Whole(body),
            Part::Both(_, _) | Part::Marked(_, _) | Part::Nothing => return None,
        }
    }
}

/// The first of the statements that has the `case` of the value, or `default`.
#[tactic(auto, using(crate::proofs::Lists::case_first, crate::proofs::Lists::listed_none))]
pub fn find_case<'p>(value: Option<i128>, stmts: &'p Items<Stmt>) -> Option<Found<'p>>
    ensures { (rest : List machine.Work) → jumps.at_case_in value (listed_from 0 stmts.now) rest ≡ case_work_in stmts.now result rest }
{
    let mut n = 0;
    'search: while n < stmts.len() {
        if let Some(body) = case_body(value, Statement::Listed(stmts, n)) {
            return Some(Found { n, body });
        }
        n += 1;
    }
    None
}

/// The statement that a `switch` selects in a block: that of the value, or else of `default`.
pub fn find_selected<'p>(value: i128, stmts: &'p Items<Stmt>) -> Option<Found<'p>>
    ensures { (rest : List machine.Work) → jumps.first_some (jumps.at_case_in (Some value) (listed_from 0 stmts.now) rest) (jumps.at_case_in None (listed_from 0 stmts.now) rest) ≡ case_work_in stmts.now result rest }
{
    match find_case(Some(value), stmts) {
        Some(found) => Some(found),
        None => find_case(None, stmts),
    }
}
