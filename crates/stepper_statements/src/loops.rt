//! Loops, by their form.

ghost use Rattle.std.specs.Prelude.{◌≡◌, map, is_some, unwrap_or};
ghost use Rattle.stepper_shapes.specs.Views.{loop_of, head_of, operand_of, zero_expr};
ghost use Rattle.c_typed_term.specs.Views.{predicate_of};
ghost use Rattle.stepper_statements.specs.Views.{stmt_shape_of, is_nil};

use crate::stmt_shape::StmtShape;
use c_typed_stmt::stmt::LoopSort;
use c_typed_term::predicate::TPred;
use sqlite_items::{Boxed, Items};
use stepper_shapes::operand::{Loop, Operand, Statement};

/// The number of a loop.
pub fn loop_number(l: &Boxed<Loop>) -> u32
    ensures { result ≡ (head_of (loop_of l.now)).id }
{
    l.get().id.0
}

pub fn has_condition(l: &Boxed<Loop>) -> bool
    ensures { result ≡ is_some (head_of (loop_of l.now)).condition }
{
    l.get().cond.is_some()
}

/// Whether a loop has a first part.
pub fn has_first(l: &Boxed<Loop>) -> bool
    ensures { result ≡ is_some (head_of (loop_of l.now)).first }
{
    l.get().first.is_some()
}

/// Whether a loop has a third part.
pub fn has_next(l: &Boxed<Loop>) -> bool
    ensures { result ≡ is_some (head_of (loop_of l.now)).next }
{
    l.get().next.is_some()
}

/// The condition of a loop, where it has one.
pub fn condition_of<'p>(l: &'p Boxed<Loop>) -> Operand<'p>
    ensures { operand_of result ≡ unwrap_or (head_of (loop_of l.now)).condition zero_expr }
{
    match loop_shape(l) {
        StmtShape::While(_) => Operand::Of(Statement::Loop(l)),
        StmtShape::DoWhile(_) => Operand::Of(Statement::Loop(l)),
        _ => Operand::Of(Statement::Loop(l)),
    }
}

#[tactic(auto, using(crate::proofs::Whiles::nil_by))]
fn is_bare(invariants: &Items<TPred>) -> bool
    ensures { result ≡ is_nil (map predicate_of invariants.now) }
{
    invariants.as_slice().is_empty()
}

/// One level of a loop.
#[tactic(auto, using(crate::proofs::Whiles::annotated))]
pub fn loop_shape<'p>(l: &'p Boxed<Loop>) -> StmtShape<'p>
    ensures { stmt_shape_of result ≡ loop_of l.now }
{
    let head = l.get();
    match head.sort {
        LoopSort::Do => StmtShape::DoWhile(l),
        LoopSort::For => StmtShape::For(l),
        LoopSort::While => {
            match (&head.first, &head.cond, &head.next) {
                (None, Some(_), None) => {
                    if is_bare(&head.invariants) {
                        StmtShape::While(l)
                    } else {
                        StmtShape::For(l)
                    }
                }
                _ => StmtShape::For(l),
            }
        }
    }
}
