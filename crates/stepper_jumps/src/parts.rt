//! What searches of labels go on with in a statement.

ghost use Rattle.std.specs.Prelude.{◌≡◌, ℕ, ℤ, List, Option};
ghost use Rattle.c_machine.specs.Jumps as jumps;
ghost use Rattle.c_machine.specs.Machine as machine;
ghost use Rattle.stepper_shapes.specs.Views.{statement_of};
ghost use Rattle.stepper_jumps.specs.Searches.{label_at, case_at, labelled, labelled_part, size, IsSmaller};

use c_base::name::Name;
use c_program::program::Stmt;
use sqlite_items::Boxed;
use stepper_shapes::operand::Statement;
use stepper_statements::stmt_shape::{StmtShape, statement_shape};
use stepper_work::work::Work;

/// What searches of labels go on with.
#[derive(Clone, Copy, Drop)]
pub enum Part<'p> {
    Named(&'p Name, &'p Boxed<Stmt>),
    Valued(Option<i128>, &'p Boxed<Stmt>),
    /// Both statements of an `if`.
    Both(Statement<'p>, Statement<'p>),
    /// What a loop or a `switch` has inside, with the mark that stands behind it.
    Marked(Work<'p>, Statement<'p>),
    /// A label isn't searched for inside.
    Nothing,
}

pub fn part_of<'p>(s: Statement<'p>) -> Part<'p>
    ensures label { (name : List ℕ) (rest : List machine.Work) → jumps.at_label name (statement_of s.entry) rest ≡ label_at name result rest }
    ensures case { (value : Option ℤ) (rest : List machine.Work) → jumps.at_case value (statement_of s.entry) rest ≡ case_at value result rest }
    ensures labelled { (name : List ℕ) → labelled name (statement_of s.entry) ≡ labelled_part name result }
    ensures smaller { IsSmaller result (size (statement_of s.entry)) }
{
    match statement_shape(s) {
        StmtShape::Label(name, body) => Part::Named(name, body),
        StmtShape::Case(value, body) => Part::Valued(value, body),
        StmtShape::If(_, _, then, otherwise) => Part::Both(then, otherwise),
        StmtShape::While(l) => Part::Marked(Work::Loop(l), Statement::Body(l)),
        StmtShape::DoWhile(l) => Part::Marked(Work::DoTest(l), Statement::Body(l)),
        StmtShape::For(l) => Part::Marked(Work::ForNext(l), Statement::Body(l)),
        StmtShape::Switch(_, _, body) => Part::Marked(Work::Switched, Statement::Whole(body)),
        StmtShape::Expression(_, _) | StmtShape::Return(_, _) => Part::Nothing,
        StmtShape::ReturnNothing(_) | StmtShape::Block(_, _) | StmtShape::Nothing => Part::Nothing,
        StmtShape::Empty(_) | StmtShape::Goto(_, _) | StmtShape::Break(_) => Part::Nothing,
        StmtShape::Continue(_) | StmtShape::Assert(_, _) => Part::Nothing,
        StmtShape::Initialise(_, _, _, _) => Part::Nothing,
    }
}
