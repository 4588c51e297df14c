//! What single items of work tell of where a run is.

ghost use Rattle.std.specs.Prelude.{◌≡◌, ◌∷◌, List, unwrap_or};
ghost use Rattle.c_machine.specs.Machine as machine;
ghost use Rattle.stepper_shapes.specs.Views.{statement_of};
ghost use Rattle.stepper_work.specs.Views.{work_of};
ghost use Rattle.stepper_exits.specs.Sorts.{HasMark};
ghost use Rattle.stepper_exits.specs.Ways.{with_site};

use c_base::number::BaseId;
use c_program::program::Stmt;
use sqlite_items::Items;
use stepper_shapes::operand::Statement;
use stepper_statements::loops::loop_number;
use stepper_statements::stmt_shape::{StmtShape, statement_shape};
use stepper_work::work::Work;

/// The function that was left, and its call site.
#[derive(Clone, Copy, Drop)]
pub struct Left {
    pub function: u32,
    pub site: Option<u32>,
}

/// What an item of work is to the ways out of scopes.
#[derive(Clone, Copy, Drop)]
pub enum Mark<'p> {
    Frame(u32, Option<u32>),
    Close(&'p Items<BaseId>, &'p Items<Stmt>),
    CloseFunction(&'p Items<BaseId>, &'p Items<BaseId>),
    Body(&'p Items<Stmt>),
    /// The mark by which a body belongs to its loop.
    Loop,
    Switched,
    Other,
}

pub fn mark_of<'p>(work: Work<'p>) -> Mark<'p>
    ensures { HasMark (work_of work.entry) result }
{
    match work {
        Work::Frame(function, site) => Mark::Frame(function, site),
        Work::Close(locals, stmts) => Mark::Close(locals, stmts),
        Work::CloseFunction(formals, locals) => Mark::CloseFunction(formals, locals),
        Work::Body(stmts) => Mark::Body(stmts),
        Work::Loop(_) | Work::ForNext(_) | Work::DoTest(_) => Mark::Loop,
        Work::Switched => Mark::Switched,
        Work::Do(_)
        | Work::Evaluate(_)
        | Work::Locate(_)
        | Work::Fetch(_)
        | Work::Store(_)
        | Work::Apply(_, _) => Mark::Other,
        Work::Discard(_)
        | Work::Choose(_, _, _)
        | Work::Turn(_)
        | Work::Deliver(_)
        | Work::Brace(_, _)
        | Work::Use => Mark::Other,
        Work::AsPlace
        | Work::Reach(_, _)
        | Work::Index(_, _, _)
        | Work::IndexedBy(_, _, _)
        | Work::Sample(_)
        | Work::FetchCells(_) => Mark::Other,
        Work::StoreCells(_, _)
        | Work::CopyCells(_, _)
        | Work::ApplyOne(_, _)
        | Work::Change(_)
        | Work::ApplyPointers(_, _, _)
        | Work::Decide(_, _) => Mark::Other,
        Work::Settle
        | Work::Pick(_, _)
        | Work::Again
        | Work::Tuck
        | Work::Increase(_, _)
        | Work::Drop => Mark::Other,
        Work::Enter(_, _, _)
        | Work::Put(_)
        | Work::Paste(_, _)
        | Work::Finish(_)
        | Work::ForHead(_)
        | Work::ForTurn(_) => Mark::Other,
        Work::DoTurn(_) | Work::Select(_, _) => Mark::Other,
    }
}

/// The site of the call that a frame stands for.
pub fn site_in(work: Work<'_>) -> Option<u32>
    ensures { (rest : List machine.Work) → machine.sites_of (work_of work.entry ∷ rest) ≡ with_site (machine.sites_of rest) result }
{
    match work {
        Work::Frame(_, site) => site,
        Work::Do(_)
        | Work::Evaluate(_)
        | Work::Locate(_)
        | Work::Fetch(_)
        | Work::Store(_)
        | Work::Apply(_, _) => None,
        Work::Discard(_)
        | Work::Choose(_, _, _)
        | Work::Loop(_)
        | Work::Turn(_)
        | Work::Deliver(_)
        | Work::Body(_) => None,
        Work::Brace(_, _)
        | Work::Close(_, _)
        | Work::CloseFunction(_, _)
        | Work::Use
        | Work::AsPlace
        | Work::Reach(_, _) => None,
        Work::Index(_, _, _)
        | Work::IndexedBy(_, _, _)
        | Work::Sample(_)
        | Work::FetchCells(_)
        | Work::StoreCells(_, _)
        | Work::CopyCells(_, _) => None,
        Work::ApplyOne(_, _)
        | Work::Change(_)
        | Work::ApplyPointers(_, _, _)
        | Work::Decide(_, _)
        | Work::Settle
        | Work::Pick(_, _) => None,
        Work::Again
        | Work::Tuck
        | Work::Increase(_, _)
        | Work::Drop
        | Work::Enter(_, _, _)
        | Work::Put(_) => None,
        Work::Paste(_, _)
        | Work::Finish(_)
        | Work::ForHead(_)
        | Work::ForNext(_)
        | Work::ForTurn(_)
        | Work::DoTest(_) => None,
        Work::DoTurn(_) | Work::Select(_, _) | Work::Switched => None,
    }
}

/// The number of the statement that an item of work names.
pub fn statement_named(work: Work<'_>) -> Option<u32>
    ensures { (rest : List machine.Work) → machine.statement_in (work_of work.entry ∷ rest) ≡ unwrap_or result (machine.statement_in rest) }
{
    match work {
        Work::Discard(id) => Some(id),
        Work::Choose(id, _, _) => Some(id),
        Work::Loop(l) => Some(loop_number(l)),
        Work::Turn(l) => Some(loop_number(l)),
        Work::Deliver(id) => Some(id),
        Work::Brace(id, _) => Some(id),
        Work::Finish(id) => Some(id),
        Work::ForHead(l) => Some(loop_number(l)),
        Work::ForNext(l) => Some(loop_number(l)),
        Work::ForTurn(l) => Some(loop_number(l)),
        Work::DoTest(l) => Some(loop_number(l)),
        Work::DoTurn(l) => Some(loop_number(l)),
        Work::Select(id, _) => Some(id),
        Work::Do(_)
        | Work::Evaluate(_)
        | Work::Locate(_)
        | Work::Fetch(_)
        | Work::Store(_)
        | Work::Apply(_, _) => None,
        Work::Body(_)
        | Work::Close(_, _)
        | Work::CloseFunction(_, _)
        | Work::Frame(_, _)
        | Work::Use
        | Work::AsPlace => None,
        Work::Reach(_, _)
        | Work::Index(_, _, _)
        | Work::IndexedBy(_, _, _)
        | Work::Sample(_)
        | Work::FetchCells(_)
        | Work::StoreCells(_, _) => None,
        Work::CopyCells(_, _)
        | Work::ApplyOne(_, _)
        | Work::Change(_)
        | Work::ApplyPointers(_, _, _)
        | Work::Decide(_, _)
        | Work::Settle => None,
        Work::Pick(_, _)
        | Work::Again
        | Work::Tuck
        | Work::Increase(_, _)
        | Work::Drop
        | Work::Enter(_, _, _) => None,
        Work::Put(_) | Work::Paste(_, _) | Work::Switched => None,
    }
}

fn statement_number(s: Statement<'_>) -> Option<u32>
    ensures { result ≡ machine.number_of (statement_of s.entry) }
{
    match statement_shape(s) {
        StmtShape::Expression(id, _) => Some(id),
        StmtShape::Return(id, _) => Some(id),
        StmtShape::ReturnNothing(id) => Some(id),
        StmtShape::If(id, _, _, _) => Some(id),
        StmtShape::Empty(id) => Some(id),
        StmtShape::Switch(id, _, _) => Some(id),
        StmtShape::Goto(id, _) => Some(id),
        StmtShape::Break(id) => Some(id),
        StmtShape::Continue(id) => Some(id),
        StmtShape::Initialise(id, _, _, _) => Some(id),
        StmtShape::Assert(id, _) => Some(id),
        StmtShape::While(_) | StmtShape::DoWhile(_) | StmtShape::For(_) => None,
        StmtShape::Block(_, _) | StmtShape::Nothing => None,
        StmtShape::Case(_, _) | StmtShape::Label(_, _) => None,
    }
}

/// The statement at which a run arrives with this item of work.
pub fn arrival_at(work: Work<'_>) -> Option<u32>
    ensures { (rest : List machine.Work) → result ≡ machine.arrival (work_of work.entry ∷ rest) }
{
    match work {
        Work::Do(s) => statement_number(s),
        Work::Loop(l) => Some(loop_number(l)),
        Work::Brace(id, _) => Some(id),
        Work::ForHead(l) => Some(loop_number(l)),
        Work::DoTest(l) => Some(loop_number(l)),
        Work::Evaluate(_)
        | Work::Locate(_)
        | Work::Fetch(_)
        | Work::Store(_)
        | Work::Apply(_, _)
        | Work::Discard(_) => None,
        Work::Choose(_, _, _)
        | Work::Turn(_)
        | Work::Deliver(_)
        | Work::Body(_)
        | Work::Close(_, _)
        | Work::CloseFunction(_, _) => None,
        Work::Frame(_, _)
        | Work::Use
        | Work::AsPlace
        | Work::Reach(_, _)
        | Work::Index(_, _, _)
        | Work::IndexedBy(_, _, _) => None,
        Work::Sample(_)
        | Work::FetchCells(_)
        | Work::StoreCells(_, _)
        | Work::CopyCells(_, _)
        | Work::ApplyOne(_, _)
        | Work::Change(_) => None,
        Work::ApplyPointers(_, _, _)
        | Work::Decide(_, _)
        | Work::Settle
        | Work::Pick(_, _)
        | Work::Again
        | Work::Tuck => None,
        Work::Increase(_, _)
        | Work::Drop
        | Work::Enter(_, _, _)
        | Work::Put(_)
        | Work::Paste(_, _)
        | Work::Finish(_) => None,
        Work::ForNext(_)
        | Work::ForTurn(_)
        | Work::DoTurn(_)
        | Work::Select(_, _)
        | Work::Switched => None,
    }
}
