//! Single steps.

ghost use Rattle.std.specs.Prelude.{◌≡◌, IfOk};
ghost use Rattle.c_program.specs.Views.{program_of};
ghost use Rattle.stepper_values.specs.Views.{layout_of};
ghost use Rattle.stepper_work.specs.Effects.{HasEffect};
ghost use Rattle.stepper_work.specs.Views.{work_of};
ghost use Rattle.stepper.specs.Steps.{IsStep};

use c_base::kind::Kind;
use sqlite_items::Items;
use std::alloc::AllocError;
use stepper_calls::calls::enter;
use stepper_calls::returns::{deliver, fall};
use stepper_exits::stops::{sites_of, statement_in};
use stepper_expressions::stepper::Stepper;
use stepper_flow::blocks::{close, close_function};
use stepper_flow::initialisers::paste_image;
use stepper_flow::loops::{begin_for, begin_turn, end_do, end_for};
use stepper_flow::statements::carry_out;
use stepper_flow::switches::select;
use stepper_flow::truths::{choose, turn, turn_do, turn_for};
use stepper_uses::accesses::{fetch, put, sample, store};
use stepper_uses::choices::{decide, discard, end_expression, hold_again, pick, settle, tuck};
use stepper_uses::objects::{copy_cells, fetch_cells, store_cells};
use stepper_uses::operators::{apply, apply_one, apply_pointers, change, increase, use_pointer};
use stepper_uses::parts::{as_place, index, index_by, reach};
use stepper_work::work::{Effect, State, Work};

/// What a step does.
#[derive(Drop)]
pub enum Outcome {
    /// The state is the next one.
    Goes,
    /// The step stops with its kind at a statement, in a call string with the outermost site first.
    Stops(Kind, u32, Items<u32>),
    /// There is no step.
    Ends,
}

/// Does an item of work that was taken off the state.
fn go_on<'p>(
    stepper: &Stepper<'p>,
    work: Work<'p>,
    state: &mut State<'p>,
) -> Result<Effect, AllocError>
    ensures { IfOk result (HasEffect (program_of stepper.now.program.now) (layout_of stepper.now.layout) (work_of work.entry) state.old state.new) }
{
    match work {
        Work::Do(s) => carry_out(stepper, s, state),
        Work::Evaluate(e) => stepper.evaluate(e, state),
        Work::Locate(place) => stepper.locate(place, state),
        Work::Fetch(scalar) => fetch(stepper, scalar, state),
        Work::Store(scalar) => store(stepper, scalar, state),
        Work::Apply(op, kind) => apply(stepper, op, kind, state),
        Work::Discard(id) => end_expression(stepper, id, state),
        Work::Choose(id, then, otherwise) => choose(stepper, id, then, otherwise, state),
        Work::Loop(l) => begin_turn(stepper, l, state),
        Work::Turn(l) => turn(stepper, l, state),
        Work::Deliver(id) => deliver(stepper, id, state),
        Work::Body(_) => Ok(Effect::GoesOn),
        Work::Brace(id, returned) => fall(stepper, id, returned, state),
        Work::Close(locals, stmts) => close(stepper, locals, stmts, state),
        Work::CloseFunction(formals, locals) => close_function(stepper, formals, locals, state),
        Work::Frame(_, _) => Ok(Effect::Stuck),
        Work::Use => use_pointer(stepper, state),
        Work::AsPlace => as_place(stepper, state),
        Work::Reach(composite, member) => reach(stepper, composite, member, state),
        Work::Index(t, n, end) => index(stepper, t, n, end, state),
        Work::IndexedBy(t, n, end) => index_by(stepper, t, n, end, state),
        Work::Sample(scalar) => sample(stepper, scalar, state),
        Work::FetchCells(t) => fetch_cells(stepper, t, state),
        Work::StoreCells(named, t) => store_cells(stepper, named, t, state),
        Work::CopyCells(named, t) => copy_cells(stepper, named, t, state),
        Work::ApplyOne(op, kind) => apply_one(stepper, op, kind, state),
        Work::Change(t) => change(stepper, t, state),
        Work::ApplyPointers(op, left, right) => apply_pointers(stepper, op, left, right, state),
        Work::Decide(is_and, e) => decide(stepper, is_and, e, state),
        Work::Settle => settle(stepper, state),
        Work::Pick(b, c) => pick(stepper, b, c, state),
        Work::Again => hold_again(stepper, state),
        Work::Tuck => tuck(stepper, state),
        Work::Increase(up, t) => increase(stepper, up, t, state),
        Work::Drop => discard(stepper, state),
        Work::Enter(site, t, n) => enter(stepper, site, t, n, state),
        Work::Put(scalar) => put(stepper, scalar, state),
        Work::Paste(base, image) => paste_image(stepper, base, image, state),
        Work::Finish(_) => Ok(Effect::GoesOn),
        Work::ForHead(l) => begin_for(stepper, l, state),
        Work::ForNext(l) => end_for(stepper, l, state),
        Work::ForTurn(l) => turn_for(stepper, l, state),
        Work::DoTest(l) => end_do(stepper, l, state),
        Work::DoTurn(l) => turn_do(stepper, l, state),
        Work::Select(id, body) => select(stepper, id, body, state),
        Work::Switched => Ok(Effect::GoesOn),
    }
}

/// One step: the state becomes the next one, or the step stops, or there is none.
pub fn step<'p>(stepper: &Stepper<'p>, state: &mut State<'p>) -> Result<Outcome, AllocError>
    ensures { IfOk result (IsStep (program_of stepper.now.program.now) (layout_of stepper.now.layout) state.old state.new) }
{
    let Some(work) = state.control.pop() else {
        return Ok(Outcome::Ends);
    };
    match go_on(stepper, work, state)? {
        Effect::GoesOn => Ok(Outcome::Goes),
        Effect::StopsHere(kind) => {
            let id = statement_in(&state.control);
            let sites = sites_of(stepper.alloc, &state.control)?;
            Ok(Outcome::Stops(kind, id, sites))
        }
        Effect::StopsIn(kind, id) => {
            let sites = sites_of(stepper.alloc, &state.control)?;
            Ok(Outcome::Stops(kind, id, sites))
        }
        Effect::Stuck => Ok(Outcome::Ends),
    }
}
