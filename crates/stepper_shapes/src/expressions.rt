//! One level of expressions and places.

ghost use Rattle.std.specs.Prelude.{◌≡◌, ◌≤◌, ◌++◌, length, ◌∷◌, [], map, take, drop, slice_get, Some, MatchOption};
ghost use Rattle.c_types.specs.Types as types;
ghost use Rattle.c_types.specs.Views.{type_of};
ghost use Rattle.c_typed_expr.specs.Trees.{Convert};
ghost use Rattle.c_typed_expr.specs.Views as c_views;
ghost use Rattle.c_typed_expr.specs.Views.{operand_of as right_of, step_of, expr_of, lvalue_of, root_of, on_integer, load_of, value_at, assignment_of, logic_run, comma_run, compound_of};
ghost use Rattle.stepper_shapes.specs.Views.{zero_expr, right_in, implied_of, place_in, place_of, inside, operand_of, run_of, listed_in, converted_by, begins_with, statement_of};
ghost use Rattle.stepper_shapes.specs.Shapes.{shape_of, place_shape_of};

use crate::operand::{Change, ImpliedType, Operand, Place, PlaceShape, Shape, Statement};
use crate::statements::first_expression;
use c_base::integer::IntKind;
use c_base::operators::BinOp;
use c_memory::scalar::Scalar;
use c_typed_expr::expr::{TCompound, TExpr, TLval, TOperand, TRoot, TStep};
use c_types::ctype::CType;
use sqlite_items::{Boxed, Items};

/// The place that a whole lvalue names.
#[tactic(auto, using(crate::proofs::Runs::take_all))]
pub fn whole_place<'p>(lvalue: &'p Boxed<TLval>) -> Place<'p>
    ensures { place_of result ≡ lvalue_of lvalue.now }
{
    Place {
        lvalue,
        steps: lvalue.get().steps.len(),
    }
}

/// The scalar type that is meant, where it is one.
pub fn scalar_of(t: ImpliedType<'_>) -> Option<Scalar>
    ensures { result ≡ types.scalar_of (implied_of t.entry) }
{
    match t {
        ImpliedType::Given(CType::Int(kind)) => Some(Scalar::Integer(*kind)),
        ImpliedType::Given(CType::Ptr(_)) => Some(Scalar::Pointer),
        ImpliedType::Given(CType::Void) => None,
        ImpliedType::Given(CType::Array(_, _)) => None,
        ImpliedType::Given(CType::Comp(_)) => None,
        ImpliedType::Given(CType::Func(_)) => None,
        ImpliedType::PointerTo(_) => Some(Scalar::Pointer),
        ImpliedType::Long => Some(Scalar::Integer(IntKind::Long)),
        ImpliedType::Void => None,
    }
}

/// A load by the type of the place.
fn load_shape<'p>(t: ImpliedType<'p>, place: Place<'p>) -> Shape<'p>
    ensures { shape_of result ≡ load_of (implied_of t.entry) (place_of place.entry) }
{
    match t {
        ImpliedType::Given(CType::Int(kind)) => Shape::Load(Scalar::Integer(*kind), place),
        ImpliedType::Given(CType::Ptr(_)) => Shape::Load(Scalar::Pointer, place),
        ImpliedType::PointerTo(_) => Shape::Load(Scalar::Pointer, place),
        ImpliedType::Long => Shape::Load(Scalar::Integer(IntKind::Long), place),
        ImpliedType::Void => Shape::LoadCells(t, place),
        ImpliedType::Given(CType::Void) => Shape::LoadCells(t, place),
        ImpliedType::Given(CType::Array(_, _)) => Shape::LoadCells(t, place),
        ImpliedType::Given(CType::Comp(_)) => Shape::LoadCells(t, place),
        ImpliedType::Given(CType::Func(_)) => Shape::LoadCells(t, place),
    }
}

/// An assignment by the type of the place.
fn assignment_shape<'p>(t: &'p CType, place: Place<'p>, e: Operand<'p>) -> Shape<'p>
    ensures { shape_of result ≡ assignment_of (type_of t.now) (place_of place.entry) (operand_of e.entry) }
{
    match t {
        CType::Int(kind) => Shape::Assign(Scalar::Integer(*kind), place, e),
        CType::Ptr(_) => Shape::Assign(Scalar::Pointer, place, e),
        CType::Void => Shape::AssignCells(ImpliedType::Given(t), place, e),
        CType::Array(_, _) => Shape::AssignCells(ImpliedType::Given(t), place, e),
        CType::Comp(_) => Shape::AssignCells(ImpliedType::Given(t), place, e),
        CType::Func(_) => Shape::AssignCells(ImpliedType::Given(t), place, e),
    }
}

/// An operator by the types of its operands.
fn typed_shape<'p>(o: &'p TOperand, left: Operand<'p>, right: Operand<'p>) -> Shape<'p>
    ensures { shape_of result ≡ on_integer o.now.operator (type_of o.now.left) (type_of o.now.right) (operand_of left.entry) (operand_of right.entry) }
{
    match (&o.left, &o.right) {
        (CType::Int(kind), CType::Int(_)) => Shape::Binary(o.operator, *kind, left, right),
        _ => {
            let a = ImpliedType::Given(&o.left);
            let b = ImpliedType::Given(&o.right);
            Shape::OnPointers(o.operator, a, b, left, right)
        }
    }
}

/// What an operator of a run makes of what stands before it, which may have to be converted.
fn operator_shape<'p>(
    o: &'p TOperand,
    before: Operand<'p>,
    converted: Operand<'p>,
    right: Operand<'p>,
) -> Shape<'p>
    requires converted { operand_of converted ≡ Convert (type_of o.now.left) (operand_of before) }
    requires right { operand_of right ≡ expr_of o.now.operand }
    ensures { shape_of result ≡ right_of o.now (operand_of before.entry) }
{
    typed_shape(o, if o.converts { converted } else { before }, right)
}

fn compound_shape<'p>(c: &'p Boxed<TCompound>) -> Shape<'p>
    ensures { shape_of result ≡ compound_of c.now }
{
    let compound = c.get();
    Shape::Compound(Change {
        operator: compound.operator,
        ctype: ImpliedType::Given(&compound.ctype),
        left: ImpliedType::Given(&compound.left),
        right: ImpliedType::Given(&compound.right),
        place: whole_place(&compound.place),
        operand: Operand::Whole(&compound.operand),
    })
}

/// So many elements behind a pointer (C11 6.5.2.1p2).
fn behind_shape<'p>(to: &'p CType, pointer: Operand<'p>, number: &'p Boxed<TExpr>) -> Shape<'p>
    ensures { shape_of result ≡ c_views.behind (type_of to.now) (operand_of pointer.entry) (expr_of number.now) }
{
    let left = ImpliedType::PointerTo(to);
    let right = ImpliedType::Long;
    Shape::OnPointers(BinOp::Add, left, right, pointer, Operand::Whole(number))
}

fn zero<'p>() -> Shape<'p>
    ensures { shape_of result ≡ zero_expr }
{
    Shape::Number(IntKind::Int, 0)
}

fn root_part<'p>(lvalue: &'p Boxed<TLval>) -> PlaceShape<'p>
    ensures { place_shape_of result ≡ root_of lvalue.now.root }
{
    match &lvalue.get().root {
        TRoot::Object(base) => PlaceShape::Variable(base.0),
        TRoot::Deref(e, t, volatile) => PlaceShape::Pointed(
            Operand::Whole(e),
            ImpliedType::Given(t),
            *volatile,
        ),
        TRoot::Temporary(e, t) => PlaceShape::Temporary(Operand::Whole(e), ImpliedType::Given(t)),
        TRoot::ElementOf(e, place, t, n, end) => PlaceShape::ElementOf(
            Operand::Whole(e),
            whole_place(place),
            ImpliedType::Given(t),
            *n,
            *end,
        ),
        TRoot::BeyondOf(_, _, t, volatile) => {
            let e = Operand::Inside(Place { lvalue, steps: 0 });
            PlaceShape::Pointed(e, ImpliedType::Given(t), *volatile)
        }
    }
}

/// The part that a step adds, where `e` is the expression in it.
fn step_part<'p>(e: Operand<'p>, before: Place<'p>, step: &'p TStep) -> PlaceShape<'p>
    requires { operand_of e ≡ inside (step_of step.now (place_of before)) }
    ensures { place_shape_of result ≡ step_of step.now (place_of before.entry) }
{
    match step {
        TStep::Member(composite, member) => PlaceShape::Member(before, *composite, *member),
        TStep::Element(_, t, n, end) => PlaceShape::Element(
            before,
            e,
            ImpliedType::Given(t),
            *n,
            *end,
        ),
        TStep::Follow(t, volatile) => PlaceShape::Pointed(e, ImpliedType::Given(t), *volatile),
        TStep::Beyond(_, t, volatile) => PlaceShape::Pointed(e, ImpliedType::Given(t), *volatile),
        TStep::Call(_, _, t, _) => PlaceShape::Temporary(e, ImpliedType::Given(t)),
        TStep::StepAfter(t, _) => PlaceShape::Temporary(e, ImpliedType::Given(t)),
    }
}

/// So many, or all where there are fewer.
fn at_most<T>(all: &[T], n: usize) -> usize
    ensures value { take result all.now ≡ take n all.now }
    ensures within { result ≤ length all.now }
{
    if n > all.len() { all.len() } else { n }
}

/// The last of the first so many, and how many stand before it.
fn last_of<'p, T>(all: &'p [T], n: usize) -> Option<(usize, &'p T)>
    ensures { MatchOption result (take n all.now ≡ []) (λ l. (take n all.now ≡ take l.0 all.now ++ l.1.now ∷ []) × (slice_get all.now l.0 ≡ Some l.1.now)) }
{
    let count = at_most(all, n);
    if count == 0 {
        return None;
    }
    Some((count - 1, &all[count - 1]))
}

/// The last part of a place.
#[tactic(auto, using(crate::proofs::Runs::stepped_last))]
pub fn place_shape<'p>(place: Place<'p>) -> PlaceShape<'p>
    ensures { place_shape_of result ≡ place_of place.entry }
{
    let lvalue = place.lvalue;
    match last_of(lvalue.get().steps.as_slice(), place.steps) {
        None => root_part(lvalue),
        Some((steps, step)) => step_part(Operand::Inside(place), Place { lvalue, steps }, step),
    }
}

fn root_place<'p>(lvalue: &'p Boxed<TLval>) -> Place<'p>
    ensures { place_of result ≡ root_of lvalue.now.root }
{
    Place { lvalue, steps: 0 }
}

/// What stands behind a step; a value without a place is itself.
fn value_at_step<'p>(
    t: ImpliedType<'p>,
    before: Place<'p>,
    step: &'p TStep,
    place: Place<'p>,
) -> Shape<'p>
    requires { place_of place ≡ step_of step.now (place_of before) }
    ensures { shape_of result ≡ value_at (implied_of t.entry) (place_of place.entry) }
{
    match step {
        TStep::Call(site, arguments, t, _) => {
            Shape::Call(*site, ImpliedType::Given(t), before, arguments)
        }
        TStep::StepAfter(t, up) => Shape::Step(*up, true, ImpliedType::Given(t), before),
        TStep::Member(_, _) => load_shape(t, place),
        TStep::Element(_, _, _, _) => load_shape(t, place),
        TStep::Follow(_, _) => load_shape(t, place),
        TStep::Beyond(_, _, _) => load_shape(t, place),
    }
}

/// The first so many operators of a run.
#[cycle(shapes)]
#[tactic(auto, using(crate::proofs::Runs::stepped_last))]
fn run_shape<'p>(first: &'p Boxed<TExpr>, more: &'p Items<TOperand>, n: usize) -> Shape<'p>
    ensures { shape_of result ≡ run_of first.now more.now n }
{
    match last_of(more.as_slice(), n) {
        None => expr_shape(first.get()),
        Some((k, o)) => {
            let before = Operand::Run(first, more, k);
            let converted = Operand::Converted(first, more, k);
            operator_shape(o, before, converted, Operand::Right(more, k))
        }
    }
}

/// The first so many operators of a run of `&&` or `||`.
#[cycle(shapes)]
#[tactic(auto, using(crate::proofs::Runs::logic_last))]
fn logic_shape<'p>(
    is_and: bool,
    first: &'p Boxed<TExpr>,
    more: &'p Items<TExpr>,
    n: usize,
) -> Shape<'p>
    ensures { shape_of result ≡ logic_run is_and (expr_of first.now) (map expr_of (take n more.now)) }
{
    match last_of(more.as_slice(), n) {
        None => expr_shape(first.get()),
        Some((k, _)) => {
            let left = Operand::Logic(is_and, first, more, k);
            Shape::Logic(is_and, left, Operand::Listed(more, k))
        }
    }
}

/// What follows so many operands of commas.
#[cycle(shapes)]
#[tactic(auto, using(crate::proofs::Runs::dropped_none, crate::proofs::Runs::comma_more))]
fn comma_shape<'p>(last: &'p Boxed<TExpr>, before: &'p Items<TExpr>, n: usize) -> Shape<'p>
    ensures { shape_of result ≡ comma_run (map expr_of (drop n before.now)) (expr_of last.now) }
{
    match before.as_slice().get(n) {
        None => expr_shape(last.get()),
        Some(_) => {
            let rest = Operand::Comma(before, n + 1, last);
            Shape::Comma(Operand::Listed(before, n), rest)
        }
    }
}

#[cycle(shapes)]
pub fn expr_shape<'p>(e: &'p TExpr) -> Shape<'p>
    ensures { shape_of result ≡ expr_of e.now }
{
    match e {
        TExpr::Const(n, kind) => Shape::Number(*kind, *n),
        TExpr::SizeOf(size, _) => Shape::Number(IntKind::ULong, *size as i128),
        TExpr::Value(place, t) => value_shape(
            ImpliedType::Given(t),
            place,
            place.get().steps.len(),
        ),
        TExpr::Address(place, t) => Shape::Address(ImpliedType::Given(t), whole_place(place)),
        TExpr::Decay(place, t) => Shape::Address(ImpliedType::Given(t), whole_place(place)),
        TExpr::Unary(op, kind, e) => Shape::Unary(*op, *kind, Operand::Whole(e)),
        TExpr::Run(first, more) => run_shape(first, more, more.len()),
        TExpr::Logic(is_and, first, more) => logic_shape(*is_and, first, more, more.len()),
        TExpr::Conditional(a, b, c, t) => Shape::Conditional(
            ImpliedType::Given(t),
            Operand::Whole(a),
            Operand::Whole(b),
            Operand::Whole(c),
        ),
        TExpr::Assign(place, t, e) => assignment_shape(t, whole_place(place), Operand::Whole(e)),
        TExpr::Compound(c) => compound_shape(c),
        TExpr::StepBefore(place, t, up) => Shape::Step(
            *up,
            false,
            ImpliedType::Given(t),
            whole_place(place),
        ),
        TExpr::Convert(t, e) => Shape::Convert(ImpliedType::Given(t), Operand::Whole(e)),
        TExpr::Cast(t, e) => Shape::Convert(ImpliedType::Given(t), Operand::Whole(e)),
        TExpr::IsSet(t, e) => {
            let implied = ImpliedType::Given(t);
            Shape::OnPointers(
                BinOp::Ne,
                implied,
                implied,
                Operand::Whole(e),
                Operand::Null(implied),
            )
        }
        TExpr::Comma(before, last) => comma_shape(last, before, 0),
    }
}

/// What stands at a root; a value without a place is itself.
#[cycle(shapes)]
fn value_at_root<'p>(t: ImpliedType<'p>, lvalue: &'p Boxed<TLval>) -> Shape<'p>
    ensures { shape_of result ≡ value_at (implied_of t.entry) (root_of lvalue.now.root) }
{
    match &lvalue.get().root {
        TRoot::Temporary(e, _) => expr_shape(e.get()),
        TRoot::Object(_) => load_shape(t, root_place(lvalue)),
        TRoot::Deref(_, _, _) => load_shape(t, root_place(lvalue)),
        TRoot::ElementOf(_, _, _, _, _) => load_shape(t, root_place(lvalue)),
        TRoot::BeyondOf(_, _, _, _) => load_shape(t, root_place(lvalue)),
    }
}

/// What stands at a place; a value without a place is itself.
#[cycle(shapes)]
#[tactic(auto, using(crate::proofs::Runs::stepped_last))]
fn value_shape<'p>(t: ImpliedType<'p>, lvalue: &'p Boxed<TLval>, n: usize) -> Shape<'p>
    ensures { shape_of result ≡ value_at (implied_of t.entry) (place_in lvalue.now n) }
{
    match last_of(lvalue.get().steps.as_slice(), n) {
        None => value_at_root(t, lvalue),
        Some((steps, step)) => {
            let before = Place { lvalue, steps };
            value_at_step(t, before, step, Place { lvalue, steps: n })
        }
    }
}

fn inside_root<'p>(lvalue: &'p Boxed<TLval>) -> Shape<'p>
    ensures { shape_of result ≡ inside (root_of lvalue.now.root) }
{
    match &lvalue.get().root {
        TRoot::Object(_) => zero(),
        TRoot::Deref(e, _, _) => expr_shape(e.get()),
        TRoot::Temporary(e, _) => expr_shape(e.get()),
        TRoot::ElementOf(e, _, _, _, _) => expr_shape(e.get()),
        TRoot::BeyondOf(number, pointer, t, _) => Shape::OnPointers(
            BinOp::Add,
            ImpliedType::Long,
            ImpliedType::PointerTo(t),
            Operand::Whole(number),
            Operand::Whole(pointer),
        ),
    }
}

fn inside_step<'p>(before: Place<'p>, step: &'p TStep) -> Shape<'p>
    ensures { shape_of result ≡ inside (step_of step.now (place_of before.entry)) }
{
    match step {
        TStep::Member(_, _) => zero(),
        TStep::Element(e, _, _, _) => expr_shape(e.get()),
        TStep::Follow(t, _) => value_shape(ImpliedType::PointerTo(t), before.lvalue, before.steps),
        TStep::Beyond(e, t, _) => behind_shape(
            t,
            Operand::At(ImpliedType::PointerTo(t), before),
            e,
        ),
        TStep::Call(site, arguments, t, _) => {
            Shape::Call(*site, ImpliedType::Given(t), before, arguments)
        }
        TStep::StepAfter(t, up) => Shape::Step(*up, true, ImpliedType::Given(t), before),
    }
}

/// The expression in the last part of a place.
#[tactic(auto, using(crate::proofs::Runs::stepped_last))]
fn inside_shape<'p>(lvalue: &'p Boxed<TLval>, n: usize) -> Shape<'p>
    ensures { shape_of result ≡ inside (place_in lvalue.now n) }
{
    match last_of(lvalue.get().steps.as_slice(), n) {
        None => inside_root(lvalue),
        Some((steps, step)) => inside_step(Place { lvalue, steps }, step),
    }
}

fn listed_shape<'p>(all: &'p Items<TExpr>, n: usize) -> Shape<'p>
    ensures { shape_of result ≡ listed_in all.now n }
{
    match all.as_slice().get(n) {
        None => zero(),
        Some(e) => expr_shape(e),
    }
}

fn right_shape<'p>(more: &'p Items<TOperand>, n: usize) -> Shape<'p>
    ensures { shape_of result ≡ right_in (slice_get more.now n) }
{
    match more.as_slice().get(n) {
        None => zero(),
        Some(o) => expr_shape(&o.operand),
    }
}

fn converted_shape<'p>(first: &'p Boxed<TExpr>, more: &'p Items<TOperand>, n: usize) -> Shape<'p>
    ensures { shape_of result ≡ converted_by (slice_get more.now n) (run_of first.now more.now n) }
{
    match more.as_slice().get(n) {
        None => run_shape(first, more, n),
        Some(o) => Shape::Convert(ImpliedType::Given(&o.left), Operand::Run(first, more, n)),
    }
}

/// The expression that a statement begins with.
fn first_shape<'p>(statement: Statement<'p>) -> Shape<'p>
    ensures { shape_of result ≡ begins_with (statement_of statement.entry) }
{
    match first_expression(statement) {
        None => zero(),
        Some(e) => expr_shape(e),
    }
}

/// One level of an expression.
pub fn operand_shape<'p>(e: Operand<'p>) -> Shape<'p>
    ensures { shape_of result ≡ operand_of e.entry }
{
    match e {
        Operand::Whole(e) => expr_shape(e.get()),
        Operand::Listed(all, n) => listed_shape(all, n),
        Operand::Right(more, n) => right_shape(more, n),
        Operand::Run(first, more, n) => run_shape(first, more, n),
        Operand::Converted(first, more, n) => converted_shape(first, more, n),
        Operand::Logic(is_and, first, more, n) => logic_shape(is_and, first, more, n),
        Operand::Comma(before, n, last) => comma_shape(last, before, n),
        Operand::At(t, place) => value_shape(t, place.lvalue, place.steps),
        Operand::Inside(place) => inside_shape(place.lvalue, place.steps),
        Operand::Null(t) => Shape::Convert(t, Operand::Zero),
        Operand::Zero => zero(),
        Operand::Of(statement) => first_shape(statement),
    }
}
