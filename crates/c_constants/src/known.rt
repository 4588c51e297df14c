//! What is known of an expression before a run.
ghost use Rattle.std.specs.Prelude.{◌≡◌, map};
ghost use Rattle.c_base.specs.Operators as operators;
ghost use Rattle.c_types.specs.Types as types;
ghost use Rattle.c_types.specs.Views.{type_of};
ghost use Rattle.c_types.specs.Steps.{stepped};
ghost use Rattle.c_typed_expr.specs.Trees.{Expr, Lvalue};
ghost use Rattle.c_typed_expr.specs.Views.{expr_of, logic_run, lvalue_of, operand_of, root_of, step_of, value_at};
ghost use Rattle.c_checking.specs.Constants as constants;
ghost use Rattle.stepper_values.specs.Views.{number_of, number_result_of};
ghost use Rattle.c_constants.specs.Views.{known_of};

use c_base::format::format_of;
use c_base::integer::{IntKind, Machine};
use c_base::kind::Kind;
use c_base::operators::{BinOp, UnOp};
use c_typed_expr::expr::{TExpr, TLval, TOperand, TRoot, TStep};
use c_types::ctype::CType;
use stepper_values::number::{Number, computed, computed_one, converted, is_zero};

/// What is known of an expression: that it is no integer constant expression, its number, or that it meets an undefined step.
#[derive(Clone, Copy, Drop)]
pub enum Known {
    Varying,
    Constant(Number),
    Undefined,
}

fn known_from(outcome: Result<Number, Kind>) -> Known
    ensures { known_of result ≡ constants.known_from (number_result_of outcome) }
{
    match outcome {
        Ok(n) => Known::Constant(n),
        Err(_) => Known::Undefined,
    }
}

fn unary(op: UnOp, kind: IntKind, machine: Machine, a: Known) -> Known
    ensures { known_of result ≡ constants.on_one (λ n. constants.known_from (operators.applied_unary op kind machine n)) (known_of a) }
{
    match a {
        Known::Varying => Known::Varying,
        Known::Undefined => Known::Undefined,
        Known::Constant(n) => known_from(computed_one(op, kind, machine, n)),
    }
}

// An operator on a number and what is known of its right operand.
fn beside(op: BinOp, kind: IntKind, machine: Machine, m: Number, b: Known) -> Known
    ensures { known_of result ≡ constants.on_one (λ n. constants.known_from (operators.applied op kind machine (number_of m) n)) (known_of b) }
{
    match b {
        Known::Varying => Known::Varying,
        Known::Undefined => Known::Undefined,
        Known::Constant(n) => known_from(computed(op, kind, machine, m, n)),
    }
}

fn binary(op: BinOp, kind: IntKind, machine: Machine, a: Known, b: Known) -> Known
    ensures { known_of result ≡ constants.on_two (λ m n. constants.known_from (operators.applied op kind machine m n)) (known_of a) (known_of b) }
{
    match a {
        Known::Varying => Known::Varying,
        Known::Undefined => unless_varying(b, Known::Undefined),
        Known::Constant(m) => beside(op, kind, machine, m, b),
    }
}

fn into_type(t: &CType, machine: Machine, a: Known) -> Known
    ensures { known_of result ≡ constants.converted_known machine (type_of t.now) (known_of a) }
{
    match t {
        CType::Int(kind) => match a {
            Known::Varying => Known::Varying,
            Known::Undefined => Known::Undefined,
            Known::Constant(n) => Known::Constant(converted(*kind, machine, n)),
        },
        _ => Known::Varying,
    }
}

fn unless_varying(a: Known, answer: Known) -> Known
    ensures { known_of result ≡ constants.unless_varying (known_of a) (known_of answer) }
{
    match a {
        Known::Varying => Known::Varying,
        _ => answer,
    }
}

fn truth_number(truth: bool) -> Known
    ensures { known_of result ≡ constants.Constant (operators.truth_number truth) }
{
    Known::Constant(Number::Natural(if truth { 1 } else { 0 }))
}

fn truth_in(b: Known) -> Known
    ensures { known_of result ≡ constants.truth_in (known_of b) }
{
    match b {
        Known::Varying => Known::Varying,
        Known::Undefined => Known::Undefined,
        Known::Constant(n) => truth_number(!is_zero(n)),
    }
}

// `&&` behind 0, `||` behind another number: the left operand decides.
fn decided(is_and: bool, a: Known, b: Known) -> Known
    ensures { known_of result ≡ constants.decided is_and (known_of a) (known_of b) }
{
    match a {
        Known::Varying => Known::Varying,
        Known::Undefined => unless_varying(b, Known::Undefined),
        Known::Constant(n) => {
            if is_zero(n) == is_and {
                unless_varying(b, truth_number(!is_and))
            } else {
                unless_varying(b, truth_in(b))
            }
        }
    }
}

fn picked(a: Known, b: Known, c: Known) -> Known
    ensures { known_of result ≡ constants.picked (known_of a) (known_of b) (known_of c) }
{
    match a {
        Known::Varying => Known::Varying,
        Known::Undefined => unless_varying(b, unless_varying(c, Known::Undefined)),
        Known::Constant(n) => {
            let branch = if is_zero(n) { c } else { b };
            unless_varying(b, unless_varying(c, branch))
        }
    }
}

fn picked_in(t: &CType, a: Known, b: Known, c: Known) -> Known
    ensures { known_of result ≡ constants.picked_known (type_of t.now) (known_of a) (known_of b) (known_of c) }
{
    match t {
        CType::Int(_) => picked(a, b, c),
        _ => Known::Varying,
    }
}

fn number(kind: IntKind, machine: Machine, n: i128) -> Known
    ensures { known_of result ≡ constants.number_known machine kind n }
{
    let format = format_of(kind, machine);
    if n < format.least() || format.greatest() < n {
        return Known::Varying;
    }
    if n < 0 {
        Known::Constant(Number::Negative((-1 - n) as u64))
    } else {
        Known::Constant(Number::Natural(n as u64))
    }
}

// An operator of a run, with what is known of what stands on its left.
#[cycle(knowing)]
fn operand(tree: &TOperand, machine: Machine, left: Known) -> Known
    ensures { (x : Expr) → constants.known machine x ≡ known_of left → known_of result ≡ constants.known machine (operand_of tree.now x) }
{
    let right = evaluate(&tree.operand, machine);
    let from = if tree.converts {
        into_type(&tree.left, machine, left)
    } else {
        left
    };
    match &tree.left {
        CType::Int(kind) => match &tree.right {
            CType::Int(_) => binary(tree.operator, *kind, machine, from, right),
            _ => Known::Varying,
        },
        _ => Known::Varying,
    }
}

#[cycle(knowing)]
fn run(first: Known, more: &[TOperand], machine: Machine) -> Known
    ensures { (x : Expr) → constants.known machine x ≡ known_of first → known_of result ≡ constants.known machine (stepped (map operand_of more.now) x) }
{
    let mut so_far = first;
    for each in more {
        so_far = operand(each, machine, so_far);
    }
    so_far
}

#[cycle(knowing)]
fn logic(is_and: bool, first: Known, more: &[TExpr], machine: Machine) -> Known
    ensures { (x : Expr) → constants.known machine x ≡ known_of first → known_of result ≡ constants.known machine (logic_run is_and x (map expr_of more.now)) }
{
    let mut so_far = first;
    for each in more {
        let right = evaluate(each, machine);
        so_far = decided(is_and, so_far, right);
    }
    so_far
}

// What is known of a value without a place of its own; of what a place holds nothing is.
#[cycle(knowing)]
#[tactic(auto, using(crate::proofs::Varying::load_varies))]
fn at_root(tree: &TRoot, machine: Machine) -> Known
    ensures { (t : types.CType) → known_of result ≡ constants.known machine (value_at t (root_of tree.now)) }
{
    match tree {
        TRoot::Temporary(e, _) => evaluate(e.get(), machine),
        _ => Known::Varying,
    }
}

// Behind each step nothing is known.
#[tactic(auto, using(crate::proofs::Varying::load_varies))]
fn behind(step: &TStep, machine: Machine) -> Known
    ensures { (t : types.CType) (p : Lvalue) → known_of result ≡ constants.known machine (value_at t (step_of step.now p)) }
{
    match step {
        _ => Known::Varying,
    }
}

fn behind_all(first: Known, steps: &[TStep], machine: Machine) -> Known
    ensures { (p : Lvalue) (t : types.CType) → constants.known machine (value_at t p) ≡ known_of first → known_of result ≡ constants.known machine (value_at t (stepped (map step_of steps.now) p)) }
{
    let mut so_far = first;
    for step in steps {
        so_far = behind(step, machine);
    }
    so_far
}

#[cycle(knowing)]
fn at_place(tree: &TLval, machine: Machine) -> Known
    ensures { (t : types.CType) → known_of result ≡ constants.known machine (value_at t (lvalue_of tree.now)) }
{
    let first = at_root(&tree.root, machine);
    behind_all(first, tree.steps.as_slice(), machine)
}

/// What is known of the expression on the machine.
#[cycle(knowing)]
pub fn evaluate(tree: &TExpr, machine: Machine) -> Known
    ensures { known_of result ≡ constants.known machine (expr_of tree.now) }
{
    match tree {
        TExpr::Const(n, kind) => number(*kind, machine, *n),
        TExpr::SizeOf(size, _) => number(IntKind::ULong, machine, *size as i128),
        TExpr::Value(place, _) => at_place(place.get(), machine),
        TExpr::Unary(op, kind, e) => unary(*op, *kind, machine, evaluate(e.get(), machine)),
        TExpr::Run(first, more) => run(evaluate(first.get(), machine), more.as_slice(), machine),
        TExpr::Logic(is_and, first, more) => logic(
            *is_and,
            evaluate(first.get(), machine),
            more.as_slice(),
            machine,
        ),
        TExpr::Conditional(a, b, c, t) => picked_in(
            t,
            evaluate(a.get(), machine),
            evaluate(b.get(), machine),
            evaluate(c.get(), machine),
        ),
        TExpr::Convert(t, e) => into_type(t, machine, evaluate(e.get(), machine)),
        TExpr::Cast(t, e) => into_type(t, machine, evaluate(e.get(), machine)),
        TExpr::Comma(before, last) => match before.as_slice().split_first() {
            None => evaluate(last.get(), machine),
            Some(_) => Known::Varying,
        },
        _ => Known::Varying,
    }
}
