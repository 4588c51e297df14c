//! How many nodes expressions have.
ghost use Rattle.std.specs.Prelude.{◌≡◌, ◌<◌, ◌^◌, suc, ◌+◌};
ghost use Rattle.c_typed_expr.specs.Nodes.{callees, nodes, nodes_of_root, nodes_of_step, nodes_of_compound, nodes_of_lvalue, nodes_of_all, nodes_of_steps, nodes_of_operands};

use crate::expr::{TCompound, TExpr, TLval, TOperand, TRoot, TStep};
use c_types::count::{with, with_one};
use c_types::ctype::CType;

/// What tells how many functions a call by a pointer to a function of a type may reach.
pub trait Callees {
    ghost use Rattle.std.specs.Prelude.{ℕ};
    ghost use Rattle.c_types.specs.Types as types;
    ghost use Rattle.c_types.specs.Views.{type_of};

    ghost counted: { Self → types.CType → ℕ };

    /// How many; at 2^62 and above it is no promise.
    fn count(&self, t: &CType) -> u64
        ensures { counted self.now (type_of t.now) < 2 ^ 62 → result ≡ counted self.now (type_of t.now) };
}

fn of_callees<C: Callees>(table: &C, pointed: &Option<CType>) -> u64
    ensures { callees (C.counted table.now) pointed.now < 2 ^ 62 → result ≡ callees (C.counted table.now) pointed.now }
{
    match pointed {
        None => 0,
        Some(t) => table.count(t),
    }
}

#[cycle(counting)]
fn of_exprs<C: Callees>(table: &C, all: &[TExpr]) -> u64
    ensures { nodes_of_all (C.counted table.now) all.now < 2 ^ 62 → result ≡ nodes_of_all (C.counted table.now) all.now }
{
    let mut total: u64 = 0;
    for each in all {
        total = with(total, each.nodes(table));
    }
    total
}

#[cycle(counting)]
fn of_steps<C: Callees>(table: &C, all: &[TStep]) -> u64
    ensures { nodes_of_steps (C.counted table.now) all.now < 2 ^ 62 → result ≡ nodes_of_steps (C.counted table.now) all.now }
{
    let mut total: u64 = 0;
    for each in all {
        total = with(total, of_step(table, each));
    }
    total
}

#[cycle(counting)]
fn of_operands<C: Callees>(table: &C, all: &[TOperand]) -> u64
    ensures { nodes_of_operands (C.counted table.now) all.now < 2 ^ 62 → result ≡ nodes_of_operands (C.counted table.now) all.now }
{
    let mut total: u64 = 0;
    for each in all {
        total = with(total, with_one(each.operand.nodes(table)));
    }
    total
}

#[cycle(counting)]
fn of_root<C: Callees>(table: &C, tree: &TRoot) -> u64
    ensures { nodes_of_root (C.counted table.now) tree.now < 2 ^ 62 → result ≡ nodes_of_root (C.counted table.now) tree.now }
{
    match tree {
        TRoot::Object(_) => 1,
        TRoot::Deref(e, _, _) => with_one(e.get().nodes(table)),
        TRoot::Temporary(e, _) => e.get().nodes(table),
        TRoot::ElementOf(e, place, _, _, _) => with_one(with(
            e.get().nodes(table),
            place.get().nodes(table),
        )),
        TRoot::BeyondOf(e, pointer, _, _) => with_one(with(
            e.get().nodes(table),
            pointer.get().nodes(table),
        )),
    }
}

#[cycle(counting)]
fn of_step<C: Callees>(table: &C, tree: &TStep) -> u64
    ensures { nodes_of_step (C.counted table.now) tree.now < 2 ^ 62 → result ≡ nodes_of_step (C.counted table.now) tree.now }
{
    match tree {
        TStep::Member(_, _) => 1,
        TStep::Element(e, _, _, _) => with_one(e.get().nodes(table)),
        TStep::Follow(_, _) => 0,
        TStep::Beyond(e, _, _) => with_one(e.get().nodes(table)),
        TStep::Call(_, arguments, _, pointed) => with_one(with(
            of_exprs(table, arguments.as_slice()),
            of_callees(table, pointed),
        )),
        TStep::StepAfter(_, _) => 1,
    }
}

#[cycle(counting)]
fn of_compound<C: Callees>(table: &C, tree: &TCompound) -> u64
    ensures { nodes_of_compound (C.counted table.now) tree.now < 2 ^ 62 → result ≡ nodes_of_compound (C.counted table.now) tree.now }
{
    with_one(with(
        tree.place.get().nodes(table),
        tree.operand.get().nodes(table),
    ))
}

impl TLval {
    /// How many nodes the lvalue has, without conversions that aren't written, and with the functions that its calls by pointers may reach. At 2^62 and above it is no promise.
    #[cycle(counting)]
    pub fn nodes<C: Callees>(&self, table: &C) -> u64
        ensures { nodes_of_lvalue (C.counted table.now) self.now < 2 ^ 62 → result ≡ nodes_of_lvalue (C.counted table.now) self.now }
    {
        with(
            of_root(table, &self.root),
            of_steps(table, self.steps.as_slice()),
        )
    }
}

impl TExpr {
    /// How many nodes the expression has, without conversions that aren't written, and with the functions that its calls by pointers may
    /// reach. At 2^62 and above it is no promise.
    #[cycle(counting)]
    pub fn nodes<C: Callees>(&self, table: &C) -> u64
        ensures { nodes (C.counted table.now) self.now < 2 ^ 62 → result ≡ nodes (C.counted table.now) self.now }
    {
        match self {
            TExpr::Const(_, _) => 1,
            TExpr::SizeOf(_, below) => with_one(*below),
            TExpr::Value(place, _) => place.get().nodes(table),
            TExpr::Address(place, _) => with_one(place.get().nodes(table)),
            TExpr::Decay(place, _) => place.get().nodes(table),
            TExpr::Unary(_, _, e) => with_one(e.get().nodes(table)),
            TExpr::Run(first, more) => with(
                first.get().nodes(table),
                of_operands(table, more.as_slice()),
            ),
            TExpr::Logic(_, first, more) => {
                let each = with(of_exprs(table, more.as_slice()), more.len() as u64);
                with(first.get().nodes(table), each)
            }
            TExpr::Conditional(a, b, c, _) => {
                let branches = with(b.get().nodes(table), c.get().nodes(table));
                with_one(with(a.get().nodes(table), branches))
            }
            TExpr::Assign(place, _, e) => with_one(with(
                place.get().nodes(table),
                e.get().nodes(table),
            )),
            TExpr::Compound(compound) => of_compound(table, compound.get()),
            TExpr::StepBefore(place, _, _) => with_one(place.get().nodes(table)),
            TExpr::Convert(_, e) => e.get().nodes(table),
            TExpr::Cast(_, e) => with_one(e.get().nodes(table)),
            TExpr::IsSet(_, e) => e.get().nodes(table),
            TExpr::Comma(before, last) => {
                let each = with(of_exprs(table, before.as_slice()), before.len() as u64);
                with(last.get().nodes(table), each)
            }
        }
    }
}
