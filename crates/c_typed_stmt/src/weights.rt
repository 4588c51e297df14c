//! What statements count for the work of an analysis.
ghost use Rattle.std.specs.Prelude.{◌≡◌, ◌<◌, ◌^◌, suc, ◌+◌, map, sum};
ghost use Rattle.c_typed_stmt.specs.Weights.{counted, of_numbered, weight_of_stmt, weight_of_arm, weight_of_block, weight_of_loop, weight_of_stmts, weight_of_arms};

use crate::stmt::{Numbered, TArm, TBlock, TLoop, TStmt};
use c_types::count::{with, with_one};

/// What counts the nodes of expressions, initialisers and predicates. At 2^62 and above a count is no promise.
pub trait Counter<E, I, P> {
    ghost use Rattle.std.specs.Prelude.{ℕ};

    ghost of_expr: { Self → E → ℕ };

    ghost of_init: { Self → I → ℕ };

    ghost of_pred: { Self → P → ℕ };

    fn expr(&self, e: &E) -> u64
        ensures { of_expr self.now e.now < 2 ^ 62 → result ≡ of_expr self.now e.now };

    fn init(&self, init: &I) -> u64
        ensures { of_init self.now init.now < 2 ^ 62 → result ≡ of_init self.now init.now };

    fn pred(&self, p: &P) -> u64
        ensures { of_pred self.now p.now < 2 ^ 62 → result ≡ of_pred self.now p.now };
}

fn of_optional<E, I, P, W: Counter<E, I, P>>(counter: &W, value: &Option<E>) -> u64
    ensures { counted (W.of_expr counter.now) value.now < 2 ^ 62 → result ≡ counted (W.of_expr counter.now) value.now }
{
    match value {
        None => 0,
        Some(value) => counter.expr(value),
    }
}

fn of_numbered<E, I, P, W: Counter<E, I, P>>(counter: &W, value: &Option<Numbered<E>>) -> u64
    ensures { of_numbered (W.of_expr counter.now) (W.of_init counter.now) (W.of_pred counter.now) value.now < 2 ^ 62 →
        result ≡ of_numbered (W.of_expr counter.now) (W.of_init counter.now) (W.of_pred counter.now) value.now }
{
    match value {
        None => 0,
        Some(numbered) => with_one(counter.expr(&numbered.value)),
    }
}

fn of_invariants<E, I, P, W: Counter<E, I, P>>(counter: &W, all: &[P]) -> u64
    ensures { sum (map (W.of_pred counter.now) all.now) < 2 ^ 62 → result ≡ sum (map (W.of_pred counter.now) all.now) }
{
    let mut total: u64 = 0;
    for each in all {
        total = with(total, counter.pred(each));
    }
    total
}

#[cycle(weighing)]
fn of_stmts<E, I, P, W: Counter<E, I, P>>(counter: &W, all: &[TStmt<E, I, P>]) -> u64
    ensures { weight_of_stmts (W.of_expr counter.now) (W.of_init counter.now) (W.of_pred counter.now) all.now < 2 ^ 62 →
        result ≡ weight_of_stmts (W.of_expr counter.now) (W.of_init counter.now) (W.of_pred counter.now) all.now }
{
    let mut total: u64 = 0;
    for each in all {
        total = with(total, each.weight(counter));
    }
    total
}

#[cycle(weighing)]
fn of_arms<E, I, P, W: Counter<E, I, P>>(counter: &W, all: &[TArm<E, I, P>]) -> u64
    ensures { weight_of_arms (W.of_expr counter.now) (W.of_init counter.now) (W.of_pred counter.now) all.now < 2 ^ 62 →
        result ≡ weight_of_arms (W.of_expr counter.now) (W.of_init counter.now) (W.of_pred counter.now) all.now }
{
    let mut total: u64 = 0;
    for each in all {
        total = with(total, of_arm(counter, each));
    }
    total
}

#[cycle(weighing)]
fn of_arm<E, I, P, W: Counter<E, I, P>>(counter: &W, arm: &TArm<E, I, P>) -> u64
    ensures { weight_of_arm (W.of_expr counter.now) (W.of_init counter.now) (W.of_pred counter.now) arm.now < 2 ^ 62 →
        result ≡ weight_of_arm (W.of_expr counter.now) (W.of_init counter.now) (W.of_pred counter.now) arm.now }
{
    with_one(with(counter.expr(&arm.cond), arm.body.weight(counter)))
}

#[cycle(weighing)]
fn of_loop<E, I, P, W: Counter<E, I, P>>(counter: &W, each: &TLoop<E, I, P>) -> u64
    ensures { weight_of_loop (W.of_expr counter.now) (W.of_init counter.now) (W.of_pred counter.now) each.now < 2 ^ 62 →
        result ≡ weight_of_loop (W.of_expr counter.now) (W.of_init counter.now) (W.of_pred counter.now) each.now }
{
    let next = with(of_numbered(counter, &each.next), each.body.weight(counter));
    let cond = with(of_optional(counter, &each.cond), next);
    let invariants = with(of_invariants(counter, each.invariants.as_slice()), cond);
    with_one(with(of_numbered(counter, &each.first), invariants))
}

impl<E, I, P> TBlock<E, I, P> {
    /// What the block counts: itself, its numbered statements, blocks and labels, and the nodes of what they hold. At 2^62 and above it is no
    /// promise.
    #[cycle(weighing)]
    pub fn weight<W: Counter<E, I, P>>(&self, counter: &W) -> u64
        ensures { weight_of_block (W.of_expr counter.now) (W.of_init counter.now) (W.of_pred counter.now) self.now < 2 ^ 62 →
            result ≡ weight_of_block (W.of_expr counter.now) (W.of_init counter.now) (W.of_pred counter.now) self.now }
    {
        with_one(of_stmts(counter, self.stmts.as_slice()))
    }
}

impl<E, I, P> TStmt<E, I, P> {
    /// What the statement counts. At 2^62 and above it is no promise.
    #[cycle(weighing)]
    pub fn weight<W: Counter<E, I, P>>(&self, counter: &W) -> u64
        ensures { weight_of_stmt (W.of_expr counter.now) (W.of_init counter.now) (W.of_pred counter.now) self.now < 2 ^ 62 →
            result ≡ weight_of_stmt (W.of_expr counter.now) (W.of_init counter.now) (W.of_pred counter.now) self.now }
    {
        match self {
            TStmt::Expr(_, e) => with_one(counter.expr(e)),
            TStmt::Init(_, _, init) => with_one(counter.init(init)),
            TStmt::Block(block) => block.weight(counter),
            TStmt::If(arms, otherwise) => {
                let tested = of_arms(counter, arms.as_slice());
                match otherwise {
                    None => tested,
                    Some(stmt) => with(tested, stmt.get().weight(counter)),
                }
            }
            TStmt::Loop(body) => of_loop(counter, body.get()),
            TStmt::Switch(_, e, body) => with_one(with(
                counter.expr(e),
                body.get().weight(counter),
            )),
            TStmt::Case(_, body) => with_one(body.get().weight(counter)),
            TStmt::Label(_, body) => with_one(body.get().weight(counter)),
            TStmt::Goto(_, _) => 1,
            TStmt::Break(_) => 1,
            TStmt::Continue(_) => 1,
            TStmt::Return(_, value) => with_one(of_optional(counter, value)),
            TStmt::Empty(_) => 1,
            TStmt::Assert(_, predicate) => with_one(counter.pred(predicate)),
        }
    }
}
