//! Statements over rows: what arrives at each of their places, until nothing more arrives.
ghost use Rattle.std.specs.Prelude.{◌≡◌, ◌<◌, ◌^◌, ◌+◌, suc, ◌∷◌, [], length, map, IfOk};
ghost use Rattle.first_program.specs.Source.{Assign, Return, While, Nothing, count, count_all};
ghost use Rattle.first_program.specs.SourceViews.{sum_tree, test_tree, tree_of, trees_of};
ghost use Rattle.first_analysis.specs.Tables.{Flows, FlowsAll, ArmFlows, LadderFlows, choice, last_of};

use crate::place::{MOST_UPDATES, Place};
use crate::row::{Reached, join};
use c_base::number::BaseId;
use first_program::tree::{Arm, Stmt, Sum, Test};
use sqlite_items::Boxed;
use std::alloc::{AllocError, Global};

#[cycle(counting)]
fn count_arms(arms: &[Arm]) -> usize
    ensures { count (choice arms.now Nothing) < 2 ^ 62 → result ≡ count (choice arms.now Nothing) }
{
    let mut total: usize = 0;
    for arm in arms {
        total = total.saturating_add(1).saturating_add(count_of(&arm.body));
    }
    total
}

/// How many numbered statements these have.
#[cycle(counting)]
pub fn count_list(stmts: &[Stmt]) -> usize
    ensures { count_all (trees_of stmts.now) < 2 ^ 62 → result ≡ count_all (trees_of stmts.now) }
{
    let mut total: usize = 0;
    for stmt in stmts {
        total = total.saturating_add(count_of(stmt));
    }
    total
}

/// How many numbered statements a statement has.
#[tactic(auto, using(crate::proofs::Counts::count_if))]
#[cycle(counting)]
pub fn count_of(stmt: &Stmt) -> usize
    ensures { count (tree_of stmt.now) < 2 ^ 62 → result ≡ count (tree_of stmt.now) }
{
    match stmt {
        Stmt::Assign {
            target: _,
            value: _,
        } => 1,
        Stmt::Return(_) => 1,
        Stmt::If { arms, otherwise } => {
            let tests = count_arms(arms.as_slice());
            match otherwise {
                None => tests,
                Some(last) => tests.saturating_add(count_of(last.get())),
            }
        }
        Stmt::While { test: _, body } => count_of(body.get()).saturating_add(1),
        Stmt::Block(stmts) => count_list(stmts.as_slice()),
    }
}

// A row arrives at an assignment, and goes on behind it.
fn assignment(
    alloc: Global,
    places: &mut [Place],
    before: Reached,
    target: BaseId,
    value: &Sum,
) -> Result<Reached, AllocError>
    requires { length places.old ≡ 1 }
    ensures { IfOk result (λ after. Flows (Assign target (sum_tree value.now)) places.new before after) }
{
    places[0].arrive(alloc, &before, None)?;
    places[0].assign(alloc, target, value)
}

// A row arrives at a `return`, behind which nothing is reached.
fn giving(
    alloc: Global,
    places: &mut [Place],
    before: Reached,
    value: &Sum,
) -> Result<Reached, AllocError>
    requires { length places.old ≡ 1 }
    ensures { IfOk result (λ after. Flows (Return (sum_tree value.now)) places.new before after) }
{
    places[0].arrive(alloc, &before, None)?;
    places[0].give(value);
    Ok(None)
}

/// Carries a row through statements, with the places of their numbered statements in order: the row behind them.
#[cycle(flowing)]
pub fn statements(
    alloc: Global,
    stmts: &[Stmt],
    places: &mut [Place],
    before: Reached,
    marks: &[i64],
) -> Result<Reached, AllocError>
    requires { length places.old ≡ count_all (trees_of stmts.now) }
    ensures { IfOk result (λ after. FlowsAll (trees_of stmts.now) places.new before after) }
{
    let mut row = before;
    let mut at = 0;
    for stmt in stmts {
        let end = at + count_of(stmt);
        row = statement(alloc, stmt, &mut places[at..end], row, marks)?;
        at = end;
    }
    Ok(row)
}

// A loop: its head and its body, until the head's row has all that comes back to it.
#[cycle(flowing)]
fn repeat(
    alloc: Global,
    body: &Stmt,
    test: &Test,
    head: &mut Place,
    places: &mut [Place],
    before: &Reached,
    marks: &[i64],
) -> Result<Reached, AllocError>
    requires { length places.old ≡ count (tree_of body.now) }
    ensures { IfOk result (λ after. Flows (While (test_tree test.now) (tree_of body.now)) (head.new ∷ places.new) before.now after) }
{
    head.arrive(alloc, before, Some(marks))?;
    for _ in 0..MOST_UPDATES {
        let branches = head.branch(alloc, test)?;
        let back = statement(alloc, body, places, branches.when_true, marks)?;
        if head.admits(&back) {
            return Ok(branches.when_false);
        }
        head.arrive(alloc, &back, Some(marks))?;
    }
    head.open(alloc)?;
    let branches = head.branch(alloc, test)?;
    let _back = statement(alloc, body, places, branches.when_true, marks)?;
    Ok(branches.when_false)
}

// The rows behind an `if` whose test is true, and where its test is false.
#[derive(Drop)]
struct Taken {
    left: Reached,
    other: Reached,
}

#[cycle(flowing)]
fn take_arm(
    alloc: Global,
    arm: &Arm,
    places: &mut [Place],
    before: Reached,
    marks: &[i64],
) -> Result<Taken, AllocError>
    requires { length places.old ≡ suc (count (tree_of arm.now.body)) }
    ensures { IfOk result (λ t. ArmFlows (test_tree arm.now.test) (tree_of arm.now.body) places.new before t.left t.other) }
{
    let (heads, rest) = places.split_at_mut(1);
    heads[0].arrive(alloc, &before, None)?;
    let branches = heads[0].branch(alloc, &arm.test)?;
    let left = statement(alloc, &arm.body, rest, branches.when_true, marks)?;
    Ok(Taken {
        left,
        other: branches.when_false,
    })
}

// What the tests of a ladder leave: the row where all are false, and what its branches lead to.
#[derive(Drop)]
struct Ladder {
    state: Reached,
    out: Reached,
}

#[tactic(auto, using(crate::proofs::Steps::arms_counted))]
#[cycle(flowing)]
fn take_arms(
    alloc: Global,
    arms: &[Arm],
    places: &mut [Place],
    before: Reached,
    marks: &[i64],
) -> Result<Ladder, AllocError>
    requires { length places.old ≡ count (choice arms.now Nothing) }
    ensures { IfOk result (λ l. LadderFlows arms.now places.new before l.state l.out) }
{
    let mut state = before;
    let mut out: Reached = None;
    let mut at = 0;
    for arm in arms {
        let end = at + 1 + count_of(&arm.body);
        let taken = take_arm(alloc, arm, &mut places[at..end], state, marks)?;
        out = join(alloc, out, taken.left)?;
        state = taken.other;
        at = end;
    }
    Ok(Ladder { state, out })
}

/// Carries a row through a statement, with the places of its numbered statements in order: the row behind it.
#[tactic(auto, using(crate::proofs::Counts::count_if))]
#[cycle(flowing)]
pub fn statement(
    alloc: Global,
    stmt: &Stmt,
    places: &mut [Place],
    before: Reached,
    marks: &[i64],
) -> Result<Reached, AllocError>
    requires { length places.old ≡ count (tree_of stmt.now) }
    ensures { IfOk result (λ after. Flows (tree_of stmt.now) places.new before after) }
{
    match stmt {
        Stmt::Assign { target, value } => assignment(alloc, places, before, *target, value),
        Stmt::Return(value) => giving(alloc, places, before, value),
        Stmt::If { arms, otherwise } => {
            let (tests, rest) = places.split_at_mut(count_arms(arms.as_slice()));
            let ladder = take_arms(alloc, arms.as_slice(), tests, before, marks)?;
            match otherwise {
                None => join(alloc, ladder.out, ladder.state),
                Some(last) => {
                    let right = statement(alloc, last.get(), rest, ladder.state, marks)?;
                    join(alloc, ladder.out, right)
                }
            }
        }
        Stmt::While { test, body } => {
            let (heads, rest) = places.split_at_mut(1);
            repeat(alloc, body.get(), test, &mut heads[0], rest, &before, marks)
        }
        Stmt::Block(stmts) => statements(alloc, stmts.as_slice(), places, before, marks),
    }
}
