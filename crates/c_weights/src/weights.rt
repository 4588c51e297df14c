//! Weights of functions.
ghost use Rattle.std.specs.Prelude.{◌≡◌, ◌<◌, ◌^◌, ◌+◌, map, sum, None, Some, MatchOption};
ghost use Rattle.c_types.specs.Views.{type_of};
ghost use Rattle.c_typed_term.specs.Nodes.{nodes_of_contract};
ghost use Rattle.c_typed_stmt.specs.Weights.{counted};
ghost use Rattle.c_program.specs.StaticCalls.{is_func, KnowsNames};
ghost use Rattle.c_program.specs.Views.{base_of, program_of};
ghost use Rattle.c_program.specs.Weights as plain;
ghost use Rattle.c_weights.specs.Flags.{is_flagged, flag, flagged, flagged_weight};

use c_base::number::BaseId;
use c_program::base::BaseSort;
use c_program::program::{Base, Block, Function, TypedProgram};
use c_typed_expr::expr::TExpr;
use c_typed_expr::nodes::Callees;
use c_typed_stmt::init::{TInit, TInitItem};
use c_typed_stmt::weights::Counter;
use c_typed_term::contract::TContract;
use c_typed_term::predicate::TPred;
use c_types::count::{with, with_one};
use c_types::ctype::CType;

/// The bases of a program, which tell how many functions a call by a pointer may enter.
#[derive(Drop)]
struct Table<'a> {
    bases: &'a [Base],
}

fn is_function(sort: BaseSort) -> bool
    ensures { result ≡ is_func sort }
{
    matches!(sort, BaseSort::Func)
}

/// Whether a call by a pointer to a function of the type may enter the base.
fn is_entered(base: &Base, t: &CType) -> bool
    ensures { result ≡ is_flagged (type_of t.now) (base_of base.now) }
{
    if !is_function(base.sort) {
        return false;
    }
    if !base.named {
        return false;
    }
    base.ctype.is_compatible(t)
}

/// What the base adds to the count of those that such a call may enter.
fn flag(base: &Base, t: &CType) -> u64
    ensures { result ≡ flag (type_of t.now) base.now }
{
    if is_entered(base, t) { 1 } else { 0 }
}

impl<'a> Callees for Table<'a> {
    ghost counted = { λ table t. flagged table.bases.now t };

    fn count(&self, t: &CType) -> u64 {
        let mut total: u64 = 0;
        for each in self.bases {
            total = with(total, flag(each, t));
        }
        total
    }
}

impl<'a> Table<'a> {
    fn item(&self, item: &TInitItem) -> u64
        ensures { plain.item_nodes (flagged self.now.bases.now) item.now < 2 ^ 62 → result ≡ plain.item_nodes (flagged self.now.bases.now) item.now }
    {
        match item {
            TInitItem::Value(_, _, e) => e.get().nodes(self),
            TInitItem::Text(_) => 1,
        }
    }
}

impl<'a> Counter<TExpr, TInit, TPred> for Table<'a> {
    ghost use Rattle.c_typed_expr.specs.Nodes.{nodes};
    ghost use Rattle.c_typed_term.specs.Nodes.{nodes_of_predicate};

    ghost of_expr = { λ table e. nodes (flagged table.bases.now) e };

    ghost of_init = { λ table init. plain.init_nodes (flagged table.bases.now) init };

    ghost of_pred = { λ table p. nodes_of_predicate p };

    fn expr(&self, e: &TExpr) -> u64 {
        e.nodes(self)
    }

    fn init(&self, init: &TInit) -> u64 {
        let mut total: u64 = 0;
        for each in init.items.as_slice() {
            total = with(total, self.item(each));
        }
        total
    }

    fn pred(&self, p: &TPred) -> u64 {
        p.nodes()
    }
}

impl<'a> Table<'a> {
    fn contract(&self, contract: &Option<TContract>) -> u64
        ensures { counted nodes_of_contract contract.now < 2 ^ 62 → result ≡ counted nodes_of_contract contract.now }
    {
        match contract {
            None => 0,
            Some(contract) => contract.nodes(),
        }
    }

    fn body(&self, body: &Option<Block>) -> u64
        ensures { plain.body_weight (flagged self.now.bases.now) body.now < 2 ^ 62 → result ≡ plain.body_weight (flagged self.now.bases.now) body.now }
    {
        match body {
            None => 0,
            Some(block) => block.weight(self),
        }
    }

    fn function(&self, f: &Function) -> u64
        ensures { plain.function_weight (flagged self.now.bases.now) f.now < 2 ^ 62 → result ≡ plain.function_weight (flagged self.now.bases.now) f.now }
    {
        let contract = self.contract(&f.contract);
        with_one(with(self.body(&f.body), contract))
    }
}

fn found(all: &[Function], base: BaseId) -> Option<&Function>
    ensures { MatchOption result (plain.found_in all.now base.0 ≡ None) (λ f. plain.found_in all.now base.0 ≡ Some f.now) }
{
    for each in all {
        if each.base.0 == base.0 {
            return Some(each);
        }
    }
    None
}

fn table_of<'a>(p: &'a TypedProgram) -> Table<'a>
    ensures { result.bases.now ≡ p.now.bases }
{
    Table {
        bases: p.bases.as_slice(),
    }
}

fn function_of(p: &TypedProgram, f: BaseId) -> Option<&Function>
    ensures { MatchOption result (plain.found_in p.now.functions f.0 ≡ None) (λ found. plain.found_in p.now.functions f.0 ≡ Some found.now) }
{
    found(p.functions.as_slice(), f)
}

fn flagged_weight(p: &TypedProgram, f: BaseId) -> u64
    ensures { flagged_weight p.now f.0 < 2 ^ 62 → result ≡ flagged_weight p.now f.0 }
{
    match function_of(p, f) {
        None => 0,
        Some(function) => table_of(p).function(function),
    }
}

/// What the function counts for the work of an analysis: its numbered statements with its closing brace, its blocks and labels, the nodes of
/// its expressions and annotations, and for each call by a pointer the functions that it may enter. At 2^62 and above it is no promise.
pub fn weight(p: &TypedProgram, f: BaseId) -> u64
    ensures { KnowsNames (program_of p.now) → plain.weight p.now f.0 < 2 ^ 62 → result ≡ plain.weight p.now f.0 }
{
    flagged_weight(p, f)
}
