//! How deep declarations, statements and units are.
ghost use Rattle.std.specs.Prelude.{◌≡◌, ◌<◌, ◌^◌, map, option_map};
ghost use Rattle.grammar.specs.Reading.{groups};
ghost use Rattle.grammar.specs.Spelling.{nest, nest_all};
ghost use Rattle.c_grammar.specs.Leaves.{C};
ghost use Rattle.c_grammar.specs.Units.{nesting};
ghost use Rattle.c_unit_tree.specs.declared.unit.External.TheVariants as external;
ghost use Rattle.c_unit_tree.specs.Views.{arm_kids, block_item_kids, braces_tree, declaration_tree, declarators_of, designation_of, designator_kids, external_kids, external_tree, first_kids, init_kids, initialiser_kids, initialiser_of, item_kids, last_of, optional_value, statement_tree, unit_kids};

use c_tree::depth::{above, declarator, expr, specifiers};
use c_tree::tree::{Attribute, Expr};
use c_unit_tree::declaration::{
    Braces, Declaration, Designator, InitDeclarator, Initialiser, Item,
};
use c_unit_tree::statement::{Arm, BlockItem, First, Statement};
use c_unit_tree::unit::{External, Function, Unit, UnitItem, UnitStatement};
use sqlite_items::Boxed;

type UnitArm = Arm<Expr, Declaration, Attribute>;

// ---- initialisers

fn designator(tree: &Designator<Expr>) -> usize
    ensures { nest_all C (designator_kids tree.now) < 2 ^ 62 → result ≡ nest_all C (designator_kids tree.now) }
{
    match tree {
        Designator::Index(index) => expr(index),
        Designator::Member(_) => 0,
    }
}

fn designators(all: &[Designator<Expr>]) -> usize
    ensures { nest_all C (groups C (map designator_kids all.now)) < 2 ^ 62 → result ≡ nest_all C (groups C (map designator_kids all.now)) }
{
    let mut deepest: usize = 0;
    for each in all {
        deepest = deepest.max(designator(each));
    }
    deepest
}

// Designators of an item, which are a part of it where there are any.
fn designation(all: &[Designator<Expr>]) -> usize
    ensures { nest C (designation_of all.now) < 2 ^ 62 → result ≡ nest C (designation_of all.now) }
{
    match all.split_first() {
        None => 0,
        Some(_) => designators(all),
    }
}

#[cycle(initialiser_nesting)]
fn item(tree: &Item<Expr>) -> usize
    ensures { nest_all C (item_kids tree.now) < 2 ^ 62 → result ≡ nest_all C (item_kids tree.now) }
{
    designation(tree.designators.as_slice()).max(initialiser(&tree.value))
}

#[cycle(initialiser_nesting)]
fn items(all: &[Item<Expr>]) -> usize
    ensures { nest_all C (groups C (map item_kids all.now)) < 2 ^ 62 → result ≡ nest_all C (groups C (map item_kids all.now)) }
{
    let mut deepest: usize = 0;
    for each in all {
        deepest = deepest.max(item(each));
    }
    deepest
}

#[cycle(initialiser_nesting)]
fn braces(tree: &Braces<Expr>) -> usize
    ensures { nest C (braces_tree tree.now) < 2 ^ 62 → result ≡ nest C (braces_tree tree.now) }
{
    above(items(tree.items.as_slice()))
}

#[cycle(initialiser_nesting)]
fn initialiser(tree: &Initialiser<Expr>) -> usize
    ensures { nest_all C (initialiser_kids tree.now) < 2 ^ 62 → result ≡ nest_all C (initialiser_kids tree.now) }
{
    match tree {
        Initialiser::Expression(value) => expr(value),
        Initialiser::Braces(inner) => braces(inner),
    }
}

// ---- declarations

fn value(tree: &Option<Initialiser<Expr>>) -> usize
    ensures { nest C (initialiser_of tree.now) < 2 ^ 62 → result ≡ nest C (initialiser_of tree.now) }
{
    match tree {
        None => 0,
        Some(found) => initialiser(found),
    }
}

fn init(tree: &InitDeclarator) -> usize
    ensures { nest_all C (init_kids tree.now) < 2 ^ 62 → result ≡ nest_all C (init_kids tree.now) }
{
    declarator(&tree.declarator).max(value(&tree.rest.initialiser))
}

fn inits(all: &[InitDeclarator]) -> usize
    ensures { nest_all C (groups C (map init_kids all.now)) < 2 ^ 62 → result ≡ nest_all C (groups C (map init_kids all.now)) }
{
    let mut deepest: usize = 0;
    for each in all {
        deepest = deepest.max(init(each));
    }
    deepest
}

// Declarators of a declaration, which are a part of it where there are any.
fn declarators(all: &[InitDeclarator]) -> usize
    ensures { nest C (declarators_of all.now) < 2 ^ 62 → result ≡ nest C (declarators_of all.now) }
{
    match all.split_first() {
        None => 0,
        Some(_) => inits(all),
    }
}

fn declaration(tree: &Declaration) -> usize
    ensures { nest C (declaration_tree tree.now) < 2 ^ 62 → result ≡ nest C (declaration_tree tree.now) }
{
    match tree {
        Declaration::Declarators {
            span: _,
            specifiers: all,
            declarators: named,
        } => above(specifiers(all.as_slice()).max(declarators(named.as_slice()))),
        Declaration::Assertion {
            span: _,
            condition,
            literals: _,
        } => above(expr(condition)),
    }
}

// ---- statements

fn optional(tree: &Option<Expr>) -> usize
    ensures { nest C (optional_value tree.now) < 2 ^ 62 → result ≡ nest C (optional_value tree.now) }
{
    match tree {
        None => 0,
        Some(found) => expr(found),
    }
}

fn first(tree: &First<Expr, Declaration>) -> usize
    ensures { nest_all C (first_kids tree.now) < 2 ^ 62 → result ≡ nest_all C (first_kids tree.now) }
{
    match tree {
        First::Declaration(inner) => declaration(inner),
        First::Expression(inner) => optional(inner),
    }
}

#[cycle(statement_nesting)]
fn block_item(tree: &UnitItem) -> usize
    ensures { nest_all C (block_item_kids tree.now) < 2 ^ 62 → result ≡ nest_all C (block_item_kids tree.now) }
{
    match tree {
        BlockItem::Declaration(inner) => declaration(inner),
        BlockItem::Statement(inner) => statement(inner),
    }
}

#[cycle(statement_nesting)]
fn block_items(all: &[UnitItem]) -> usize
    ensures { nest_all C (groups C (map block_item_kids all.now)) < 2 ^ 62 → result ≡ nest_all C (groups C (map block_item_kids all.now)) }
{
    let mut deepest: usize = 0;
    for each in all {
        deepest = deepest.max(block_item(each));
    }
    deepest
}

#[cycle(statement_nesting)]
fn arm(tree: &UnitArm) -> usize
    ensures { nest_all C (arm_kids tree.now) < 2 ^ 62 → result ≡ nest_all C (arm_kids tree.now) }
{
    expr(&tree.condition).max(statement(&tree.branch))
}

#[cycle(statement_nesting)]
fn arms(all: &[UnitArm]) -> usize
    ensures { nest_all C (groups C (map arm_kids all.now)) < 2 ^ 62 → result ≡ nest_all C (groups C (map arm_kids all.now)) }
{
    let mut deepest: usize = 0;
    for each in all {
        deepest = deepest.max(arm(each));
    }
    deepest
}

#[cycle(statement_nesting)]
fn last(tree: &Option<Boxed<UnitStatement>>) -> usize
    ensures { nest C (last_of (option_map statement_tree tree.now)) < 2 ^ 62 → result ≡ nest C (last_of (option_map statement_tree tree.now)) }
{
    match tree {
        None => 0,
        Some(found) => statement(found.get()),
    }
}

#[cycle(statement_nesting)]
fn statement(tree: &UnitStatement) -> usize
    ensures { nest C (statement_tree tree.now) < 2 ^ 62 → result ≡ nest C (statement_tree tree.now) }
{
    match tree {
        Statement::Block { span: _, items } => above(block_items(items.as_slice())),
        Statement::Expression { span: _, value } => above(optional(value)),
        Statement::Attribute {
            span: _,
            attribute: _,
        } => 1,
        Statement::If {
            span: _,
            condition,
            branch,
            more,
            otherwise,
        } => {
            let behind = arms(more.as_slice()).max(last(otherwise));
            above(expr(condition).max(statement(branch.get()).max(behind)))
        }
        Statement::Switch {
            span: _,
            value,
            body,
        } => above(expr(value).max(statement(body.get()))),
        Statement::While {
            span: _,
            condition,
            body,
        } => above(expr(condition).max(statement(body.get()))),
        Statement::Do {
            span: _,
            body,
            place: _,
            condition,
        } => above(statement(body.get()).max(expr(condition))),
        Statement::For {
            span: _,
            first: begin,
            second,
            third,
            body,
        } => {
            let behind = optional(third).max(statement(body.get()));
            above(first(begin).max(optional(second).max(behind)))
        }
        Statement::Goto { span: _, name: _ } => 1,
        Statement::Continue { span: _ } => 1,
        Statement::Break { span: _ } => 1,
        Statement::Return { span: _, value } => above(optional(value)),
        Statement::Label {
            span: _,
            name: _,
            labelled,
        } => above(statement(labelled.get())),
        Statement::Case {
            span: _,
            value,
            labelled,
        } => above(expr(value).max(statement(labelled.get()))),
        Statement::Default { span: _, labelled } => above(statement(labelled.get())),
    }
}

// ---- units

fn function(tree: &Function) -> usize
    ensures { nest C (external_tree (external.Function tree.now)) < 2 ^ 62 → result ≡ nest C (external_tree (external.Function tree.now)) }
{
    let body = above(block_items(tree.body.items.as_slice()));
    above(specifiers(tree.specifiers.as_slice()).max(declarator(&tree.declarator).max(body)))
}

// The first declarator of an external declaration stands apart in the grammar, which makes it no deeper.
fn external(tree: &External) -> usize
    ensures { nest C (external_tree tree.now) < 2 ^ 62 → result ≡ nest C (external_tree tree.now) }
{
    match tree {
        External::Empty { span: _ } => 1,
        External::Declaration(inner) => declaration(inner),
        External::Function(inner) => function(inner),
    }
}

fn externals(all: &[External]) -> usize
    ensures { nest_all C (groups C (map external_kids all.now)) < 2 ^ 62 → result ≡ nest_all C (groups C (map external_kids all.now)) }
{
    let mut deepest: usize = 0;
    for each in all {
        deepest = deepest.max(external(each));
    }
    deepest
}

fn unit(tree: &Unit) -> usize
    ensures { nest_all C (unit_kids tree.now) < 2 ^ 62 → result ≡ nest_all C (unit_kids tree.now) }
{
    externals(tree.externals.as_slice())
}

/// How many nodes the longest path has from an external declaration.
pub fn nesting(tree: &Unit) -> u32
    ensures { nesting (unit_kids tree.now) < 2 ^ 32 → result ≡ nesting (unit_kids tree.now) }
{
    let deepest = unit(tree);
    if deepest < 0x1_0000_0000 {
        deepest as u32
    } else {
        u32::MAX
    }
}
