//! How deep trees are.
ghost use Rattle.std.specs.Prelude.{◌≡◌, ◌<◌, ◌^◌, suc};
ghost use Rattle.c_tree.specs.Nesting.{nest, nest_all, nest_below, nodes_of_core};
ghost use Rattle.c_tree.specs.Views.{tree_of, part_tree, type_name_tree, specifier_tree, member_tree, field_tree, declarator_tree, core_tree, suffix_tree, exprs_of, parts_of, operands_of, specifiers_of, enumerators_of, members_of, fields_of, suffixes_of, parameters_of, optional_expr, optional_declarator};

use crate::tree::{
    Core, Declarator, Enumerator, Expr, Field, Member, Operand, PostfixPart, Specifier, Suffix,
    TypeName,
};

/// A node above what is so deep.
pub fn above(deepest: usize) -> usize
    ensures { deepest < 2 ^ 62 → result ≡ suc deepest }
{
    deepest.saturating_add(1)
}

#[cycle(nesting)]
fn value(tree: &Option<Expr>) -> usize
    ensures { nest_all (optional_expr tree.now) < 2 ^ 62 → result ≡ nest_all (optional_expr tree.now) }
{
    match tree {
        None => 0,
        Some(found) => expr(found),
    }
}

#[cycle(nesting)]
fn declarator_where(tree: &Option<Declarator>) -> usize
    ensures { nest_all (optional_declarator tree.now) < 2 ^ 62 → result ≡ nest_all (optional_declarator tree.now) }
{
    match tree {
        None => 0,
        Some(found) => declarator(found),
    }
}

#[cycle(nesting)]
fn exprs(all: &[Expr]) -> usize
    ensures { nest_all (exprs_of all.now) < 2 ^ 62 → result ≡ nest_all (exprs_of all.now) }
{
    let mut deepest: usize = 0;
    for each in all {
        deepest = deepest.max(expr(each));
    }
    deepest
}

#[cycle(nesting)]
fn part(tree: &PostfixPart) -> usize
    ensures { nest (part_tree tree.now) < 2 ^ 62 → result ≡ nest (part_tree tree.now) }
{
    match tree {
        PostfixPart::Index(index) => expr(index),
        PostfixPart::Call {
            opening: _,
            arguments,
        } => exprs(arguments.as_slice()),
        PostfixPart::Member(_) => 0,
        PostfixPart::Arrow(_) => 0,
        PostfixPart::Increment => 0,
        PostfixPart::Decrement => 0,
    }
}

#[cycle(nesting)]
fn parts(all: &[PostfixPart]) -> usize
    ensures { nest_all (parts_of all.now) < 2 ^ 62 → result ≡ nest_all (parts_of all.now) }
{
    let mut deepest: usize = 0;
    for each in all {
        deepest = deepest.max(part(each));
    }
    deepest
}

#[cycle(nesting)]
fn operands(all: &[Operand]) -> usize
    ensures { nest_all (operands_of all.now) < 2 ^ 62 → result ≡ nest_all (operands_of all.now) }
{
    let mut deepest: usize = 0;
    for each in all {
        deepest = deepest.max(expr(&each.operand));
    }
    deepest
}

/// How deep an expression is.
#[cycle(nesting)]
pub fn expr(tree: &Expr) -> usize
    ensures { nest (tree_of tree.now) < 2 ^ 62 → result ≡ nest (tree_of tree.now) }
{
    match tree {
        Expr::Name { span: _, name: _ } => 1,
        Expr::Integer {
            span: _,
            constant: _,
        } => 1,
        Expr::Floating { span: _ } => 1,
        Expr::Character { span: _, byte: _ } => 1,
        Expr::Text {
            span: _,
            literals: _,
        } => 1,
        Expr::Parenthesised { span: _, inner } => above(expr(inner.get())),
        Expr::Postfix {
            span: _,
            first,
            parts: all,
        } => above(expr(first.get()).max(parts(all.as_slice()))),
        Expr::Prefix {
            span: _,
            operator: _,
            operand,
        } => above(expr(operand.get())),
        Expr::OfType {
            span: _,
            operator: _,
            type_name: asked,
        } => above(type_name(asked.get())),
        Expr::Offsetof {
            span: _,
            type_name: asked,
            member: _,
        } => above(type_name(asked.get())),
        Expr::Cast {
            span: _,
            type_name: target,
            operand,
        } => above(type_name(target.get()).max(expr(operand.get()))),
        Expr::Run {
            span: _,
            first,
            more,
        } => above(expr(first.get()).max(operands(more.as_slice()))),
        Expr::Conditional {
            span: _,
            condition,
            when_true,
            when_false,
        } => {
            let branches = expr(when_true.get()).max(expr(when_false.get()));
            above(expr(condition.get()).max(branches))
        }
        Expr::Assignment {
            span: _,
            target,
            operator: _,
            value: assigned,
        } => above(expr(target.get()).max(expr(assigned.get()))),
        Expr::Comma {
            span: _,
            first,
            more,
        } => above(expr(first.get()).max(exprs(more.as_slice()))),
    }
}

#[cycle(nesting)]
fn parameters(all: &[TypeName]) -> usize
    ensures { nest_all (parameters_of all.now) < 2 ^ 62 → result ≡ nest_all (parameters_of all.now) }
{
    let mut deepest: usize = 0;
    for each in all {
        deepest = deepest.max(type_name(each));
    }
    deepest
}

#[cycle(nesting)]
fn suffix(tree: &Suffix) -> usize
    ensures { nest (suffix_tree tree.now) < 2 ^ 62 → result ≡ nest (suffix_tree tree.now) }
{
    match tree {
        Suffix::Array {
            span: _,
            qualifiers: _,
            bound,
        } => value(bound),
        Suffix::Function {
            span: _,
            parameters: all,
            variadic: _,
        } => parameters(all.as_slice()),
    }
}

// Suffixes, of which each is a node below the one before it.
#[cycle(nesting)]
fn suffixes(all: &[Suffix]) -> usize
    ensures { nest_below (suffixes_of all.now) < 2 ^ 62 → result ≡ nest_below (suffixes_of all.now) }
{
    let mut level: usize = 0;
    let mut deepest: usize = 0;
    for each in all {
        level = level.saturating_add(1);
        deepest = deepest.max(suffix(each).saturating_add(level));
    }
    deepest.max(level)
}

#[cycle(nesting)]
fn core(tree: &Core) -> usize
    ensures { nest (core_tree tree.now) < 2 ^ 62 → result ≡ nest (core_tree tree.now) }
{
    match tree {
        Core::Absent => 0,
        Core::Named { span: _, name: _ } => 0,
        Core::Group { span: _, inner } => declarator(inner.get()),
    }
}

fn core_nodes(tree: &Core) -> usize
    ensures { result ≡ nodes_of_core (core_tree tree.now) }
{
    match tree {
        Core::Absent => 0,
        Core::Named { span: _, name: _ } => 0,
        Core::Group { span: _, inner: _ } => 1,
    }
}

/// How deep a declarator is.
#[cycle(nesting)]
pub fn declarator(tree: &Declarator) -> usize
    ensures { nest (declarator_tree tree.now) < 2 ^ 62 → result ≡ nest (declarator_tree tree.now) }
{
    let behind = core_nodes(&tree.core).saturating_add(suffixes(tree.suffixes.as_slice()));
    let below = core(&tree.core).max(behind);
    above(tree.pointers.len().saturating_add(below))
}

#[cycle(nesting)]
fn field(tree: &Field) -> usize
    ensures { nest (field_tree tree.now) < 2 ^ 62 → result ≡ nest (field_tree tree.now) }
{
    match tree {
        Field::Declared {
            span: _,
            declarator: named,
            width,
            attributes: _,
        } => declarator(named).max(value(width)),
        Field::Padding { span: _, width } => expr(width),
    }
}

#[cycle(nesting)]
fn fields(all: &[Field]) -> usize
    ensures { nest_all (fields_of all.now) < 2 ^ 62 → result ≡ nest_all (fields_of all.now) }
{
    let mut deepest: usize = 0;
    for each in all {
        deepest = deepest.max(field(each));
    }
    deepest
}

#[cycle(nesting)]
fn member(tree: &Member) -> usize
    ensures { nest (member_tree tree.now) < 2 ^ 62 → result ≡ nest (member_tree tree.now) }
{
    match tree {
        Member::Fields {
            span: _,
            specifiers: all,
            fields: named,
        } => above(specifiers(all.as_slice()).max(fields(named.as_slice()))),
        Member::Assertion {
            span: _,
            condition,
            literals: _,
        } => above(expr(condition)),
    }
}

#[cycle(nesting)]
fn members(all: &[Member]) -> usize
    ensures { nest_all (members_of all.now) < 2 ^ 62 → result ≡ nest_all (members_of all.now) }
{
    let mut deepest: usize = 0;
    for each in all {
        deepest = deepest.max(member(each));
    }
    deepest
}

#[cycle(nesting)]
fn enumerators(all: &[Enumerator]) -> usize
    ensures { nest_all (enumerators_of all.now) < 2 ^ 62 → result ≡ nest_all (enumerators_of all.now) }
{
    let mut deepest: usize = 0;
    for each in all {
        deepest = deepest.max(value(&each.value));
    }
    deepest
}

#[cycle(nesting)]
fn specifier(tree: &Specifier) -> usize
    ensures { nest (specifier_tree tree.now) < 2 ^ 62 → result ≡ nest (specifier_tree tree.now) }
{
    match tree {
        Specifier::Keyword {
            span: _,
            keyword: _,
        } => 0,
        Specifier::Typedef { span: _, name: _ } => 0,
        Specifier::Attribute(_) => 0,
        Specifier::CompositeTag {
            span: _,
            sort: _,
            attributes: _,
            tag: _,
        } => 1,
        Specifier::Composite {
            span: _,
            sort: _,
            attributes: _,
            tag: _,
            members: all,
            trailing: _,
        } => above(members(all.as_slice())),
        Specifier::EnumTag { span: _, tag: _ } => 1,
        Specifier::Enum {
            span: _,
            tag: _,
            enumerators: all,
            comma: _,
        } => above(enumerators(all.as_slice())),
    }
}

/// How deep the deepest of some specifiers is.
#[cycle(nesting)]
pub fn specifiers(all: &[Specifier]) -> usize
    ensures { nest_all (specifiers_of all.now) < 2 ^ 62 → result ≡ nest_all (specifiers_of all.now) }
{
    let mut deepest: usize = 0;
    for each in all {
        deepest = deepest.max(specifier(each));
    }
    deepest
}

#[cycle(nesting)]
fn type_name(tree: &TypeName) -> usize
    ensures { nest (type_name_tree tree.now) < 2 ^ 62 → result ≡ nest (type_name_tree tree.now) }
{
    above(specifiers(tree.specifiers.as_slice()).max(declarator_where(&tree.declarator)))
}

impl Expr {
    /// How many nodes the longest path into the expression has.
    pub fn nesting(&self) -> u32
        ensures { nest (tree_of self.now) < 2 ^ 32 → result ≡ nest (tree_of self.now) }
    {
        let deepest = expr(self);
        if deepest < 0x1_0000_0000 {
            deepest as u32
        } else {
            u32::MAX
        }
    }
}
