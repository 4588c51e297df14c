//! Declares what trees declare for what stands behind them: the constants of their enumerations (C11 6.2.1p7).
ghost use Rattle.std.specs.Prelude.{◌≡◌, OnOk};
ghost use Rattle.c_tree.specs.Views.{tree_of, part_tree, type_name_tree, specifier_tree, enumerator_tree, member_tree, field_tree, declarator_tree, core_tree, suffix_tree, exprs_of, parts_of, operands_of, specifiers_of, enumerators_of, members_of, fields_of, suffixes_of, optional_expr, optional_declarator};
ghost use Rattle.c_tree.specs.WellFormed.{after, after_all};
ghost use Rattle.c_parse_base.specs.KnownNames.{kept};

use c_parse_base::names::TypeNames;
use c_tree::tree::{
    Core, Declarator, Enumerator, Expr, Field, Member, Operand, PostfixPart, Specifier, Suffix,
    TypeName,
};
use std::alloc::{AllocError, Global};

#[cycle(behind)]
fn value(alloc: Global, names: &mut TypeNames, tree: &Option<Expr>) -> Result<(), AllocError>
    ensures names { OnOk result (names.new.names ≡ after_all names.old.names (optional_expr tree.now)) }
    ensures kept { kept names.new ≡ kept names.old }
{
    match tree {
        None => Ok(()),
        Some(found) => expr(alloc, names, found),
    }
}

/// What a declarator declares, where there is one.
#[cycle(behind)]
pub fn declarator_where(
    alloc: Global,
    names: &mut TypeNames,
    tree: &Option<Declarator>,
) -> Result<(), AllocError>
    ensures names { OnOk result (names.new.names ≡ after_all names.old.names (optional_declarator tree.now)) }
    ensures kept { kept names.new ≡ kept names.old }
{
    match tree {
        None => Ok(()),
        Some(found) => declarator(alloc, names, found),
    }
}

#[cycle(behind)]
fn exprs(alloc: Global, names: &mut TypeNames, all: &[Expr]) -> Result<(), AllocError>
    ensures names { OnOk result (names.new.names ≡ after_all names.old.names (exprs_of all.now)) }
    ensures kept { kept names.new ≡ kept names.old }
{
    for each in all {
        expr(alloc, names, each)?;
    }
    Ok(())
}

#[cycle(behind)]
fn part(alloc: Global, names: &mut TypeNames, tree: &PostfixPart) -> Result<(), AllocError>
    ensures names { OnOk result (names.new.names ≡ after names.old.names (part_tree tree.now)) }
    ensures kept { kept names.new ≡ kept names.old }
{
    match tree {
        PostfixPart::Index(index) => expr(alloc, names, index),
        PostfixPart::Call {
            opening: _,
            arguments,
        } => exprs(alloc, names, arguments.as_slice()),
        PostfixPart::Member(_) => Ok(()),
        PostfixPart::Arrow(_) => Ok(()),
        PostfixPart::Increment => Ok(()),
        PostfixPart::Decrement => Ok(()),
    }
}

#[cycle(behind)]
fn parts(alloc: Global, names: &mut TypeNames, all: &[PostfixPart]) -> Result<(), AllocError>
    ensures names { OnOk result (names.new.names ≡ after_all names.old.names (parts_of all.now)) }
    ensures kept { kept names.new ≡ kept names.old }
{
    for each in all {
        part(alloc, names, each)?;
    }
    Ok(())
}

#[cycle(behind)]
fn operands(alloc: Global, names: &mut TypeNames, all: &[Operand]) -> Result<(), AllocError>
    ensures names { OnOk result (names.new.names ≡ after_all names.old.names (operands_of all.now)) }
    ensures kept { kept names.new ≡ kept names.old }
{
    for each in all {
        expr(alloc, names, &each.operand)?;
    }
    Ok(())
}

#[cycle(behind)]
fn expr(alloc: Global, names: &mut TypeNames, tree: &Expr) -> Result<(), AllocError>
    ensures names { OnOk result (names.new.names ≡ after names.old.names (tree_of tree.now)) }
    ensures kept { kept names.new ≡ kept names.old }
{
    match tree {
        Expr::Name { span: _, name: _ } => Ok(()),
        Expr::Integer {
            span: _,
            constant: _,
        } => Ok(()),
        Expr::Floating { span: _ } => Ok(()),
        Expr::Character { span: _, byte: _ } => Ok(()),
        Expr::Text {
            span: _,
            literals: _,
        } => Ok(()),
        Expr::Parenthesised { span: _, inner } => expr(alloc, names, inner.get()),
        Expr::Postfix {
            span: _,
            first,
            parts: all,
        } => {
            expr(alloc, names, first.get())?;
            parts(alloc, names, all.as_slice())
        }
        Expr::Prefix {
            span: _,
            operator: _,
            operand,
        } => expr(alloc, names, operand.get()),
        Expr::OfType {
            span: _,
            operator: _,
            type_name: asked,
        } => type_name(alloc, names, asked.get()),
        Expr::Offsetof {
            span: _,
            type_name: asked,
            member: _,
        } => type_name(alloc, names, asked.get()),
        Expr::Cast {
            span: _,
            type_name: target,
            operand,
        } => {
            type_name(alloc, names, target.get())?;
            expr(alloc, names, operand.get())
        }
        Expr::Run {
            span: _,
            first,
            more,
        } => {
            expr(alloc, names, first.get())?;
            operands(alloc, names, more.as_slice())
        }
        Expr::Conditional {
            span: _,
            condition,
            when_true,
            when_false,
        } => {
            expr(alloc, names, condition.get())?;
            expr(alloc, names, when_true.get())?;
            expr(alloc, names, when_false.get())
        }
        Expr::Assignment {
            span: _,
            target,
            operator: _,
            value: assigned,
        } => {
            expr(alloc, names, target.get())?;
            expr(alloc, names, assigned.get())
        }
        Expr::Comma {
            span: _,
            first,
            more,
        } => {
            expr(alloc, names, first.get())?;
            exprs(alloc, names, more.as_slice())
        }
    }
}

// What a parameter list declares ends with it (C11 6.2.1p4).
#[cycle(behind)]
fn suffix(alloc: Global, names: &mut TypeNames, tree: &Suffix) -> Result<(), AllocError>
    ensures names { OnOk result (names.new.names ≡ after names.old.names (suffix_tree tree.now)) }
    ensures kept { kept names.new ≡ kept names.old }
{
    match tree {
        Suffix::Array {
            span: _,
            qualifiers: _,
            bound,
        } => value(alloc, names, bound),
        Suffix::Function {
            span: _,
            parameters: _,
            variadic: _,
        } => Ok(()),
    }
}

#[cycle(behind)]
fn suffixes(alloc: Global, names: &mut TypeNames, all: &[Suffix]) -> Result<(), AllocError>
    ensures names { OnOk result (names.new.names ≡ after_all names.old.names (suffixes_of all.now)) }
    ensures kept { kept names.new ≡ kept names.old }
{
    for each in all {
        suffix(alloc, names, each)?;
    }
    Ok(())
}

#[cycle(behind)]
fn core(alloc: Global, names: &mut TypeNames, tree: &Core) -> Result<(), AllocError>
    ensures names { OnOk result (names.new.names ≡ after names.old.names (core_tree tree.now)) }
    ensures kept { kept names.new ≡ kept names.old }
{
    match tree {
        Core::Absent => Ok(()),
        Core::Named { span: _, name: _ } => Ok(()),
        Core::Group { span: _, inner } => declarator(alloc, names, inner.get()),
    }
}

#[cycle(behind)]
fn declarator(alloc: Global, names: &mut TypeNames, tree: &Declarator) -> Result<(), AllocError>
    ensures names { OnOk result (names.new.names ≡ after names.old.names (declarator_tree tree.now)) }
    ensures kept { kept names.new ≡ kept names.old }
{
    core(alloc, names, &tree.core)?;
    suffixes(alloc, names, tree.suffixes.as_slice())
}

#[cycle(behind)]
fn field(alloc: Global, names: &mut TypeNames, tree: &Field) -> Result<(), AllocError>
    ensures names { OnOk result (names.new.names ≡ after names.old.names (field_tree tree.now)) }
    ensures kept { kept names.new ≡ kept names.old }
{
    match tree {
        Field::Declared {
            span: _,
            declarator: named,
            width,
            attributes: _,
        } => {
            declarator(alloc, names, named)?;
            value(alloc, names, width)
        }
        Field::Padding { span: _, width } => expr(alloc, names, width),
    }
}

#[cycle(behind)]
fn fields(alloc: Global, names: &mut TypeNames, all: &[Field]) -> Result<(), AllocError>
    ensures names { OnOk result (names.new.names ≡ after_all names.old.names (fields_of all.now)) }
    ensures kept { kept names.new ≡ kept names.old }
{
    for each in all {
        field(alloc, names, each)?;
    }
    Ok(())
}

#[cycle(behind)]
fn member(alloc: Global, names: &mut TypeNames, tree: &Member) -> Result<(), AllocError>
    ensures names { OnOk result (names.new.names ≡ after names.old.names (member_tree tree.now)) }
    ensures kept { kept names.new ≡ kept names.old }
{
    match tree {
        Member::Fields {
            span: _,
            specifiers: all,
            fields: named,
        } => {
            specifiers(alloc, names, all.as_slice())?;
            fields(alloc, names, named.as_slice())
        }
        Member::Assertion {
            span: _,
            condition,
            literals: _,
        } => expr(alloc, names, condition),
    }
}

#[cycle(behind)]
fn members(alloc: Global, names: &mut TypeNames, all: &[Member]) -> Result<(), AllocError>
    ensures names { OnOk result (names.new.names ≡ after_all names.old.names (members_of all.now)) }
    ensures kept { kept names.new ≡ kept names.old }
{
    for each in all {
        member(alloc, names, each)?;
    }
    Ok(())
}

#[cycle(behind)]
fn enumerator(alloc: Global, names: &mut TypeNames, tree: &Enumerator) -> Result<(), AllocError>
    ensures names { OnOk result (names.new.names ≡ after names.old.names (enumerator_tree tree.now)) }
    ensures kept { kept names.new ≡ kept names.old }
{
    value(alloc, names, &tree.value)?;
    names.declare(tree.name.duplicate(alloc)?, false)
}

#[cycle(behind)]
fn enumerators(alloc: Global, names: &mut TypeNames, all: &[Enumerator]) -> Result<(), AllocError>
    ensures names { OnOk result (names.new.names ≡ after_all names.old.names (enumerators_of all.now)) }
    ensures kept { kept names.new ≡ kept names.old }
{
    for each in all {
        enumerator(alloc, names, each)?;
    }
    Ok(())
}

#[cycle(behind)]
fn specifier(alloc: Global, names: &mut TypeNames, tree: &Specifier) -> Result<(), AllocError>
    ensures names { OnOk result (names.new.names ≡ after names.old.names (specifier_tree tree.now)) }
    ensures kept { kept names.new ≡ kept names.old }
{
    match tree {
        Specifier::Keyword {
            span: _,
            keyword: _,
        } => Ok(()),
        Specifier::Typedef { span: _, name: _ } => Ok(()),
        Specifier::Attribute(_) => Ok(()),
        Specifier::CompositeTag {
            span: _,
            sort: _,
            attributes: _,
            tag: _,
        } => Ok(()),
        Specifier::Composite {
            span: _,
            sort: _,
            attributes: _,
            tag: _,
            members: all,
            trailing: _,
        } => members(alloc, names, all.as_slice()),
        Specifier::EnumTag { span: _, tag: _ } => Ok(()),
        Specifier::Enum {
            span: _,
            tag: _,
            enumerators: all,
            comma: _,
        } => enumerators(alloc, names, all.as_slice()),
    }
}

/// What specifiers declare.
#[cycle(behind)]
pub fn specifiers(alloc: Global, names: &mut TypeNames, all: &[Specifier]) -> Result<(), AllocError>
    ensures names { OnOk result (names.new.names ≡ after_all names.old.names (specifiers_of all.now)) }
    ensures kept { kept names.new ≡ kept names.old }
{
    for each in all {
        specifier(alloc, names, each)?;
    }
    Ok(())
}

#[cycle(behind)]
fn type_name(alloc: Global, names: &mut TypeNames, tree: &TypeName) -> Result<(), AllocError>
    ensures names { OnOk result (names.new.names ≡ after names.old.names (type_name_tree tree.now)) }
    ensures kept { kept names.new ≡ kept names.old }
{
    specifiers(alloc, names, tree.specifiers.as_slice())?;
    declarator_where(alloc, names, &tree.declarator)
}
