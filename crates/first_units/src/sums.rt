//! Sums and tests: C expressions, of which the variables, numbers and operators of the language are known.
ghost use Rattle.std.specs.Prelude.{◌≡◌, ◌<◌, ◌-◌, ◌^◌, map, option_map, IfOk};
ghost use Rattle.indexmap.specs.IndexSet.{index_set_len};
ghost use Rattle.c_tree.specs.Views.{tree_of, operand_tree, operands_of};
ghost use Rattle.first_program.specs.SourceViews.{addend_tree, sum_tree, test_tree};
ghost use Rattle.first_units.specs.Sums.{variable_named, is_plain, is_int, number_of, sign_of, relation_of, sum_of, addends_of, addend_of, compared_with, comparison_of, test_of};

use c_base::name::Name;
use c_base::number::BaseId;
use c_base::operators::Rel;
use c_base::token::{IntegerConstant, Length};
use c_tree::operator::BinaryOperator;
use c_tree::tree::{Expr, Operand};
use first_program::tree::{Addend, Sign, Sum, Test};
use indexmap::IndexSet;
use sqlite_items::{Boxed, Items};
use std::alloc::{AllocError, Global};

/// The variable of this name.
pub fn variable_named(name: &Name, variables: &IndexSet<Name>) -> Option<BaseId>
    requires { index_set_len variables.now < 2 ^ 32 - 1 }
    ensures { result ≡ variable_named variables.now.keys name.now }
{
    match variables.get_index_of(name) {
        None => None,
        Some(index) => Some(BaseId(index as u32 + 1)),
    }
}

fn is_plain(length: Length) -> bool
    ensures { result ≡ is_plain length }
{
    match length {
        Length::Plain => true,
        Length::Long => false,
        Length::LongLong => false,
    }
}

// Whether a constant is of type int (C11 6.4.4.1).
fn is_int(constant: IntegerConstant) -> bool
    ensures { result ≡ is_int constant }
{
    !constant.unsigned && is_plain(constant.length) && constant.value <= 2147483647
}

fn number_of(constant: IntegerConstant) -> Option<u32>
    ensures { result ≡ number_of constant }
{
    if is_int(constant) {
        Some(constant.value as u32)
    } else {
        None
    }
}

fn sign_of(operator: BinaryOperator) -> Option<Sign>
    ensures { result ≡ sign_of operator }
{
    match operator {
        BinaryOperator::Add => Some(Sign::Plus),
        BinaryOperator::Subtract => Some(Sign::Minus),
        _ => None,
    }
}

fn relation_of(operator: BinaryOperator) -> Option<Rel>
    ensures { result ≡ relation_of operator }
{
    match operator {
        BinaryOperator::Less => Some(Rel::Lt),
        BinaryOperator::LessEqual => Some(Rel::Le),
        BinaryOperator::Greater => Some(Rel::Gt),
        BinaryOperator::GreaterEqual => Some(Rel::Ge),
        BinaryOperator::Equal => Some(Rel::Eq),
        BinaryOperator::NotEqual => Some(Rel::Ne),
        _ => None,
    }
}

#[cycle(summing)]
fn addend_of(
    alloc: Global,
    operand: &Operand,
    variables: &IndexSet<Name>,
) -> Result<Option<Addend>, AllocError>
    requires { index_set_len variables.now < 2 ^ 32 - 1 }
    ensures { IfOk result (λ found. option_map addend_tree found ≡ addend_of variables.now.keys (operand_tree operand.now)) }
{
    let Some(sign) = sign_of(operand.operator) else {
        return Ok(None);
    };
    match sum_of(alloc, &operand.operand, variables)? {
        None => Ok(None),
        Some(sum) => Ok(Some(Addend { sign, operand: sum })),
    }
}

#[cycle(summing)]
fn addends_of(
    alloc: Global,
    operands: &[Operand],
    variables: &IndexSet<Name>,
) -> Result<Option<Items<Addend>>, AllocError>
    requires { index_set_len variables.now < 2 ^ 32 - 1 }
    ensures { IfOk result (λ found. option_map (map addend_tree) found ≡ addends_of variables.now.keys (operands_of operands.now)) }
{
    let mut found = Items::new(alloc);
    for operand in operands {
        match addend_of(alloc, operand, variables)? {
            None => return Ok(None),
            Some(addend) => found.push(addend)?,
        }
    }
    Ok(Some(found))
}

/// The sum that an expression is, if it is one.
#[cycle(summing)]
pub fn sum_of(
    alloc: Global,
    expr: &Expr,
    variables: &IndexSet<Name>,
) -> Result<Option<Sum>, AllocError>
    requires { index_set_len variables.now < 2 ^ 32 - 1 }
    ensures { IfOk result (λ found. option_map sum_tree found ≡ sum_of variables.now.keys (tree_of expr.now)) }
{
    match expr {
        Expr::Name { span: _, name } => match variable_named(name, variables) {
            None => Ok(None),
            Some(base) => Ok(Some(Sum::Variable(base))),
        },
        Expr::Integer { span: _, constant } => match number_of(*constant) {
            None => Ok(None),
            Some(number) => Ok(Some(Sum::Number(number))),
        },
        Expr::Parenthesised { span: _, inner } => match sum_of(alloc, inner.get(), variables)? {
            None => Ok(None),
            Some(sum) => Ok(Some(Sum::Parenthesised(Boxed::new(alloc, sum)?))),
        },
        Expr::Run {
            span: _,
            first,
            more,
        } => {
            let Some(sum) = sum_of(alloc, first.get(), variables)? else {
                return Ok(None);
            };
            match addends_of(alloc, more.as_slice(), variables)? {
                None => Ok(None),
                Some(addends) => Ok(Some(Sum::Run {
                    first: Boxed::new(alloc, sum)?,
                    more: addends,
                })),
            }
        }
        _ => Ok(None),
    }
}

// The comparison of an expression with what an operator compares it with.
fn compared_with(
    alloc: Global,
    first: &Expr,
    operand: &Operand,
    variables: &IndexSet<Name>,
) -> Result<Option<Test>, AllocError>
    requires { index_set_len variables.now < 2 ^ 32 - 1 }
    ensures { IfOk result (λ found. option_map test_tree found ≡ compared_with variables.now.keys (tree_of first.now) (operand_tree operand.now)) }
{
    let Some(relation) = relation_of(operand.operator) else {
        return Ok(None);
    };
    let Some(left) = sum_of(alloc, first, variables)? else {
        return Ok(None);
    };
    match sum_of(alloc, &operand.operand, variables)? {
        None => Ok(None),
        Some(right) => Ok(Some(Test::Compare {
            left,
            relation,
            right,
        })),
    }
}

// The comparison that a run is, if it is one.
fn comparison_of(
    alloc: Global,
    first: &Expr,
    more: &[Operand],
    variables: &IndexSet<Name>,
) -> Result<Option<Test>, AllocError>
    requires { index_set_len variables.now < 2 ^ 32 - 1 }
    ensures { IfOk result (λ found. option_map test_tree found ≡ comparison_of variables.now.keys (tree_of first.now) (operands_of more.now)) }
{
    let Some((operand, others)) = more.split_first() else {
        return Ok(None);
    };
    match others.split_first() {
        None => compared_with(alloc, first, operand, variables),
        Some(_) => Ok(None),
    }
}

/// The test that an expression is, if it is one.
#[cycle(testing)]
pub fn test_of(
    alloc: Global,
    expr: &Expr,
    variables: &IndexSet<Name>,
) -> Result<Option<Test>, AllocError>
    requires { index_set_len variables.now < 2 ^ 32 - 1 }
    ensures { IfOk result (λ found. option_map test_tree found ≡ test_of variables.now.keys (tree_of expr.now)) }
{
    match expr {
        Expr::Parenthesised { span: _, inner } => match test_of(alloc, inner.get(), variables)? {
            None => Ok(None),
            Some(test) => Ok(Some(Test::Parenthesised(Boxed::new(alloc, test)?))),
        },
        Expr::Run {
            span: _,
            first,
            more,
        } => comparison_of(alloc, first.get(), more.as_slice(), variables),
        _ => Ok(None),
    }
}
