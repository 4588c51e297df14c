//! The formals of a function definition.
ghost use Rattle.std.specs.Prelude.{◌≡◌, OnOk};
ghost use Rattle.c_tree.specs.Trees.{Nil};
ghost use Rattle.c_tree.specs.Views.{declarator_tree, parameters_of, suffixes_of, type_name_tree};
ghost use Rattle.c_tree.specs.WellFormed.{after_parameter};
ghost use Rattle.c_parse_base.specs.KnownNames.{kept};
ghost use Rattle.c_grammar.specs.Leaves.{ADeclarator};
ghost use Rattle.c_grammar.specs.Table.{after_parameters, behind_name, parameters_at, suffixes_or, with_formals};
ghost use Rattle.c_parse_formals.specs.Found.{formals_trees};

use c_parse_base::names::TypeNames;
use c_parse_constants::{declarator_where, specifiers};
use c_parse_decl::declarations::declare;
use c_tree::tree::{Core, Declarator, Suffix, TypeName};
use std::alloc::{AllocError, Global};

// The suffixes of a declarator; where it has none and no pointers, those that stand behind it.
fn suffixes_or<'a>(declarator: &'a Declarator, outer: &'a [Suffix]) -> &'a [Suffix]
    ensures { suffixes_of result.now ≡ suffixes_or (suffixes_of declarator.now.suffixes) declarator.now.pointers (suffixes_of outer.now) }
{
    match declarator.suffixes.as_slice().split_first() {
        Some(_) => declarator.suffixes.as_slice(),
        None => match declarator.pointers.as_slice().split_first() {
            Some(_) => declarator.suffixes.as_slice(),
            None => outer,
        },
    }
}

// The parameters of a function suffix that stands first.
fn parameters_at(suffixes: &[Suffix]) -> Option<&[TypeName]>
    ensures { formals_trees result ≡ parameters_at (suffixes_of suffixes.now) }
{
    match suffixes.split_first() {
        None => None,
        Some((first, _)) => match first {
            Suffix::Array {
                span: _,
                qualifiers: _,
                bound: _,
            } => None,
            Suffix::Function {
                span: _,
                parameters,
                variadic: _,
            } => Some(parameters.as_slice()),
        },
    }
}

// The formals of the function that a declarator declares: those of the function suffix directly behind its name.
#[tactic(auto, using(crate::proofs::Outer::own_alone))]
fn formals_of(declarator: &Declarator) -> Option<&[TypeName]>
    ensures { formals_trees result ≡ parameters_at (behind_name (declarator_tree declarator.now) Nil) }
{
    let mut inner = declarator;
    let mut outer = declarator.suffixes.as_slice();
    'entering: while let Core::Group {
        span: _,
        inner: next,
    } = &inner.core
    {
        inner = next.get();
        outer = suffixes_or(inner, outer);
    }
    match &inner.core {
        Core::Named { span: _, name: _ } => parameters_at(outer),
        _ => None,
    }
}

// Declares a parameter, and the constants of enumerations in it.
#[tactic(auto, using(crate::proofs::Outer::ordinary_name))]
fn declare_parameter(
    alloc: Global,
    names: &mut TypeNames,
    parameter: &TypeName,
) -> Result<(), AllocError>
    ensures names { OnOk result (names.new.names ≡ after_parameter names.old.names (type_name_tree parameter.now)) }
    ensures kept { kept names.new ≡ kept names.old }
{
    specifiers(alloc, names, parameter.specifiers.as_slice())?;
    declarator_where(alloc, names, &parameter.declarator)?;
    match &parameter.declarator {
        None => Ok(()),
        Some(declarator) => declare(alloc, names, false, declarator),
    }
}

fn declare_parameters(
    alloc: Global,
    names: &mut TypeNames,
    all: &[TypeName],
) -> Result<(), AllocError>
    ensures names { OnOk result (names.new.names ≡ after_parameters names.old.names (parameters_of all.now)) }
    ensures kept { kept names.new ≡ kept names.old }
{
    for each in all {
        declare_parameter(alloc, names, each)?;
    }
    Ok(())
}

/// Declares the formals of the function that a declarator declares, and the constants of enumerations in them; none where it declares no function.
pub fn declare_formals(
    alloc: Global,
    names: &mut TypeNames,
    declarator: &Declarator,
) -> Result<(), AllocError>
    ensures names { OnOk result (names.new.names ≡ with_formals (ADeclarator (declarator_tree declarator.now)) names.old.names) }
    ensures kept { kept names.new ≡ kept names.old }
{
    match formals_of(declarator) {
        None => Ok(()),
        Some(all) => declare_parameters(alloc, names, all),
    }
}
