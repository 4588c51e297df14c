//! Which program of the language a unit is.
ghost use Rattle.std.specs.Prelude.{◌≡◌, ◌<◌, ◌≤◌, ◌^◌, ◌-◌, [], None, length, map, option_copied, option_map, IfOk, IfSome};
ghost use Rattle.c_base.specs.declared.token.Keyword.TheVariants as key;
ghost use Rattle.c_tree.specs.Views.{declarator_tree, parameters_of, specifiers_of, suffixes_of};
ghost use Rattle.grammar.specs.Reading.{groups};
ghost use Rattle.c_grammar.specs.Leaves.{C};
ghost use Rattle.c_unit_tree.specs.Views.{body_tree, declaration_tree, external_kids, external_tree, init_kids, unit_kids};
ghost use Rattle.first_program.specs.SourceViews.{program_of, IsShaped};
ghost use Rattle.first_units.specs.Language.{are_none, body_in, is_empty, is_just, is_main, lone_in, lone_name, main_in, plain_name, program_in, takes_none, variable_in, variables_in};
ghost use Rattle.first_units.specs.Views.{items_kids, BeginsDeclared};

use crate::statements::statements_in;
use c_base::name::Name;
use c_base::token::Keyword;
use c_tree::tree::{Core, Declarator, Specifier, Suffix, TypeName};
use c_unit_tree::declaration::{Declaration, InitDeclarator};
use c_unit_tree::statement::BlockItem;
use c_unit_tree::unit::{Body, External, Unit, UnitItem};
use first_program::tree::Program;
use indexmap::IndexSet;
use sqlite_items::Items;
use std::alloc::{AllocError, Global};

/// The most numbered statements of a file, the closing brace among them.
pub const MOST_STATEMENTS: usize = 200_000;

// ---- declarations

// This keyword alone.
pub(crate) fn is_just(wanted: Keyword, all: &[Specifier]) -> bool
    ensures { result ≡ is_just wanted (specifiers_of all.now) }
{
    let Some((first, rest)) = all.split_first() else {
        return false;
    };
    match first {
        Specifier::Keyword { span: _, keyword } => match rest.split_first() {
            Some(_) => false,
            None => *keyword == wanted,
        },
        _ => false,
    }
}

// The name of a declarator that is nothing else.
fn plain_name(declarator: &Declarator) -> Option<&Name>
    ensures { option_copied result ≡ plain_name (declarator_tree declarator.now) }
{
    match declarator.pointers.as_slice().split_first() {
        Some(_) => None,
        None => match &declarator.core {
            Core::Named { span: _, name } => match declarator.suffixes.as_slice().split_first() {
                Some(_) => None,
                None => Some(name),
            },
            _ => None,
        },
    }
}

// The name of the one declarator, behind which nothing stands.
fn lone_name(all: &[InitDeclarator]) -> Option<&Name>
    ensures { option_copied result ≡ lone_name (groups C (map init_kids all.now)) }
{
    let Some((first, others)) = all.split_first() else {
        return None;
    };
    match &first.rest.assembly {
        Some(_) => None,
        None => match first.rest.attributes.as_slice().split_first() {
            Some(_) => None,
            None => match &first.rest.initialiser {
                Some(_) => None,
                None => match others.split_first() {
                    Some(_) => None,
                    None => plain_name(&first.declarator),
                },
            },
        },
    }
}

// The name in `int name;`.
pub(crate) fn variable_in(declaration: &Declaration) -> Option<&Name>
    ensures { option_copied result ≡ variable_in (declaration_tree declaration.now) }
{
    match declaration {
        Declaration::Declarators {
            span: _,
            specifiers,
            declarators,
        } => match declarators.as_slice().split_first() {
            None => None,
            Some(_) => {
                if is_just(Keyword::Int, specifiers.as_slice()) {
                    lone_name(declarators.as_slice())
                } else {
                    None
                }
            }
        },
        Declaration::Assertion {
            span: _,
            condition: _,
            literals: _,
        } => None,
    }
}

// A first declaration, and the items behind it.
pub(crate) fn next_declared(items: &[UnitItem]) -> Option<(&Declaration, &[UnitItem])>
    ensures begins { BeginsDeclared items.now result }
    ensures shorter { IfSome result (λ f. length f.1.now < length items.now) }
{
    let Some((first, rest)) = items.split_first() else {
        return None;
    };
    match first {
        BlockItem::Declaration(declaration) => Some((declaration, rest)),
        BlockItem::Statement(_) => None,
    }
}

// The names that are declared in front of the statements, the same names for look-ups, and the items behind.
#[derive(Drop)]
pub(crate) struct Declared<'a> {
    names: Vec<Name>,
    pub(crate) index: IndexSet<Name>,
    pub(crate) rest: &'a [UnitItem],
}

pub(crate) fn declared_in<'a>(
    alloc: Global,
    items: &'a [UnitItem],
) -> Result<Option<Declared<'a>>, AllocError>
    ensures found { IfOk result (λ found. option_map (λ d. (d.names.items, items_kids d.rest.now)) found ≡ variables_in [] (items_kids items.now)) }
    ensures keyed { IfOk result (λ found. IfSome found (λ d. d.index.keys ≡ d.names.items)) }
{
    let mut names = Vec::new(alloc);
    let mut index = IndexSet::new(alloc);
    let mut rest = items;
    'declaring: while let Some((declaration, next)) = next_declared(rest) {
        match variable_in(declaration) {
            None => return Ok(None),
            Some(name) => {
                let (_, added) = index.insert_full(name.duplicate(alloc)?)?;
                if !added {
                    return Ok(None);
                }
                names.push(name.duplicate(alloc)?)?;
                rest = next;
            }
        }
    }
    Ok(Some(Declared { names, index, rest }))
}

// ---- programs

// `void` alone, as a list of parameters.
fn are_none(parameters: &[TypeName]) -> bool
    ensures { result ≡ are_none (parameters_of parameters.now) }
{
    let Some((first, rest)) = parameters.split_first() else {
        return false;
    };
    match &first.declarator {
        Some(_) => false,
        None => match rest.split_first() {
            Some(_) => false,
            None => is_just(Keyword::Void, first.specifiers.as_slice()),
        },
    }
}

// `(void)`
fn takes_none(suffixes: &[Suffix]) -> bool
    ensures { result ≡ takes_none (suffixes_of suffixes.now) }
{
    let Some((first, rest)) = suffixes.split_first() else {
        return false;
    };
    match first {
        Suffix::Array {
            span: _,
            qualifiers: _,
            bound: _,
        } => false,
        Suffix::Function {
            span: _,
            parameters,
            variadic,
        } => match rest.split_first() {
            Some(_) => false,
            None => !*variadic && are_none(parameters.as_slice()),
        },
    }
}

// `main(void)`
pub(crate) fn is_main(declarator: &Declarator) -> bool
    ensures { result ≡ is_main (declarator_tree declarator.now) }
{
    match declarator.pointers.as_slice().split_first() {
        Some(_) => false,
        None => match &declarator.core {
            Core::Named { span: _, name } => {
                name.as_bytes() == b"main".as_slice() && takes_none(declarator.suffixes.as_slice())
            }
            _ => false,
        },
    }
}

// The program of the block of `main`.
fn body_in(alloc: Global, body: &Body) -> Result<Option<Program>, AllocError>
    ensures { IfOk result (λ found. option_map program_of found ≡ body_in (body_tree body.now)) }
{
    let Some(declared) = declared_in(alloc, body.items.as_slice())? else {
        return Ok(None);
    };
    if declared.names.len() >= 4_294_967_295 {
        return Ok(None);
    }
    let mut spans = Vec::new(alloc);
    let Some(stmts) = statements_in(alloc, declared.rest, &declared.index, &mut spans)? else {
        return Ok(None);
    };
    if spans.len() >= MOST_STATEMENTS {
        return Ok(None);
    }
    spans.push(body.closing)?;
    Ok(Some(Program {
        variables: Items::from_vec(declared.names),
        body: stmts,
        spans: Items::from_vec(spans),
    }))
}

#[tactic(auto, using(crate::proofs::Steps::no_main_declared))]
fn main_in(alloc: Global, external: &External) -> Result<Option<Program>, AllocError>
    ensures { IfOk result (λ found. option_map program_of found ≡ main_in (external_tree external.now)) }
{
    match external {
        External::Empty { span: _ } => Ok(None),
        External::Declaration(_) => Ok(None),
        External::Function(function) => {
            if is_just(Keyword::Int, function.specifiers.as_slice())
                && is_main(&function.declarator)
            {
                body_in(alloc, &function.body)
            } else {
                Ok(None)
            }
        }
    }
}

// `;` alone.
fn is_empty(external: &External) -> bool
    ensures { result ≡ is_empty (external_tree external.now) }
{
    match external {
        External::Empty { span: _ } => true,
        External::Declaration(declaration) => match declaration {
            Declaration::Declarators {
                span: _,
                specifiers: _,
                declarators: _,
            } => false,
            Declaration::Assertion {
                span: _,
                condition: _,
                literals: _,
            } => false,
        },
        External::Function(_) => false,
    }
}

// The one external declaration that is not `;` alone.
fn lone_in(all: &[External]) -> Option<&External>
    ensures { option_map (λ e. external_tree e.now) result ≡ lone_in None (groups C (map external_kids all.now)) }
{
    let mut found: Option<&External> = None;
    for each in all {
        if !is_empty(each) {
            match found {
                Some(_) => return None,
                None => found = Some(each),
            }
        }
    }
    found
}

fn found_in(alloc: Global, unit: &Unit) -> Result<Option<Program>, AllocError>
    ensures { IfOk result (λ found. option_map program_of found ≡ program_in (unit_kids unit.now)) }
{
    match lone_in(unit.externals.as_slice()) {
        None => Ok(None),
        Some(external) => main_in(alloc, external),
    }
}

/// The program of the language that a unit is, if it is one.
pub fn program_in(alloc: Global, unit: &Unit) -> Result<Option<Program>, AllocError>
    ensures found { IfOk result (λ found. option_map program_of found ≡ program_in (unit_kids unit.now)) }
    ensures shaped { IfOk result (λ found. IfSome found (λ p. IsShaped (program_of p))) }
{
    found_in(alloc, unit)
}
