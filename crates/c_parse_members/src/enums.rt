//! Enums and their constants (C11 6.7.2.2).
ghost use Rattle.std.specs.Prelude.{◌≡◌, map, IfOk, IfNone};
ghost use Rattle.c_tree.specs.Nesting.{nest, nest_all};
ghost use Rattle.c_tree.specs.Trees.{Enumerator as Constant};
ghost use Rattle.c_tree.specs.Views.{enumerator_tree, enumerators_of, optional_expr, specifier_tree};
ghost use Rattle.c_tree.specs.WellFormed.{after_all, ordinary};
ghost use Rattle.c_parse_base.specs.Heights.{capped};
ghost use Rattle.c_parse_base.specs.KnownNames.{kept};
ghost use Rattle.c_parse_base.specs.Reads.{found_of, AreFound, IsFound};
ghost use Rattle.c_parse_attributes.specs.TypesAtDepth.{all_enumerators, constants_at, enum_at, enum_closed, enum_of, enumerator_at, next_enumerator};

use c_base::name::Name;
use c_base::number::Span;
use c_base::token::{Punctuator, Token};
use c_parse_attributes::first_span;
use c_parse_base::below::Below;
use c_parse_base::expecting::expect_punctuator;
use c_parse_base::found::{Found, Several};
use c_parse_base::height::{above, deeper, flat, leaf};
use c_parse_base::names::TypeNames;
use c_parse_base::scope::close;
use c_parse_base::words::{behind_punctuator, name_at};
use c_tree::tree::{Enumerator, Expr, Specifier};
use sqlite_items::Items;
use std::alloc::{AllocError, Global};

// Declares the name of a constant, and copies it.
fn declared_name(alloc: Global, names: &mut TypeNames, name: &Name) -> Result<Name, AllocError>
    ensures same { IfOk result (λ copy. copy ≡ name.now) }
    ensures names { IfOk result (λ _. names.new.names ≡ ordinary name.now names.old.names) }
    ensures kept { kept names.new ≡ kept names.old }
{
    names.declare(name.duplicate(alloc)?, false)?;
    name.duplicate(alloc)
}

// Declares the constant.
fn declared<'a>(
    alloc: Global,
    names: &mut TypeNames,
    span: Span,
    name: &Name,
    value: Option<Expr>,
    height: u32,
    rest: &'a [Token],
) -> Result<Found<'a, Enumerator>, AllocError>
    requires height { height ≡ capped (nest_all (optional_expr value)) }
    ensures same { IfOk result (λ r. found_of enumerator_tree r ≡ (Constant span name.now (optional_expr value), rest.now)) }
    ensures height { IfOk result (λ r. r.height ≡ capped (nest (enumerator_tree r.tree))) }
    ensures names { IfOk result (λ r. names.new.names ≡ ordinary name.now names.old.names) }
    ensures rest { IfOk result (λ r. r.rest.now ≡ rest.now) }
    ensures kept { kept names.new ≡ kept names.old }
{
    let name = match declared_name(alloc, names, name) {
        Ok(name) => name,
        Err(error) => {
            drop(value);
            return Err(error);
        }
    };
    Ok(Found {
        tree: Enumerator { span, name, value },
        height,
        rest,
    })
}

#[tactic(auto, unfolding(c_parse_rules::specs::TypeRules::enumerator_at))]
fn enumerator_inside<'a, B: Below<'a>>(
    below: &B,
    alloc: Global,
    names: &mut TypeNames,
    tokens: &'a [Token],
) -> Result<Option<Found<'a, Enumerator>>, AllocError>
    requires { B.works below.now }
    ensures found { IfOk result (λ r. IsFound enumerator_tree (enumerator_at (B.depth below.now) names.old.names tokens.now) names.old.names names.new.names tokens.now r) }
    ensures kept { kept names.new ≡ kept names.old }
{
    let span = first_span(tokens);
    let Some((name, behind)) = name_at(tokens) else {
        return Ok(None);
    };
    let Some(inside) = behind_punctuator(behind, Punctuator::Assign) else {
        return Ok(Some(declared(alloc, names, span, name, None, flat(), behind)?));
    };
    match below.expr(alloc, names, 2, inside)? {
        None => Ok(None),
        Some(value) => Ok(Some(declared(
            alloc,
            names,
            span,
            name,
            Some(value.tree),
            value.height,
            value.rest,
        )?)),
    }
}

fn enumerator_at<'a, B: Below<'a>>(
    below: &B,
    alloc: Global,
    names: &mut TypeNames,
    tokens: &'a [Token],
) -> Result<Option<Found<'a, Enumerator>>, AllocError>
    requires { B.works below.now }
    ensures found { IfOk result (λ r. IsFound enumerator_tree (enumerator_at (B.depth below.now) names.old.names tokens.now) names.old.names names.new.names tokens.now r) }
    ensures unchanged { IfOk result (λ r. IfNone r (names.new.names ≡ names.old.names)) }
    ensures kept { kept names.new ≡ kept names.old }
{
    let scope = names.enter();
    let found = enumerator_inside(below, alloc, names, tokens);
    close(names, scope, tokens, found)
}

fn next_enumerator<'a, B: Below<'a>>(
    below: &B,
    alloc: Global,
    names: &mut TypeNames,
    tokens: &'a [Token],
) -> Result<Option<Found<'a, Enumerator>>, AllocError>
    requires { B.works below.now }
    ensures found { IfOk result (λ r. IsFound enumerator_tree (next_enumerator (B.depth below.now) names.old.names tokens.now) names.old.names names.new.names tokens.now r) }
    ensures unchanged { IfOk result (λ r. IfNone r (names.new.names ≡ names.old.names)) }
    ensures kept { kept names.new ≡ kept names.old }
{
    match behind_punctuator(tokens, Punctuator::Comma) {
        None => Ok(None),
        Some(rest) => enumerator_at(below, alloc, names, rest),
    }
}

// Constants behind commas, after those that were found before.
fn more_enumerators<'a, B: Below<'a>>(
    below: &B,
    alloc: Global,
    names: &mut TypeNames,
    before: Vec<Enumerator>,
    deepest: u32,
    tokens: &'a [Token],
) -> Result<Several<'a, Enumerator>, AllocError>
    requires works { B.works below.now }
    requires height { deepest ≡ capped (nest_all (enumerators_of before.items)) }
    ensures found { IfOk result (λ s. AreFound enumerator_tree before.items (all_enumerators (B.depth below.now) (map enumerator_tree before.items) names.old.names tokens.now) names.old.names names.new.names tokens.now s) }
    ensures kept { kept names.new ≡ kept names.old }
{
    let mut found = before;
    let mut height = deepest;
    let mut rest = tokens;
    'reading: while let Some(next) = next_enumerator(below, alloc, names, rest)? {
        height = deeper(height, next.height);
        found.push(next.tree)?;
        rest = next.rest;
    }
    Ok(Several {
        trees: Items::from_vec(found),
        height,
        rest,
    })
}

// The closing brace.
fn enum_closed<'a>(
    span: Span,
    tag: Option<Name>,
    enumerators: Items<Enumerator>,
    height: u32,
    comma: bool,
    tokens: &'a [Token],
) -> Option<Found<'a, Specifier>>
    requires height { height ≡ capped (nest_all (enumerators_of enumerators)) }
    ensures found { (old : _) → IsFound specifier_tree (enum_closed span tag (map enumerator_tree enumerators) comma tokens.now) old (after_all old (enumerators_of enumerators)) tokens.now result }
{
    match behind_punctuator(tokens, Punctuator::CloseBrace) {
        None => None,
        Some(rest) => Some(Found {
            tree: Specifier::Enum {
                span,
                tag,
                enumerators,
                comma,
            },
            height: above(height),
            rest,
        }),
    }
}

// Behind the constants.
fn enum_of<'a>(
    span: Span,
    tag: Option<Name>,
    enumerators: Several<'a, Enumerator>,
) -> Option<Found<'a, Specifier>>
    requires height { enumerators.height ≡ capped (nest_all (enumerators_of enumerators.trees)) }
    ensures found { (d : _) (old : _) → IsFound specifier_tree (enum_of d span tag (map enumerator_tree enumerators.entry.trees, enumerators.entry.rest.now)) old (after_all old (enumerators_of enumerators.entry.trees)) enumerators.entry.rest.now result }
{
    match behind_punctuator(enumerators.rest, Punctuator::Comma) {
        None => enum_closed(
            span,
            tag,
            enumerators.trees,
            enumerators.height,
            false,
            enumerators.rest,
        ),
        Some(rest) => enum_closed(span, tag, enumerators.trees, enumerators.height, true, rest),
    }
}

// Behind the `{`.
fn constants_at<'a, B: Below<'a>>(
    below: &B,
    alloc: Global,
    names: &mut TypeNames,
    span: Span,
    tag: Option<Name>,
    tokens: &'a [Token],
) -> Result<Option<Found<'a, Specifier>>, AllocError>
    requires { B.works below.now }
    ensures found { IfOk result (λ r. IsFound specifier_tree (constants_at (B.depth below.now) span tag names.old.names tokens.now) names.old.names names.new.names tokens.now r) }
    ensures kept { kept names.new ≡ kept names.old }
{
    match enumerator_at(below, alloc, names, tokens)? {
        None => Ok(None),
        Some(first) => {
            let mut found = Vec::new(alloc);
            found.push(first.tree)?;
            let all = more_enumerators(below, alloc, names, found, first.height, first.rest)?;
            Ok(enum_of(span, tag, all))
        }
    }
}

// An enum by its tag.
fn enum_tag<'a>(span: Span, tag: Name, rest: &'a [Token]) -> Found<'a, Specifier>
    ensures tree { result.tree ≡ Specifier.EnumTag span tag }
    ensures height { result.height ≡ capped 1 }
    ensures rest { result.rest.now ≡ rest.now }
{
    Found {
        tree: Specifier::EnumTag { span, tag },
        height: leaf(),
        rest,
    }
}

/// An enum behind its first word.
#[tactic(auto, unfolding(c_parse_rules::specs::TypeRules::enum_untagged_at))]
pub fn enum_at<'a, B: Below<'a>>(
    below: &B,
    alloc: Global,
    names: &mut TypeNames,
    span: Span,
    tokens: &'a [Token],
) -> Result<Option<Found<'a, Specifier>>, AllocError>
    requires { B.works below.now }
    ensures found { IfOk result (λ r. IsFound specifier_tree (enum_at (B.depth below.now) span names.old.names tokens.now) names.old.names names.new.names tokens.now r) }
    ensures kept { kept names.new ≡ kept names.old }
{
    match name_at(tokens) {
        None => match expect_punctuator(names, tokens, Punctuator::OpenBrace) {
            None => Ok(None),
            Some(inside) => constants_at(below, alloc, names, span, None, inside),
        },
        Some((name, behind)) => {
            let tag = name.duplicate(alloc)?;
            match behind_punctuator(behind, Punctuator::OpenBrace) {
                None => Ok(Some(enum_tag(span, tag, behind))),
                Some(inside) => constants_at(below, alloc, names, span, Some(tag), inside),
            }
        }
    }
}
