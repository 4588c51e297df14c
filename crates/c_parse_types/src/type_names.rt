//! Type names and parameters (C11 6.7.6 and 6.7.7).
ghost use Rattle.std.specs.Prelude.{◌≡◌, [], ◌+◌, ◌<◌, ◌≤◌, max, length, option_map, IfOk, IfNone, IfSome};
ghost use Rattle.c_tree.specs.Nesting.{nest_all};
ghost use Rattle.c_tree.specs.Trees.{TypeName as TypeTree};
ghost use Rattle.c_tree.specs.Views.{optional_declarator, specifier_tree, specifiers_of, type_name_tree};
ghost use Rattle.c_tree.specs.WellFormed.{after, after_all, before_end, Untyped};
ghost use Rattle.c_parse_base.specs.Heights.{capped};
ghost use Rattle.c_parse_base.specs.KnownNames.{kept};
ghost use Rattle.c_parse_base.specs.Purposes.{before_of, purpose_of};
ghost use Rattle.c_parse_base.specs.Reads.{found_of, AreFound, IsFound, Measured};
ghost use Rattle.c_parse_attributes.specs.TypesAtDepth.{all_specifiers, measured, specifier_rule, type_rule};

use crate::specifiers::specifier_rule;
use c_base::number::Span;
use c_base::token::Token;
use c_parse_attributes::first_span;
use c_parse_base::below::Below;
use c_parse_base::found::{Found, Several};
use c_parse_base::height::{above, deeper, flat, within};
use c_parse_base::names::TypeNames;
use c_parse_base::purpose::{Before, Purpose};
use c_parse_base::scope::close;
use c_parse_members::{before_next, is_none};
use c_tree::tree::{Declarator, Specifier, TypeName};
use sqlite_items::Items;
use std::alloc::{AllocError, Global};

fn specifier_at<'a, B: Below<'a>>(
    below: &B,
    alloc: Global,
    names: &mut TypeNames,
    purpose: Purpose,
    before: Before,
    tokens: &'a [Token],
) -> Result<Option<Found<'a, Specifier>>, AllocError>
    requires { B.works below.now }
    ensures found { IfOk result (λ r. IsFound specifier_tree (specifier_rule (B.depth below.now) (purpose_of purpose) names.old.names (before_of before) tokens.now) names.old.names names.new.names tokens.now r) }
    ensures unchanged { IfOk result (λ r. IfNone r (names.new.names ≡ names.old.names)) }
    ensures kept { kept names.new ≡ kept names.old }
{
    let scope = names.enter();
    let found = specifier_rule(below, alloc, names, purpose, before, tokens);
    close(names, scope, tokens, found)
}

// The specifiers of a type name, as many as there are, and what stands before what follows them.
fn specifiers_at<'a, B: Below<'a>>(
    below: &B,
    alloc: Global,
    names: &mut TypeNames,
    purpose: Purpose,
    tokens: &'a [Token],
) -> Result<(Several<'a, Specifier>, Before), AllocError>
    requires { B.works below.now }
    ensures found { IfOk result (λ s. AreFound specifier_tree [] (all_specifiers (B.depth below.now) (specifier_rule (B.depth below.now)) (purpose_of purpose) names.old.names tokens.now) names.old.names names.new.names tokens.now s.0) }
    ensures before { IfOk result (λ s. before_of s.1 ≡ before_end Untyped (specifiers_of s.0.trees)) }
    ensures few { IfOk result (λ s. length s.0.rest.now + length s.0.trees ≤ length tokens.now) }
    ensures kept { kept names.new ≡ kept names.old }
{
    let mut found = Vec::new(alloc);
    let mut height = flat();
    let mut before = Before::Untyped;
    let mut rest = tokens;
    'reading: while let Some(next) = specifier_at(below, alloc, names, purpose, before, rest)? {
        height = deeper(height, next.height);
        before = before_next(before, &next.tree);
        found.push(next.tree)?;
        rest = next.rest;
    }
    let all = Several {
        trees: Items::from_vec(found),
        height,
        rest,
    };
    Ok((all, before))
}

// The type name, if it is not too deep; `height` is that of its parts.
fn measured<'a>(
    depth: u32,
    span: Span,
    specifiers: Items<Specifier>,
    declarator: Option<Declarator>,
    height: u32,
    rest: &'a [Token],
) -> Option<Found<'a, TypeName>>
    requires small { depth < 1000000 }
    requires height { height ≡ capped (max (nest_all (specifiers_of specifiers)) (nest_all (optional_declarator declarator))) }
    ensures same { option_map (found_of type_name_tree) result ≡ measured depth (TypeTree span (specifiers_of specifiers) (optional_declarator declarator)) rest.now }
    ensures height { Measured type_name_tree result }
    ensures rest { IfSome result (λ f. f.rest.now ≡ rest.now) }
    ensures names { IfSome result (λ f. (old : _) → after old (type_name_tree f.tree) ≡ after_all (after_all old (specifiers_of specifiers)) (optional_declarator declarator)) }
{
    if within(height, depth) {
        Some(Found {
            tree: TypeName {
                span,
                specifiers,
                declarator,
            },
            height: above(height),
            rest,
        })
    } else {
        None
    }
}

/// A type name or a parameter, whose parts are read with `below`; it is measured where it ends.
pub fn type_rule<'a, B: Below<'a>>(
    below: &B,
    alloc: Global,
    names: &mut TypeNames,
    purpose: Purpose,
    tokens: &'a [Token],
) -> Result<Option<Found<'a, TypeName>>, AllocError>
    requires { B.works below.now }
    ensures found { IfOk result (λ r. IsFound type_name_tree (type_rule (B.depth below.now) (purpose_of purpose) names.old.names tokens.now) names.old.names names.new.names tokens.now r) }
    ensures kept { kept names.new ≡ kept names.old }
{
    let (found, before) = specifiers_at(below, alloc, names, purpose, tokens)?;
    if is_none(&found) {
        return Ok(None);
    }
    let span = first_span(tokens);
    let depth = below.depth();
    match below.declarator(alloc, names, purpose, before, found.rest)? {
        None => Ok(measured(depth, span, found.trees, None, found.height, found.rest)),
        Some(declarator) => Ok(measured(
            depth,
            span,
            found.trees,
            Some(declarator.tree),
            deeper(found.height, declarator.height),
            declarator.rest,
        )),
    }
}
