//! The members of structs and unions (C11 6.7.2.1).
ghost use Rattle.std.specs.Prelude.{◌≡◌, [], max, ◌≤◌, length, map, IfOk, IfNone};
ghost use Rattle.c_tree.specs.Nesting.{nest, nest_all};
ghost use Rattle.c_tree.specs.Trees.{Field as FieldTree};
ghost use Rattle.c_tree.specs.Views.{declarator_tree, field_tree, fields_of, member_tree, optional_expr, specifier_tree, specifiers_of, tree_of};
ghost use Rattle.c_tree.specs.WellFormed.{after, after_all};
ghost use Rattle.c_parse_base.specs.Heights.{capped};
ghost use Rattle.c_parse_base.specs.KnownNames.{kept};
ghost use Rattle.c_parse_base.specs.Purposes.{before_of};
ghost use Rattle.c_parse_base.specs.Reads.{found_of, AreFound, IsFound};
ghost use Rattle.c_parse_rules.specs.TypeRules.{attributes_at};
ghost use Rattle.c_parse_attributes.specs.TypesAtDepth.{all_fields, all_members, assertion_at, assertion_end, field_at, fields_at, fields_from, fields_of as fields_end, member_at, named_field_at, next_field, padding_at};

use crate::specified::{is_none, specifiers_below};
use c_base::number::Span;
use c_base::token::{Keyword, Punctuator, Token};
use c_parse_attributes::{attributes_at, first_span};
use c_parse_base::below::Below;
use c_parse_base::expecting::{expect_literal, expect_punctuator};
use c_parse_base::found::{Found, Several};
use c_parse_base::height::{above, deeper, flat};
use c_parse_base::literals::literals_at;
use c_parse_base::names::TypeNames;
use c_parse_base::purpose::{Before, Purpose};
use c_parse_base::scope::close;
use c_parse_base::words::{behind_punctuator, is_keyword, is_punctuator};
use c_tree::tree::{Declarator, Expr, Field, Member, Specifier};
use sqlite_items::{Boxed, Items};
use std::alloc::{AllocError, Global};

// A field with the attributes behind it.
fn field_end<'a>(
    alloc: Global,
    span: Span,
    declarator: Boxed<Declarator>,
    width: Option<Expr>,
    height: u32,
    tokens: &'a [Token],
) -> Result<Found<'a, Field>, AllocError>
    requires height { height ≡ capped (max (nest (declarator_tree declarator)) (nest_all (optional_expr width))) }
    ensures same { IfOk result (λ r. found_of field_tree r ≡ (FieldTree span (declarator_tree declarator) (optional_expr width) (attributes_at tokens.now).0, (attributes_at tokens.now).1)) }
    ensures height { IfOk result (λ r. r.height ≡ capped (nest (field_tree r.tree))) }
    ensures shorter { IfOk result (λ r. length r.rest.now ≤ length tokens.now) }
{
    let (attributes, rest) = attributes_at(alloc, tokens)?;
    Ok(Found {
        tree: Field::Declared {
            span,
            declarator: declarator.into_inner(),
            width,
            attributes,
        },
        height,
        rest,
    })
}

#[tactic(auto, unfolding(c_parse_rules::specs::TypeRules::named_field_at))]
fn named_field_at<'a, B: Below<'a>>(
    below: &B,
    alloc: Global,
    names: &mut TypeNames,
    before: Before,
    tokens: &'a [Token],
) -> Result<Option<Found<'a, Field>>, AllocError>
    requires { B.works below.now }
    ensures found { IfOk result (λ r. IsFound field_tree (named_field_at (B.depth below.now) names.old.names (before_of before) tokens.now) names.old.names names.new.names tokens.now r) }
    ensures kept { kept names.new ≡ kept names.old }
{
    let span = first_span(tokens);
    let Some(found) = below.declarator(alloc, names, Purpose::Member, before, tokens)? else {
        return Ok(None);
    };
    let declarator = Boxed::new(alloc, found.tree)?;
    let Some(inside) = behind_punctuator(found.rest, Punctuator::Colon) else {
        return Ok(Some(field_end(alloc, span, declarator, None, found.height, found.rest)?));
    };
    match below.expr(alloc, names, 2, inside)? {
        None => Ok(None),
        Some(width) => Ok(Some(field_end(
            alloc,
            span,
            declarator,
            Some(width.tree),
            deeper(found.height, width.height),
            width.rest,
        )?)),
    }
}

// A bit-field without a name, behind its colon.
#[tactic(auto, unfolding(c_parse_rules::specs::TypeRules::padding_at))]
fn padding_at<'a, B: Below<'a>>(
    below: &B,
    alloc: Global,
    names: &mut TypeNames,
    span: Span,
    tokens: &'a [Token],
) -> Result<Option<Found<'a, Field>>, AllocError>
    requires { B.works below.now }
    ensures found { IfOk result (λ r. IsFound field_tree (padding_at (B.depth below.now) span names.old.names tokens.now) names.old.names names.new.names tokens.now r) }
    ensures kept { kept names.new ≡ kept names.old }
{
    match below.expr(alloc, names, 2, tokens)? {
        None => Ok(None),
        Some(width) => Ok(Some(Found {
            tree: Field::Padding {
                span,
                width: width.tree,
            },
            height: width.height,
            rest: width.rest,
        })),
    }
}

fn field_inside<'a, B: Below<'a>>(
    below: &B,
    alloc: Global,
    names: &mut TypeNames,
    before: Before,
    tokens: &'a [Token],
) -> Result<Option<Found<'a, Field>>, AllocError>
    requires { B.works below.now }
    ensures found { IfOk result (λ r. IsFound field_tree (field_at (B.depth below.now) names.old.names (before_of before) tokens.now) names.old.names names.new.names tokens.now r) }
    ensures kept { kept names.new ≡ kept names.old }
{
    match tokens.split_first() {
        None => Ok(None),
        Some((first, rest)) => {
            if is_punctuator(&first.word, Punctuator::Colon) {
                padding_at(below, alloc, names, first.span, rest)
            } else {
                named_field_at(below, alloc, names, before, tokens)
            }
        }
    }
}

fn field_at<'a, B: Below<'a>>(
    below: &B,
    alloc: Global,
    names: &mut TypeNames,
    before: Before,
    tokens: &'a [Token],
) -> Result<Option<Found<'a, Field>>, AllocError>
    requires { B.works below.now }
    ensures found { IfOk result (λ r. IsFound field_tree (field_at (B.depth below.now) names.old.names (before_of before) tokens.now) names.old.names names.new.names tokens.now r) }
    ensures unchanged { IfOk result (λ r. IfNone r (names.new.names ≡ names.old.names)) }
    ensures kept { kept names.new ≡ kept names.old }
{
    let scope = names.enter();
    let found = field_inside(below, alloc, names, before, tokens);
    close(names, scope, tokens, found)
}

fn next_field<'a, B: Below<'a>>(
    below: &B,
    alloc: Global,
    names: &mut TypeNames,
    before: Before,
    tokens: &'a [Token],
) -> Result<Option<Found<'a, Field>>, AllocError>
    requires { B.works below.now }
    ensures found { IfOk result (λ r. IsFound field_tree (next_field (B.depth below.now) (before_of before) names.old.names tokens.now) names.old.names names.new.names tokens.now r) }
    ensures unchanged { IfOk result (λ r. IfNone r (names.new.names ≡ names.old.names)) }
    ensures kept { kept names.new ≡ kept names.old }
{
    match behind_punctuator(tokens, Punctuator::Comma) {
        None => Ok(None),
        Some(rest) => field_at(below, alloc, names, before, rest),
    }
}

// Fields behind commas, after those that were found before.
fn more_fields<'a, B: Below<'a>>(
    below: &B,
    alloc: Global,
    names: &mut TypeNames,
    before: Before,
    first: Vec<Field>,
    deepest: u32,
    tokens: &'a [Token],
) -> Result<Several<'a, Field>, AllocError>
    requires works { B.works below.now }
    requires height { deepest ≡ capped (nest_all (fields_of first.items)) }
    ensures found { IfOk result (λ s. AreFound field_tree first.items (all_fields (B.depth below.now) (before_of before) (map field_tree first.items) names.old.names tokens.now) names.old.names names.new.names tokens.now s) }
    ensures kept { kept names.new ≡ kept names.old }
{
    let mut found = first;
    let mut height = deepest;
    let mut rest = tokens;
    'reading: while let Some(next) = next_field(below, alloc, names, before, rest)? {
        height = deeper(height, next.height);
        found.push(next.tree)?;
        rest = next.rest;
    }
    Ok(Several {
        trees: Items::from_vec(found),
        height,
        rest,
    })
}

// The fields behind their specifiers, as many as there are.
#[tactic(auto, unfolding(c_parse_attributes::specs::TypesAtDepth::all_fields))]
fn fields_from<'a, B: Below<'a>>(
    below: &B,
    alloc: Global,
    names: &mut TypeNames,
    before: Before,
    tokens: &'a [Token],
) -> Result<Several<'a, Field>, AllocError>
    requires { B.works below.now }
    ensures found { IfOk result (λ s. AreFound field_tree [] (fields_from (B.depth below.now) (before_of before) names.old.names tokens.now) names.old.names names.new.names tokens.now s) }
    ensures kept { kept names.new ≡ kept names.old }
{
    let mut found = Vec::new(alloc);
    match field_at(below, alloc, names, before, tokens)? {
        None => Ok(Several {
            trees: Items::from_vec(found),
            height: flat(),
            rest: tokens,
        }),
        Some(first) => {
            found.push(first.tree)?;
            more_fields(below, alloc, names, before, found, first.height, first.rest)
        }
    }
}

// The semicolon behind fields.
fn fields_end<'a>(
    span: Span,
    specifiers: Several<'a, Specifier>,
    fields: Several<'a, Field>,
) -> Option<Found<'a, Member>>
    requires specifiers { specifiers.height ≡ capped (nest_all (specifiers_of specifiers.trees)) }
    requires fields { fields.height ≡ capped (nest_all (fields_of fields.trees)) }
    ensures found { (d : _) (old : _) → IsFound member_tree (fields_end d span (map specifier_tree specifiers.entry.trees, specifiers.entry.rest.now) (map field_tree fields.entry.trees, fields.entry.rest.now)) old (after_all (after_all old (specifiers_of specifiers.entry.trees)) (fields_of fields.entry.trees)) fields.entry.rest.now result }
{
    match behind_punctuator(fields.rest, Punctuator::Semicolon) {
        None => None,
        Some(rest) => Some(Found {
            tree: Member::Fields {
                span,
                specifiers: specifiers.trees,
                fields: fields.trees,
            },
            height: above(deeper(specifiers.height, fields.height)),
            rest,
        }),
    }
}

fn fields_at<'a, B: Below<'a>>(
    below: &B,
    alloc: Global,
    names: &mut TypeNames,
    span: Span,
    tokens: &'a [Token],
) -> Result<Option<Found<'a, Member>>, AllocError>
    requires { B.works below.now }
    ensures found { IfOk result (λ r. IsFound member_tree (fields_at (B.depth below.now) span names.old.names tokens.now) names.old.names names.new.names tokens.now r) }
    ensures kept { kept names.new ≡ kept names.old }
{
    let (specifiers, before) = specifiers_below(below, alloc, names, Purpose::Member, tokens)?;
    if is_none(&specifiers) {
        return Ok(None);
    }
    let fields = fields_from(below, alloc, names, before, specifiers.rest)?;
    Ok(fields_end(span, specifiers, fields))
}

// Behind the condition of an assertion.
fn assertion_end<'a>(
    alloc: Global,
    names: &mut TypeNames,
    span: Span,
    condition: Found<'a, Expr>,
) -> Result<Option<Found<'a, Member>>, AllocError>
    requires height { condition.height ≡ capped (nest (tree_of condition.tree)) }
    ensures found { (old : _) → IfOk result (λ r. IsFound member_tree (assertion_end span (tree_of condition.entry.tree) condition.entry.rest.now) old (after old (tree_of condition.entry.tree)) condition.entry.rest.now r) }
    ensures same { names.new ≡ names.old }
{
    let tree = Boxed::new(alloc, condition.tree)?;
    let Some(comma) = behind_punctuator(condition.rest, Punctuator::Comma) else {
        return Ok(None);
    };
    let Some((bytes, behind)) = expect_literal(names, comma) else {
        return Ok(None);
    };
    let (literals, end) = literals_at(alloc, bytes, behind)?;
    let Some(closing) = expect_punctuator(names, end, Punctuator::CloseParenthesis) else {
        return Ok(None);
    };
    match expect_punctuator(names, closing, Punctuator::Semicolon) {
        None => Ok(None),
        Some(rest) => Ok(Some(Found {
            tree: Member::Assertion {
                span,
                condition: tree.into_inner(),
                literals,
            },
            height: above(condition.height),
            rest,
        })),
    }
}

// Behind the word `_Static_assert` (C11 6.7.10).
#[tactic(auto, unfolding(c_parse_rules::specs::TypeRules::assertion_at))]
fn assertion_at<'a, B: Below<'a>>(
    below: &B,
    alloc: Global,
    names: &mut TypeNames,
    span: Span,
    tokens: &'a [Token],
) -> Result<Option<Found<'a, Member>>, AllocError>
    requires { B.works below.now }
    ensures found { IfOk result (λ r. IsFound member_tree (assertion_at (B.depth below.now) span names.old.names tokens.now) names.old.names names.new.names tokens.now r) }
    ensures kept { kept names.new ≡ kept names.old }
{
    let Some(inside) = expect_punctuator(names, tokens, Punctuator::OpenParenthesis) else {
        return Ok(None);
    };
    match below.expr(alloc, names, 2, inside)? {
        None => Ok(None),
        Some(condition) => assertion_end(alloc, names, span, condition),
    }
}

fn member_inside<'a, B: Below<'a>>(
    below: &B,
    alloc: Global,
    names: &mut TypeNames,
    tokens: &'a [Token],
) -> Result<Option<Found<'a, Member>>, AllocError>
    requires { B.works below.now }
    ensures found { IfOk result (λ r. IsFound member_tree (member_at (B.depth below.now) names.old.names tokens.now) names.old.names names.new.names tokens.now r) }
    ensures kept { kept names.new ≡ kept names.old }
{
    match tokens.split_first() {
        None => Ok(None),
        Some((first, rest)) => {
            if is_keyword(&first.word, Keyword::StaticAssert) {
                assertion_at(below, alloc, names, first.span, rest)
            } else {
                fields_at(below, alloc, names, first.span, tokens)
            }
        }
    }
}

fn member_at<'a, B: Below<'a>>(
    below: &B,
    alloc: Global,
    names: &mut TypeNames,
    tokens: &'a [Token],
) -> Result<Option<Found<'a, Member>>, AllocError>
    requires { B.works below.now }
    ensures found { IfOk result (λ r. IsFound member_tree (member_at (B.depth below.now) names.old.names tokens.now) names.old.names names.new.names tokens.now r) }
    ensures unchanged { IfOk result (λ r. IfNone r (names.new.names ≡ names.old.names)) }
    ensures kept { kept names.new ≡ kept names.old }
{
    let scope = names.enter();
    let found = member_inside(below, alloc, names, tokens);
    close(names, scope, tokens, found)
}

/// The members of a struct or union, as many as there are.
pub fn members_at<'a, B: Below<'a>>(
    below: &B,
    alloc: Global,
    names: &mut TypeNames,
    tokens: &'a [Token],
) -> Result<Several<'a, Member>, AllocError>
    requires { B.works below.now }
    ensures found { IfOk result (λ s. AreFound member_tree [] (all_members (B.depth below.now) names.old.names tokens.now) names.old.names names.new.names tokens.now s) }
    ensures kept { kept names.new ≡ kept names.old }
{
    let mut found = Vec::new(alloc);
    let mut height = flat();
    let mut rest = tokens;
    'reading: while let Some(next) = member_at(below, alloc, names, rest)? {
        height = deeper(height, next.height);
        found.push(next.tree)?;
        rest = next.rest;
    }
    Ok(Several {
        trees: Items::from_vec(found),
        height,
        rest,
    })
}
