//! Declarations (C11 6.7).
ghost use Rattle.std.specs.Prelude.{◌≡◌, ◌<◌, ◌≤◌, ◌∷◌, [], ◌||◌, length, map, option_copied, option_map, IfOk, IfSome, OnOk};
ghost use Rattle.c_base.specs.declared.token.Punctuator.TheVariants as mark;
ghost use Rattle.c_tree.specs.Trees.{Next as NextPlain};
ghost use Rattle.c_tree.specs.Views.{declarator_tree, specifier_tree, specifiers_of, tree_of};
ghost use Rattle.c_tree.specs.WellFormed.{declared_name};
ghost use Rattle.c_parse_base.specs.KnownNames.{kept};
ghost use Rattle.grammar.specs.Forms.{Mark, Node, Place, Value};
ghost use Rattle.grammar.specs.Reading.{listed, several, with_kid};
ghost use Rattle.c_grammar.specs.declared.rule.Rule.TheVariants as rule;
ghost use Rattle.c_grammar.specs.declared.rule.Sort.TheVariants as sort;
ghost use Rattle.c_grammar.specs.Leaves.{C, AnExpr, Literals, Specifiers, SpecifierList, read};
ghost use Rattle.c_grammar.specs.Picking.{readers};
ghost use Rattle.c_grammar.specs.Table.{assembly, declarator_rest, declare_as, has_typedef, init_declarator, message, on_mark, with_attributes, with_initialiser};
ghost use Rattle.c_unit_tree.specs.Views.{assembly_kids, assembly_of, declaration_tree, expr_value, init_kids, kids, listing, optional_initialiser, other, rest_kids, some, specifiers_value};
ghost use Rattle.c_parse_decl.specs.Headings.{leaf_of, IsHeading};
ghost use Rattle.c_parse_initialisers.specs.Reads.{at, NoLonger, ReadsForm, ReadsRule, ReadsSort, Shortens};

use c_base::name::Name;
use c_base::number::Span;
use c_base::token::{Keyword, Punctuator, Token};
use c_parse_attributes::attributes_at;
use c_parse_base::expecting::expect_punctuator;
use c_parse_base::names::TypeNames;
use c_parse_base::purpose::Before;
use c_parse_base::words::behind_keyword;
use c_parse_initialisers::initialiser_at;
use c_parse_initialisers::parts::{
    declarator_at, expr_at, on_keyword, on_punctuator, place_at, specifiers_at, string_at,
};
use c_tree::tree::{Core, Declarator, Expr, Specifier};
use c_unit_tree::declaration::{
    Assembly, Declaration, DeclaratorRest, InitDeclarator, Initialiser,
};
use sqlite_items::Items;
use std::alloc::{AllocError, Global};

/// The specifiers of a declaration, what stands before what follows them, and whether `typedef` is among them.
#[derive(Drop)]
pub struct Heading {
    pub specifiers: Items<Specifier>,
    pub before: Before,
    pub is_typedef: bool,
}

fn is_typedef_word(specifier: &Specifier) -> bool
    ensures { (more : _) → has_typedef (NextPlain (specifier_tree specifier.now) more) ≡ (result || has_typedef more) }
{
    match specifier {
        Specifier::Keyword { span: _, keyword } => *keyword == Keyword::Typedef,
        _ => false,
    }
}

// `typedef` is among the specifiers (C11 6.7.1).
fn has_typedef(all: &[Specifier]) -> bool
    ensures { result ≡ has_typedef (specifiers_of all.now) }
{
    let mut found = false;
    for each in all {
        found = found || is_typedef_word(each);
    }
    found
}

/// Specifiers, and the tokens behind them.
pub fn heading_at<'a>(
    alloc: Global,
    depth: u32,
    names: &mut TypeNames,
    tokens: &'a [Token],
) -> Result<Option<(Heading, &'a [Token])>, AllocError>
    requires depth { depth < 999999 }
    ensures found { IfOk result (λ r. option_map (λ f. (leaf_of f.0, names.new.names, f.1.now)) r ≡ read depth SpecifierList names.old.names tokens.now) }
    ensures heading { IfOk result (λ r. IfSome r (λ f. IsHeading f.0)) }
    ensures shorter { Shortens tokens.now result }
    ensures kept { kept names.new ≡ kept names.old }
{
    match specifiers_at(alloc, depth, names, tokens)? {
        None => Ok(None),
        Some((specifiers, before, rest)) => {
            let is_typedef = has_typedef(specifiers.as_slice());
            Ok(Some((
                Heading {
                    specifiers,
                    before,
                    is_typedef,
                },
                rest,
            )))
        }
    }
}

// The name that a declarator declares.
fn declared_name(declarator: &Declarator) -> Option<&Name>
    ensures { option_copied result ≡ declared_name (declarator_tree declarator.now) }
{
    let mut inner = declarator;
    'entering: while let Core::Group {
        span: _,
        inner: next,
    } = &inner.core
    {
        inner = next.get();
    }
    match &inner.core {
        Core::Named { span: _, name } => Some(name),
        _ => None,
    }
}

/// Declares the name of a declarator, as a typedef name or an ordinary one.
pub fn declare(
    alloc: Global,
    names: &mut TypeNames,
    is_typedef: bool,
    declarator: &Declarator,
) -> Result<(), AllocError>
    ensures names { OnOk result (names.new.names ≡ declare_as is_typedef (declared_name (declarator_tree declarator.now)) names.old.names) }
    ensures kept { kept names.new ≡ kept names.old }
{
    match declared_name(declarator) {
        None => Ok(()),
        Some(name) => names.declare(name.duplicate(alloc)?, is_typedef),
    }
}

// ---- what stands behind a declarator

// [ "=" initialiser ]
#[tactic(auto, unfolding(c_grammar::specs::Table::with_initialiser))]
fn value_at<'a>(
    alloc: Global,
    depth: u32,
    names: &mut TypeNames,
    tokens: &'a [Token],
) -> Result<Option<(Option<Initialiser<Expr>>, &'a [Token])>, AllocError>
    requires depth { depth < 999999 }
    ensures found { ReadsForm optional_initialiser depth with_initialiser names.old.names names.new.names tokens.now result }
    ensures shorter { NoLonger tokens.now result }
    ensures kept { kept names.new ≡ kept names.old }
{
    if !on_punctuator(tokens, Punctuator::Assign) {
        return Ok(Some((None, tokens)));
    }
    let Some(inside) = expect_punctuator(names, tokens, Punctuator::Assign) else {
        return Ok(None);
    };
    match initialiser_at(alloc, depth, names, inside)? {
        None => Ok(None),
        Some((value, rest)) => Ok(Some((Some(value), rest))),
    }
}

// { attribute } [ "=" initialiser ], behind an assembly label or none
#[tactic(auto, unfolding(c_grammar::specs::Table::with_attributes))]
fn behind_assembly<'a>(
    alloc: Global,
    depth: u32,
    names: &mut TypeNames,
    label: Option<Assembly>,
    tokens: &'a [Token],
) -> Result<Option<(DeclaratorRest, &'a [Token])>, AllocError>
    requires depth { depth < 999999 }
    ensures found { IfOk result (λ r. option_map (λ f. (rest_kids f.0, names.new.names, f.1.now)) r ≡ with_kid C (assembly_of label) (at depth with_attributes names.old.names tokens.now)) }
    ensures shorter { NoLonger tokens.now result }
    ensures kept { kept names.new ≡ kept names.old }
{
    let (attributes, behind) = attributes_at(alloc, tokens)?;
    match value_at(alloc, depth, names, behind)? {
        None => Ok(None),
        Some((initialiser, rest)) => Ok(Some((
            DeclaratorRest {
                assembly: label,
                attributes,
                initialiser,
            },
            rest,
        ))),
    }
}

// "__asm__" "(" string ")"
#[tactic(auto, unfolding(c_grammar::specs::Table::assembly))]
fn assembly_at<'a>(
    alloc: Global,
    depth: u32,
    names: &mut TypeNames,
    tokens: &'a [Token],
) -> Result<Option<(Assembly, &'a [Token])>, AllocError>
    ensures found { ReadsForm assembly_kids depth assembly names.old.names names.new.names tokens.now result }
    ensures shorter { Shortens tokens.now result }
    ensures kept { kept names.new ≡ kept names.old }
{
    let Some(open) = behind_keyword(tokens, Keyword::Asm) else {
        return Ok(None);
    };
    let Some(inside) = expect_punctuator(names, open, Punctuator::OpenParenthesis) else {
        return Ok(None);
    };
    let Some((literals, behind)) = string_at(alloc, depth, names, inside)? else {
        return Ok(None);
    };
    match expect_punctuator(names, behind, Punctuator::CloseParenthesis) {
        None => Ok(None),
        Some(rest) => Ok(Some((Assembly { literals }, rest))),
    }
}

/// What stands behind a declarator, and the tokens behind it.
#[tactic(auto, unfolding(c_grammar::specs::Table::declarator_rest))]
pub fn rest_at<'a>(
    alloc: Global,
    depth: u32,
    names: &mut TypeNames,
    tokens: &'a [Token],
) -> Result<Option<(DeclaratorRest, &'a [Token])>, AllocError>
    requires depth { depth < 999999 }
    ensures found { ReadsForm rest_kids depth declarator_rest names.old.names names.new.names tokens.now result }
    ensures shorter { NoLonger tokens.now result }
    ensures kept { kept names.new ≡ kept names.old }
{
    if on_keyword(tokens, Keyword::Asm) {
        return match assembly_at(alloc, depth, names, tokens)? {
            None => Ok(None),
            Some((label, behind)) => behind_assembly(alloc, depth, names, Some(label), behind),
        };
    }
    behind_assembly(alloc, depth, names, None, tokens)
}

// ---- declarators

#[tactic(auto, unfolding(c_grammar::specs::Table::init_declarator))]
fn init_declarator_at<'a>(
    alloc: Global,
    depth: u32,
    names: &mut TypeNames,
    heading: &Heading,
    tokens: &'a [Token],
) -> Result<Option<(InitDeclarator, &'a [Token])>, AllocError>
    requires depth { depth < 999999 }
    requires heading { IsHeading heading.now }
    ensures found { ReadsForm init_kids depth (init_declarator (leaf_of heading.now)) names.old.names names.new.names tokens.now result }
    ensures shorter { Shortens tokens.now result }
    ensures kept { kept names.new ≡ kept names.old }
{
    let Some((declarator, behind)) = declarator_at(alloc, depth, names, heading.before, tokens)?
    else {
        return Ok(None);
    };
    declare(alloc, names, heading.is_typedef, &declarator)?;
    match rest_at(alloc, depth, names, behind)? {
        None => Ok(None),
        Some((rest, end)) => Ok(Some((InitDeclarator { declarator, rest }, end))),
    }
}

// "," declarator
fn next_declarator<'a>(
    alloc: Global,
    depth: u32,
    names: &mut TypeNames,
    heading: &Heading,
    tokens: &'a [Token],
) -> Result<Option<(InitDeclarator, &'a [Token])>, AllocError>
    requires depth { depth < 999999 }
    requires heading { IsHeading heading.now }
    ensures found { ReadsForm init_kids depth (Mark mark.Comma (init_declarator (leaf_of heading.now))) names.old.names names.new.names tokens.now result }
    ensures shorter { Shortens tokens.now result }
    ensures kept { kept names.new ≡ kept names.old }
{
    match expect_punctuator(names, tokens, Punctuator::Comma) {
        None => Ok(None),
        Some(inside) => init_declarator_at(alloc, depth, names, heading, inside),
    }
}

/// Further declarators, each behind a comma, and the tokens behind them.
pub fn more_declarators<'a>(
    alloc: Global,
    depth: u32,
    names: &mut TypeNames,
    heading: &Heading,
    before: Vec<InitDeclarator>,
    tokens: &'a [Token],
) -> Result<Option<(Vec<InitDeclarator>, &'a [Token])>, AllocError>
    requires depth { depth < 999999 }
    requires heading { IsHeading heading.now }
    ensures found { IfOk result (λ r. option_map (λ f. (map init_kids f.0.items, names.new.names, f.1.now)) r ≡ several C (at depth (Mark mark.Comma (init_declarator (leaf_of heading.now)))) (on_mark mark.Comma) (map init_kids before.items) names.old.names tokens.now) }
    ensures shorter { NoLonger tokens.now result }
    ensures grown { IfOk result (λ r. IfSome r (λ f. length before.items ≤ length f.0.items)) }
    ensures kept { kept names.new ≡ kept names.old }
{
    let mut found = before;
    let mut rest = tokens;
    'reading: while on_punctuator(rest, Punctuator::Comma) {
        match next_declarator(alloc, depth, names, heading, rest)? {
            None => return Ok(None),
            Some((declarator, next)) => {
                found.push(declarator)?;
                rest = next;
            }
        }
    }
    Ok(Some((found, rest)))
}

// declarator { "," declarator }
#[tactic(auto, unfolding(grammar::specs::Reading::listed))]
fn declarators_at<'a>(
    alloc: Global,
    depth: u32,
    names: &mut TypeNames,
    heading: &Heading,
    tokens: &'a [Token],
) -> Result<Option<(Items<InitDeclarator>, &'a [Token])>, AllocError>
    requires depth { depth < 999999 }
    requires heading { IsHeading heading.now }
    ensures found { IfOk result (λ r. option_map (λ f. (map init_kids f.0, names.new.names, f.1.now)) r ≡ listed C (at depth (init_declarator (leaf_of heading.now))) (at depth (Mark mark.Comma (init_declarator (leaf_of heading.now)))) (on_mark mark.Comma) names.old.names tokens.now) }
    ensures shorter { Shortens tokens.now result }
    ensures there { IfOk result (λ r. IfSome r (λ f. 1 ≤ length f.0)) }
    ensures kept { kept names.new ≡ kept names.old }
{
    let mut found = Vec::new(alloc);
    let Some((first, behind)) = init_declarator_at(alloc, depth, names, heading, tokens)? else {
        return Ok(None);
    };
    found.push(first)?;
    match more_declarators(alloc, depth, names, heading, found, behind)? {
        None => Ok(None),
        Some((all, rest)) => Ok(Some((Items::from_vec(all), rest))),
    }
}

// ---- declarations

fn bare_declaration(alloc: Global, span: Span, heading: Heading) -> Declaration
    ensures { declaration_tree result ≡ Node rule.Declaration (kids (Place span ∷ Value (leaf_of heading) ∷ other [] ∷ [])) }
{
    Declaration::Declarators {
        span,
        specifiers: heading.specifiers,
        declarators: Items::new(alloc),
    }
}

fn declaration_of(span: Span, heading: Heading, declarators: Items<InitDeclarator>) -> Declaration
    requires there { 1 ≤ length declarators }
    ensures { declaration_tree result ≡ Node rule.Declaration (kids (Place span ∷ Value (leaf_of heading) ∷ some (listing (map init_kids declarators) ∷ []) ∷ [])) }
{
    Declaration::Declarators {
        span,
        specifiers: heading.specifiers,
        declarators,
    }
}

// specifiers [ declarators ] ";"
fn declaration_rule<'a>(
    alloc: Global,
    depth: u32,
    names: &mut TypeNames,
    tokens: &'a [Token],
) -> Result<Option<(Declaration, &'a [Token])>, AllocError>
    requires depth { depth < 999999 }
    ensures found { ReadsRule declaration_tree depth rule.Declaration names.old.names names.new.names tokens.now result }
    ensures shorter { Shortens tokens.now result }
    ensures kept { kept names.new ≡ kept names.old }
{
    let Some(span) = place_at(tokens) else {
        return Ok(None);
    };
    let Some((heading, behind)) = heading_at(alloc, depth, names, tokens)? else {
        return Ok(None);
    };
    if on_punctuator(behind, Punctuator::Semicolon) {
        return match expect_punctuator(names, behind, Punctuator::Semicolon) {
            None => Ok(None),
            Some(rest) => Ok(Some((bare_declaration(alloc, span, heading), rest))),
        };
    }
    let Some((declarators, end)) = declarators_at(alloc, depth, names, &heading, behind)? else {
        return Ok(None);
    };
    match expect_punctuator(names, end, Punctuator::Semicolon) {
        None => Ok(None),
        Some(rest) => Ok(Some((declaration_of(span, heading, declarators), rest))),
    }
}

// "," string ")" ";", the end of an assertion
#[tactic(auto, unfolding(c_grammar::specs::Table::message))]
fn message_at<'a>(
    alloc: Global,
    depth: u32,
    names: &mut TypeNames,
    tokens: &'a [Token],
) -> Result<Option<(Assembly, &'a [Token])>, AllocError>
    ensures found { ReadsForm assembly_kids depth message names.old.names names.new.names tokens.now result }
    ensures shorter { Shortens tokens.now result }
    ensures kept { kept names.new ≡ kept names.old }
{
    let Some(inside) = expect_punctuator(names, tokens, Punctuator::Comma) else {
        return Ok(None);
    };
    let Some((literals, behind)) = string_at(alloc, depth, names, inside)? else {
        return Ok(None);
    };
    let Some(end) = expect_punctuator(names, behind, Punctuator::CloseParenthesis) else {
        return Ok(None);
    };
    match expect_punctuator(names, end, Punctuator::Semicolon) {
        None => Ok(None),
        Some(rest) => Ok(Some((Assembly { literals }, rest))),
    }
}

/// `_Static_assert`, and the tokens behind it (C11 6.7.10).
pub fn assertion_rule<'a>(
    alloc: Global,
    depth: u32,
    names: &mut TypeNames,
    tokens: &'a [Token],
) -> Result<Option<(Declaration, &'a [Token])>, AllocError>
    requires depth { depth < 999999 }
    ensures found { ReadsRule declaration_tree depth rule.Assertion names.old.names names.new.names tokens.now result }
    ensures shorter { Shortens tokens.now result }
    ensures kept { kept names.new ≡ kept names.old }
{
    let Some(span) = place_at(tokens) else {
        return Ok(None);
    };
    let Some(open) = behind_keyword(tokens, Keyword::StaticAssert) else {
        return Ok(None);
    };
    let Some(inside) = expect_punctuator(names, open, Punctuator::OpenParenthesis) else {
        return Ok(None);
    };
    let Some((condition, behind)) = expr_at(alloc, depth, names, 2, inside)? else {
        return Ok(None);
    };
    match message_at(alloc, depth, names, behind)? {
        None => Ok(None),
        Some((message, rest)) => Ok(Some((
            Declaration::Assertion {
                span,
                condition,
                literals: message.literals,
            },
            rest,
        ))),
    }
}

/// A declaration that nests no deeper, and the tokens behind it.
pub fn declaration_at<'a>(
    alloc: Global,
    depth: u32,
    names: &mut TypeNames,
    tokens: &'a [Token],
) -> Result<Option<(Declaration, &'a [Token])>, AllocError>
    requires depth { depth < 999999 }
    ensures found { ReadsSort declaration_tree depth sort.Declaration names.old.names names.new.names tokens.now result }
    ensures shorter { Shortens tokens.now result }
    ensures kept { kept names.new ≡ kept names.old }
{
    if depth == 0 {
        names.refuse(tokens);
        return Ok(None);
    }
    if on_keyword(tokens, Keyword::StaticAssert) {
        assertion_rule(alloc, depth - 1, names, tokens)
    } else {
        declaration_rule(alloc, depth - 1, names, tokens)
    }
}
