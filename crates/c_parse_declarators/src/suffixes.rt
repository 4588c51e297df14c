//! What stands behind a declarator's name (C11 6.7.6.2 and 6.7.6.3).
ghost use Rattle.std.specs.Prelude.{◌≡◌, ◌∷◌, suc, ◌+◌, ◌<◌, length, map, max, option_copied, IfOk, OnOk, IfNone, IfSome};
ghost use Rattle.c_tree.specs.Nesting.{nest_all};
ghost use Rattle.c_tree.specs.Views.{declarator_tree, optional_expr, parameters_of, suffix_tree, type_name_tree};
ghost use Rattle.c_tree.specs.WellFormed.{after, after_all, after_parameter, declared_name, ForParameter};
ghost use Rattle.c_parse_base.specs.Heights.{capped};
ghost use Rattle.c_parse_base.specs.KnownNames.{kept};
ghost use Rattle.c_parse_rules.specs.Parsers.{typing_at};
ghost use Rattle.c_parse_base.specs.Reads.{IsFound};
ghost use Rattle.c_parse_attributes.specs.ReadsTypes.{AreListed, AreStacked, IsDeclared};
ghost use Rattle.c_parse_attributes.specs.TypesAtDepth.{all_parameters, all_suffixes, array_at, array_end, closed_at, ellipsis_at, function_at, function_of, next_parameter, suffix_at, suffix_of};

use c_base::name::Name;
use c_base::number::Span;
use c_base::token::{Keyword, Punctuator, Token, Word};
use c_parse_attributes::array_words_at;
use c_parse_base::below::Below;
use c_parse_base::found::{Found, Several};
use c_parse_base::height::{CAP, above, deeper, flat};
use c_parse_base::names::TypeNames;
use c_parse_base::purpose::Purpose;
use c_parse_base::scope::close;
use c_parse_base::words::behind_punctuator;
use c_tree::tree::{Core, Declarator, Expr, Suffix, TypeName};
use sqlite_items::Items;
use std::alloc::{AllocError, Global};

/// One number of nodes above another.
#[tactic(auto, unfolding(c_parse_base::specs::Heights::capped))]
pub fn plus(left: u32, right: u32) -> u32
    ensures exact { (m n : _) → left ≡ capped m → right ≡ capped n → result ≡ capped (m + n) }
{
    if left >= CAP || right >= CAP {
        return CAP;
    }
    let sum = left + right;
    if sum < CAP { sum } else { CAP }
}

// The closing bracket.
fn array_end<'a>(
    span: Span,
    qualifiers: Items<Keyword>,
    bound: Option<Expr>,
    height: u32,
    tokens: &'a [Token],
) -> Option<Found<'a, Suffix>>
    requires height { height ≡ capped (nest_all (optional_expr bound)) }
    ensures found { (old : _) → IsFound suffix_tree (array_end span qualifiers (optional_expr bound) tokens.now) old (after_all old (optional_expr bound)) tokens.now result }
{
    let Some(rest) = behind_punctuator(tokens, Punctuator::CloseBracket) else {
        drop(bound);
        return None;
    };
    Some(Found {
        tree: Suffix::Array {
            span,
            qualifiers,
            bound,
        },
        height,
        rest,
    })
}

// Behind the `[`.
fn array_at<'a, B: Below<'a>>(
    below: &B,
    alloc: Global,
    names: &mut TypeNames,
    span: Span,
    tokens: &'a [Token],
) -> Result<Option<Found<'a, Suffix>>, AllocError>
    requires { B.works below.now }
    ensures found { IfOk result (λ r. IsFound suffix_tree (array_at (B.depth below.now) span names.old.names tokens.now) names.old.names names.new.names tokens.now r) }
    ensures kept { kept names.new ≡ kept names.old }
{
    let (qualifiers, inside) = array_words_at(alloc, tokens)?;
    match below.expr(alloc, names, 1, inside)? {
        None => Ok(array_end(span, qualifiers, None, flat(), inside)),
        Some(bound) => Ok(array_end(span, qualifiers, Some(bound.tree), bound.height, bound.rest)),
    }
}

/// The name that a declarator declares.
pub fn declared_name(declarator: &Declarator) -> Option<&Name>
    ensures { option_copied result ≡ declared_name (declarator_tree declarator.now) }
{
    let mut inner = declarator;
    'entering: while let Core::Group {
        span: _,
        inner: next,
    } = &inner.core
    {
        inner = next.get();
    }
    match &inner.core {
        Core::Named { span: _, name } => Some(name),
        _ => None,
    }
}

// Declares the name of a parameter, if it has one, for those that follow.
fn declare(alloc: Global, names: &mut TypeNames, parameter: &TypeName) -> Result<(), AllocError>
    ensures names { OnOk result ((before : _) → names.old.names ≡ after before (type_name_tree parameter.now) → names.new.names ≡ after_parameter before (type_name_tree parameter.now)) }
    ensures kept { kept names.new ≡ kept names.old }
{
    match &parameter.declarator {
        None => Ok(()),
        Some(declarator) => match declared_name(declarator) {
            None => Ok(()),
            Some(name) => names.declare(name.duplicate(alloc)?, false),
        },
    }
}

fn parameter_at<'a, B: Below<'a>>(
    below: &B,
    alloc: Global,
    names: &mut TypeNames,
    tokens: &'a [Token],
) -> Result<Option<Found<'a, TypeName>>, AllocError>
    requires { B.works below.now }
    ensures found { IfOk result (λ r. IsDeclared type_name_tree (typing_at (B.depth below.now) ForParameter names.old.names tokens.now) names.old.names names.new.names tokens.now r) }
    ensures kept { kept names.new ≡ kept names.old }
{
    match below.typing(alloc, names, Purpose::Parameter, tokens)? {
        None => Ok(None),
        Some(parameter) => {
            declare(alloc, names, &parameter.tree)?;
            Ok(Some(parameter))
        }
    }
}

fn next_parameter<'a, B: Below<'a>>(
    below: &B,
    alloc: Global,
    names: &mut TypeNames,
    tokens: &'a [Token],
) -> Result<Option<Found<'a, TypeName>>, AllocError>
    requires { B.works below.now }
    ensures found { IfOk result (λ r. IsDeclared type_name_tree (next_parameter (B.depth below.now) names.old.names tokens.now) names.old.names names.new.names tokens.now r) }
    ensures kept { kept names.new ≡ kept names.old }
{
    match behind_punctuator(tokens, Punctuator::Comma) {
        None => Ok(None),
        Some(rest) => parameter_at(below, alloc, names, rest),
    }
}

// Parameters behind commas, after those that were found before.
fn more_parameters<'a, B: Below<'a>>(
    below: &B,
    alloc: Global,
    names: &mut TypeNames,
    before: Vec<TypeName>,
    deepest: u32,
    tokens: &'a [Token],
) -> Result<Several<'a, TypeName>, AllocError>
    requires works { B.works below.now }
    requires height { deepest ≡ capped (nest_all (parameters_of before.items)) }
    ensures found { IfOk result (λ s. AreListed type_name_tree (all_parameters (B.depth below.now) (map type_name_tree before.items) names.old.names tokens.now) tokens.now s) }
    ensures kept { kept names.new ≡ kept names.old }
{
    let mut found = before;
    let mut height = deepest;
    let mut rest = tokens;
    'reading: while let Some(next) = next_parameter(below, alloc, names, rest)? {
        height = deeper(height, next.height);
        found.push(next.tree)?;
        rest = next.rest;
    }
    Ok(Several {
        trees: Items::from_vec(found),
        height,
        rest,
    })
}

#[tactic(auto, unfolding(c_parse_rules::specs::TypeRules::ellipsis_at))]
fn ellipsis_at(tokens: &[Token]) -> Option<&[Token]>
    ensures found { (d : _) → option_copied result ≡ ellipsis_at d tokens.now }
    ensures shorter { IfSome result (λ rest. length rest.now < length tokens.now) }
{
    let Some(rest) = behind_punctuator(tokens, Punctuator::Comma) else {
        return None;
    };
    behind_punctuator(rest, Punctuator::Ellipsis)
}

// The closing parenthesis.
fn closed_at<'a>(
    span: Span,
    parameters: Items<TypeName>,
    height: u32,
    variadic: bool,
    tokens: &'a [Token],
) -> Option<Found<'a, Suffix>>
    requires height { height ≡ capped (nest_all (parameters_of parameters)) }
    ensures found { (known : _) → IsFound suffix_tree (closed_at span (map type_name_tree parameters) variadic tokens.now) known known tokens.now result }
{
    match behind_punctuator(tokens, Punctuator::CloseParenthesis) {
        None => None,
        Some(rest) => Some(Found {
            tree: Suffix::Function {
                span,
                parameters,
                variadic,
            },
            height,
            rest,
        }),
    }
}

// Behind the parameters.
fn function_of<'a>(span: Span, parameters: Several<'a, TypeName>) -> Option<Found<'a, Suffix>>
    requires height { parameters.height ≡ capped (nest_all (parameters_of parameters.trees)) }
    ensures found { (d : _) (known : _) → IsFound suffix_tree (function_of d span (map type_name_tree parameters.entry.trees, parameters.entry.rest.now)) known known parameters.entry.rest.now result }
{
    match ellipsis_at(parameters.rest) {
        None => closed_at(
            span,
            parameters.trees,
            parameters.height,
            false,
            parameters.rest,
        ),
        Some(rest) => closed_at(span, parameters.trees, parameters.height, true, rest),
    }
}

// Behind the `(`. The parameters stay declared.
#[tactic(auto, unfolding(c_parse_attributes::specs::TypesAtDepth::all_parameters))]
fn function_inside<'a, B: Below<'a>>(
    below: &B,
    alloc: Global,
    names: &mut TypeNames,
    span: Span,
    tokens: &'a [Token],
) -> Result<Option<Found<'a, Suffix>>, AllocError>
    requires { B.works below.now }
    ensures found { IfOk result (λ r. IsFound suffix_tree (function_at (B.depth below.now) span names.old.names tokens.now) names.old.names names.old.names tokens.now r) }
    ensures kept { kept names.new ≡ kept names.old }
{
    match parameter_at(below, alloc, names, tokens)? {
        None => Ok(closed_at(span, Items::new(alloc), flat(), false, tokens)),
        Some(first) => {
            let mut found = Vec::new(alloc);
            found.push(first.tree)?;
            let all = more_parameters(below, alloc, names, found, first.height, first.rest)?;
            Ok(function_of(span, all))
        }
    }
}

// Behind the `(`.
fn function_at<'a, B: Below<'a>>(
    below: &B,
    alloc: Global,
    names: &mut TypeNames,
    span: Span,
    tokens: &'a [Token],
) -> Result<Option<Found<'a, Suffix>>, AllocError>
    requires { B.works below.now }
    ensures found { IfOk result (λ r. IsFound suffix_tree (function_at (B.depth below.now) span names.old.names tokens.now) names.old.names names.new.names tokens.now r) }
    ensures kept { kept names.new ≡ kept names.old }
{
    let scope = names.enter();
    let found = function_inside(below, alloc, names, span, tokens);
    names.leave(scope);
    found
}

fn suffix_of<'a, B: Below<'a>>(
    below: &B,
    alloc: Global,
    names: &mut TypeNames,
    first: &Token,
    tokens: &'a [Token],
) -> Result<Option<Found<'a, Suffix>>, AllocError>
    requires { B.works below.now }
    ensures found { IfOk result (λ r. IsFound suffix_tree (suffix_of (B.depth below.now) names.old.names first.now.span tokens.now first.now.word) names.old.names names.new.names (first.now ∷ tokens.now) r) }
    ensures kept { kept names.new ≡ kept names.old }
{
    match &first.word {
        Word::Punctuator(Punctuator::OpenBracket) => {
            array_at(below, alloc, names, first.span, tokens)
        }
        Word::Punctuator(Punctuator::OpenParenthesis) => {
            function_at(below, alloc, names, first.span, tokens)
        }
        _ => Ok(None),
    }
}

fn suffix_inside<'a, B: Below<'a>>(
    below: &B,
    alloc: Global,
    names: &mut TypeNames,
    tokens: &'a [Token],
) -> Result<Option<Found<'a, Suffix>>, AllocError>
    requires { B.works below.now }
    ensures found { IfOk result (λ r. IsFound suffix_tree (suffix_at (B.depth below.now) names.old.names tokens.now) names.old.names names.new.names tokens.now r) }
    ensures kept { kept names.new ≡ kept names.old }
{
    match tokens.split_first() {
        None => Ok(None),
        Some((first, rest)) => suffix_of(below, alloc, names, first, rest),
    }
}

fn suffix_at<'a, B: Below<'a>>(
    below: &B,
    alloc: Global,
    names: &mut TypeNames,
    tokens: &'a [Token],
) -> Result<Option<Found<'a, Suffix>>, AllocError>
    requires { B.works below.now }
    ensures found { IfOk result (λ r. IsFound suffix_tree (suffix_at (B.depth below.now) names.old.names tokens.now) names.old.names names.new.names tokens.now r) }
    ensures unchanged { IfOk result (λ r. IfNone r (names.new.names ≡ names.old.names)) }
    ensures kept { kept names.new ≡ kept names.old }
{
    let scope = names.enter();
    let found = suffix_inside(below, alloc, names, tokens);
    close(names, scope, tokens, found)
}

// How deep suffixes are with one more below them.
fn stacked(height: u32, count: u32, next: u32) -> u32
    ensures exact { (h m n : _) → height ≡ capped h → count ≡ capped m → next ≡ capped n → result ≡ capped (max h (suc (m + n))) }
{
    deeper(height, above(plus(count, next)))
}

/// Suffixes, as many as there are; how deep they are counts each as a node above the next.
pub fn suffixes_at<'a, B: Below<'a>>(
    below: &B,
    alloc: Global,
    names: &mut TypeNames,
    tokens: &'a [Token],
) -> Result<Several<'a, Suffix>, AllocError>
    requires { B.works below.now }
    ensures found { IfOk result (λ s. AreStacked suffix_tree (all_suffixes (B.depth below.now) names.old.names tokens.now) names.old.names names.new.names tokens.now s) }
    ensures kept { kept names.new ≡ kept names.old }
{
    let mut found = Vec::new(alloc);
    let mut height = flat();
    let mut count = flat();
    let mut rest = tokens;
    'reading: while let Some(next) = suffix_at(below, alloc, names, rest)? {
        height = stacked(height, count, next.height);
        count = above(count);
        found.push(next.tree)?;
        rest = next.rest;
    }
    Ok(Several {
        trees: Items::from_vec(found),
        height,
        rest,
    })
}
