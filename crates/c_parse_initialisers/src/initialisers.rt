//! Initialisers (C11 6.7.9).
ghost use Rattle.std.specs.Prelude.{◌≡◌, ◌<◌, ◌≤◌, ◌∷◌, [], ◌&&◌, drop, length, map, not, option_map, IfOk, IfSome};
ghost use Rattle.c_base.specs.declared.token.Punctuator.TheVariants as mark;
ghost use Rattle.c_parse_rules.specs.Declaring.{starts};
ghost use Rattle.c_parse_rules.specs.Tokens.{is_mark};
ghost use Rattle.c_parse_base.specs.KnownNames.{kept};
ghost use Rattle.grammar.specs.Forms.{Mark, Node, Place, Group, Nil};
ghost use Rattle.grammar.specs.Reading.{listed, several};
ghost use Rattle.c_grammar.specs.declared.rule.Rule.TheVariants as rule;
ghost use Rattle.c_grammar.specs.declared.rule.Sort.TheVariants as sort;
ghost use Rattle.c_grammar.specs.Leaves.{C};
ghost use Rattle.c_grammar.specs.Table.{begins_designator, designation, designator, initialiser, item, last_comma, on_designator, on_next_item};
ghost use Rattle.c_unit_tree.specs.Views.{braces_tree, designator_kids, expr_value, initialiser_kids, initialiser_tree, item_kids, kids, listing, other, some};
ghost use Rattle.c_parse_initialisers.specs.Reads.{at, NoLonger, ReadsForm, ReadsRule, ReadsSort, Shortens};

use crate::parts::{expr_at, on_punctuator, place_at};
use c_base::number::Span;
use c_base::token::{Punctuator, Token};
use c_parse_base::expecting::{expect_name, expect_punctuator};
use c_parse_base::names::TypeNames;
use c_tree::tree::Expr;
use c_unit_tree::declaration::{Braces, Designator, Initialiser, Item};
use sqlite_items::Items;
use std::alloc::{AllocError, Global};

fn on_designator(tokens: &[Token]) -> bool
    ensures { result ≡ starts begins_designator tokens.now }
{
    on_punctuator(tokens, Punctuator::OpenBracket) || on_punctuator(tokens, Punctuator::Dot)
}

// "[" constant "]" | "." name
#[tactic(auto, unfolding(c_grammar::specs::Table::designator))]
fn designator_at<'a>(
    alloc: Global,
    depth: u32,
    names: &mut TypeNames,
    tokens: &'a [Token],
) -> Result<Option<(Designator<Expr>, &'a [Token])>, AllocError>
    requires depth { depth < 999999 }
    ensures found { ReadsForm designator_kids depth designator names.old.names names.new.names tokens.now result }
    ensures shorter { Shortens tokens.now result }
    ensures kept { kept names.new ≡ kept names.old }
{
    if on_punctuator(tokens, Punctuator::OpenBracket) {
        let Some(inside) = expect_punctuator(names, tokens, Punctuator::OpenBracket) else {
            return Ok(None);
        };
        let Some((index, behind)) = expr_at(alloc, depth, names, 2, inside)? else {
            return Ok(None);
        };
        return match expect_punctuator(names, behind, Punctuator::CloseBracket) {
            None => Ok(None),
            Some(rest) => Ok(Some((Designator::Index(index), rest))),
        };
    }
    let Some(inside) = expect_punctuator(names, tokens, Punctuator::Dot) else {
        return Ok(None);
    };
    match expect_name(names, inside) {
        None => Ok(None),
        Some((name, rest)) => Ok(Some((Designator::Member(name.duplicate(alloc)?), rest))),
    }
}

fn more_designators<'a>(
    alloc: Global,
    depth: u32,
    names: &mut TypeNames,
    before: Vec<Designator<Expr>>,
    tokens: &'a [Token],
) -> Result<Option<(Vec<Designator<Expr>>, &'a [Token])>, AllocError>
    requires depth { depth < 999999 }
    ensures found { IfOk result (λ r. option_map (λ f. (map designator_kids f.0.items, names.new.names, f.1.now)) r ≡ several C (at depth designator) on_designator (map designator_kids before.items) names.old.names tokens.now) }
    ensures shorter { NoLonger tokens.now result }
    ensures grown { IfOk result (λ r. IfSome r (λ f. length before.items ≤ length f.0.items)) }
    ensures kept { kept names.new ≡ kept names.old }
{
    let mut found = before;
    let mut rest = tokens;
    'reading: while on_designator(rest) {
        match designator_at(alloc, depth, names, rest)? {
            None => return Ok(None),
            Some((designator, next)) => {
                found.push(designator)?;
                rest = next;
            }
        }
    }
    Ok(Some((found, rest)))
}

// designator { designator }
#[tactic(auto, unfolding(grammar::specs::Reading::listed))]
fn designators_at<'a>(
    alloc: Global,
    depth: u32,
    names: &mut TypeNames,
    tokens: &'a [Token],
) -> Result<Option<(Items<Designator<Expr>>, &'a [Token])>, AllocError>
    requires depth { depth < 999999 }
    ensures found { IfOk result (λ r. option_map (λ f. (map designator_kids f.0, names.new.names, f.1.now)) r ≡ listed C (at depth designator) (at depth designator) on_designator names.old.names tokens.now) }
    ensures shorter { Shortens tokens.now result }
    ensures there { IfOk result (λ r. IfSome r (λ f. 1 ≤ length f.0)) }
    ensures kept { kept names.new ≡ kept names.old }
{
    let mut found = Vec::new(alloc);
    let Some((first, behind)) = designator_at(alloc, depth, names, tokens)? else {
        return Ok(None);
    };
    found.push(first)?;
    match more_designators(alloc, depth, names, found, behind)? {
        None => Ok(None),
        Some((all, rest)) => Ok(Some((Items::from_vec(all), rest))),
    }
}

// designators "="
#[tactic(auto, unfolding(c_grammar::specs::Table::designation))]
fn designation_at<'a>(
    alloc: Global,
    depth: u32,
    names: &mut TypeNames,
    tokens: &'a [Token],
) -> Result<Option<(Items<Designator<Expr>>, &'a [Token])>, AllocError>
    requires depth { depth < 999999 }
    ensures found { IfOk result (λ r. option_map (λ f. (kids (listing (map designator_kids f.0) ∷ []), names.new.names, f.1.now)) r ≡ at depth designation names.old.names tokens.now) }
    ensures shorter { Shortens tokens.now result }
    ensures there { IfOk result (λ r. IfSome r (λ f. 1 ≤ length f.0)) }
    ensures kept { kept names.new ≡ kept names.old }
{
    let Some((designators, behind)) = designators_at(alloc, depth, names, tokens)? else {
        return Ok(None);
    };
    match expect_punctuator(names, behind, Punctuator::Assign) {
        None => Ok(None),
        Some(rest) => Ok(Some((designators, rest))),
    }
}

// ---- nodes

fn expression_of(value: Expr) -> Initialiser<Expr>
    ensures { initialiser_tree result ≡ other (expr_value value ∷ []) }
{
    Initialiser::Expression(value)
}

fn braced(braces: Braces<Expr>) -> Initialiser<Expr>
    ensures { initialiser_tree result ≡ some (braces_tree braces ∷ []) }
{
    Initialiser::Braces(braces)
}

fn plain_item(alloc: Global, value: Initialiser<Expr>) -> Item<Expr>
    ensures { item_kids result ≡ kids (other [] ∷ initialiser_tree value ∷ []) }
{
    Item {
        designators: Items::new(alloc),
        value,
    }
}

fn designated_item(designators: Items<Designator<Expr>>, value: Initialiser<Expr>) -> Item<Expr>
    requires there { 1 ≤ length designators }
    ensures { item_kids result ≡ kids (some (listing (map designator_kids designators) ∷ []) ∷ initialiser_tree value ∷ []) }
{
    Item { designators, value }
}

fn braces_of(span: Span, items: Items<Item<Expr>>, comma: bool) -> Braces<Expr>
    ensures { braces_tree result ≡ Node rule.Braces (kids (Place span ∷ listing (map item_kids items) ∷ Group comma Nil ∷ [])) }
{
    Braces { span, items, comma }
}

// ---- braces

fn on_next_item(tokens: &[Token]) -> bool
    ensures { result ≡ starts (is_mark mark.Comma) tokens.now && not (starts (is_mark mark.CloseBrace) (drop 1 tokens.now)) }
{
    match tokens.split_first() {
        None => false,
        Some((first, rest)) => {
            c_parse_base::words::is_punctuator(&first.word, Punctuator::Comma)
                && !on_punctuator(rest, Punctuator::CloseBrace)
        }
    }
}

// [ "," ] "}"
#[tactic(auto, unfolding(c_grammar::specs::Table::last_comma))]
fn braces_end<'a>(
    depth: u32,
    names: &mut TypeNames,
    tokens: &'a [Token],
) -> Option<(bool, &'a [Token])>
    ensures found { option_map (λ f. (kids (Group f.0 Nil ∷ []), names.old.names, f.1.now)) result ≡ at depth last_comma names.old.names tokens.now }
    ensures shorter { IfSome result (λ f. length f.1.now < length tokens.now) }
    ensures same { names.new ≡ names.old }
{
    if on_punctuator(tokens, Punctuator::Comma) {
        let Some(behind) = expect_punctuator(names, tokens, Punctuator::Comma) else {
            return None;
        };
        return match expect_punctuator(names, behind, Punctuator::CloseBrace) {
            None => None,
            Some(rest) => Some((true, rest)),
        };
    }
    match expect_punctuator(names, tokens, Punctuator::CloseBrace) {
        None => None,
        Some(rest) => Some((false, rest)),
    }
}

/// What stands behind `=`, and the tokens behind it.
#[tactic(auto, unfolding(c_grammar::specs::Table::initialiser))]
#[cycle(braces)]
pub fn initialiser_at<'a>(
    alloc: Global,
    depth: u32,
    names: &mut TypeNames,
    tokens: &'a [Token],
) -> Result<Option<(Initialiser<Expr>, &'a [Token])>, AllocError>
    requires depth { depth < 999999 }
    ensures found { ReadsForm initialiser_kids depth initialiser names.old.names names.new.names tokens.now result }
    ensures shorter { Shortens tokens.now result }
    ensures kept { kept names.new ≡ kept names.old }
{
    if on_punctuator(tokens, Punctuator::OpenBrace) {
        return match braces_at(alloc, depth, names, tokens)? {
            None => Ok(None),
            Some((braces, rest)) => Ok(Some((braced(braces), rest))),
        };
    }
    match expr_at(alloc, depth, names, 1, tokens)? {
        None => Ok(None),
        Some((value, rest)) => Ok(Some((expression_of(value), rest))),
    }
}

#[cycle(braces)]
fn braces_at<'a>(
    alloc: Global,
    depth: u32,
    names: &mut TypeNames,
    tokens: &'a [Token],
) -> Result<Option<(Braces<Expr>, &'a [Token])>, AllocError>
    requires depth { depth < 999999 }
    ensures found { ReadsSort braces_tree depth sort.Braces names.old.names names.new.names tokens.now result }
    ensures shorter { Shortens tokens.now result }
    ensures kept { kept names.new ≡ kept names.old }
{
    if depth == 0 {
        names.refuse(tokens);
        return Ok(None);
    }
    braces_rule(alloc, depth - 1, names, tokens)
}

#[cycle(braces)]
fn braces_rule<'a>(
    alloc: Global,
    depth: u32,
    names: &mut TypeNames,
    tokens: &'a [Token],
) -> Result<Option<(Braces<Expr>, &'a [Token])>, AllocError>
    requires depth { depth < 999999 }
    ensures found { ReadsRule braces_tree depth rule.Braces names.old.names names.new.names tokens.now result }
    ensures shorter { Shortens tokens.now result }
    ensures kept { kept names.new ≡ kept names.old }
{
    let Some(span) = place_at(tokens) else {
        return Ok(None);
    };
    let Some(inside) = expect_punctuator(names, tokens, Punctuator::OpenBrace) else {
        return Ok(None);
    };
    let Some((items, behind)) = items_at(alloc, depth, names, inside)? else {
        return Ok(None);
    };
    match braces_end(depth, names, behind) {
        None => Ok(None),
        Some((comma, rest)) => Ok(Some((braces_of(span, items, comma), rest))),
    }
}

// item { "," item }
#[tactic(auto, unfolding(grammar::specs::Reading::listed))]
#[cycle(braces)]
fn items_at<'a>(
    alloc: Global,
    depth: u32,
    names: &mut TypeNames,
    tokens: &'a [Token],
) -> Result<Option<(Items<Item<Expr>>, &'a [Token])>, AllocError>
    requires depth { depth < 999999 }
    ensures found { IfOk result (λ r. option_map (λ f. (map item_kids f.0, names.new.names, f.1.now)) r ≡ listed C (at depth item) (at depth (Mark mark.Comma item)) on_next_item names.old.names tokens.now) }
    ensures shorter { Shortens tokens.now result }
    ensures kept { kept names.new ≡ kept names.old }
{
    let mut found = Vec::new(alloc);
    let Some((first, behind)) = item_at(alloc, depth, names, tokens)? else {
        return Ok(None);
    };
    found.push(first)?;
    match more_items(alloc, depth, names, found, behind)? {
        None => Ok(None),
        Some((all, rest)) => Ok(Some((Items::from_vec(all), rest))),
    }
}

#[cycle(braces)]
fn more_items<'a>(
    alloc: Global,
    depth: u32,
    names: &mut TypeNames,
    before: Vec<Item<Expr>>,
    tokens: &'a [Token],
) -> Result<Option<(Vec<Item<Expr>>, &'a [Token])>, AllocError>
    requires depth { depth < 999999 }
    ensures found { IfOk result (λ r. option_map (λ f. (map item_kids f.0.items, names.new.names, f.1.now)) r ≡ several C (at depth (Mark mark.Comma item)) on_next_item (map item_kids before.items) names.old.names tokens.now) }
    ensures shorter { NoLonger tokens.now result }
    ensures kept { kept names.new ≡ kept names.old }
{
    let mut found = before;
    let mut rest = tokens;
    'reading: while on_next_item(rest) {
        match next_item(alloc, depth, names, rest)? {
            None => return Ok(None),
            Some((item, next)) => {
                found.push(item)?;
                rest = next;
            }
        }
    }
    Ok(Some((found, rest)))
}

// "," item
#[cycle(braces)]
fn next_item<'a>(
    alloc: Global,
    depth: u32,
    names: &mut TypeNames,
    tokens: &'a [Token],
) -> Result<Option<(Item<Expr>, &'a [Token])>, AllocError>
    requires depth { depth < 999999 }
    ensures found { ReadsForm item_kids depth (Mark mark.Comma item) names.old.names names.new.names tokens.now result }
    ensures shorter { Shortens tokens.now result }
    ensures kept { kept names.new ≡ kept names.old }
{
    match expect_punctuator(names, tokens, Punctuator::Comma) {
        None => Ok(None),
        Some(inside) => match item_at(alloc, depth, names, inside)? {
            None => Ok(None),
            Some((item, rest)) => Ok(Some((item, rest))),
        },
    }
}

// [ designation ] initialiser
#[tactic(auto, unfolding(c_grammar::specs::Table::item))]
#[cycle(braces)]
fn item_at<'a>(
    alloc: Global,
    depth: u32,
    names: &mut TypeNames,
    tokens: &'a [Token],
) -> Result<Option<(Item<Expr>, &'a [Token])>, AllocError>
    requires depth { depth < 999999 }
    ensures found { ReadsForm item_kids depth item names.old.names names.new.names tokens.now result }
    ensures shorter { Shortens tokens.now result }
    ensures kept { kept names.new ≡ kept names.old }
{
    if on_designator(tokens) {
        let Some((designators, behind)) = designation_at(alloc, depth, names, tokens)? else {
            return Ok(None);
        };
        return match initialiser_at(alloc, depth, names, behind)? {
            None => Ok(None),
            Some((value, rest)) => Ok(Some((designated_item(designators, value), rest))),
        };
    }
    match initialiser_at(alloc, depth, names, tokens)? {
        None => Ok(None),
        Some((value, rest)) => Ok(Some((plain_item(alloc, value), rest))),
    }
}
