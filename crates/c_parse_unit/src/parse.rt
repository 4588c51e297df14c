//! Units (C11 6.9).
ghost use Rattle.std.specs.Prelude.{◌≡◌, ◌<◌, [], map, option_map, Err, IfOk};
ghost use Rattle.grammar.specs.Forms.{Done, Sub};
ghost use Rattle.grammar.specs.Reading.{several};
ghost use Rattle.c_grammar.specs.declared.rule.Sort.TheVariants as sort;
ghost use Rattle.c_grammar.specs.Leaves.{C};
ghost use Rattle.c_grammar.specs.Units.{on_token, parse_unit};
ghost use Rattle.c_unit_tree.specs.Views.{external_kids, unit_kids};
ghost use Rattle.c_parse_expr.specs.Places.{IsRefusedAt};
ghost use Rattle.c_parse_expr.specs.declared.fault.ParseFault.TheVariants as fault;
ghost use Rattle.c_parse_initialisers.specs.Reads.{at, ReadsForm, Shortens};
ghost use Rattle.c_parse_unit.specs.Promises.{HasNoUnit, IsUnitRead};

use crate::externals::external_at;
use c_base::token::Token;
use c_parse_base::names::TypeNames;
use c_parse_expr::fault::ParseFault;
use c_parse_expr::parse::{MOST_NESTING, refused_at};
use c_unit_tree::unit::{External, Unit};
use sqlite_items::Items;
use std::alloc::{AllocError, Global};

// A token is left, whatever the names.
fn on_token(names: &TypeNames, tokens: &[Token]) -> bool
    ensures { result ≡ on_token names.now.names tokens.now }
{
    let _ = names;
    match tokens.split_first() {
        None => false,
        Some(_) => true,
    }
}

// An external declaration, as an element of a unit.
fn next_external<'a>(
    alloc: Global,
    depth: u32,
    names: &mut TypeNames,
    tokens: &'a [Token],
) -> Result<Option<(External, &'a [Token])>, AllocError>
    requires depth { depth < 999999 }
    ensures found { ReadsForm external_kids depth (Sub sort.External Done) names.old.names names.new.names tokens.now result }
    ensures shorter { Shortens tokens.now result }
{
    external_at(alloc, depth, names, tokens)
}

// External declarations up to the last token.
fn externals_at(
    alloc: Global,
    depth: u32,
    names: &mut TypeNames,
    tokens: &[Token],
) -> Result<Option<Items<External>>, AllocError>
    requires depth { depth < 999999 }
    ensures found { IfOk result (λ r. option_map (λ all. (map external_kids all, names.new.names, [])) r ≡ several C (at depth (Sub sort.External Done)) on_token [] names.old.names tokens.now) }
{
    let mut found = Vec::new(alloc);
    let mut rest = tokens;
    'reading: while on_token(names, rest) {
        match next_external(alloc, depth, names, rest)? {
            None => return Ok(None),
            Some((external, next)) => {
                found.push(external)?;
                rest = next;
            }
        }
    }
    Ok(Some(Items::from_vec(found)))
}

// A unit that nests no deeper.
fn unit_within(
    alloc: Global,
    depth: u32,
    names: &mut TypeNames,
    tokens: &[Token],
) -> Result<Option<Unit>, AllocError>
    requires depth { depth < 999999 }
    requires names { names.now.names ≡ [] }
    ensures found { IfOk result (λ r. option_map (λ u. (unit_kids u, names.new.names, [])) r ≡ parse_unit depth tokens.now) }
{
    match externals_at(alloc, depth, names, tokens)? {
        None => Ok(None),
        Some(externals) => Ok(Some(Unit { externals })),
    }
}

/// The unit that the tokens spell (C11 6.9). Its nodes nest at most 200 deep. A refusal tells the first token with which no unit goes on, as far as one
/// look ahead tells it; inside an attribute it is the attribute's first word.
pub fn parse_unit(alloc: Global, tokens: &[Token]) -> Result<Unit, ParseFault>
    ensures parsed { IfOk result (λ u. IsUnitRead 200 (unit_kids u) tokens.now) }
    ensures none { (at : _) → result ≡ Err (fault.Syntax at) → HasNoUnit 200 tokens.now }
    ensures place { (at : _) → result ≡ Err (fault.Syntax at) → IsRefusedAt tokens.now 0 at }
{
    let mut names = TypeNames::new(alloc);
    match unit_within(alloc, MOST_NESTING, &mut names, tokens)? {
        Some(unit) => Ok(unit),
        None => Err(ParseFault::Syntax {
            at: refused_at(tokens, 0, names.unread()),
        }),
    }
}
