//! Expressions and type names at a place of a token list.
ghost use Rattle.std.specs.Prelude.{◌≡◌, ◌<◌, ◌≤◌, drop, length, option_map, Some, Err, IfOk};
ghost use Rattle.c_tree.specs.Views.{tree_of, type_name_tree};
ghost use Rattle.c_parse_rules.specs.Found.{HasNone};
ghost use Rattle.c_parse_expr.specs.Places.{place_of_token, IsRefusedAt};
ghost use Rattle.c_parse_base.specs.KnownNames.{kept};
ghost use Rattle.c_parse_rules.specs.Parsers.{expr_at};
ghost use Rattle.c_parse_rules.specs.Promises.{IsExprRead, IsParsed, IsTypingRead};
ghost use Rattle.c_parse_base.specs.Purposes.{purpose_of};
ghost use Rattle.c_parse_expr.specs.declared.fault.ParseFault.TheVariants as fault;
ghost use Rattle.c_parse_base.specs.declared.purpose.Purpose.TheVariants as asked;

use crate::asking::Ask;
use crate::fault::ParseFault;
use crate::reader::{as_expr, as_typing, read_at};
use c_base::number::Span;
use c_base::token::Token;
use c_parse_base::names::TypeNames;
use c_parse_base::purpose::Purpose;
use c_tree::tree::{Expr, TypeName};
use std::alloc::{AllocError, Global};

/// How deep a tree may nest, counted from the external declaration.
pub const MOST_NESTING: u32 = 200;

/// The longest expression of at least this level that the tokens begin with, and the tokens behind it: level 0 is an expression, 1 one without commas,
/// 2 a constant expression (C11 6.6). Its nodes nest at most `depth` deep. The enumeration constants that it declares are declared.
pub fn expr_within<'a>(
    alloc: Global,
    depth: u32,
    names: &mut TypeNames,
    least: u32,
    tokens: &'a [Token],
) -> Result<Option<(Expr, &'a [Token])>, AllocError>
    requires depth { depth < 1000000 }
    requires level { least ≤ 14 }
    ensures read { IfOk result (λ r. IsExprRead least depth names.old.names names.new.names tokens.now (option_map (λ f. (tree_of f.0, f.1.now)) r)) }
    ensures found { IfOk result (λ r. option_map (λ f. (tree_of f.0, f.1.now)) r ≡ expr_at depth names.old.names least tokens.now) }
    ensures kept { kept names.new ≡ kept names.old }
{
    match read_at(alloc, depth, names, Ask::Expr(least), tokens)? {
        None => Ok(None),
        Some(found) => Ok(Some((as_expr(found.tree), found.rest))),
    }
}

/// A type name (C11 6.7.7) or a parameter (C11 6.7.6) before a `)` or a comma, and the tokens behind it. Its nodes nest at most `depth` deep.
pub fn typing_within<'a>(
    alloc: Global,
    depth: u32,
    names: &mut TypeNames,
    purpose: Purpose,
    tokens: &'a [Token],
) -> Result<Option<(TypeName, &'a [Token])>, AllocError>
    requires depth { depth < 1000000 }
    requires purpose { purpose ≡ asked.Member → ⊥ }
    ensures read { IfOk result (λ r. IsTypingRead (purpose_of purpose) depth names.old.names names.new.names tokens.now (option_map (λ f. (type_name_tree f.0, f.1.now)) r)) }
    ensures kept { kept names.new ≡ kept names.old }
{
    match read_at(alloc, depth, names, Ask::Typing(purpose), tokens)? {
        None => Ok(None),
        Some(found) => Ok(Some((as_typing(found.tree), found.rest))),
    }
}

// The place of the token with this number, which is there.
fn place_of(tokens: &[Token], number: usize) -> Span
    requires { number < length tokens.now }
    ensures { place_of_token tokens.now number ≡ Some result }
{
    tokens[number].span
}

/// The place of the furthest token that was refused, of which so many were left, or of the last of the list; the first place of a file
/// where there is no token.
pub fn refused_at(tokens: &[Token], start: usize, unread: usize) -> Span
    requires { start ≤ length tokens.now }
    ensures { IsRefusedAt tokens.now start result }
{
    let count = tokens.len();
    if count == 0 {
        return Span { line: 1, col: 1 };
    }
    if 0 < unread && unread <= count - start {
        place_of(tokens, count - unread)
    } else {
        place_of(tokens, count - 1)
    }
}

/// The longest expression that the tokens from `start` on begin with, and the position behind it (C11 6.5). Its nodes nest at most 200 deep.
/// A refusal tells the first token at which no expression goes on; inside an attribute it is the attribute's first word.
pub fn parse_expr(
    alloc: Global,
    tokens: &[Token],
    start: usize,
    names: &TypeNames,
) -> Result<(Expr, usize), ParseFault>
    requires { start ≤ length tokens.now }
    ensures parsed { IfOk result (λ x. IsParsed names.now.names 0 200 (drop start tokens.now) (tree_of x.0) (drop x.1 tokens.now)) }
    ensures within { IfOk result (λ x. x.1 ≤ length tokens.now) }
    ensures none { (at : _) → result ≡ Err (fault.Syntax at) → HasNone names.now.names 0 200 (drop start tokens.now) }
    ensures place { (at : _) → result ≡ Err (fault.Syntax at) → IsRefusedAt tokens.now start at }
{
    let mut known = names.duplicate(alloc)?;
    match expr_within(alloc, MOST_NESTING, &mut known, 0, &tokens[start..])? {
        Some((expr, rest)) => Ok((expr, tokens.len() - rest.len())),
        None => Err(ParseFault::Syntax {
            at: refused_at(tokens, start, known.unread()),
        }),
    }
}
