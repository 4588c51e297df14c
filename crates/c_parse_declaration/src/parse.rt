//! Declarations at a place of a token list.
ghost use Rattle.std.specs.Prelude.{◌≡◌, ◌≤◌, ◌<◌, drop, length, None, Some, Err, IfNone, IfOk, OnErr};
ghost use Rattle.grammar.specs.Promises.{IsRead};
ghost use Rattle.c_grammar.specs.declared.rule.Sort.TheVariants as sort;
ghost use Rattle.c_grammar.specs.Leaves.{C};
ghost use Rattle.c_grammar.specs.Table.{table};
ghost use Rattle.c_unit_tree.specs.Views.{declaration_tree};
ghost use Rattle.c_parse_base.specs.Reads.{closed};
ghost use Rattle.c_parse_expr.specs.Places.{IsRefusedAt};
ghost use Rattle.c_parse_expr.specs.declared.fault.ParseFault.TheVariants as fault;
ghost use Rattle.c_parse_initialisers.specs.Reads.{ReadsSort};

use c_base::token::Token;
use c_parse_base::names::TypeNames;
use c_parse_decl::declarations::declaration_at;
use c_parse_expr::fault::ParseFault;
use c_parse_expr::parse::{MOST_NESTING, refused_at};
use c_unit_tree::declaration::Declaration;
use std::alloc::{AllocError, Global};

// Closes the scope in which something was read: what was declared in it stays only where that was found.
fn settle<T>(names: &mut TypeNames, below: usize, found: &Result<Option<T>, AllocError>)
    requires { below ≤ names.now.floor }
    ensures names { names.new.names ≡ closed names.old found.now }
    ensures floor { names.new.floor ≡ below }
{
    match found {
        Ok(Some(_)) => names.merge(below),
        Ok(None) => names.leave(below),
        Err(_) => names.leave(below),
    }
}

// A declaration; where there is none, the names are as before.
fn declaration_within<'a>(
    alloc: Global,
    depth: u32,
    names: &mut TypeNames,
    tokens: &'a [Token],
) -> Result<Option<(Declaration, &'a [Token])>, AllocError>
    requires depth { depth < 999999 }
    ensures found { ReadsSort declaration_tree depth sort.Declaration names.old.names names.new.names tokens.now result }
    ensures unchanged { IfOk result (λ r. IfNone r (names.new.names ≡ names.old.names)) }
    ensures failed { OnErr result (names.new.names ≡ names.old.names) }
    ensures floor { names.new.floor ≡ names.old.floor }
{
    let below = names.enter();
    let found = declaration_at(alloc, depth, names, tokens);
    settle(names, below, &found);
    found
}

/// The declaration that the tokens from `start` on begin with (C11 6.7), and the position behind it. Its nodes nest at most 200 deep. The names that it
/// declares are declared; after a refusal, also for want of memory, the names are as before. A refusal tells the first token at which no declaration
/// goes on, as far as these names know; inside an attribute it is the attribute's first word.
pub fn parse_declaration(
    alloc: Global,
    tokens: &[Token],
    start: usize,
    names: &mut TypeNames,
) -> Result<(Declaration, usize), ParseFault>
    requires { start ≤ length tokens.now }
    ensures parsed { IfOk result (λ x. IsRead C table 200 sort.Declaration names.old.names (drop start tokens.now) (Some (declaration_tree x.0, names.new.names, drop x.1 tokens.now))) }
    ensures within { IfOk result (λ x. x.1 ≤ length tokens.now) }
    ensures none { (at : _) → result ≡ Err (fault.Syntax at) → IsRead C table 200 sort.Declaration names.old.names (drop start tokens.now) None }
    ensures place { (at : _) → result ≡ Err (fault.Syntax at) → IsRefusedAt tokens.now start at }
    ensures unchanged { OnErr result (names.new.names ≡ names.old.names) }
    ensures floor { names.new.floor ≡ names.old.floor }
{
    match declaration_within(alloc, MOST_NESTING, names, &tokens[start..])? {
        Some((declaration, rest)) => Ok((declaration, tokens.len() - rest.len())),
        None => Err(ParseFault::Syntax {
            at: refused_at(tokens, start, names.unread()),
        }),
    }
}
