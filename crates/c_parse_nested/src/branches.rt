//! Substatements, with which what is declared in them ends (C11 6.8.4p3 and 6.8.5p5).
ghost use Rattle.std.specs.Prelude.{◌≡◌, ◌∷◌, []};
ghost use Rattle.c_parse_base.specs.KnownNames.{kept};
ghost use Rattle.grammar.specs.Forms.{Key};
ghost use Rattle.c_grammar.specs.Table.{branch, parenthesised};
ghost use Rattle.c_unit_tree.specs.Views.{branch_of, statement_tree};
ghost use Rattle.c_parse_initialisers.specs.Reads.{Shortens};
ghost use Rattle.c_parse_heads.specs.Ahead.{ReadsAhead};
ghost use Rattle.c_parse_nested.specs.Controls.{controlled_trees};

use crate::below::StatementsBelow;
use c_base::token::{Keyword, Token};
use c_parse_base::names::TypeNames;
use c_parse_heads::heads::tested_at;
use c_tree::tree::Expr;
use c_unit_tree::unit::UnitStatement;
use std::alloc::{AllocError, Global};

/// A controlling expression and what it controls.
#[derive(Drop)]
pub struct Controlled {
    pub control: Expr,
    pub body: UnitStatement,
}

/// A substatement, and the tokens behind it.
pub fn branch_at<'a, B: StatementsBelow<'a>>(
    below: &B,
    alloc: Global,
    names: &mut TypeNames,
    tokens: &'a [Token],
) -> Result<Option<(UnitStatement, &'a [Token])>, AllocError>
    requires { B.works below.now }
    ensures found { ReadsAhead (λ s. branch_of (statement_tree s) ∷ []) (B.depth below.now) branch names.old.names names.old.names tokens.now result }
    ensures shorter { Shortens tokens.now result }
    ensures same { names.new.names ≡ names.old.names }
    ensures kept { kept names.new ≡ kept names.old }
{
    let scope = names.enter();
    let found = below.statement(alloc, names, tokens);
    names.leave(scope);
    found
}

/// `keyword ( expression ) statement`
pub fn controlled_at<'a, B: StatementsBelow<'a>>(
    below: &B,
    alloc: Global,
    names: &mut TypeNames,
    keyword: Keyword,
    tokens: &'a [Token],
) -> Result<Option<(Controlled, &'a [Token])>, AllocError>
    requires { B.works below.now }
    ensures found { ReadsAhead controlled_trees (B.depth below.now) (λ more. Key keyword (parenthesised (branch more))) names.old.names names.new.names tokens.now result }
    ensures shorter { Shortens tokens.now result }
    ensures kept { kept names.new ≡ kept names.old }
{
    match tested_at(alloc, below.depth(), names, keyword, tokens)? {
        None => Ok(None),
        Some((control, behind)) => match branch_at(below, alloc, names, behind)? {
            None => Ok(None),
            Some((body, rest)) => Ok(Some((Controlled { control, body }, rest))),
        },
    }
}
