//! `switch` and loops (C11 6.8.4.2 and 6.8.5), each in the scope that is open for it.
ghost use Rattle.std.specs.Prelude.{◌≡◌, ◌<◌};
ghost use Rattle.c_base.specs.declared.token.Keyword.TheVariants as key;
ghost use Rattle.c_base.specs.declared.token.Punctuator.TheVariants as mark;
ghost use Rattle.c_parse_base.specs.KnownNames.{kept};
ghost use Rattle.grammar.specs.Forms.{Key, Mark, Part};
ghost use Rattle.c_grammar.specs.declared.rule.Rule.TheVariants as rule;
ghost use Rattle.c_grammar.specs.Table.{for_first, optional_before};
ghost use Rattle.c_unit_tree.specs.Views.{statement_tree};
ghost use Rattle.c_parse_initialisers.specs.Reads.{ReadsRule, Shortens};
ghost use Rattle.c_parse_heads.specs.Ahead.{ReadsAhead, steps_trees};

use crate::below::StatementsBelow;
use crate::branches::{branch_at, controlled_at};
use crate::nodes::{do_of, for_of, switch_of, while_of};
use c_base::token::{Keyword, Token};
use c_parse_base::names::TypeNames;
use c_parse_base::words::behind_keyword;
use c_parse_heads::heads::{Steps, ending_at, steps_at};
use c_parse_initialisers::parts::place_at;
use c_unit_tree::unit::UnitStatement;
use sqlite_items::Boxed;
use std::alloc::{AllocError, Global};

/// `switch ( expression ) statement`
pub fn switch_inside<'a, B: StatementsBelow<'a>>(
    below: &B,
    alloc: Global,
    names: &mut TypeNames,
    tokens: &'a [Token],
) -> Result<Option<(UnitStatement, &'a [Token])>, AllocError>
    requires { B.works below.now }
    ensures found { ReadsRule statement_tree (B.depth below.now) rule.Switch names.old.names names.old.names tokens.now result }
    ensures shorter { Shortens tokens.now result }
    ensures kept { kept names.new ≡ kept names.old }
{
    let Some(span) = place_at(tokens) else {
        return Ok(None);
    };
    match controlled_at(below, alloc, names, Keyword::Switch, tokens)? {
        None => Ok(None),
        Some((parts, rest)) => Ok(Some((switch_of(alloc, span, parts)?, rest))),
    }
}

/// `while ( expression ) statement`
pub fn while_inside<'a, B: StatementsBelow<'a>>(
    below: &B,
    alloc: Global,
    names: &mut TypeNames,
    tokens: &'a [Token],
) -> Result<Option<(UnitStatement, &'a [Token])>, AllocError>
    requires { B.works below.now }
    ensures found { ReadsRule statement_tree (B.depth below.now) rule.While names.old.names names.old.names tokens.now result }
    ensures shorter { Shortens tokens.now result }
    ensures kept { kept names.new ≡ kept names.old }
{
    let Some(span) = place_at(tokens) else {
        return Ok(None);
    };
    match controlled_at(below, alloc, names, Keyword::While, tokens)? {
        None => Ok(None),
        Some((parts, rest)) => Ok(Some((while_of(alloc, span, parts)?, rest))),
    }
}

/// `do statement while ( expression ) ;`
pub fn do_inside<'a, B: StatementsBelow<'a>>(
    below: &B,
    alloc: Global,
    names: &mut TypeNames,
    tokens: &'a [Token],
) -> Result<Option<(UnitStatement, &'a [Token])>, AllocError>
    requires { B.works below.now }
    ensures found { ReadsRule statement_tree (B.depth below.now) rule.Do names.old.names names.old.names tokens.now result }
    ensures shorter { Shortens tokens.now result }
    ensures kept { kept names.new ≡ kept names.old }
{
    let Some(span) = place_at(tokens) else {
        return Ok(None);
    };
    let Some(inside) = behind_keyword(tokens, Keyword::Do) else {
        return Ok(None);
    };
    match branch_at(below, alloc, names, inside)? {
        None => Ok(None),
        Some((body, end)) => match ending_at(alloc, below.depth(), names, end)? {
            None => Ok(None),
            Some((ending, rest)) => Ok(Some((do_of(alloc, span, body, ending)?, rest))),
        },
    }
}

// What stands in the parentheses of a `for`, boxed, since it is held while its body is read.
fn steps_boxed<'a>(
    alloc: Global,
    depth: u32,
    names: &mut TypeNames,
    tokens: &'a [Token],
) -> Result<Option<(Boxed<Steps>, &'a [Token])>, AllocError>
    requires depth { depth < 999999 }
    ensures found { ReadsAhead steps_trees depth (λ more. Key key.For (Mark mark.OpenParenthesis (Part for_first (optional_before mark.Semicolon (optional_before mark.CloseParenthesis more))))) names.old.names names.new.names tokens.now result }
    ensures shorter { Shortens tokens.now result }
    ensures kept { kept names.new ≡ kept names.old }
{
    match steps_at(alloc, depth, names, tokens)? {
        None => Ok(None),
        Some((steps, rest)) => Ok(Some((Boxed::new(alloc, steps)?, rest))),
    }
}

/// `for ( first second ; third ) statement`
pub fn for_inside<'a, B: StatementsBelow<'a>>(
    below: &B,
    alloc: Global,
    names: &mut TypeNames,
    tokens: &'a [Token],
) -> Result<Option<(UnitStatement, &'a [Token])>, AllocError>
    requires { B.works below.now }
    ensures found { ReadsRule statement_tree (B.depth below.now) rule.For names.old.names names.old.names tokens.now result }
    ensures shorter { Shortens tokens.now result }
    ensures kept { kept names.new ≡ kept names.old }
{
    let Some(span) = place_at(tokens) else {
        return Ok(None);
    };
    match steps_boxed(alloc, below.depth(), names, tokens)? {
        None => Ok(None),
        Some((steps, behind)) => match branch_at(below, alloc, names, behind)? {
            None => Ok(None),
            Some((body, rest)) => Ok(Some((for_of(alloc, span, steps, body)?, rest))),
        },
    }
}
