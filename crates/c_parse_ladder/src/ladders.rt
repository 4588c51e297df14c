//! Ladders, along which nothing recurses.
ghost use Rattle.std.specs.Prelude.{◌≡◌, ◌∷◌, [], map, option_map, IfOk};
ghost use Rattle.c_parse_base.specs.KnownNames.{kept};
ghost use Rattle.grammar.specs.Forms.{Many};
ghost use Rattle.grammar.specs.Reading.{several};
ghost use Rattle.c_grammar.specs.declared.rule.Rule.TheVariants as rule;
ghost use Rattle.c_grammar.specs.Leaves.{C};
ghost use Rattle.c_grammar.specs.Table.{arm, last, on_else_if};
ghost use Rattle.c_unit_tree.specs.Views.{arm_kids, kids, last_of, statement_tree};
ghost use Rattle.c_parse_initialisers.specs.Reads.{at, NoLonger, ReadsForm, ReadsRule, Shortens};
ghost use Rattle.c_parse_ladder.specs.Ladders.{ladder_trees};

use crate::nodes::{Ladder, UnitArm, arm_of, if_of};
use c_base::token::{Keyword, Token};
use c_parse_base::names::TypeNames;
use c_parse_base::words::behind_keyword;
use c_parse_initialisers::parts::{on_keyword, place_at};
use c_parse_nested::below::StatementsBelow;
use c_parse_nested::branches::{branch_at, controlled_at};
use c_parse_simple::picking::on_else_if;
use c_unit_tree::unit::UnitStatement;
use sqlite_items::{Boxed, Items};
use std::alloc::{AllocError, Global};

// "else" "if" "(" expression ")" statement
#[tactic(auto, unfolding(c_grammar::specs::Table::arm))]
fn arm_at<'a, B: StatementsBelow<'a>>(
    below: &B,
    alloc: Global,
    names: &mut TypeNames,
    tokens: &'a [Token],
) -> Result<Option<(UnitArm, &'a [Token])>, AllocError>
    requires { B.works below.now }
    ensures found { ReadsForm arm_kids (B.depth below.now) arm names.old.names names.new.names tokens.now result }
    ensures shorter { Shortens tokens.now result }
    ensures kept { kept names.new ≡ kept names.old }
{
    let Some(first) = behind_keyword(tokens, Keyword::Else) else {
        return Ok(None);
    };
    let Some(span) = place_at(first) else {
        return Ok(None);
    };
    match controlled_at(below, alloc, names, Keyword::If, first)? {
        None => Ok(None),
        Some((parts, rest)) => Ok(Some((arm_of(span, parts), rest))),
    }
}

// Further arms of a ladder.
fn arms_at<'a, B: StatementsBelow<'a>>(
    below: &B,
    alloc: Global,
    names: &mut TypeNames,
    tokens: &'a [Token],
) -> Result<Option<(Items<UnitArm>, &'a [Token])>, AllocError>
    requires { B.works below.now }
    ensures found { IfOk result (λ r. option_map (λ f. (map arm_kids f.0, names.new.names, f.1.now)) r ≡ several C (at (B.depth below.now) arm) on_else_if [] names.old.names tokens.now) }
    ensures shorter { NoLonger tokens.now result }
    ensures kept { kept names.new ≡ kept names.old }
{
    let mut found = Vec::new(alloc);
    let mut rest = tokens;
    'climbing: while on_else_if(rest) {
        match arm_at(below, alloc, names, rest)? {
            None => return Ok(None),
            Some((arm, next)) => {
                found.push(arm)?;
                rest = next;
            }
        }
    }
    Ok(Some((Items::from_vec(found), rest)))
}

// The last `else`, if there is one.
#[tactic(auto, using(crate::proofs::Arms::no_last), unfolding(c_grammar::specs::Table::last))]
fn last_at<'a, B: StatementsBelow<'a>>(
    below: &B,
    alloc: Global,
    names: &mut TypeNames,
    tokens: &'a [Token],
) -> Result<Option<(Option<Boxed<UnitStatement>>, &'a [Token])>, AllocError>
    requires { B.works below.now }
    ensures found { ReadsForm (λ o. kids (last_of (option_map statement_tree o) ∷ [])) (B.depth below.now) last names.old.names names.new.names tokens.now result }
    ensures shorter { NoLonger tokens.now result }
    ensures kept { kept names.new ≡ kept names.old }
{
    if !on_keyword(tokens, Keyword::Else) {
        return Ok(Some((None, tokens)));
    }
    let Some(behind) = behind_keyword(tokens, Keyword::Else) else {
        return Ok(None);
    };
    if on_keyword(behind, Keyword::If) {
        names.refuse(behind);
        return Ok(None);
    }
    match branch_at(below, alloc, names, behind)? {
        None => Ok(None),
        Some((statement, rest)) => Ok(Some((Some(Boxed::new(alloc, statement)?), rest))),
    }
}

// What stands behind the first branch.
fn ladder_at<'a, B: StatementsBelow<'a>>(
    below: &B,
    alloc: Global,
    names: &mut TypeNames,
    tokens: &'a [Token],
) -> Result<Option<(Ladder, &'a [Token])>, AllocError>
    requires { B.works below.now }
    ensures found { ReadsForm (λ l. kids (ladder_trees l)) (B.depth below.now) (Many on_else_if arm last) names.old.names names.new.names tokens.now result }
    ensures shorter { NoLonger tokens.now result }
    ensures kept { kept names.new ≡ kept names.old }
{
    let Some((more, end)) = arms_at(below, alloc, names, tokens)? else {
        return Ok(None);
    };
    match last_at(below, alloc, names, end)? {
        None => Ok(None),
        Some((otherwise, rest)) => Ok(Some((Ladder { more, otherwise }, rest))),
    }
}

/// `if ( expression ) statement`, the `else if` behind it, and the last `else`, in the scope that is open for it.
pub fn if_inside<'a, B: StatementsBelow<'a>>(
    below: &B,
    alloc: Global,
    names: &mut TypeNames,
    tokens: &'a [Token],
) -> Result<Option<(UnitStatement, &'a [Token])>, AllocError>
    requires { B.works below.now }
    ensures found { ReadsRule statement_tree (B.depth below.now) rule.If names.old.names names.old.names tokens.now result }
    ensures shorter { Shortens tokens.now result }
    ensures kept { kept names.new ≡ kept names.old }
{
    let Some(span) = place_at(tokens) else {
        return Ok(None);
    };
    match controlled_at(below, alloc, names, Keyword::If, tokens)? {
        None => Ok(None),
        Some((first, behind)) => match ladder_at(below, alloc, names, behind)? {
            None => Ok(None),
            Some((ladder, rest)) => Ok(Some((if_of(alloc, span, first, ladder)?, rest))),
        },
    }
}
