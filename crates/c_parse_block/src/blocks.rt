//! Declarations and statements between braces, along which nothing recurses.
ghost use Rattle.std.specs.Prelude.{◌≡◌, ◌∷◌, [], map, option_map, IfOk};
ghost use Rattle.c_base.specs.declared.token.Punctuator.TheVariants as mark;
ghost use Rattle.c_parse_base.specs.KnownNames.{kept};
ghost use Rattle.grammar.specs.Forms.{Node, Place};
ghost use Rattle.grammar.specs.Reading.{several};
ghost use Rattle.c_grammar.specs.declared.rule.Rule.TheVariants as rule;
ghost use Rattle.c_grammar.specs.Leaves.{C};
ghost use Rattle.c_grammar.specs.Table.{block_item, until_mark};
ghost use Rattle.c_unit_tree.specs.Views.{block_item_kids, declaration_tree, kids, listing, other, some, statement_tree};
ghost use Rattle.c_parse_initialisers.specs.Reads.{at, NoLonger, ReadsForm, ReadsRule, Shortens};

use c_base::number::Span;
use c_base::token::{Punctuator, Token};
use c_parse_base::expecting::expect_punctuator;
use c_parse_base::names::TypeNames;
use c_parse_decl::declarations::declaration_at;
use c_parse_initialisers::parts::{on_punctuator, place_at};
use c_parse_nested::below::StatementsBelow;
use c_parse_simple::picking::on_block_declaration;
use c_unit_tree::declaration::Declaration;
use c_unit_tree::statement::{BlockItem, Statement};
use c_unit_tree::unit::{UnitItem, UnitStatement};
use sqlite_items::Items;
use std::alloc::{AllocError, Global};

fn block_of(span: Span, items: Items<UnitItem>) -> UnitStatement
    ensures { statement_tree result ≡ Node rule.Block (kids (Place span ∷ some (listing (map block_item_kids items) ∷ []) ∷ [])) }
{
    Statement::Block { span, items }
}

fn declared_item(declaration: Declaration) -> UnitItem
    ensures { block_item_kids result ≡ kids (some (declaration_tree declaration ∷ []) ∷ []) }
{
    BlockItem::Declaration(declaration)
}

fn statement_item(statement: UnitStatement) -> UnitItem
    ensures { block_item_kids result ≡ kids (other (statement_tree statement ∷ []) ∷ []) }
{
    BlockItem::Statement(statement)
}

// A declaration or a statement.
#[tactic(auto, unfolding(c_grammar::specs::Table::block_item))]
fn block_item_at<'a, B: StatementsBelow<'a>>(
    below: &B,
    alloc: Global,
    names: &mut TypeNames,
    tokens: &'a [Token],
) -> Result<Option<(UnitItem, &'a [Token])>, AllocError>
    requires { B.works below.now }
    ensures found { ReadsForm block_item_kids (B.depth below.now) block_item names.old.names names.new.names tokens.now result }
    ensures shorter { Shortens tokens.now result }
    ensures kept { kept names.new ≡ kept names.old }
{
    if on_block_declaration(alloc, names, tokens)? {
        return match declaration_at(alloc, below.depth(), names, tokens)? {
            None => Ok(None),
            Some((declaration, rest)) => Ok(Some((declared_item(declaration), rest))),
        };
    }
    match below.statement(alloc, names, tokens)? {
        None => Ok(None),
        Some((statement, rest)) => Ok(Some((statement_item(statement), rest))),
    }
}

/// What stands in a block, and the tokens from its `}` on.
pub fn items_at<'a, B: StatementsBelow<'a>>(
    below: &B,
    alloc: Global,
    names: &mut TypeNames,
    tokens: &'a [Token],
) -> Result<Option<(Items<UnitItem>, &'a [Token])>, AllocError>
    requires { B.works below.now }
    ensures found { IfOk result (λ r. option_map (λ f. (map block_item_kids f.0, names.new.names, f.1.now)) r ≡ several C (at (B.depth below.now) block_item) (until_mark mark.CloseBrace) [] names.old.names tokens.now) }
    ensures shorter { NoLonger tokens.now result }
    ensures kept { kept names.new ≡ kept names.old }
{
    let mut found = Vec::new(alloc);
    let mut rest = tokens;
    'reading: while !on_punctuator(rest, Punctuator::CloseBrace) {
        match block_item_at(below, alloc, names, rest)? {
            None => return Ok(None),
            Some((item, next)) => {
                found.push(item)?;
                rest = next;
            }
        }
    }
    Ok(Some((Items::from_vec(found), rest)))
}

/// `{ items }`, in the scope that is open for it.
pub fn block_inside<'a, B: StatementsBelow<'a>>(
    below: &B,
    alloc: Global,
    names: &mut TypeNames,
    tokens: &'a [Token],
) -> Result<Option<(UnitStatement, &'a [Token])>, AllocError>
    requires { B.works below.now }
    ensures found { ReadsRule statement_tree (B.depth below.now) rule.Block names.old.names names.old.names tokens.now result }
    ensures shorter { Shortens tokens.now result }
    ensures kept { kept names.new ≡ kept names.old }
{
    let Some(span) = place_at(tokens) else {
        return Ok(None);
    };
    let Some(inside) = expect_punctuator(names, tokens, Punctuator::OpenBrace) else {
        return Ok(None);
    };
    let Some((items, end)) = items_at(below, alloc, names, inside)? else {
        return Ok(None);
    };
    match expect_punctuator(names, end, Punctuator::CloseBrace) {
        None => Ok(None),
        Some(rest) => Ok(Some((block_of(span, items), rest))),
    }
}
