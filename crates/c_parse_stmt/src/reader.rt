//! Readers of statements that are at most so deep.
ghost use Rattle.std.specs.Prelude.{◌≡◌, ◌<◌, [], map, option_map, suc, IfOk};
ghost use Rattle.c_base.specs.declared.token.Punctuator.TheVariants as mark;
ghost use Rattle.c_parse_base.specs.KnownNames.{kept};
ghost use Rattle.grammar.specs.Reading.{several};
ghost use Rattle.c_grammar.specs.declared.rule.Sort.TheVariants as sort;
ghost use Rattle.c_grammar.specs.Leaves.{C};
ghost use Rattle.c_grammar.specs.Table.{block_item, until_mark};
ghost use Rattle.c_unit_tree.specs.Views.{block_item_kids, statement_tree};
ghost use Rattle.c_parse_initialisers.specs.Reads.{at, NoLonger, ReadsSort, Shortens};
ghost use Rattle.c_parse_stmt.specs.Statements.{IsStatementRead};

use crate::rules::by_rule;
use c_base::token::Token;
use c_parse_base::names::TypeNames;
use c_parse_block::items_at;
use c_parse_nested::below::StatementsBelow;
use c_parse_simple::picking::statement_rule;
use c_unit_tree::unit::{UnitItem, UnitStatement};
use sqlite_items::Items;
use std::alloc::{AllocError, Global};

/// A reader of statements that are at most so deep, by a function that reads them.
#[derive(Drop)]
pub struct Reader<F> {
    pub depth: u32,
    pub read: F,
}

impl<
    'a,
    F: Fn(
        Global,
        &mut TypeNames,
        &'a [Token],
    ) -> Result<Option<(UnitStatement, &'a [Token])>, AllocError>,
> Reader<F> {
    fn ask(
        &self,
        alloc: Global,
        names: &mut TypeNames,
        tokens: &'a [Token],
    ) -> Result<Option<(UnitStatement, &'a [Token])>, AllocError>
        requires callable { F.IsAlwaysCallable self.now.read }
        requires tells { (alloc : _) (names : _) (tokens : _) (r : _) (names' : _) → F.post self.now.read alloc names tokens r names' → IsStatementRead self.now.depth names.now names'.now tokens.now r }
        ensures { IsStatementRead self.now.depth names.old names.new tokens.now result }
    {
        (self.read)(alloc, names, tokens)
    }
}

impl<
    'a,
    F: Fn(
        Global,
        &mut TypeNames,
        &'a [Token],
    ) -> Result<Option<(UnitStatement, &'a [Token])>, AllocError>,
> StatementsBelow<'a> for Reader<F> {
    ghost depth = { λ r. r.depth };

    ghost works = { λ r. F.IsAlwaysCallable r.read × (r.depth < 999999) × ((alloc : _) (names : _) (tokens : _) (x : _) (names' : _) → F.post r.read alloc names tokens x names' → IsStatementRead r.depth names.now names'.now tokens.now x) };

    fn depth(&self) -> u32 {
        self.depth
    }

    fn statement(
        &self,
        alloc: Global,
        names: &mut TypeNames,
        tokens: &'a [Token],
    ) -> Result<Option<(UnitStatement, &'a [Token])>, AllocError> {
        self.ask(alloc, names, tokens)
    }
}

// A statement whose parts are read by `below`.
#[tactic(auto, using(crate::proofs::Picked::rule_belongs))]
fn statement_above<'a, B: StatementsBelow<'a>>(
    below: &B,
    alloc: Global,
    names: &mut TypeNames,
    tokens: &'a [Token],
) -> Result<Option<(UnitStatement, &'a [Token])>, AllocError>
    requires { B.works below.now }
    ensures found { ReadsSort statement_tree (suc (B.depth below.now)) sort.Statement names.old.names names.new.names tokens.now result }
    ensures shorter { Shortens tokens.now result }
    ensures kept { kept names.new ≡ kept names.old }
{
    match tokens.split_first() {
        None => {
            names.refuse(tokens);
            Ok(None)
        }
        Some((first, rest)) => {
            let rule = statement_rule(&first.word, rest);
            by_rule(below, alloc, names, rule, tokens)
        }
    }
}

/// A statement that nests no deeper, and the tokens behind it.
pub fn statement_at<'a>(
    alloc: Global,
    depth: u32,
    names: &mut TypeNames,
    tokens: &'a [Token],
) -> Result<Option<(UnitStatement, &'a [Token])>, AllocError>
    requires depth { depth < 999999 }
    ensures { IsStatementRead depth names.old names.new tokens.now result }
{
    if depth == 0 {
        names.refuse(tokens);
        return Ok(None);
    }
    let next = depth - 1;
    let below = Reader {
        depth: next,
        read: |alloc: Global, known: &mut TypeNames, inside|
            requires { next < 999999 }
            ensures { IsStatementRead next known.old known.new inside.now result }
        { statement_at(alloc, next, known, inside) },
    };
    statement_above(&below, alloc, names, tokens)
}

/// What stands in a block, whose statements nest no deeper, and the tokens from its `}` on.
pub fn items_within<'a>(
    alloc: Global,
    depth: u32,
    names: &mut TypeNames,
    tokens: &'a [Token],
) -> Result<Option<(Items<UnitItem>, &'a [Token])>, AllocError>
    requires depth { depth < 999999 }
    ensures found { IfOk result (λ r. option_map (λ f. (map block_item_kids f.0, names.new.names, f.1.now)) r ≡ several C (at depth block_item) (until_mark mark.CloseBrace) [] names.old.names tokens.now) }
    ensures shorter { NoLonger tokens.now result }
    ensures kept { kept names.new ≡ kept names.old }
{
    let below = Reader {
        depth,
        read: |alloc: Global, known: &mut TypeNames, inside|
            requires { depth < 999999 }
            ensures { IsStatementRead depth known.old known.new inside.now result }
        { statement_at(alloc, depth, known, inside) },
    };
    items_at(&below, alloc, names, tokens)
}
