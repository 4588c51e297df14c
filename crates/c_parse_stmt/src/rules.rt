//! Which rule reads a statement.
ghost use Rattle.std.specs.Prelude.{◌≡◌, IsTrue};
ghost use Rattle.c_parse_base.specs.KnownNames.{kept};
ghost use Rattle.c_grammar.specs.declared.rule.Sort.TheVariants as sort;
ghost use Rattle.c_grammar.specs.Table.{belongs};
ghost use Rattle.c_unit_tree.specs.Views.{statement_tree};
ghost use Rattle.c_parse_initialisers.specs.Reads.{ReadsRule, Shortens};
ghost use Rattle.c_parse_stmt.specs.Rules.{rule_of};

use c_base::token::Token;
use c_grammar::rule::Rule;
use c_parse_base::names::TypeNames;
use c_parse_block::block_inside;
use c_parse_ladder::if_inside;
use c_parse_nested::below::StatementsBelow;
use c_parse_nested::{
    case_rule, default_rule, do_inside, for_inside, label_rule, switch_inside, while_inside,
};
use c_parse_simple::simple::{
    attribute_rule, break_rule, continue_rule, expression_rule, goto_rule, return_rule,
};
use c_unit_tree::unit::UnitStatement;
use std::alloc::{AllocError, Global};

/// The statements with which what is declared in them ends (C11 6.8.2, 6.8.4p3 and 6.8.5p5).
#[derive(Clone, Copy)]
pub enum Scope {
    Block,
    If,
    Switch,
    While,
    Do,
    For,
}

// A statement with which what is declared in it ends, in the scope that is open for it.
fn inside_rule<'a, B: StatementsBelow<'a>>(
    below: &B,
    alloc: Global,
    names: &mut TypeNames,
    scope: Scope,
    tokens: &'a [Token],
) -> Result<Option<(UnitStatement, &'a [Token])>, AllocError>
    requires { B.works below.now }
    ensures found { ReadsRule statement_tree (B.depth below.now) (rule_of scope) names.old.names names.old.names tokens.now result }
    ensures shorter { Shortens tokens.now result }
    ensures kept { kept names.new ≡ kept names.old }
{
    match scope {
        Scope::Block => block_inside(below, alloc, names, tokens),
        Scope::If => if_inside(below, alloc, names, tokens),
        Scope::Switch => switch_inside(below, alloc, names, tokens),
        Scope::While => while_inside(below, alloc, names, tokens),
        Scope::Do => do_inside(below, alloc, names, tokens),
        Scope::For => for_inside(below, alloc, names, tokens),
    }
}

fn scope_rule<'a, B: StatementsBelow<'a>>(
    below: &B,
    alloc: Global,
    names: &mut TypeNames,
    scope: Scope,
    tokens: &'a [Token],
) -> Result<Option<(UnitStatement, &'a [Token])>, AllocError>
    requires { B.works below.now }
    ensures found { ReadsRule statement_tree (B.depth below.now) (rule_of scope) names.old.names names.new.names tokens.now result }
    ensures shorter { Shortens tokens.now result }
    ensures kept { kept names.new ≡ kept names.old }
{
    let outer = names.enter();
    let found = inside_rule(below, alloc, names, scope, tokens);
    names.leave(outer);
    found
}

/// A statement of this rule.
pub fn by_rule<'a, B: StatementsBelow<'a>>(
    below: &B,
    alloc: Global,
    names: &mut TypeNames,
    rule: Rule,
    tokens: &'a [Token],
) -> Result<Option<(UnitStatement, &'a [Token])>, AllocError>
    requires works { B.works below.now }
    requires rule { IsTrue (belongs sort.Statement rule) }
    ensures found { ReadsRule statement_tree (B.depth below.now) rule names.old.names names.new.names tokens.now result }
    ensures shorter { Shortens tokens.now result }
    ensures kept { kept names.new ≡ kept names.old }
{
    let depth = below.depth();
    match rule {
        Rule::Expression => expression_rule(alloc, depth, names, tokens),
        Rule::Attribute => attribute_rule(alloc, depth, names, tokens),
        Rule::Goto => goto_rule(alloc, depth, names, tokens),
        Rule::Continue => continue_rule(depth, names, tokens),
        Rule::Break => break_rule(depth, names, tokens),
        Rule::Return => return_rule(alloc, depth, names, tokens),
        Rule::Label => label_rule(below, alloc, names, tokens),
        Rule::Case => case_rule(below, alloc, names, tokens),
        Rule::Default => default_rule(below, alloc, names, tokens),
        Rule::Block => scope_rule(below, alloc, names, Scope::Block, tokens),
        Rule::If => scope_rule(below, alloc, names, Scope::If, tokens),
        Rule::Switch => scope_rule(below, alloc, names, Scope::Switch, tokens),
        Rule::While => scope_rule(below, alloc, names, Scope::While, tokens),
        Rule::Do => scope_rule(below, alloc, names, Scope::Do, tokens),
        Rule::For => scope_rule(below, alloc, names, Scope::For, tokens),
        Rule::Empty => unreachable!(),
        Rule::Assertion => unreachable!(),
        Rule::External => unreachable!(),
        Rule::Declaration => unreachable!(),
        Rule::Braces => unreachable!(),
        Rule::Body => unreachable!(),
    }
}
