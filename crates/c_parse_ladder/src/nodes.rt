//! Nodes of ladders.
ghost use Rattle.std.specs.Prelude.{◌≡◌, ◌∷◌, ◌++◌, [], IfOk};
ghost use Rattle.grammar.specs.Forms.{Node, Place};
ghost use Rattle.c_grammar.specs.declared.rule.Rule.TheVariants as rule;
ghost use Rattle.c_unit_tree.specs.Views.{arm_kids, kids, some, statement_tree};
ghost use Rattle.c_parse_nested.specs.Controls.{controlled_trees};
ghost use Rattle.c_parse_ladder.specs.Ladders.{ladder_trees};

use c_base::number::Span;
use c_parse_nested::branches::Controlled;
use c_tree::tree::{Attribute, Expr};
use c_unit_tree::declaration::Declaration;
use c_unit_tree::statement::{Arm, Statement};
use c_unit_tree::unit::UnitStatement;
use sqlite_items::{Boxed, Items};
use std::alloc::{AllocError, Global};

/// An `else if` of a unit.
pub type UnitArm = Arm<Expr, Declaration, Attribute>;

/// The `else if` of an `if`, and the last `else`.
#[derive(Drop)]
pub struct Ladder {
    pub more: Items<UnitArm>,
    pub otherwise: Option<Boxed<UnitStatement>>,
}

pub fn arm_of(span: Span, parts: Controlled) -> UnitArm
    ensures { arm_kids result ≡ kids (Place span ∷ controlled_trees parts) }
{
    Arm {
        span,
        condition: parts.control,
        branch: parts.body,
    }
}

pub fn if_of(
    alloc: Global,
    span: Span,
    first: Controlled,
    ladder: Ladder,
) -> Result<UnitStatement, AllocError>
    ensures { IfOk result (λ s. statement_tree s ≡ Node rule.If (kids (Place span ∷ some (controlled_trees first ++ ladder_trees ladder) ∷ []))) }
{
    let branch = Boxed::new(alloc, first.body)?;
    Ok(Statement::If {
        span,
        condition: first.control,
        branch,
        more: ladder.more,
        otherwise: ladder.otherwise,
    })
}
