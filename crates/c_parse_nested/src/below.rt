//! What a rule reads the statements in its node with.
ghost use Rattle.std.specs.Prelude.{◌≡◌, ◌<◌, ℕ};
ghost use Rattle.c_parse_base.specs.KnownNames.{kept};
ghost use Rattle.c_grammar.specs.declared.rule.Sort.TheVariants as sort;
ghost use Rattle.c_unit_tree.specs.Views.{statement_tree};
ghost use Rattle.c_parse_initialisers.specs.Reads.{ReadsSort, Shortens};

use c_base::token::Token;
use c_parse_base::names::TypeNames;
use c_unit_tree::unit::UnitStatement;
use std::alloc::{AllocError, Global};

/// Readers of statements that are at most so deep.
pub trait StatementsBelow<'a> {
    ghost depth: { Self → ℕ };

    ghost works: { Self → Type 0 };

    /// How deep they may be.
    fn depth(&self) -> u32
        requires { works self.now }
        ensures same { result ≡ depth self.now }
        ensures small { result < 999999 };

    /// A statement, and the tokens behind it.
    fn statement(
        &self,
        alloc: Global,
        names: &mut TypeNames,
        tokens: &'a [Token],
    ) -> Result<Option<(UnitStatement, &'a [Token])>, AllocError>
        requires { works self.now }
        ensures found { ReadsSort statement_tree (depth self.now) sort.Statement names.old.names names.new.names tokens.now result }
        ensures shorter { Shortens tokens.now result }
        ensures kept { kept names.new ≡ kept names.old };
}
