//! What a rule reads its node's parts with.
ghost use Rattle.std.specs.Prelude.{◌≡◌, ◌<◌, ◌≤◌, ℕ, IfOk, IfNone};
ghost use Rattle.c_tree.specs.Views.{tree_of, declarator_tree, specifier_tree, type_name_tree};
ghost use Rattle.c_parse_base.specs.KnownNames.{kept};
ghost use Rattle.c_parse_rules.specs.Parsers.{declarator_at, expr_at, specifier_at, typing_at};
ghost use Rattle.c_parse_base.specs.Purposes.{before_of, purpose_of};
ghost use Rattle.c_parse_base.specs.Reads.{IsFound};

use crate::found::Found;
use crate::names::TypeNames;
use crate::purpose::{Before, Purpose};
use c_base::token::Token;
use c_tree::tree::{Declarator, Expr, Specifier, TypeName};
use std::alloc::{AllocError, Global};

/// Readers of trees that are at most so deep.
pub trait Below<'a> {
    ghost depth: { Self → ℕ };

    ghost works: { Self → Type 0 };

    /// How deep they may be.
    fn depth(&self) -> u32
        requires { works self.now }
        ensures same { result ≡ depth self.now }
        ensures small { result < 1000000 };

    /// An expression of at least this level.
    fn expr(
        &self,
        alloc: Global,
        names: &mut TypeNames,
        least: u32,
        tokens: &'a [Token],
    ) -> Result<Option<Found<'a, Expr>>, AllocError>
        requires { works self.now }
        ensures found { IfOk result (λ r. IsFound tree_of (expr_at (depth self.now) names.old.names least tokens.now) names.old.names names.new.names tokens.now r) }
        ensures unchanged { IfOk result (λ r. IfNone r (names.new.names ≡ names.old.names)) }
        ensures kept { kept names.new ≡ kept names.old };

    /// A type name or a parameter.
    fn typing(
        &self,
        alloc: Global,
        names: &mut TypeNames,
        purpose: Purpose,
        tokens: &'a [Token],
    ) -> Result<Option<Found<'a, TypeName>>, AllocError>
        requires { works self.now }
        ensures found { IfOk result (λ r. IsFound type_name_tree (typing_at (depth self.now) (purpose_of purpose) names.old.names tokens.now) names.old.names names.new.names tokens.now r) }
        ensures unchanged { IfOk result (λ r. IfNone r (names.new.names ≡ names.old.names)) }
        ensures kept { kept names.new ≡ kept names.old };

    /// A specifier behind others.
    fn specifier(
        &self,
        alloc: Global,
        names: &mut TypeNames,
        purpose: Purpose,
        before: Before,
        tokens: &'a [Token],
    ) -> Result<Option<Found<'a, Specifier>>, AllocError>
        requires { works self.now }
        ensures found { IfOk result (λ r. IsFound specifier_tree (specifier_at (depth self.now) (purpose_of purpose) names.old.names (before_of before) tokens.now) names.old.names names.new.names tokens.now r) }
        ensures unchanged { IfOk result (λ r. IfNone r (names.new.names ≡ names.old.names)) }
        ensures kept { kept names.new ≡ kept names.old };

    /// A declarator behind specifiers.
    fn declarator(
        &self,
        alloc: Global,
        names: &mut TypeNames,
        purpose: Purpose,
        before: Before,
        tokens: &'a [Token],
    ) -> Result<Option<Found<'a, Declarator>>, AllocError>
        requires { works self.now }
        ensures found { IfOk result (λ r. IsFound declarator_tree (declarator_at (depth self.now) (purpose_of purpose) names.old.names (before_of before) tokens.now) names.old.names names.new.names tokens.now r) }
        ensures unchanged { IfOk result (λ r. IfNone r (names.new.names ≡ names.old.names)) }
        ensures kept { kept names.new ≡ kept names.old };
}
