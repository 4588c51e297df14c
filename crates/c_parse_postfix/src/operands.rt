//! Operands and type names, which stand a node below what they are read for.
ghost use Rattle.std.specs.Prelude.{◌≡◌, IfOk, IfNone};
ghost use Rattle.c_tree.specs.Views.{tree_of, type_name_tree};
ghost use Rattle.c_tree.specs.WellFormed.{ForType};
ghost use Rattle.c_parse_base.specs.KnownNames.{kept};
ghost use Rattle.c_parse_base.specs.Reads.{IsFound};
ghost use Rattle.c_parse_rules.specs.Parsers.{expr_at, typing_at};

use c_base::token::Token;
use c_parse_base::below::Below;
use c_parse_base::found::Found;
use c_parse_base::names::TypeNames;
use c_parse_base::purpose::Purpose;
use c_tree::tree::{Expr, TypeName};
use sqlite_items::Boxed;
use std::alloc::{AllocError, Global};

/// An expression of at least this level.
pub fn operand<'a, B: Below<'a>>(
    below: &B,
    alloc: Global,
    names: &mut TypeNames,
    least: u32,
    tokens: &'a [Token],
) -> Result<Option<Found<'a, Boxed<Expr>>>, AllocError>
    requires { B.works below.now }
    ensures found { IfOk result (λ r. IsFound tree_of (expr_at (B.depth below.now) names.old.names least tokens.now) names.old.names names.new.names tokens.now r) }
    ensures unchanged { IfOk result (λ r. IfNone r (names.new.names ≡ names.old.names)) }
    ensures kept { kept names.new ≡ kept names.old }
{
    match below.expr(alloc, names, least, tokens)? {
        None => Ok(None),
        Some(found) => Ok(Some(Found {
            tree: Boxed::new(alloc, found.tree)?,
            height: found.height,
            rest: found.rest,
        })),
    }
}

/// A type name.
pub fn type_name<'a, B: Below<'a>>(
    below: &B,
    alloc: Global,
    names: &mut TypeNames,
    tokens: &'a [Token],
) -> Result<Option<Found<'a, Boxed<TypeName>>>, AllocError>
    requires { B.works below.now }
    ensures found { IfOk result (λ r. IsFound type_name_tree (typing_at (B.depth below.now) ForType names.old.names tokens.now) names.old.names names.new.names tokens.now r) }
    ensures unchanged { IfOk result (λ r. IfNone r (names.new.names ≡ names.old.names)) }
    ensures kept { kept names.new ≡ kept names.old }
{
    match below.typing(alloc, names, Purpose::TypeName, tokens)? {
        None => Ok(None),
        Some(found) => Ok(Some(Found {
            tree: Boxed::new(alloc, found.tree)?,
            height: found.height,
            rest: found.rest,
        })),
    }
}
