//! Specifiers and declarators at the front of a token list, for the parser of declarations.
ghost use Rattle.std.specs.Prelude.{◌≡◌, ◌<◌, map, option_map, IfOk, IfSome};
ghost use Rattle.c_tree.specs.Nesting.{nest_all};
ghost use Rattle.c_tree.specs.Views.{declarator_tree, specifier_tree, specifiers_of};
ghost use Rattle.c_tree.specs.WellFormed.{after_all, before_end, Untyped};
ghost use Rattle.c_parse_expr.specs.Asking.{IsAsked};
ghost use Rattle.c_parse_rules.specs.Declaring.{AreSpecifiersRead, IsDeclaratorRead};
ghost use Rattle.c_parse_expr.specs.Depths.{no_deeper};
ghost use Rattle.c_parse_base.specs.Heights.{capped};
ghost use Rattle.c_parse_base.specs.KnownNames.{kept};
ghost use Rattle.c_parse_rules.specs.Measured.{declarator_within, specifiers_within};
ghost use Rattle.c_parse_rules.specs.Parsers.{specifier_at, specifiers_at};
ghost use Rattle.c_parse_base.specs.Purposes.{before_of, purpose_of};

use crate::asking::Ask;
use crate::reader::{Reader, as_declarator, read_at};
use c_base::token::Token;
use c_parse_base::found::Found;
use c_parse_base::names::TypeNames;
use c_parse_base::purpose::{Before, Purpose};
use c_parse_base::scope::close;
use c_parse_members::{is_none, specifiers_below};
use c_tree::tree::{Declarator, Specifier};
use sqlite_items::Items;
use std::alloc::{AllocError, Global};

// What was read, where it is at most so deep.
fn no_deeper<'a, T: Drop>(
    depth: u32,
    found: Result<Option<Found<'a, T>>, AllocError>,
) -> Result<Option<Found<'a, T>>, AllocError>
    ensures { result ≡ no_deeper depth found.entry }
{
    match found? {
        None => Ok(None),
        Some(tree) => {
            if tree.height <= depth {
                Ok(Some(tree))
            } else {
                Ok(None)
            }
        }
    }
}

// At least one specifier, whose parts are less than so deep, and what stands before what follows them.
fn some_specifiers<'a>(
    alloc: Global,
    depth: u32,
    names: &mut TypeNames,
    purpose: Purpose,
    tokens: &'a [Token],
) -> Result<Option<Found<'a, (Items<Specifier>, Before)>>, AllocError>
    requires depth { depth < 1000000 }
    ensures found { IfOk result (λ r. option_map (λ f. (map specifier_tree f.tree.0, f.rest.now)) r ≡ specifiers_at depth (specifier_at depth) (purpose_of purpose) names.old.names tokens.now) }
    ensures height { IfOk result (λ r. IfSome r (λ f. f.height ≡ capped (nest_all (specifiers_of f.tree.0)))) }
    ensures names { IfOk result (λ r. IfSome r (λ f. names.new.names ≡ after_all names.old.names (specifiers_of f.tree.0))) }
    ensures before { IfOk result (λ r. IfSome r (λ f. before_of f.tree.1 ≡ before_end Untyped (specifiers_of f.tree.0))) }
    ensures kept { kept names.new ≡ kept names.old }
{
    let below = Reader {
        depth,
        read: |alloc: Global, known: &mut TypeNames, asked: Ask, rest|
            requires { depth < 1000000 }
            ensures { IsAsked depth asked known.old known.new rest.now result }
        { read_at(alloc, depth, known, asked, rest) },
    };
    let (found, before) = specifiers_below(&below, alloc, names, purpose, tokens)?;
    if is_none(&found) {
        return Ok(None);
    }
    Ok(Some(Found {
        tree: (found.trees, before),
        height: found.height,
        rest: found.rest,
    }))
}

/// The specifiers that the tokens begin with, as many as there are (C11 6.7.2 to 6.7.4), what stands before what follows them, and the
/// tokens behind them. Their nodes nest at most `depth` deep. The enumeration constants that they declare are declared.
pub fn specifiers_within<'a>(
    alloc: Global,
    depth: u32,
    names: &mut TypeNames,
    purpose: Purpose,
    tokens: &'a [Token],
) -> Result<Option<(Items<Specifier>, Before, &'a [Token])>, AllocError>
    requires depth { depth < 999999 }
    ensures read { IfOk result (λ r. AreSpecifiersRead (purpose_of purpose) depth names.old.names names.new.names tokens.now (option_map (λ f. (specifiers_of f.0, f.2.now)) r)) }
    ensures found { IfOk result (λ r. option_map (λ f. (map specifier_tree f.0, f.2.now)) r ≡ specifiers_within depth (purpose_of purpose) names.old.names tokens.now) }
    ensures before { IfOk result (λ r. IfSome r (λ f. before_of f.1 ≡ before_end Untyped (specifiers_of f.0))) }
    ensures kept { kept names.new ≡ kept names.old }
{
    let scope = names.enter();
    let found = some_specifiers(alloc, depth + 1, names, purpose, tokens);
    match close(names, scope, tokens, no_deeper(depth, found))? {
        None => Ok(None),
        Some(found) => {
            let (specifiers, before) = found.tree;
            Ok(Some((specifiers, before, found.rest)))
        }
    }
}

/// A declarator (C11 6.7.6) behind specifiers that leave `before` in front of it, and the tokens behind it. Its nodes nest at most `depth`
/// deep. The enumeration constants that it declares are declared, its own name is not.
pub fn declarator_within<'a>(
    alloc: Global,
    depth: u32,
    names: &mut TypeNames,
    purpose: Purpose,
    before: Before,
    tokens: &'a [Token],
) -> Result<Option<(Declarator, &'a [Token])>, AllocError>
    requires depth { depth < 1000000 }
    ensures read { IfOk result (λ r. IsDeclaratorRead (purpose_of purpose) depth (before_of before) names.old.names names.new.names tokens.now (option_map (λ f. (declarator_tree f.0, f.1.now)) r)) }
    ensures found { IfOk result (λ r. option_map (λ f. (declarator_tree f.0, f.1.now)) r ≡ declarator_within depth (purpose_of purpose) names.old.names (before_of before) tokens.now) }
    ensures kept { kept names.new ≡ kept names.old }
{
    let scope = names.enter();
    let found = read_at(
        alloc,
        depth,
        names,
        Ask::Declarator(purpose, before),
        tokens,
    );
    match close(names, scope, tokens, no_deeper(depth, found))? {
        None => Ok(None),
        Some(found) => Ok(Some((as_declarator(found.tree), found.rest))),
    }
}
