//! Specifiers, one after the other (C11 6.7.2.1).
ghost use Rattle.std.specs.Prelude.{◌≡◌, [], true, false, map, IfOk};
ghost use Rattle.c_tree.specs.Views.{specifier_tree, specifiers_of};
ghost use Rattle.c_tree.specs.WellFormed.{before_end, before_next, still, Untyped};
ghost use Rattle.c_parse_base.specs.KnownNames.{kept};
ghost use Rattle.c_parse_rules.specs.Parsers.{specifier_at};
ghost use Rattle.c_parse_base.specs.Purposes.{before_of, purpose_of};
ghost use Rattle.c_parse_base.specs.Reads.{AreFound};
ghost use Rattle.c_parse_attributes.specs.TypesAtDepth.{all_specifiers, some_specifiers};

use c_base::token::Token;
use c_parse_base::below::Below;
use c_parse_base::found::Several;
use c_parse_base::height::{deeper, flat};
use c_parse_base::names::TypeNames;
use c_parse_base::purpose::{Before, Purpose};
use c_parse_base::words::is_type_word;
use c_tree::tree::Specifier;
use sqlite_items::Items;
use std::alloc::{AllocError, Global};

fn still(before: Before) -> Before
    ensures { before_of result ≡ still (before_of before) }
{
    match before {
        Before::Untyped => Before::Untyped,
        Before::Typed => Before::Typed,
        Before::Braced => Before::Typed,
    }
}

/// What stands before the next, behind a specifier.
pub fn before_next(before: Before, specifier: &Specifier) -> Before
    ensures { before_of result ≡ before_next (before_of before) (specifier_tree specifier.now) }
{
    match specifier {
        Specifier::Keyword { span: _, keyword } => {
            if is_type_word(*keyword) {
                Before::Typed
            } else {
                still(before)
            }
        }
        Specifier::Attribute(_) => still(before),
        Specifier::Composite {
            span: _,
            sort: _,
            attributes: _,
            tag: _,
            members: _,
            trailing: _,
        } => Before::Braced,
        _ => Before::Typed,
    }
}

/// No specifier is there.
pub fn is_none<'a>(found: &Several<'a, Specifier>) -> bool
    ensures none { (d : _) (read : _) → result ≡ true → some_specifiers d read (map specifier_tree found.now.trees, found.now.rest.now) ≡ None }
    ensures some { (d : _) (read : _) → result ≡ false → some_specifiers d read (map specifier_tree found.now.trees, found.now.rest.now) ≡ Some (map specifier_tree found.now.trees, found.now.rest.now) }
{
    match found.trees.as_slice().split_first() {
        None => true,
        Some(_) => false,
    }
}

/// The specifiers of members, as many as there are, and what stands before what follows them.
pub fn specifiers_below<'a, B: Below<'a>>(
    below: &B,
    alloc: Global,
    names: &mut TypeNames,
    purpose: Purpose,
    tokens: &'a [Token],
) -> Result<(Several<'a, Specifier>, Before), AllocError>
    requires { B.works below.now }
    ensures found { IfOk result (λ s. AreFound specifier_tree [] (all_specifiers (B.depth below.now) (specifier_at (B.depth below.now)) (purpose_of purpose) names.old.names tokens.now) names.old.names names.new.names tokens.now s.0) }
    ensures before { IfOk result (λ s. before_of s.1 ≡ before_end Untyped (specifiers_of s.0.trees)) }
    ensures kept { kept names.new ≡ kept names.old }
{
    let mut found = Vec::new(alloc);
    let mut height = flat();
    let mut before = Before::Untyped;
    let mut rest = tokens;
    'reading: while let Some(next) = below.specifier(alloc, names, purpose, before, rest)? {
        height = deeper(height, next.height);
        before = before_next(before, &next.tree);
        found.push(next.tree)?;
        rest = next.rest;
    }
    let all = Several {
        trees: Items::from_vec(found),
        height,
        rest,
    };
    Ok((all, before))
}
