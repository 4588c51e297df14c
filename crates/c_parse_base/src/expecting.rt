//! What must stand at the front of some tokens; where it does not, the first of them is noted as refused.
ghost use Rattle.std.specs.Prelude.{◌≡◌, ◌<◌, length, option_copied, option_map, IfSome};
ghost use Rattle.c_parse_rules.specs.Tokens.{behind_mark, literal_at, name_at};

use crate::names::TypeNames;
use crate::words::{behind_punctuator, literal_at, name_at};
use c_base::name::Name;
use c_base::token::{Punctuator, Token};
use sqlite_items::Items;

/// The tokens behind this punctuator.
pub fn expect_punctuator<'a>(
    names: &mut TypeNames,
    tokens: &'a [Token],
    punctuator: Punctuator,
) -> Option<&'a [Token]>
    ensures found { option_copied result ≡ behind_mark punctuator tokens.now }
    ensures shorter { IfSome result (λ rest. length rest.now < length tokens.now) }
    ensures same { names.new ≡ names.old }
{
    let found = behind_punctuator(tokens, punctuator);
    if found.is_none() {
        names.refuse(tokens);
    }
    found
}

/// A name, and the tokens behind it.
pub fn expect_name<'a>(
    names: &mut TypeNames,
    tokens: &'a [Token],
) -> Option<(&'a Name, &'a [Token])>
    ensures found { option_map (λ f. (f.0.now, f.1.now)) result ≡ name_at tokens.now }
    ensures shorter { IfSome result (λ f. length f.1.now < length tokens.now) }
    ensures same { names.new ≡ names.old }
{
    let found = name_at(tokens);
    if found.is_none() {
        names.refuse(tokens);
    }
    found
}

/// A string literal, and the tokens behind it.
pub fn expect_literal<'a>(
    names: &mut TypeNames,
    tokens: &'a [Token],
) -> Option<(&'a Items<u8>, &'a [Token])>
    ensures found { option_map (λ f. (f.0.now, f.1.now)) result ≡ literal_at tokens.now }
    ensures shorter { IfSome result (λ f. length f.1.now < length tokens.now) }
    ensures same { names.new ≡ names.old }
{
    let found = literal_at(tokens);
    if found.is_none() {
        names.refuse(tokens);
    }
    found
}
