//! Specifiers (C11 6.7.1 to 6.7.4), among them structs and unions with their members (C11 6.7.2.1).
ghost use Rattle.std.specs.Prelude.{◌≡◌, ◌∷◌, IfOk};
ghost use Rattle.c_tree.specs.Views.{specifier_tree};
ghost use Rattle.c_tree.specs.WellFormed.{may_specify};
ghost use Rattle.c_parse_base.specs.Heights.{capped};
ghost use Rattle.c_parse_base.specs.KnownNames.{kept};
ghost use Rattle.c_parse_base.specs.Purposes.{before_of, purpose_of};
ghost use Rattle.c_parse_base.specs.Reads.{IsFound};
ghost use Rattle.c_parse_rules.specs.Tokens.{name_at};
ghost use Rattle.c_parse_rules.specs.TypeRules.{is_untyped};
ghost use Rattle.c_parse_attributes.specs.TypesAtDepth.{attribute_of, body_at, composite_at, composite_with, specifier_of, specifier_rule};

use c_base::name::Name;
use c_base::number::Span;
use c_base::token::{Keyword, Punctuator, Token, Word};
use c_parse_attributes::{attribute_behind, attributes_at};
use c_parse_base::below::Below;
use c_parse_base::expecting::expect_punctuator;
use c_parse_base::found::Found;
use c_parse_base::height::{above, flat, leaf};
use c_parse_base::names::TypeNames;
use c_parse_base::purpose::{Before, Purpose};
use c_parse_base::words::{
    behind_punctuator, is_qualifier, is_storage_word, is_type_word, name_at,
};
use c_parse_members::{enum_at, members_at};
use c_tree::tree::{Attribute, CompositeSort, Specifier};
use sqlite_items::Items;
use std::alloc::{AllocError, Global};

// Behind the `{`.
#[tactic(auto, unfolding(c_parse_rules::specs::TypeRules::body_at, c_parse_attributes::specs::TypesAtDepth::all_members))]
fn body_at<'a, B: Below<'a>>(
    below: &B,
    alloc: Global,
    names: &mut TypeNames,
    span: Span,
    sort: CompositeSort,
    attributes: Items<Attribute>,
    tag: Option<Name>,
    tokens: &'a [Token],
) -> Result<Option<Found<'a, Specifier>>, AllocError>
    requires { B.works below.now }
    ensures found { IfOk result (λ r. IsFound specifier_tree (body_at (B.depth below.now) span sort attributes tag names.old.names tokens.now) names.old.names names.new.names tokens.now r) }
    ensures kept { kept names.new ≡ kept names.old }
{
    let members = members_at(below, alloc, names, tokens)?;
    let Some(behind) = behind_punctuator(members.rest, Punctuator::CloseBrace) else {
        return Ok(None);
    };
    let (trailing, rest) = attributes_at(alloc, behind)?;
    Ok(Some(Found {
        tree: Specifier::Composite {
            span,
            sort,
            attributes,
            tag,
            members: members.trees,
            trailing,
        },
        height: above(members.height),
        rest,
    }))
}

// A struct or union by its tag.
fn composite_tag<'a>(
    span: Span,
    sort: CompositeSort,
    attributes: Items<Attribute>,
    tag: Name,
    rest: &'a [Token],
) -> Found<'a, Specifier>
    ensures tree { result.tree ≡ Specifier.CompositeTag span sort attributes tag }
    ensures height { result.height ≡ capped 1 }
    ensures rest { result.rest.now ≡ rest.now }
{
    Found {
        tree: Specifier::CompositeTag {
            span,
            sort,
            attributes,
            tag,
        },
        height: leaf(),
        rest,
    }
}

// Behind the attributes.
#[tactic(auto, unfolding(c_parse_rules::specs::TypeRules::untagged_at))]
fn composite_with<'a, B: Below<'a>>(
    below: &B,
    alloc: Global,
    names: &mut TypeNames,
    span: Span,
    sort: CompositeSort,
    attributes: Items<Attribute>,
    tokens: &'a [Token],
) -> Result<Option<Found<'a, Specifier>>, AllocError>
    requires { B.works below.now }
    ensures found { IfOk result (λ r. IsFound specifier_tree (composite_with (B.depth below.now) span sort attributes names.old.names tokens.now (name_at tokens.now)) names.old.names names.new.names tokens.now r) }
    ensures kept { kept names.new ≡ kept names.old }
{
    match name_at(tokens) {
        None => match expect_punctuator(names, tokens, Punctuator::OpenBrace) {
            None => Ok(None),
            Some(inside) => body_at(below, alloc, names, span, sort, attributes, None, inside),
        },
        Some((name, behind)) => {
            let tag = name.duplicate(alloc)?;
            match behind_punctuator(behind, Punctuator::OpenBrace) {
                None => Ok(Some(composite_tag(span, sort, attributes, tag, behind))),
                Some(inside) => body_at(
                    below,
                    alloc,
                    names,
                    span,
                    sort,
                    attributes,
                    Some(tag),
                    inside,
                ),
            }
        }
    }
}

// Behind the word `struct` or `union`.
#[tactic(auto, unfolding(c_parse_rules::specs::TypeRules::composite_at))]
fn composite_at<'a, B: Below<'a>>(
    below: &B,
    alloc: Global,
    names: &mut TypeNames,
    span: Span,
    sort: CompositeSort,
    tokens: &'a [Token],
) -> Result<Option<Found<'a, Specifier>>, AllocError>
    requires { B.works below.now }
    ensures found { IfOk result (λ r. IsFound specifier_tree (composite_at (B.depth below.now) span sort names.old.names tokens.now) names.old.names names.new.names tokens.now r) }
    ensures kept { kept names.new ≡ kept names.old }
{
    let (attributes, behind) = attributes_at(alloc, tokens)?;
    composite_with(below, alloc, names, span, sort, attributes, behind)
}

// The keyword may be a specifier there.
fn may_specify(purpose: Purpose, keyword: Keyword) -> bool
    ensures { result ≡ may_specify (purpose_of purpose) keyword }
{
    if is_qualifier(keyword) || is_type_word(keyword) {
        return true;
    }
    match purpose {
        Purpose::TypeName => false,
        Purpose::Parameter => is_storage_word(keyword),
        Purpose::Member => is_storage_word(keyword),
    }
}

// A specifier of one token.
fn one_token<'a>(tree: Specifier, rest: &'a [Token]) -> Found<'a, Specifier>
    ensures tree { result.tree ≡ tree }
    ensures height { result.height ≡ capped 0 }
    ensures rest { result.rest.now ≡ rest.now }
{
    Found {
        tree,
        height: flat(),
        rest,
    }
}

// An attribute behind its first word; one behind a closing brace belongs to what the brace closes.
fn attribute_of<'a>(
    alloc: Global,
    names: &TypeNames,
    before: Before,
    span: Span,
    tokens: &'a [Token],
) -> Result<Option<Found<'a, Specifier>>, AllocError>
    ensures found { IfOk result (λ r. IsFound specifier_tree (attribute_of (before_of before) span tokens.now) names.now.names names.now.names tokens.now r) }
{
    if before == Before::Braced {
        return Ok(None);
    }
    match attribute_behind(alloc, span, tokens)? {
        None => Ok(None),
        Some((attribute, rest)) => Ok(Some(one_token(Specifier::Attribute(attribute), rest))),
    }
}

fn is_untyped(before: Before) -> bool
    ensures { result ≡ is_untyped (before_of before) }
{
    match before {
        Before::Untyped => true,
        Before::Typed => false,
        Before::Braced => false,
    }
}

fn specifier_of<'a, B: Below<'a>>(
    below: &B,
    alloc: Global,
    names: &mut TypeNames,
    purpose: Purpose,
    before: Before,
    first: &Token,
    tokens: &'a [Token],
) -> Result<Option<Found<'a, Specifier>>, AllocError>
    requires { B.works below.now }
    ensures found { IfOk result (λ r. IsFound specifier_tree (specifier_of (B.depth below.now) (purpose_of purpose) names.old.names (before_of before) first.now.span tokens.now first.now.word) names.old.names names.new.names (first.now ∷ tokens.now) r) }
    ensures kept { kept names.new ≡ kept names.old }
{
    let span = first.span;
    match &first.word {
        Word::Keyword(Keyword::Struct) => {
            composite_at(below, alloc, names, span, CompositeSort::Struct, tokens)
        }
        Word::Keyword(Keyword::Union) => {
            composite_at(below, alloc, names, span, CompositeSort::Union, tokens)
        }
        Word::Keyword(Keyword::Enum) => enum_at(below, alloc, names, span, tokens),
        Word::Keyword(Keyword::Attribute) => attribute_of(alloc, names, before, span, tokens),
        Word::Keyword(keyword) => {
            let keyword = *keyword;
            if may_specify(purpose, keyword) {
                Ok(Some(one_token(Specifier::Keyword { span, keyword }, tokens)))
            } else {
                Ok(None)
            }
        }
        Word::Identifier(name) => {
            if is_untyped(before) && names.is_typedef(name) {
                let name = name.duplicate(alloc)?;
                Ok(Some(one_token(Specifier::Typedef { span, name }, tokens)))
            } else {
                Ok(None)
            }
        }
        _ => Ok(None),
    }
}

/// A specifier behind others, whose parts are read with `below`.
pub fn specifier_rule<'a, B: Below<'a>>(
    below: &B,
    alloc: Global,
    names: &mut TypeNames,
    purpose: Purpose,
    before: Before,
    tokens: &'a [Token],
) -> Result<Option<Found<'a, Specifier>>, AllocError>
    requires { B.works below.now }
    ensures found { IfOk result (λ r. IsFound specifier_tree (specifier_rule (B.depth below.now) (purpose_of purpose) names.old.names (before_of before) tokens.now) names.old.names names.new.names tokens.now r) }
    ensures kept { kept names.new ≡ kept names.old }
{
    match tokens.split_first() {
        None => Ok(None),
        Some((first, rest)) => specifier_of(below, alloc, names, purpose, before, first, rest),
    }
}
