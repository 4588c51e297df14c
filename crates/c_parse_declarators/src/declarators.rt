//! Declarators (C11 6.7.6).
ghost use Rattle.std.specs.Prelude.{◌≡◌, ◌∷◌, suc, ◌+◌, map, max, IfOk, IfNone};
ghost use Rattle.c_tree.specs.Nesting.{nest, nest_below, nodes_of_core};
ghost use Rattle.c_tree.specs.Trees.{Group};
ghost use Rattle.c_tree.specs.Views.{core_tree, declarator_tree, suffix_tree, suffixes_of};
ghost use Rattle.c_tree.specs.WellFormed.{after, after_all};
ghost use Rattle.c_parse_base.specs.Heights.{capped};
ghost use Rattle.c_parse_base.specs.KnownNames.{kept};
ghost use Rattle.c_parse_base.specs.Purposes.{before_of, purpose_of};
ghost use Rattle.c_parse_base.specs.Reads.{found_of, IsFound};
ghost use Rattle.c_parse_attributes.specs.ReadsTypes.{IsPart};
ghost use Rattle.c_parse_attributes.specs.TypesAtDepth.{begins_parameters, core_at, core_of, core_or_none, declarator_of, declarator_rule, group_at, is_close_at, may_declare};

use crate::suffixes::{plus, suffixes_at};
use c_base::name::Name;
use c_base::number::Span;
use c_base::token::{Punctuator, Token, Word};
use c_parse_attributes::{first_span, pointers_at};
use c_parse_base::below::Below;
use c_parse_base::found::{Found, Several};
use c_parse_base::height::{CAP, above, deeper, flat, leaf};
use c_parse_base::names::TypeNames;
use c_parse_base::purpose::{Before, Purpose};
use c_parse_base::scope::close;
use c_parse_base::words::{behind_punctuator, is_punctuator, is_type_at};
use c_tree::tree::{Core, Declarator, Pointer, Suffix};
use sqlite_items::{Boxed, Items};
use std::alloc::{AllocError, Global};

fn group(alloc: Global, span: Span, inner: Declarator) -> Result<Core, AllocError>
    ensures { IfOk result (λ c. core_tree c ≡ Group span (declarator_tree inner)) }
{
    Ok(Core::Group {
        span,
        inner: Boxed::new(alloc, inner)?,
    })
}

// Behind the `(`.
#[tactic(auto, unfolding(c_parse_rules::specs::TypeRules::group_at))]
fn group_at<'a, B: Below<'a>>(
    below: &B,
    alloc: Global,
    names: &mut TypeNames,
    purpose: Purpose,
    before: Before,
    span: Span,
    tokens: &'a [Token],
) -> Result<Option<Found<'a, Core>>, AllocError>
    requires { B.works below.now }
    ensures found { IfOk result (λ r. IsFound core_tree (group_at (B.depth below.now) (purpose_of purpose) names.old.names (before_of before) span tokens.now) names.old.names names.new.names tokens.now r) }
    ensures kept { kept names.new ≡ kept names.old }
{
    let Some(inner) = below.declarator(alloc, names, purpose, before, tokens)? else {
        return Ok(None);
    };
    let height = inner.height;
    match behind_punctuator(inner.rest, Punctuator::CloseParenthesis) {
        None => Ok(None),
        Some(rest) => Ok(Some(Found {
            tree: group(alloc, span, inner.tree)?,
            height,
            rest,
        })),
    }
}

fn is_close_at(tokens: &[Token]) -> bool
    ensures { result ≡ is_close_at tokens.now }
{
    match tokens.split_first() {
        None => false,
        Some((first, _)) => is_punctuator(&first.word, Punctuator::CloseParenthesis),
    }
}

// Where a declarator may lack its name, a `(` before a type or a `)` begins its parameters.
fn begins_parameters(names: &TypeNames, purpose: Purpose, tokens: &[Token]) -> bool
    ensures { result ≡ begins_parameters (purpose_of purpose) names.now.names tokens.now }
{
    match purpose {
        Purpose::Member => false,
        Purpose::TypeName => is_type_at(names, tokens) || is_close_at(tokens),
        Purpose::Parameter => is_type_at(names, tokens) || is_close_at(tokens),
    }
}

// A name may stand there; `known`: it is a typedef name.
fn may_declare(purpose: Purpose, before: Before, known: bool) -> bool
    ensures { result ≡ may_declare (purpose_of purpose) (before_of before) known }
{
    match purpose {
        Purpose::TypeName => false,
        Purpose::Parameter => match before {
            Before::Untyped => !known,
            Before::Typed => true,
            Before::Braced => true,
        },
        Purpose::Member => match before {
            Before::Untyped => !known,
            Before::Typed => true,
            Before::Braced => true,
        },
    }
}

fn one_token<'a>(tree: Core, rest: &'a [Token]) -> Found<'a, Core>
    ensures tree { result.tree ≡ tree }
    ensures height { result.height ≡ capped 0 }
    ensures rest { result.rest.now ≡ rest.now }
{
    Found {
        tree,
        height: flat(),
        rest,
    }
}

fn core_of<'a, B: Below<'a>>(
    below: &B,
    alloc: Global,
    names: &mut TypeNames,
    purpose: Purpose,
    before: Before,
    first: &Token,
    tokens: &'a [Token],
) -> Result<Option<Found<'a, Core>>, AllocError>
    requires { B.works below.now }
    ensures found { IfOk result (λ r. IsFound core_tree (core_of (B.depth below.now) (purpose_of purpose) names.old.names (before_of before) first.now.span tokens.now first.now.word) names.old.names names.new.names (first.now ∷ tokens.now) r) }
    ensures kept { kept names.new ≡ kept names.old }
{
    let span = first.span;
    match &first.word {
        Word::Identifier(name) => {
            if !may_declare(purpose, before, names.is_typedef(name)) {
                return Ok(None);
            }
            let name = name.duplicate(alloc)?;
            Ok(Some(one_token(Core::Named { span, name }, tokens)))
        }
        Word::Punctuator(Punctuator::OpenParenthesis) => {
            if begins_parameters(names, purpose, tokens) {
                return Ok(None);
            }
            group_at(below, alloc, names, purpose, before, span, tokens)
        }
        _ => Ok(None),
    }
}

fn core_inside<'a, B: Below<'a>>(
    below: &B,
    alloc: Global,
    names: &mut TypeNames,
    purpose: Purpose,
    before: Before,
    tokens: &'a [Token],
) -> Result<Option<Found<'a, Core>>, AllocError>
    requires { B.works below.now }
    ensures found { IfOk result (λ r. IsFound core_tree (core_at (B.depth below.now) (purpose_of purpose) names.old.names (before_of before) tokens.now) names.old.names names.new.names tokens.now r) }
    ensures kept { kept names.new ≡ kept names.old }
{
    match tokens.split_first() {
        None => Ok(None),
        Some((first, rest)) => core_of(below, alloc, names, purpose, before, first, rest),
    }
}

fn core_at<'a, B: Below<'a>>(
    below: &B,
    alloc: Global,
    names: &mut TypeNames,
    purpose: Purpose,
    before: Before,
    tokens: &'a [Token],
) -> Result<Option<Found<'a, Core>>, AllocError>
    requires { B.works below.now }
    ensures found { IfOk result (λ r. IsFound core_tree (core_at (B.depth below.now) (purpose_of purpose) names.old.names (before_of before) tokens.now) names.old.names names.new.names tokens.now r) }
    ensures unchanged { IfOk result (λ r. IfNone r (names.new.names ≡ names.old.names)) }
    ensures kept { kept names.new ≡ kept names.old }
{
    let scope = names.enter();
    let found = core_inside(below, alloc, names, purpose, before, tokens);
    close(names, scope, tokens, found)
}

// What the pointers stand before, or nothing, where the declarator may lack its name.
fn core_or_none<'a, B: Below<'a>>(
    below: &B,
    alloc: Global,
    names: &mut TypeNames,
    purpose: Purpose,
    before: Before,
    tokens: &'a [Token],
) -> Result<Option<Found<'a, Core>>, AllocError>
    requires { B.works below.now }
    ensures found { IfOk result (λ r. IsPart core_tree (core_or_none (B.depth below.now) (purpose_of purpose) tokens.now (core_at (B.depth below.now) (purpose_of purpose) names.old.names (before_of before) tokens.now)) names.old.names names.new.names tokens.now r) }
    ensures kept { kept names.new ≡ kept names.old }
{
    match core_at(below, alloc, names, purpose, before, tokens)? {
        Some(core) => Ok(Some(core)),
        None => match purpose {
            Purpose::Member => Ok(None),
            Purpose::TypeName => Ok(Some(one_token(Core::Absent, tokens))),
            Purpose::Parameter => Ok(Some(one_token(Core::Absent, tokens))),
        },
    }
}

// A pair of parentheses is a node above the suffixes behind it.
fn nodes_of_core(core: &Core) -> u32
    ensures { result ≡ capped (nodes_of_core (core_tree core.now)) }
{
    match core {
        Core::Group { span: _, inner: _ } => leaf(),
        Core::Named { span: _, name: _ } => flat(),
        Core::Absent => flat(),
    }
}

// So many nodes.
#[tactic(auto, unfolding(c_parse_base::specs::Heights::capped))]
fn counted(count: usize) -> u32
    ensures { result ≡ capped count }
{
    if count < CAP as usize {
        count as u32
    } else {
        CAP
    }
}

// How deep a declarator is.
fn declarator_height(pointers: u32, core: u32, nodes: u32, suffixes: u32) -> u32
    ensures exact { (p c n s : _) → pointers ≡ capped p → core ≡ capped c → nodes ≡ capped n → suffixes ≡ capped s → result ≡ capped (suc (p + max c (n + s))) }
{
    above(plus(pointers, deeper(core, plus(nodes, suffixes))))
}

fn declarator_of<'a>(
    span: Span,
    pointers: Items<Pointer>,
    core: Found<'a, Core>,
    suffixes: Several<'a, Suffix>,
) -> Found<'a, Declarator>
    requires core { core.height ≡ capped (nest (core_tree core.tree)) }
    requires suffixes { suffixes.height ≡ capped (nest_below (suffixes_of suffixes.trees)) }
    ensures same { (d : _) → found_of declarator_tree result ≡ declarator_of d span pointers (core_tree core.entry.tree) (map suffix_tree suffixes.entry.trees, suffixes.entry.rest.now) }
    ensures height { result.height ≡ capped (nest (declarator_tree result.tree)) }
    ensures names { (old : _) → after old (declarator_tree result.tree) ≡ after_all (after old (core_tree core.entry.tree)) (suffixes_of suffixes.entry.trees) }
    ensures rest { result.rest.now ≡ suffixes.entry.rest.now }
{
    let nodes = nodes_of_core(&core.tree);
    let height = declarator_height(counted(pointers.len()), core.height, nodes, suffixes.height);
    Found {
        tree: Declarator {
            span,
            pointers,
            core: core.tree,
            suffixes: suffixes.trees,
        },
        height,
        rest: suffixes.rest,
    }
}

/// A declarator behind specifiers, whose parts are read with `below`.
#[tactic(auto, unfolding(c_parse_rules::specs::TypeRules::declarator_rule, c_parse_rules::specs::TypeRules::declarator_behind, c_parse_attributes::specs::TypesAtDepth::all_suffixes))]
pub fn declarator_rule<'a, B: Below<'a>>(
    below: &B,
    alloc: Global,
    names: &mut TypeNames,
    purpose: Purpose,
    before: Before,
    tokens: &'a [Token],
) -> Result<Option<Found<'a, Declarator>>, AllocError>
    requires { B.works below.now }
    ensures found { IfOk result (λ r. IsFound declarator_tree (declarator_rule (B.depth below.now) (purpose_of purpose) names.old.names (before_of before) tokens.now) names.old.names names.new.names tokens.now r) }
    ensures kept { kept names.new ≡ kept names.old }
{
    let (pointers, behind) = pointers_at(alloc, tokens)?;
    let Some(core) = core_or_none(below, alloc, names, purpose, before, behind)? else {
        return Ok(None);
    };
    let suffixes = suffixes_at(below, alloc, names, core.rest)?;
    let found = declarator_of(first_span(tokens), pointers, core, suffixes);
    if found.rest.len() < tokens.len() {
        Ok(Some(found))
    } else {
        Ok(None)
    }
}
