//! Where tokens are not of the language.
ghost use Rattle.std.specs.Prelude.{◌≡◌, IfOk, IfSome};
ghost use Rattle.first_units.specs.Language.{has_annotation, is_annotation};
ghost use Rattle.first_units.specs.Place.{is_there, IsPlaceIn};

use crate::programs::{declared_in, is_just, is_main, next_declared, variable_in};
use crate::statements::statements_in;
use c_base::name::Name;
use c_base::number::Span;
use c_base::token::{Keyword, Token, Word};
use c_unit_tree::declaration::Declaration;
use c_unit_tree::unit::{Body, External, Function, Unit, UnitItem};
use indexmap::IndexSet;
use std::alloc::{AllocError, Global};

fn is_annotation(word: &Word) -> bool
    ensures { result ≡ is_annotation word.now }
{
    match word {
        Word::OpenAnnotation => true,
        Word::CloseAnnotation => true,
        Word::AnnotationWord(_) => true,
        _ => false,
    }
}

/// The place of the first token of an annotation, if there is one.
pub fn annotation_in(tokens: &[Token]) -> Option<Span>
    ensures found { is_there result ≡ has_annotation tokens.now }
    ensures place { IfSome result (λ at. IsPlaceIn tokens.now at) }
{
    for token in tokens {
        if is_annotation(&token.word) {
            return Some(token.span);
        }
    }
    None
}

// The wanted place, where it is one of a token; else that of the first token, and 1:1 where there is none.
fn place_among(tokens: &[Token], wanted: Option<Span>) -> Span
    ensures { IsPlaceIn tokens.now result }
{
    for token in tokens {
        if Some(token.span) == wanted {
            return token.span;
        }
    }
    match tokens.first() {
        None => Span { line: 1, col: 1 },
        Some(token) => token.span,
    }
}

fn place_of(declaration: &Declaration) -> Span {
    match declaration {
        Declaration::Declarators {
            span,
            specifiers: _,
            declarators: _,
        } => *span,
        Declaration::Assertion {
            span,
            condition: _,
            literals: _,
        } => *span,
    }
}

// Whether the name of a declaration is one, and a new one, which is noted.
fn is_new(
    alloc: Global,
    declaration: &Declaration,
    index: &mut IndexSet<Name>,
) -> Result<bool, AllocError> {
    match variable_in(declaration) {
        None => Ok(false),
        Some(name) => {
            let (_, added) = index.insert_full(name.duplicate(alloc)?)?;
            Ok(added)
        }
    }
}

// The first declaration in front of the statements that is none of the language.
fn odd_declaration(alloc: Global, items: &[UnitItem]) -> Result<Option<Span>, AllocError> {
    let mut index = IndexSet::new(alloc);
    let mut rest = items;
    'declaring: while let Some((declaration, next)) = next_declared(rest) {
        if !is_new(alloc, declaration, &mut index)? {
            return Ok(Some(place_of(declaration)));
        }
        rest = next;
    }
    Ok(None)
}

// In a block, the declaration or the statement that is none of the language.
fn odd_item(alloc: Global, body: &Body) -> Result<Option<Span>, AllocError> {
    let Some(declared) = declared_in(alloc, body.items.as_slice())? else {
        return odd_declaration(alloc, body.items.as_slice());
    };
    if declared.index.len() >= 4_294_967_295 {
        return Ok(Some(body.span));
    }
    let mut spans = Vec::new(alloc);
    let _ = statements_in(alloc, declared.rest, &declared.index, &mut spans)?;
    match spans.last() {
        None => Ok(Some(body.span)),
        Some(span) => Ok(Some(*span)),
    }
}

// In a function definition, what is not of the language.
fn odd_function(alloc: Global, function: &Function) -> Result<Option<Span>, AllocError> {
    if is_just(Keyword::Int, function.specifiers.as_slice()) && is_main(&function.declarator) {
        odd_item(alloc, &function.body)
    } else {
        Ok(Some(function.span))
    }
}

// The first external declaration that is not `;` alone and no function definition, or the second definition; else the first.
fn odd_external(all: &[External]) -> Option<&External> {
    let mut first: Option<&External> = None;
    for each in all {
        match each {
            External::Empty { span: _ } => {}
            External::Declaration(_) => return Some(each),
            External::Function(_) => match first {
                Some(_) => return Some(each),
                None => first = Some(each),
            },
        }
    }
    first
}

fn odd_place(alloc: Global, unit: &Unit) -> Result<Option<Span>, AllocError> {
    match odd_external(unit.externals.as_slice()) {
        None => Ok(None),
        Some(external) => match external {
            External::Empty { span } => Ok(Some(*span)),
            External::Declaration(declaration) => Ok(Some(place_of(declaration))),
            External::Function(function) => odd_function(alloc, function),
        },
    }
}

/// A place of the unit's tokens at which it is not of the language: that of a declaration or a statement, as far as one is known.
pub fn refused_at(alloc: Global, unit: &Unit, tokens: &[Token]) -> Result<Span, AllocError>
    ensures { IfOk result (IsPlaceIn tokens.now) }
{
    let wanted = odd_place(alloc, unit)?;
    Ok(place_among(tokens, wanted))
}
