//! The words of what has no trees in it.
ghost use Rattle.std.specs.Prelude.{◌≡◌, ◌∷◌, ◌++◌, [], OnOk, IfOk};
ghost use Rattle.c_base.specs.declared.token.Keyword.TheVariants as key;
ghost use Rattle.c_base.specs.declared.token.Punctuator.TheVariants as mark;
ghost use Rattle.c_base.specs.declared.token.Word.TheVariants as word;
ghost use Rattle.c_tree.specs.Spelling.{words_of, pieces_of_literals, pieces_of_text, pieces_of_words, pieces_of_attribute, pieces_of_attributes, pieces_of_keywords, pieces_of_qualifier, pieces_of_qualifiers, pieces_of_pointers, pieces_of_tag, pieces_where, sign, keyword_of_sort, word_of_prefix, word_of_type_operator};

use crate::operator::{PrefixOperator, TypeOperator};
use crate::tree::{Attribute, CompositeSort, Pointer, Qualifier};
use c_base::name::Name;
use c_base::number::Span;
use c_base::token::{Keyword, Punctuator, Word};
use sqlite_items::Items;
use std::alloc::{AllocError, Global};

/// Adds a punctuator.
pub fn mark(out: &mut Items<Word>, punctuator: Punctuator) -> Result<(), AllocError>
    ensures { OnOk result (out.new ≡ out.old ++ word.Punctuator punctuator ∷ []) }
{
    out.push(Word::Punctuator(punctuator))
}

/// Adds a keyword.
pub fn keyword(out: &mut Items<Word>, keyword: Keyword) -> Result<(), AllocError>
    ensures { OnOk result (out.new ≡ out.old ++ word.Keyword keyword ∷ []) }
{
    out.push(Word::Keyword(keyword))
}

pub(crate) fn prefix(out: &mut Items<Word>, operator: PrefixOperator) -> Result<(), AllocError>
    ensures { OnOk result (out.new ≡ out.old ++ word_of_prefix operator ∷ []) }
{
    out.push(operator.word())
}

pub(crate) fn type_operator(out: &mut Items<Word>, operator: TypeOperator) -> Result<(), AllocError>
    ensures { OnOk result (out.new ≡ out.old ++ word_of_type_operator operator ∷ []) }
{
    out.push(operator.word())
}

/// Adds a name.
pub fn identifier(alloc: Global, out: &mut Items<Word>, name: &Name) -> Result<(), AllocError>
    ensures { OnOk result (out.new ≡ out.old ++ word.Identifier name.now ∷ []) }
{
    out.push(Word::Identifier(name.duplicate(alloc)?))
}

/// Adds string literals.
pub fn literals(alloc: Global, out: &mut Items<Word>, all: &[Items<u8>]) -> Result<(), AllocError>
    ensures { OnOk result (out.new ≡ out.old ++ words_of (pieces_of_literals all.now)) }
{
    for literal in all {
        out.push(Word::Text(Items::from_slice(alloc, literal.as_slice())?))?;
    }
    Ok(())
}

// The first has a place in a tree, which is no matter here.
pub(crate) fn text(
    alloc: Global,
    out: &mut Items<Word>,
    all: &[Items<u8>],
    span: Span,
) -> Result<(), AllocError>
    ensures { OnOk result (out.new ≡ out.old ++ words_of (pieces_of_text span all.now)) }
{
    literals(alloc, out, all)
}

fn copied(alloc: Global, word: &Word) -> Result<Word, AllocError>
    ensures { IfOk result (λ copy. copy ≡ word.now) }
{
    match word {
        Word::Identifier(name) => Ok(Word::Identifier(name.duplicate(alloc)?)),
        Word::Keyword(keyword) => Ok(Word::Keyword(*keyword)),
        Word::Punctuator(punctuator) => Ok(Word::Punctuator(*punctuator)),
        Word::Integer(constant) => Ok(Word::Integer(*constant)),
        Word::Floating => Ok(Word::Floating),
        Word::Character(byte) => Ok(Word::Character(*byte)),
        Word::Text(bytes) => Ok(Word::Text(Items::from_slice(alloc, bytes.as_slice())?)),
        Word::OpenAnnotation => Ok(Word::OpenAnnotation),
        Word::CloseAnnotation => Ok(Word::CloseAnnotation),
        Word::AnnotationWord(name) => Ok(Word::AnnotationWord(name.duplicate(alloc)?)),
    }
}

fn kept_words(alloc: Global, out: &mut Items<Word>, all: &[Word]) -> Result<(), AllocError>
    ensures { OnOk result (out.new ≡ out.old ++ words_of (pieces_of_words all.now)) }
{
    for word in all {
        out.push(copied(alloc, word)?)?;
    }
    Ok(())
}

/// Adds `__attribute__((..))`.
pub fn attribute(alloc: Global, out: &mut Items<Word>, kept: &Attribute) -> Result<(), AllocError>
    ensures { OnOk result (out.new ≡ out.old ++ words_of (pieces_of_attribute kept.now)) }
{
    keyword(out, Keyword::Attribute)?;
    mark(out, Punctuator::OpenParenthesis)?;
    mark(out, Punctuator::OpenParenthesis)?;
    kept_words(alloc, out, kept.words.as_slice())?;
    mark(out, Punctuator::CloseParenthesis)?;
    mark(out, Punctuator::CloseParenthesis)
}

/// Adds attributes.
pub fn attributes(alloc: Global, out: &mut Items<Word>, all: &[Attribute]) -> Result<(), AllocError>
    ensures { OnOk result (out.new ≡ out.old ++ words_of (pieces_of_attributes all.now)) }
{
    for each in all {
        attribute(alloc, out, each)?;
    }
    Ok(())
}

pub(crate) fn keywords(out: &mut Items<Word>, all: &[Keyword]) -> Result<(), AllocError>
    ensures { OnOk result (out.new ≡ out.old ++ words_of (pieces_of_keywords all.now)) }
{
    for each in all {
        keyword(out, *each)?;
    }
    Ok(())
}

fn qualifier(alloc: Global, out: &mut Items<Word>, each: &Qualifier) -> Result<(), AllocError>
    ensures { OnOk result (out.new ≡ out.old ++ words_of (pieces_of_qualifier each.now)) }
{
    match each {
        Qualifier::Keyword(word) => keyword(out, *word),
        Qualifier::Attribute(kept) => attribute(alloc, out, kept),
    }
}

fn qualifiers(alloc: Global, out: &mut Items<Word>, all: &[Qualifier]) -> Result<(), AllocError>
    ensures { OnOk result (out.new ≡ out.old ++ words_of (pieces_of_qualifiers all.now)) }
{
    for each in all {
        qualifier(alloc, out, each)?;
    }
    Ok(())
}

pub(crate) fn pointers(
    alloc: Global,
    out: &mut Items<Word>,
    all: &[Pointer],
) -> Result<(), AllocError>
    ensures { OnOk result (out.new ≡ out.old ++ words_of (pieces_of_pointers all.now)) }
{
    for each in all {
        mark(out, Punctuator::Star)?;
        qualifiers(alloc, out, each.qualifiers.as_slice())?;
    }
    Ok(())
}

pub(crate) fn composite_keyword(sort: CompositeSort) -> Keyword
    ensures { result ≡ keyword_of_sort sort }
{
    match sort {
        CompositeSort::Struct => Keyword::Struct,
        CompositeSort::Union => Keyword::Union,
    }
}

pub(crate) fn tag(
    alloc: Global,
    out: &mut Items<Word>,
    tag: &Option<Name>,
) -> Result<(), AllocError>
    ensures { OnOk result (out.new ≡ out.old ++ words_of (pieces_of_tag tag.now)) }
{
    match tag {
        None => Ok(()),
        Some(name) => identifier(alloc, out, name),
    }
}

pub(crate) fn comma_where(out: &mut Items<Word>, stands: bool) -> Result<(), AllocError>
    ensures { OnOk result (out.new ≡ out.old ++ words_of (pieces_where stands (sign mark.Comma ∷ []))) }
{
    if stands {
        mark(out, Punctuator::Comma)
    } else {
        Ok(())
    }
}

pub(crate) fn ellipsis_where(out: &mut Items<Word>, stands: bool) -> Result<(), AllocError>
    ensures { OnOk result (out.new ≡ out.old ++ words_of (pieces_where stands (sign mark.Comma ∷ sign mark.Ellipsis ∷ []))) }
{
    if !stands {
        return Ok(());
    }
    mark(out, Punctuator::Comma)?;
    mark(out, Punctuator::Ellipsis)
}

pub(crate) fn composite_head(
    alloc: Global,
    out: &mut Items<Word>,
    sort: CompositeSort,
    kept: &[Attribute],
) -> Result<(), AllocError>
    ensures { OnOk result (out.new ≡ out.old ++ word.Keyword (keyword_of_sort sort) ∷ words_of (pieces_of_attributes kept.now)) }
{
    keyword(out, composite_keyword(sort))?;
    attributes(alloc, out, kept)
}

pub(crate) fn enum_tag(alloc: Global, out: &mut Items<Word>, name: &Name) -> Result<(), AllocError>
    ensures { OnOk result (out.new ≡ out.old ++ word.Keyword key.Enum ∷ word.Identifier name.now ∷ []) }
{
    keyword(out, Keyword::Enum)?;
    identifier(alloc, out, name)
}

pub(crate) fn enum_head(
    alloc: Global,
    out: &mut Items<Word>,
    name: &Option<Name>,
) -> Result<(), AllocError>
    ensures { OnOk result (out.new ≡ out.old ++ word.Keyword key.Enum ∷ words_of (pieces_of_tag name.now)) }
{
    keyword(out, Keyword::Enum)?;
    tag(alloc, out, name)
}
