//! Attributes, qualifiers and pointers, and the words in an array's brackets (C11 6.7.3, 6.7.6.1 and 6.7.6.2).
ghost use Rattle.std.specs.Prelude.{◌≡◌, ◌≤◌, ◌<◌, ◌∷◌, [], Some, suc, length, option_map, reverse, IfOk, IfSome};
ghost use Rattle.c_tree.specs.WellFormed.{is_array_word, is_qualifier, open_behind, open_without};
ghost use Rattle.c_parse_attributes.specs.Balance.{open_where};
ghost use Rattle.c_parse_rules.specs.TypeRules.{array_words, attribute_at, attribute_behind, attributes_at, balanced, ends_words, first_span, keyword_at, pointer_at, pointers, qualifier_at, qualifiers};

use c_base::number::Span;
use c_base::token::{Keyword, Punctuator, Token, Word};
use c_parse_base::words::{behind_punctuator, is_keyword, is_punctuator, is_qualifier};
use c_tree::tree::{Attribute, Pointer, Qualifier};
use sqlite_items::Items;
use std::alloc::{AllocError, Global};

fn copied(alloc: Global, word: &Word) -> Result<Word, AllocError>
    ensures { IfOk result (λ copy. copy ≡ word.now) }
{
    match word {
        Word::Identifier(name) => Ok(Word::Identifier(name.duplicate(alloc)?)),
        Word::Keyword(keyword) => Ok(Word::Keyword(*keyword)),
        Word::Punctuator(punctuator) => Ok(Word::Punctuator(*punctuator)),
        Word::Integer(constant) => Ok(Word::Integer(*constant)),
        Word::Floating => Ok(Word::Floating),
        Word::Character(byte) => Ok(Word::Character(*byte)),
        Word::Text(bytes) => Ok(Word::Text(Items::from_slice(alloc, bytes.as_slice())?)),
        Word::OpenAnnotation => Ok(Word::OpenAnnotation),
        Word::CloseAnnotation => Ok(Word::CloseAnnotation),
        Word::AnnotationWord(name) => Ok(Word::AnnotationWord(name.duplicate(alloc)?)),
    }
}

// A bracket is open, which this mark closes.
fn opens(unclosed: &mut Vec<Punctuator>, closing: Punctuator) -> Result<bool, AllocError>
    ensures { IfOk result (λ stands. open_where stands unclosed.new.items ≡ Some (closing ∷ reverse unclosed.old.items)) }
{
    unclosed.push(closing)?;
    Ok(true)
}

// Whether the mark closes the innermost bracket that is open.
fn closes(unclosed: &mut Vec<Punctuator>, closing: Punctuator) -> bool
    ensures { open_where result unclosed.new.items ≡ open_without closing (reverse unclosed.old.items) }
{
    match unclosed.pop() {
        None => false,
        Some(innermost) => innermost == closing,
    }
}

// Whether the word can stand there; `unclosed` are the marks that close what is open, the innermost last.
fn stands(unclosed: &mut Vec<Punctuator>, word: &Word) -> Result<bool, AllocError>
    ensures { IfOk result (λ stands. open_where stands unclosed.new.items ≡ open_behind (reverse unclosed.old.items) word.now) }
{
    match word {
        Word::Punctuator(Punctuator::OpenParenthesis) => opens(
            unclosed,
            Punctuator::CloseParenthesis,
        ),
        Word::Punctuator(Punctuator::OpenBracket) => opens(unclosed, Punctuator::CloseBracket),
        Word::Punctuator(Punctuator::OpenBrace) => opens(unclosed, Punctuator::CloseBrace),
        Word::Punctuator(Punctuator::CloseParenthesis) => {
            Ok(closes(unclosed, Punctuator::CloseParenthesis))
        }
        Word::Punctuator(Punctuator::CloseBracket) => Ok(closes(
            unclosed,
            Punctuator::CloseBracket,
        )),
        Word::Punctuator(Punctuator::CloseBrace) => Ok(closes(unclosed, Punctuator::CloseBrace)),
        Word::OpenAnnotation => Ok(false),
        Word::CloseAnnotation => Ok(false),
        Word::AnnotationWord(_) => Ok(false),
        _ => Ok(true),
    }
}

// A `)` ends the words where none of their brackets is open.
fn ends_words(unclosed: &Vec<Punctuator>, word: &Word) -> bool
    ensures { result ≡ ends_words (reverse unclosed.now.items) word.now }
{
    unclosed.is_empty() && is_punctuator(word, Punctuator::CloseParenthesis)
}

// The words up to the first `)` that closes none of their brackets, and what is behind it.
fn balanced<'a>(
    alloc: Global,
    tokens: &'a [Token],
) -> Result<Option<(Items<Word>, &'a [Token])>, AllocError>
    ensures found { IfOk result (λ r. option_map (λ f. (f.0, f.1.now)) r ≡ balanced [] tokens.now) }
    ensures shorter { IfOk result (λ r. IfSome r (λ f. length f.1.now < length tokens.now)) }
{
    let mut words = Vec::new(alloc);
    let mut unclosed = Vec::new(alloc);
    let mut rest = tokens;
    'reading: while let Some((first, next)) = rest.split_first() {
        if ends_words(&unclosed, &first.word) {
            return Ok(Some((Items::from_vec(words), next)));
        }
        if !stands(&mut unclosed, &first.word)? {
            return Ok(None);
        }
        words.push(copied(alloc, &first.word)?)?;
        rest = next;
    }
    Ok(None)
}

/// An attribute behind its first word.
#[tactic(auto, unfolding(c_parse_rules::specs::TypeRules::attribute_behind))]
pub fn attribute_behind<'a>(
    alloc: Global,
    span: Span,
    tokens: &'a [Token],
) -> Result<Option<(Attribute, &'a [Token])>, AllocError>
    ensures found { IfOk result (λ r. option_map (λ f. (f.0, f.1.now)) r ≡ attribute_behind span tokens.now) }
    ensures shorter { IfOk result (λ r. IfSome r (λ f. length f.1.now < length tokens.now)) }
{
    let Some(outer) = behind_punctuator(tokens, Punctuator::OpenParenthesis) else {
        return Ok(None);
    };
    let Some(inside) = behind_punctuator(outer, Punctuator::OpenParenthesis) else {
        return Ok(None);
    };
    let Some((words, behind)) = balanced(alloc, inside)? else {
        return Ok(None);
    };
    match behind_punctuator(behind, Punctuator::CloseParenthesis) {
        None => Ok(None),
        Some(rest) => Ok(Some((Attribute { span, words }, rest))),
    }
}

fn attribute_at<'a>(
    alloc: Global,
    tokens: &'a [Token],
) -> Result<Option<(Attribute, &'a [Token])>, AllocError>
    ensures found { IfOk result (λ r. option_map (λ f. (f.0, f.1.now)) r ≡ attribute_at tokens.now) }
    ensures shorter { IfOk result (λ r. IfSome r (λ f. length f.1.now < length tokens.now)) }
{
    match tokens.split_first() {
        None => Ok(None),
        Some((first, rest)) => {
            if is_keyword(&first.word, Keyword::Attribute) {
                attribute_behind(alloc, first.span, rest)
            } else {
                Ok(None)
            }
        }
    }
}

/// Attributes, as many as there are.
pub fn attributes_at<'a>(
    alloc: Global,
    tokens: &'a [Token],
) -> Result<(Items<Attribute>, &'a [Token]), AllocError>
    ensures found { IfOk result (λ f. (f.0, f.1.now) ≡ attributes_at tokens.now) }
    ensures shorter { IfOk result (λ f. length f.1.now ≤ length tokens.now) }
{
    let mut found = Vec::new(alloc);
    let mut rest = tokens;
    'reading: while let Some((attribute, next)) = attribute_at(alloc, rest)? {
        found.push(attribute)?;
        rest = next;
    }
    Ok((Items::from_vec(found), rest))
}

// What stands in the brackets of an array declarator before its bound.
fn is_array_word(keyword: Keyword) -> bool
    ensures { result ≡ is_array_word keyword }
{
    match keyword {
        Keyword::Static => true,
        other => is_qualifier(other),
    }
}

#[tactic(auto, unfolding(c_parse_rules::specs::TypeRules::keyword_at))]
fn array_word_at(tokens: &[Token]) -> Option<(Keyword, &[Token])>
    ensures found { option_map (λ f. (f.0, f.1.now)) result ≡ keyword_at is_array_word tokens.now }
    ensures shorter { IfSome result (λ f. length f.1.now < length tokens.now) }
{
    match tokens.split_first() {
        None => None,
        Some((first, rest)) => match &first.word {
            Word::Keyword(keyword) => {
                if is_array_word(*keyword) {
                    Some((*keyword, rest))
                } else {
                    None
                }
            }
            _ => None,
        },
    }
}

/// The words in an array's brackets before its bound.
pub fn array_words_at<'a>(
    alloc: Global,
    tokens: &'a [Token],
) -> Result<(Items<Keyword>, &'a [Token]), AllocError>
    ensures found { IfOk result (λ f. (f.0, f.1.now) ≡ array_words (suc (length tokens.now)) [] tokens.now) }
    ensures shorter { IfOk result (λ f. length f.1.now ≤ length tokens.now) }
{
    let mut found = Vec::new(alloc);
    let mut rest = tokens;
    'reading: while let Some((keyword, next)) = array_word_at(rest) {
        found.push(keyword)?;
        rest = next;
    }
    Ok((Items::from_vec(found), rest))
}

#[tactic(auto, unfolding(c_parse_rules::specs::TypeRules::keyword_at))]
fn qualifying_at(tokens: &[Token]) -> Option<(Keyword, &[Token])>
    ensures found { option_map (λ f. (f.0, f.1.now)) result ≡ keyword_at is_qualifier tokens.now }
    ensures shorter { IfSome result (λ f. length f.1.now < length tokens.now) }
{
    match tokens.split_first() {
        None => None,
        Some((first, rest)) => match &first.word {
            Word::Keyword(keyword) => {
                if is_qualifier(*keyword) {
                    Some((*keyword, rest))
                } else {
                    None
                }
            }
            _ => None,
        },
    }
}

#[tactic(auto, unfolding(c_parse_rules::specs::TypeRules::qualifier_at))]
fn qualifier_at<'a>(
    alloc: Global,
    tokens: &'a [Token],
) -> Result<Option<(Qualifier, &'a [Token])>, AllocError>
    ensures found { IfOk result (λ r. option_map (λ f. (f.0, f.1.now)) r ≡ qualifier_at tokens.now) }
    ensures shorter { IfOk result (λ r. IfSome r (λ f. length f.1.now < length tokens.now)) }
{
    if let Some((keyword, rest)) = qualifying_at(tokens) {
        return Ok(Some((Qualifier::Keyword(keyword), rest)));
    }
    match attribute_at(alloc, tokens)? {
        None => Ok(None),
        Some((attribute, rest)) => Ok(Some((Qualifier::Attribute(attribute), rest))),
    }
}

fn qualifiers_at<'a>(
    alloc: Global,
    tokens: &'a [Token],
) -> Result<(Items<Qualifier>, &'a [Token]), AllocError>
    ensures found { IfOk result (λ f. (f.0, f.1.now) ≡ qualifiers (suc (length tokens.now)) [] tokens.now) }
    ensures shorter { IfOk result (λ f. length f.1.now ≤ length tokens.now) }
{
    let mut found = Vec::new(alloc);
    let mut rest = tokens;
    'reading: while let Some((qualifier, next)) = qualifier_at(alloc, rest)? {
        found.push(qualifier)?;
        rest = next;
    }
    Ok((Items::from_vec(found), rest))
}

fn pointer_at<'a>(
    alloc: Global,
    tokens: &'a [Token],
) -> Result<Option<(Pointer, &'a [Token])>, AllocError>
    ensures found { IfOk result (λ r. option_map (λ f. (f.0, f.1.now)) r ≡ pointer_at tokens.now) }
    ensures shorter { IfOk result (λ r. IfSome r (λ f. length f.1.now < length tokens.now)) }
{
    match tokens.split_first() {
        None => Ok(None),
        Some((first, rest)) => {
            if !is_punctuator(&first.word, Punctuator::Star) {
                return Ok(None);
            }
            let (qualifiers, behind) = qualifiers_at(alloc, rest)?;
            let span = first.span;
            Ok(Some((Pointer { span, qualifiers }, behind)))
        }
    }
}

/// The pointers of a declarator.
pub fn pointers_at<'a>(
    alloc: Global,
    tokens: &'a [Token],
) -> Result<(Items<Pointer>, &'a [Token]), AllocError>
    ensures found { IfOk result (λ f. (f.0, f.1.now) ≡ pointers (suc (length tokens.now)) [] tokens.now) }
    ensures shorter { IfOk result (λ f. length f.1.now ≤ length tokens.now) }
{
    let mut found = Vec::new(alloc);
    let mut rest = tokens;
    'reading: while let Some((pointer, next)) = pointer_at(alloc, rest)? {
        found.push(pointer)?;
        rest = next;
    }
    Ok((Items::from_vec(found), rest))
}

/// The place of the first token, or no place where there is none.
pub fn first_span(tokens: &[Token]) -> Span
    ensures { result ≡ first_span (record { line = 0; col = 0 }) tokens.now }
{
    match tokens.split_first() {
        None => Span { line: 0, col: 0 },
        Some((first, _)) => first.span,
    }
}
