//! What a piece gives: a token, nothing, an annotation, or a fault.
ghost use Rattle.std.specs.Prelude.{◌≡◌, ◌<◌, ◌≤◌, ◌^◌, length, IfOk};
ghost use Rattle.c_lex.specs.Meanings.{closing, comment_meaning, name_meaning, number_meaning, text_meaning, single, character_in, character_meaning, quoted_meaning, word_meaning, meaning, FitsMeaning, IsSingle};

use crate::bytes::{behind, byte_at};
use crate::number::{is_floating_constant, read_integer};
use crate::state::{Context, Quote, State};
use crate::text::{Contents, between_quotes, read_contents, read_escape};
use crate::word::{find_keyword, is_dropped_name};
use c_base::name::Name;
use c_base::token::{LexSort, Word};
use std::alloc::{AllocError, Global};

/// What a piece gives.
#[derive(Drop)]
pub enum Meaning {
    /// No token.
    Blank,
    /// One token.
    Gives(Word),
    /// The tokens of an annotation.
    Annotates(Context),
    /// No token, and so the file has none; what is wrong stands so many bytes on.
    Wrong(LexSort, usize),
}

/// How many bytes close an annotation.
pub fn closing_length(context: Context) -> usize
    ensures value { result ≡ length (closing context) }
    ensures few { result ≤ 2 }
{
    match context {
        Context::Code => 0,
        Context::LineAnnotation => 0,
        Context::BlockAnnotation => 2,
    }
}

// A comment, which in the code is an annotation where `@` is its third byte.
#[tactic(auto, unfolding(crate::specs::Meanings::comment_meaning))]
fn meaning_of_comment(context: Context, annotation: Context, text: &[u8]) -> Meaning
    ensures value { result ≡ comment_meaning context annotation text.now }
    ensures fits { FitsMeaning text.now result }
{
    if context.is_in_annotation() {
        return Meaning::Blank;
    }
    if text.len() < 3 + closing_length(annotation) {
        return Meaning::Blank;
    }
    if byte_at(text, 2) == b'@' {
        Meaning::Annotates(annotation)
    } else {
        Meaning::Blank
    }
}

#[tactic(auto, unfolding(crate::specs::Meanings::name_meaning))]
fn meaning_of_name(alloc: Global, text: &[u8]) -> Result<Meaning, AllocError>
    ensures value { IfOk result (λ m. m ≡ name_meaning text.now) }
    ensures fits { IfOk result (FitsMeaning text.now) }
{
    if is_dropped_name(text) {
        return Ok(Meaning::Blank);
    }
    match find_keyword(text) {
        Some(keyword) => Ok(Meaning::Gives(Word::Keyword(keyword))),
        None => {
            let name = Name::from_bytes(alloc, text)?;
            Ok(Meaning::Gives(Word::Identifier(name)))
        }
    }
}

#[tactic(auto, unfolding(crate::specs::Meanings::number_meaning))]
fn meaning_of_number(text: &[u8]) -> Meaning
    ensures value { result ≡ number_meaning text.now }
    ensures fits { FitsMeaning text.now result }
{
    match read_integer(text) {
        Some(constant) => Meaning::Gives(Word::Integer(constant)),
        None => if is_floating_constant(text) {
            Meaning::Gives(Word::Floating)
        } else {
            Meaning::Wrong(LexSort::BadNumber, 0)
        },
    }
}

#[tactic(auto, unfolding(crate::specs::Meanings::text_meaning))]
fn meaning_of_text(alloc: Global, text: &[u8]) -> Result<Meaning, AllocError>
    requires { 0 < length text.now }
    ensures value { IfOk result (λ m. m ≡ text_meaning text.now) }
    ensures fits { IfOk result (FitsMeaning text.now) }
{
    match read_contents(alloc, between_quotes(text))? {
        Contents::WrongAt(index) => Ok(Meaning::Wrong(LexSort::BadByte, index + 1)),
        Contents::Bytes(bytes) => Ok(Meaning::Gives(Word::Text(bytes))),
    }
}

// A character of so many bytes, which is all that may stand between the quotes.
fn meaning_of_single(value: u8, count: usize, size: usize) -> Meaning
    requires { count ≤ size }
    ensures value { result ≡ single value count size }
    ensures fits { IsSingle size result }
{
    if count == size {
        Meaning::Gives(Word::Character(value))
    } else {
        Meaning::Wrong(LexSort::BadByte, 1 + count)
    }
}

#[tactic(auto, unfolding(crate::specs::Meanings::character_in))]
fn meaning_of_inner(inner: &[u8]) -> Meaning
    requires { length inner.now < 2 ^ 63 }
    ensures value { result ≡ character_in inner.now }
    ensures fits { IsSingle (length inner.now) result }
{
    let first = byte_at(inner, 0);
    if inner.len() == 0 {
        return Meaning::Wrong(LexSort::BadByte, 1);
    }
    if first == b'\\' {
        return match read_escape(behind(inner, 1)) {
            None => Meaning::Wrong(LexSort::BadByte, 1),
            Some(escaped) => meaning_of_single(escaped.value, 1 + escaped.length, inner.len()),
        };
    }
    if first < 128 {
        meaning_of_single(first, 1, inner.len())
    } else {
        Meaning::Wrong(LexSort::BadByte, 1)
    }
}

#[tactic(auto, unfolding(crate::specs::Meanings::character_meaning))]
fn meaning_of_character(text: &[u8]) -> Meaning
    requires { 0 < length text.now }
    ensures value { result ≡ character_meaning text.now }
    ensures fits { FitsMeaning text.now result }
{
    meaning_of_inner(between_quotes(text))
}

fn meaning_of_quoted(alloc: Global, quote: Quote, text: &[u8]) -> Result<Meaning, AllocError>
    requires { 0 < length text.now }
    ensures value { IfOk result (λ m. m ≡ quoted_meaning quote text.now) }
    ensures fits { IfOk result (FitsMeaning text.now) }
{
    match quote {
        Quote::Text => meaning_of_text(alloc, text),
        Quote::Character => Ok(meaning_of_character(text)),
    }
}

fn meaning_of_word(alloc: Global, text: &[u8]) -> Result<Meaning, AllocError>
    ensures value { IfOk result (λ m. m ≡ word_meaning text.now) }
    ensures fits { IfOk result (FitsMeaning text.now) }
{
    let name = Name::from_bytes(alloc, text)?;
    Ok(Meaning::Gives(Word::AnnotationWord(name)))
}

/// What a piece gives.
pub fn meaning_of(
    alloc: Global,
    context: Context,
    state: State,
    text: &[u8],
) -> Result<Meaning, AllocError>
    requires { 0 < length text.now }
    ensures value { IfOk result (λ m. m ≡ meaning context state text.now) }
    ensures fits { IfOk result (FitsMeaning text.now) }
{
    match state {
        State::Start(_) => Ok(Meaning::Wrong(LexSort::BadByte, 0)),
        State::White => Ok(Meaning::Blank),
        State::Name => meaning_of_name(alloc, text),
        State::Backslash => Ok(Meaning::Wrong(LexSort::BadByte, 0)),
        State::AnnotationName => meaning_of_word(alloc, text),
        State::Number => Ok(meaning_of_number(text)),
        State::Exponent => Ok(meaning_of_number(text)),
        State::Mark(mark) => Ok(Meaning::Gives(Word::Punctuator(mark))),
        State::LessEqualEqual => Ok(Meaning::Wrong(LexSort::BadByte, 0)),
        State::LineComment => Ok(meaning_of_comment(context, Context::LineAnnotation, text)),
        State::BlockComment => Ok(Meaning::Wrong(LexSort::OpenComment, 0)),
        State::BlockStar => Ok(Meaning::Wrong(LexSort::OpenComment, 0)),
        State::Comment => Ok(meaning_of_comment(context, Context::BlockAnnotation, text)),
        State::SkippedLine => Ok(Meaning::Blank),
        State::Quoted(_) => Ok(Meaning::Wrong(LexSort::OpenString, 0)),
        State::Escape(_) => Ok(Meaning::Wrong(LexSort::OpenString, 0)),
        State::Closed(quote) => meaning_of_quoted(alloc, quote, text),
        State::Other => Ok(Meaning::Wrong(LexSort::BadByte, 0)),
    }
}
