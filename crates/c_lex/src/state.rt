//! How a piece goes on: what has been read of it so far, and what a further byte makes of that.
ghost use Rattle.std.specs.Prelude.{◌≡◌, IsTrue};
ghost use Rattle.c_lex.specs.Pieces.{is_inside, step, accepts, accepts_mark, begin, begin_mark, begin_hash, begin_sign, mark_goes, one, two, dot_goes, slash_goes, minus_goes, equal_goes, less_equal_goes, number_goes, exponent_goes, comment_goes, byte_of_quote, quoted_goes, when};

use crate::bytes::{
    begins_exponent, begins_name, continues_name, is_digit_byte, is_letter_byte, is_sign_byte,
    is_white_byte,
};
use c_base::token::Punctuator;

/// Where a byte stands: in the code, in an annotation `//@ ..`, or in an annotation `/*@ .. */`.
#[derive(Clone, Copy)]
pub enum Context {
    Code,
    LineAnnotation,
    BlockAnnotation,
}

/// What a constant between quotes is: `'..'` or `".."`.
#[derive(Clone, Copy)]
pub enum Quote {
    Character,
    Text,
}

/// What has been read of a piece.
#[derive(Clone, Copy)]
pub enum State {
    /// Nothing yet; the value says whether only white space stands before on the line.
    Start(bool),
    White,
    Name,
    /// The `\` before a word of an annotation.
    Backslash,
    AnnotationName,
    Number,
    /// A number whose last byte is a letter behind which a sign may stand.
    Exponent,
    Mark(Punctuator),
    /// `<==`, the beginning of `<==>`.
    LessEqualEqual,
    LineComment,
    /// A comment `/* ..` whose end has not come.
    BlockComment,
    /// The same, and its last byte is a `*`.
    BlockStar,
    /// A comment with its `*/`.
    Comment,
    SkippedLine,
    /// A constant whose closing quote has not come.
    Quoted(Quote),
    /// The same, and its last byte is the `\` of an escape.
    Escape(Quote),
    /// A constant with its closing quote.
    Closed(Quote),
    /// A byte that begins nothing.
    Other,
}

impl Context {
    pub fn is_in_annotation(self) -> bool
        ensures { result ≡ is_inside self }
    {
        match self {
            Context::Code => false,
            Context::LineAnnotation => true,
            Context::BlockAnnotation => true,
        }
    }
}

// The punctuator that a byte begins.
#[tactic(auto, unfolding(crate::specs::Pieces::begin_mark, crate::specs::Pieces::mark_in))]
fn begin_with_mark(context: Context, byte: u8) -> State
    ensures value { result ≡ begin_mark byte }
    ensures whole { IsTrue (accepts context result) }
{
    match byte {
        b'[' => State::Mark(Punctuator::OpenBracket),
        b']' => State::Mark(Punctuator::CloseBracket),
        b'(' => State::Mark(Punctuator::OpenParenthesis),
        b')' => State::Mark(Punctuator::CloseParenthesis),
        b'{' => State::Mark(Punctuator::OpenBrace),
        b'}' => State::Mark(Punctuator::CloseBrace),
        b'.' => State::Mark(Punctuator::Dot),
        b'&' => State::Mark(Punctuator::Ampersand),
        b'*' => State::Mark(Punctuator::Star),
        b'+' => State::Mark(Punctuator::Plus),
        b'-' => State::Mark(Punctuator::Minus),
        b'~' => State::Mark(Punctuator::Tilde),
        b'!' => State::Mark(Punctuator::Exclamation),
        b'/' => State::Mark(Punctuator::Slash),
        b'%' => State::Mark(Punctuator::Percent),
        b'<' => State::Mark(Punctuator::Less),
        b'>' => State::Mark(Punctuator::Greater),
        b'^' => State::Mark(Punctuator::Caret),
        b'|' => State::Mark(Punctuator::Bar),
        b'?' => State::Mark(Punctuator::Question),
        b':' => State::Mark(Punctuator::Colon),
        b';' => State::Mark(Punctuator::Semicolon),
        b'=' => State::Mark(Punctuator::Assign),
        b',' => State::Mark(Punctuator::Comma),
        _ => State::Other,
    }
}

// What `#` begins: a line that is skipped, where only white space stands before it.
fn begin_with_hash(context: Context, fresh: bool) -> State
    ensures value { result ≡ begin_hash context fresh }
    ensures whole { IsTrue (accepts context result) }
{
    match context {
        Context::Code => if fresh {
            State::SkippedLine
        } else {
            State::Other
        },
        Context::LineAnnotation => State::Other,
        Context::BlockAnnotation => State::Other,
    }
}

// What a byte that is no part of a word begins.
#[tactic(auto, unfolding(crate::specs::Pieces::begin_sign))]
fn begin_with_sign(context: Context, fresh: bool, byte: u8) -> State
    ensures value { result ≡ begin_sign context fresh byte }
    ensures whole { IsTrue (accepts context result) }
{
    match byte {
        b'"' => State::Quoted(Quote::Text),
        b'\'' => State::Quoted(Quote::Character),
        b'\\' => if context.is_in_annotation() {
            State::Backslash
        } else {
            State::Other
        },
        b'@' => if context.is_in_annotation() {
            State::White
        } else {
            State::Other
        },
        b'#' => begin_with_hash(context, fresh),
        _ => begin_with_mark(context, byte),
    }
}

/// What a byte begins; it may always stand as a piece.
pub fn begin_with(context: Context, fresh: bool, byte: u8) -> State
    ensures value { result ≡ begin context fresh byte }
    ensures whole { IsTrue (accepts context result) }
{
    if is_white_byte(byte) {
        return State::White;
    }
    if begins_name(byte) {
        return State::Name;
    }
    if is_digit_byte(byte) {
        return State::Number;
    }
    begin_with_sign(context, fresh, byte)
}

// A number goes on (C11 6.4.8), but in an annotation not with two dots.
#[tactic(auto, unfolding(crate::specs::Pieces::number_goes))]
fn number_with(context: Context, byte: u8, before_dot: bool) -> Option<State>
    ensures { result ≡ number_goes context byte before_dot }
{
    if begins_exponent(byte) {
        return Some(State::Exponent);
    }
    if is_letter_byte(byte) {
        return Some(State::Number);
    }
    if is_digit_byte(byte) {
        return Some(State::Number);
    }
    if byte != b'.' {
        return None;
    }
    if !before_dot {
        return Some(State::Number);
    }
    if context.is_in_annotation() {
        None
    } else {
        Some(State::Number)
    }
}

#[tactic(auto, unfolding(crate::specs::Pieces::exponent_goes))]
fn exponent_with(context: Context, byte: u8, before_dot: bool) -> Option<State>
    ensures { result ≡ exponent_goes context byte before_dot }
{
    if is_sign_byte(byte) {
        return Some(State::Number);
    }
    number_with(context, byte, before_dot)
}

#[tactic(auto, unfolding(crate::specs::Pieces::dot_goes))]
fn dot_with(byte: u8) -> Option<State>
    ensures { result ≡ dot_goes byte }
{
    if is_digit_byte(byte) {
        return Some(State::Number);
    }
    if byte == b'.' {
        Some(State::Mark(Punctuator::DotDot))
    } else {
        None
    }
}

#[tactic(auto, unfolding(crate::specs::Pieces::slash_goes))]
fn slash_with(context: Context, byte: u8) -> Option<State>
    ensures { result ≡ slash_goes context byte }
{
    match byte {
        b'/' => Some(State::LineComment),
        b'=' => Some(State::Mark(Punctuator::SlashAssign)),
        b'*' => if context.is_in_annotation() {
            None
        } else {
            Some(State::BlockComment)
        },
        _ => None,
    }
}

// A punctuator that goes on with one byte alone.
fn only(byte: u8, expected: u8, then: Punctuator) -> Option<State>
    ensures { result ≡ one byte expected then }
{
    if byte == expected {
        Some(State::Mark(then))
    } else {
        None
    }
}

// A punctuator that goes on with either of two bytes.
fn either(byte: u8, first: u8, then: Punctuator, second: u8, otherwise: Punctuator) -> Option<State>
    ensures { result ≡ two byte first then second otherwise }
{
    if byte == first {
        Some(State::Mark(then))
    } else {
        only(byte, second, otherwise)
    }
}

#[tactic(auto, unfolding(crate::specs::Pieces::minus_goes))]
fn minus_with(byte: u8) -> Option<State>
    ensures { result ≡ minus_goes byte }
{
    if byte == b'>' {
        return Some(State::Mark(Punctuator::Arrow));
    }
    either(
        byte,
        b'-',
        Punctuator::Decrement,
        b'=',
        Punctuator::MinusAssign,
    )
}

#[tactic(auto, unfolding(crate::specs::Pieces::equal_goes))]
fn equal_with(context: Context, byte: u8) -> Option<State>
    ensures { result ≡ equal_goes context byte }
{
    if context.is_in_annotation() {
        only(byte, b'>', Punctuator::Implies)
    } else {
        None
    }
}

#[tactic(auto, unfolding(crate::specs::Pieces::less_equal_goes))]
fn less_equal_with(context: Context, byte: u8) -> Option<State>
    ensures { result ≡ less_equal_goes context byte }
{
    if byte != b'=' {
        return None;
    }
    if context.is_in_annotation() {
        Some(State::LessEqualEqual)
    } else {
        None
    }
}

// A punctuator goes on (C11 6.4.6).
fn mark_with(context: Context, mark: Punctuator, byte: u8) -> Option<State>
    ensures { result ≡ mark_goes context mark byte }
{
    match mark {
        Punctuator::Dot => dot_with(byte),
        Punctuator::DotDot => only(byte, b'.', Punctuator::Ellipsis),
        Punctuator::Minus => minus_with(byte),
        Punctuator::Plus => either(
            byte,
            b'+',
            Punctuator::Increment,
            b'=',
            Punctuator::PlusAssign,
        ),
        Punctuator::Ampersand => either(
            byte,
            b'&',
            Punctuator::AndAnd,
            b'=',
            Punctuator::AmpersandAssign,
        ),
        Punctuator::Bar => either(byte, b'|', Punctuator::OrOr, b'=', Punctuator::BarAssign),
        Punctuator::Less => either(
            byte,
            b'<',
            Punctuator::ShiftLeft,
            b'=',
            Punctuator::LessEqual,
        ),
        Punctuator::Greater => either(
            byte,
            b'>',
            Punctuator::ShiftRight,
            b'=',
            Punctuator::GreaterEqual,
        ),
        Punctuator::Star => only(byte, b'=', Punctuator::StarAssign),
        Punctuator::Percent => only(byte, b'=', Punctuator::PercentAssign),
        Punctuator::Caret => only(byte, b'=', Punctuator::CaretAssign),
        Punctuator::Exclamation => only(byte, b'=', Punctuator::NotEqual),
        Punctuator::ShiftLeft => only(byte, b'=', Punctuator::ShiftLeftAssign),
        Punctuator::ShiftRight => only(byte, b'=', Punctuator::ShiftRightAssign),
        Punctuator::Assign => only(byte, b'=', Punctuator::Equal),
        Punctuator::Equal => equal_with(context, byte),
        Punctuator::LessEqual => less_equal_with(context, byte),
        Punctuator::Slash => slash_with(context, byte),
        _ => None,
    }
}

// A comment `/* ..` goes on, behind a `*` if `star`.
#[tactic(auto, unfolding(crate::specs::Pieces::comment_goes))]
fn comment_with(star: bool, byte: u8) -> State
    ensures { result ≡ comment_goes star byte }
{
    if byte == b'*' {
        return State::BlockStar;
    }
    if byte == b'/' && star {
        State::Comment
    } else {
        State::BlockComment
    }
}

fn quote_byte(quote: Quote) -> u8
    ensures { result ≡ byte_of_quote quote }
{
    match quote {
        Quote::Character => b'\'',
        Quote::Text => b'"',
    }
}

// A constant between quotes goes on (C11 6.4.4.4, 6.4.5): it ends at its quote, and never passes its line.
#[tactic(auto, unfolding(crate::specs::Pieces::quoted_goes))]
fn quoted_with(quote: Quote, byte: u8) -> Option<State>
    ensures { result ≡ quoted_goes quote byte }
{
    if byte == b'\n' {
        return None;
    }
    if byte == b'\\' {
        return Some(State::Escape(quote));
    }
    if byte == quote_byte(quote) {
        Some(State::Closed(quote))
    } else {
        Some(State::Quoted(quote))
    }
}

// The state where a test holds, and the end of the piece where it doesn't.
fn if_so(test: bool, state: State) -> Option<State>
    ensures { result ≡ when test state }
{
    if test { Some(state) } else { None }
}

/// What a further byte makes of what has been read, or nothing where the piece can't go on; `before_dot` says that a dot follows the byte.
pub fn step_with(context: Context, state: State, byte: u8, before_dot: bool) -> Option<State>
    ensures { result ≡ step context state byte before_dot }
{
    match state {
        State::Start(fresh) => Some(begin_with(context, fresh, byte)),
        State::White => None,
        State::Name => if_so(continues_name(byte), State::Name),
        State::Backslash => if_so(begins_name(byte), State::AnnotationName),
        State::AnnotationName => if_so(continues_name(byte), State::AnnotationName),
        State::Number => number_with(context, byte, before_dot),
        State::Exponent => exponent_with(context, byte, before_dot),
        State::Mark(mark) => mark_with(context, mark, byte),
        State::LessEqualEqual => only(byte, b'>', Punctuator::Equivalent),
        State::LineComment => if_so(byte != b'\n', State::LineComment),
        State::BlockComment => Some(comment_with(false, byte)),
        State::BlockStar => Some(comment_with(true, byte)),
        State::Comment => None,
        State::SkippedLine => if_so(byte != b'\n', State::SkippedLine),
        State::Quoted(quote) => quoted_with(quote, byte),
        State::Escape(quote) => if_so(byte != b'\n', State::Quoted(quote)),
        State::Closed(_) => None,
        State::Other => None,
    }
}

fn is_whole_mark(context: Context, mark: Punctuator) -> bool
    ensures { result ≡ accepts_mark context mark }
{
    match mark {
        Punctuator::DotDot => context.is_in_annotation(),
        _ => true,
    }
}

/// Whether what has been read may stand as a piece.
pub fn is_whole(context: Context, state: State) -> bool
    ensures { result ≡ accepts context state }
{
    match state {
        State::Start(_) => false,
        State::LessEqualEqual => false,
        State::Mark(mark) => is_whole_mark(context, mark),
        _ => true,
    }
}
