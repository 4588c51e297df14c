//! One piece after the other.
ghost use Rattle.std.specs.Prelude.{◌≡◌, ◌+◌, ◌-◌, ◌<◌, ◌≤◌, ◌^◌, cond, length, take, drop, IfOk};
ghost use Rattle.c_lex.specs.Cursors.{start_cursor, over_cursor, inside_cursor, outside_cursor, step_of, step_at_end, IsCursor, IsStep};
ghost use Rattle.c_lex.specs.Meanings.{closing, FitsMeaning};
ghost use Rattle.c_lex.specs.Pieces.{accepts, IsLongest};
ghost use Rattle.c_lex.specs.Tokens.{after, after_all, is_fresh};

use crate::bytes::{before, byte_at};
use crate::fault::{LexFault, fault_at};
use crate::meaning::{Meaning, closing_length, meaning_of};
use crate::state::{Context, State, begin_with, is_whole, step_with};
use c_base::number::Span;
use c_base::token::{Token, Word};
use std::alloc::{AllocError, Global};

/// The longest piece at the front of some bytes: how many bytes it has, and what they make.
#[derive(Clone, Copy)]
pub struct Front {
    pub length: usize,
    pub state: State,
}

// The longer piece, where it is one.
fn longer(context: Context, found: Front, more: Front) -> Front
    ensures { result ≡ cond (accepts context more.state) more found }
{
    if is_whole(context, more.state) {
        more
    } else {
        found
    }
}

/// The longest piece at the front of the bytes.
pub fn longest_front(context: Context, fresh: bool, bytes: &[u8]) -> Front
    requires { 0 < length bytes.now }
    ensures longest { IsLongest context fresh bytes.now result.length result.state }
    ensures some { 0 < result.length }
{
    let mut state = begin_with(context, fresh, bytes[0]);
    let mut found = Front { length: 1, state };
    let mut next = 1;
    'going: while next < bytes.len() {
        match step_with(
            context,
            state,
            bytes[next],
            byte_at(bytes, next + 1) == b'.',
        ) {
            None => return found,
            Some(after) => {
                next += 1;
                state = after;
                found = longer(
                    context,
                    found,
                    Front {
                        length: next,
                        state: after,
                    },
                );
            }
        }
    }
    found
}

/// Where the lexer stands: the text that it cuts goes to `end`.
#[derive(Clone, Copy)]
pub struct Cursor {
    pub context: Context,
    pub fresh: bool,
    pub at: Span,
    pub next: usize,
    pub end: usize,
}

/// What comes next.
#[derive(Drop)]
pub enum Step {
    End,
    Fault(LexFault),
    Skip(Cursor),
    Give(Token, Cursor),
}

// The place behind a byte.
fn place_behind(at: Span, byte: u8) -> Span
    requires line { at.line < 2 ^ 32 - 1 }
    requires col { at.col < 2 ^ 32 - 1 }
    ensures { result ≡ after at byte }
{
    if byte == b'\n' {
        Span {
            line: at.line + 1,
            col: 1,
        }
    } else {
        Span {
            line: at.line,
            col: at.col + 1,
        }
    }
}

// The place behind a piece.
fn place_behind_all(at: Span, piece: &[u8]) -> Span
    requires line { at.line + length piece.now < 2 ^ 32 }
    requires col { at.col + length piece.now < 2 ^ 32 }
    ensures place { result ≡ after_all at piece.now }
    ensures line { result.line ≤ at.line + length piece.now }
    ensures col { result.col ≤ at.col + length piece.now }
{
    let mut place = at;
    for byte in piece {
        place = place_behind(place, *byte);
    }
    place
}

fn is_line_fresh(fresh: bool, state: State, first: u8) -> bool
    ensures { result ≡ is_fresh fresh state first }
{
    match state {
        State::White => first == b'\n' || fresh,
        _ => false,
    }
}

impl Cursor {
    /// At the front of a file of so many bytes.
    pub fn at_start(size: usize) -> Cursor
        ensures { result ≡ start_cursor size }
    {
        Cursor {
            context: Context::Code,
            fresh: true,
            at: Span { line: 1, col: 1 },
            next: 0,
            end: size,
        }
    }

    // The text that is left.
    fn text<'a>(&self, bytes: &'a [u8]) -> &'a [u8]
        requires ordered { self.now.next ≤ self.now.end }
        requires within { self.now.end ≤ length bytes.now }
        ensures { result.now ≡ take (self.now.end - self.now.next) (drop self.now.next bytes.now) }
    {
        &bytes[self.next..self.end]
    }

    // Behind a piece.
    fn over(&self, state: State, piece: &[u8]) -> Cursor
        requires line { self.now.at.line + length piece.now < 2 ^ 32 }
        requires col { self.now.at.col + length piece.now < 2 ^ 32 }
        requires next { self.now.next + length piece.now < 2 ^ 64 }
        ensures { result ≡ over_cursor self.now state piece.now }
    {
        Cursor {
            context: self.context,
            fresh: is_line_fresh(self.fresh, state, byte_at(piece, 0)),
            at: place_behind_all(self.at, piece),
            next: self.next + piece.len(),
            end: self.end,
        }
    }

    // At the inside of an annotation of so many bytes.
    fn inside(&self, annotation: Context, size: usize) -> Cursor
        requires size { 3 + length (closing annotation) ≤ size }
        requires next { self.now.next + size < 2 ^ 64 }
        requires col { self.now.at.col + 3 < 2 ^ 32 }
        ensures { result ≡ inside_cursor self.now annotation size }
    {
        Cursor {
            context: annotation,
            fresh: false,
            at: Span {
                line: self.at.line,
                col: self.at.col + 3,
            },
            next: self.next + 3,
            end: self.next + size - closing_length(annotation),
        }
    }

    // Behind an annotation's inside and what closes it, in a file of so many bytes.
    fn outside(&self, size: usize) -> Cursor
        requires next { self.now.end + length (closing self.now.context) < 2 ^ 64 }
        requires col { self.now.at.col + length (closing self.now.context) < 2 ^ 32 }
        ensures { result ≡ outside_cursor self.now size }
    {
        let closing = closing_length(self.context);
        Cursor {
            context: Context::Code,
            fresh: false,
            at: Span {
                line: self.at.line,
                col: self.at.col + closing as u32,
            },
            next: self.end + closing,
            end: size,
        }
    }
}

// What comes behind a piece, by what it gives.
fn step_over(cursor: &Cursor, state: State, piece: &[u8], meaning: Meaning) -> Step
    requires line { cursor.now.at.line + length piece.now < 2 ^ 32 }
    requires col { cursor.now.at.col + length piece.now < 2 ^ 32 }
    requires next { cursor.now.next + length piece.now < 2 ^ 32 }
    requires fits { FitsMeaning piece.now meaning }
    ensures { result ≡ step_of cursor.now state piece.now meaning }
{
    match meaning {
        Meaning::Blank => Step::Skip(cursor.over(state, piece)),
        Meaning::Gives(word) => Step::Give(
            Token {
                word,
                span: cursor.at,
            },
            cursor.over(state, piece),
        ),
        Meaning::Annotates(annotation) => Step::Give(
            Token {
                word: Word::OpenAnnotation,
                span: cursor.at,
            },
            cursor.inside(annotation, piece.len()),
        ),
        Meaning::Wrong(sort, offset) => {
            let at = Span {
                line: cursor.at.line,
                col: cursor.at.col + offset as u32,
            };
            Step::Fault(fault_at(sort, at))
        }
    }
}

// What comes where the text is used up: the end of the file, or of an annotation.
fn step_behind(cursor: &Cursor, size: usize) -> Step
    requires next { cursor.now.end + length (closing cursor.now.context) < 2 ^ 64 }
    requires col { cursor.now.at.col + length (closing cursor.now.context) < 2 ^ 32 }
    ensures { result ≡ step_at_end cursor.now size }
{
    if cursor.context.is_in_annotation() {
        let close = Token {
            word: Word::CloseAnnotation,
            span: cursor.at,
        };
        return Step::Give(close, cursor.outside(size));
    }
    Step::End
}

/// What comes next.
pub fn advance(alloc: Global, bytes: &[u8], cursor: &Cursor) -> Result<Step, AllocError>
    requires small { length bytes.now < 2 ^ 32 - 1 }
    requires valid { IsCursor bytes.now cursor.now }
    ensures { IfOk result (IsStep bytes.now cursor.now) }
{
    if cursor.next == cursor.end {
        return Ok(step_behind(cursor, bytes.len()));
    }
    let text = cursor.text(bytes);
    let front = longest_front(cursor.context, cursor.fresh, text);
    let piece = before(text, front.length);
    let meaning = meaning_of(alloc, cursor.context, front.state, piece)?;
    Ok(step_over(cursor, front.state, piece, meaning))
}
