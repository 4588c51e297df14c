//! Cuts the bytes of a C file, with its annotations, into tokens.
#![tactic(auto)]

ghost use Rattle.std.specs.Prelude.{◌≡◌, ◌++◌, ◌∷◌, [], ◌-◌, ◌<◌, ◌^◌, length, MatchResult, OnOk};
ghost use Rattle.c_lex.specs.Lexing.{AreAnswered, IsRefusal};

use crate::cut::{Cursor, Step, advance};
pub use crate::fault::LexFault;
pub use crate::laws::laws_of_pieces;
pub use crate::punctuator::spelling_of;
use c_base::token::Token;
use std::alloc::{AllocError, Global};

mod bytes;
mod cut;
mod fault;
mod laws;
mod meaning;
mod number;
mod punctuator;
mod state;
mod text;
mod word;

/// How many tokens are returned at most.
pub const MOST_TOKENS: u64 = 2_000_000;

// A token is kept where there is room for it.
fn keep(tokens: &mut Vec<Token>, count: u64, token: Token) -> Result<(), AllocError>
    ensures { OnOk result (count < 2000000 → tokens.new.items ≡ tokens.old.items ++ token ∷ []) }
{
    if count < MOST_TOKENS {
        tokens.push(token)?;
    }
    Ok(())
}

/// The tokens of a file (C11 6.4), with their places.
///
/// White space, comments, and lines that begin with `#` are left out, and so is `__extension__`. An annotation `/*@ .. */` or `//@ ..`
/// stands between two tokens of its own. A file that is no list of tokens is refused for its first piece that is wrong; one of more than
/// 2,000,000 tokens with `TooMany` and their number; and where memory is wanting the answer is `Memory`. The time is linear in the file.
pub fn lex(alloc: Global, bytes: &[u8]) -> Result<Vec<Token>, LexFault>
    requires { length bytes.now < 2 ^ 32 - 1 }
    ensures { MatchResult result (λ tokens. AreAnswered bytes.now tokens.items)
        (IsRefusal bytes.now) }
{
    let mut tokens = Vec::new(alloc);
    let mut count: u64 = 0;
    let mut cursor = Cursor::at_start(bytes.len());
    'cutting: loop {
        match advance(alloc, bytes, &cursor)? {
            Step::End => break 'cutting,
            Step::Fault(fault) => return Err(fault),
            Step::Skip(next) => cursor = next,
            Step::Give(token, next) => {
                keep(&mut tokens, count, token)?;
                count += 1;
                cursor = next;
            }
        }
    }
    if count > MOST_TOKENS {
        return Err(LexFault::TooMany { count });
    }
    Ok(tokens)
}
