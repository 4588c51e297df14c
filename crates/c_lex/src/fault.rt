//! Why the bytes of a file are no tokens.
ghost use Rattle.std.specs.Prelude.{◌≡◌};
ghost use Rattle.c_lex.specs.declared.fault.LexFault.TheVariants.{Memory};
ghost use Rattle.c_lex.specs.Meanings.{fault_of};

use c_base::number::Span;
use c_base::token::LexSort;
use std::alloc::AllocError;

/// Why a file has no tokens, or none that are returned. A file is cut from its front, and the first piece that is wrong is named: `at` is where it
/// begins, and for `BadByte` the byte in it that is wrong. In one comment, annotation or constant the want of its end goes first.
#[derive(Clone, Copy, Debug)]
pub enum LexFault {
    /// A byte that begins no token; or in a constant between quotes the `\` of a wrong escape, or the first byte too many or too few of a character
    /// (C11 6.4.4.4, 6.4.5). Bytes from 128 on stand in comments, skipped lines and strings alone.
    BadByte { at: Span },
    /// A comment or an annotation without its `*/` (C11 6.4.9).
    OpenComment { at: Span },
    /// A string or character constant without its closing quote on its line (C11 6.4.4.4, 6.4.5).
    OpenString { at: Span },
    /// A number that is no constant, or an integer of 2^128 or more (C11 6.4.4.1, 6.4.4.2).
    BadNumber { at: Span },
    /// There are more than 2,000,000 tokens: so many.
    TooMany { count: u64 },
    /// Memory was wanting.
    Memory,
}

impl From<AllocError> for LexFault {
    ghost from_gives = { λ _ fault. fault ≡ Memory };

    fn from(_error: AllocError) -> LexFault {
        LexFault::Memory
    }
}

/// The fault of a piece at a place.
pub fn fault_at(sort: LexSort, at: Span) -> LexFault
    ensures { result ≡ fault_of sort at }
{
    match sort {
        LexSort::BadByte => LexFault::BadByte { at },
        LexSort::OpenComment => LexFault::OpenComment { at },
        LexSort::OpenString => LexFault::OpenString { at },
        LexSort::BadNumber => LexFault::BadNumber { at },
    }
}
