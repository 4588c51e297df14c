//! Why nothing is parsed.
ghost use Rattle.std.specs.Prelude.{◌≡◌};
ghost use Rattle.c_parse_expr.specs.declared.fault.ParseFault.TheVariants.{Memory};

use c_base::number::Span;
use std::alloc::AllocError;
use thiserror::Error;

/// Why tokens are not parsed.
#[derive(Clone, Copy, Debug, PartialEq, Eq, Error)]
pub enum ParseFault {
    /// No tree spells tokens from the start on. `at` is the place of the furthest token that was refused, or of the last of the list where
    /// more tokens are wanted.
    #[error("{}:{}: syntax", .at.line, .at.col)]
    Syntax { at: Span },
    #[error("out of memory")]
    Memory,
}

impl From<AllocError> for ParseFault {
    ghost from_gives = { λ _ fault. fault ≡ Memory };

    fn from(_error: AllocError) -> ParseFault {
        ParseFault::Memory
    }
}
