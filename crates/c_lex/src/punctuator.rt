//! How punctuators are spelled (C11 6.4.6).
ghost use Rattle.std.specs.Prelude.{◌≡◌};
ghost use Rattle.c_lex.specs.Marks.{IsSpelled};
ghost use Rattle.c_lex.specs.Spellings.{spelling};

use c_base::token::Punctuator;

fn text_of(mark: Punctuator) -> &'static [u8]
    ensures { result.now ≡ spelling mark }
{
    match mark {
        Punctuator::OpenBracket => b"[",
        Punctuator::CloseBracket => b"]",
        Punctuator::OpenParenthesis => b"(",
        Punctuator::CloseParenthesis => b")",
        Punctuator::OpenBrace => b"{",
        Punctuator::CloseBrace => b"}",
        Punctuator::Dot => b".",
        Punctuator::Arrow => b"->",
        Punctuator::Increment => b"++",
        Punctuator::Decrement => b"--",
        Punctuator::Ampersand => b"&",
        Punctuator::Star => b"*",
        Punctuator::Plus => b"+",
        Punctuator::Minus => b"-",
        Punctuator::Tilde => b"~",
        Punctuator::Exclamation => b"!",
        Punctuator::Slash => b"/",
        Punctuator::Percent => b"%",
        Punctuator::ShiftLeft => b"<<",
        Punctuator::ShiftRight => b">>",
        Punctuator::Less => b"<",
        Punctuator::Greater => b">",
        Punctuator::LessEqual => b"<=",
        Punctuator::GreaterEqual => b">=",
        Punctuator::Equal => b"==",
        Punctuator::NotEqual => b"!=",
        Punctuator::Caret => b"^",
        Punctuator::Bar => b"|",
        Punctuator::AndAnd => b"&&",
        Punctuator::OrOr => b"||",
        Punctuator::Question => b"?",
        Punctuator::Colon => b":",
        Punctuator::Semicolon => b";",
        Punctuator::Ellipsis => b"...",
        Punctuator::Assign => b"=",
        Punctuator::StarAssign => b"*=",
        Punctuator::SlashAssign => b"/=",
        Punctuator::PercentAssign => b"%=",
        Punctuator::PlusAssign => b"+=",
        Punctuator::MinusAssign => b"-=",
        Punctuator::ShiftLeftAssign => b"<<=",
        Punctuator::ShiftRightAssign => b">>=",
        Punctuator::AmpersandAssign => b"&=",
        Punctuator::CaretAssign => b"^=",
        Punctuator::BarAssign => b"|=",
        Punctuator::Comma => b",",
        Punctuator::DotDot => b"..",
        Punctuator::Implies => b"==>",
        Punctuator::Equivalent => b"<==>",
    }
}

/// The bytes of a punctuator: a piece of a file is the punctuator exactly where it has these bytes.
pub fn spelling_of(mark: Punctuator) -> &'static [u8]
    ensures text { result.now ≡ spelling mark }
    ensures law { IsSpelled mark }
{
    text_of(mark)
}
