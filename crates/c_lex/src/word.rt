//! Keywords (C11 6.4.1).
ghost use Rattle.std.specs.Prelude.{◌≡◌, map};
ghost use Rattle.c_lex.specs.Words.{keyword_of, keyword_in, keywords, of_length, row, is_dropped};

use c_base::token::Keyword;

/// A spelling of a keyword.
#[derive(Clone, Copy)]
pub struct KeywordSpelling {
    pub text: &'static [u8],
    pub keyword: Keyword,
}

/// C11's keywords, the words of GCC that stand where no name can, and GCC's other spellings, by their length.
pub const KEYWORDS: [KeywordSpelling; 59] = [
    KeywordSpelling {
        text: b"do",
        keyword: Keyword::Do,
    },
    KeywordSpelling {
        text: b"if",
        keyword: Keyword::If,
    },
    KeywordSpelling {
        text: b"for",
        keyword: Keyword::For,
    },
    KeywordSpelling {
        text: b"int",
        keyword: Keyword::Int,
    },
    KeywordSpelling {
        text: b"asm",
        keyword: Keyword::Asm,
    },
    KeywordSpelling {
        text: b"auto",
        keyword: Keyword::Auto,
    },
    KeywordSpelling {
        text: b"case",
        keyword: Keyword::Case,
    },
    KeywordSpelling {
        text: b"char",
        keyword: Keyword::Char,
    },
    KeywordSpelling {
        text: b"else",
        keyword: Keyword::Else,
    },
    KeywordSpelling {
        text: b"enum",
        keyword: Keyword::Enum,
    },
    KeywordSpelling {
        text: b"goto",
        keyword: Keyword::Goto,
    },
    KeywordSpelling {
        text: b"long",
        keyword: Keyword::Long,
    },
    KeywordSpelling {
        text: b"void",
        keyword: Keyword::Void,
    },
    KeywordSpelling {
        text: b"break",
        keyword: Keyword::Break,
    },
    KeywordSpelling {
        text: b"const",
        keyword: Keyword::Const,
    },
    KeywordSpelling {
        text: b"float",
        keyword: Keyword::Float,
    },
    KeywordSpelling {
        text: b"short",
        keyword: Keyword::Short,
    },
    KeywordSpelling {
        text: b"union",
        keyword: Keyword::Union,
    },
    KeywordSpelling {
        text: b"while",
        keyword: Keyword::While,
    },
    KeywordSpelling {
        text: b"_Bool",
        keyword: Keyword::Bool,
    },
    KeywordSpelling {
        text: b"__asm",
        keyword: Keyword::Asm,
    },
    KeywordSpelling {
        text: b"double",
        keyword: Keyword::Double,
    },
    KeywordSpelling {
        text: b"extern",
        keyword: Keyword::Extern,
    },
    KeywordSpelling {
        text: b"inline",
        keyword: Keyword::Inline,
    },
    KeywordSpelling {
        text: b"return",
        keyword: Keyword::Return,
    },
    KeywordSpelling {
        text: b"signed",
        keyword: Keyword::Signed,
    },
    KeywordSpelling {
        text: b"sizeof",
        keyword: Keyword::Sizeof,
    },
    KeywordSpelling {
        text: b"static",
        keyword: Keyword::Static,
    },
    KeywordSpelling {
        text: b"struct",
        keyword: Keyword::Struct,
    },
    KeywordSpelling {
        text: b"switch",
        keyword: Keyword::Switch,
    },
    KeywordSpelling {
        text: b"default",
        keyword: Keyword::Default,
    },
    KeywordSpelling {
        text: b"typedef",
        keyword: Keyword::Typedef,
    },
    KeywordSpelling {
        text: b"_Atomic",
        keyword: Keyword::Atomic,
    },
    KeywordSpelling {
        text: b"__asm__",
        keyword: Keyword::Asm,
    },
    KeywordSpelling {
        text: b"__const",
        keyword: Keyword::Const,
    },
    KeywordSpelling {
        text: b"continue",
        keyword: Keyword::Continue,
    },
    KeywordSpelling {
        text: b"register",
        keyword: Keyword::Register,
    },
    KeywordSpelling {
        text: b"restrict",
        keyword: Keyword::Restrict,
    },
    KeywordSpelling {
        text: b"unsigned",
        keyword: Keyword::Unsigned,
    },
    KeywordSpelling {
        text: b"volatile",
        keyword: Keyword::Volatile,
    },
    KeywordSpelling {
        text: b"_Alignas",
        keyword: Keyword::Alignas,
    },
    KeywordSpelling {
        text: b"_Alignof",
        keyword: Keyword::Alignof,
    },
    KeywordSpelling {
        text: b"_Complex",
        keyword: Keyword::Complex,
    },
    KeywordSpelling {
        text: b"_Generic",
        keyword: Keyword::Generic,
    },
    KeywordSpelling {
        text: b"__inline",
        keyword: Keyword::Inline,
    },
    KeywordSpelling {
        text: b"_Noreturn",
        keyword: Keyword::Noreturn,
    },
    KeywordSpelling {
        text: b"_Imaginary",
        keyword: Keyword::Imaginary,
    },
    KeywordSpelling {
        text: b"__inline__",
        keyword: Keyword::Inline,
    },
    KeywordSpelling {
        text: b"__restrict",
        keyword: Keyword::Restrict,
    },
    KeywordSpelling {
        text: b"__volatile",
        keyword: Keyword::Volatile,
    },
    KeywordSpelling {
        text: b"__signed__",
        keyword: Keyword::Signed,
    },
    KeywordSpelling {
        text: b"__attribute",
        keyword: Keyword::Attribute,
    },
    KeywordSpelling {
        text: b"__restrict__",
        keyword: Keyword::Restrict,
    },
    KeywordSpelling {
        text: b"__volatile__",
        keyword: Keyword::Volatile,
    },
    KeywordSpelling {
        text: b"_Thread_local",
        keyword: Keyword::ThreadLocal,
    },
    KeywordSpelling {
        text: b"__attribute__",
        keyword: Keyword::Attribute,
    },
    KeywordSpelling {
        text: b"_Static_assert",
        keyword: Keyword::StaticAssert,
    },
    KeywordSpelling {
        text: b"__builtin_va_list",
        keyword: Keyword::BuiltinVaList,
    },
    KeywordSpelling {
        text: b"__builtin_offsetof",
        keyword: Keyword::BuiltinOffsetof,
    },
];

/// The keywords whose spellings have so many bytes.
fn spellings_of(length: usize) -> &'static [KeywordSpelling]
    ensures { map row result.now ≡ of_length length keywords }
{
    let all: &'static [KeywordSpelling] = &KEYWORDS;
    match length {
        2 => &all[..2],
        3 => &all[2..5],
        4 => &all[5..13],
        5 => &all[13..21],
        6 => &all[21..30],
        7 => &all[30..35],
        8 => &all[35..45],
        9 => &all[45..46],
        10 => &all[46..51],
        11 => &all[51..52],
        12 => &all[52..54],
        13 => &all[54..56],
        14 => &all[56..57],
        17 => &all[57..58],
        18 => &all[58..],
        _ => &[],
    }
}

#[tactic(auto, unfolding(crate::specs::Words::keyword_in))]
fn keyword_among(text: &[u8], spellings: &[KeywordSpelling]) -> Option<Keyword>
    ensures { result ≡ keyword_in (map row spellings.now) text.now }
{
    for spelling in spellings {
        if text == spelling.text {
            return Some(spelling.keyword);
        }
    }
    None
}

/// The keyword that a name spells.
pub fn find_keyword(text: &[u8]) -> Option<Keyword>
    ensures { result ≡ keyword_of text.now }
{
    keyword_among(text, spellings_of(text.len()))
}

/// Whether a name is `__extension__`, which is no token.
pub fn is_dropped_name(text: &[u8]) -> bool
    ensures { result ≡ is_dropped text.now }
{
    text == b"__extension__".as_slice()
}
