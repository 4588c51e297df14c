//! What C11 and GCC read in small files.
use c_base::number::Span;
use c_base::token::{LexSort, Punctuator, Word};
use c_lex::{LexFault, laws_of_pieces, lex, spelling_of};
use std::alloc::{AllocError, Global};
use std::test::Fail;

fn add_bytes(out: &mut String, bytes: &[u8]) -> Result<(), AllocError> {
    for byte in bytes {
        out.push(char::from(*byte))?;
    }
    Ok(())
}

fn word_text(alloc: Global, word: &Word) -> Result<String, AllocError> {
    let mut out = String::new(alloc);
    match word {
        Word::Identifier(name) => add_bytes(&mut out, name.as_bytes())?,
        Word::Keyword(keyword) => return format!(in alloc; "{keyword:?}"),
        Word::Punctuator(mark) => return format!(in alloc; "{mark:?}"),
        Word::Integer(c) => return format!(in alloc;
            "{:?}-{}-{}-{:?}",
            c.radix, c.value, c.unsigned, c.length
        ),
        Word::Floating => out.push_str("float")?,
        Word::Character(byte) => return format!(in alloc; "'{byte}'"),
        Word::Text(bytes) => return format!(in alloc; "{:?}", bytes.as_slice()),
        Word::OpenAnnotation => out.push_str("<@")?,
        Word::CloseAnnotation => out.push_str("@>")?,
        Word::AnnotationWord(name) => add_bytes(&mut out, name.as_bytes())?,
    }
    Ok(out)
}

fn text_at(alloc: Global, sort: LexSort, at: Span) -> Result<String, AllocError> {
    format!(in alloc; "{}:{}: {sort:?}", at.line, at.col)
}

fn fault_text(alloc: Global, fault: LexFault) -> Result<String, AllocError> {
    match fault {
        LexFault::BadByte { at } => text_at(alloc, LexSort::BadByte, at),
        LexFault::OpenComment { at } => text_at(alloc, LexSort::OpenComment, at),
        LexFault::OpenString { at } => text_at(alloc, LexSort::OpenString, at),
        LexFault::BadNumber { at } => text_at(alloc, LexSort::BadNumber, at),
        LexFault::TooMany { count } => format!(in alloc; "{count} tokens"),
        LexFault::Memory => format!(in alloc; "no memory"),
    }
}

/// A source, and what is read in it.
struct Case {
    source: &'static [u8],
    wanted: &'static str,
}

// The words with a blank before each, or the fault.
fn shown(alloc: Global, source: &[u8]) -> Result<String, AllocError> {
    let mut out = String::new(alloc);
    if source.len() > 1000 {
        return Ok(out);
    }
    match lex(alloc, source) {
        Err(fault) => fault_text(alloc, fault),
        Ok(tokens) => {
            for token in &tokens {
                out.push_str(" ")?;
                out.push_str(word_text(alloc, &token.word)?.as_str())?;
            }
            Ok(out)
        }
    }
}

// The places with a blank before each, or the fault.
fn places(alloc: Global, source: &[u8]) -> Result<String, AllocError> {
    let mut out = String::new(alloc);
    if source.len() > 1000 {
        return Ok(out);
    }
    match lex(alloc, source) {
        Err(fault) => fault_text(alloc, fault),
        Ok(tokens) => {
            for token in &tokens {
                let place = format!(in alloc; " {}:{}", token.span.line, token.span.col)?;
                out.push_str(place.as_str())?;
            }
            Ok(out)
        }
    }
}

// What was read otherwise than wanted.
fn unlike_words(alloc: Global, cases: &[Case]) -> Result<String, AllocError> {
    let mut out = String::new(alloc);
    for case in cases {
        let found = shown(alloc, case.source)?;
        if found.as_str() != case.wanted {
            out.push_str(found.as_str())?;
        }
    }
    Ok(out)
}

// Where it was read otherwise than wanted.
fn unlike_places(alloc: Global, cases: &[Case]) -> Result<String, AllocError> {
    let mut out = String::new(alloc);
    for case in cases {
        let found = places(alloc, case.source)?;
        if found.as_str() != case.wanted {
            out.push_str(found.as_str())?;
        }
    }
    Ok(out)
}

const WORDS_WORDS: [Case; 7] = [
    Case {
        source: b"int x1=y_;",
        wanted: " Int x1 Assign y_ Semicolon",
    },
    Case {
        source: b"__inline__ __signed__ asm __asm__ __attribute__",
        wanted: " Inline Signed Asm Asm Attribute",
    },
    Case {
        source: b"__extension__ int __builtin_va_list",
        wanted: " Int BuiltinVaList",
    },
    Case {
        source: b"a<<=b>>=c...d",
        wanted: " a ShiftLeftAssign b ShiftRightAssign c Ellipsis d",
    },
    Case {
        source: b"a..b.c->d",
        wanted: " a Dot Dot b Dot c Arrow d",
    },
    Case {
        source: b"x+++y&&!z",
        wanted: " x Increment Plus y AndAnd Exclamation z",
    },
    Case {
        source: b"a==>b<==>c",
        wanted: " a Equal Greater b LessEqual Assign Greater c",
    },
];

const KEYWORDS_WORDS: [Case; 4] = [
    Case {
        source: b"do if for asm auto void break _Bool double static default __const",
        wanted: " Do If For Asm Auto Void Break Bool Double Static Default Const",
    },
    Case {
        source: b"continue __inline _Noreturn _Imaginary __signed__ __attribute __volatile__",
        wanted: " Continue Inline Noreturn Imaginary Signed Attribute Volatile",
    },
    Case {
        source: b"_Thread_local _Static_assert __builtin_va_list __builtin_offsetof",
        wanted: " ThreadLocal StaticAssert BuiltinVaList BuiltinOffsetof",
    },
    Case {
        source: b"_ dO done volatil _static_assert_ __builtin_offsetof_ a_name_of_many_bytes",
        wanted: " _ dO done volatil _static_assert_ __builtin_offsetof_ a_name_of_many_bytes",
    },
];

const NUMBERS_WORDS: [Case; 16] = [
    Case {
        source: b"0 017 42 0x1F",
        wanted: " Octal-0-false-Plain Octal-15-false-Plain Decimal-42-false-Plain Hexadecimal-31-false-Plain",
    },
    Case {
        source: b"1u 1L 1ll 1uLL 1LLU",
        wanted: " Decimal-1-true-Plain Decimal-1-false-Long Decimal-1-false-LongLong Decimal-1-true-LongLong Decimal-1-true-LongLong",
    },
    Case {
        source: b"1.5 .5f 1e+9 0x1p-3 0x.8P1L 1.",
        wanted: " float float float float float float",
    },
    Case {
        source: b"1_000",
        wanted: " Decimal-1-false-Plain _000",
    },
    Case {
        source: b"340282366920938463463374607431768211455",
        wanted: " Decimal-340282366920938463463374607431768211455-false-Plain",
    },
    Case {
        source: b"340282366920938463463374607431768211456",
        wanted: "1:1: BadNumber",
    },
    Case {
        source: b"08",
        wanted: "1:1: BadNumber",
    },
    Case {
        source: b"0x",
        wanted: "1:1: BadNumber",
    },
    Case {
        source: b"1.2.3",
        wanted: "1:1: BadNumber",
    },
    Case {
        source: b"0xg",
        wanted: "1:1: BadNumber",
    },
    Case {
        source: b"0xe+1",
        wanted: "1:1: BadNumber",
    },
    Case {
        source: b"12abc",
        wanted: "1:1: BadNumber",
    },
    Case {
        source: b"1lL",
        wanted: "1:1: BadNumber",
    },
    Case {
        source: b"1uu",
        wanted: "1:1: BadNumber",
    },
    Case {
        source: b"0x1.8",
        wanted: "1:1: BadNumber",
    },
    Case {
        source: b"1e",
        wanted: "1:1: BadNumber",
    },
];

const TEXTS_WORDS: [Case; 13] = [
    Case {
        source: br"'a' '\'' '\n' '\0' '\377' '\x41'",
        wanted: " '97' '39' '10' '0' '255' '65'",
    },
    Case {
        source: br#""\'\"\?\\\a\b\f\n\r\t\v""#,
        wanted: " [39, 34, 63, 92, 7, 8, 12, 10, 13, 9, 11]",
    },
    Case {
        source: br#""\1234\x0041" "" "/*""#,
        wanted: " [83, 52, 65] [] [47, 42]",
    },
    Case {
        source: b"\"\xe9\"",
        wanted: " [233]",
    },
    Case {
        source: b"'\xe9'",
        wanted: "1:2: BadByte",
    },
    Case {
        source: br"''",
        wanted: "1:2: BadByte",
    },
    Case {
        source: br"'ab'",
        wanted: "1:3: BadByte",
    },
    Case {
        source: br"'\400'",
        wanted: "1:2: BadByte",
    },
    Case {
        source: br"'\x100'",
        wanted: "1:2: BadByte",
    },
    Case {
        source: br#""a\n\q""#,
        wanted: "1:5: BadByte",
    },
    Case {
        source: br#""\x""#,
        wanted: "1:2: BadByte",
    },
    Case {
        source: b"x 'a\n'",
        wanted: "1:3: OpenString",
    },
    Case {
        source: b"\"a\\\"",
        wanted: "1:1: OpenString",
    },
];

const GAPS_PLACES: [Case; 11] = [
    Case {
        source: b"a\n  b\tc",
        wanted: " 1:1 2:3 2:5",
    },
    Case {
        source: b"# 1 \"x\"\n\x0b #pragma `\na",
        wanted: " 3:1",
    },
    Case {
        source: b"/* # ** / \n*/a//b\nc",
        wanted: " 2:3 3:1",
    },
    Case {
        source: b"x #",
        wanted: "1:3: BadByte",
    },
    Case {
        source: b"a/* */ # b",
        wanted: "1:8: BadByte",
    },
    Case {
        source: b"/*",
        wanted: "1:1: OpenComment",
    },
    Case {
        source: b"a\n/*/ b",
        wanted: "2:1: OpenComment",
    },
    Case {
        source: b"`",
        wanted: "1:1: BadByte",
    },
    Case {
        source: b"a@",
        wanted: "1:2: BadByte",
    },
    Case {
        source: b"a\x80",
        wanted: "1:2: BadByte",
    },
    Case {
        source: b"a \\\nb",
        wanted: "1:3: BadByte",
    },
];

const ANNOTATIONS_WORDS: [Case; 9] = [
    Case {
        source: br"//@ assert \valid(p);",
        wanted: r" <@ assert \valid OpenParenthesis p CloseParenthesis Semicolon @>",
    },
    Case {
        source: b"/*@ a ==> b @*/ a==>b",
        wanted: " <@ a Implies b @> a Equal Greater b",
    },
    Case {
        source: b"/*@ a <==> t[0..9] */",
        wanted: " <@ a Equivalent t OpenBracket Octal-0-false-Plain DotDot Decimal-9-false-Plain CloseBracket @>",
    },
    Case {
        source: b"/*@ 1.5 1. x //@ y \n /* z */",
        wanted: " <@ float float x Slash Star z @>",
    },
    Case {
        source: b"/*@*/ //@",
        wanted: " <@ @> <@ @>",
    },
    Case {
        source: b"/*@ # */",
        wanted: "1:5: BadByte",
    },
    Case {
        source: b"/*@ x",
        wanted: "1:1: OpenComment",
    },
    Case {
        source: b"/*@ \"x*/\" ",
        wanted: "1:5: OpenString",
    },
    Case {
        source: b"/*@ 08 '",
        wanted: "1:1: OpenComment",
    },
];

const ANNOTATIONS_PLACES: [Case; 2] = [
    Case {
        source: b"/*@ x\n y */ z",
        wanted: " 1:1 1:5 2:2 2:4 2:7",
    },
    Case {
        source: b"//@ x\nz",
        wanted: " 1:1 1:5 1:6 2:1",
    },
];

#[test]
fn words(rt: HostRuntime) -> Result<(), Fail> {
    let unlike = unlike_words(rt.alloc(), &WORDS_WORDS)?;
    assert!(rt; unlike.is_empty(), "{unlike}");
    Ok(())
}

#[test]
fn keywords(rt: HostRuntime) -> Result<(), Fail> {
    let unlike = unlike_words(rt.alloc(), &KEYWORDS_WORDS)?;
    assert!(rt; unlike.is_empty(), "{unlike}");
    Ok(())
}

#[test]
fn numbers(rt: HostRuntime) -> Result<(), Fail> {
    let unlike = unlike_words(rt.alloc(), &NUMBERS_WORDS)?;
    assert!(rt; unlike.is_empty(), "{unlike}");
    Ok(())
}

#[test]
fn texts(rt: HostRuntime) -> Result<(), Fail> {
    let unlike = unlike_words(rt.alloc(), &TEXTS_WORDS)?;
    assert!(rt; unlike.is_empty(), "{unlike}");
    Ok(())
}

#[test]
fn gaps(rt: HostRuntime) -> Result<(), Fail> {
    let unlike = unlike_places(rt.alloc(), &GAPS_PLACES)?;
    assert!(rt; unlike.is_empty(), "{unlike}");
    Ok(())
}

#[test]
fn annotations(rt: HostRuntime) -> Result<(), Fail> {
    let unlike = unlike_words(rt.alloc(), &ANNOTATIONS_WORDS)?;
    assert!(rt; unlike.is_empty(), "{unlike}");
    let misplaced = unlike_places(rt.alloc(), &ANNOTATIONS_PLACES)?;
    assert!(rt; misplaced.is_empty(), "{misplaced}");
    Ok(())
}

#[test]
fn spellings(rt: HostRuntime) {
    laws_of_pieces();
    assert!(rt; spelling_of(Punctuator::Arrow) == b"->".as_slice());
    assert!(rt; spelling_of(Punctuator::Equivalent) == b"<==>".as_slice());
}
