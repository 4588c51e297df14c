//! The small language, read from the tokens of units.
use c_base::name::Name;
use c_base::number::Span;
use c_base::token::{IntegerConstant, Keyword, Length, Punctuator, Radix, Token, Word};
use c_parse_expr::ParseFault;
use c_parse_unit::parse_unit;
use first_program::tree::{Program, Sign, Stmt, Sum};
use first_units::places::refused_at;
use first_units::program_in;
use std::alloc::{AllocError, Global};
use std::test::Fail;

fn constant(value: u128, unsigned: bool) -> Word {
    Word::Integer(IntegerConstant {
        value,
        radix: Radix::Decimal,
        unsigned,
        length: Length::Plain,
    })
}

fn punctuator_of(text: &str) -> Option<Punctuator> {
    match text {
        "(" => Some(Punctuator::OpenParenthesis),
        ")" => Some(Punctuator::CloseParenthesis),
        "{" => Some(Punctuator::OpenBrace),
        "}" => Some(Punctuator::CloseBrace),
        ";" => Some(Punctuator::Semicolon),
        "=" => Some(Punctuator::Assign),
        "+" => Some(Punctuator::Plus),
        "-" => Some(Punctuator::Minus),
        "<" => Some(Punctuator::Less),
        "!=" => Some(Punctuator::NotEqual),
        _ => None,
    }
}

fn keyword_of(text: &str) -> Option<Keyword> {
    match text {
        "int" => Some(Keyword::Int),
        "void" => Some(Keyword::Void),
        "if" => Some(Keyword::If),
        "else" => Some(Keyword::Else),
        "while" => Some(Keyword::While),
        "return" => Some(Keyword::Return),
        _ => None,
    }
}

fn word_of(alloc: Global, text: &str) -> Result<Word, AllocError> {
    if let Some(punctuator) = punctuator_of(text) {
        return Ok(Word::Punctuator(punctuator));
    }
    if let Some(keyword) = keyword_of(text) {
        return Ok(Word::Keyword(keyword));
    }
    match text {
        "0" => Ok(constant(0, false)),
        "1" => Ok(constant(1, false)),
        "1u" => Ok(constant(1, true)),
        "2147483648" => Ok(constant(2147483648, false)),
        _ => Ok(Word::Identifier(Name::from_bytes(alloc, text.as_bytes())?)),
    }
}

// Adds the words of a text; the column of each is its number.
fn add(alloc: Global, tokens: &mut Vec<Token>, text: &str) -> Result<(), AllocError> {
    for word in text.split_whitespace() {
        let before = u32::try_from(tokens.len()).unwrap_or(0);
        tokens.push(Token {
            word: word_of(alloc, word)?,
            span: Span {
                line: 1,
                col: before.wrapping_add(1),
            },
        })?;
    }
    Ok(())
}

// The program that tokens spell.
fn parse(alloc: Global, tokens: &[Token]) -> Result<Option<Program>, AllocError> {
    match parse_unit(alloc, tokens) {
        Err(ParseFault::Memory) => Err(AllocError),
        Err(ParseFault::Syntax { at: _ }) => Ok(None),
        Ok(unit) => program_in(alloc, &unit),
    }
}

const HEADER: &str = "int main ( void ) {";

// The program of a body.
fn read(alloc: Global, body: &str) -> Result<Option<Program>, AllocError> {
    let mut tokens = Vec::new(alloc);
    add(alloc, &mut tokens, HEADER)?;
    add(alloc, &mut tokens, body)?;
    parse(alloc, tokens.as_slice())
}

// The program of a text that stands so often between two others.
fn read_many(
    alloc: Global,
    before: &str,
    text: &str,
    count: u32,
    between: &str,
    after: &str,
) -> Result<Option<Program>, AllocError> {
    let mut tokens = Vec::new(alloc);
    add(alloc, &mut tokens, HEADER)?;
    add(alloc, &mut tokens, before)?;
    for _ in 0..count {
        add(alloc, &mut tokens, text)?;
    }
    add(alloc, &mut tokens, between)?;
    for _ in 0..count {
        add(alloc, &mut tokens, after)?;
    }
    add(alloc, &mut tokens, "}")?;
    parse(alloc, tokens.as_slice())
}

#[test]
fn an_else_belongs_to_the_nearest_if(rt: HostRuntime) -> Result<(), Fail> {
    let alloc = rt.alloc();
    let body =
        "int x ; if ( x < 1 ) if ( 0 != x - 1 ) x = 1 ; else return x + 1 ; { while ( x < 0 ) { } } }";
    let Some(program) = read(alloc, body)? else {
        return Err(Fail::from(AllocError));
    };
    let mut columns = Vec::new(alloc);
    for span in program.spans.as_slice() {
        columns.push(span.col)?;
    }
    assert_eq!(rt; columns.as_slice(), [10, 16, 24, 29, 35, 44].as_slice());
    assert_eq!(rt; program.variables.len(), 1);
    let alone = match program.body.get(0) {
        Some(Stmt::If { arms, otherwise }) => arms.len() == 1 && otherwise.is_none(),
        _ => false,
    };
    assert!(rt; alone);
    Ok(())
}

// The program of a `return` whose number stands in so many pairs of parentheses.
fn read_enclosed(alloc: Global, pairs: u32) -> Result<Option<Program>, AllocError> {
    let mut tokens = Vec::new(alloc);
    add(alloc, &mut tokens, HEADER)?;
    add(alloc, &mut tokens, "return")?;
    for _ in 0..pairs {
        add(alloc, &mut tokens, "(")?;
    }
    add(alloc, &mut tokens, "1")?;
    for _ in 0..pairs {
        add(alloc, &mut tokens, ")")?;
    }
    add(alloc, &mut tokens, "; }")?;
    parse(alloc, tokens.as_slice())
}

#[test]
fn parentheses_stand_round_parts(rt: HostRuntime) -> Result<(), Fail> {
    let alloc = rt.alloc();
    let body = "int x ; x = ( 1 ) - ( x + 1 ) ; if ( ( ( x ) < 1 ) ) return ( ( x ) ) ; }";
    let Some(program) = read(alloc, body)? else {
        return Err(Fail::from(AllocError));
    };
    let subtracts = match program.body.get(0) {
        Some(
            Stmt::Assign {
                target: _,
                value: Sum::Run { first: _, more },
            },
        ) => match more.get(0) {
            Some(addend) => {
                addend.sign == Sign::Minus && matches!(addend.operand, Sum::Parenthesised(_))
            }
            None => false,
        },
        _ => false,
    };
    assert!(rt; subtracts);
    Ok(())
}

#[test]
fn what_is_no_program_is_refused(rt: HostRuntime) -> Result<(), Fail> {
    let alloc = rt.alloc();
    for body in [
        "return 0 ; } int x ;",
        "return 0 ; } int f ( void ) { }",
        "return 0 ;",
        "return ; }",
        "; }",
        "int x ; int x ; return 0 ; }",
        "x = 1 ; }",
        "return 1u ; }",
        "return 2147483648 ; }",
        "else return 0 ; }",
        "int x ; if ( x ) x = 1 ; }",
        "int x ; x = 1 + ; }",
        "return 0 ; int x ; }",
        "int x ; x = ( 1 ; }",
        "int x ; x = ( ) ; }",
        "int x ; x = ( x < 1 ) ; }",
        "int x ; ( x ) = 1 ; }",
        "int x ; if ( ( x ) ) x = 1 ; }",
        "int x ; if ( 0 < x < 1 ) x = 1 ; }",
        "int x ; if ( ( x < 1 ) < 1 ) x = 1 ; }",
    ] {
        assert!(rt; read(alloc, body)?.is_none(), "{body}");
    }
    Ok(())
}

#[test]
fn nesting_is_bounded(rt: HostRuntime) -> Result<(), Fail> {
    let alloc = rt.alloc();
    assert!(rt; read_many(alloc, "", "{", 198, "", "}")?.is_some());
    assert!(rt; read_many(alloc, "", "{", 199, "", "}")?.is_none());
    assert!(rt; read_enclosed(alloc, 196)?.is_some());
    assert!(rt; read_enclosed(alloc, 197)?.is_none());
    Ok(())
}

#[test]
fn long_sums_and_ladders_are_read(rt: HostRuntime) -> Result<(), Fail> {
    let alloc = rt.alloc();
    assert!(rt; read_many(alloc, "return 0", "+ 1", 200_000, ";", "")?.is_some());
    let ladder = read_many(alloc, "", "if ( 0 < 1 ) { } else", 100_000, "{ }", "")?;
    assert!(rt; ladder.is_some());
    Ok(())
}

// The column of the place at which the words of a text are no program; 0 where they are one.
fn refused_column(alloc: Global, text: &str) -> Result<u32, AllocError> {
    let mut tokens = Vec::new(alloc);
    add(alloc, &mut tokens, text)?;
    match parse_unit(alloc, tokens.as_slice()) {
        Err(ParseFault::Memory) => Err(AllocError),
        Err(ParseFault::Syntax { at }) => Ok(at.col),
        Ok(unit) => match program_in(alloc, &unit)? {
            Some(_) => Ok(0),
            None => Ok(refused_at(alloc, &unit, tokens.as_slice())?.col),
        },
    }
}

#[test]
fn refusals_have_places(rt: HostRuntime) -> Result<(), Fail> {
    let alloc = rt.alloc();
    for (text, column) in [
        ("", 1),
        ("void main", 2),
        ("int main ( ) { }", 1),
        ("int x ; int main ( void ) { }", 1),
        ("int main ( void ) { } int x ;", 8),
        ("int main ( void ) { int x = 1 ; }", 7),
        ("int main ( void ) { int x ; int x ; }", 10),
        ("; int main ( void ) { return 0 ; } ; ;", 0),
        ("int main ( void ) { return 0 ;", 9),
        ("int main ( void ) { int x ; x = 1 ; return 0 < 1 ; }", 14),
    ] {
        assert!(rt; refused_column(alloc, text)? == column, "{text}");
    }
    Ok(())
}
