//! Units that are long or deep.
use c_lex::lex;
use c_parse_expr::ParseFault;
use c_parse_unit::parse_unit;
use std::alloc::{AllocError, Global};
use std::test::Fail;

// Some bytes, others so many times, and others behind them.
fn repeated(
    alloc: Global,
    before: &[u8],
    piece: &[u8],
    count: u32,
    behind: &[u8],
) -> Result<Vec<u8>, AllocError> {
    let mut source = Vec::from_slice(alloc, before)?;
    for _ in 0..count {
        source.extend_from_slice(piece)?;
    }
    source.extend_from_slice(behind)?;
    Ok(source)
}

// How many external declarations the unit has; 1000 where there is none.
fn externals_in(alloc: Global, source: &[u8]) -> Result<usize, AllocError> {
    if source.len() > 16_777_216 {
        return Ok(3000);
    }
    match lex(alloc, source) {
        Err(_) => Ok(2000),
        Ok(tokens) => match parse_unit(alloc, tokens.as_slice()) {
            Ok(unit) => Ok(unit.externals.as_slice().len()),
            Err(ParseFault::Memory) => Ok(4000),
            Err(ParseFault::Syntax { at: _ }) => Ok(1000),
        },
    }
}

// Blocks in one another, with the body of a function around them.
fn nested(alloc: Global, blocks: u32) -> Result<usize, AllocError> {
    let mut source = repeated(alloc, b"int f(void){", b"{", blocks, b"")?;
    for _ in 0..blocks {
        source.push(b'}')?;
    }
    source.push(b'}')?;
    externals_in(alloc, source.as_slice())
}

#[test]
fn depths(rt: HostRuntime) -> Result<(), Fail> {
    let alloc = rt.alloc();
    assert!(rt; nested(alloc, 197)? == 1);
    assert!(rt; nested(alloc, 198)? == 1);
    assert!(rt; nested(alloc, 199)? == 1000);
    assert!(rt; nested(alloc, 200)? == 1000);
    Ok(())
}

#[test]
fn many_statements(rt: HostRuntime) -> Result<(), Fail> {
    let alloc = rt.alloc();
    let source = repeated(alloc, b"int f(void){", b"x=1;", 100_000, b"}")?;
    assert!(rt; externals_in(alloc, source.as_slice())? == 1);
    Ok(())
}

#[test]
fn a_long_ladder(rt: HostRuntime) -> Result<(), Fail> {
    let alloc = rt.alloc();
    let source = repeated(
        alloc,
        b"int f(void){if(x);",
        b"else if(x);",
        100_000,
        b"else;}",
    )?;
    assert!(rt; externals_in(alloc, source.as_slice())? == 1);
    Ok(())
}

#[test]
fn a_long_initialiser(rt: HostRuntime) -> Result<(), Fail> {
    let alloc = rt.alloc();
    let source = repeated(alloc, b"int a[]={", b"1,", 500_000, b"};")?;
    assert!(rt; externals_in(alloc, source.as_slice())? == 1);
    Ok(())
}

#[test]
fn most_tokens(rt: HostRuntime) -> Result<(), Fail> {
    let alloc = rt.alloc();
    let source = repeated(alloc, b"int f(void){", b"x=1;", 499_998, b";}")?;
    assert!(rt; externals_in(alloc, source.as_slice())? == 1);
    Ok(())
}

#[test]
fn many_externals(rt: HostRuntime) -> Result<(), Fail> {
    let alloc = rt.alloc();
    let source = repeated(alloc, b"", b"typedef int t;", 100_000, b"")?;
    assert!(rt; externals_in(alloc, source.as_slice())? == 100_000);
    Ok(())
}
