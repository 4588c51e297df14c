//! The tree of `f(a, "x" "y")[1] + (char *)c`, its words and its depth, counted by hand.

use c_base::name::Name;
use c_base::number::Span;
use c_base::token::{IntegerConstant, Keyword, Length, Radix};
use c_tree::operator::BinaryOperator;
use c_tree::tree::{Core, Declarator, Expr, Operand, Pointer, PostfixPart, Specifier, TypeName};
use sqlite_items::{Boxed, Items};
use std::alloc::{AllocError, Global};
use std::test::Fail;

fn at(col: u32) -> Span {
    Span { line: 1, col }
}

fn name(alloc: Global, bytes: &[u8], col: u32) -> Result<Expr, AllocError> {
    let name = Name::from_bytes(alloc, bytes)?;
    Ok(Expr::Name {
        span: at(col),
        name,
    })
}

// `"x" "y"`
fn text(alloc: Global) -> Result<Expr, AllocError> {
    let mut literals = Items::new(alloc);
    literals.push(Items::from_slice(alloc, b"x")?)?;
    literals.push(Items::from_slice(alloc, b"y")?)?;
    Ok(Expr::Text {
        span: at(6),
        literals,
    })
}

// `f(a, "x" "y")[1]`
fn postfix(alloc: Global) -> Result<Expr, AllocError> {
    let mut arguments = Items::new(alloc);
    arguments.push(name(alloc, b"a", 3)?)?;
    arguments.push(text(alloc)?)?;
    let one = IntegerConstant {
        value: 1,
        radix: Radix::Decimal,
        unsigned: false,
        length: Length::Plain,
    };
    let mut parts = Items::new(alloc);
    parts.push(PostfixPart::Call {
        opening: at(2),
        arguments,
    })?;
    parts.push(PostfixPart::Index(Expr::Integer {
        span: at(15),
        constant: one,
    }))?;
    Ok(Expr::Postfix {
        span: at(1),
        first: Boxed::new(alloc, name(alloc, b"f", 1)?)?,
        parts,
    })
}

// `char *`
fn text_type(alloc: Global) -> Result<TypeName, AllocError> {
    let mut specifiers = Items::new(alloc);
    specifiers.push(Specifier::Keyword {
        span: at(21),
        keyword: Keyword::Char,
    })?;
    let mut pointers = Items::new(alloc);
    pointers.push(Pointer {
        span: at(26),
        qualifiers: Items::new(alloc),
    })?;
    let declarator = Declarator {
        span: at(26),
        pointers,
        core: Core::Absent,
        suffixes: Items::new(alloc),
    };
    Ok(TypeName {
        span: at(21),
        specifiers,
        declarator: Some(declarator),
    })
}

fn sum(alloc: Global) -> Result<Expr, AllocError> {
    let operand = Expr::Cast {
        span: at(20),
        type_name: Boxed::new(alloc, text_type(alloc)?)?,
        operand: Boxed::new(alloc, name(alloc, b"c", 28)?)?,
    };
    let mut more = Items::new(alloc);
    more.push(Operand {
        operator: BinaryOperator::Add,
        operand,
    })?;
    Ok(Expr::Run {
        span: at(1),
        first: Boxed::new(alloc, postfix(alloc)?)?,
        more,
    })
}

#[test]
fn words_and_depth(rt: HostRuntime) -> Result<(), Fail> {
    let alloc = rt.alloc();
    let tree = sum(alloc)?;
    let words = tree.spell(alloc)?;
    assert!(rt; words.len() == 16 && tree.nesting() == 5 && tree.span() == at(1));
    Ok(())
}
