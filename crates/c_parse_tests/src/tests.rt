//! How expressions group by C11 6.5: braces stand round each node of several parts, and a number says how many tokens are left.
use c_base::name::Name;
use c_lex::lex;
use c_parse_expr::{TypeNames, parse_expr};
use c_tree::operator::{PrefixOperator, TypeOperator};
use c_tree::tree::{Expr, Operand, PostfixPart};
use std::alloc::{AllocError, Global};
use std::test::Fail;

pub fn add_name(out: &mut String, name: &Name) -> Result<(), AllocError> {
    for byte in name.as_bytes() {
        out.push(char::from(*byte))?;
    }
    Ok(())
}

fn prefix_name(operator: PrefixOperator) -> &'static str {
    match operator {
        PrefixOperator::Increment => "Increment",
        PrefixOperator::Decrement => "Decrement",
        PrefixOperator::Address => "Address",
        PrefixOperator::Indirection => "Indirection",
        PrefixOperator::Plus => "Plus",
        PrefixOperator::Minus => "Minus",
        PrefixOperator::Complement => "Complement",
        PrefixOperator::Not => "Not",
        PrefixOperator::Sizeof => "Sizeof",
    }
}

fn type_operator_name(operator: TypeOperator) -> &'static str {
    match operator {
        TypeOperator::Sizeof => "Sizeof",
        TypeOperator::Alignof => "Alignof",
    }
}

#[cycle(showing)]
fn add_all(alloc: Global, out: &mut String, all: &[Expr]) -> Result<(), AllocError> {
    for each in all {
        out.push_str(" ")?;
        add_expr(alloc, out, each)?;
    }
    Ok(())
}

#[cycle(showing)]
fn add_operands(alloc: Global, out: &mut String, all: &[Operand]) -> Result<(), AllocError> {
    for each in all {
        out.push_str(format!(in alloc; " {:?} ", each.operator.punctuator())?.as_str())?;
        add_expr(alloc, out, &each.operand)?;
    }
    Ok(())
}

#[cycle(showing)]
fn add_part(alloc: Global, out: &mut String, part: &PostfixPart) -> Result<(), AllocError> {
    match part {
        PostfixPart::Index(index) => {
            out.push_str("[")?;
            add_expr(alloc, out, index)?;
            out.push_str("]")
        }
        PostfixPart::Call {
            opening: _,
            arguments,
        } => {
            out.push_str("(")?;
            add_all(alloc, out, arguments.as_slice())?;
            out.push_str(")")
        }
        PostfixPart::Member(name) => {
            out.push_str(".")?;
            add_name(out, name)
        }
        PostfixPart::Arrow(name) => {
            out.push_str("->")?;
            add_name(out, name)
        }
        PostfixPart::Increment => out.push_str("++"),
        PostfixPart::Decrement => out.push_str("--"),
    }
}

#[cycle(showing)]
fn add_parts(alloc: Global, out: &mut String, all: &[PostfixPart]) -> Result<(), AllocError> {
    for each in all {
        add_part(alloc, out, each)?;
    }
    Ok(())
}

#[cycle(showing)]
fn add_expr(alloc: Global, out: &mut String, expr: &Expr) -> Result<(), AllocError> {
    match expr {
        Expr::Name { span: _, name } => add_name(out, name),
        Expr::Integer { span: _, constant } => {
            out.push_str(format!(in alloc; "{}", constant.value)?.as_str())
        }
        Expr::Floating { span: _ } => out.push_str("float"),
        Expr::Character { span: _, byte } => {
            out.push_str(format!(in alloc; "'{byte}'")?.as_str())
        }
        Expr::Text { span: _, literals } => {
            out.push_str(format!(in alloc; "text-{}", literals.as_slice().len())?.as_str())
        }
        Expr::Parenthesised { span: _, inner } => {
            out.push_str("(")?;
            add_expr(alloc, out, inner.get())?;
            out.push_str(")")
        }
        Expr::Postfix {
            span: _,
            first,
            parts,
        } => {
            out.push_str("{")?;
            add_expr(alloc, out, first.get())?;
            add_parts(alloc, out, parts.as_slice())?;
            out.push_str("}")
        }
        Expr::Prefix {
            span: _,
            operator,
            operand,
        } => {
            out.push_str("{")?;
            out.push_str(prefix_name(*operator))?;
            out.push_str(" ")?;
            add_expr(alloc, out, operand.get())?;
            out.push_str("}")
        }
        Expr::OfType {
            span: _,
            operator,
            type_name: _,
        } => {
            out.push_str("{")?;
            out.push_str(type_operator_name(*operator))?;
            out.push_str(" of a type}")
        }
        Expr::Offsetof {
            span: _,
            type_name: _,
            member,
        } => {
            out.push_str("offsetof-")?;
            add_name(out, member)
        }
        Expr::Cast {
            span: _,
            type_name: _,
            operand,
        } => {
            out.push_str("{cast ")?;
            add_expr(alloc, out, operand.get())?;
            out.push_str("}")
        }
        Expr::Run {
            span: _,
            first,
            more,
        } => {
            out.push_str("{")?;
            add_expr(alloc, out, first.get())?;
            add_operands(alloc, out, more.as_slice())?;
            out.push_str("}")
        }
        Expr::Conditional {
            span: _,
            condition,
            when_true,
            when_false,
        } => {
            out.push_str("{")?;
            add_expr(alloc, out, condition.get())?;
            out.push_str(" ? ")?;
            add_expr(alloc, out, when_true.get())?;
            out.push_str(" : ")?;
            add_expr(alloc, out, when_false.get())?;
            out.push_str("}")
        }
        Expr::Assignment {
            span: _,
            target,
            operator,
            value,
        } => {
            out.push_str("{")?;
            add_expr(alloc, out, target.get())?;
            out.push_str(format!(in alloc; " {:?} ", operator.punctuator())?.as_str())?;
            add_expr(alloc, out, value.get())?;
            out.push_str("}")
        }
        Expr::Comma {
            span: _,
            first,
            more,
        } => {
            out.push_str("{")?;
            add_expr(alloc, out, first.get())?;
            out.push_str(" ,")?;
            add_all(alloc, out, more.as_slice())?;
            out.push_str("}")
        }
    }
}

// `T` is a typedef name.
pub fn names(alloc: Global) -> Result<TypeNames, AllocError> {
    let mut names = TypeNames::new(alloc);
    names.declare(Name::from_bytes(alloc, b"T")?, true)?;
    Ok(names)
}

fn shown(alloc: Global, source: &[u8], names: &TypeNames) -> Result<String, AllocError> {
    let mut out = String::new(alloc);
    if source.len() > 1000 {
        return Ok(out);
    }
    match lex(alloc, source) {
        Err(fault) => format!(in alloc; "{fault:?}"),
        Ok(tokens) => match parse_expr(alloc, tokens.as_slice(), 0, names) {
            Err(fault) => format!(in alloc; "{fault}"),
            Ok((expr, end)) => {
                add_expr(alloc, &mut out, &expr)?;
                out.push_str(format!(in alloc; " {}", tokens.len() - end)?.as_str())?;
                Ok(out)
            }
        },
    }
}

/// A source, and how it groups.
pub struct Case {
    pub source: &'static [u8],
    pub wanted: &'static str,
}

// What groups otherwise than wanted.
fn unlike(alloc: Global, cases: &[Case]) -> Result<String, AllocError> {
    let names = names(alloc)?;
    let mut out = String::new(alloc);
    for case in cases {
        let found = shown(alloc, case.source, &names)?;
        if found.as_str() != case.wanted {
            out.push_str(found.as_str())?;
        }
    }
    Ok(out)
}

// Each pair of neighbouring levels, both ways.
const LEVELS: [Case; 14] = [
    Case {
        source: b"a-b-c+d",
        wanted: "{a Minus b Minus c Plus d} 0",
    },
    Case {
        source: b"a,b=c,d",
        wanted: "{a , {b Assign c} d} 0",
    },
    Case {
        source: b"a=b?c:d",
        wanted: "{a Assign {b ? c : d}} 0",
    },
    Case {
        source: b"a?b,c:d?e:f",
        wanted: "{a ? {b , c} : {d ? e : f}} 0",
    },
    Case {
        source: b"a||b?c:d",
        wanted: "{{a OrOr b} ? c : d} 0",
    },
    Case {
        source: b"a||b&&c|d^e&f",
        wanted: "{a OrOr {b AndAnd {c Bar {d Caret {e Ampersand f}}}}} 0",
    },
    Case {
        source: b"a&b^c|d&&e||f",
        wanted: "{{{{{a Ampersand b} Caret c} Bar d} AndAnd e} OrOr f} 0",
    },
    Case {
        source: b"a&b==c<d<<e+f*g",
        wanted: "{a Ampersand {b Equal {c Less {d ShiftLeft {e Plus {f Star g}}}}}} 0",
    },
    Case {
        source: b"a%b-c>>d>=e!=f&g",
        wanted: "{{{{{{a Percent b} Minus c} ShiftRight d} GreaterEqual e} NotEqual f} Ampersand g} 0",
    },
    Case {
        source: b"-a*(int)b",
        wanted: "{{Minus a} Star {cast b}} 0",
    },
    Case {
        source: b"*p++",
        wanted: "{Indirection {p++}} 0",
    },
    Case {
        source: b"++*p[1]",
        wanted: "{Increment {Indirection {p[1]}}} 0",
    },
    Case {
        source: b"a=b+=c",
        wanted: "{a Assign {b PlusAssign c}} 0",
    },
    Case {
        source: b"(a,b)",
        wanted: "({a , b}) 0",
    },
];

const NAMES: [Case; 10] = [
    Case {
        source: b"(T)(a)",
        wanted: "{cast (a)} 0",
    },
    Case {
        source: b"(t)(a)",
        wanted: "{(t)( a)} 0",
    },
    Case {
        source: b"sizeof(T)*a",
        wanted: "{{Sizeof of a type} Star a} 0",
    },
    Case {
        source: b"sizeof(t)[1]",
        wanted: "{Sizeof {(t)[1]}} 0",
    },
    Case {
        source: b"sizeof(int(*)(T,T[2]))",
        wanted: "{Sizeof of a type} 0",
    },
    Case {
        source: b"_Alignof(struct s{int a:3,b;T*c;})",
        wanted: "{Alignof of a type} 0",
    },
    Case {
        source: b"__builtin_offsetof(struct s,T)",
        wanted: "offsetof-T 0",
    },
    Case {
        source: b"sizeof(enum{T})+(T)",
        wanted: "{{Sizeof of a type} Plus (T)} 0",
    },
    Case {
        source: b"s.T->T",
        wanted: "{s.T->T} 0",
    },
    Case {
        source: b"T",
        wanted: "1:1: syntax",
    },
];

const ENDS: [Case; 8] = [
    Case {
        source: b"a+b*",
        wanted: "{a Plus b} 1",
    },
    Case {
        source: b"f(a,b,)",
        wanted: "f 6",
    },
    Case {
        source: b"f(a)(b,c)++;",
        wanted: "{f( a)( b c)++} 1",
    },
    Case {
        source: b"a?b",
        wanted: "a 2",
    },
    Case {
        source: b"(a)b",
        wanted: "(a) 1",
    },
    Case {
        source: b"(int)a=b",
        wanted: "{cast a} 2",
    },
    Case {
        source: b"a?b:c=d",
        wanted: "{a ? b : c} 2",
    },
    Case {
        source: b"\"a\" \"b\"[0]",
        wanted: "{text-2[0]} 0",
    },
];

// The first token at which nothing goes on; the last where more are wanted.
const PLACES: [Case; 14] = [
    Case {
        source: b"",
        wanted: "1:1: syntax",
    },
    Case {
        source: b"(a b)",
        wanted: "1:4: syntax",
    },
    Case {
        source: b"(a.+b)",
        wanted: "1:4: syntax",
    },
    Case {
        source: b"(a+)",
        wanted: "1:4: syntax",
    },
    Case {
        source: b"(f(a,))",
        wanted: "1:6: syntax",
    },
    Case {
        source: b"(a?b)",
        wanted: "1:5: syntax",
    },
    Case {
        source: b"(a=b",
        wanted: "1:4: syntax",
    },
    Case {
        source: b"sizeof(int",
        wanted: "1:8: syntax",
    },
    Case {
        source: b"sizeof(struct 5)",
        wanted: "1:15: syntax",
    },
    Case {
        source: b"sizeof(enum{A 5})",
        wanted: "1:15: syntax",
    },
    Case {
        source: b"sizeof(int[)",
        wanted: "1:12: syntax",
    },
    Case {
        source: b"sizeof(struct{_Static_assert(1,2);})",
        wanted: "1:32: syntax",
    },
    Case {
        source: b"__builtin_offsetof(int,5)",
        wanted: "1:24: syntax",
    },
    Case {
        source: b"_Alignof 5",
        wanted: "1:10: syntax",
    },
];

// Each bracket in an attribute is closed by its own, and none is an annotation's.
const ATTRIBUTES: [Case; 8] = [
    Case {
        source: b"sizeof(int __attribute__((a(b[1],{2}))))",
        wanted: "{Sizeof of a type} 0",
    },
    Case {
        source: b"sizeof(int __attribute__(()))",
        wanted: "{Sizeof of a type} 0",
    },
    Case {
        source: b"sizeof(int __attribute__((a])))",
        wanted: "1:12: syntax",
    },
    Case {
        source: b"sizeof(int __attribute__((a(b])))",
        wanted: "1:12: syntax",
    },
    Case {
        source: b"sizeof(int __attribute__((a[(b]))))",
        wanted: "1:12: syntax",
    },
    Case {
        source: b"sizeof(int __attribute__((a{)))",
        wanted: "1:12: syntax",
    },
    Case {
        source: b"sizeof(int __attribute__((/*@*/)))",
        wanted: "1:12: syntax",
    },
    Case {
        source: b"sizeof(int __attribute__((a /*@ ))) + sizeof(int __attribute__(( */ )))",
        wanted: "1:12: syntax",
    },
];

#[test]
fn grouping(rt: HostRuntime) -> Result<(), Fail> {
    let alloc = rt.alloc();
    assert_eq!(rt; unlike(alloc, &LEVELS)?.as_str(), "");
    assert_eq!(rt; unlike(alloc, &NAMES)?.as_str(), "");
    assert_eq!(rt; unlike(alloc, &ENDS)?.as_str(), "");
    Ok(())
}

#[test]
fn refusals(rt: HostRuntime) -> Result<(), Fail> {
    let alloc = rt.alloc();
    assert_eq!(rt; unlike(alloc, &PLACES)?.as_str(), "");
    assert_eq!(rt; unlike(alloc, &ATTRIBUTES)?.as_str(), "");
    Ok(())
}

/// A text with so many pairs of parentheses in it, and how it groups.
struct Nested {
    front: &'static [u8],
    pairs: u8,
    inner: u8,
    back: &'static [u8],
    wanted: &'static str,
}

fn source_of(alloc: Global, nested: &Nested) -> Result<Vec<u8>, AllocError> {
    let mut source = Vec::from_slice(alloc, nested.front)?;
    for _ in 0..nested.pairs {
        source.push(b'(')?;
    }
    source.push(nested.inner)?;
    for _ in 0..nested.pairs {
        source.push(b')')?;
    }
    for byte in nested.back {
        source.push(*byte)?;
    }
    Ok(source)
}

fn ends_as_wanted(alloc: Global, nested: &Nested) -> Result<bool, AllocError> {
    let names = names(alloc)?;
    let source = source_of(alloc, nested)?;
    let found = shown(alloc, source.as_slice(), &names)?;
    Ok(found.as_str().ends_with(nested.wanted))
}

// Pairs in an expression are a node each, and so are pairs in a declarator: the type name, its declarator and the `*` are three nodes
// below `sizeof`.
const NESTED: [Nested; 6] = [
    Nested {
        front: b"",
        pairs: 198,
        inner: b'1',
        back: b"",
        wanted: ") 0",
    },
    Nested {
        front: b"",
        pairs: 199,
        inner: b'1',
        back: b"",
        wanted: ") 0",
    },
    Nested {
        front: b"",
        pairs: 200,
        inner: b'1',
        back: b"",
        wanted: "1:200: syntax",
    },
    Nested {
        front: b"sizeof(int",
        pairs: 100,
        inner: b'*',
        back: b")",
        wanted: "{Sizeof of a type} 0",
    },
    Nested {
        front: b"sizeof(int",
        pairs: 196,
        inner: b'*',
        back: b")",
        wanted: "{Sizeof of a type} 0",
    },
    Nested {
        front: b"sizeof(int",
        pairs: 197,
        inner: b'*',
        back: b")",
        wanted: "syntax",
    },
];

#[test]
fn nesting(rt: HostRuntime) -> Result<(), Fail> {
    let alloc = rt.alloc();
    for nested in &NESTED {
        assert!(rt; ends_as_wanted(alloc, nested)?);
    }
    Ok(())
}
