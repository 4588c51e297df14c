//! What specifiers and declarators are (C11 6.7.2 to 6.7.6): each specifier, what stands before the declarator, the declarator, and how
//! many tokens are left.
use crate::tests::{Case, add_name, names};
use c_base::name::Name;
use c_base::token::Token;
use c_lex::lex;
use c_parse_expr::{Before, Purpose, TypeNames, declarator_within, specifiers_within};
use c_tree::tree::{CompositeSort, Core, Declarator, Specifier, Suffix};
use std::alloc::{AllocError, Global};
use std::test::Fail;

fn sort_name(sort: CompositeSort) -> &'static str {
    match sort {
        CompositeSort::Struct => "Struct",
        CompositeSort::Union => "Union",
    }
}

fn before_name(before: Before) -> &'static str {
    match before {
        Before::Untyped => "Untyped",
        Before::Typed => "Typed",
        Before::Braced => "Braced",
    }
}

fn add_specifier(alloc: Global, out: &mut String, specifier: &Specifier) -> Result<(), AllocError> {
    match specifier {
        Specifier::Keyword { span: _, keyword } => {
            out.push_str(format!(in alloc; "{keyword:?}")?.as_str())
        }
        Specifier::Typedef { span: _, name } => add_name(out, name),
        Specifier::Attribute(_) => out.push_str("attribute"),
        Specifier::CompositeTag {
            span: _,
            sort,
            attributes: _,
            tag,
        } => {
            out.push_str(sort_name(*sort))?;
            out.push_str("-")?;
            add_name(out, tag)
        }
        Specifier::Composite {
            span: _,
            sort,
            attributes: _,
            tag: _,
            members,
            trailing: _,
        } => out.push_str(format!(in alloc;
            "{} of {}",
            sort_name(*sort),
            members.as_slice().len()
        )?.as_str()),
        Specifier::EnumTag { span: _, tag } => {
            out.push_str("Enum-")?;
            add_name(out, tag)
        }
        Specifier::Enum {
            span: _,
            tag: _,
            enumerators,
            comma: _,
        } => out.push_str(format!(in alloc; "Enum of {}", enumerators.as_slice().len())?.as_str()),
    }
}

fn add_suffixes(alloc: Global, out: &mut String, all: &[Suffix]) -> Result<(), AllocError> {
    for each in all {
        match each {
            Suffix::Array {
                span: _,
                qualifiers: _,
                bound: _,
            } => out.push_str("[]")?,
            Suffix::Function {
                span: _,
                parameters,
                variadic: _,
            } => out.push_str(format!(in alloc; "({})", parameters.as_slice().len())?.as_str())?,
        }
    }
    Ok(())
}

#[cycle(declaring)]
fn add_core(alloc: Global, out: &mut String, core: &Core) -> Result<(), AllocError> {
    match core {
        Core::Absent => Ok(()),
        Core::Named { span: _, name } => add_name(out, name),
        Core::Group { span: _, inner } => {
            out.push_str("{")?;
            add_declarator(alloc, out, inner.get())?;
            out.push_str("}")
        }
    }
}

#[cycle(declaring)]
fn add_declarator(
    alloc: Global,
    out: &mut String,
    declarator: &Declarator,
) -> Result<(), AllocError> {
    for each in declarator.pointers.as_slice() {
        out.push_str(format!(in alloc; "*{}", each.qualifiers.as_slice().len())?.as_str())?;
    }
    add_core(alloc, out, &declarator.core)?;
    add_suffixes(alloc, out, declarator.suffixes.as_slice())
}

// A declarator of a declaration.
fn add_behind(
    alloc: Global,
    out: &mut String,
    names: &mut TypeNames,
    before: Before,
    tokens: &[Token],
) -> Result<(), AllocError> {
    match declarator_within(alloc, 200, names, Purpose::Member, before, tokens)? {
        None => out.push_str(format!(in alloc; "none {}", tokens.len())?.as_str()),
        Some((declarator, rest)) => {
            add_declarator(alloc, out, &declarator)?;
            out.push_str(format!(in alloc; " {}", rest.len())?.as_str())
        }
    }
}

// Specifiers of a declaration that nest at most so deep, and the declarator behind them.
fn add_both(
    alloc: Global,
    out: &mut String,
    depth: u8,
    names: &mut TypeNames,
    tokens: &[Token],
) -> Result<(), AllocError> {
    match specifiers_within(alloc, u32::from(depth), names, Purpose::Member, tokens)? {
        None => out.push_str("none"),
        Some((specifiers, before, rest)) => {
            for each in specifiers.as_slice() {
                add_specifier(alloc, out, each)?;
                out.push_str(" ")?;
            }
            out.push_str(before_name(before))?;
            out.push_str(" ")?;
            add_behind(alloc, out, names, before, rest)
        }
    }
}

fn shown(
    alloc: Global,
    depth: u8,
    names: &mut TypeNames,
    source: &[u8],
) -> Result<String, AllocError> {
    let mut out = String::new(alloc);
    if source.len() > 1000 {
        return Ok(out);
    }
    match lex(alloc, source) {
        Err(fault) => format!(in alloc; "{fault:?}"),
        Ok(tokens) => {
            add_both(alloc, &mut out, depth, names, tokens.as_slice())?;
            Ok(out)
        }
    }
}

// What is otherwise than wanted.
fn unlike(alloc: Global, cases: &[Case]) -> Result<String, AllocError> {
    let mut out = String::new(alloc);
    for case in cases {
        let mut names = names(alloc)?;
        let found = shown(alloc, 200, &mut names, case.source)?;
        if found.as_str() != case.wanted {
            out.push_str(found.as_str())?;
        }
    }
    Ok(out)
}

const BOTH: [Case; 14] = [
    Case {
        source: b"static const unsigned x",
        wanted: "Static Const Unsigned Typed x 0",
    },
    Case {
        source: b"T x;",
        wanted: "T Typed x 1",
    },
    Case {
        source: b"const T T",
        wanted: "Const T Typed T 0",
    },
    Case {
        source: b"unsigned T, x",
        wanted: "Unsigned Typed T 2",
    },
    Case {
        source: b"const t x",
        wanted: "Const Untyped t 1",
    },
    Case {
        source: b"t x",
        wanted: "none",
    },
    Case {
        source: b"struct s { int a; } *p[3] = 0",
        wanted: "Struct of 1 Braced *0p[] 2",
    },
    Case {
        source: b"struct s *p",
        wanted: "Struct-s Typed *0p 0",
    },
    Case {
        source: b"int * const (*f)(int)",
        wanted: "Int Typed *1{*0f}(1) 0",
    },
    Case {
        source: b"int f(T, int)[2]",
        wanted: "Int Typed f(2)[] 0",
    },
    Case {
        source: b"enum { T } T",
        wanted: "Enum of 1 Typed T 0",
    },
    Case {
        source: b"enum e x",
        wanted: "Enum-e Typed x 0",
    },
    Case {
        source: b"int *;",
        wanted: "Int Typed none 2",
    },
    Case {
        source: b"struct s;",
        wanted: "Struct-s Typed none 1",
    },
];

#[test]
fn specifiers_and_declarators(rt: HostRuntime) -> Result<(), Fail> {
    let alloc = rt.alloc();
    assert_eq!(rt; unlike(alloc, &BOTH)?.as_str(), "");
    Ok(())
}

// Where specifiers nest too deep, what they declare is forgotten.
#[test]
fn too_deep(rt: HostRuntime) -> Result<(), Fail> {
    let alloc = rt.alloc();
    let source = b"struct s { enum { T } a; } T";
    let name = Name::from_bytes(alloc, b"T")?;
    let mut names = names(alloc)?;
    assert_eq!(rt; shown(alloc, 2, &mut names, source)?.as_str(), "none");
    assert_eq!(rt; names.is_typedef(&name), true);
    assert_eq!(rt;
        shown(alloc, 3, &mut names, source)?.as_str(),
        "Struct of 1 Braced T 0"
    );
    assert_eq!(rt; names.is_typedef(&name), false);
    Ok(())
}
