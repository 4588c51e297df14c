//! What `parse_declaration` reads, and which names it leaves.
use c_base::name::Name;
use c_lex::lex;
use c_parse_declaration::parse_declaration;
use c_parse_expr::{ParseFault, TypeNames};
use std::alloc::{AllocError, Global};
use std::test::Fail;

struct Case {
    source: &'static [u8],
    // the token with which the declaration begins
    start: usize,
    // the token behind it, or the place of the refusal; and whether `T`, which is a typedef name before, is one behind it
    wanted: &'static str,
}

fn word(is_typedef: bool) -> &'static str {
    if is_typedef { "typedef" } else { "ordinary" }
}

// What is found of a source, where the name `T` is a typedef name before.
fn declaration_text(alloc: Global, source: &[u8], start: usize) -> Result<String, AllocError> {
    if source.len() > 1000 {
        return format!(in alloc; "long");
    }
    let name = Name::from_bytes(alloc, b"T")?;
    let mut names = TypeNames::new(alloc);
    names.declare(name.duplicate(alloc)?, true)?;
    match lex(alloc, source) {
        Err(fault) => format!(in alloc; "{fault:?}"),
        Ok(tokens) => {
            if start > tokens.as_slice().len() {
                return format!(in alloc; "past");
            }
            match parse_declaration(alloc, tokens.as_slice(), start, &mut names) {
                Ok((_, end)) => format!(in alloc; "{end} {}", word(names.is_typedef(&name))),
                Err(ParseFault::Memory) => format!(in alloc; "memory"),
                Err(ParseFault::Syntax { at }) => {
                    format!(in alloc;
                        "no {}:{} {}",
                        at.line,
                        at.col,
                        word(names.is_typedef(&name))
                    )
                }
            }
        }
    }
}

// What is otherwise than wanted.
fn unlike(alloc: Global, cases: &[Case]) -> Result<String, AllocError> {
    let mut out = String::new(alloc);
    for case in cases {
        let found = declaration_text(alloc, case.source, case.start)?;
        if found.as_str() != case.wanted {
            out.push_str(case.wanted)?;
            out.push_str(" but ")?;
            out.push_str(found.as_str())?;
            out.push_str("; ")?;
        }
    }
    Ok(out)
}

const DECLARATIONS: [Case; 11] = [
    Case {
        source: b"T x; T y;",
        start: 0,
        wanted: "3 typedef",
    },
    Case {
        source: b"T x; T y;",
        start: 3,
        wanted: "6 typedef",
    },
    Case {
        source: b"int T;",
        start: 0,
        wanted: "3 ordinary",
    },
    Case {
        source: b"int T = 1, x = T;",
        start: 0,
        wanted: "9 ordinary",
    },
    Case {
        source: b"int T = 1, x = ;",
        start: 0,
        wanted: "no 1:16 typedef",
    },
    Case {
        source: b"enum {T} x = T",
        start: 0,
        wanted: "no 1:14 typedef",
    },
    Case {
        source: b"_Static_assert(sizeof(enum {T}), \"\");",
        start: 0,
        wanted: "13 ordinary",
    },
    Case {
        source: b"int f(int T);",
        start: 0,
        wanted: "7 typedef",
    },
    Case {
        source: b"int f(void) {}",
        start: 0,
        wanted: "no 1:13 typedef",
    },
    Case {
        source: b"",
        start: 0,
        wanted: "no 1:1 typedef",
    },
    Case {
        source: b"int x;",
        start: 3,
        wanted: "no 1:6 typedef",
    },
];

#[test]
fn declarations(rt: HostRuntime) -> Result<(), Fail> {
    let alloc = rt.alloc();
    let found = unlike(alloc, &DECLARATIONS)?;
    assert_eq!(rt; found.as_str(), "");
    Ok(())
}
