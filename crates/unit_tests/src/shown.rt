//! The shape of a unit as a text. An external declaration is `;`, `assert`, `declares N` or a function with its items in braces; a declaration in a block is
//! `D` and its number of declarators, an expression statement `E`, the null statement `N`.
use c_base::name::Name;
use c_lex::lex;
use c_parse_expr::ParseFault;
use c_parse_unit::parse_unit;
use c_tree::tree::{Attribute, Expr};
use c_unit_tree::declaration::Declaration;
use c_unit_tree::statement::{Arm, BlockItem, First, Statement};
use c_unit_tree::unit::{External, Unit};
use std::alloc::{AllocError, Global};

type Node = Statement<Expr, Declaration, Attribute>;

fn add_name(out: &mut String, name: &Name) -> Result<(), AllocError> {
    for byte in name.as_bytes() {
        out.push(char::from(*byte))?;
    }
    Ok(())
}

fn add_declaration(
    alloc: Global,
    out: &mut String,
    declaration: &Declaration,
) -> Result<(), AllocError> {
    match declaration {
        Declaration::Declarators {
            span: _,
            specifiers: _,
            declarators,
        } => out.push_str(format!(in alloc; "D{}", declarators.as_slice().len())?.as_str()),
        Declaration::Assertion {
            span: _,
            condition: _,
            literals: _,
        } => out.push_str("assert"),
    }
}

fn add_optional(out: &mut String, value: &Option<Expr>) -> Result<(), AllocError> {
    match value {
        None => out.push_str("N"),
        Some(_) => out.push_str("E"),
    }
}

fn add_first(
    alloc: Global,
    out: &mut String,
    first: &First<Expr, Declaration>,
) -> Result<(), AllocError> {
    match first {
        First::Declaration(declaration) => add_declaration(alloc, out, declaration),
        First::Expression(value) => add_optional(out, value),
    }
}

#[cycle(showing)]
fn add_items(
    alloc: Global,
    out: &mut String,
    all: &[BlockItem<Expr, Declaration, Attribute>],
) -> Result<(), AllocError> {
    out.push_str("{")?;
    for each in all {
        out.push_str(" ")?;
        match each {
            BlockItem::Declaration(declaration) => add_declaration(alloc, out, declaration)?,
            BlockItem::Statement(statement) => add_statement(alloc, out, statement)?,
        }
    }
    out.push_str(" }")
}

#[cycle(showing)]
fn add_arms(
    alloc: Global,
    out: &mut String,
    all: &[Arm<Expr, Declaration, Attribute>],
) -> Result<(), AllocError> {
    for each in all {
        out.push_str(" or ")?;
        add_statement(alloc, out, &each.branch)?;
    }
    Ok(())
}

#[cycle(showing)]
fn add_behind(
    alloc: Global,
    out: &mut String,
    word: &str,
    statement: &Node,
) -> Result<(), AllocError> {
    out.push_str(word)?;
    out.push_str(" ")?;
    add_statement(alloc, out, statement)
}

#[cycle(showing)]
fn add_statement(alloc: Global, out: &mut String, statement: &Node) -> Result<(), AllocError> {
    match statement {
        Statement::Block { span: _, items } => add_items(alloc, out, items.as_slice()),
        Statement::Expression { span: _, value } => add_optional(out, value),
        Statement::Attribute {
            span: _,
            attribute: _,
        } => out.push_str("attribute"),
        Statement::If {
            span: _,
            condition: _,
            branch,
            more,
            otherwise,
        } => {
            out.push_str("(")?;
            add_behind(alloc, out, "if", branch.get())?;
            add_arms(alloc, out, more.as_slice())?;
            match otherwise {
                None => out.push_str(")"),
                Some(last) => {
                    add_behind(alloc, out, " else", last.get())?;
                    out.push_str(")")
                }
            }
        }
        Statement::Switch {
            span: _,
            value: _,
            body,
        } => add_behind(alloc, out, "switch", body.get()),
        Statement::While {
            span: _,
            condition: _,
            body,
        } => add_behind(alloc, out, "while", body.get()),
        Statement::Do {
            span: _,
            body,
            place,
            condition: _,
        } => {
            add_behind(alloc, out, "do", body.get())?;
            out.push_str(format!(in alloc; " while-{}", place.col)?.as_str())
        }
        Statement::For {
            span: _,
            first,
            second,
            third,
            body,
        } => {
            out.push_str("for-")?;
            add_first(alloc, out, first)?;
            add_optional(out, second)?;
            add_optional(out, third)?;
            add_behind(alloc, out, "", body.get())
        }
        Statement::Goto { span: _, name } => {
            out.push_str("goto-")?;
            add_name(out, name)
        }
        Statement::Continue { span: _ } => out.push_str("continue"),
        Statement::Break { span: _ } => out.push_str("break"),
        Statement::Return { span: _, value } => {
            out.push_str("return-")?;
            add_optional(out, value)
        }
        Statement::Label {
            span: _,
            name,
            labelled,
        } => {
            add_name(out, name)?;
            add_behind(alloc, out, ":", labelled.get())
        }
        Statement::Case {
            span: _,
            value: _,
            labelled,
        } => add_behind(alloc, out, "case", labelled.get()),
        Statement::Default { span: _, labelled } => {
            add_behind(alloc, out, "default", labelled.get())
        }
    }
}

fn add_external(alloc: Global, out: &mut String, external: &External) -> Result<(), AllocError> {
    match external {
        External::Empty { span: _ } => out.push_str(";"),
        External::Declaration(declaration) => add_declaration(alloc, out, declaration),
        External::Function(function) => {
            add_items(alloc, out, function.body.items.as_slice())?;
            out.push_str(format!(in alloc; "-{}", function.body.closing.col)?.as_str())
        }
    }
}

/// The shape of a unit, with a blank between its external declarations.
pub fn unit_text(alloc: Global, unit: &Unit) -> Result<String, AllocError> {
    let mut out = String::new(alloc);
    for each in unit.externals.as_slice() {
        if !out.is_empty() {
            out.push_str(" ")?;
        }
        add_external(alloc, &mut out, each)?;
    }
    Ok(out)
}

/// The shape of the unit in a source, or where it is refused.
pub fn source_text(alloc: Global, source: &[u8]) -> Result<String, AllocError> {
    if source.len() > 1000 {
        return format!(in alloc; "long");
    }
    match lex(alloc, source) {
        Err(fault) => format!(in alloc; "{fault:?}"),
        Ok(tokens) => match parse_unit(alloc, tokens.as_slice()) {
            Ok(unit) => unit_text(alloc, &unit),
            Err(ParseFault::Memory) => format!(in alloc; "memory"),
            Err(ParseFault::Syntax { at }) => format!(in alloc; "no {}:{}", at.line, at.col),
        },
    }
}
