//! A stack machine that builds the statements of a function. Words stand behind their operands, so that `x 5 = ;` is C's `x = 5;`.

use crate::types::{INT, Of, loaded_of};
use c_base::integer::IntKind;
use c_base::number::StmtId;
use c_program::program::Stmt;
use c_typed_expr::expr::{TExpr, TLval};
use c_typed_stmt::stmt::TStmt;
use c_types::duplicate::Mem;
use sqlite_items::{Boxed, Items};
use std::alloc::Global;

/// An expression with its type.
#[derive(Drop)]
pub struct Typed {
    pub expr: TExpr,
    pub of: Of,
}

/// An lvalue with its type.
#[derive(Drop)]
pub struct Located {
    pub place: TLval,
    pub of: Of,
}

#[derive(Drop)]
pub enum Operand {
    Place(Located),
    Value(Typed),
}

/// What was read so far.
#[derive(Drop)]
pub struct Builder {
    pub alloc: Global,
    pub operands: Items<Operand>,
    pub stmts: Items<Stmt>,
    /// How many statements stand before each open block.
    pub opened: Items<usize>,
    /// The number of the last statement, and of the last call.
    pub statement: u32,
    pub site: u32,
    /// The next operator joins the run of operators that is its left operand.
    pub joins: bool,
}

/// Two parts, if there was memory for both.
pub fn both<A: Drop, B: Drop>(a: Mem<A>, b: Mem<B>) -> Mem<(A, B)> {
    let a = a?;
    Ok((a, b?))
}

/// A list of one item.
pub fn one<T: Drop>(alloc: Global, item: T) -> Mem<Items<T>> {
    let mut items = Items::new(alloc);
    items.push(item)?;
    Ok(items)
}

/// The last items, the last one first.
pub fn turned<T: Drop>(alloc: Global, items: &mut Items<T>, count: usize) -> Mem<Items<T>> {
    let mut all = Items::new(alloc);
    for _ in 0..count {
        if let Some(item) = items.pop() {
            all.push(item)?;
        }
    }
    Ok(all)
}

pub fn number(n: i128) -> Typed {
    Typed {
        expr: TExpr::Const(n, IntKind::Int),
        of: INT,
    }
}

fn constant_in(operand: &Operand) -> i128 {
    match operand {
        Operand::Place(_) => 0,
        Operand::Value(value) => match &value.expr {
            TExpr::Const(n, _) => *n,
            _ => 0,
        },
    }
}

impl Builder {
    pub fn new(alloc: Global) -> Builder {
        Builder {
            alloc,
            operands: Items::new(alloc),
            stmts: Items::new(alloc),
            opened: Items::new(alloc),
            statement: 0,
            site: 0,
            joins: false,
        }
    }

    /// The number of one statement more.
    pub fn next_statement(&mut self) -> StmtId {
        self.statement = self.statement.wrapping_add(1);
        StmtId(self.statement)
    }

    pub fn push_value(&mut self, expr: TExpr, of: Of) -> Mem<()> {
        self.operands.push(Operand::Value(Typed { expr, of }))
    }

    pub fn push_place(&mut self, place: TLval, of: Of) -> Mem<()> {
        self.operands.push(Operand::Place(Located { place, of }))
    }

    pub fn push_statement(&mut self, stmt: Stmt) -> Mem<()> {
        self.stmts.push(stmt)
    }

    /// A value, or what the place on the stack holds; 0 where there is nothing.
    pub fn pop_value(&mut self) -> Mem<Typed> {
        match self.operands.pop() {
            None => Ok(number(0)),
            Some(Operand::Value(value)) => Ok(value),
            Some(Operand::Place(located)) => self.loaded(located),
        }
    }

    /// The type of the value that is popped next.
    pub fn top_type(&self) -> Of {
        match self.operands.as_slice().last() {
            None => INT,
            Some(Operand::Value(value)) => value.of,
            Some(Operand::Place(located)) => loaded_of(located.of),
        }
    }

    pub fn pop_boxed(&mut self) -> Mem<(Boxed<TExpr>, Of)> {
        let value = self.pop_value()?;
        Ok((Boxed::new(self.alloc, value.expr)?, value.of))
    }

    /// The constant on the stack; 0 where there is none.
    pub fn pop_number(&mut self) -> i128 {
        match self.operands.pop() {
            None => 0,
            Some(operand) => constant_in(&operand),
        }
    }

    /// The last statement; an empty one where there is none.
    pub fn pop_statement(&mut self) -> Stmt {
        match self.stmts.pop() {
            None => TStmt::Empty(StmtId(0)),
            Some(stmt) => stmt,
        }
    }

    /// Whether the operator that follows joins a run; said once.
    pub fn take_joins(&mut self) -> bool {
        let joins = self.joins;
        self.joins = false;
        joins
    }
}
