//! Statements (C11 6.8).

use crate::builder::{Builder, both, one, turned};
use crate::objects::{base_named, size_of};
use crate::types::type_of;
use c_base::name::Name;
use c_base::number::BaseId;
use c_program::program::{Block, Stmt};
use c_typed_expr::expr::{TExpr, TRoot};
use c_typed_stmt::init::{Image, ImageItem, TInit, TInitItem};
use c_typed_stmt::stmt::{LoopSort, Numbered, TArm, TBlock, TLoop, TStmt};
use c_types::duplicate::Mem;
use sqlite_items::{Boxed, Items};
use std::alloc::Global;

/// So many equal bytes from bit 0 on.
pub fn bytes(alloc: Global, count: u64, number: i128) -> Mem<Image> {
    one(
        alloc,
        ImageItem {
            low: 0,
            bits: 8,
            count,
            number,
            base: None,
        },
    )
}

/// The objects with the names.
pub fn objects(alloc: Global, letters: &[u8]) -> Mem<Items<BaseId>> {
    let mut all = Items::new(alloc);
    for letter in letters {
        all.push(base_named(*letter))?;
    }
    Ok(all)
}

fn base_of(root: &TRoot) -> BaseId {
    match root {
        TRoot::Object(base) => *base,
        _ => BaseId(0),
    }
}

impl Builder {
    pub fn expression(&mut self) -> Mem<()> {
        let value = self.pop_value()?;
        let id = self.next_statement();
        self.push_statement(TStmt::Expr(id, value.expr))
    }

    /// The object that the place names, or whose part it names, begins with a value; `cleared`: its other bytes with 0.
    pub fn initialised(&mut self, cleared: bool) -> Mem<()> {
        let (value, _) = self.pop_boxed()?;
        let (place, of) = self.pop_located()?;
        let base = base_of(&place.get().root);
        let item = TInitItem::Value(place, type_of(self.alloc, of)?, value);
        let cleared = self.cleared(base, cleared)?;
        self.push_init(base, cleared, item)
    }

    fn cleared(&self, base: BaseId, cleared: bool) -> Mem<Image> {
        if cleared {
            return bytes(self.alloc, size_of(base), 0);
        }
        Ok(Items::new(self.alloc))
    }

    fn pop_base(&mut self) -> Mem<BaseId> {
        let (place, _) = self.pop_located()?;
        Ok(base_of(&place.get().root))
    }

    /// An array of characters begins with so many letters `a`.
    pub fn text(&mut self) -> Mem<()> {
        let count = u64::try_from(self.pop_number()).unwrap_or(1);
        let base = self.pop_base()?;
        let letters = bytes(self.alloc, count, 97)?;
        let cleared = self.cleared(base, true)?;
        self.push_init(base, cleared, TInitItem::Text(letters))
    }

    fn push_init(&mut self, base: BaseId, cleared: Image, item: TInitItem) -> Mem<()> {
        let init = TInit {
            cleared,
            items: one(self.alloc, item)?,
        };
        let id = self.next_statement();
        self.push_statement(TStmt::Init(id, base, init))
    }

    pub fn returns(&mut self) -> Mem<()> {
        let value = self.pop_value()?;
        let id = self.next_statement();
        self.push_statement(TStmt::Return(id, Some(value.expr)))
    }

    /// A block begins.
    pub fn open(&mut self) -> Mem<()> {
        self.opened.push(self.stmts.len())
    }

    /// The statements since the block began, with its objects.
    pub fn take_block(&mut self, letters: &[u8]) -> Mem<Block> {
        let start = self.opened.pop().unwrap_or(0);
        let count = self.stmts.len().saturating_sub(start);
        let mut last_first = turned(self.alloc, &mut self.stmts, count)?;
        let stmts = turned(self.alloc, &mut last_first, count)?;
        let locals = objects(self.alloc, letters)?;
        Ok(TBlock { locals, stmts })
    }

    pub fn close(&mut self, letters: &[u8]) -> Mem<()> {
        let block = self.take_block(letters)?;
        self.push_statement(TStmt::Block(block))
    }

    /// An `if`, or, where it joins, one more behind the last `else`.
    pub fn if_then(&mut self) -> Mem<()> {
        let cond = self.pop_value()?;
        let body = self.pop_statement();
        let arm = TArm {
            id: self.next_statement(),
            cond: cond.expr,
            body,
        };
        let arms = one(self.alloc, arm)?;
        if !self.take_joins() {
            return self.push_statement(TStmt::If(arms, None));
        }
        match self.pop_statement() {
            TStmt::If(mut before, last) => {
                before.append(arms)?;
                self.push_statement(TStmt::If(before, last))
            }
            other => self.push_statement(other),
        }
    }

    /// The last statement is what stands behind the last `else`.
    pub fn otherwise(&mut self) -> Mem<()> {
        let body = self.pop_statement();
        let last = Boxed::new(self.alloc, body)?;
        match self.pop_statement() {
            TStmt::If(arms, _) => self.push_statement(TStmt::If(arms, Some(last))),
            other => self.push_statement(other),
        }
    }

    fn looped(
        &mut self,
        sort: LoopSort,
        first: Option<Numbered<TExpr>>,
        cond: Option<TExpr>,
        next: Option<Numbered<TExpr>>,
    ) -> Mem<()> {
        let body = self.pop_statement();
        let each = TLoop {
            sort,
            first,
            id: self.next_statement(),
            invariants: Items::new(self.alloc),
            cond,
            next,
            body,
        };
        let each = Boxed::new(self.alloc, each)?;
        self.push_statement(TStmt::Loop(each))
    }

    /// A `while` or a `do`.
    pub fn turns(&mut self, sort: LoopSort) -> Mem<()> {
        let cond = self.pop_value()?;
        self.looped(sort, None, Some(cond.expr), None)
    }

    /// `for (;;)`
    pub fn forever(&mut self) -> Mem<()> {
        self.looped(LoopSort::For, None, None, None)
    }

    fn numbered(&mut self) -> Mem<Numbered<TExpr>> {
        let value = self.pop_value()?;
        Ok(Numbered {
            id: self.next_statement(),
            value: value.expr,
        })
    }

    pub fn for_loop(&mut self) -> Mem<()> {
        let next = self.numbered();
        let cond = self.pop_value();
        let first = self.numbered();
        let (next, (cond, first)) = both(next, both(cond, first))?;
        self.looped(LoopSort::For, Some(first), Some(cond.expr), Some(next))
    }

    pub fn switch(&mut self) -> Mem<()> {
        let body = self.pop_statement();
        let body = Boxed::new(self.alloc, body)?;
        let value = self.pop_value()?;
        let id = self.next_statement();
        self.push_statement(TStmt::Switch(id, value.expr, body))
    }

    /// A `case`, or without a value `default`, before the last statement.
    pub fn case(&mut self, value: Option<i128>) -> Mem<()> {
        let body = self.pop_statement();
        let body = Boxed::new(self.alloc, body)?;
        self.push_statement(TStmt::Case(value, body))
    }

    /// The last statement gets a label.
    pub fn label(&mut self, name: &str) -> Mem<()> {
        let body = self.pop_statement();
        let body = Boxed::new(self.alloc, body)?;
        let name = Name::from_bytes(self.alloc, name.as_bytes())?;
        self.push_statement(TStmt::Label(name, body))
    }

    pub fn goto(&mut self, name: &str) -> Mem<()> {
        let id = self.next_statement();
        let name = Name::from_bytes(self.alloc, name.as_bytes())?;
        self.push_statement(TStmt::Goto(id, name))
    }

    /// A statement of which there is nothing but its number.
    pub fn bare(&mut self, word: &str) -> Mem<()> {
        let id = self.next_statement();
        let stmt: Stmt = match word {
            "break" => TStmt::Break(id),
            "continue" => TStmt::Continue(id),
            "end" => TStmt::Return(id, None),
            _ => TStmt::Empty(id),
        };
        self.push_statement(stmt)
    }
}
