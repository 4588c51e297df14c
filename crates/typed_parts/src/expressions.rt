//! Values.

use crate::builder::{Builder, both, one};
use crate::types::{INT, Of, is_pointer, pointer_to, type_of};
use c_base::integer::IntKind;
use c_base::operators::{BinOp, UnOp};
use c_typed_expr::expr::{TCompound, TExpr, TLval, TOperand};
use c_types::ctype::CType;
use c_types::duplicate::Mem;
use sqlite_items::{Boxed, Items};

fn compares(op: BinOp) -> bool {
    match op {
        BinOp::Lt | BinOp::Le | BinOp::Gt | BinOp::Ge | BinOp::Eq | BinOp::Ne => true,
        _ => false,
    }
}

fn kind_of(of: Of) -> IntKind {
    match of {
        Of::Int(kind) => kind,
        _ => IntKind::Int,
    }
}

fn result_of(op: BinOp, left: Of, right: Of) -> Of {
    if compares(op) {
        return INT;
    }
    match (is_pointer(left), is_pointer(right)) {
        (true, true) => Of::Int(IntKind::Long),
        (false, true) => right,
        _ => left,
    }
}

fn result_of_one(op: UnOp, of: Of) -> Of {
    match op {
        UnOp::Not => INT,
        UnOp::Neg | UnOp::Compl => of,
    }
}

impl Builder {
    pub fn constant(&mut self, n: i128) -> Mem<()> {
        self.push_value(TExpr::Const(n, IntKind::Int), INT)
    }

    /// The size of an int, told by `sizeof` of an expression (C11 6.5.3.4).
    pub fn size_of(&mut self) -> Mem<()> {
        self.push_value(TExpr::SizeOf(4, 1), Of::Int(IntKind::ULong))
    }

    pub fn address(&mut self) -> Mem<()> {
        let (place, of) = self.pop_located()?;
        let ctype = type_of(self.alloc, of)?;
        self.push_value(TExpr::Address(place, ctype), pointer_to(of))
    }

    pub fn unary(&mut self, op: UnOp) -> Mem<()> {
        let (operand, of) = self.pop_boxed()?;
        let result = result_of_one(op, of);
        self.push_value(TExpr::Unary(op, kind_of(of), operand), result)
    }

    /// The types of an operator's operands, and that of its result.
    fn operand_types(&self, operator: BinOp, types: (Of, Of)) -> Mem<(CType, (CType, CType))> {
        let left = type_of(self.alloc, types.0);
        let right = type_of(self.alloc, types.1);
        let ctype = type_of(self.alloc, result_of(operator, types.0, types.1));
        both(ctype, both(left, right))
    }

    /// An operator and its right operand, behind an operand of the type.
    fn operand(&self, operator: BinOp, types: (Of, Of), operand: TExpr) -> Mem<TOperand> {
        let (ctype, (left, right)) = self.operand_types(operator, types)?;
        Ok(TOperand {
            operator,
            converts: false,
            left,
            right,
            ctype,
            operand,
        })
    }

    /// C11 6.5.5 to 6.5.12.
    pub fn binary(&mut self, op: BinOp) -> Mem<()> {
        let right = self.pop_value()?;
        let types = (self.top_type(), right.of);
        let operand = self.operand(op, types, right.expr)?;
        self.push_run(operand, result_of(op, types.0, types.1))
    }

    fn push_run(&mut self, operand: TOperand, of: Of) -> Mem<()> {
        let more = one(self.alloc, operand)?;
        let left = self.pop_value()?;
        let run = self.run(left.expr, more)?;
        self.push_value(run, of)
    }

    fn run(&mut self, left: TExpr, more: Items<TOperand>) -> Mem<TExpr> {
        if !self.take_joins() {
            return Ok(TExpr::Run(Boxed::new(self.alloc, left)?, more));
        }
        match left {
            TExpr::Run(first, mut operands) => {
                operands.append(more)?;
                Ok(TExpr::Run(first, operands))
            }
            other => Ok(TExpr::Run(Boxed::new(self.alloc, other)?, more)),
        }
    }

    fn compounded(
        &self,
        place: Boxed<TLval>,
        types: (Of, Of),
        operator: BinOp,
        operand: Boxed<TExpr>,
    ) -> Mem<TCompound> {
        let ctype = type_of(self.alloc, types.0);
        let left = type_of(self.alloc, types.0);
        let right = type_of(self.alloc, types.1);
        let (ctype, (left, right)) = both(ctype, both(left, right))?;
        Ok(TCompound {
            place,
            ctype,
            operator,
            left,
            right,
            operand,
        })
    }

    /// C11 6.5.16.2: the place is combined in its own type.
    pub fn compound(&mut self, op: BinOp) -> Mem<()> {
        let (operand, right) = self.pop_boxed()?;
        let (place, of) = self.pop_located()?;
        let compound = self.compounded(place, (of, right), op, operand)?;
        let compound = Boxed::new(self.alloc, compound)?;
        self.push_value(TExpr::Compound(compound), of)
    }

    pub fn assign(&mut self) -> Mem<()> {
        let (value, _) = self.pop_boxed()?;
        let (place, of) = self.pop_located()?;
        let ctype = type_of(self.alloc, of)?;
        self.push_value(TExpr::Assign(place, ctype, value), of)
    }

    pub fn step_before(&mut self, up: bool) -> Mem<()> {
        let (place, of) = self.pop_located()?;
        let ctype = type_of(self.alloc, of)?;
        self.push_value(TExpr::StepBefore(place, ctype, up), of)
    }

    /// `&&`, `true`, or `||`.
    pub fn logic(&mut self, both: bool) -> Mem<()> {
        let right = self.pop_value()?;
        let more = one(self.alloc, right.expr)?;
        let left = self.pop_value()?;
        let all = self.ladder(both, left.expr, more)?;
        self.push_value(all, INT)
    }

    fn ladder(&mut self, both: bool, left: TExpr, more: Items<TExpr>) -> Mem<TExpr> {
        if !self.take_joins() {
            return Ok(TExpr::Logic(both, Boxed::new(self.alloc, left)?, more));
        }
        match left {
            TExpr::Logic(sort, first, mut operands) => {
                operands.append(more)?;
                Ok(TExpr::Logic(sort, first, operands))
            }
            other => Ok(TExpr::Logic(both, Boxed::new(self.alloc, other)?, more)),
        }
    }

    pub fn conditional(&mut self) -> Mem<()> {
        let (no, of) = self.pop_boxed()?;
        let (yes, _) = self.pop_boxed()?;
        let (cond, _) = self.pop_boxed()?;
        let ctype = type_of(self.alloc, of)?;
        self.push_value(TExpr::Conditional(cond, yes, no, ctype), of)
    }

    pub fn comma(&mut self) -> Mem<()> {
        let (last, of) = self.pop_boxed()?;
        let first = self.pop_value()?;
        let before = one(self.alloc, first.expr)?;
        self.push_value(TExpr::Comma(before, last), of)
    }

    /// A conversion to the type (C11 6.3), written as a cast or not.
    pub fn convert(&mut self, written: bool, to: Of) -> Mem<()> {
        let (value, _) = self.pop_boxed()?;
        let ctype = type_of(self.alloc, to)?;
        let converted = if written {
            TExpr::Cast(ctype, value)
        } else {
            TExpr::Convert(ctype, value)
        };
        self.push_value(converted, to)
    }

    /// Whether a pointer isn't null, as a condition.
    pub fn is_set(&mut self) -> Mem<()> {
        let (pointer, of) = self.pop_boxed()?;
        let ctype = type_of(self.alloc, of)?;
        self.push_value(TExpr::IsSet(ctype, pointer), INT)
    }
}
