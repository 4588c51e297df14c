//! Expressions, lvalues and statements of a typed program by reference, and one level of each at a time: runs of operators and of postfix
//! parts are seen as the nested trees that they stand for (C11 6.5, 6.8).
#![tactic(auto)]

pub mod expressions;
pub mod operand;
pub mod statements;
