//! Programs of the language.

use c_base::name::Name;
use c_base::number::{BaseId, Span};
use c_base::operators::Rel;
use sqlite_items::{Boxed, Items};

/// Whether what follows is added or subtracted (C11 6.5.6).
#[derive(Clone, Copy, Debug, PartialEq, Eq)]
pub enum Sign {
    Plus,
    Minus,
}

/// A sum of variables and numbers.
#[cycle(sum)]
#[derive(Drop)]
pub enum Sum {
    /// At most 2147483647.
    Number(u32),
    Variable(BaseId),
    Parenthesised(Boxed<Sum>),
    /// Additions and subtractions, from the left (C11 6.5.6). The operands are no runs.
    Run {
        first: Boxed<Sum>,
        more: Items<Addend>,
    },
}

/// What a run goes on with.
#[cycle(sum)]
#[derive(Drop)]
pub struct Addend {
    pub sign: Sign,
    pub operand: Sum,
}

/// A comparison of two sums.
#[cycle(comparison)]
#[derive(Drop)]
pub enum Test {
    Compare {
        left: Sum,
        relation: Rel,
        right: Sum,
    },
    Parenthesised(Boxed<Test>),
}

/// A statement of the language that is read so far.
#[cycle(tree)]
#[derive(Drop)]
pub enum Stmt {
    Assign {
        target: BaseId,
        value: Sum,
    },
    Return(Sum),
    /// A ladder of `if`s, each but the first behind an `else`, and what the last `else` has.
    If {
        arms: Items<Arm>,
        otherwise: Option<Boxed<Stmt>>,
    },
    While {
        test: Test,
        body: Boxed<Stmt>,
    },
    Block(Items<Stmt>),
}

/// One `if` of a ladder.
#[cycle(tree)]
#[derive(Drop)]
pub struct Arm {
    pub test: Test,
    pub body: Stmt,
}

/// A file with the one function `int main(void)`, whose variables are of type `int`. `main` is base 0 and the variables follow in
/// order. Statements are numbered from 1 in source order: all but blocks, each `if` of a ladder, and at last the closing brace. `spans`
/// has their places.
#[derive(Drop)]
pub struct Program {
    pub variables: Items<Name>,
    pub body: Items<Stmt>,
    pub spans: Items<Span>,
}
