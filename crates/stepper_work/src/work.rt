//! What is still to do, and states.

use c_base::integer::IntKind;
use c_base::kind::Kind;
use c_base::number::BaseId;
use c_base::operators::{BinOp, UnOp};
use c_memory::scalar::Scalar;
use c_program::program::Stmt;
use c_typed_stmt::init::Image;
use sqlite_items::{Boxed, Items};
use stepper_held::stack::Stack;
use stepper_memory::memory::Memory;
use stepper_shapes::operand::{ImpliedType, Loop, Operand, Place, Statement};
use stepper_values::value::Held;

/// What a call has: no value, a scalar, or a struct or union of so many bytes.
#[derive(Clone, Copy, Drop)]
pub enum ResultType {
    Void,
    Returns(Scalar),
    ReturnsCells(u64),
}

/// What is still to do. Each item names parts of the program and nothing that the run computes.
#[derive(Clone, Copy, Drop)]
pub enum Work<'p> {
    Do(Statement<'p>),
    Evaluate(Operand<'p>),
    /// Find the place, and hold its address.
    Locate(Place<'p>),
    Fetch(Scalar),
    Store(Scalar),
    Apply(BinOp, IntKind),
    Discard(u32),
    Choose(u32, Statement<'p>, Statement<'p>),
    /// The head of a `while`, and the mark of its body.
    Loop(&'p Boxed<Loop>),
    Turn(&'p Boxed<Loop>),
    Deliver(u32),
    /// The end of the statements of a function's body.
    Body(&'p Items<Stmt>),
    Brace(u32, ResultType),
    Close(&'p Items<BaseId>, &'p Items<Stmt>),
    /// The end of the scope of a function's formals and of the objects of its body.
    CloseFunction(&'p Items<BaseId>, &'p Items<BaseId>),
    /// A function in progress, and the site of the call, which the function that is entered first doesn't have.
    Frame(u32, Option<u32>),
    Use,
    AsPlace,
    Reach(u32, u32),
    Index(ImpliedType<'p>, u64, bool),
    IndexedBy(ImpliedType<'p>, u64, bool),
    Sample(Scalar),
    FetchCells(ImpliedType<'p>),
    StoreCells(bool, ImpliedType<'p>),
    CopyCells(bool, ImpliedType<'p>),
    ApplyOne(UnOp, IntKind),
    Change(ImpliedType<'p>),
    ApplyPointers(BinOp, ImpliedType<'p>, ImpliedType<'p>),
    Decide(bool, Operand<'p>),
    Settle,
    Pick(Operand<'p>, Operand<'p>),
    Again,
    Tuck,
    Increase(bool, ImpliedType<'p>),
    Drop,
    /// A call at a site of a function of the type, with so many arguments.
    Enter(u32, ImpliedType<'p>, usize),
    Put(Scalar),
    Paste(u32, &'p Image),
    Finish(u32),
    ForHead(&'p Boxed<Loop>),
    ForNext(&'p Boxed<Loop>),
    ForTurn(&'p Boxed<Loop>),
    DoTest(&'p Boxed<Loop>),
    DoTurn(&'p Boxed<Loop>),
    Select(u32, &'p Boxed<Stmt>),
    Switched,
}

/// The work, what is held, each with the top first, and the memory.
#[derive(Drop)]
pub struct State<'p> {
    pub control: Stack<Work<'p>>,
    pub held: Stack<Held>,
    pub memory: Memory,
}

/// What a part of a step does.
#[derive(Clone, Copy, Drop)]
pub enum Effect {
    GoesOn,
    /// It stops in the statement in which the state goes on.
    StopsHere(Kind),
    StopsIn(Kind, u32),
    Stuck,
}
