//! Edges between places.

use crate::expr::{SExpr, SLval};
use c_base::kind::Kind;
use c_base::number::{BaseId, SiteId, StmtId};
use c_typed_stmt::init::Image;
use c_typed_term::predicate::TPred;
use c_types::ctype::CType;
use sqlite_items::Items;

/// A place's number among those of its function, from 0.
#[derive(Clone, Copy, Debug, PartialEq, Eq, PartialOrd, Ord)]
pub struct PlaceId(pub u32);

/// What a step along an edge does.
#[derive(Drop)]
pub enum Act {
    /// Finds the place, evaluates, then stores.
    Set(SLval, SExpr),
    /// Keeps a value in a slot.
    Hold(u32, SExpr),
    /// Forgets the slot.
    Release(u32),
    /// Assigns a struct or union: the first place gets what the second has.
    Copy(SLval, SLval),
    /// Writes an initial content into the base, and no other bit.
    Paste(BaseId, Image),
    /// Goes on exactly where the truth of the expression is this one.
    Test(SExpr, bool),
    /// The bases are born.
    Enter(Items<BaseId>),
    /// The bases die.
    Leave(Items<BaseId>),
    /// Stops with the kind exactly where the predicate isn't true.
    Check(Kind, TPred),
    /// The call's site, the function, the arguments, and the slot for the result.
    Call(SiteId, SExpr, Items<SExpr>, Option<u32>),
    /// The result, and in a graph the slot that the call names.
    Return(Option<SExpr>, Option<u32>),
    Skip,
}

/// A step between two places, at a statement.
#[derive(Drop)]
pub struct Edge {
    pub start: PlaceId,
    pub end: PlaceId,
    pub at: StmtId,
    pub act: Act,
    /// The function that a call enters, in a graph.
    pub callee: Option<BaseId>,
}

/// A slot that is held, and the type of what it holds.
#[derive(Drop)]
pub struct HeldSlot {
    pub slot: u32,
    pub ctype: CType,
}

/// The bases that live at a place and the slots that are held there, without those of callers.
#[derive(Drop)]
pub struct Scope {
    pub live: Items<BaseId>,
    pub slots: Items<HeldSlot>,
}

/// What a place is: the innermost statement, whether a memory there is one at the statement, the calls in progress, outermost first, and
/// the scope.
#[derive(Drop)]
pub struct PlaceInfo {
    pub at: StmtId,
    pub arrival: bool,
    pub sites: Items<SiteId>,
    pub scope: Scope,
}

/// A function with a body. Its place 0 is its entry and its last place its exit, which no edge leaves.
#[derive(Drop)]
pub struct SimpleFunction {
    pub base: BaseId,
    pub places: Items<PlaceInfo>,
    pub edges: Items<Edge>,
}
