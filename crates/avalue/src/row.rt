//! What rows of memories are made of.

use crate::cell::Cellv;
use c_base::number::BaseId;
use ival_core::Ival;
use sqlite_items::Items;

/// The bits `low` to `high` of a base, both included, in elements of `size` bits that each hold the cell.
#[derive(Drop)]
pub struct Entry {
    pub base: BaseId,
    pub low: u64,
    pub high: u64,
    /// None where the cell has flags alone.
    pub size: Option<u32>,
    pub cell: Cellv,
}

/// A set of memories, by what each range of the live objects may hold.
#[derive(Drop)]
pub struct Row(pub Items<Entry>);

/// An object, or a value that is held between two steps.
#[derive(Clone, Copy, Debug, PartialEq, Eq)]
pub enum Target {
    Base(BaseId),
    Slot(u32),
}

/// Where an access may go: objects or slots, each with byte offsets.
#[derive(Drop)]
pub struct Places(pub Items<(Target, Ival)>);
