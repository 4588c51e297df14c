//! Bits of memory.

use stepper_values::value::Cell;

/// A bit, and when it was written.
#[derive(Drop)]
pub struct Stored {
    pub cell: Cell,
    pub since: u64,
}
