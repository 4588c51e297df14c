//! Simple programs.
ghost use Rattle.std.specs.Prelude.{◌≡◌, IfOk};

use crate::edge::SimpleFunction;
use c_program::program::TypedProgram;
use c_types::duplicate::{Duplicate, Mem};
use sqlite_items::Items;
use std::alloc::Global;

/// A typed program and its functions with bodies, each as places and edges.
#[derive(Drop)]
pub struct SimpleProgram {
    pub program: TypedProgram,
    /// By ascending base.
    pub functions: Items<SimpleFunction>,
}

impl SimpleProgram {
    /// An equal value.
    pub fn duplicate(&self, alloc: Global) -> Mem<SimpleProgram>
        ensures { IfOk result (λ copy. copy ≡ self.now) }
    {
        let program = self.program.duplicate(alloc)?;
        Ok(SimpleProgram {
            program,
            functions: self.functions.duplicate(alloc)?,
        })
    }
}
