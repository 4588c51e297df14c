//! Steppers.

use c_program::program::TypedProgram;
use std::alloc::Global;
use stepper_values::layout::Layout;

/// Steps through runs of a program whose objects stand where the layout says.
#[derive(Drop)]
pub struct Stepper<'p> {
    pub alloc: Global,
    pub layout: Layout,
    pub program: &'p TypedProgram,
}
