//! The bases of a program, by number.

ghost use Rattle.std.specs.Prelude.{◌≡◌, map, option_map, option_copied};
ghost use Rattle.c_program.specs.Syntax.{base_at};
ghost use Rattle.c_program.specs.Views.{base_of};

use c_program::program::{Base, TypedProgram};

pub fn base_in<'p>(program: &'p TypedProgram, base: u32) -> Option<&'p Base>
    ensures { option_map base_of (option_copied result) ≡ base_at (map base_of program.now.bases) base }
{
    program.bases.as_slice().get(base as usize)
}
