//! What the definitions say of uses of functions' names.

ghost use Rattle.std.specs.Prelude.{ℕ};
ghost use Rattle.c_program.specs.Laws.{NamedAsArgument, NotNamedAsCalled};

/// A function whose address is an argument of a call is named by it, and one that is called directly is not.
pub fn names_of_functions()
    ensures argument { (f : ℕ) → NamedAsArgument f }
    ensures called { (f : ℕ) → NotNamedAsCalled f }
{}
