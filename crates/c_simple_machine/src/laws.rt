//! What holds of the acts of every simple program.

ghost use Rattle.c_memory.specs.Layouts.{Layout};
ghost use Rattle.c_program.specs.Syntax.{Program};
ghost use Rattle.c_simple_machine.specs.Laws.{ActsOnce};

/// An act has at most one effect, unless it loads from a volatile object.
pub fn acts_once()
    ensures { (p : Program) → (l : Layout) → ActsOnce p l }
{}
