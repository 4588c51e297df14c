//! What holds of the runs of every valid program.

ghost use Rattle.std.specs.List.{AllByRecursion};
ghost use Rattle.c_memory.specs.Layouts.{Layout};
ghost use Rattle.c_program.specs.Syntax.{Program};
ghost use Rattle.c_program.specs.Flow.{IsFlowing};
ghost use Rattle.c_program.specs.Valid.{IsValid};
ghost use Rattle.c_program.specs.Packing.{HasRoom, HasLayout};
ghost use Rattle.c_machine.specs.Accesses.{OneBaseFits, LoadsStored, StoresWithin};
ghost use Rattle.c_machine.specs.Laws.{GoesOn, IsDeterministic, IsSelfContained, HasStart, LivesInScopes};

/// Each state that a run of a program reaches has no work left, or has a step, where the program's jumps have where they lead, and it has
/// neither annotations nor functions without bodies.
pub fn goes_on()
    ensures { (p : Program) → AllByRecursion IsFlowing p.functions → IsSelfContained p → GoesOn p }
{}

/// A state has at most one step, unless it loads from a volatile object.
pub fn is_deterministic()
    ensures { (p : Program) → (l : Layout) → IsDeterministic p l }
{}

/// The bases that live in such a state are those of the scopes in progress, and the static ones, as long as no function is entered again
/// while it is in progress.
pub fn lives_in_scopes()
    ensures { (p : Program) → IsValid p → LivesInScopes p }
{}

/// A program whose bases have room has a layout.
pub fn has_layout()
    ensures { (p : Program) → HasRoom p → HasLayout p }
{}

/// A valid program has an initial state in each layout.
pub fn has_start()
    ensures { (p : Program) → IsValid p → HasStart p }
{}

/// The base that an access reaches is the only one that fits.
pub fn one_base_fits()
    ensures { (p : Program) → OneBaseFits p }
{}

/// A load after a store of the same type at the same place gives the value.
pub fn loads_stored()
    ensures { (l : Layout) → LoadsStored l }
{}

/// A store changes no bit outside.
pub fn stores_within()
    ensures { (l : Layout) → StoresWithin l }
{}
