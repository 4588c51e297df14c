//! What holds of the place of every state that a run reaches.

ghost use Rattle.c_program.specs.Syntax.{Program};
ghost use Rattle.c_program.specs.Numbered.{IsNumbered};
ghost use Rattle.c_program.specs.StaticCalls.{IsAcyclic};
ghost use Rattle.c_program.specs.Valid.{IsValid};
ghost use Rattle.machine_places.specs.Places.{HasPlaces, OwnsPlaces, IsRanked, CallsByName, HasOwnSites, SitesTellFunctions, EntersOnce, AlwaysLivesInScopes};

use c_machine::lives_in_scopes;

/// The statement and the call sites that a stop names are those of the innermost function in progress and of the calls that led there.
pub fn has_places()
    ensures { (p : Program) → HasPlaces p }
{}

/// The statement is one of no other function, where the program's statements are numbered as they stand.
pub fn owns_places()
    ensures { (p : Program) → IsNumbered p → OwnsPlaces p }
{}

/// Call sites tell which functions are in progress, where each call names what it calls and no two of a function have the same site.
pub fn sites_tell_functions()
    ensures { (p : Program) → HasOwnSites p → CallsByName p → SitesTellFunctions p }
{}

/// Where a rank falls along each call, no run enters a function again while it is in progress.
pub fn enters_once()
    ensures { (p : Program) → IsRanked p → EntersOnce p }
{}

/// There is such a rank where each call names what it calls, and no function that the entry reaches calls itself by whatever way.
pub fn is_ranked()
    ensures { (p : Program) → IsAcyclic p → CallsByName p → IsRanked p }
{}

/// So the bases that live are those of the scopes in progress, and the static ones, in all states that runs of such a valid program reach.
pub fn always_lives_in_scopes()
    ensures { (p : Program) → IsValid p → IsRanked p → AlwaysLivesInScopes p }
{
    lives_in_scopes();
    enters_once();
}
