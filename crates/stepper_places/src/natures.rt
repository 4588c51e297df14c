//! The nature of places.

ghost use Rattle.std.specs.Prelude.{◌≡◌, map, slice_get};
ghost use Rattle.c_machine.specs.Machine as machine;
ghost use Rattle.c_machine.specs.Unfolding as machine_work;
ghost use Rattle.c_program.specs.Syntax.{Variable, base_at};
ghost use Rattle.c_program.specs.Views.{base_of, program_of};
ghost use Rattle.c_types.specs.Views.{composites_of};
ghost use Rattle.stepper_shapes.specs.Views.{implied_of, place_of};

use c_program::program::TypedProgram;
use c_types::ctype::Composites;
use stepper_shapes::expressions::place_shape;
use stepper_shapes::operand::{ImpliedType, Place, PlaceShape};
use stepper_types::bases::base_in;

fn is_volatile_base(program: &TypedProgram, base: u32) -> bool
    ensures { result ≡ machine_work.volatile_base (base_at (map base_of program.now.bases) base) }
{
    match base_in(program, base) {
        None => false,
        Some(b) => b.volatile,
    }
}

fn is_volatile_member(composites: &Composites, number: u32, member: u32) -> bool
    ensures { result ≡ machine_work.volatile_member (slice_get (composites_of composites.now) number) member }
{
    let Some(composite) = composites.get(number as usize) else {
        return false;
    };
    match composite.members.as_slice().get(member as usize) {
        None => false,
        Some(m) => m.volatile,
    }
}

/// Whether a load at the place is a choice.
pub fn is_volatile(program: &TypedProgram, place: Place<'_>) -> bool
    ensures { result ≡ machine_work.is_volatile (program_of program.now) (place_of place.entry) }
{
    match place_shape(place) {
        PlaceShape::Variable(base) => is_volatile_base(program, base),
        PlaceShape::Pointed(_, _, volatile) => volatile,
        PlaceShape::Temporary(_, _) => false,
        PlaceShape::Member(before, composite, member) => {
            if is_volatile(program, before) {
                return true;
            }
            is_volatile_member(&program.comps, composite, member)
        }
        PlaceShape::Element(before, _, _, _, _) => is_volatile(program, before),
        PlaceShape::ElementOf(_, before, _, _, _) => is_volatile(program, before),
    }
}

/// Whether it is a part of a value without a place of its own.
pub fn is_temporary(place: Place<'_>) -> bool
    ensures { result ≡ machine_work.is_temporary (place_of place.entry) }
{
    match place_shape(place) {
        PlaceShape::Variable(_) => false,
        PlaceShape::Pointed(_, _, _) => false,
        PlaceShape::Temporary(_, _) => true,
        PlaceShape::Member(before, _, _) => is_temporary(before),
        PlaceShape::Element(before, _, _, _, _) => is_temporary(before),
        PlaceShape::ElementOf(_, before, _, _, _) => is_temporary(before),
    }
}

fn type_of_base<'p>(program: &'p TypedProgram, base: u32) -> ImpliedType<'p>
    ensures { implied_of result ≡ machine.called_type (program_of program.now) (Variable base) }
{
    match base_in(program, base) {
        None => ImpliedType::Void,
        Some(b) => ImpliedType::Given(&b.ctype),
    }
}

/// The type of the function that is called at the place.
pub fn callee_type<'p>(program: &'p TypedProgram, place: Place<'p>) -> ImpliedType<'p>
    ensures { implied_of result ≡ machine.called_type (program_of program.now) (place_of place.entry) }
{
    match place_shape(place) {
        PlaceShape::Variable(base) => type_of_base(program, base),
        PlaceShape::Pointed(_, t, _) => t,
        PlaceShape::Temporary(_, t) => t,
        PlaceShape::Member(_, _, _) => ImpliedType::Void,
        PlaceShape::Element(_, _, t, _, _) => t,
        PlaceShape::ElementOf(_, _, t, _, _) => t,
    }
}
