//! Which base an access reaches.

ghost use Rattle.std.specs.Prelude.{◌≡◌, ◌<◌, ◌≤◌, ◌^◌, ◌&&◌, length, find};
ghost use Rattle.c_memory.specs.Memories as memories;
ghost use Rattle.c_program.specs.Syntax.{numbers_from};
ghost use Rattle.stepper_values.specs.Views.{value_of, layout_of};
ghost use Rattle.stepper_memory.specs.Views.{plain};
ghost use Rattle.stepper_accesses.specs.Firsts.{first_of};

use stepper_memory::memory::Memory;
use stepper_values::layout::Layout;
use stepper_values::places::is_within;
use stepper_values::value::{Value, contains};

/// The access of so many bytes lies in the base.
fn is_reached(layout: &Layout, memory: &Memory, bytes: u64, at: &Value, base: u32) -> bool
    ensures { result ≡ memories.is_reached (layout_of layout.now) (plain memory.now) bytes (value_of at.now) base }
{
    contains(at.bases.as_slice(), base)
        && memory.lives(base)
        && is_within(layout, bytes, base, at.number)
}

/// The base, where it comes before the one that was found.
fn first_of(found: Option<u32>, base: u32) -> Option<u32>
    ensures { result ≡ first_of found base }
{
    match found {
        Some(other) => if other <= base {
            Some(other)
        } else {
            Some(base)
        },
        None => Some(base),
    }
}

/// The base that an access of so many bytes reaches.
pub fn reached(layout: &Layout, memory: &Memory, bytes: u64, at: &Value) -> Option<u32>
    ensures { result ≡ memories.reached (layout_of layout.now) (plain memory.now) bytes (value_of at.now) }
{
    let count = layout.objects.len();
    let mut found = None;
    for base in at.bases.as_slice() {
        if (*base as usize) < count && is_reached(layout, memory, bytes, at, *base) {
            found = first_of(found, *base);
        }
    }
    found
}
