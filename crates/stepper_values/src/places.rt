//! Addresses in a layout, and the bases that they reach.

ghost use Rattle.std.specs.Prelude.{◌≡◌, ◌*◌, ◌≤◌, ◌^◌, IfOk};
ghost use Rattle.c_memory.specs.Memories as memories;
ghost use Rattle.stepper_values.specs.Views.{number_of, value_of, layout_of, object_at};

use crate::layout::{Layout, Object};
use crate::number::Number;
use crate::value::Value;
use sqlite_items::Items;
use std::alloc::{AllocError, Global};

/// The object of a base.
pub fn object_of(layout: &Layout, base: u32) -> Object
    ensures { result ≡ object_at layout.now.objects base }
{
    match layout.objects.get(base as usize) {
        Some(found) => *found,
        None => Object {
            address: 0,
            size: 0,
            readonly: false,
        },
    }
}

/// The address of its first byte (C11 6.5.3.2p3).
pub fn address_of(alloc: Global, layout: &Layout, base: u32) -> Result<Value, AllocError>
    ensures { IfOk result (λ value. value_of value ≡ memories.address_of (layout_of layout.now) base) }
{
    Ok(Value {
        number: Number::Natural(object_of(layout, base).address),
        bases: Items::from_slice(alloc, &[base])?,
    })
}

/// An access of so many bytes at the address lies in the base.
pub fn is_within(layout: &Layout, bytes: u64, base: u32, at: Number) -> bool
    ensures { result ≡ memories.is_within (layout_of layout.now) bytes base (number_of at) }
{
    let whole = object_of(layout, base);
    match at {
        Number::Natural(n) => whole.address <= n
            && (n - whole.address) as u128 + bytes as u128 <= whole.size as u128,
        Number::Negative(_) => false,
    }
}

/// How many bytes the address lies behind the base's first one.
pub fn offset_in(layout: &Layout, base: u32, at: &Value) -> u128
    ensures value { result ≡ memories.offset_in (layout_of layout.now) base (value_of at.now) }
    ensures small { result ≤ 2 ^ 70 }
{
    match at.number {
        Number::Natural(n) => n.saturating_sub(object_of(layout, base).address) as u128,
        Number::Negative(_) => 0,
    }
}

/// The bit of the base at which the access begins.
pub fn first_bit(layout: &Layout, base: u32, at: &Value) -> u128
    ensures value { result ≡ 8 * memories.offset_in (layout_of layout.now) base (value_of at.now) }
    ensures small { result ≤ 2 ^ 80 }
{
    match at.number {
        Number::Natural(n) => 8 * n.saturating_sub(object_of(layout, base).address) as u128,
        Number::Negative(_) => 0,
    }
}
