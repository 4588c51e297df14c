//! Where the objects of a program stand.

ghost use Rattle.std.specs.Prelude.{◌<◌, ◌^◌, length};

use c_base::integer::Machine;
use sqlite_items::Items;

/// The first byte of an object, its size in bytes, and whether it can't be written.
#[derive(Clone, Copy, Drop)]
pub struct Object {
    pub address: u64,
    pub size: u32,
    pub readonly: bool,
}

/// The objects by base. A base that isn't listed is an object without bytes at address 0, and none of those that an access may reach.
#[derive(Drop)]
pub struct Layout {
    pub machine: Machine,
    pub objects: Items<Object>,
    ghost few: { length objects < 2 ^ 32 },
}
