//! Whether an element allows what another of its size does.
ghost use Rattle.std.specs.Prelude.{◌≡◌, ℕ, ◌<◌, ◌≤◌, ◌&&◌, []};
ghost use Rattle.arrayvec.specs.ArrayVec.{array_vec_len};
ghost use Rattle.cell_laws.specs.Elements.{spread};
ghost use Rattle.cell_laws.specs.Order.{known, is_in, is_known};
ghost use Rattle.run_places.specs.Spots.{OnBits};
ghost use Rattle.run_merges.specs.Widened.{is_same_number};

use arrayvec::ArrayVec;
use cell_runs::cells::Cells;

/// Whether all bits of the cell are known, which are added.
fn known_bits<C: Cells>(cell: &C, bits: u64, out: &mut ArrayVec<bool, 64>) -> bool
    requires fine { C.fine bits cell.now }
    requires few { bits ≤ 64 }
    requires none { out.old.items ≡ [] }
    requires room { array_vec_len out.old ≡ 0 }
    ensures { OnBits (known C.ops (spread bits cell.now 0 bits)) result out.new.items }
{
    let mut i = 0;
    while i < bits {
        let Some(bit) = cell.known_bit(bits, i) else {
            return false;
        };
        out.push(bit);
        i += 1;
    }
    true
}

/// Whether all bits of the first cell are known, and the second has their number.
fn is_known<C: Cells>(first: &C, bits: u64, second: &C) -> bool
    requires first { C.fine bits first.now }
    requires second { C.fine bits second.now }
    requires few { bits ≤ 64 }
    ensures { result ≡ is_known C.ops bits second.now (spread bits first.now 0 bits) }
{
    let mut known = ArrayVec::new();
    if !known_bits(first, bits, &mut known) {
        return false;
    }
    second.has(&known)
}

/// Whether the first has no value, and its flags are among the second's.
fn is_bare<C: Cells>(first: &C, second: &C) -> bool
    ensures { result ≡ (C.ops.blank first.now && C.ops.within (C.ops.hue first.now) (C.ops.hue second.now)) }
{
    if !first.is_blank() {
        return false;
    }
    first.is_within(second)
}

/// Whether an element of so many bits with the second cell allows what one with the first does.
pub(crate) fn is_allowed<C: Cells>(first: &C, bits: u64, second: &C) -> bool
    requires first { C.fine bits first.now }
    requires second { C.fine bits second.now }
    requires some { 0 < bits }
    requires few { bits ≤ 64 }
    ensures { result ≡ is_in C.ops bits second.now (spread bits first.now 0 bits) }
{
    if first.is_included(second) {
        return true;
    }
    if second.admits(bits, first) {
        return true;
    }
    if is_bare(first, second) {
        return true;
    }
    is_known(first, bits, second)
}

/// Whether both have the same number alone.
pub(crate) fn is_same_number<C: Cells>(first: &C, bits: u64, second: &C) -> bool
    requires first { C.fine bits first.now }
    requires second { C.fine bits second.now }
    requires few { bits ≤ 64 }
    ensures { result ≡ is_same_number C.ops bits first.now second.now }
{
    if !is_known(first, bits, second) {
        return false;
    }
    is_known(second, bits, first)
}
