//! Which cells of values have one content.
ghost use Rattle.std.specs.Prelude.{◌≡◌, ◌≤◌, ◌^◌, is_some};
ghost use Rattle.avalue_base.specs.Numbers.{is_empty, rest_in};
ghost use Rattle.avalue_values.specs.Views.{held_value};
ghost use Rattle.cell_contents.specs.Contents.{is_one_value, is_single};

use avalue::{AVal, Cellv};
use c_base::format::power;
use ival_arith::residues;
use ival_core::Ival;
use run_orders::singles::Singles;

/// The test for cells that have one content, in every layout. Its law is `single_laws` of `cell_contents`.
#[derive(Clone, Copy, Drop)]
pub struct OneContent;

/// Whether the set has no number.
fn is_none(numbers: &Ival) -> bool
    ensures { result ≡ is_empty numbers.now.shape }
{
    numbers.bounds().is_none()
}

/// Whether all numbers of the set have the same lowest bits.
fn agree(numbers: &Ival, bits: u32) -> bool
    requires { bits ≤ 64 }
    ensures { result ≡ is_some (rest_in bits numbers.now.shape) }
{
    residues(numbers, power(bits)).as_single().is_some()
}

/// Whether a value has the same bits, whichever of its numbers or addresses it is.
fn is_one_value(value: &AVal, bits: u32) -> bool
    requires { bits ≤ 64 }
    ensures { result ≡ is_one_value bits value.now }
{
    let Some(numbers) = value.numbers() else {
        return false;
    };
    let addresses = value.addresses();
    if addresses.is_empty() {
        return agree(numbers, bits);
    }
    if addresses.len() > 1 {
        return false;
    }
    if !is_none(numbers) {
        return false;
    }
    agree(addresses[0].offsets(), bits)
}

/// Whether a cell's value does, if it has one.
fn is_one(value: &Option<AVal>, bits: u32) -> bool
    requires { bits ≤ 64 }
    ensures { result ≡ is_one_value bits (held_value value.now) }
{
    match value {
        None => agree(&Ival::empty(), bits),
        Some(value) => is_one_value(value, bits),
    }
}

impl Singles<Cellv> for OneContent {
    ghost single = { λ _. is_single };

    fn is_single(&self, bits: u64, cell: &Cellv) -> bool {
        if cell.is_blank() {
            return cell.uninit != cell.dead;
        }
        if cell.uninit {
            return false;
        }
        if cell.dead {
            return false;
        }
        is_one(&cell.value, bits as u32)
    }
}
