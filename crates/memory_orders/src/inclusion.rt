//! Whether one memory allows what another does.
ghost use Rattle.std.specs.Prelude.{◌≡◌, Option};
ghost use Rattle.std.specs.Option.{option_copied};
ghost use Rattle.memory_orders.specs.Merging.{is_below as is_map_below, are_below as are_maps_below, included as includes_memory};

use cell_runs::cells::Cells;
use memory_maps::Memory;
use offmap::OffMap;
use ptree::PTree;

/// Whether the other map is there, as long, and includes this one.
fn is_below<C: Cells>(map: &OffMap<C>, other: Option<&OffMap<C>>) -> bool
    ensures { result ≡ is_map_below C.ops map.now (option_copied other.entry) }
{
    match other {
        None => false,
        Some(other) => {
            if map.bits() != other.bits() {
                return false;
            }
            map.included(other)
        }
    }
}

/// Whether each of the maps is included in the one with its number.
#[tactic(auto, using(crate::proofs::Below::from_first), unfolding(crate::specs::Merging::are_below))]
fn are_below<C: Cells>(first: &PTree<OffMap<C>>, second: &PTree<OffMap<C>>) -> bool
    ensures { result ≡ are_maps_below C.ops first.now second.now }
{
    for (key, map) in first.walk(0) {
        if !is_below(map, second.get(key)) {
            return false;
        }
    }
    true
}

/// Whether the second of two memories of one shape includes the first.
pub fn included<C: Cells>(first: &Memory<C>, second: &Memory<C>) -> bool
    ensures { result ≡ includes_memory C.ops first.now second.now }
{
    if !are_below(first.bases(), second.bases()) {
        return false;
    }
    are_below(first.slots(), second.slots())
}
