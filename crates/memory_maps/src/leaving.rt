//! What is left of each map when an object has died.
ghost use Rattle.std.specs.Prelude.{◌≡◌, IfOk};
ghost use Rattle.std.specs.Option.{option_map};
ghost use Rattle.run_orders.specs.Deaths.{left_all};
ghost use Rattle.memory_maps.specs.Memories.{left_map};

use cell_runs::Mem;
use cell_runs::cells::Cells;
use offmap::OffMap;
use ptree::Merger;
use run_orders::deaths::Death;
use std::alloc::Global;

/// Keeps the keys of the first tree.
#[derive(Drop)]
pub(crate) struct Leaving<'a, D> {
    pub(crate) death: &'a D,
}

impl<'a, C: Cells, D: Death<C>> Merger<OffMap<C>> for Leaving<'a, D> {
    ghost merged = { λ m _ a _. left_map C.ops (D.left m.death.now) a };

    fn merge(
        &self,
        alloc: Global,
        _key: u64,
        a: Option<&OffMap<C>>,
        _b: Option<&OffMap<C>>,
    ) -> Mem<Option<OffMap<C>>> {
        match a {
            None => Ok(None),
            Some(map) => Ok(Some(map.forget_base(alloc, self.death)?)),
        }
    }
}
