//! The widening of cells of values, as maps ask for it.
ghost use Rattle.std.specs.Prelude.{◌≡◌, ℕ, IfOk};
ghost use Rattle.ival_core.specs.Widenings.{AreMarks};
ghost use Rattle.cell_instances.specs.Growing.{grown, grown_laws, marks_prop};

use avalue::{Cellv, Mem, Sizes};
use run_merges::widen::Widens;
use std::alloc::Global;

/// Bounds go on to these marks, to the ends of the numbers that an element's bits hold, and into a base to its end.
#[derive(Drop)]
pub struct Growing<'a, S> {
    pub sizes: &'a S,
    pub marks: &'a [i128],
    pub ghost are_marks: { AreMarks marks.now } by { marks_prop marks.now },
}

impl<'a, S: Sizes> Widens<Cellv> for Growing<'a, S> {
    ghost widened = { λ w. grown (S.size_of w.sizes.now) w.marks.now };

    fn widen(&self, alloc: Global, bits: u64, first: &Cellv, second: &Cellv) -> Mem<Cellv> {
        first.widen_in(alloc, bits as u32, second, self.sizes, self.marks)
    }

    ghost laws = { λ w. grown_laws (S.size_of w.sizes.now) w.marks.now w.are_marks };
}
