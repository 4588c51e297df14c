//! What cells of values mean.

use avalue::Cellv;
use offmap_laws::concrete::Concrete;

/// The bits of memory that cells allow, in each layout.
pub struct InLayouts;

impl Concrete<Cellv> for InLayouts {
    ghost use Rattle.c_memory.specs.Values.{Cell};
    ghost use Rattle.c_memory.specs.Layouts.{Layout};
    ghost use Rattle.avalue_base.specs.Meaning.{Allows, Gives, Tint, Bare, Sure};
    ghost use Rattle.avalue_base.specs.Singles.{SameCell};
    ghost use Rattle.cell_contents.specs.Reading.{Bound, Reads};
    ghost use Rattle.cell_contents.proofs.Worlds.{world_meaning, world_access};

    ghost World = { Layout };

    ghost Bit = { Cell };

    ghost tint = { Tint };

    ghost bare = { Bare };

    ghost sure = { Sure };

    ghost bound = { Bound };

    ghost reads = { Reads };

    ghost alike = { SameCell };

    ghost allows = { Allows };

    ghost gives = { Gives };

    ghost meaning_laws = { world_meaning };

    ghost access_laws = { world_access };
}
