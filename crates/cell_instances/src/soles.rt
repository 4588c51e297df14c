//! Cells of values that hold one number, one address with one offset, or one flag.

use crate::meaning::InLayouts;
use avalue::Cellv;
use exact_laws::sole::Sole;

/// Operations on maps of such cells keep their one content: the laws of `exact_laws`, for cells of values.
pub struct OneAlone;

impl Sole<Cellv, InLayouts> for OneAlone {
    ghost use Rattle.cell_contents.specs.Soles.{is_sole, is_rigid, is_settled};
    ghost use Rattle.cell_contents.proofs.Soles.{sole_laws};
    ghost use Rattle.cell_contents.proofs.Reading.{read_laws};

    ghost sole = { is_sole };

    ghost rigid = { is_rigid };

    ghost settled = { is_settled };

    ghost sole_laws = { sole_laws };

    ghost read_laws = { read_laws };
}
