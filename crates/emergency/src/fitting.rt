// A row whose fields are all in their limits.
ghost use Rattle.std.specs.Prelude.{length};
ghost use Rattle.quarters.specs.Quarters.{slices_of};
ghost use Rattle.emergency.specs.Fields.{Fitting};

use crate::row::EmergencyRow;
use quarters::quarter::QuarterHour;

// The row, with the quarter hour that its base points are for.
#[derive(Clone, Copy)]
pub struct FittingRow<'a> {
    pub(crate) row: &'a EmergencyRow,
    pub(crate) quarter: &'a QuarterHour,
    ghost fits: { Fitting (length (slices_of quarter.now)) row.now },
}
