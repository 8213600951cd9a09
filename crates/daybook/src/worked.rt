// The emergency rows that were worked out last. Each call of the book and of a source's energy asks for the lines of the same rows, so
// that they are worked out once and not for each of them.
ghost use Rattle.std.specs.Prelude.{◌≡◌};
ghost use Rattle.daybook.specs.Worked.{WorkedOut};
ghost use Rattle.quarters.specs.Quarters.{slices_of};

use curves::points::SubmittedCurve;
use directory::lookup::Directory;
use emergency::row::EmergencyRow;
use quarters::quarter::QuarterHour;
use readers::worked::WorkedRow;

pub mod lines;

// Rows under the slices of a quarter hour, on the curves of a directory, and what each came to.
#[derive(Drop)]
pub struct WorkedRows<'d> {
    pub curves: Directory<'d, SubmittedCurve>,
    quarter: QuarterHour,
    rows: Vec<EmergencyRow>,
    worked: Vec<WorkedRow>,
    ghost right: { WorkedOut (slices_of quarter) curves.records.now rows.items worked.items },
}
