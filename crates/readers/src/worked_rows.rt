// Rows that are worked out as lines of a source: each tells what it came to.
ghost use Rattle.readers.specs.Worked.{worked_ranged, worked_based};

use crate::worked::WorkedRow;
use charges::fault::Fault;
use charges::reader::{BasisReader, Reader};

// The reader of rows that are worked out.
#[derive(Clone, Copy, PartialEq, Eq, Debug)]
pub struct WorkedReader;

impl Reader<WorkedRow> for WorkedReader {
    ghost line_of = { λ _ _ worked. worked.line };

    ghost ranged = { λ _ _ worked. worked_ranged worked.line worked.ranged };

    fn read(&self, _n: usize, row: &WorkedRow) -> Result<(u16, u8, i64), Fault> {
        row.line
    }
}

impl BasisReader<WorkedRow> for WorkedReader {
    ghost basis_by = { λ _ _ worked. worked.basis };

    #[tactic(auto, using(crate::specs::Worked::worked_based))]
    fn rest(&self, _n: usize, row: &WorkedRow) -> u32 {
        row.basis
    }
}
