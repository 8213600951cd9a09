// How rows are worked out, and the lines that they come to.
ghost use Rattle.std.specs.Prelude.{◌≡◌, Decides, IfOk, OnOk, map};
ghost use Rattle.charges.specs.Rows.{numbered};
ghost use Rattle.daybook.specs.Worked.{WorkedOut};
ghost use Rattle.quarters.specs.Quarters.{slices_of};
ghost use Rattle.readers.specs.Emergency.{emergency_line, emergency_basis};

use crate::worked::WorkedRows;
use charges::rowsource::RowSource;
use curves::points::SubmittedCurve;
use directory::lookup::Directory;
use emergency::row::EmergencyRow;
use quarters::quarter::QuarterHour;
use readers::emergency_rows::EmergencyReader;
use readers::worked::WorkedRow;
use readers::worked_rows::WorkedReader;
use std::alloc::{AllocError, Global};

// Each row as its line, the first as line 1.
fn work_out(
    heap: Global,
    reader: &EmergencyReader<'_>,
    rows: &[EmergencyRow],
) -> Result<Vec<WorkedRow>, AllocError>
    ensures { IfOk result (λ worked. WorkedOut (slices_of reader.now.quarter) reader.now.curves.records.now rows.now worked.items) }
{
    let mut worked = Vec::with_capacity(heap, rows.len())?;
    for (place, row) in rows.iter().enumerate() {
        worked.push(reader.worked(place + 1, row))?;
    }
    Ok(worked)
}

// Whether these are the same rows.
fn same(rows: &[EmergencyRow], others: &[EmergencyRow]) -> bool
    ensures { Decides result (rows.now ≡ others.now) }
{
    rows == others
}

impl<'d> WorkedRows<'d> {
    // No rows yet, on these curves.
    pub fn none(heap: Global, curves: Directory<'d, SubmittedCurve>) -> WorkedRows<'d>
        ensures { result.curves ≡ curves.entry }
    {
        WorkedRows {
            curves,
            quarter: QuarterHour::undivided(),
            rows: Vec::new(heap),
            worked: Vec::new(heap),
        }
    }

    // Works these rows out under these slices, if they are not the ones that were worked out last.
    pub fn renew(
        &mut self,
        heap: Global,
        quarter: &QuarterHour,
        rows: &[EmergencyRow],
    ) -> Result<(), AllocError>
        ensures slices { OnOk result (slices_of self.new.quarter ≡ slices_of quarter.now) }
        ensures rows { OnOk result (self.new.rows.items ≡ rows.now) }
        ensures curves { self.new.curves ≡ self.old.curves }
    {
        if same(self.rows.as_slice(), rows) && self.quarter.slices() == quarter.slices() {
            return Ok(());
        }
        let reader = EmergencyReader {
            curves: self.curves,
            quarter: *quarter,
        };
        let worked = work_out(heap, &reader, rows)?;
        let rows = Vec::from_slice(heap, rows)?;
        *self = WorkedRows {
            curves: self.curves,
            quarter: *quarter,
            rows,
            worked,
        };
        Ok(())
    }

    // The rows as a source: its lines are theirs.
    pub fn source(&self) -> RowSource<'_, WorkedRow, WorkedReader>
        ensures lines { map (λ worked. worked.line) result.rows.now ≡ numbered (emergency_line (slices_of self.now.quarter) self.now.curves.records.now) 1 self.now.rows.items }
        ensures bases { map (λ worked. worked.basis) result.rows.now ≡ map (emergency_basis (slices_of self.now.quarter) self.now.curves.records.now) self.now.rows.items }
    {
        RowSource {
            rows: self.worked.as_slice(),
            reader: WorkedReader,
        }
    }
}
