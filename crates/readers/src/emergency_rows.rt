// Rows of emergency energy, on the submitted curves of a directory.
ghost use Rattle.std.specs.Prelude.{◌≡◌};
ghost use Rattle.std.specs.Option.{option_copied, option_map};
ghost use Rattle.curves.specs.Curves.{points_of};
ghost use Rattle.quarters.specs.Quarters.{slices_of};
ghost use Rattle.readers.specs.Emergency.{submitted_for, points_for, payment_of, fault_at, emergency_line, emergency_basis};
ghost use Rattle.readers.specs.EmergencyLaws.{emergency_ranged};
ghost use Rattle.readers.specs.Lines.{line_from, basis_from};

use crate::worked::WorkedRow;
use charges::fault::{Cause, Fault};
use charges::reader::{BasisReader, Reader};
use curves::curve::Curve;
use curves::keys::CurveKey;
use curves::points::SubmittedCurve;
use directory::lookup::Directory;
use emergency::payment::Payment;
use emergency::row::{EmergencyRow, RowFault};
use quarters::quarter::QuarterHour;

// Emergency rows of one quarter hour.
#[derive(Clone, Copy)]
pub struct EmergencyReader<'a> {
    pub curves: Directory<'a, SubmittedCurve>,
    pub quarter: QuarterHour,
}

// The fault of line n.
fn fault_at(n: usize, fault: RowFault) -> Fault
    ensures { result ≡ fault_at n fault }
{
    match fault {
        RowFault::Outside(field) => Fault::in_source(Cause::FieldOutside, n, field),
        RowFault::NoCurve => Fault::in_source(Cause::NoCurve, n, 0),
    }
}

// The row as line n, from what it is paid.
fn line_of(
    n: usize,
    row: &EmergencyRow,
    payment: Result<Payment, RowFault>,
) -> Result<(u16, u8, i64), Fault>
    ensures { result ≡ line_from (λ paid. paid.amount) (fault_at n) row.now.resource row.now.party payment }
{
    let payment = payment.map_err(|fault| fault_at(n, fault))?;
    Ok((row.resource, row.party, payment.amount))
}

// The kWh that the row rests on, from what it is paid.
fn basis_of(payment: Result<Payment, RowFault>) -> u32
    ensures { result ≡ basis_from (λ paid. paid.basis) payment }
{
    payment.map_or(0, |payment| payment.basis)
}

impl<'a> EmergencyReader<'a> {
    // The submitted curve of a resource and hour, if there is one.
    #[tactic(auto, using(crate::proofs::Lookups::looked_up))]
    pub fn submitted(&self, resource: u16, hour: u8) -> Option<&'a SubmittedCurve>
        ensures { option_copied result ≡ submitted_for self.now.curves.records.now resource hour }
    {
        let place = self.curves.find(&CurveKey { resource, hour })?;
        Some(&self.curves.records()[place - 1])
    }

    // Its curve, if its checks accept it.
    pub fn curve(&self, resource: u16, hour: u8) -> Option<Curve>
        ensures { option_map points_of result ≡ points_for self.now.curves.records.now resource hour }
    {
        self.submitted(resource, hour)?.complete().ok()
    }

    // What a row is paid, with the steps to it; or why it is paid nothing.
    #[tactic(auto, unfolding(crate::specs::Emergency::payment_of))]
    pub fn payment(&self, row: &EmergencyRow) -> Result<Payment, RowFault>
        ensures { result ≡ payment_of (slices_of self.now.quarter) self.now.curves.records.now row.now }
    {
        let fitting = row.fitting(&self.quarter)?;
        let curve = self.curve(row.resource, row.hour).ok_or(RowFault::NoCurve)?;
        Ok(fitting.payment_on(&curve))
    }

    // The row as line n, worked out.
    pub fn worked(&self, n: usize, row: &EmergencyRow) -> WorkedRow
        ensures line { result.line ≡ emergency_line (slices_of self.now.quarter) self.now.curves.records.now n row.now }
        ensures basis { result.basis ≡ emergency_basis (slices_of self.now.quarter) self.now.curves.records.now row.now }
    {
        let payment = self.payment(row);
        WorkedRow {
            line: line_of(n, row, payment),
            basis: basis_of(payment),
        }
    }
}

impl<'a> Reader<EmergencyRow> for EmergencyReader<'a> {
    ghost line_of = { λ s n row. emergency_line (slices_of s.quarter) s.curves.records.now n row };

    ghost ranged = { λ s n row. emergency_ranged s.quarter s.curves.records.now n row };

    fn read(&self, n: usize, row: &EmergencyRow) -> Result<(u16, u8, i64), Fault> {
        line_of(n, row, self.payment(row))
    }
}

impl<'a> BasisReader<EmergencyRow> for EmergencyReader<'a> {
    ghost basis_by = { λ s n row. emergency_basis (slices_of s.quarter) s.curves.records.now row };

    #[tactic(auto, using(crate::specs::EmergencyLaws::emergency_based))]
    fn rest(&self, n: usize, row: &EmergencyRow) -> u32 {
        basis_of(self.payment(row))
    }
}
