// The limits of a row's fields.
ghost use Rattle.std.specs.Prelude.{◌≡◌, length, pos, negsuc, IfOk, MatchResult};
ghost use Rattle.quarters.specs.Quarters.{slices_of};
ghost use Rattle.numbers.specs.Ranges.{strays as is_straying};
ghost use Rattle.emergency.specs.Fields.{bad_field};

use crate::fitting::FittingRow;
use crate::row::{EmergencyRow, Field};
use quarters::quarter::QuarterHour;

// Whether some base point is outside its limits.
fn strays(bases: &[i32]) -> bool
    ensures { result ≡ is_straying (negsuc 1999999) (pos 2000000) bases.now }
{
    bases
        .iter()
        .any(|base| !(-2_000_000..=2_000_000).contains(base))
}

impl EmergencyRow {
    // That each field is in its limits, or the first one that is not.
    #[tactic(auto, unfolding(crate::specs::Fields::bad_field))]
    fn check_fields(&self, quarter: &QuarterHour) -> Result<(), Field>
        ensures { MatchResult result (λ _. bad_field (length (slices_of quarter.now)) self.now ≡ None) (λ field. bad_field (length (slices_of quarter.now)) self.now ≡ Some field) }
    {
        if !(1..=9_999).contains(&self.resource) {
            return Err(Field::Resource);
        }
        if !(-100_000..=1_000_000).contains(&self.spp) {
            return Err(Field::SettlementPointPrice);
        }
        if self.generation > 500_000 {
            return Err(Field::Generation);
        }
        if !(-500_000..=0).contains(&self.charging) {
            return Err(Field::Charging);
        }
        if strays(&self.bases[..quarter.slices().len()]) {
            return Err(Field::BasePoint);
        }
        if !(1..=25).contains(&self.hour) {
            return Err(Field::Hour);
        }
        if !(0..=1_000_000).contains(&self.cap) {
            return Err(Field::Cap);
        }
        Ok(())
    }

    // The row with its quarter hour, if each field is in its limits; else the first field that is not.
    #[tactic(auto, using(crate::proofs::Limits::fitting))]
    pub fn fitting<'a>(&'a self, quarter: &'a QuarterHour) -> Result<FittingRow<'a>, Field>
        ensures test { MatchResult result (λ _. bad_field (length (slices_of quarter.now)) self.now ≡ None) (λ field. bad_field (length (slices_of quarter.now)) self.now ≡ Some field) }
        ensures same { IfOk result (λ fitting. (fitting.row.now ≡ self.now) × (fitting.quarter.now ≡ quarter.now)) }
    {
        self.check_fields(quarter)?;
        Ok(FittingRow { row: self, quarter })
    }
}
