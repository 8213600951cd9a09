// What is gathered before the first call, and what the book is opened with.
ghost use Rattle.std.specs.Prelude.{◌≡◌, ◌*◌, length, min, OnOk, OnErr};
ghost use Rattle.daybook.specs.Enrolments.{Same, Enrols, Grows};
ghost use Rattle.daybook.specs.Verdicts.{curve_checks, directory_checks};
ghost use Rattle.directory.specs.Refusals.{number_of, place_of};
ghost use Rattle.numbers.specs.Checks.{Answered};

use curves::keys::submitted_curves;
use curves::points::SubmittedCurve;
use day::records::Enrolment;
use day::roll::Roll;
use directory::lookup::{Directory, DirectoryRefusal};
use directory::parties::{PartyCode, parties};
use std::alloc::{AllocError, Global};

#[derive(Drop)]
pub struct Enrolled {
    pub parties: Roll,
    pub intervals: u32,
    pub curves: Vec<SubmittedCurve>,
}

impl Enrolled {
    pub fn new(heap: Global) -> Enrolled {
        Enrolled {
            parties: Roll::new(heap),
            intervals: 0,
            curves: Vec::new(heap),
        }
    }

    // Does a record; one for which there is no memory changes nothing.
    pub fn add(&mut self, heap: Global, enrolment: Enrolment<'_>) -> Result<(), AllocError>
        ensures done { OnOk result (Enrols enrolment.entry self.old self.new) }
        ensures unchanged { OnErr result (Grows enrolment.entry × Same self.old self.new) }
    {
        match enrolment {
            Enrolment::Party(code) => self.parties.enrol(heap, code)?,
            Enrolment::Intervals(count) => self.intervals = count,
            Enrolment::Curve(row) => self.curves.push(row)?,
        }
        Ok(())
    }

    // The number of intervals as the book takes it.
    pub fn intervals(&self) -> usize
        ensures { result ≡ self.now.intervals }
    {
        usize::try_from(self.intervals).unwrap_or(usize::MAX)
    }

    // How many slots the book is lent, and how many entries: as many as it needs, and no more than the largest book.
    pub fn slots(&self) -> usize
        ensures { result ≡ 3 * min self.now.intervals 100 }
    {
        3 * self.intervals().min(100)
    }

    pub fn entries(&self) -> usize
        ensures { result ≡ 3 * min self.now.intervals 100 * min (length self.now.parties) 64 }
    {
        self.slots() * self.parties.count().min(64)
    }

    // The directory of the curves, if they pass their checks. No curves at all are no refusal.
    fn curve_directory(&self) -> Result<Directory<'_, SubmittedCurve>, DirectoryRefusal>
        ensures { Answered (curve_checks self.now.curves.items) number_of place_of (λ directory. directory.records.now ≡ self.now.curves.items) result }
    {
        if self.curves.is_empty() {
            return Ok(Directory::empty());
        }
        submitted_curves(self.curves.as_slice())
    }

    // The same, once the parties' codes pass theirs.
    #[tactic(auto, using(crate::proofs::Verdicts::passed_both, crate::proofs::Verdicts::refused_first, crate::proofs::Verdicts::refused_next))]
    pub fn directory(
        &self,
        codes: &[PartyCode],
    ) -> Result<Directory<'_, SubmittedCurve>, DirectoryRefusal>
        ensures { Answered (directory_checks codes.now self.now.curves.items) number_of place_of (λ directory. directory.records.now ≡ self.now.curves.items) result }
    {
        parties(codes)?;
        self.curve_directory()
    }
}
