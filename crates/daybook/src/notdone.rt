// Why a record is not done.
ghost use Rattle.std.specs.Prelude.{◌≡◌, None};
ghost use Rattle.charges.specs.Energy as energies;
ghost use Rattle.charges.specs.Refusals as settings;
ghost use Rattle.daybook.specs.declared.notdone.NotDone.TheVariants.{Refused, Memory};
ghost use Rattle.daybook.specs.Told.{told, told_of, read_fault};
ghost use Rattle.directory.specs.Refusals as directories;
ghost use Rattle.quarters.specs.Quarters as quarters;
ghost use Rattle.sites.specs.Refusals as sites;

use assess::refusals::Refusal;
use charges::energy::EnergyRefusal;
use charges::fault::Fault;
use charges::setting::SettingRefusal;
use directory::lookup::DirectoryRefusal;
use numbers::numbered::Numbered;
use quarters::quarter::make::QuarterRefusal;
use sites::refusal::SiteRefusal;
use std::alloc::{AllocError, AllocFailed};
use std::fmt;
use text::fields::Fault as FieldFault;

// A refusal: its number and place, and of a faulty line the fault.
#[derive(Clone, Copy, PartialEq, Eq, Debug)]
pub struct Refused {
    pub number: u8,
    pub place: usize,
    pub fault: Option<Fault>,
}

impl Refused {
    // A refusal that is told by its number and place alone.
    fn of<R: Numbered>(refusal: &R) -> Refused
        ensures number { result.number ≡ R.Numbered.numbered refusal.now }
        ensures place { result.place ≡ R.Numbered.placed refusal.now }
        ensures fault { result.fault ≡ None }
    {
        Refused {
            number: refusal.number(),
            place: refusal.place(),
            fault: None,
        }
    }
}

impl fmt::Display for Refused {
    fn fmt<W: fmt::Write>(&self, f: &mut fmt::Formatter<W>) -> fmt::Result {
        write!(f, "refused {} at {}", self.number, self.place)?;
        match self.fault {
            Some(fault) => write!(
                f,
                ", fault {} line {} field {} layer {}",
                fault.cause.number(),
                fault.line,
                fault.field,
                fault.layer.kind()
            ),
            None => Ok(()),
        }
    }
}

#[derive(Clone, Copy, PartialEq, Eq, Debug)]
pub enum NotDone {
    // the first field that is wrong; 0 for the record as a whole
    // Kept: 0 for the whole record, as it is told.
    Malformed(u32),
    Refused(Refused),
    Memory,
}

impl From<FieldFault> for NotDone {
    ghost from_gives = { λ fault r. r ≡ read_fault fault };

    fn from(fault: FieldFault) -> NotDone {
        match fault {
            FieldFault::Malformed(field) => NotDone::Malformed(field),
            FieldFault::Memory => NotDone::Memory,
        }
    }
}

impl From<Refused> for NotDone {
    ghost from_gives = { λ refused r. r ≡ Refused refused };

    fn from(refused: Refused) -> NotDone {
        NotDone::Refused(refused)
    }
}

// A book's refusal is told with the fault of the line, if it is for one.
impl From<Refusal> for Refused {
    ghost from_gives = { λ refusal refused. refused ≡ told_of refusal };

    fn from(refusal: Refusal) -> Refused {
        let mut refused = Refused::of(&refusal);
        if let Refusal::Faulty { fault, .. } = refusal {
            refused.fault = Some(fault);
        }
        refused
    }
}

impl From<Refusal> for NotDone {
    ghost from_gives = { λ refusal r. r ≡ Refused (told_of refusal) };

    fn from(refusal: Refusal) -> NotDone {
        NotDone::Refused(Refused::from(refusal))
    }
}

impl From<DirectoryRefusal> for Refused {
    ghost from_gives = { λ refusal r. r ≡ told (directories.number_of refusal) (directories.place_of refusal) };

    fn from(refusal: DirectoryRefusal) -> Refused {
        Refused::of(&refusal)
    }
}

impl From<QuarterRefusal> for NotDone {
    ghost from_gives = { λ refusal r. r ≡ Refused (told (quarters.number_of refusal) (quarters.place_of refusal)) };

    fn from(refusal: QuarterRefusal) -> NotDone {
        NotDone::Refused(Refused::of(&refusal))
    }
}

impl From<SettingRefusal> for NotDone {
    ghost from_gives = { λ refusal r. r ≡ Refused (told (settings.number_of refusal) (settings.place_of refusal)) };

    fn from(refusal: SettingRefusal) -> NotDone {
        NotDone::Refused(Refused::of(&refusal))
    }
}

impl From<EnergyRefusal> for NotDone {
    ghost from_gives = { λ refusal r. r ≡ Refused (told (energies.number_of refusal) (energies.place_of refusal)) };

    fn from(refusal: EnergyRefusal) -> NotDone {
        NotDone::Refused(Refused::of(&refusal))
    }
}

impl From<SiteRefusal> for NotDone {
    ghost from_gives = { λ refusal r. r ≡ Refused (told (sites.number_of refusal) (sites.place_of refusal)) };

    fn from(refusal: SiteRefusal) -> NotDone {
        NotDone::Refused(Refused::of(&refusal))
    }
}

impl From<AllocError> for NotDone {
    ghost from_gives = { λ _ r. r ≡ Memory };

    fn from(_e: AllocError) -> NotDone {
        Self::Memory
    }
}

impl<T: Drop> From<AllocFailed<T>> for NotDone {
    ghost from_gives = { λ _ r. r ≡ Memory };

    fn from(_e: AllocFailed<T>) -> NotDone {
        NotDone::Memory
    }
}
