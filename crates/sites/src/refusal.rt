// Why a site is refused.
ghost use Rattle.sites.specs.Refusals.{number_of, place_of};

use numbers::numbered::Numbered;

#[derive(Clone, Copy, PartialEq, Eq, Debug)]
pub enum SiteRefusal {
    // there are not 1 to 8 buses, or not 1 to 8 units
    Counts,
    // a value or a resource is outside its limits
    ValueOutside,
    // the readings add up to 0
    NoReading,
    // the list has fewer rows than the site has units
    ListTooShort,
}

impl Numbered for SiteRefusal {
    ghost numbered = { number_of };

    ghost placed = { place_of };

    fn number(&self) -> u8 {
        match self {
            SiteRefusal::Counts => 51,
            SiteRefusal::ValueOutside => 52,
            SiteRefusal::NoReading => 53,
            SiteRefusal::ListTooShort => 54,
        }
    }

    // None is told.
    fn place(&self) -> usize {
        match self {
            SiteRefusal::Counts
            | SiteRefusal::ValueOutside
            | SiteRefusal::NoReading
            | SiteRefusal::ListTooShort => 0,
        }
    }
}
