// The checks of a site, in order, each over its whole list.
ghost use Rattle.std.specs.Prelude.{◌≡◌, ℕ, ◌≤◌, Decides};
ghost use Rattle.numbers.specs.Checks.{Answered};
ghost use Rattle.numbers.specs.Ranges.{outside, strays};
ghost use Rattle.sites.specs.Refusals.{GoodCounts, bus_strays, buses_stray, adders_stray, unit_strays, units_stray, site_strays, slice_count, checks, number_of, place_of};

use crate::limits::{
    LEAST_PRICE, MOST_ADDER, MOST_BUSES, MOST_ENERGY, MOST_PRICE, MOST_READING, MOST_UNITS,
};
use crate::refusal::SiteRefusal;
use crate::site::{Adders, Bus, Site, SiteUnit};
use crate::split::readings;
use charges::limits::LAST_RESOURCE;
use sharing::loads::total_load;

// Whether a figure is below or above its limits.
fn is_outside(low: i32, high: i32, figure: i32) -> bool
    ensures { result ≡ outside low high figure }
{
    !(low..=high).contains(&figure)
}

// Whether some figure is.
fn strays(low: i32, high: i32, figures: &[i32]) -> bool
    ensures { result ≡ strays low high figures.now }
{
    figures.iter().any(|figure| is_outside(low, high, *figure))
}

impl Bus {
    // Whether the energy, or the price of one of the first slices, is outside its limits.
    fn strays(&self, slices: usize) -> bool
        requires { slices ≤ 15 }
        ensures { result ≡ bus_strays slices self.now }
    {
        is_outside(-MOST_ENERGY, MOST_ENERGY, self.energy)
            || strays(LEAST_PRICE, MOST_PRICE, &self.prices[..slices])
    }
}

impl Adders {
    // Whether an adder of one of the first slices is outside its limits.
    fn stray(&self, slices: usize) -> bool
        requires { slices ≤ 15 }
        ensures { result ≡ adders_stray slices self.now }
    {
        strays(0, MOST_ADDER, &self.first[..slices])
            || strays(0, MOST_ADDER, &self.second[..slices])
    }
}

impl SiteUnit {
    // Whether the resource or the reading is outside its limits.
    fn strays(&self) -> bool
        ensures { result ≡ unit_strays self.now }
    {
        !(1..=LAST_RESOURCE).contains(&self.resource) || self.reading > MOST_READING
    }
}

impl Site<'_> {
    // Whether there are 1 to 8 buses and 1 to 8 units.
    fn is_counted(&self) -> bool
        ensures { Decides result (GoodCounts self.now) }
    {
        (1..=MOST_BUSES).contains(&self.buses.len()) && (1..=MOST_UNITS).contains(&self.units.len())
    }

    // Whether some bus's energy or price is outside its limits.
    fn buses_stray(&self) -> bool
        ensures { result ≡ buses_stray (slice_count self.now) self.now.buses.now }
    {
        let slices = self.quarter.slices().len();
        self.buses.iter().any(|bus| bus.strays(slices))
    }

    // Whether some unit's resource or reading is.
    fn units_stray(&self) -> bool
        ensures { result ≡ units_stray self.now.units.now }
    {
        self.units.iter().any(|unit| unit.strays())
    }

    // Whether some value or resource is outside its limits.
    fn strays(&self) -> bool
        ensures { result ≡ site_strays self.now }
    {
        self.buses_stray() || self.adders.stray(self.quarter.slices().len()) || self.units_stray()
    }

    // Whether the site may be settled into a list of so many rows.
    pub(crate) fn check(&self, room: usize) -> Result<(), SiteRefusal>
        ensures { Answered (checks self.now room) number_of place_of (λ _. Unit {0}) result }
    {
        if !self.is_counted() {
            return Err(SiteRefusal::Counts);
        }
        if self.strays() {
            return Err(SiteRefusal::ValueOutside);
        }
        if total_load(readings(self.units).as_slice()) == 0 {
            return Err(SiteRefusal::NoReading);
        }
        if room < self.units.len() {
            return Err(SiteRefusal::ListTooShort);
        }
        Ok(())
    }
}
