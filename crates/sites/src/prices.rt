// Bus prices, and the amount that a site comes to.
ghost use Rattle.std.specs.Prelude.{◌≡◌, ℕ, ◌<◌, ◌≤◌, false, ◌*◌, pos, ◌*ℤ◌, unsigned_abs};
ghost use Rattle.quarters.specs.Quarters.{slices_of};
ghost use Rattle.sites.specs.Refusals.{GoodCounts, bus_strays, site_strays, slice_count};
ghost use Rattle.sites.specs.Sites.{full_price, weighed_price, average_price, bus_price, energy_of, thousandths, worth, amount_of};

use crate::limits::LEAST_BUS_PRICE;
use crate::site::{Bus, Site};
use numbers::{product, weighed};
use quarters::limits::SECONDS;
use rounding::nearest;

impl Site<'_> {
    // The price of a bus in a slice, with both adders.
    fn full_price(&self, bus: &Bus, slice: usize) -> i32
        requires within { slice < slice_count self.now }
        requires inside { site_strays self.now ≡ false }
        requires bus { bus_strays (slice_count self.now) bus.now ≡ false }
        ensures value { result ≡ full_price self.now.adders.now bus.now slice }
        ensures small { unsigned_abs result ≤ 3000000 }
    {
        bus.prices[slice] + self.adders.first[slice] + self.adders.second[slice]
    }

    // The seconds of a slice × (price + adders).
    #[tactic(auto, using(crate::proofs::Totals::scaled_small))]
    fn slice_price(&self, bus: &Bus, slice: usize, seconds: u16) -> i64
        requires within { slice < slice_count self.now }
        requires inside { site_strays self.now ≡ false }
        requires bus { bus_strays (slice_count self.now) bus.now ≡ false }
        ensures value { result ≡ full_price self.now.adders.now bus.now slice *ℤ pos seconds }
        ensures small { unsigned_abs result ≤ 3000000 * seconds }
    {
        weighed(self.full_price(bus, slice), u32::from(seconds))
    }

    // The sum over the slices of seconds × (price + adders).
    #[tactic(auto, using(crate::proofs::Totals::within_hour))]
    fn weighed_price(&self, bus: &Bus) -> i64
        requires inside { site_strays self.now ≡ false }
        requires bus { bus_strays (slice_count self.now) bus.now ≡ false }
        ensures value { result ≡ weighed_price (slices_of self.now.quarter.now) self.now.adders.now bus.now }
        ensures small { unsigned_abs result ≤ 2700000000 }
    {
        let mut total = 0;
        for (slice, seconds) in self.quarter.slices().iter().enumerate() {
            total += self.slice_price(bus, slice, *seconds);
        }
        total
    }

    // The price of a bus over the quarter hour.
    #[tactic(auto, using(rounding::proofs::Laws::nearest_within))]
    fn average_price(&self, bus: &Bus) -> i64
        requires inside { site_strays self.now ≡ false }
        requires bus { bus_strays (slice_count self.now) bus.now ≡ false }
        ensures value { result ≡ average_price (slices_of self.now.quarter.now) self.now.adders.now bus.now }
        ensures small { unsigned_abs result ≤ 3000000 }
    {
        nearest(self.weighed_price(bus), u64::from(SECONDS))
    }

    // What the bus is settled at: no less than the floor.
    #[tactic(auto, unfolding(crate::specs::Sites::bus_price))]
    fn bus_price(&self, bus: &Bus) -> i64
        requires inside { site_strays self.now ≡ false }
        requires bus { bus_strays (slice_count self.now) bus.now ≡ false }
        ensures value { result ≡ bus_price (slices_of self.now.quarter.now) self.now.adders.now bus.now }
        ensures small { unsigned_abs result ≤ 3000000 }
    {
        self.average_price(bus).max(LEAST_BUS_PRICE)
    }

    // The price of a bus × its energy, in thousandths of a cent.
    fn bus_worth(&self, bus: &Bus) -> i64
        requires inside { site_strays self.now ≡ false }
        requires bus { bus_strays (slice_count self.now) bus.now ≡ false }
        ensures value { result ≡ bus_price (slices_of self.now.quarter.now) self.now.adders.now bus.now *ℤ bus.now.energy }
        ensures small { unsigned_abs result ≤ 30000000000 }
    {
        product(self.bus_price(bus), i64::from(bus.energy))
    }

    // The sum of what the buses are worth, in thousandths of a cent.
    fn thousandths(&self) -> i64
        requires counts { GoodCounts self.now }
        requires inside { site_strays self.now ≡ false }
        ensures value { result ≡ thousandths (slices_of self.now.quarter.now) self.now.adders.now self.now.buses.now }
        ensures small { unsigned_abs result ≤ 240000000000 }
    {
        let mut total = 0;
        for bus in self.buses {
            total += self.bus_worth(bus);
        }
        total
    }

    // The same in cents.
    #[tactic(auto, using(rounding::proofs::Laws::nearest_within))]
    fn worth(&self) -> i64
        requires counts { GoodCounts self.now }
        requires inside { site_strays self.now ≡ false }
        ensures value { result ≡ worth (slices_of self.now.quarter.now) self.now.adders.now self.now.buses.now }
        ensures small { unsigned_abs result ≤ 240000000 }
    {
        nearest(self.thousandths(), 1000)
    }

    // The sum of the energies.
    fn energy(&self) -> i64
        requires { GoodCounts self.now }
        ensures { result ≡ energy_of self.now.buses.now }
    {
        let mut total = 0;
        for bus in self.buses {
            total += i64::from(bus.energy);
        }
        total
    }

    // The site's amount.
    #[tactic(auto, unfolding(crate::specs::Sites::site_amount))]
    pub(crate) fn amount(&self) -> i64
        requires counts { GoodCounts self.now }
        requires inside { site_strays self.now ≡ false }
        ensures value { result ≡ amount_of self.now }
        ensures small { unsigned_abs result ≤ 240000000 }
    {
        if self.energy() > 0 { -self.worth() } else { 0 }
    }
}
