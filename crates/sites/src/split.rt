// How a site's amount is split over its units.
ghost use Rattle.std.specs.Prelude.{◌≡◌, ◌<◌, ◌≤◌, false, length, sum, unsigned_abs};
ghost use Rattle.numbers.specs.Ranges.{Small};
ghost use Rattle.bounded.specs.Items.{items_of};
ghost use Rattle.sites.specs.Refusals.{GoodCounts, site_strays};
ghost use Rattle.sites.specs.Sites.{readings, written, Accepted};

use crate::limits::MOST_UNITS;
use crate::site::{Site, SiteUnit};
use bounded::list::BoundedList;
use charges::listed::ListedRow;
use sharing::rule::{SharingRule, share_out};

// The readings of a few units.
pub(crate) fn readings(units: &[SiteUnit]) -> BoundedList<u32, MOST_UNITS>
    requires { length units.now ≤ 8 }
    ensures { items_of result ≡ readings units.now }
{
    let mut readings = BoundedList::new(0);
    for unit in units {
        readings.push(unit.reading);
    }
    readings
}

// Writes a row for each unit, with its share.
fn write_rows(units: &[SiteUnit], shares: &[i64], rows: &mut [ListedRow])
    requires many { length shares.now ≡ length units.now }
    requires small { Small 3000000000 (length units.now) shares.now }
    requires room { length units.now ≤ length rows.old }
    ensures { rows.new ≡ written units.now shares.now rows.old }
{
    // Kept: a row is written by its place, since what a zip over the rows has written is not known after it.
    for (place, unit) in units.iter().enumerate() {
        rows[place] = ListedRow {
            resource: unit.resource,
            party: unit.party,
            amount: shares[place],
        };
    }
}

impl Site<'_> {
    // Splits an amount over the units by their readings, into the first rows of the list.
    pub(crate) fn split<R: SharingRule>(&self, rule: &R, amount: i64, rows: &mut [ListedRow])
        requires small { unsigned_abs amount ≤ 3000000000 }
        requires counts { GoodCounts self.now }
        requires inside { site_strays self.now ≡ false }
        requires loaded { 0 < sum (readings self.now.units.now) }
        requires room { length self.now.units.now ≤ length rows.old }
        ensures rows { rows.new ≡ written self.now.units.now (R.SharingRule.meaning rule.now amount (readings self.now.units.now)) rows.old }
        ensures accepted { Accepted (length self.now.units.now) rows.new }
    {
        let readings = readings(self.units);
        let mut shares = [0; MOST_UNITS];
        let shares = &mut shares[..self.units.len()];
        share_out(rule, amount, readings.as_slice(), shares);
        write_rows(self.units, shares, rows);
    }
}
