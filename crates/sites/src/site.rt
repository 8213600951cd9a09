// A small generation site in a quarter hour.
ghost use Rattle.std.specs.Prelude.{◌≡◌, ◌≤◌, length, MatchResult, IfOk, OnOk, unsigned_abs};
ghost use Rattle.numbers.specs.Checks.{Answered, Unambiguous};
ghost use Rattle.sites.specs.Refusals.{checks, number_of, place_of};
ghost use Rattle.sites.specs.Sites.{amount_of, readings, written, Accepted};

use crate::refusal::SiteRefusal;
use charges::listed::ListedRow;
use quarters::limits::MOST_SLICES;
use quarters::quarter::QuarterHour;
use sharing::rule::SharingRule;

// A bus of the site.
#[derive(Clone, Copy, PartialEq, Eq, Debug)]
pub struct Bus {
    // in kWh
    pub energy: i32,
    // a price for each slice, in cents per MWh; what lies past the slices does not count
    pub prices: [i32; MOST_SLICES],
}

// The two adders for each slice, in cents per MWh; what lies past the slices does not count.
#[derive(Clone, Copy, PartialEq, Eq, Debug)]
pub struct Adders {
    pub first: [i32; MOST_SLICES],
    pub second: [i32; MOST_SLICES],
}

// A resource of the site, with its party and its telemetry reading.
#[derive(Clone, Copy, PartialEq, Eq, Debug)]
pub struct SiteUnit {
    pub resource: u16,
    pub party: u8,
    pub reading: u32,
}

// A site as it is handed in, of which nothing is promised.
#[derive(Clone, Copy)]
pub struct Site<'a> {
    pub quarter: &'a QuarterHour,
    pub buses: &'a [Bus],
    pub adders: &'a Adders,
    pub units: &'a [SiteUnit],
}

impl Site<'_> {
    // The site's amount in cents, negative where the parties receive it. The first rows of the list then tell each unit's share of it.
    pub fn settle<R: SharingRule>(
        &self,
        rule: &R,
        rows: &mut [ListedRow],
    ) -> Result<i64, SiteRefusal>
        ensures answer { Answered (checks self.now (length rows.old)) number_of place_of (λ amount. amount ≡ amount_of self.now) result }
        ensures small { IfOk result (λ amount. unsigned_abs amount ≤ 240000000) }
        ensures once { Unambiguous (checks self.now (length rows.old)) }
        ensures rows { MatchResult result (λ amount. rows.new ≡ written self.now.units.now (R.SharingRule.meaning rule.now amount (readings self.now.units.now)) rows.old) (λ _. rows.new ≡ rows.old) }
        ensures accepted { OnOk result (Accepted (length self.now.units.now) rows.new) }
    {
        self.check(rows.len())?;
        let amount = self.amount();
        self.split(rule, amount, rows);
        Ok(amount)
    }
}
