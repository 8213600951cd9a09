// A firm's rule that borrows the firm's own data: leftover in the months of its calendar, running in the others.
ghost use Rattle.std.specs.Prelude.{◌≡◌};
ghost use Rattle.outside.specs.Seasons.{listed, seasonal as seasonal_shares, seasonal_fair};

use sharing::leftover::Leftover;
use sharing::rule::SharingRule;
use sharing::running::Running;

#[derive(Clone, Copy, PartialEq, Eq, Debug)]
pub struct Seasonal<'a> {
    pub months: &'a [u8],
    pub month: u8,
}

// Whether the month is one of the calendar's.
fn is_listed(months: &[u8], month: u8) -> bool
    ensures { result ≡ listed months.now month }
{
    months.contains(&month)
}

impl<'a> SharingRule for Seasonal<'a> {
    ghost meaning = { λ rule total loads. seasonal_shares (listed rule.months.now rule.month) total loads };

    ghost fair = { λ rule total loads asked. seasonal_fair (listed rule.months.now rule.month) total loads asked };

    fn share(&self, total: i64, loads: &[u32], shares: &mut [i64]) {
        if is_listed(self.months, self.month) {
            Leftover.share(total, loads, shares);
        } else {
            Running.share(total, loads, shares);
        }
    }
}
