// The leftover rule.
ghost use Rattle.std.specs.Prelude.{◌≡◌, ◌<◌, ◌≤◌, ◌&&◌, if◌then◌else◌, sum, nat_lt};
ghost use Rattle.std.specs.List.{AllByRecursion};
ghost use Rattle.sharing.specs.Leftover.{leftover as leftover_shares, missing};
ghost use Rattle.sharing.specs.LeftoverLaws.{leftover_fair};

use crate::loads::total_load;
use crate::rule::SharingRule;
use numbers::with_sign;

// The cents that are missing once each exact share is taken down.
// Kept: the three go together in this function alone; a struct for them would have one caller.
fn missing_cents(magnitude: u64, loads: &[u32], all: u64) -> u64
    requires small { magnitude ≤ 5000000000 }
    requires each { AllByRecursion (λ x. x ≤ 20000000) loads.now }
    requires loaded { 0 < sum loads.now }
    requires sums { all ≡ sum loads.now }
    ensures { result ≡ missing magnitude loads.now }
{
    let mut left = magnitude;
    for load in loads {
        left -= magnitude * u64::from(*load) / all;
    }
    left
}

// A cent for a share that was not whole, while some are left.
fn cent_for(rest: u64, left: u64) -> u64
    ensures { result ≡ (if nat_lt 0 rest && nat_lt 0 left then 1 else 0) }
{
    u64::from(rest > 0 && left > 0)
}

// Each exact share is taken down, and the missing cents go one each to the first whose exact share was not whole.
#[derive(Clone, Copy, PartialEq, Eq, Debug, Default)]
pub struct Leftover;

impl SharingRule for Leftover {
    ghost meaning = { λ _ total loads. leftover_shares total loads };

    ghost fair = { λ _ total loads asked. leftover_fair total loads asked };

    fn share(&self, total: i64, loads: &[u32], shares: &mut [i64]) {
        let magnitude = total.unsigned_abs();
        let all = total_load(loads);
        let mut left = missing_cents(magnitude, loads, all);
        // Kept: a share is written by its place, as in the running rule.
        for (place, load) in loads.iter().enumerate() {
            let exact = magnitude * u64::from(*load);
            let cent = cent_for(exact % all, left);
            shares[place] = with_sign(total, exact / all + cent);
            left -= cent;
        }
    }
}
