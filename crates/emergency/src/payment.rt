// What a row is paid: prices, energies and the amount.
ghost use Rattle.std.specs.Prelude.{◌≡◌, ◌≤◌, unsigned_abs};
ghost use Rattle.curves.specs.Curves.{points_of};
ghost use Rattle.quarters.specs.Quarters.{slices_of};
ghost use Rattle.emergency.specs.Energy.{due as due_for};
ghost use Rattle.emergency.specs.Payments.{paid_on, Moderate};

use crate::fitting::FittingRow;
use crate::sums::above_and_below;
use curves::curve::Curve;
use numbers::product;
use rounding::nearest;

// One side of a payment: the weighted price of the base points there, and the energy.
#[derive(Clone, Copy, PartialEq, Eq, Debug)]
pub struct Leg {
    pub price: i64,
    pub energy: i64,
}

// What a row is paid, with the steps to it.
#[derive(Clone, Copy, PartialEq, Eq, Debug)]
pub struct Payment {
    // W and E
    pub discharging: Leg,
    // V and D
    pub charging: Leg,
    // in cents, negative when the party receives it
    pub amount: i64,
    // the kWh that it rests on
    pub basis: u32,
}

// SPP × (E + D) − W × E − V × D.
fn due(spp: i64, discharging: &Leg, charging: &Leg) -> i64
    requires point { unsigned_abs spp ≤ 1000000 }
    requires above { Moderate discharging.now }
    requires below { Moderate charging.now }
    ensures { result ≡ due_for spp discharging.now.price discharging.now.energy charging.now.price charging.now.energy }
{
    product(spp, discharging.energy + charging.energy)
        - product(discharging.price, discharging.energy)
        - product(charging.price, charging.energy)
}

impl FittingRow<'_> {
    // What the row is paid on a curve.
    pub fn payment_on(&self, curve: &Curve) -> Payment
        ensures { result ≡ paid_on (slices_of self.now.quarter.now) (points_of curve.now) self.now.row.now }
    {
        let row = self.row;
        let (above, below) = above_and_below(self.quarter, curve, row);
        // no more than was generated, and no more than was charged
        let discharging = above.leg(0, i64::from(row.generation));
        let charging = below.leg(i64::from(row.charging), 0);
        let owed = due(i64::from(row.spp), &discharging, &charging);
        Payment {
            discharging,
            charging,
            amount: nearest(owed.min(0), 1000),
            // Kept: a cast, which is proved to fit; `try_from` would add a branch that cannot be taken.
            basis: (discharging.energy - charging.energy) as u32,
        }
    }
}
