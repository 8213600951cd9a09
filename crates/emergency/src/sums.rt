// The sums over the priced slices of a quarter hour on one side of zero, and what they come to.
ghost use Rattle.std.specs.Prelude.{◌≡◌, [], ◌<◌, length, IsTrue, pos, ◌≤ℤ◌};
ghost use Rattle.curves.specs.Curves.{points_of};
ghost use Rattle.quarters.specs.Quarters.{slices_of};
ghost use Rattle.emergency.specs.Fields.{Fitting};
ghost use Rattle.emergency.specs.Payments.{sliced};
ghost use Rattle.emergency.specs.Sums.{sums_of, one_more, Roomy, mean_of, energy_of};
ghost use Rattle.emergency.specs.Weights.{Limited};
ghost use Rattle.emergency.specs.declared.slices.Side.{Side};
ghost use Rattle.emergency.specs.declared.slices.Side.TheVariants.{Above, Below};

use crate::payment::Leg;
use crate::row::EmergencyRow;
use crate::slices::{Side, Slice};
use curves::curve::Curve;
use quarters::quarter::QuarterHour;
use rounding::nearest;

#[derive(Clone, Copy)]
pub(crate) struct Sums {
    // whether some base point lies on the side
    any: bool,
    weights: u64,
    // the prices, each by its weight
    prices: i64,
    // the powers, each as long as it lasts
    work: i64,
}

impl Sums {
    // The sums over no slice.
    pub(crate) fn none() -> Sums
        ensures { (side : Side) → result ≡ sums_of side [] }
    {
        Sums {
            any: false,
            weights: 0,
            prices: 0,
            work: 0,
        }
    }

    // Adds a slice.
    pub(crate) fn add(&mut self, side: Side, slice: &Slice)
        requires limited { Limited slice.now }
        requires room { Roomy self.old }
        ensures { self.new ≡ one_more side slice.now self.old }
    {
        self.any |= slice.is_on(side);
        self.weights += u64::from(slice.weight(side));
        self.prices += slice.weighed_price(side);
        self.work += slice.work(side);
    }

    // The mean price, and the energy between two limits around zero; nothing where no base point lies on the side.
    pub(crate) fn leg(&self, least: i64, most: i64) -> Leg
        requires around { (least ≤ℤ pos 0) × (pos 0 ≤ℤ most) }
        requires some { IsTrue self.now.any → 0 < self.now.weights }
        ensures price { result.price ≡ mean_of self.now }
        ensures energy { result.energy ≡ energy_of least most self.now }
        ensures within { (least ≤ℤ result.energy) × (result.energy ≤ℤ most) }
    {
        if self.any {
            Leg {
                price: nearest(self.prices, self.weights),
                energy: nearest(self.work, 3600).clamp(least, most),
            }
        } else {
            Leg {
                price: 0,
                energy: 0,
            }
        }
    }
}

// The sums over the slices of a quarter hour, each with its base point and price: those above zero, and those below.
pub(crate) fn above_and_below(
    quarter: &QuarterHour,
    curve: &Curve,
    row: &EmergencyRow,
) -> (Sums, Sums)
    requires { Fitting (length (slices_of quarter.now)) row.now }
    ensures above { result.0 ≡ sums_of Above (sliced (points_of curve.now) row.now.cap (slices_of quarter.now) row.now.bases) }
    ensures below { result.1 ≡ sums_of Below (sliced (points_of curve.now) row.now.cap (slices_of quarter.now) row.now.bases) }
{
    let mut above = Sums::none();
    let mut below = Sums::none();
    for (seconds, base) in quarter.slices().iter().zip(&row.bases) {
        let slice = Slice {
            seconds: *seconds,
            base: *base,
            price: curve.price_at(*base, row.cap),
        };
        above.add(Side::Above, &slice);
        below.add(Side::Below, &slice);
    }
    (above, below)
}
