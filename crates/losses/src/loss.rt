// The operating loss of a row, and what is paid for it.
ghost use Rattle.std.specs.Prelude.{◌≡◌, ◌^◌, ◌<◌, ◌≤◌, ◌-ℤ◌, unsigned_abs};
ghost use Rattle.losses.specs.Fields.{Fitting};
ghost use Rattle.losses.specs.Losses.{qualifies as is_qualifying, price as price_of, operating_loss as loss_at, loss_in, loss_of};

use crate::row::{Field, LossRow};
use numbers::weighed;
use rounding::nearest;

// What a row is paid for its loss, with the steps to it.
#[derive(Clone, Copy, PartialEq, Eq, Debug)]
pub struct Loss {
    // the marginal cost, in cents per MWh
    pub cost: i64,
    // the energy that may have been sold at a loss, in kWh
    pub quantity: u32,
    // in cents, negative when the party receives it
    pub amount: i64,
    // the kWh that it rests on, 0 where no loss is paid
    pub basis: u32,
}

// What the energy cost above its price, in cents, where a MWh did by this margin.
#[tactic(auto, unfolding(crate::specs::Losses::operating_loss))]
fn operating_loss(margin: i32, energy: u32) -> i64
    ensures value { result ≡ loss_at margin energy }
    ensures small { unsigned_abs result < 2 ^ 62 }
{
    nearest(weighed(margin, energy).max(0), 1_000)
}

impl LossRow {
    // Whether a loss is paid at all.
    pub fn qualifies(&self) -> bool
        ensures { result ≡ is_qualifying self.now }
    {
        self.spp >= self.cap && self.offer_at_cap && self.above_lsl
    }

    // The price that the cost is held against: the settlement point price, but at least the cap.
    fn price(&self) -> i32
        requires { Fitting self.now }
        ensures value { result ≡ price_of self.now }
        ensures small { unsigned_abs result ≤ 1000000 }
    {
        self.cap.max(self.spp)
    }

    // The cost above that price.
    fn margin(&self, cost: i64) -> i32
        requires fitting { Fitting self.now }
        requires small { unsigned_abs cost ≤ 5010000 }
        ensures { result ≡ cost -ℤ price_of self.now }
    {
        // Kept: a cast, which is proved to fit; `try_from` would add a branch that cannot be taken.
        (cost - i64::from(self.price())) as i32
    }

    // The loss, with the steps to it.
    #[tactic(auto, unfolding(crate::specs::Losses::loss_in))]
    fn work_out(&self) -> Loss
        requires { Fitting self.now }
        ensures { result ≡ loss_in self.now }
    {
        let cost = self.kind.marginal_cost();
        let quantity = self.kind.quantity(self.generation);
        if self.qualifies() {
            Loss {
                cost,
                quantity,
                amount: -operating_loss(self.margin(cost), quantity),
                basis: quantity,
            }
        } else {
            Loss {
                cost,
                quantity,
                amount: 0,
                basis: 0,
            }
        }
    }

    // The loss of the row, or its first field that is outside its limits.
    pub fn loss(&self) -> Result<Loss, Field>
        ensures { result ≡ loss_of self.now }
    {
        self.check_fields()?;
        Ok(self.work_out())
    }
}
