// What a MWh costs, and the energy that a loss rests on, for each kind of row.
ghost use Rattle.std.specs.Prelude.{◌≡◌, ◌<◌, ◌≤◌, unsigned_abs};
ghost use Rattle.losses.specs.Fields.{fields_of_kind, Within};
ghost use Rattle.losses.specs.Losses.{fuel_cost as fuel_cost_at, marginal_cost as cost_of, marginal_energy as energy_of, quantity as quantity_of};

use crate::categories::category_cost;
use crate::limits::MOST_HEAT_RATE;
use crate::row::Kind;
use numbers::weighed;
use rounding::nearest;

// The fuel for a MWh, in cents.
#[tactic(auto, using(crate::specs::Bounds::fuel))]
fn fuel_cost(heat_rate: u32, fuel_price: i32) -> i64
    requires rate { heat_rate ≤ MOST_HEAT_RATE }
    requires price { unsigned_abs fuel_price ≤ 100000 }
    ensures value { result ≡ fuel_cost_at heat_rate fuel_price }
    ensures small { unsigned_abs result ≤ 5000000 }
{
    nearest(weighed(fuel_price, heat_rate), 1_000)
}

// What the fuel burned gives, in kWh.
fn marginal_energy(heat_rate: u32, burned: u32) -> u64
    requires { 0 < heat_rate }
    ensures { result ≡ energy_of heat_rate burned }
{
    nearest(weighed(1_000, burned), u64::from(heat_rate)).unsigned_abs()
}

impl Kind {
    // What one more MWh costs, in cents.
    pub(crate) fn marginal_cost(&self) -> i64
        requires { Within (fields_of_kind self.now) }
        ensures value { result ≡ cost_of self.now }
        ensures small { unsigned_abs result ≤ 5010000 }
    {
        match *self {
            Kind::Verified {
                heat_rate,
                fuel_price,
                own_cost,
                ..
            } => fuel_cost(heat_rate, fuel_price) + i64::from(own_cost),
            Kind::Proxy {
                heat_rate,
                fuel_price,
                category,
                ..
            } => fuel_cost(heat_rate, fuel_price) + i64::from(category_cost(category)),
            Kind::Storage {
                charging_cost,
                category,
            } => i64::from(charging_cost) + i64::from(category_cost(category)),
        }
    }

    // The energy that a loss rests on, in kWh: no more than was generated.
    pub(crate) fn quantity(&self, generation: u32) -> u32
        requires { Within (fields_of_kind self.now) }
        ensures { result ≡ quantity_of generation self.now }
    {
        match *self {
            Kind::Verified {
                heat_rate,
                burned,
                ..
            }
            | Kind::Proxy {
                heat_rate,
                burned,
                ..
            } => {
                let energy = marginal_energy(heat_rate, burned);
                // Kept: a cast, which is proved to fit; `try_from` would add a branch that cannot be taken.
                energy.min(u64::from(generation)) as u32
            }
            Kind::Storage { .. } => generation,
        }
    }
}
