// A row of readings and costs as it is handed in, of which nothing is promised.
ghost use Rattle.std.specs.Prelude.{◌≡◌, Some, ◌≢◌, MatchOption};
ghost use Rattle.losses.specs.Faults.{number_of, name_of};

use std::fmt;

// How the marginal cost of a resource is known. Each kind holds the fields that only it uses.
#[derive(Clone, Copy, PartialEq, Eq, Debug)]
pub enum Kind {
    // by the fuel and its own operation and maintenance, which are verified
    Verified {
        // in thousandths of MMBtu per MWh
        heat_rate: u32,
        // in cents per MMBtu
        fuel_price: i32,
        // in cents per MWh
        own_cost: i32,
        // the fuel, in thousandths of MMBtu
        burned: u32,
    },
    // by the fuel and the operation and maintenance of its category
    Proxy {
        heat_rate: u32,
        fuel_price: i32,
        category: u8,
        burned: u32,
    },
    // by the energy that it was charged with and those of its category
    Storage {
        // in cents per MWh
        charging_cost: i32,
        category: u8,
    },
}

// What a resource did in the quarter hour, and what it is settled by.
#[derive(Clone, Copy, PartialEq, Eq, Debug)]
pub struct LossRow {
    pub resource: u16,
    pub party: u8,
    // the settlement point price, in cents per MWh
    pub spp: i32,
    // what was generated, in kWh
    pub generation: u32,
    pub kind: Kind,
    // the offer cap, in cents per MWh
    pub cap: i32,
    // the resource's offer stands at the cap
    pub offer_at_cap: bool,
    // its base point lies above its low limit
    pub above_lsl: bool,
}

// A field of a row that has limits, in the order in which they are checked.
#[derive(Clone, Copy, PartialEq, Eq, Debug)]
pub enum Field {
    Resource = 1,
    SettlementPointPrice,
    Generation,
    HeatRate,
    FuelPrice,
    ChargingCost,
    OwnCost,
    Category,
    FuelBurned,
    Cap,
}

impl Field {
    // The field's number, from 1.
    pub fn number(self) -> u8
        ensures { result ≡ number_of self }
    {
        self as u8
    }

    // The field of a number, if there is one.
    pub fn numbered(number: u8) -> Option<Field>
        ensures { MatchOption result ((field : Field) → number_of field ≢ number) (λ field. number_of field ≡ number) }
    {
        match number {
            1 => Some(Field::Resource),
            2 => Some(Field::SettlementPointPrice),
            3 => Some(Field::Generation),
            4 => Some(Field::HeatRate),
            5 => Some(Field::FuelPrice),
            6 => Some(Field::ChargingCost),
            7 => Some(Field::OwnCost),
            8 => Some(Field::Category),
            9 => Some(Field::FuelBurned),
            10 => Some(Field::Cap),
            _ => None,
        }
    }
}

impl fmt::Display for Field {
    ghost output = { λ field. Some (name_of field) };

    fn fmt<W: fmt::Write>(&self, f: &mut fmt::Formatter<W>) -> fmt::Result {
        f.write_str(match self {
            Field::Resource => "the resource",
            Field::SettlementPointPrice => "the settlement point price",
            Field::Generation => "the generation",
            Field::HeatRate => "the heat rate",
            Field::FuelPrice => "the fuel price",
            Field::ChargingCost => "the charging cost",
            Field::OwnCost => "the own O&M",
            Field::Category => "the category",
            Field::FuelBurned => "the fuel burned",
            Field::Cap => "the cap",
        })
    }
}
