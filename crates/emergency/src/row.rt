// A row of readings as it is handed in, of which nothing is promised, and why it may give no payment.
ghost use Rattle.std.specs.Prelude.{◌≡◌, Some, ◌≢◌, MatchOption};
ghost use Rattle.emergency.specs.declared.row.RowFault.TheVariants.{Outside};
ghost use Rattle.emergency.specs.Faults.{number_of, name_of, cause_of, field_of};

use std::fmt;

// What a resource did in the quarter hour, and what it is settled by.
#[derive(Clone, Copy, PartialEq, Eq, Debug)]
pub struct EmergencyRow {
    pub resource: u16,
    pub party: u8,
    // the settlement point price, in cents per MWh
    pub spp: i32,
    // what was generated and, below zero, what was charged, in kWh
    pub generation: u32,
    pub charging: i32,
    // a base point for each slice, in kW; what lies past the slices does not count
    // Kept: a row as it is handed in: the quarter hour says how many of them count.
    pub bases: [i32; 15],
    pub hour: u8,
    // in cents per MWh
    pub cap: i32,
}

// A field of a row that has limits, in the order in which they are checked.
#[derive(Clone, Copy, PartialEq, Eq, Debug)]
pub enum Field {
    Resource = 1,
    SettlementPointPrice,
    Generation,
    Charging,
    BasePoint,
    Hour,
    Cap,
}

impl Field {
    // The field's number, from 1.
    pub fn number(self) -> u8
        ensures { result ≡ number_of self }
    {
        self as u8
    }

    // The field of a number, if there is one.
    pub fn numbered(number: u8) -> Option<Field>
        ensures { MatchOption result ((field : Field) → number_of field ≢ number) (λ field. number_of field ≡ number) }
    {
        match number {
            1 => Some(Field::Resource),
            2 => Some(Field::SettlementPointPrice),
            3 => Some(Field::Generation),
            4 => Some(Field::Charging),
            5 => Some(Field::BasePoint),
            6 => Some(Field::Hour),
            7 => Some(Field::Cap),
            _ => None,
        }
    }
}

impl fmt::Display for Field {
    ghost output = { λ field. Some (name_of field) };

    fn fmt<W: fmt::Write>(&self, f: &mut fmt::Formatter<W>) -> fmt::Result {
        f.write_str(match self {
            Field::Resource => "the resource",
            Field::SettlementPointPrice => "the settlement point price",
            Field::Generation => "the generation",
            Field::Charging => "the charging",
            Field::BasePoint => "a base point",
            Field::Hour => "the hour",
            Field::Cap => "the cap",
        })
    }
}

// Why a row gives no payment.
#[derive(Clone, Copy, PartialEq, Eq, Debug)]
pub enum RowFault {
    // a field is outside its limits: the first one, by its number
    // Kept: the number, as the table of refusals tells it.
    Outside(u8),
    // there is no curve for the resource and hour, or one that its checks refuse
    NoCurve,
}

impl RowFault {
    // The fault's number.
    pub fn cause(&self) -> u8
        ensures { result ≡ cause_of self.now }
    {
        match self {
            RowFault::Outside(_) => 41,
            RowFault::NoCurve => 40,
        }
    }

    // The number of the field at fault, 0 where it is none.
    // Kept: a fault is told by two numbers, as the table of refusals lists them.
    pub fn field(&self) -> u8
        ensures { result ≡ field_of self.now }
    {
        match self {
            RowFault::Outside(field) => *field,
            RowFault::NoCurve => 0,
        }
    }
}

impl From<Field> for RowFault {
    ghost from_gives = { λ first fault. fault ≡ Outside (number_of first) };

    fn from(first: Field) -> RowFault {
        RowFault::Outside(first.number())
    }
}
