// A slot of a book: one charge type in one interval.
ghost use Rattle.std.specs.Prelude.{◌≡◌, ◌&&◌, IfOk};
ghost use Rattle.std.specs.Result.{IfErr};
ghost use Rattle.law.specs.Steps.{holds_or, among};
ghost use Rattle.assess.specs.Refusals.{raised, NamesParty};
ghost use Rattle.assess.specs.Slots.{type_number, IsTypeOf, Names, Within};

use crate::refusals::Refusal;

#[derive(Clone, Copy, PartialEq, Eq, Debug)]
pub enum ChargeType {
    Emergency,
    OperatingLoss,
    Site,
}

impl ChargeType {
    // The types in the order of their numbers.
    pub const ALL: [ChargeType; 3] = [
        ChargeType::Emergency,
        ChargeType::OperatingLoss,
        ChargeType::Site,
    ];

    // The type's number.
    pub fn number(self) -> u8
        ensures { result ≡ type_number self }
    {
        match self {
            ChargeType::Emergency => 1,
            ChargeType::OperatingLoss => 2,
            ChargeType::Site => 3,
        }
    }
}

impl TryFrom<u8> for ChargeType {
    type Error = Refusal;

    ghost try_from_gives = { λ number r. IsTypeOf number r };

    fn try_from(number: u8) -> Result<ChargeType, Refusal> {
        match number {
            1 => Ok(ChargeType::Emergency),
            2 => Ok(ChargeType::OperatingLoss),
            3 => Ok(ChargeType::Site),
            _ => Err(Refusal::NoSlot),
        }
    }
}

#[derive(Clone, Copy, PartialEq, Eq, Debug)]
pub struct SlotId {
    pub charge_type: ChargeType,
    pub interval: usize,
}

impl SlotId {
    // The slot that these numbers name in a book of so many intervals, or that there is none.
    pub fn of(intervals: usize, charge_type: u8, interval: usize) -> Result<SlotId, Refusal>
        ensures check { raised result ≡ holds_or (among charge_type 3 && among interval intervals) 31 0 }
        ensures party { IfErr result NamesParty }
        ensures named { IfOk result (λ slot. Names slot charge_type interval) }
        ensures within { IfOk result (Within intervals) }
    {
        let charge_type = ChargeType::try_from(charge_type)?;
        if !(1..=intervals).contains(&interval) {
            return Err(Refusal::NoSlot);
        }
        Ok(SlotId {
            charge_type,
            interval,
        })
    }
}
