// Why a book refuses a call.
ghost use Rattle.std.specs.Prelude.{◌≡◌};
ghost use Rattle.assess.specs.Refusals.{number_of, place_of, refusal_for};

use charges::fault::Fault;
use numbers::numbered::Numbered;
use walk::flaw::Flaw;

#[derive(Clone, Copy, PartialEq, Eq, Debug)]
pub enum Refusal {
    // opening: a size is outside, or too few slots or entries are handed in
    Size,
    // the charge type or the interval is outside
    NoSlot,
    // there is not one load for each party
    LoadCount,
    // this party's load is outside
    Load(usize),
    // the slot stands, or does not
    Standing,
    // the source has more than 256 lines
    ManyLines,
    // a line is a fault: the slot, the line that was asked for, and the fault whole
    // Kept: the slot by its two numbers, as the caller named it.
    Faulty {
        charge_type: u8,
        interval: usize,
        line: usize,
        fault: Fault,
    },
    // a line's party is outside, or its resource not above the line before
    Unfit(usize),
    // the total is beyond ±5,000,000,000
    Total,
    // the total is not 0, and there is no load
    NoLoad,
    // the party is outside
    NoParty,
}

// What is wrong with the lines of a source that is settled in a slot.
// Kept: the slot by its two numbers, which need not name one, as every caller of `work_out` may tell them.
#[derive(Clone, Copy, PartialEq, Eq, Debug)]
pub struct SlotFlaw {
    pub charge_type: u8,
    pub interval: usize,
    pub flaw: Flaw,
}

impl From<SlotFlaw> for Refusal {
    ghost from_gives = { λ f r. r ≡ refusal_for f };

    fn from(f: SlotFlaw) -> Refusal {
        match f.flaw {
            Flaw::ManyLines => Refusal::ManyLines,
            Flaw::Faulty { line, fault } => Refusal::Faulty {
                charge_type: f.charge_type,
                interval: f.interval,
                line,
                fault,
            },
            Flaw::Unfit(line) => Refusal::Unfit(line),
        }
    }
}

impl Numbered for Refusal {
    ghost numbered = { number_of };

    ghost placed = { place_of };

    fn number(&self) -> u8 {
        match self {
            Refusal::Size => 61,
            Refusal::NoSlot => 31,
            Refusal::LoadCount | Refusal::Load(_) => 32,
            Refusal::Standing => 33,
            Refusal::ManyLines => 34,
            Refusal::Faulty { .. } => 35,
            Refusal::Unfit(_) => 36,
            Refusal::Total => 37,
            Refusal::NoLoad => 38,
            Refusal::NoParty => 39,
        }
    }

    fn place(&self) -> usize {
        match *self {
            Refusal::Load(party) => party,
            Refusal::Faulty { line, .. } | Refusal::Unfit(line) => line,
            Refusal::Size
            | Refusal::NoSlot
            | Refusal::LoadCount
            | Refusal::Standing
            | Refusal::ManyLines
            | Refusal::Total
            | Refusal::NoLoad
            | Refusal::NoParty => 0,
        }
    }
}
