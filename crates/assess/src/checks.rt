// The checks of settle and restate, one function each, in the words of the table of refusals.
ghost use Rattle.std.specs.Prelude.{◌≡◌, true, not, length, if◌then◌else◌, ◌==◌, nat_le, nat_lt, unsigned_abs};
ghost use Rattle.std.specs.Result.{IfErr};
ghost use Rattle.law.specs.Steps.{holds_or, loads_from, among};
ghost use Rattle.assess.specs.Refusals.{raised, NamesParty};

use crate::limits::{MOST_LOAD, MOST_TOTAL};
use crate::refusals::Refusal;

pub fn check_party(parties: usize, party: usize) -> Result<(), Refusal>
    ensures { raised result ≡ holds_or (among party parties) 39 0 }
{
    if !(1..=parties).contains(&party) {
        return Err(Refusal::NoParty);
    }
    Ok(())
}

pub fn check_count(parties: usize, loads: &[u32]) -> Result<(), Refusal>
    ensures check { raised result ≡ holds_or (length loads.now == parties) 32 0 }
    ensures party { IfErr result NamesParty }
{
    if loads.len() != parties {
        return Err(Refusal::LoadCount);
    }
    Ok(())
}

pub fn check_loads(loads: &[u32]) -> Result<(), Refusal>
    ensures check { raised result ≡ loads_from 1 loads.now }
    ensures party { IfErr result NamesParty }
{
    if let Some(before) = loads.iter().position(|load| *load > MOST_LOAD) {
        return Err(Refusal::Load(before + 1));
    }
    Ok(())
}

pub fn check_stands(stands: bool, wanted: bool) -> Result<(), Refusal>
    ensures check { raised result ≡ holds_or (if wanted then stands else not stands) 33 0 }
    ensures party { IfErr result NamesParty }
{
    if stands != wanted {
        return Err(Refusal::Standing);
    }
    Ok(())
}

pub fn check_total(total: i64) -> Result<(), Refusal>
    ensures check { raised result ≡ holds_or (nat_le (unsigned_abs total) MOST_TOTAL) 37 0 }
    ensures party { IfErr result NamesParty }
{
    if total.unsigned_abs() > MOST_TOTAL {
        return Err(Refusal::Total);
    }
    Ok(())
}

pub fn check_covered(load: u64, total: i64) -> Result<(), Refusal>
    ensures check { raised result ≡ holds_or (if nat_lt 0 load then true else (unsigned_abs total == 0)) 38 0 }
    ensures party { IfErr result NamesParty }
{
    if load == 0 && total != 0 {
        return Err(Refusal::NoLoad);
    }
    Ok(())
}
