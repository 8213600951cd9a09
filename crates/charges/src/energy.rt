// The energy that a source's lines rest on.
ghost use Rattle.std.specs.Prelude.{◌≡◌};
ghost use Rattle.numbers.specs.Checks.{Answered, Unambiguous};
ghost use Rattle.charges.specs.Energy.{energy_of, checks, number_of, place_of};

use crate::interface::{BasisSource, LineSource};
use crate::limits::MOST_LINES;
use numbers::numbered::Numbered;

// Why no energy is told.
#[derive(Clone, Copy, PartialEq, Eq, Debug)]
pub enum EnergyRefusal {
    // there are more lines than a settlement takes
    ManyLines,
}

impl Numbered for EnergyRefusal {
    ghost numbered = { number_of };

    ghost placed = { place_of };

    fn number(&self) -> u8 {
        match self {
            EnergyRefusal::ManyLines => 34,
        }
    }

    // It has no place.
    fn place(&self) -> usize {
        match self {
            EnergyRefusal::ManyLines => 0,
        }
    }
}

// The sum of the bases.
pub fn energy<S: BasisSource>(source: &S) -> Result<u64, EnergyRefusal>
    ensures answer { Answered (checks (S.LineSource.lines source.now)) number_of place_of (λ kwh. kwh ≡ energy_of (S.LineSource.lines source.now) (S.BasisSource.basis_of source.now)) result }
    ensures once { Unambiguous (checks (S.LineSource.lines source.now)) }
{
    let count = source.count();
    if count > MOST_LINES {
        return Err(EnergyRefusal::ManyLines);
    }
    let mut kwh = 0;
    for n in 1..=count {
        kwh += u64::from(source.basis(n));
    }
    Ok(kwh)
}
