// Quarter hours from lists of durations.
ghost use Rattle.std.specs.Prelude.{◌≡◌, ◌≤◌, [], ◌∷◌, length, Decides, sum};
ghost use Rattle.numbers.specs.Checks.{Answered, Unambiguous};
ghost use Rattle.quarters.specs.Slices.{Lasting, IsQuarter, checks};
ghost use Rattle.quarters.specs.Quarters.{slices_of, number_of, place_of};

use crate::limits::{MOST_SLICES, SECONDS};
use crate::quarter::QuarterHour;
use bounded::list::BoundedList;
use numbers::numbered::Numbered;

// Why a list of durations is no quarter hour.
#[derive(Clone, Copy, PartialEq, Eq, Debug)]
pub enum QuarterRefusal {
    // the count, a duration or the sum
    NotAQuarter,
}

impl Numbered for QuarterRefusal {
    ghost numbered = { number_of };

    ghost placed = { place_of };

    fn number(&self) -> u8 {
        match self {
            QuarterRefusal::NotAQuarter => 25,
        }
    }

    // None is told.
    fn place(&self) -> usize {
        match self {
            QuarterRefusal::NotAQuarter => 0,
        }
    }
}

// Whether each slice lasts 1 to 900 seconds.
fn all_last(seconds: &[u16]) -> bool
    ensures { Decides result (Lasting seconds.now) }
{
    seconds.iter().all(|s| (1..=SECONDS).contains(s))
}

// The sum of a few durations.
fn sum_of(seconds: &[u16]) -> u32
    requires { length seconds.now ≤ 15 }
    ensures { result ≡ sum seconds.now }
{
    seconds.iter().map(|&s| u32::from(s)).sum()
}

// Whether the durations make a quarter hour.
fn is_quarter(seconds: &[u16]) -> bool
    ensures { Decides result (IsQuarter seconds.now) }
{
    (1..=MOST_SLICES).contains(&seconds.len())
        && all_last(seconds)
        && sum_of(seconds) == u32::from(SECONDS)
}

impl QuarterHour {
    // The quarter hour of these slices.
    pub fn of(seconds: &[u16]) -> Result<QuarterHour, QuarterRefusal>
        ensures answer { Answered (checks seconds.now) number_of place_of (λ q. slices_of q ≡ seconds.now) result }
        ensures once { Unambiguous (checks seconds.now) }
    {
        if !is_quarter(seconds) {
            return Err(QuarterRefusal::NotAQuarter);
        }
        let mut slices = BoundedList::new(0);
        slices.extend_from_slice(seconds);
        Ok(QuarterHour { slices })
    }

    // The quarter hour that is one slice.
    pub fn undivided() -> QuarterHour
        ensures { slices_of result ≡ 900 ∷ [] }
    {
        let mut slices = BoundedList::new(0);
        slices.push(SECONDS);
        QuarterHour { slices }
    }

    // The durations of the slices.
    pub fn slices(&self) -> &[u16]
        ensures value { result.now ≡ slices_of self.now }
        ensures quarter { IsQuarter result.now }
    {
        self.slices.as_slice()
    }
}
