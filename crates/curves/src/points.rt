// A point of an offer curve, and a curve as it is submitted.
ghost use Rattle.std.specs.Prelude.{◌≡◌, length, min};
ghost use Rattle.curves.specs.Submission.{listed, number_of, place_of};

use crate::limits::MOST_SUBMITTED;
use numbers::numbered::Numbered;

#[derive(Clone, Copy, PartialEq, Eq, Debug)]
pub struct Point {
    // in kW
    pub power: i32,
    // in cents per MWh
    pub price: i32,
}

// A submitted curve.
// Kept: a plain row as it is handed in, of which nothing is promised; its count may exceed the room.
#[derive(Clone, Copy, PartialEq, Eq, Debug)]
pub struct SubmittedCurve {
    pub resource: u16,
    pub hour: u8,
    pub lsl: i32,
    pub hsl: i32,
    // how many points were submitted, also where there is no room for them
    pub count: usize,
    pub points: [Point; MOST_SUBMITTED],
}

impl SubmittedCurve {
    // The points that were submitted, as far as there is room.
    pub fn listed(&self) -> &[Point]
        ensures value { result.now ≡ listed self.now }
        ensures many { length result.now ≡ min self.now.count 10 }
    {
        &self.points[..self.count.min(MOST_SUBMITTED)]
    }
}

// Why a submitted curve is refused, with the place of the first offender.
#[derive(Clone, Copy, PartialEq, Eq, Debug)]
pub enum CurveRefusal {
    Count,
    Power(usize),
    Price(usize),
    Limits,
}

impl Numbered for CurveRefusal {
    ghost numbered = { number_of };

    ghost placed = { place_of };

    fn number(&self) -> u8 {
        match self {
            CurveRefusal::Count => 21,
            CurveRefusal::Power(_) => 22,
            CurveRefusal::Price(_) => 23,
            CurveRefusal::Limits => 24,
        }
    }

    fn place(&self) -> usize {
        match self {
            CurveRefusal::Power(place) | CurveRefusal::Price(place) => *place,
            CurveRefusal::Count | CurveRefusal::Limits => 0,
        }
    }
}
