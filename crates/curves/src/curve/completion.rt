// Curves from submitted rows: the market's completion for resources without full-range curves.
ghost use Rattle.std.specs.Prelude.{◌≡◌, ◌-◌, ◌<◌, ◌++◌, length, is_ok, option_to_list};
ghost use Rattle.numbers.specs.Checks.{Answered, Unambiguous};
ghost use Rattle.bounded.specs.Items.{items_of};
ghost use Rattle.curves.specs.Shape.{at, InLimits};
ghost use Rattle.curves.specs.Submission.{listed, checks, number_of, place_of};
ghost use Rattle.curves.specs.Completion.{low_end, step_point, step_up, high_end, completed};
ghost use Rattle.curves.specs.Acceptance.{accepted};
ghost use Rattle.curves.specs.Curves.{points_of};

use crate::curve::Curve;
use crate::curve::checks::SoundRow;
use crate::limits::{LEAST_PRICE, MOST_POINTS};
use crate::points::{CurveRefusal, Point, SubmittedCurve};
use bounded::list::BoundedList;

// Puts a point, if there is one, behind the others.
fn put(points: &mut BoundedList<Point, MOST_POINTS>, point: Option<Point>)
    requires { length (items_of points.old) < MOST_POINTS }
    ensures { items_of points.new ≡ items_of points.old ++ option_to_list point }
{
    if let Some(point) = point {
        points.push(point);
    }
}

impl SoundRow<'_> {
    // The first point.
    fn first(&self) -> Point
        ensures value { result ≡ at (listed self.now.row.now) 0 }
        ensures within { InLimits result }
    {
        self.row.listed()[0]
    }

    // The last point.
    fn last(&self) -> Point
        ensures value { result ≡ at (listed self.now.row.now) (self.now.row.now.count - 1) }
        ensures within { InLimits result }
    {
        self.row.listed()[self.row.count - 1]
    }

    // LSL at the least price, if it is below the first power.
    // Kept: an `if`, since of `then_some` the proof stayed open.
    fn low_end(&self) -> Option<Point>
        ensures { option_to_list result ≡ low_end self.now.row.now }
    {
        let lsl = self.row.lsl;
        if lsl < self.first().power {
            Some(Point {
                power: lsl,
                price: LEAST_PRICE,
            })
        } else {
            None
        }
    }

    // The point 1,000 kW below the first power, at the lesser of −24,999 and the first price.
    #[tactic(auto, using(std::proofs::lemmas::Int::clamps))]
    fn step_point(&self) -> Point
        ensures { result ≡ step_point self.now.row.now }
    {
        let first = self.first();
        Point {
            power: first.power - 1_000,
            price: first.price.min(LEAST_PRICE + 1),
        }
    }

    // That point, if it is above LSL.
    // Kept: an `if`, since of `then_some` the proof stayed open.
    fn step_up(&self) -> Option<Point>
        ensures { option_to_list result ≡ step_up self.now.row.now }
    {
        let step = self.step_point();
        if self.row.lsl < step.power {
            Some(step)
        } else {
            None
        }
    }

    // HSL at the last price, if it is above the last power.
    // Kept: an `if`, since of `then_some` the proof stayed open.
    fn high_end(&self) -> Option<Point>
        ensures { option_to_list result ≡ high_end self.now.row.now }
    {
        let hsl = self.row.hsl;
        let last = self.last();
        if last.power < hsl {
            Some(Point {
                power: hsl,
                price: last.price,
            })
        } else {
            None
        }
    }
}

impl SubmittedCurve {
    // The curve that the row completes to, or why there is none.
    // Kept: the list is filled here, since one that a function hands on is copied once more.
    #[tactic(auto, using(numbers::proofs::Checks::one_answer, crate::proofs::Acceptance::accepted_says))]
    pub fn complete(&self) -> Result<Curve, CurveRefusal>
        ensures answer { Answered (checks self.now) number_of place_of (λ curve. points_of curve ≡ completed self.now) result }
        ensures test { is_ok result ≡ accepted self.now }
        ensures once { Unambiguous (checks self.now) }
    {
        let sound = SoundRow::of(self)?;
        let mut points = BoundedList::new(Point { power: 0, price: 0 });
        put(&mut points, sound.low_end());
        put(&mut points, sound.step_up());
        points.extend_from_slice(self.listed());
        put(&mut points, sound.high_end());
        Ok(Curve { points })
    }
}
