// Prices read off a curve.
ghost use Rattle.std.specs.Prelude.{◌≡◌, ◌≤◌, length, ◌≤ℤ◌, ◌<ℤ◌};
ghost use Rattle.curves.specs.Shape.{InLimits, Shaped};
ghost use Rattle.curves.specs.Reading.{line, reads, Reads, Pinned, FirstAbove, price_at};
ghost use Rattle.curves.specs.Curves.{points_of};

use crate::curve::Curve;
use crate::points::Point;
use numbers::weighed;
use rounding::nearest;

// The nearest cent on the straight line from a to b.
// Kept: a cast, which is proved to fit; `try_from` would add a branch that cannot be taken.
fn on_line(a: Point, b: Point, power: i32) -> i32
    requires from { (InLimits a) × (InLimits b) }
    requires up { (a.power <ℤ b.power) × (a.price ≤ℤ b.price) }
    requires between { (a.power ≤ℤ power) × (power <ℤ b.power) }
    ensures { result ≡ line a b power }
{
    let sum = weighed(a.price, b.power.abs_diff(power)) + weighed(b.price, power.abs_diff(a.power));
    nearest(sum, u64::from(b.power.abs_diff(a.power))) as i32
}

// The place of the first point above a power.
fn first_above(points: &[Point], power: i32) -> Option<usize>
    ensures { FirstAbove points.now power result }
{
    points.iter().position(|point| power < point.power)
}

// The price at a power, over the points of a curve.
fn read(points: &[Point], power: i32) -> i32
    requires { Shaped points.now }
    ensures { result ≡ reads points.now power }
{
    match first_above(points, power) {
        Some(0) => points[0].price,
        Some(place) => on_line(points[place - 1], points[place], power),
        None => points[points.len() - 1].price,
    }
}

impl Curve {
    // The points, in strictly rising power and never falling price.
    pub fn points(&self) -> &[Point]
        ensures value { result.now ≡ points_of self.now }
        ensures shape { Shaped result.now }
        ensures few { length result.now ≤ 13 }
    {
        self.points.as_slice()
    }

    // The price at a power.
    pub fn reading(&self, power: i32) -> i32
        ensures value { result ≡ reads (points_of self.now) power }
        ensures means { Reads (points_of self.now) power result }
        ensures only { Pinned (points_of self.now) power result }
    {
        read(self.points(), power)
    }

    // What a base point is priced at: the lesser of its reading and the cap.
    #[tactic(auto, unfolding(crate::specs::Reading::price_at))]
    pub fn price_at(&self, base_point: i32, cap: i32) -> i32
        ensures { result ≡ price_at (points_of self.now) cap base_point }
    {
        self.reading(base_point).min(cap)
    }
}
