// A completed offer curve, whose points are always in order.
ghost use Rattle.std.specs.Prelude.{◌<◌, length};
ghost use Rattle.bounded.specs.Items.{items_of};
ghost use Rattle.curves.specs.Shape.{Rising, Inside};

use crate::limits::MOST_POINTS;
use crate::points::Point;
use bounded::list::BoundedList;

pub mod checks;
pub mod completion;
pub mod reading;

#[derive(Clone, Copy)]
pub struct Curve {
    points: BoundedList<Point, MOST_POINTS>,
    ghost some: { 0 < length (items_of points) },
    ghost rising: { Rising (items_of points) },
    ghost inside: { Inside (items_of points) },
}
