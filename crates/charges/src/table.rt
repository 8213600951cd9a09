// Up to 32 resources, each with a figure.
ghost use Rattle.std.specs.Prelude.{◌≡◌, ◌≤◌, length, map};
ghost use Rattle.charges.specs.Table.{Once, Known, FreeFrom, number_at};

use crate::figure::Figure;
use crate::limits::PLACES;

pub mod settings;

// Kept: a fixed table, so that a layer allocates nothing.
// Kept: no model, since a refused setting promises that the layer is equal to what it was, and as a map it would promise
// the same look-ups only.
#[derive(Clone, Copy)]
pub struct Table {
    // each place holds a figure, or is free
    rows: [Option<Figure>; PLACES],
    // the resource at each place, 0 where it is free, so that a search reads these numbers alone
    numbers: [u16; PLACES],
    // every place from here on is free; where this is 0, nothing is held
    end: usize,
    ghost many: { length rows ≡ 32 },
    ghost numbered: { numbers ≡ map number_at rows },
    ghost once: { Once rows },
    ghost known: { Known rows },
    ghost bound: { end ≤ 32 },
    ghost rest: { FreeFrom end rows },
}
