// A source without a line: what layers stand on until they are put over a source.
ghost use Rattle.std.specs.Prelude.{◌≡◌, []};
ghost use Rattle.charges.specs.SourceLaws.{none_sound};

use crate::fault::Fault;
use crate::interface::LineSource;

#[derive(Clone, Copy, PartialEq, Eq, Debug)]
pub struct NoLines;

impl LineSource for NoLines {
    ghost lines = { λ _. [] };

    ghost sound = { λ _. none_sound };

    fn count(&self) -> usize {
        0
    }

    fn line(&self, n: usize) -> Result<(u16, u8, i64), Fault> {
        Err(Fault::no_line(n))
    }
}
