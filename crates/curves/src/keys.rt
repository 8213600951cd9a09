// Submitted curves by resource and hour.
ghost use Rattle.std.specs.Prelude.{ℕ};
ghost use Rattle.numbers.specs.Checks.{Unambiguous};
ghost use Rattle.directory.specs.Refusals.{checks, Opened};
ghost use Rattle.curves.specs.Keys.{keyed, curve_kind};

use crate::points::SubmittedCurve;
use directory::keyed::Keyed;
use directory::lookup::{Directory, DirectoryRefusal};
use std::cmp::Ordering;

// What a submitted curve is found by: the resource, and then the hour.
#[derive(Clone, Copy, PartialEq, Eq, PartialOrd, Ord, Debug)]
pub struct CurveKey {
    pub resource: u16,
    pub hour: u8,
}

impl Keyed for SubmittedCurve {
    type Key = CurveKey;

    ghost Sense = { ℕ × ℕ };

    ghost sense = { keyed };

    ghost kind = { curve_kind };

    fn key(&self) -> CurveKey {
        CurveKey {
            resource: self.resource,
            hour: self.hour,
        }
    }

    fn compare(left: &CurveKey, right: &CurveKey) -> Ordering {
        left.cmp(right)
    }

    fn is_formed(&self) -> bool {
        (1..=9_999).contains(&self.resource) && (1..=25).contains(&self.hour)
    }

    fn most() -> usize {
        4_096
    }
}

// The directory of submitted curves, as they are: each is checked when it is made into a curve.
// Kept: the generic call under a name of its own, which says what is promised of curves.
pub fn submitted_curves<'a>(
    rows: &'a [SubmittedCurve],
) -> Result<Directory<'a, SubmittedCurve>, DirectoryRefusal>
    ensures answer { Opened curve_kind rows.now (λ d. d.records.now) result }
    ensures once { Unambiguous (checks curve_kind rows.now) }
{
    Directory::of(rows)
}
