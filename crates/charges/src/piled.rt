// Layers piled over listed rows: what a pile answers follows from its parts.
ghost use Rattle.std.specs.Prelude.{◌≡◌};
ghost use Rattle.charges.specs.Adjustment.{adjusted_lines};
ghost use Rattle.charges.specs.Denial.{denied_lines};
ghost use Rattle.charges.specs.Lines.{line_at};
ghost use Rattle.charges.specs.Listed.{listed_line};
ghost use Rattle.charges.specs.Period.{period_lines};
ghost use Rattle.charges.specs.Rows.{numbered};
ghost use Rattle.charges.specs.Settings.{held_by, nothing};

use crate::adjustment::Adjustment;
use crate::denial::Denial;
use crate::fault::Fault;
use crate::interface::LineSource;
use crate::listed::{Listed, ListedRow};
use crate::period::{Period, State};
use crate::rowsource::RowSource;

// Line n of a period over an adjustment over a denial over listed rows.
pub fn piled_line<'a>(
    pile: &Period<Adjustment<Denial<RowSource<'a, ListedRow, Listed>>>>,
    n: usize,
) -> Result<(u16, u8, i64), Fault>
    ensures { result ≡ line_at (period_lines pile.now.state (adjusted_lines (held_by pile.now.below.table) (denied_lines (held_by pile.now.below.below.table) (numbered listed_line 1 pile.now.below.below.below.rows.now)))) n }
{
    pile.line(n)
}

// Line n of such a pile in which nothing is set yet.
pub fn fresh_line(rows: &[ListedRow], state: State, n: usize) -> Result<(u16, u8, i64), Fault>
    ensures { result ≡ line_at (period_lines state (adjusted_lines nothing (denied_lines nothing (numbered listed_line 1 rows.now)))) n }
{
    let listed = RowSource {
        rows,
        reader: Listed,
    };
    let fresh = Period::over(Adjustment::over(Denial::over(listed)), state);
    fresh.line(n)
}
