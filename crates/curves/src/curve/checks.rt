// The checks of a submitted curve, in order, each over the whole list of points.
ghost use Rattle.std.specs.Prelude.{◌≡◌, IfSome, MatchResult, Decides, ◌≤ℤ◌, ◌<ℤ◌};
ghost use Rattle.numbers.specs.Checks.{Passed, Answered, Checked};
ghost use Rattle.curves.specs.Submission.{PowerIn, PriceIn, GoodCount, count_check, power_check, price_check, limit_check, checks, number_of, place_of};
ghost use Rattle.curves.specs.Misfits.{AllFit, Misfit};

use crate::limits::{LEAST_PRICE, MOST_POWER, MOST_PRICE, MOST_SUBMITTED};
use crate::points::{CurveRefusal, Point, SubmittedCurve};

// A row that passes every check.
#[derive(Clone, Copy)]
pub(crate) struct SoundRow<'a> {
    pub(crate) row: &'a SubmittedCurve,
    ghost passed: { Passed (checks row.now) },
}

fn is_power(power: i32) -> bool
    ensures { Decides result (PowerIn power) }
{
    (-MOST_POWER..=MOST_POWER).contains(&power)
}

fn is_price(price: i32) -> bool
    ensures { Decides result (PriceIn price) }
{
    (LEAST_PRICE..=MOST_PRICE).contains(&price)
}

// Whether a point's power is in its range and above the one before.
fn power_fits(before: Option<Point>, point: Point) -> bool
    ensures { Decides result (PowerIn point.power × IfSome before (λ b. b.power <ℤ point.power)) }
{
    is_power(point.power) && before.is_none_or(|before| before.power < point.power)
}

// Whether a point's price is in its range and not below the one before.
fn price_fits(before: Option<Point>, point: Point) -> bool
    ensures { Decides result (PriceIn point.price × IfSome before (λ b. b.price ≤ℤ point.price)) }
{
    is_price(point.price) && before.is_none_or(|before| before.price <= point.price)
}

// Each point fits behind the one before it; else the place of the first that does not, counted from 1.
fn in_order<F: Fn(Option<Point>, Point) -> bool>(points: &[Point], fits: F) -> Result<(), usize>
    requires { F.IsAlwaysCallable fits }
    ensures { MatchResult result (λ _. AllFit (F.post fits) points.now) (Misfit (F.post fits) points.now) }
{
    for (i, point) in points.iter().enumerate() {
        if !fits(points[..i].last().copied(), *point) {
            return Err(i + 1);
        }
    }
    Ok(())
}

// There are 1 to 10 points.
fn counted(row: &SubmittedCurve) -> Result<(), CurveRefusal>
    ensures { Checked number_of place_of (count_check row.now) result }
{
    if !(1..=MOST_SUBMITTED).contains(&row.count) {
        return Err(CurveRefusal::Count);
    }
    Ok(())
}

// Each power is in its range and above the one before.
fn powers(row: &SubmittedCurve) -> Result<(), CurveRefusal>
    requires { GoodCount row.now }
    ensures { Checked number_of place_of (power_check row.now) result }
{
    in_order(row.listed(), power_fits).map_err(CurveRefusal::Power)
}

// Each price is in its range and not below the one before.
fn prices(row: &SubmittedCurve) -> Result<(), CurveRefusal>
    requires { GoodCount row.now }
    ensures { Checked number_of place_of (price_check row.now) result }
{
    in_order(row.listed(), price_fits).map_err(CurveRefusal::Price)
}

// The limits are in range and in order.
fn limits(row: &SubmittedCurve) -> Result<(), CurveRefusal>
    ensures { Checked number_of place_of (limit_check row.now) result }
{
    if !(is_power(row.lsl) && is_power(row.hsl) && row.lsl <= row.hsl) {
        return Err(CurveRefusal::Limits);
    }
    Ok(())
}

impl<'a> SoundRow<'a> {
    // The row, if every check passes; else the first that does not refuses it.
    pub(crate) fn of(row: &'a SubmittedCurve) -> Result<SoundRow<'a>, CurveRefusal>
        ensures { Answered (checks row.now) number_of place_of (λ sound. sound.row.now ≡ row.now) result }
    {
        counted(row)?;
        powers(row)?;
        prices(row)?;
        limits(row)?;
        Ok(SoundRow { row })
    }
}
