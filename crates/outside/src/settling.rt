// The firm's source under our layers and the firm's rule, settled in our book.
ghost use Rattle.book.specs.Books.{model};
ghost use Rattle.outside.specs.Fees.{fees, Asked, FeesSettled};
ghost use Rattle.outside.specs.Seasons.{listed, seasonal};

use crate::seasonal::Seasonal;
use crate::standby::Standby;
use assess::refusals::Refusal;
use book::ledger::Book;
use charges::denial::Denial;
use charges::period::{Period, State};

// Both parties' balances, as the book answers them.
fn balances(book: &Book) -> Result<(i128, i128), Refusal>
    ensures { Asked (model book.now) result }
{
    let one = book.balance(1)?;
    let two = book.balance(2)?;
    Ok((one, two))
}

// Settles the standby fees of two parties' book and answers both balances: whatever the source, the calendar and the loads,
// they add up to zero.
pub fn settle_standby(
    book: &mut Book,
    standby: Standby,
    rule: Seasonal<'_>,
    loads: &[u32],
) -> Result<(i128, i128), Refusal>
    ensures { FeesSettled (fees loads.now standby (seasonal (listed rule.entry.months.now rule.entry.month))) book.old result book.new }
{
    book.open(2, 1)?;
    let source = Period::over(Denial::over(standby), State::Open);
    book.settle(3, 1, loads, &source, &rule)?;
    balances(book)
}
