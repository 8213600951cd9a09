// Callers of the book, proved from its contracts alone.
#![tactic(auto)]

ghost use Rattle.std.specs.Prelude.{IfOk, IsOkAnd, MatchResult, Err};
ghost use Rattle.law.specs.Settlements as words;
ghost use Rattle.book.specs.Books.{model, Opens};
ghost use Rattle.desk.specs.Days.{DayDone, AddUpToZero};

mod balances;
pub mod figures;
pub mod lending;
mod tables;
#[cfg(test)]
mod tests;

use crate::balances::balances;
use crate::tables::{USED_ENTRY, USED_SLOT};
use assess::refusals::Refusal;
use book::ledger::Book;
use charges::adjustment::Adjustment;
use charges::listed::{Listed, ListedRow};
use charges::period::{Period, State};
use charges::rowsource::RowSource;
use sharing::leftover::Leftover;
use sharing::running::Running;

// A day's work on a book of three parties: settle, restate, void, and ask the balances. Whatever is accepted or refused, they add up to zero.
pub fn day(
    book: &mut Book,
    loads: &[u32],
    rows: &[ListedRow],
    adjustment: i64,
) -> Result<(i128, i128, i128), Refusal>
    ensures zero { IfOk result AddUpToZero }
    ensures done { MatchResult result (DayDone loads.now rows.now adjustment (model book.new)) (λ e. Opens 3 4 book.old (Err e) book.new) }
{
    book.open(3, 4)?;
    let listed = RowSource {
        rows,
        reader: Listed,
    };
    let mut adjusted = Adjustment::over(listed);
    let _ = adjusted.set(7, adjustment);
    let source = Period::over(adjusted, State::Open);
    let _ = book.settle(1, 2, loads, &source, &Running);
    let _ = book.settle(3, 4, loads, &source, &Running);
    let _ = book.restate(1, 2, loads, &source, &Leftover);
    let _ = book.void(3, 4);
    balances(book)
}

// The same over arrays.
pub fn day_over_arrays(
    loads: &[u32],
    rows: &[ListedRow],
    adjustment: i64,
) -> Result<(i128, i128, i128), Refusal>
    ensures zero { IsOkAnd result AddUpToZero }
    ensures done { IfOk result (λ v. (after : words.Book) × DayDone loads.now rows.now adjustment after v) }
{
    let mut slots = [USED_SLOT; 20];
    let mut entries = [USED_ENTRY; 40];
    let mut book = Book::over(&mut slots, &mut entries);
    day(&mut book, loads, rows, adjustment)
}
