// What the lender of the two tables learns.
ghost use Rattle.std.specs.Prelude.{◌≡◌, ℕ, ◌<◌, ◌≤◌, ◌⊎◌, [], ◌∷◌, length, slice_index_or};
ghost use Rattle.law.specs.Runs.{MetCalls};
ghost use Rattle.law.specs.Steps.{settle as settling};
ghost use Rattle.book.specs.Books.{brought};
ghost use Rattle.book.specs.Model.{off, blank, means};

use book::ledger::Book;
use book::rows::{Entry, Slot};
use charges::interface::LineSource;
use sharing::rule::SharingRule;

// Opens a book of two parties and one interval and settles a slot. The rows that the book needs then hold what it keeps, and
// those past its size are as they were; where there are too few rows, all are.
pub fn settle_once<S: LineSource, R: SharingRule>(
    slots: &mut [Slot],
    entries: &mut [Entry],
    loads: &[u32],
    source: &S,
    rule: &R,
)
    ensures slots { (j : ℕ) → 3 ≤ j → slice_index_or slots.new j off ≡ slice_index_or slots.old j off }
    ensures entries { (j : ℕ) → 6 ≤ j → slice_index_or entries.new j blank ≡ slice_index_or entries.old j blank }
    ensures few { (length slots.old < 3) ⊎ (length entries.old < 6) → (slots.new ≡ slots.old) × (entries.new ≡ entries.old) }
    ensures met { 3 ≤ length slots.old → 6 ≤ length entries.old → MetCalls 2 1 (settling 1 1 (brought loads.now (S.LineSource.lines source.now) (R.SharingRule.meaning rule.now)) ∷ []) (means 2 1 slots.new entries.new) }
{
    let mut book = Book::over(slots, entries);
    let _ = book.open(2, 1);
    let _ = book.settle(1, 1, loads, source, rule);
}
