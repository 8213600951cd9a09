// Three equal loads, one line of -100 for the first party.
ghost use Rattle.std.specs.Prelude.{◌≡◌, [], ◌∷◌, pos, negsuc};
ghost use Rattle.numbers.specs.Checks.{Answered};
ghost use Rattle.law.specs.Runs.{MetCalls};
ghost use Rattle.law.specs.Steps.{settle as settling};
ghost use Rattle.assess.specs.Refusals.{number_of, place_of};
ghost use Rattle.book.specs.Books.{model, FitsIn};
ghost use Rattle.desk.specs.Thirds.{bill, thirds_by, load_checks, thirds_checks};

use crate::balances::balances;
use crate::tables::{USED_ENTRY, USED_SLOT};
use assess::refusals::Refusal;
use book::ledger::Book;
use charges::listed::{Listed, ListedRow};
use charges::rowsource::RowSource;
use sharing::leftover::Leftover;
use sharing::rule::SharingRule;
use sharing::running::Running;

// The three balances under any rule, and the book that they are read from: where it is opened it met the settlement, accepted or
// refused, and else it is as it was.
pub fn thirds<R: SharingRule>(
    book: &mut Book,
    load: u32,
    rule: &R,
) -> Result<(i128, i128, i128), Refusal>
    ensures answer { Answered (thirds_checks book.old load) number_of place_of (λ v. v ≡ thirds_by (R.SharingRule.meaning rule.now) load) result }
    ensures met { FitsIn 3 1 book.old → MetCalls 3 1 (settling 1 1 (bill (R.SharingRule.meaning rule.now) load) ∷ []) (model book.new) }
    ensures few { (FitsIn 3 1 book.old → ⊥) → book.new ≡ book.old }
{
    book.open(3, 1)?;
    let rows = [ListedRow {
        resource: 1,
        party: 1,
        amount: -100,
    }];
    let source = RowSource {
        rows: &rows,
        reader: Listed,
    };
    book.settle(1, 1, &[load, load, load], &source, rule)?;
    balances(book)
}

// The same over tables of the function's own, which held other things before.
fn thirds_afresh<R: SharingRule>(load: u32, rule: &R) -> Result<(i128, i128, i128), Refusal>
    ensures { Answered (load_checks load) number_of place_of (λ v. v ≡ thirds_by (R.SharingRule.meaning rule.now) load) result }
{
    let mut slots = [USED_SLOT; 3];
    let mut entries = [USED_ENTRY; 9];
    let mut book = Book::over(&mut slots, &mut entries);
    thirds(&mut book, load, rule)
}

// By running: -67, 33, 34.
#[tactic(auto, using(crate::proofs::Shares::thirds_running))]
pub fn thirds_running(load: u32) -> Result<(i128, i128, i128), Refusal>
    ensures { Answered (load_checks load) number_of place_of (λ v. v ≡ (negsuc 66, pos 33, pos 34)) result }
{
    thirds_afresh(load, &Running)
}

// By leftover: -66, 33, 33.
#[tactic(auto, using(crate::proofs::Shares::thirds_leftover))]
pub fn thirds_leftover(load: u32) -> Result<(i128, i128, i128), Refusal>
    ensures { Answered (load_checks load) number_of place_of (λ v. v ≡ (negsuc 65, pos 33, pos 33)) result }
{
    thirds_afresh(load, &Leftover)
}
