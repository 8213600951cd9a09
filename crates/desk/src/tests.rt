// The edges of a settlement's total.
use crate::tables::{USED_ENTRY, USED_SLOT};
use assess::refusals::Refusal;
use book::ledger::Book;
use charges::listed::{Listed, ListedRow};
use charges::rowsource::RowSource;
use numbers::numbered::Numbered;
use sharing::running::Running;

// Settles rows over two equal loads; what party 1 then owes.
fn settle_rows(book: &mut Book, rows: &[ListedRow], load: u32) -> Result<i128, Refusal> {
    book.open(2, 1)?;
    let source = RowSource {
        rows,
        reader: Listed,
    };
    book.settle(1, 1, &[load, load], &source, &Running)?;
    book.balance(1)
}

// The number and place of the refusal, or 0 and what party 1 then owes.
fn outcome(rows: &[ListedRow], load: u32) -> (u8, i128) {
    let mut slots = [USED_SLOT; 3];
    let mut entries = [USED_ENTRY; 6];
    let mut book = Book::over(&mut slots, &mut entries);
    match settle_rows(&mut book, rows, load) {
        Ok(balance) => (0, balance),
        Err(refusal) => (refusal.number(), refusal.place() as i128),
    }
}

fn row(resource: u16, party: u8, amount: i64) -> ListedRow {
    ListedRow {
        resource,
        party,
        amount,
    }
}

#[test]
fn a_total_at_its_limit_passes(rt: HostRuntime) {
    let rows = [row(1, 1, 3_000_000_000), row(2, 2, 2_000_000_000)];
    assert_eq!(rt; outcome(&rows, 1), (0, 500_000_000));
}

#[test]
fn one_cent_more_is_refused(rt: HostRuntime) {
    let rows = [row(1, 1, 3_000_000_000), row(2, 2, 2_000_000_001)];
    assert_eq!(rt; outcome(&rows, 1), (37, 0));
}

#[test]
fn no_lines_and_no_load_settle(rt: HostRuntime) {
    assert_eq!(rt; outcome(&[], 0), (0, 0));
}

#[test]
fn payments_without_load_are_refused(rt: HostRuntime) {
    let rows = [row(1, 1, -100)];
    assert_eq!(rt; outcome(&rows, 0), (38, 0));
}

#[test]
fn a_resource_must_rise(rt: HostRuntime) {
    let rows = [row(5, 1, -100), row(5, 2, -100)];
    assert_eq!(rt; outcome(&rows, 1), (36, 2));
}
