// The standing settlements as a journal that plain-text accounting programs read: a transaction for each, in dollars.
use crate::slots::{slot_at, slot_count, standing, type_name};
use day::records::SlotName;
use daybook::enrolled::Enrolled;
use daybook::ledger::Ledger;
use dayrun::report::Report;
use dayrun::teller::{Manner, Outlet, Teller};
use std::alloc::AllocError;
use std::fmt;

// Cents as dollars with two decimals.
#[derive(Clone, Copy, PartialEq, Eq, Debug)]
struct Dollars(i128);

impl fmt::Display for Dollars {
    fn fmt<W: fmt::Write>(&self, f: &mut fmt::Formatter<W>) -> fmt::Result {
        let magnitude = self.0.unsigned_abs();
        let sign = if self.0 < 0 { "-" } else { "" };
        write!(f, "${sign}{}.{:02}", magnitude / 100, magnitude % 100)
    }
}

// The journal, of which every transaction has the same date.
#[derive(Clone, Copy)]
pub struct Journal<'a> {
    pub date: &'a str,
}

// An amount on a party's account; one of 0 is left out.
fn tell_posting<O: Outlet>(
    code: &[u8],
    cents: i64,
    what: &str,
    teller: &mut Teller<'_, O>,
) -> Result<(), AllocError> {
    if cents == 0 {
        return Ok(());
    }
    teller.put(b"    parties:")?;
    teller.put(code)?;
    writeln!(teller, "  {}  ; {what}", Dollars(i128::from(cents)))
}

impl Journal<'_> {
    // The directives: the commodity, and an account for each party.
    fn tell_accounts<O: Outlet>(
        &self,
        enrolled: &Enrolled,
        teller: &mut Teller<'_, O>,
    ) -> Result<(), AllocError> {
        writeln!(
            teller,
            "; The uplift of one day in dollars; negative where a party receives. All transactions bear one date."
        )?;
        writeln!(teller, "commodity $")?;
        writeln!(teller, "    format $1000.00")?;
        writeln!(teller)?;
        for party in 1..=enrolled.parties.count() {
            if let Some(code) = enrolled.parties.code(party) {
                teller.put(b"account parties:")?;
                teller.put(code)?;
                writeln!(teller)?;
            }
        }
        Ok(())
    }

    // A transaction for a standing slot: what each party was paid, and what it was charged.
    fn tell_slot<O: Outlet>(
        &self,
        slot: SlotName,
        enrolled: &Enrolled,
        ledger: &Ledger<'_>,
        teller: &mut Teller<'_, O>,
    ) -> Result<(), AllocError> {
        writeln!(teller)?;
        writeln!(
            teller,
            "{} * ({slot}) {}, interval {}",
            self.date,
            type_name(slot),
            slot.interval
        )?;
        for party in 1..=enrolled.parties.count() {
            if let (Some(code), Some(told)) = (
                enrolled.parties.code(party),
                standing(ledger, slot, party),
            ) {
                tell_posting(code, told.paid, "paid", teller)?;
                tell_posting(code, told.charged, "charged", teller)?;
            }
        }
        Ok(())
    }

    // A last transaction that posts nothing and states each party's balance.
    fn tell_balances<O: Outlet>(
        &self,
        enrolled: &Enrolled,
        ledger: &Ledger<'_>,
        teller: &mut Teller<'_, O>,
    ) -> Result<(), AllocError> {
        writeln!(teller)?;
        writeln!(teller, "{} * balances", self.date)?;
        for party in 1..=enrolled.parties.count() {
            if let (Some(code), Ok(balance)) = (
                enrolled.parties.code(party),
                ledger.book.balance(party),
            ) {
                teller.put(b"    parties:")?;
                teller.put(code)?;
                writeln!(teller, "  $0.00 = {}", Dollars(balance))?;
            }
        }
        Ok(())
    }
}

impl Report for Journal<'_> {
    fn manner(&self) -> Manner {
        Manner::SILENT
    }

    fn close<O: Outlet>(
        &mut self,
        enrolled: &Enrolled,
        ledger: Option<&Ledger<'_>>,
        teller: &mut Teller<'_, O>,
    ) -> Result<(), AllocError> {
        let Some(ledger) = ledger.filter(|ledger| ledger.shut.is_none()) else {
            return writeln!(teller, "; no book was opened");
        };
        self.tell_accounts(enrolled, teller)?;
        for place in 0..slot_count(enrolled.intervals) {
            let slot = slot_at(place);
            if standing(ledger, slot, 1).is_some() {
                self.tell_slot(slot, enrolled, ledger, teller)?;
            }
        }
        self.tell_balances(enrolled, ledger, teller)
    }
}
