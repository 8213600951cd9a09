// What is made of a day beside its answers.
use crate::meaning::TOTAL_MEANING;
use crate::teller::{Manner, Outlet, Teller};
use day::records::{Settlement, SlotName};
use daybook::enrolled::Enrolled;
use daybook::ledger::{Ledger, Posted};
use daybook::tables::Tables;
use std::alloc::AllocError;

pub trait Report {
    // How the records are answered.
    fn manner(&self) -> Manner;

    // A settlement was accepted; it stands in its slot in place of any before. A report that needs no notes takes none.
    fn settled(
        &mut self,
        _settlement: &Settlement,
        _posted: Posted,
        _ledger: &Ledger<'_>,
        _tables: &Tables,
    ) -> Result<(), AllocError> {
        Ok(())
    }

    // A slot was voided.
    fn voided(&mut self, _slot: SlotName) -> Result<(), AllocError> {
        Ok(())
    }

    // Tells what is to be told once every record is done.
    fn close<O: Outlet>(
        &mut self,
        enrolled: &Enrolled,
        ledger: Option<&Ledger<'_>>,
        teller: &mut Teller<'_, O>,
    ) -> Result<(), AllocError>;
}

// The answers of the records, and at the end the balances.
#[derive(Clone, Copy, PartialEq, Eq, Debug)]
pub struct Run {
    pub manner: Manner,
}

// Each party's balance, and their sum.
fn tell_balances<O: Outlet>(
    enrolled: &Enrolled,
    ledger: &Ledger<'_>,
    teller: &mut Teller<'_, O>,
) -> Result<(), AllocError> {
    writeln!(teller, "balances")?;
    let mut total = 0i128;
    for party in 1..=enrolled.parties.count() {
        if let (Some(code), Ok(balance)) = (
            enrolled.parties.code(party),
            ledger.book.balance(party),
        ) {
            teller.put(code)?;
            writeln!(teller, " {balance}")?;
            total = total.saturating_add(balance);
        }
    }
    write!(teller, "total {total}")?;
    teller.end(TOTAL_MEANING)
}

impl Report for Run {
    fn manner(&self) -> Manner {
        self.manner
    }

    fn close<O: Outlet>(
        &mut self,
        enrolled: &Enrolled,
        ledger: Option<&Ledger<'_>>,
        teller: &mut Teller<'_, O>,
    ) -> Result<(), AllocError> {
        match ledger {
            Some(ledger) if ledger.shut.is_none() => tell_balances(enrolled, ledger, teller),
            _ => Ok(()),
        }
    }
}
