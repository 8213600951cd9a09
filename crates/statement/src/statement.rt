// Each party's standing settlements, with the steps to its lines, and its balance.
use crate::notes::Standing;
use crate::slots::{slot_at, slot_count, standing, type_name};
use day::records::{Settlement, SlotName};
use daybook::enrolled::Enrolled;
use daybook::ledger::{Ledger, Posted};
use daybook::tables::Tables;
use dayrun::report::Report;
use dayrun::teller::{Manner, Outlet, Teller};
use std::alloc::{AllocError, Global};

// The statements of all parties, or of the one that is named by its code or as # and its number.
#[derive(Drop)]
pub struct Statement<'a> {
    heap: Global,
    party: Option<&'a [u8]>,
    standing: Vec<Standing>,
    // whether a party was told
    pub told: bool,
}

impl<'a> Statement<'a> {
    pub fn new(heap: Global, party: Option<&'a [u8]>) -> Statement<'a> {
        Statement {
            heap,
            party,
            standing: Vec::new(heap),
            told: false,
        }
    }

    // What is noted of a slot.
    fn noted(&self, slot: SlotName) -> Option<&Standing> {
        self.standing.iter().find(|noted| noted.slot == slot)
    }

    // Forgets what was noted of a slot.
    fn forget(&mut self, slot: SlotName) {
        let place = self.standing.iter().position(|noted| noted.slot == slot);
        if let Some(place) = place {
            self.standing.swap_remove(place);
        }
    }

    // Tells the lines of a slot that are paid to a party.
    fn tell_lines<O: Outlet>(
        &self,
        slot: SlotName,
        party: usize,
        teller: &mut Teller<'_, O>,
    ) -> Result<(), AllocError> {
        if let Some(noted) = self.noted(slot) {
            for line in &noted.lines {
                if usize::from(line.party) == party {
                    teller.put(line.steps.text.as_slice())?;
                }
            }
        }
        Ok(())
    }

    // Tells how a party's charge came about.
    fn tell_charge<O: Outlet>(
        &self,
        slot: SlotName,
        load: u32,
        teller: &mut Teller<'_, O>,
    ) -> Result<(), AllocError> {
        if let Some(Standing { rule, posted, .. }) = self.noted(slot) {
            let Posted {
                paid,
                load: all,
                ..
            } = posted;
            writeln!(
                teller,
                "    charged by {rule}: the share of load {load} of {all} in -({paid})"
            )?;
        }
        Ok(())
    }

    // Tells one party's statement.
    fn tell_party<O: Outlet>(
        &self,
        code: &[u8],
        party: usize,
        intervals: u32,
        ledger: &Ledger<'_>,
        teller: &mut Teller<'_, O>,
    ) -> Result<(), AllocError> {
        write!(teller, "statement of ")?;
        teller.put(code)?;
        writeln!(teller, ", in cents; negative where it receives")?;
        for place in 0..slot_count(intervals) {
            let slot = slot_at(place);
            if let Some(told) = standing(ledger, slot, party) {
                writeln!(
                    teller,
                    "  {slot}, {}: load {} kWh, paid {}, charged {}",
                    type_name(slot),
                    told.load,
                    told.paid,
                    told.charged
                )?;
                self.tell_lines(slot, party, teller)?;
                self.tell_charge(slot, told.load, teller)?;
            }
        }
        match ledger.book.balance(party) {
            Ok(balance) => writeln!(teller, "  balance {balance}"),
            Err(_) => Ok(()),
        }
    }
}

impl Report for Statement<'_> {
    fn manner(&self) -> Manner {
        Manner::SILENT
    }

    fn settled(
        &mut self,
        settlement: &Settlement,
        posted: Posted,
        ledger: &Ledger<'_>,
        tables: &Tables,
    ) -> Result<(), AllocError> {
        self.forget(settlement.slot);
        let noted = Standing::of(self.heap, settlement, posted, ledger, tables)?;
        Ok(self.standing.push(noted)?)
    }

    fn voided(&mut self, slot: SlotName) -> Result<(), AllocError> {
        self.forget(slot);
        Ok(())
    }

    fn close<O: Outlet>(
        &mut self,
        enrolled: &Enrolled,
        ledger: Option<&Ledger<'_>>,
        teller: &mut Teller<'_, O>,
    ) -> Result<(), AllocError> {
        let Some(ledger) = ledger.filter(|ledger| ledger.shut.is_none()) else {
            return writeln!(teller, "no book was opened");
        };
        for party in 1..=enrolled.parties.count() {
            let Some(code) = enrolled.parties.code(party) else {
                continue;
            };
            let wanted = match self.party {
                Some(name) => enrolled.parties.is_named(name, party),
                None => true,
            };
            if wanted {
                self.told = true;
                self.tell_party(code, party, enrolled.intervals, ledger, teller)?;
            }
        }
        Ok(())
    }
}
