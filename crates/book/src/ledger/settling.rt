// Settle, restate and void.
ghost use Rattle.std.specs.Prelude.{◌≡◌, ℕ, ◌-◌, ◌≤◌, length, pos, IfOk, sum, OnOk, slice_index_or};
ghost use Rattle.std.specs.Result.{IfErr};
ghost use Rattle.walk.specs.Totals.{total_of, sum_for};
ghost use Rattle.law.specs.Settlements.{Among};
ghost use Rattle.law.specs.Steps.{first, checks, settle as settling, restate as restating, void as voiding};
ghost use Rattle.assess.specs.Refusals.{raised, said, NamesParty};
ghost use Rattle.assess.specs.Slots.{type_number, Within};
ghost use Rattle.assess.specs.Halves.{slot_checks};
ghost use Rattle.book.specs.Model.{named, row, blank};
ghost use Rattle.book.specs.Books.{model, Moves, brought};

use super::Book;
use crate::rows::Entry;
use assess::assessing::{Totals, work_out};
use assess::checks::{check_count, check_loads, check_stands};
use assess::limits::MOST_PARTIES;
use assess::refusals::Refusal;
use assess::slots::SlotId;
use charges::interface::LineSource;
use sharing::rule::SharingRule;

// Writes one slot's entries in place of what it held.
fn write_row(entries: &mut [Entry], loads: &[u32], paid: &[i64], charged: &[i64])
    requires loads { length loads.now ≡ length entries.old }
    requires paid { length entries.old ≤ length paid.now }
    requires charged { length entries.old ≤ length charged.now }
    ensures { (p : ℕ) → Among p (length entries.old) → slice_index_or entries.new (p - 1) blank ≡ row loads.now paid.now charged.now p }
{
    // Kept: the entries by their place, since of entries that a zip lends out nothing would be known once they are written.
    for (k, ((load, paid), charged)) in loads.iter().zip(paid).zip(charged).enumerate() {
        entries[k] = Entry {
            load: *load,
            paid: *paid,
            charged: *charged,
        };
    }
}

impl<'a> Book<'a> {
    // Settles a slot that does not stand.
    // Kept: the slot by its two numbers, of which those that name none are refused.
    pub fn settle<S: LineSource, R: SharingRule>(
        &mut self,
        charge_type: u8,
        interval: usize,
        loads: &[u32],
        source: &S,
        rule: &R,
    ) -> Result<(), Refusal>
        ensures moves { Moves self.old (settling charge_type interval (brought loads.entry.now (S.LineSource.lines source.now) (R.SharingRule.meaning rule.now))) (said result) self.new }
        ensures party { IfErr result NamesParty }
    {
        self.put(false, charge_type, interval, loads, source, rule)
    }

    // Settles a standing slot again, in place of what it held.
    // Kept: the slot by its two numbers, of which those that name none are refused.
    pub fn restate<S: LineSource, R: SharingRule>(
        &mut self,
        charge_type: u8,
        interval: usize,
        loads: &[u32],
        source: &S,
        rule: &R,
    ) -> Result<(), Refusal>
        ensures moves { Moves self.old (restating charge_type interval (brought loads.entry.now (S.LineSource.lines source.now) (R.SharingRule.meaning rule.now))) (said result) self.new }
        ensures party { IfErr result NamesParty }
    {
        self.put(true, charge_type, interval, loads, source, rule)
    }

    // Clears a standing slot.
    // Kept: the slot by its two numbers, of which those that name none are refused.
    pub fn void(&mut self, charge_type: u8, interval: usize) -> Result<(), Refusal>
        ensures { Moves self.old (voiding charge_type interval) (said result) self.new }
    {
        let slot = SlotId::of(self.intervals, charge_type, interval)?;
        let at = self.place(slot);
        check_stands(self.slots[at].stands, true)?;
        let row = self.row(at);
        self.entries[row].fill(Entry::default());
        self.slots[at].stands = false;
        Ok(())
    }

    // Settle and restate: `wanted` says whether the slot has to stand.
    // Kept: `wanted` is a plain mark, since it is compared with the slot's own.
    fn put<S: LineSource, R: SharingRule>(
        &mut self,
        wanted: bool,
        charge_type: u8,
        interval: usize,
        loads: &[u32],
        source: &S,
        rule: &R,
    ) -> Result<(), Refusal>
        ensures moves { Moves self.old (named wanted charge_type interval (brought loads.entry.now (S.LineSource.lines source.now) (R.SharingRule.meaning rule.now))) (said result) self.new }
        ensures party { IfErr result NamesParty }
    {
        let slot = SlotId::of(self.intervals, charge_type, interval)?;
        // Kept: amounts for as many parties as a book can have, since nothing is allocated and a rule writes its shares into a slice.
        let mut paid = [0; MOST_PARTIES];
        let mut charged = [0; MOST_PARTIES];
        let totals = self.checked(wanted, slot, loads, source, &mut paid)?;
        totals.charge(rule, loads, &mut charged);
        let at = self.place(slot);
        let row = self.row(at);
        write_row(&mut self.entries[row], loads, &paid, &charged);
        self.slots[at].stands = true;
        Ok(())
    }

    // The checks of settle and restate in the table's order. Accepted, it answers T and the total load, and `paid` holds what each party is paid.
    fn checked<S: LineSource>(
        &self,
        wanted: bool,
        slot: SlotId,
        loads: &[u32],
        source: &S,
        paid: &mut [i64],
    ) -> Result<Totals, Refusal>
        requires slot { Within self.now.intervals slot }
        requires room { MOST_PARTIES ≤ length paid.old }
        ensures checks { raised result ≡ first (checks self.now.parties self.now.intervals ((model self.now).stands (type_number slot.charge_type) slot.interval) wanted (type_number slot.charge_type) slot.interval loads.now (S.LineSource.lines source.now)) }
        ensures party { IfErr result NamesParty }
        ensures sums { IfOk result (λ x. (x.total ≡ total_of (S.LineSource.lines source.now)) × (x.load ≡ sum loads.now)) }
        ensures paid { OnOk result ((p : ℕ) → Among p self.now.parties → slice_index_or paid.new (p - 1) (pos 0) ≡ sum_for p (S.LineSource.lines source.now)) }
    {
        self.check_front(wanted, slot, loads)?;
        work_out(
            self.parties,
            slot.charge_type.number(),
            slot.interval,
            loads,
            source,
            paid,
        )
    }

    // The checks on the slot and the loads.
    fn check_front(&self, wanted: bool, slot: SlotId, loads: &[u32]) -> Result<(), Refusal>
        requires { Within self.now.intervals slot }
        ensures checks { raised result ≡ first (slot_checks self.now.parties self.now.intervals ((model self.now).stands (type_number slot.charge_type) slot.interval) wanted (type_number slot.charge_type) slot.interval loads.now) }
        ensures party { IfErr result NamesParty }
    {
        check_count(self.parties, loads)?;
        check_loads(loads)?;
        let at = self.place(slot);
        check_stands(self.slots[at].stands, wanted)
    }
}
