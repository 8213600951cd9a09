// The open book of a day, and the sources that its calls name.
ghost use Rattle.std.specs.Prelude.{◌≡◌, IfOk, OnOk, None, length, pos, take};
ghost use Rattle.assess.specs.Refusals.{said};
ghost use Rattle.book.specs.Books.{model, Moves, said_entry};
ghost use Rattle.charges.specs.Listed.{listed_line};
ghost use Rattle.daybook.specs.Calls.{type_in, asked_over, asked, settled_lines, posted_over, told_at, paid_in, load_in, NeedsMemory, Posts, EnergyTold, DayEnergy};
ghost use Rattle.daybook.specs.Verdicts.{opening_checks, OpenedOr};
ghost use Rattle.law.specs.Runs.{Opened};
ghost use Rattle.law.specs.Steps.{Step, void as voiding, look as asks_entry};
ghost use Rattle.losses.specs.Lines.{loss_line};
ghost use Rattle.numbers.specs.Checks.{Unambiguous};
ghost use Rattle.quarters.specs.Quarters.{slices_of};

use crate::enrolled::Enrolled;
use crate::notdone::{NotDone, Refused};
use crate::tables::Tables;
use crate::worked::WorkedRows;
use assess::limits::MOST_PARTIES;
use assess::refusals::Refusal;
use book::ledger::Book;
use book::rows::{Entry, Slot, Told};
use charges::energy::energy;
use charges::interface::{BasisSource, LineSource};
use charges::limits::MOST_LINES;
use charges::listed::{Listed, ListedRow};
use charges::rowsource::RowSource;
use day::held::Held;
use day::records::{Settlement, SlotName, SourceName};
use directory::lookup::Directory;
use directory::parties::PartyCode;
use losses::reader::LossReader;
use losses::row::LossRow;
use std::alloc::{AllocError, Global};

// The operating-loss rows as a source.
pub fn loss_source(tables: &Tables) -> RowSource<'_, LossRow, LossReader>
    ensures { result.rows.now ≡ tables.now.losses.items }
{
    RowSource {
        rows: tables.losses.as_slice(),
        reader: LossReader,
    }
}

// The listed rows as a source.
pub fn listed_source(tables: &Tables) -> RowSource<'_, ListedRow, Listed>
    ensures { result.rows.now ≡ tables.now.listed.items }
{
    RowSource {
        rows: tables.listed.as_slice(),
        reader: Listed,
    }
}

// Whether a slot is settled for the first time or again.
#[derive(Clone, Copy, PartialEq, Eq, Debug)]
pub enum Mode {
    Settle,
    Restate,
}

// What a settlement posted: how many lines, T and the total load.
#[derive(Clone, Copy, PartialEq, Eq, Debug)]
pub struct Posted {
    pub lines: usize,
    pub paid: i128,
    pub load: u64,
}

// An interval as the book takes it.
fn interval_of(slot: SlotName) -> usize
    ensures { result ≡ slot.interval }
{
    usize::try_from(slot.interval).unwrap_or(usize::MAX)
}

#[derive(Drop)]
pub struct Ledger<'d> {
    pub book: Book<'d>,
    // the emergency rows that were worked out last, and the curves
    pub emergency: WorkedRows<'d>,
    // why the opening was refused, if it was
    pub shut: Option<Refused>,
}

impl<'d> Ledger<'d> {
    // Opens the book of a day over its tables of slots and entries.
    #[tactic(auto, using(numbers::proofs::Checks::one_answer))]
    pub fn open(
        heap: Global,
        enrolled: &'d Enrolled,
        codes: &[PartyCode],
        slots: &'d mut [Slot],
        entries: &'d mut [Entry],
    ) -> Ledger<'d>
        ensures opened { result.shut ≡ None → Opened (length enrolled.now.parties) enrolled.now.intervals (model result.book) }
        ensures curves { result.shut ≡ None → result.emergency.curves.records.now ≡ enrolled.now.curves.items }
        ensures verdict { OpenedOr (opening_checks codes.now enrolled.now.curves.items (length enrolled.now.parties) enrolled.now.intervals (length slots.old) (length entries.old)) result.shut }
        ensures once { Unambiguous (opening_checks codes.now enrolled.now.curves.items (length enrolled.now.parties) enrolled.now.intervals (length slots.old) (length entries.old)) }
    {
        let mut book = Book::over(slots, entries);
        match enrolled.directory(codes) {
            Ok(curves) => {
                let opened = book.open(enrolled.parties.count(), enrolled.intervals());
                Ledger {
                    book,
                    emergency: WorkedRows::none(heap, curves),
                    shut: opened.err().map(Refused::from),
                }
            }
            Err(refusal) => Ledger {
                book,
                emergency: WorkedRows::none(heap, Directory::empty()),
                shut: Some(Refused::from(refusal)),
            },
        }
    }
}

// Settles or restates over a source.
fn post<S: LineSource>(
    book: &mut Book<'_>,
    mode: Mode,
    settlement: &Settlement,
    source: &S,
) -> Result<usize, NotDone>
    ensures posts { Posts ⊥ book.old (asked_over mode settlement.now (S.LineSource.lines source.now)) result book.new }
    ensures lines { IfOk result (λ lines. lines ≡ length (S.LineSource.lines source.now)) }
{
    let Settlement {
        slot,
        rule,
        loads,
        ..
    } = settlement;
    let charge_type = u8::held(slot.charge_type);
    let interval = interval_of(*slot);
    let loads = loads.as_slice();
    match mode {
        Mode::Settle => book.settle(charge_type, interval, loads, source, rule)?,
        Mode::Restate => book.restate(charge_type, interval, loads, source, rule)?,
    }
    Ok(source.count())
}

// The energy of a source.
fn energy_of<S: BasisSource>(source: &S) -> Result<u64, NotDone>
    ensures { EnergyTold ⊥ (S.LineSource.lines source.now) (S.BasisSource.basis_of source.now) result }
{
    Ok(energy(source)?)
}

impl Ledger<'_> {
    // Settles or restates over the table that the settlement names, under the layers: how many lines.
    fn put(
        &mut self,
        heap: Global,
        mode: Mode,
        settlement: &Settlement,
        tables: &Tables,
    ) -> Result<usize, NotDone>
        ensures posts { Posts (NeedsMemory settlement.now.source) self.old.book (asked mode settlement.now tables.now self.old.emergency.curves.records.now) result self.new.book }
        ensures lines { IfOk result (λ lines. lines ≡ length (settled_lines settlement.now tables.now self.old.emergency.curves.records.now)) }
    {
        let layers = &tables.layers;
        match settlement.source {
            SourceName::Emergency => {
                self.work_out(heap, tables)?;
                let source = layers.over(self.emergency.source());
                post(&mut self.book, mode, settlement, &source)
            }
            SourceName::Loss => {
                let source = layers.over(loss_source(tables));
                post(&mut self.book, mode, settlement, &source)
            }
            SourceName::Listed => {
                let source = layers.over(listed_source(tables));
                post(&mut self.book, mode, settlement, &source)
            }
        }
    }

    // Settles or restates, and tells what the slot then holds.
    pub fn settle(
        &mut self,
        heap: Global,
        mode: Mode,
        settlement: &Settlement,
        tables: &Tables,
    ) -> Result<Posted, NotDone>
        ensures posts { Posts (NeedsMemory settlement.now.source) self.old.book (asked mode settlement.now tables.now self.old.emergency.curves.records.now) result self.new.book }
        ensures figures { IfOk result (λ posted. posted ≡ posted_over settlement.now (settled_lines settlement.now tables.now self.old.emergency.curves.records.now)) }
    {
        let lines = self.put(heap, mode, settlement, tables)?;
        Ok(self.posted(settlement.slot, lines))
    }

    // Works the emergency rows out: of too many, one more than a call takes, since it is refused for their number.
    #[tactic(auto, using(crate::proofs::WorkedOut::first_rows))]
    fn work_out(&mut self, heap: Global, tables: &Tables) -> Result<(), AllocError>
        ensures book { self.new.book ≡ self.old.book }
        ensures curves { self.new.emergency.curves ≡ self.old.emergency.curves }
        ensures slices { OnOk result (slices_of self.new.emergency.quarter ≡ slices_of tables.now.emergency_quarter) }
        ensures rows { OnOk result (self.new.emergency.rows.items ≡ take 257 tables.now.emergency.items) }
    {
        let rows = tables.emergency.as_slice();
        let taken = &rows[..rows.len().min(MOST_LINES + 1)];
        self.emergency.renew(heap, &tables.emergency_quarter, taken)
    }

    // What is kept for a party in a slot; zeros where there is no such party.
    fn kept(&self, slot: SlotName, party: usize) -> Told
        ensures load { result.load ≡ (told_at (model self.now.book) (type_in slot) slot.interval party).load }
        ensures paid { result.paid ≡ (told_at (model self.now.book) (type_in slot) slot.interval party).paid }
    {
        self.entry(slot, party).unwrap_or_default()
    }

    // What stands in a slot of so many lines, added up over as many parties as a book may have.
    fn posted(&self, slot: SlotName, lines: usize) -> Posted
        ensures lines { result.lines ≡ lines }
        ensures paid { result.paid ≡ paid_in (model self.now.book) (type_in slot) slot.interval }
        ensures load { pos result.load ≡ load_in (model self.now.book) (type_in slot) slot.interval }
    {
        let mut paid = 0;
        let mut load = 0;
        for party in 1..=MOST_PARTIES {
            let kept = self.kept(slot, party);
            paid += i128::from(kept.paid);
            load += u64::from(kept.load);
        }
        Posted { lines, paid, load }
    }

    pub fn void(&mut self, slot: SlotName) -> Result<(), Refusal>
        ensures { Moves self.old.book (voiding (type_in slot) slot.interval) (said result) self.new.book }
    {
        self.book
            .void(u8::held(slot.charge_type), interval_of(slot))
    }

    pub fn entry(&self, slot: SlotName, party: usize) -> Result<Told, Refusal>
        ensures { Step (model self.now.book) (asks_entry (type_in slot) slot.interval party) (said_entry result) (model self.now.book) }
    {
        self.book
            .entry(u8::held(slot.charge_type), interval_of(slot), party)
    }

    // The energy of the table of that name, under the layers.
    pub fn energy(
        &mut self,
        heap: Global,
        name: SourceName,
        tables: &Tables,
    ) -> Result<u64, NotDone>
        ensures energy { DayEnergy name tables.now self.old.emergency.curves.records.now result }
        ensures book { self.new.book ≡ self.old.book }
    {
        let layers = &tables.layers;
        match name {
            SourceName::Emergency => {
                self.work_out(heap, tables)?;
                let source = layers.over(self.emergency.source());
                energy_of(&source)
            }
            SourceName::Loss => {
                let source = layers.over(loss_source(tables));
                energy_of(&source)
            }
            SourceName::Listed => {
                let source = layers.over(listed_source(tables));
                energy_of(&source)
            }
        }
    }
}
