// Does the records of a text, one line after another.
ghost use Rattle.std.specs.Prelude.{◌≡◌};
ghost use Rattle.daybook.specs.Calls.{type_in};
ghost use Rattle.dayrun.specs.Does.{DoesOr, DaySettles, Voids};
ghost use Rattle.dayrun.specs.Reading.{IsRead};
ghost use Rattle.law.specs.Steps.{void as voiding};

use crate::blocks::Blocks;
use crate::lines::{Line, Lines};
use crate::report::Report;
use crate::teller::{Outlet, Tally, Teller};
use crate::words::Words;
use book::rows::{Entry, Slot};
use day::names::Name;
use day::reading::{Scene, read};
use day::records::{Call, PartyName, Record, Settlement, SlotName};
use daybook::answer::Answer;
use daybook::enrolled::Enrolled;
use daybook::ledger::{Ledger, Mode};
use daybook::notdone::NotDone;
use daybook::tables::Tables;
use std::alloc::Global;
use std::io;
use std::io::Read;
use text::fields::{Fault, Fields};

// The record of that name in the fields, or why it could not be read.
fn read_record<'t>(
    heap: Global,
    word: &[u8],
    fields: Fields<'t>,
    scene: &Scene<'_>,
    numbers: &mut Vec<i64>,
) -> Result<Record<'t>, Fault>
    ensures { IsRead scene.now word.now fields.entry.rest.now result }
{
    let name = Name::try_from(word)?;
    read(heap, name, fields, scene, numbers)
}

// The number of a party as the book takes it.
fn party_number(party: &PartyName<'_>) -> usize
    ensures { result ≡ party.now.number }
{
    usize::try_from(party.number).unwrap_or(usize::MAX)
}

// Settles or restates; an accepted settlement goes to the report.
fn settle<R: Report>(
    heap: Global,
    mode: Mode,
    settlement: &Settlement,
    ledger: &mut Ledger<'_>,
    tables: &Tables,
    report: &mut R,
) -> Result<Answer, NotDone>
    ensures { DaySettles mode settlement.now tables.now ledger.old.emergency.curves.records.now ledger.old.book result ledger.new.book }
{
    let posted = ledger.settle(heap, mode, settlement, tables)?;
    report.settled(settlement, posted, ledger, tables)?;
    Ok(Answer::Posted(posted))
}

// Voids; an accepted void goes to the report.
fn void<R: Report>(
    slot: SlotName,
    ledger: &mut Ledger<'_>,
    report: &mut R,
) -> Result<Answer, NotDone>
    ensures { Voids ledger.old.book (voiding (type_in slot) slot.interval) result ledger.new.book }
{
    ledger.void(slot)?;
    report.voided(slot)?;
    Ok(Answer::Done)
}

// Does a call; where the opening was refused, so is every call.
fn call<R: Report>(
    heap: Global,
    call: &Call<'_>,
    ledger: &mut Ledger<'_>,
    tables: &Tables,
    report: &mut R,
) -> Result<Answer, NotDone>
    ensures { DoesOr ledger.old.shut call.now tables.now ledger.old result ledger.new }
{
    if let Some(refused) = ledger.shut {
        return Err(NotDone::Refused(refused));
    }
    match call {
        Call::Settle(settlement) => settle(heap, Mode::Settle, settlement, ledger, tables, report),
        Call::Restate(settlement) => settle(
            heap,
            Mode::Restate,
            settlement,
            ledger,
            tables,
            report,
        ),
        Call::Void(slot) => void(*slot, ledger, report),
        Call::Balance(party) => Ok(Answer::Balance(ledger.book.balance(party_number(party))?)),
        Call::Entry(slot, party) => Ok(Answer::Entry(ledger.entry(*slot, party_number(party))?)),
        Call::Energy(source) => Ok(Answer::Energy(ledger.energy(heap, *source, tables)?)),
    }
}

// How far the records of a block were done.
#[derive(Clone, Copy, PartialEq, Eq, Debug)]
enum Reached {
    // all of them; the number of the line behind them
    End(u64),
    // up to the first call: the number of its line, and how many bytes there are from that line on
    Call(u64, usize),
}

// Does the records of a block before the first call.
fn gather<O: Outlet>(
    heap: Global,
    mut number: u64,
    block: &[u8],
    enrolled: &mut Enrolled,
    tables: &mut Tables,
    teller: &mut Teller<'_, O>,
) -> io::Result<Reached> {
    let mut numbers = Vec::new(heap);
    for line in Lines::numbered(number, block) {
        if line.is_passed_over() {
            teller.show(line.text)?;
        } else {
            let (word, fields) = Fields::of(line.text);
            let scene = tables.scene(&enrolled.parties, true);
            let (words, outcome) = match read_record(heap, word, fields, &scene, &mut numbers) {
                Ok(Record::Call(_)) => return Ok(Reached::Call(line.number, line.from.len())),
                Ok(Record::Enrolment(enrolment)) => (
                    Words::None,
                    enrolled
                        .add(heap, enrolment)
                        .map(|()| Answer::Silent)
                        .map_err(NotDone::from),
                ),
                Ok(Record::Change(change)) => (Words::of_change(&change), tables.make(change)),
                Err(fault) => (Words::None, Err(NotDone::from(fault))),
            };
            teller.show(line.text)?;
            teller.answer(line.number, word, words, outcome)?;
        }
        teller.pass_on(line.number)?;
        number = line.number.saturating_add(1);
    }
    Ok(Reached::End(number))
}

// Does the records of a block from the first call on; answers the number of the line behind them.
fn go_on<R: Report, O: Outlet>(
    heap: Global,
    mut number: u64,
    block: &[u8],
    enrolled: &Enrolled,
    tables: &mut Tables,
    ledger: &mut Ledger<'_>,
    report: &mut R,
    teller: &mut Teller<'_, O>,
) -> io::Result<u64> {
    let mut numbers = Vec::new(heap);
    for line in Lines::numbered(number, block) {
        if line.is_passed_over() {
            teller.show(line.text)?;
        } else {
            let (word, fields) = Fields::of(line.text);
            let scene = tables.scene(&enrolled.parties, false);
            let (words, outcome) = match read_record(heap, word, fields, &scene, &mut numbers) {
                Ok(Record::Call(asked)) => (
                    Words::of_call(&asked),
                    call(heap, &asked, ledger, tables, report),
                ),
                // none is read once the first call was met
                Ok(Record::Enrolment(_)) => (Words::None, Err(NotDone::Malformed(0))),
                Ok(Record::Change(change)) => (Words::of_change(&change), tables.make(change)),
                Err(fault) => (Words::None, Err(NotDone::from(fault))),
            };
            teller.show(line.text)?;
            teller.answer(line.number, word, words, outcome)?;
        }
        teller.pass_on(line.number)?;
        number = line.number.saturating_add(1);
    }
    Ok(number)
}

// Does the records before the first call, block by block; answers the number of that call's line, if there is one. Its block is kept from
// that line on.
fn gather_all<I: Read, O: Outlet>(
    heap: Global,
    blocks: &mut Blocks<'_, I>,
    enrolled: &mut Enrolled,
    tables: &mut Tables,
    teller: &mut Teller<'_, O>,
) -> io::Result<Option<u64>> {
    let mut number = 1;
    for _ in 0..u64::MAX {
        if !blocks.advance()? {
            break;
        }
        match gather(heap, number, blocks.lines(), enrolled, tables, teller)? {
            Reached::End(next) => number = next,
            Reached::Call(first, left) => {
                blocks.keep(left);
                return Ok(Some(first));
            }
        }
    }
    Ok(None)
}

// Does the records from the first call on, block by block.
fn go_on_to_the_end<I: Read, R: Report, O: Outlet>(
    heap: Global,
    first: u64,
    blocks: &mut Blocks<'_, I>,
    enrolled: &Enrolled,
    tables: &mut Tables,
    ledger: &mut Ledger<'_>,
    report: &mut R,
    teller: &mut Teller<'_, O>,
) -> io::Result<()> {
    let mut number = first;
    for _ in 0..u64::MAX {
        number = go_on(
            heap,
            number,
            blocks.lines(),
            enrolled,
            tables,
            ledger,
            report,
            teller,
        )?;
        if !blocks.advance()? {
            break;
        }
    }
    Ok(())
}

// Does the records of a text, and tells what the report makes of them.
pub fn run<I: Read, R: Report, O: Outlet>(
    heap: Global,
    input: &mut I,
    report: &mut R,
    outlet: &mut O,
) -> io::Result<Tally> {
    let mut blocks = Blocks::of(heap, input);
    let mut teller = Teller::new(heap, outlet, report.manner());
    let mut enrolled = Enrolled::new(heap);
    let mut tables = Tables::new(heap);
    match gather_all(heap, &mut blocks, &mut enrolled, &mut tables, &mut teller)? {
        Some(first) => {
            let codes = enrolled.parties.codes(heap)?;
            let mut slots = Vec::from_elem(heap, Slot::default(), enrolled.slots())?;
            let mut entries = Vec::from_elem(heap, Entry::default(), enrolled.entries())?;
            let mut ledger = Ledger::open(
                heap,
                &enrolled,
                codes.as_slice(),
                slots.as_mut_slice(),
                entries.as_mut_slice(),
            );
            teller.opening(first, &enrolled, ledger.shut)?;
            go_on_to_the_end(
                heap,
                first,
                &mut blocks,
                &enrolled,
                &mut tables,
                &mut ledger,
                report,
                &mut teller,
            )?;
            report.close(&enrolled, Some(&ledger), &mut teller)?;
        }
        None => report.close(&enrolled, None, &mut teller)?,
    }
    teller.close()
}
