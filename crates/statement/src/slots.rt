// The slots of a book, and how one is told.
ghost use Rattle.std.specs.Prelude.{◌≡◌, ◌+◌, ◌*◌, ◌/◌, ◌%◌, min};

use assess::slots::ChargeType;
use book::rows::Told;
use day::records::SlotName;
use daybook::ledger::Ledger;

// The slots by interval, and in an interval by type: the slot at a place, from 0.
pub fn slot_at(place: u32) -> SlotName
    ensures charge_type { result.charge_type ≡ place % 3 + 1 }
    ensures interval { result.interval ≡ place / 3 + 1 }
{
    SlotName {
        charge_type: place % 3 + 1,
        interval: (place / 3).saturating_add(1),
    }
}

// How many slots a day of so many intervals has.
pub fn slot_count(intervals: u32) -> u32
    ensures { result ≡ 3 * min intervals 100 }
{
    intervals.min(100) * 3
}

// The charge type's name in words.
pub fn type_name(slot: SlotName) -> &'static str {
    match slot.charge_type {
        1 => "emergency energy",
        2 => "operating losses",
        _ => "small generation sites",
    }
}

// What stands in a slot for a party, if it stands.
pub fn standing(ledger: &Ledger<'_>, slot: SlotName, party: usize) -> Option<Told> {
    let told = ledger.entry(slot, party).ok()?;
    if told.stands { Some(told) } else { None }
}
