// Opening a book over two lent tables.
ghost use Rattle.std.specs.Prelude.{◌≡◌};
ghost use Rattle.book.specs.Books.{model, Opens};
ghost use Rattle.book.specs.Model.{means};

use super::Book;
use crate::rows::{Entry, Slot};
use assess::limits::{MOST_INTERVALS, MOST_PARTIES};
use assess::refusals::Refusal;
use assess::slots::ChargeType;

impl<'a> Book<'a> {
    // A book over two tables, not open yet: it has no parties and no intervals, so that every call on it is refused.
    pub fn over(slots: &'a mut [Slot], entries: &'a mut [Entry]) -> Book<'a>
        ensures model { model result ≡ means 0 0 slots.old entries.old }
        ensures slots { (result.slots.now ≡ slots.old) × (result.slots.ghost_name ≡ slots.entry.ghost_name) }
        ensures entries { (result.entries.now ≡ entries.old) × (result.entries.ghost_name ≡ entries.entry.ghost_name) }
    {
        Book {
            parties: 0,
            intervals: 0,
            slots,
            entries,
        }
    }

    // Opens the book: clears what it needs, and leaves the surplus.
    pub fn open(&mut self, parties: usize, intervals: usize) -> Result<(), Refusal>
        ensures { Opens parties intervals self.old result self.new }
    {
        if !(1..=MOST_PARTIES).contains(&parties) || !(1..=MOST_INTERVALS).contains(&intervals) {
            return Err(Refusal::Size);
        }
        let slots = ChargeType::ALL.len() * intervals;
        let entries = slots * parties;
        if self.slots.len() < slots || self.entries.len() < entries {
            return Err(Refusal::Size);
        }
        self.slots[..slots].fill(Slot::default());
        self.entries[..entries].fill(Entry::default());
        self.parties = parties;
        self.intervals = intervals;
        Ok(())
    }
}
