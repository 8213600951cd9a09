// What a book answers without being altered.
ghost use Rattle.law.specs.Steps.{Step, balance as asks_balance, look as asks_entry};
ghost use Rattle.assess.specs.Refusals.{said_balance};
ghost use Rattle.book.specs.Books.{model, said_entry};

use super::Book;
use crate::rows::Told;
use assess::checks::check_party;
use assess::refusals::Refusal;
use assess::slots::{ChargeType, SlotId};

impl<'a> Book<'a> {
    // The sum of a party's paid and charged over all standing slots.
    pub fn balance(&self, party: usize) -> Result<i128, Refusal>
        ensures { Step (model self.now) (asks_balance party) (said_balance result) (model self.now) }
    {
        check_party(self.parties, party)?;
        let mut sum = 0;
        for at in 0..ChargeType::ALL.len() * self.intervals {
            if self.slots[at].stands {
                let entry = self.entries[at * self.parties + (party - 1)];
                sum += i128::from(entry.paid) + i128::from(entry.charged);
            }
        }
        Ok(sum)
    }

    // Whether a slot stands, and one party's load, paid and charged in it.
    // Kept: the slot by its two numbers, of which those that name none are refused.
    pub fn entry(&self, charge_type: u8, interval: usize, party: usize) -> Result<Told, Refusal>
        ensures { Step (model self.now) (asks_entry charge_type interval party) (said_entry result) (model self.now) }
    {
        let slot = SlotId::of(self.intervals, charge_type, interval)?;
        check_party(self.parties, party)?;
        Ok(self.kept(slot, party).map_or(Told::default(), Told::from))
    }
}
