// The parties in the order in which they were enrolled.
ghost use Rattle.std.specs.Prelude.{◌≡◌, ◌-◌, ◌<◌, ◌↔◌, ◌⊎◌, [], ◌∷◌, ◌++◌, length, slice_get, is_ok, if◌then◌else◌, IfOk, IfSome, IsNone, IsTrue, Some, List, map, ℕ};
ghost use Rattle.day.specs.Texts.{party};
ghost use Rattle.day.specs.Parties.{number_of, Agrees, HasCode, GoesBy};
ghost use Rattle.directory.specs.Codes.{meaning_of, sense_of};

use directory::parties::PartyCode;
use std::alloc::{AllocError, Global};
use std::collections::HashMap;
use std::marker::Model;
use text::numbers::number_in;

#[derive(Drop)]
pub struct Roll {
    codes: Vec<Vec<u8>>,
    // for each code, the number of the first party that has it
    numbers: HashMap<Vec<u8>, u32>,
}

// Clauses see the codes; the numbers agree with them.
impl Model for Roll {
    ghost Value = { List (List ℕ) };

    ghost view = { λ roll. map (λ code. code.items) roll.codes.items };

    ghost invariant = { λ roll. Agrees roll.numbers (map (λ code. code.items) roll.codes.items) };
}

impl Roll {
    pub fn new(heap: Global) -> Roll
        ensures { result ≡ [] }
    {
        Roll {
            codes: Vec::new(heap),
            numbers: HashMap::new(heap),
        }
    }

    // How many parties there are.
    pub fn count(&self) -> usize
        ensures { result ≡ length self.now }
    {
        self.codes.len()
    }

    // One more party, behind the others. Room for its code is made first, so that no number is kept that no party has. A number has
    // 32 bits, and more parties than it counts are refused as too many for the memory.
    pub fn enrol(&mut self, heap: Global, code: &[u8]) -> Result<(), AllocError>
        ensures { self.new ≡ (if is_ok result then self.old ++ code.now ∷ [] else self.old) }
    {
        let number = u32::try_from(self.codes.len().saturating_add(1)).map_err(|_| AllocError)?;
        let key = Vec::from_slice(heap, code)?;
        let code = Vec::from_slice(heap, code)?;
        self.codes.reserve(1)?;
        self.numbers.entry(key)?.or_insert(number);
        Ok(self.codes.push(code)?)
    }

    // The number, from 1, of the first party with that code.
    pub fn find(&self, code: &[u8]) -> Option<u32>
        ensures { result ≡ number_of code.now self.now }
    {
        self.numbers.get(code).copied()
    }

    // The number that a name stands for: the one behind #, or else that of the first party with that code.
    pub fn named(&self, name: &[u8]) -> Option<u32>
        ensures { result ≡ party self.now name.now }
    {
        match name {
            [b'#', digits @ ..] => number_in(digits),
            code => self.find(code),
        }
    }

    // The code of the party with that number.
    pub fn code(&self, number: usize) -> Option<&[u8]>
        ensures there { IfSome result (λ code. slice_get self.now (number - 1) ≡ Some code.now) }
        ensures none { IsNone result ↔ ((number ≡ 0) ⊎ (length self.now < number)) }
    {
        self.codes
            .get(number.checked_sub(1)?)
            .map(|code| code.as_slice())
    }

    // Whether the party with that number has that code.
    fn has_code(&self, number: usize, code: &[u8]) -> bool
        ensures { IsTrue result ↔ HasCode self.now number code.now }
    {
        self.code(number).is_some_and(|known| known == code)
    }

    // Whether a party goes by that name: its code, or # and its number.
    pub fn is_named(&self, name: &[u8], number: usize) -> bool
        ensures { IsTrue result ↔ GoesBy self.now number name.now }
    {
        match name {
            [b'#', digits @ ..] => number_in::<u32>(digits).is_some_and(|wanted| usize::try_from(
                wanted,
            ).is_ok_and(|wanted| wanted == number)),
            code => self.has_code(number, code),
        }
    }

    // The codes for a directory.
    pub fn codes(&self, heap: Global) -> Result<Vec<PartyCode>, AllocError>
        ensures { IfOk result (λ codes. map sense_of codes.items ≡ map meaning_of self.now) }
    {
        self.codes
            .iter()
            .map(|code| PartyCode::of(code.as_slice()))
            .collect(heap)
    }
}
