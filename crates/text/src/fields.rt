// The fields of a line, read from the left.
ghost use Rattle.std.specs.Prelude.{◌≡◌, true, [], count_by, length, is_some, Some, None, IfSome, MatchOption, ◌==◌, ◌≤◌};
ghost use Rattle.std.specs.List.{position, position_or_len};
ghost use Rattle.memchr.specs.Find.{is_byte};
ghost use Rattle.text.specs.declared.fields.Fault.TheVariants.{Memory};
ghost use Rattle.text.specs.Text.{front, past, until, trimmed, and_then};
ghost use Rattle.text.specs.Numbers.{number_in, number_or_zero_in};
ghost use Rattle.text.specs.Fields.{comma, in_field, left, next_text, Passes};

use crate::blanks;
use crate::numbers::{Number, number_in, plain_number};
use memchr::memchr;
use std::alloc::{AllocError, AllocFailed};

// Why a record is not read: the first field that is wrong (0: the record as a whole), or want of memory.
// Kept: 0 for the whole record, as it is told.
#[derive(Clone, Copy, Debug, PartialEq, Eq)]
pub enum Fault {
    Malformed(u32),
    Memory,
}

impl From<AllocError> for Fault {
    ghost from_gives = { λ _ f. f ≡ Memory };

    fn from(_e: AllocError) -> Fault {
        Fault::Memory
    }
}

impl<T: Drop> From<AllocFailed<T>> for Fault {
    ghost from_gives = { λ _ f. f ≡ Memory };

    fn from(_e: AllocFailed<T>) -> Fault {
        Fault::from(AllocError)
    }
}

// How many bytes of a field or an item are searched one by one.
const NEAR: usize = 16;

// What is left of a line: nothing, or a comma with the next field behind it.
#[derive(Clone, Copy)]
pub struct Fields<'t> {
    pub rest: &'t [u8],
}

// How many commas the line has.
fn commas(line: &[u8]) -> usize
    ensures { result ≡ count_by comma line.now }
{
    line.iter().filter(|b| **b == b',').count()
}

// The place of the first `end` among the bytes.
fn place_of(end: u8, bytes: &[u8]) -> Option<usize>
    ensures { result ≡ position (is_byte end) bytes.now }
{
    bytes.iter().position(|b| *b == end)
}

// How many bytes stand before the first `end`, or how many there are. Most fields are short, so the search begins byte by byte.
fn bytes_before(end: u8, text: &[u8]) -> usize
    ensures value { result ≡ position_or_len (is_byte end) text.now }
    ensures within { result ≤ length text.now }
{
    let near = &text[..text.len().min(NEAR)];
    match place_of(end, near) {
        Some(place) => place,
        None => memchr(end, text).unwrap_or(text.len()),
    }
}

// The text up to the next `END`, without the blanks around it, and what follows.
pub(crate) fn first_text<const END: u8>(text: &[u8]) -> (&[u8], &[u8])
    ensures value { result.0.now ≡ trimmed (front (until END) text.now) }
    ensures rest { result.1.now ≡ past (until END) text.now }
{
    let end = bytes_before(END, text);
    (blanks::trimmed(&text[..end]), &text[end..])
}

impl<'t> Fields<'t> {
    // The line's first field, which names the record, and the fields behind it.
    pub fn of(line: &'t [u8]) -> (&'t [u8], Fields<'t>)
        ensures name { result.0.now ≡ trimmed (front in_field line.now) }
        ensures rest { result.1.rest.now ≡ past in_field line.now }
    {
        let (name, rest) = first_text::<b','>(line);
        (name, Fields { rest })
    }

    // How many fields are left.
    pub fn count(&self) -> usize
        ensures { result ≡ length (left self.now.rest.now) }
    {
        if self.is_done() { 0 } else { commas(self.rest) }
    }

    // Whether no field is left.
    pub fn is_done(&self) -> bool
        ensures { result ≡ (length (left self.now.rest.now) == 0) }
    {
        !matches!(self.rest, [b',', ..])
    }

    // The next field's text, without the blanks around it. None where no field is left.
    pub fn text(&mut self) -> Option<&'t [u8]>
        ensures value { MatchOption result (next_text self.old.rest.now ≡ None) (λ t. next_text self.old.rest.now ≡ Some t.now) }
        ensures passes { Passes (is_some result) self.old.rest.now self.new.rest.now }
    {
        let (text, rest) = first_text::<b','>(self.rest.strip_prefix(b",")?);
        self.rest = rest;
        Some(text)
    }

    // The next field as a number, where it is digits with at most one minus before them and blanks around. None where it wants a closer
    // look: the field stays.
    fn plain<T: Number>(&mut self) -> Option<T>
        ensures value { IfSome result (λ number. and_then (next_text self.old.rest.now) (number_in T.Number.kind) ≡ Some number) }
        ensures passes { Passes (is_some result) self.old.rest.now self.new.rest.now }
    {
        let (number, rest) = plain_number::<T, b','>(self.rest.strip_prefix(b",")?)?;
        self.rest = rest;
        Some(number)
    }

    // The next field as a number. None where no field is left, or it is no number of that kind: the field stays.
    pub fn number<T: Number>(&mut self) -> Option<T>
        ensures value { result ≡ and_then (next_text self.old.rest.now) (number_in T.Number.kind) }
        ensures passes { Passes (is_some result) self.old.rest.now self.new.rest.now }
    {
        if let Some(number) = self.plain() {
            return Some(number);
        }
        let mut behind = *self;
        let number = number_in(behind.text()?)?;
        *self = behind;
        Some(number)
    }

    // Passes over the next field where nothing at all stands in it, and another field follows.
    #[tactic(auto, using(crate::proofs::Cursor::passes_on))]
    fn skip_empty(&mut self) -> bool
        ensures empty { result ≡ true → next_text self.old.rest.now ≡ Some [] }
        ensures passes { Passes result self.old.rest.now self.new.rest.now }
    {
        match self.rest {
            [b',', rest @ ..] if matches!(rest, [b',', ..]) => {
                self.rest = rest;
                true
            }
            _ => false,
        }
    }

    // The next field as a number, 0 where the field is empty.
    pub fn number_or_zero<T: Number>(&mut self) -> Option<T>
        ensures value { result ≡ and_then (next_text self.old.rest.now) (number_or_zero_in T.Number.kind) }
        ensures passes { Passes (is_some result) self.old.rest.now self.new.rest.now }
    {
        if self.skip_empty() {
            return T::from_parts(false, 0);
        }
        if let Some(number) = self.plain() {
            return Some(number);
        }
        let mut behind = *self;
        let number = match behind.text()? {
            [] => T::from_parts(false, 0)?,
            text => number_in(text)?,
        };
        *self = behind;
        Some(number)
    }
}
