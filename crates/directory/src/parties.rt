// Parties by code.
ghost use Rattle.std.specs.Prelude.{◌≡◌, IfOk};
ghost use Rattle.numbers.specs.Checks.{Unambiguous};
ghost use Rattle.directory.specs.Codes.{Meaning, meaning_of, text_of, sense_of, is_sign, all_signs, party_kind, InByteOrder, NoStrangers};
ghost use Rattle.directory.specs.Refusals.{checks, Opened};

use crate::keyed::Keyed;
use crate::lookup::{Directory, DirectoryRefusal};
use bounded::list::BoundedList;
use std::cmp::Ordering;

// A party's code as it is handed in, well-formed or not.
#[derive(Clone, Copy)]
pub struct PartyCode {
    text: BoundedList<u8, 8>,
    excess: usize,
}

fn is_sign(b: u8) -> bool
    ensures { result ≡ is_sign b }
{
    matches!(b, b'A'..=b'Z' | b'0'..=b'9')
}

fn all_signs(text: &[u8]) -> bool
    ensures { result ≡ all_signs text.now }
{
    text.iter().all(|&b| is_sign(b))
}

impl PartyCode {
    // The code that this text is.
    pub fn of(text: &[u8]) -> PartyCode
        ensures { sense_of result ≡ meaning_of text.now }
    {
        let mut front = BoundedList::new(0);
        front.extend_from_slice(&text[..text.len().min(8)]);
        PartyCode {
            text: front,
            excess: text.len().saturating_sub(8),
        }
    }

    // Its bytes; of a text that is too long the first 8.
    pub fn text(&self) -> &[u8]
        ensures { result.now ≡ text_of self.now }
    {
        self.text.as_slice()
    }
}

impl Keyed for PartyCode {
    type Key = PartyCode;

    ghost Sense = { Meaning };

    ghost sense = { sense_of };

    ghost kind = { party_kind };

    fn key(&self) -> PartyCode {
        *self
    }

    // Kept: a derived order would compare what lies in the free places of the text, too.
    fn compare(left: &PartyCode, right: &PartyCode) -> Ordering {
        left.text()
            .cmp(right.text())
            .then(left.excess.cmp(&right.excess))
    }

    fn is_formed(&self) -> bool {
        let text = self.text();
        !text.is_empty() && self.excess == 0 && all_signs(text)
    }

    fn most() -> usize {
        64
    }
}

// The directory of parties by their codes; the place is the party's number.
// Kept: the generic call under a name of its own, which promises more of codes.
#[tactic(auto, using(crate::proofs::Codes::no_strangers))]
pub fn parties<'a>(codes: &'a [PartyCode]) -> Result<Directory<'a, PartyCode>, DirectoryRefusal>
    ensures answer { Opened party_kind codes.now (λ d. d.records.now) result }
    ensures one { Unambiguous (checks party_kind codes.now) }
    ensures order { InByteOrder }
    ensures strangers { IfOk result (λ d. NoStrangers d.records.now) }
{
    Directory::of(codes)
}
