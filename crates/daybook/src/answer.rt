// What a record that was done is answered.
use crate::ledger::Posted;
use crate::tables::SettledSite;
use book::rows::Told;
use std::alloc::AllocError;
use text::answers::Answers;

#[derive(Clone, Copy, PartialEq, Eq, Debug)]
pub enum Answer {
    // nothing is told
    Silent,
    // that it was done
    Done,
    Site(SettledSite),
    Posted(Posted),
    Balance(i128),
    Entry(Told),
    Energy(u64),
}

// Puts a number of 128 bits. Nearly every one fits 64, and such a number is put faster.
fn put_wide(text: &mut Answers, z: i128) -> Result<(), AllocError> {
    match i64::try_from(z) {
        Ok(z) => text.signed(z),
        Err(_) => write!(text, "{z}"),
    }
}

// Puts words and the number that they name.
fn put_natural(text: &mut Answers, words: &str, n: u64) -> Result<(), AllocError> {
    text.put(words.as_bytes())?;
    text.number(n)
}

fn put_signed(text: &mut Answers, words: &str, z: i128) -> Result<(), AllocError> {
    text.put(words.as_bytes())?;
    put_wide(text, z)
}

impl Answer {
    // Puts the values, each with a blank before it.
    // Kept: piece by piece, since most of a day's answers are entries, and `write!` makes each text apart.
    pub fn put_values(&self, text: &mut Answers) -> Result<(), AllocError> {
        match *self {
            Answer::Silent | Answer::Done => Ok(()),
            Answer::Site(SettledSite { amount, rows }) => {
                put_signed(text, " amount=", i128::from(amount))?;
                put_natural(text, " rows=", rows as u64)
            }
            Answer::Posted(Posted { lines, paid, load }) => {
                put_natural(text, " lines=", lines as u64)?;
                put_signed(text, " paid=", paid)?;
                put_natural(text, " load=", load)
            }
            Answer::Balance(balance) => put_signed(text, " ", balance),
            Answer::Entry(told) => {
                let load = if told.stands {
                    " standing load="
                } else {
                    " empty load="
                };
                put_natural(text, load, u64::from(told.load))?;
                put_signed(text, " paid=", i128::from(told.paid))?;
                put_signed(text, " charged=", i128::from(told.charged))
            }
            Answer::Energy(kwh) => put_natural(text, " ", kwh),
        }
    }
}
